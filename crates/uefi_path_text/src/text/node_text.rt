ghost use Rattle.std.specs.Prelude.{◌≡◌, Some};
ghost use Rattle.std.specs.Fmt.{DisplaysOnOk};
ghost use Rattle.uefi_path.specs.Views.{node_of};
ghost use Rattle.uefi_path_text.specs.text.NodeText.{node_text, typed_text, generic_text, is_plain_end};
ghost use Rattle.uefi_path_text.specs.text.Style.{style};
ghost use Rattle.uefi_path_text.specs.text.FileName.{file_name_text};
ghost use Rattle.uefi_path_text.specs.write.Forms.{or_text};
ghost use Rattle.uefi_path_text.specs.write.Partial.{partial_text};
ghost use Rattle.uefi_path_text.specs.private.Writing.{WritesForm};
ghost use Rattle.uefi_path_text.specs.text.Views.{node_view_text};

use crate::text::arguments::HexBytes;
use crate::text::file_name::write_file_name;
use crate::text::style::{AllowShortcuts, DisplayOnly, Style};
use crate::write::partial::write_partial;
use crate::write::write_form;
use std::fmt;
use uefi_path::{DevicePathNode, DeviceSubType, DeviceType};

/// A node as text, such as `Pci(0x2,0x0)` (UEFI 2.10, 10.6.1). [`node_to_text`] returns it.
#[derive(Clone, Copy)]
pub struct NodeText<'a> {
    node: DevicePathNode<'a>,
    style: Style,
}

impl<'a> NodeText<'a> {
    /// Returns the text of the node in the style.
    fn new(node: DevicePathNode<'a>, style: Style) -> NodeText<'a>
        ensures { node_view_text result ≡ node_text style (node_of node.entry) }
    {
        NodeText { node, style }
    }
}

/// Writes the text.
impl fmt::Display for NodeText<'_> {
    ghost output = { λ view. Some (node_view_text view) };

    fn fmt<W: fmt::Write>(&self, f: &mut fmt::Formatter<W>) -> fmt::Result {
        write_node(f, &self.node, self.style)
    }
}

/// Writes a node in the first form that has all of it, or a file's path by its name, or in the
/// generic form. The end of an instance is a comma.
pub(crate) fn write_node<W: fmt::Write>(
    f: &mut fmt::Formatter<W>,
    node: &DevicePathNode<'_>,
    style: Style,
) -> fmt::Result
    ensures { DisplaysOnOk W.write_str_gives f.old result
        (Some (node_text style (node_of node.now))) f.new }
{
    if is_plain_end(node, DeviceSubType::END_INSTANCE) {
        return f.write_str(",");
    }
    match write_typed(f, node, style) {
        Some(written) => written,
        None => write_generic(f, node),
    }
}

/// Writes a node in the first form that has all of it, or a file's path by its name, or for display
/// what a form has of it, or returns `None` and writes nothing.
fn write_typed<W: fmt::Write>(
    f: &mut fmt::Formatter<W>,
    node: &DevicePathNode<'_>,
    style: Style,
) -> Option<fmt::Result>
    ensures { WritesForm W.write_str_gives f.old result
        (typed_text style (node_of node.now)) f.new }
{
    match write_form(f, node, style) {
        Some(written) => Some(written),
        None => write_name(f, node, style),
    }
}

/// Writes a file's path by its name, or for display what a form has of the node, or returns `None`
/// and writes nothing.
fn write_name<W: fmt::Write>(
    f: &mut fmt::Formatter<W>,
    node: &DevicePathNode<'_>,
    style: Style,
) -> Option<fmt::Result>
    ensures { WritesForm W.write_str_gives f.old result
        (or_text (file_name_text (node_of node.now)) (partial_text style (node_of node.now))) f.new }
{
    match write_file_name(f, node) {
        Some(written) => Some(written),
        None => write_partial(f, node, style),
    }
}

/// Writes a node in the form that each node has: `Path(TYPE,SUBTYPE,DATA)`, with the data in hex,
/// or `Path(TYPE,SUBTYPE)` if it has no data.
#[tactic(auto, unfolding(crate::specs::text::NodeText::generic_text))]
fn write_generic<W: fmt::Write>(f: &mut fmt::Formatter<W>, node: &DevicePathNode<'_>) -> fmt::Result
    ensures { DisplaysOnOk W.write_str_gives f.old result
        (Some (generic_text (node_of node.now))) f.new }
{
    let (device_type, sub_type) = (node.device_type().0, node.sub_type().0);
    match node.data() {
        [] => write!(f, "Path({device_type},{sub_type})"),
        data => write!(f, "Path({device_type},{sub_type},{})", HexBytes(data)),
    }
}

/// Returns whether a node is of the type END, with this subtype and without data.
pub(crate) fn is_plain_end(node: &DevicePathNode<'_>, sub_type: DeviceSubType) -> bool
    ensures { result ≡ is_plain_end sub_type.0 (node_of node.now) }
{
    node.full_type() == (DeviceType::END, sub_type) && node.data().is_empty()
}

/// Returns the text of a node: in the form of its type, such as `Pci(0x2,0x0)`, if the form has all
/// of the node, or for display a part of it; and else in the generic form,
/// `Path(TYPE,SUBTYPE,DATA)` (UEFI 2.10, 10.6.1).
pub fn node_to_text<'a>(
    node: DevicePathNode<'a>,
    display_only: DisplayOnly,
    allow_shortcuts: AllowShortcuts,
) -> NodeText<'a>
    ensures { node_view_text result
        ≡ node_text (style display_only.0 allow_shortcuts.0) (node_of node.entry) }
{
    NodeText::new(node, Style::new(display_only, allow_shortcuts))
}
