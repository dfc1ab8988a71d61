ghost use Rattle.std.specs.Prelude.{◌≡◌, [], ◌∷◌, ◌++◌, Some};
ghost use Rattle.std.specs.Fmt.{DisplaysOnOk};
ghost use Rattle.uefi_path.specs.Views.{node_of, nodes_left, path_nodes, instance_nodes};
ghost use Rattle.uefi_path_text.specs.text.NodeText.{node_text};
ghost use Rattle.uefi_path_text.specs.text.PathText.{separator, is_shown_end, path_text};
ghost use Rattle.uefi_path_text.specs.text.Style.{style};
ghost use Rattle.uefi_path_text.specs.text.Views.{path_view_text};

use crate::text::node_text::{is_plain_end, write_node};
use crate::text::style::{AllowShortcuts, DisplayOnly, Style};
use std::fmt;
use uefi_path::{
    DevicePath, DevicePathInstance, DevicePathNode, DevicePathNodeIterator, DeviceSubType,
};

/// A path or an instance as text, such as `PciRoot(0x0)/Pci(0x2,0x0)` (UEFI 2.10, 10.6.1).
/// [`to_text`] and [`instance_to_text`] return it.
#[derive(Clone, Copy)]
pub struct PathText<'a> {
    nodes: DevicePathNodeIterator<'a>,
    end: DevicePathNode<'a>,
    style: Style,
}

impl<'a> PathText<'a> {
    /// Returns the text of these nodes and the END node after them.
    fn new(nodes: DevicePathNodeIterator<'a>, end: DevicePathNode<'a>, style: Style) -> PathText<'a>
        ensures { path_view_text result
            ≡ path_text style (nodes_left nodes.entry ++ (node_of end.entry ∷ [])) }
    {
        PathText { nodes, end, style }
    }
}

/// Writes the text.
impl fmt::Display for PathText<'_> {
    ghost output = { λ view. Some (path_view_text view) };

    fn fmt<W: fmt::Write>(&self, f: &mut fmt::Formatter<W>) -> fmt::Result {
        write_nodes(f, self.nodes, &self.end, self.style)
    }
}

/// Writes the text of nodes and of the END node after them.
fn write_nodes<W: fmt::Write>(
    f: &mut fmt::Formatter<W>,
    nodes: DevicePathNodeIterator<'_>,
    end: &DevicePathNode<'_>,
    style: Style,
) -> fmt::Result
    ensures { DisplaysOnOk W.write_str_gives f.old result
        (Some (path_text style (nodes_left nodes.entry ++ (node_of end.now ∷ [])))) f.new }
{
    let mut is_first = true;
    for node in nodes {
        write_next(f, &node, is_first, style)?;
        is_first = is_plain_end(&node, DeviceSubType::END_INSTANCE);
    }
    if is_shown_end(end) {
        write_next(f, end, is_first, style)?;
    }
    Ok(())
}

/// Writes a node, after a slash if it follows another one of its instance.
fn write_next<W: fmt::Write>(
    f: &mut fmt::Formatter<W>,
    node: &DevicePathNode<'_>,
    is_first: bool,
    style: Style,
) -> fmt::Result
    ensures { DisplaysOnOk W.write_str_gives f.old result
        (Some (separator is_first (node_of node.now) ++ node_text style (node_of node.now))) f.new }
{
    if !is_first && !is_plain_end(node, DeviceSubType::END_INSTANCE) {
        f.write_str("/")?;
    }
    write_node(f, node, style)
}

/// Returns whether the node that ends a path or an instance has a text: whether it has data, or no
/// known subtype.
fn is_shown_end(node: &DevicePathNode<'_>) -> bool
    ensures { result ≡ is_shown_end (node_of node.now) }
{
    !is_plain_end(node, DeviceSubType::END_INSTANCE)
        && !is_plain_end(node, DeviceSubType::END_ENTIRE)
}

/// Returns the text of a path: instances with `,` between them, of nodes with `/` between them,
/// each as [`node_to_text`](crate::node_to_text) returns it (UEFI 2.10, 10.6.1).
///
/// An empty instance is an empty text, and so is the path that has no other one.
pub fn to_text<'a>(
    path: DevicePath<'a>,
    display_only: DisplayOnly,
    allow_shortcuts: AllowShortcuts,
) -> PathText<'a>
    ensures { path_view_text result
        ≡ path_text (style display_only.0 allow_shortcuts.0) (path_nodes path.entry) }
{
    let style = Style::new(display_only, allow_shortcuts);
    PathText::new(path.node_iter(), path.end_node(), style)
}

/// Returns the text of an instance of a path: nodes with `/` between them.
pub fn instance_to_text<'a>(
    instance: DevicePathInstance<'a>,
    display_only: DisplayOnly,
    allow_shortcuts: AllowShortcuts,
) -> PathText<'a>
    ensures { path_view_text result
        ≡ path_text (style display_only.0 allow_shortcuts.0) (instance_nodes instance.entry) }
{
    let style = Style::new(display_only, allow_shortcuts);
    PathText::new(instance.node_iter(), instance.end_node(), style)
}
