//! Nodes as text, in their forms.

ghost use Rattle.uefi_path.specs.Views.{node_of};
ghost use Rattle.uefi_path_text.specs.write.Forms.{form_text, displayed_text, read_form_text};
ghost use Rattle.uefi_path_text.specs.private.Writing.{WritesForm};

use crate::forms::{Section, sections};
use crate::text::style::Style;
use crate::write::form::{write_in_forms, write_in_sections};
use std::fmt;
use uefi_path::DevicePathNode;

pub(crate) mod bytes;
mod fields;
mod form;
pub(crate) mod partial;
mod repeated;
mod value;

/// Writes a node in the first of the forms that has all of it, or returns `None` and writes nothing
/// if there is none.
pub(crate) fn write_form<W: fmt::Write>(
    f: &mut fmt::Formatter<W>,
    node: &DevicePathNode<'_>,
    style: Style,
) -> Option<fmt::Result>
    ensures { WritesForm W.write_str_gives f.old result
        (form_text style (node_of node.now)) f.new }
{
    match write_displayed(f, node, style) {
        Some(written) => Some(written),
        None => write_read(f, node, style),
    }
}

/// The same in the forms that are for display alone, if the text is.
fn write_displayed<W: fmt::Write>(
    f: &mut fmt::Formatter<W>,
    node: &DevicePathNode<'_>,
    style: Style,
) -> Option<fmt::Result>
    ensures { WritesForm W.write_str_gives f.old result
        (displayed_text style (node_of node.now)) f.new }
{
    if style.display_only {
        write_in_forms(f, Section::Display.forms(), node, style)
    } else {
        None
    }
}

/// The same in the forms in which nodes are read.
fn write_read<W: fmt::Write>(
    f: &mut fmt::Formatter<W>,
    node: &DevicePathNode<'_>,
    style: Style,
) -> Option<fmt::Result>
    ensures { WritesForm W.write_str_gives f.old result
        (read_form_text style (node_of node.now)) f.new }
{
    write_in_sections(f, sections(), node, style)
}
