//! The text of a node in a form.

ghost use Rattle.std.specs.Prelude.{◌≡◌, ◌<◌, ◌+◌, ◌^◌, [], Some, map, IsTrue};
ghost use Rattle.std.specs.Fmt.{DisplaysOnOk};
ghost use Rattle.uefi_path.specs.Views.{node_of};
ghost use Rattle.uefi_path_text.specs.write.Forms.{text_in_forms, text_in_sections, is_form_of, text_in_form, has_node, has_data, argument_texts, displayed_texts, marked, is_source};
ghost use Rattle.uefi_path_text.specs.private.FormViews.{form_of, arguments_of, source_of};
ghost use Rattle.uefi_path_text.specs.private.Writing.{WritesForm};

use crate::form::{Arguments, NodeForm, Source};
use crate::forms::Section;
use crate::text::style::Style;
use crate::write::bytes::{after, front};
use crate::write::fields::Fields;
use crate::write::repeated::{are_repeated, repeated_count, write_values};
use std::fmt;
use uefi_path::DevicePathNode;

/// Writes a node in the first of these forms that has all of it, or returns `None` and writes
/// nothing if there is none.
pub(crate) fn write_in_forms<W: fmt::Write>(
    f: &mut fmt::Formatter<W>,
    forms: &[NodeForm],
    node: &DevicePathNode<'_>,
    style: Style,
) -> Option<fmt::Result>
    ensures { WritesForm W.write_str_gives f.old result
        (text_in_forms (map form_of forms.now) style (node_of node.now)) f.new }
{
    let Some((form, others)) = forms.split_first() else {
        return None;
    };
    if form.is_form_of(node, style) {
        Some(form.write(f, node.data(), style))
    } else {
        write_in_forms(f, others, node, style)
    }
}

/// The same in the forms of these sections.
pub(crate) fn write_in_sections<W: fmt::Write>(
    f: &mut fmt::Formatter<W>,
    sections: &[Section],
    node: &DevicePathNode<'_>,
    style: Style,
) -> Option<fmt::Result>
    ensures { WritesForm W.write_str_gives f.old result
        (text_in_sections sections.now style (node_of node.now)) f.new }
{
    let Some((section, others)) = sections.split_first() else {
        return None;
    };
    match write_in_forms(f, section.forms(), node, style) {
        Some(written) => Some(written),
        None => write_in_sections(f, others, node, style),
    }
}

impl NodeForm {
    /// Returns whether the form is one of the style, and has all of a node.
    fn is_form_of(&self, node: &DevicePathNode<'_>, style: Style) -> bool
        ensures { result ≡ is_form_of (form_of self.now) style (node_of node.now) }
    {
        (!self.is_shortcut || style.allow_shortcuts) && self.has_node(node)
    }

    /// Returns whether the form has all of a node.
    fn has_node(&self, node: &DevicePathNode<'_>) -> bool
        ensures { result ≡ has_node (form_of self.now) (node_of node.now) }
    {
        self.device_type.is_number(node.device_type().0)
            && self.sub_type.is_number(node.sub_type().0)
            && self.arguments.have_data(node.data())
    }

    /// Writes the data of a node in the form.
    fn write<W: fmt::Write>(
        &self,
        f: &mut fmt::Formatter<W>,
        payload: &[u8],
        style: Style,
    ) -> fmt::Result
        requires { IsTrue (has_data (form_of self.now).arguments payload.now) }
        ensures { DisplaysOnOk W.write_str_gives f.old result
            (Some (text_in_form (form_of self.now) style payload.now)) f.new }
    {
        f.write_str(self.name)?;
        f.write_str("(")?;
        if style.display_only {
            self.write_displayed(f, payload)
        } else {
            self.arguments.write(f, payload)
        }
    }

    /// Writes the arguments for display.
    fn write_displayed<W: fmt::Write>(
        &self,
        f: &mut fmt::Formatter<W>,
        payload: &[u8],
    ) -> fmt::Result
        requires { IsTrue (has_data (form_of self.now).arguments payload.now) }
        ensures { DisplaysOnOk W.write_str_gives f.old result (Some (marked []
            (displayed_texts (form_of self.now) (form_of self.now).arguments payload.now))) f.new }
    {
        match self.arguments {
            Arguments::Listed(parameters, parts) => {
                Fields {
                    parameters,
                    parts,
                    payload,
                }
                .write_some(
                    f,
                    usize::from(self.first_displayed),
                    usize::from(self.displayed),
                )
            }
            Arguments::Repeated(_, _) => self.arguments.write(f, payload),
        }
    }
}

impl Arguments {
    /// Returns whether the data of a node are those of the arguments.
    fn have_data(&self, payload: &[u8]) -> bool
        ensures { result ≡ has_data (arguments_of self.now) payload.now }
    {
        match *self {
            Arguments::Listed(parameters, parts) => {
                Fields {
                    parameters,
                    parts,
                    payload,
                }
                .are_whole()
            }
            Arguments::Repeated(prefix, argument) => {
                front(payload, prefix.len()) == prefix
                    && are_repeated(argument, after(payload, prefix.len()))
            }
        }
    }

    /// Writes the arguments.
    fn write<W: fmt::Write>(&self, f: &mut fmt::Formatter<W>, payload: &[u8]) -> fmt::Result
        requires { IsTrue (has_data (arguments_of self.now) payload.now) }
        ensures { DisplaysOnOk W.write_str_gives f.old result
            (Some (marked [] (argument_texts (arguments_of self.now) payload.now))) f.new }
    {
        match *self {
            Arguments::Listed(parameters, parts) => {
                Fields {
                    parameters,
                    parts,
                    payload,
                }
                .write(f)
            }
            Arguments::Repeated(prefix, argument) => {
                let rest = after(payload, prefix.len());
                write_values(f, argument, repeated_count(argument, rest), rest, "")
            }
        }
    }
}

impl Source {
    /// Returns whether it is a number.
    pub(crate) fn is_number(self, number: u8) -> bool
        ensures { result ≡ is_source (source_of self) number }
    {
        match self {
            Source::Known(known) => known == number,
            Source::Stated(_) => false,
        }
    }
}
