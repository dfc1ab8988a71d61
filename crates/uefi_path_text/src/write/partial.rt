//! The text for display of a node that no form has all of.

ghost use Rattle.std.specs.Prelude.{◌≡◌, ◌<◌, ◌+◌, ◌^◌, [], length, Some, map, take, drop};
ghost use Rattle.std.specs.Fmt.{DisplaysOnOk};
ghost use Rattle.uefi_path.specs.Views.{node_of};
ghost use Rattle.uefi_path_text.specs.write.Forms.{marked, or_text};
ghost use Rattle.uefi_path_text.specs.write.Partial.{chooses_form, may_be, partial_value, one_less, has_bytes, begin_with, may_be_all, may_have, may_have_node, partial_values, partial_from, partial_form_text, partial_in_forms, partial_in_sections, partial_form, partial_name, partial_text};
ghost use Rattle.uefi_path_text.specs.private.FormViews.{parameter_of, part_of, arguments_of, form_of};
ghost use Rattle.uefi_path_text.specs.form.NodeForm.{listed};
ghost use Rattle.uefi_path_text.specs.private.Found.{found_bytes, values_after};
ghost use Rattle.uefi_path_text.specs.private.Writing.{WritesForm};

use crate::form::argument::Argument;
use crate::form::words::Words;
use crate::form::{Arguments, NodeForm, Parameter, Part};
use crate::forms::{Section, sections};
use crate::text::escape::{EscapedBytes, EscapedUnits};
use crate::text::style::Style;
use crate::write::bytes::{after, front, number};
use crate::write::fields::{Fields, Found, part_size};
use crate::write::repeated::repeated_count;
use crate::write::value::{write_ipv4, write_word};
use std::fmt;
use uefi_path::{DevicePathNode, DeviceSubType, DeviceType};

/// Writes a node for display in the first form that may have it, or the name of a file, or returns
/// `None` and writes nothing if there is none, or the text isn't for display.
pub(crate) fn write_partial<W: fmt::Write>(
    f: &mut fmt::Formatter<W>,
    node: &DevicePathNode<'_>,
    style: Style,
) -> Option<fmt::Result>
    ensures { WritesForm W.write_str_gives f.old result
        (partial_text style (node_of node.now)) f.new }
{
    if style.display_only {
        write_form_or_name(f, node, style)
    } else {
        None
    }
}

/// Writes a node in the first form that may have it, or the name of a file.
fn write_form_or_name<W: fmt::Write>(
    f: &mut fmt::Formatter<W>,
    node: &DevicePathNode<'_>,
    style: Style,
) -> Option<fmt::Result>
    ensures { WritesForm W.write_str_gives f.old result
        (or_text (partial_form style (node_of node.now)) (partial_name (node_of node.now))) f.new }
{
    match write_form(f, node, style) {
        Some(written) => Some(written),
        None => write_name(f, node),
    }
}

/// Writes a node in the first form that may have it.
fn write_form<W: fmt::Write>(
    f: &mut fmt::Formatter<W>,
    node: &DevicePathNode<'_>,
    style: Style,
) -> Option<fmt::Result>
    ensures { WritesForm W.write_str_gives f.old result
        (partial_form style (node_of node.now)) f.new }
{
    write_in_sections(f, sections(), node, style)
}

/// The same in the forms of these sections.
fn write_in_sections<W: fmt::Write>(
    f: &mut fmt::Formatter<W>,
    sections: &[Section],
    node: &DevicePathNode<'_>,
    style: Style,
) -> Option<fmt::Result>
    ensures { WritesForm W.write_str_gives f.old result
        (partial_in_sections sections.now style (node_of node.now)) f.new }
{
    let Some((section, others)) = sections.split_first() else {
        return None;
    };
    match write_in_forms(f, section.forms(), node, style) {
        Some(written) => Some(written),
        None => write_in_sections(f, others, node, style),
    }
}

/// The same in these forms.
fn write_in_forms<W: fmt::Write>(
    f: &mut fmt::Formatter<W>,
    forms: &[NodeForm],
    node: &DevicePathNode<'_>,
    style: Style,
) -> Option<fmt::Result>
    ensures { WritesForm W.write_str_gives f.old result
        (partial_in_forms (map form_of forms.now) style (node_of node.now)) f.new }
{
    let Some((form, others)) = forms.split_first() else {
        return None;
    };
    if form.may_have_node(node, style) {
        Some(form.write_partial(f, node.data()))
    } else {
        write_in_forms(f, others, node, style)
    }
}

/// Writes the name of a file, if it isn't empty.
#[tactic(auto, unfolding(crate::specs::write::Partial::partial_name))]
fn write_name<W: fmt::Write>(
    f: &mut fmt::Formatter<W>,
    node: &DevicePathNode<'_>,
) -> Option<fmt::Result>
    ensures { WritesForm W.write_str_gives f.old result (partial_name (node_of node.now)) f.new }
{
    let name = EscapedUnits::new(node.data());
    if node.full_type() != (DeviceType::MEDIA, DeviceSubType::MEDIA_FILE_PATH) || name.is_empty() {
        return None;
    }
    Some(write!(f, "{name}"))
}

impl NodeForm {
    /// Returns whether the form is one of the style, and may be that of a node.
    fn may_have_node(&self, node: &DevicePathNode<'_>, style: Style) -> bool
        ensures { result ≡ may_have_node (form_of self.now) style (node_of node.now) }
    {
        (!self.is_shortcut || style.allow_shortcuts)
            && self.device_type.is_number(node.device_type().0)
            && self.sub_type.is_number(node.sub_type().0)
            && self.arguments.may_have(self.reserved, node.data())
    }

    /// Writes what the form has of the data of a node.
    fn write_partial<W: fmt::Write>(&self, f: &mut fmt::Formatter<W>, payload: &[u8]) -> fmt::Result
        ensures { DisplaysOnOk W.write_str_gives f.old result
            (Some (partial_form_text (form_of self.now) payload.now)) f.new }
    {
        f.write_str(self.name)?;
        f.write_str("(")?;
        match self.arguments {
            Arguments::Listed(parameters, parts) => {
                Fields {
                    parameters,
                    parts,
                    payload,
                }
                .write_partial(
                    f,
                    usize::from(self.first_displayed),
                    usize::from(self.displayed),
                )
            }
            Arguments::Repeated(prefix, argument) => {
                let rest = after(payload, prefix.len());
                write_partial_values(f, argument, repeated_count(argument, rest), rest, "")
            }
        }
    }
}

impl Arguments {
    /// Returns whether the data of a node may be those of the arguments, whatever the reserved bytes
    /// are.
    fn may_have(&self, reserved: Option<u8>, payload: &[u8]) -> bool
        ensures { result ≡ may_have reserved (arguments_of self.now) payload.now }
    {
        match *self {
            Arguments::Listed(parameters, parts) => {
                Fields {
                    parameters,
                    parts,
                    payload,
                }
                .may_be(reserved)
            }
            Arguments::Repeated(prefix, _) => front(payload, prefix.len()) == prefix,
        }
    }
}

impl Fields<'_> {
    /// Returns whether the data begin with the parts, whatever the reserved bytes are, and have
    /// values that the form may have.
    fn may_be(&self, reserved: Option<u8>) -> bool
        ensures { result ≡ may_have reserved (listed
            (map parameter_of self.now.parameters.now) (map part_of self.now.parts.now)) self.now.payload.now }
    {
        // Its length says that an index of an argument has no overflow.
        let _few = self.parameters.len();
        self.begin_with(self.parts, reserved, self.payload) && self.may_be_all(self.parameters, 0)
    }

    /// Returns whether bytes begin with these parts.
    fn begin_with(&self, parts: &[Part], reserved: Option<u8>, rest: &[u8]) -> bool
        ensures { result ≡ begin_with (map parameter_of self.now.parameters.now)
            (map part_of parts.now) reserved rest.now }
    {
        let Some((part, others)) = parts.split_first() else {
            return true;
        };
        let size = part_size(self.parameters, part, rest);
        size <= rest.len()
            && (reserved == Some(0) || part.has_bytes(rest))
            && self.begin_with(others, one_less(reserved), after(rest, size))
    }

    /// Returns whether the values of these arguments, from an index on, may be those of the form.
    fn may_be_all(&self, parameters: &[Parameter], index: usize) -> bool
        requires { index + length parameters.now < 2 ^ 64 }
        ensures { result ≡ may_be_all (map parameter_of parameters.now)
            (values_after self.now (map parameter_of parameters.now) index) }
    {
        let Some((parameter, others)) = parameters.split_first() else {
            return true;
        };
        self.found(index).may_be(parameter.argument) && self.may_be_all(others, index + 1)
    }

    /// Writes what so many arguments have of their values, from an index on, with commas between
    /// them, and the closing parenthesis.
    fn write_partial<W: fmt::Write>(
        &self,
        f: &mut fmt::Formatter<W>,
        first: usize,
        count: usize,
    ) -> fmt::Result
        requires { first + count < 2 ^ 64 }
        ensures { DisplaysOnOk W.write_str_gives f.old result
            (Some (marked [] (partial_values (take count (drop first (map parameter_of self.now.parameters.now)))
            (values_after self.now (take count (drop first (map parameter_of self.now.parameters.now))) first)))) f.new }
    {
        let shown = front(after(self.parameters, first), count);
        self.write_partial_from(f, shown, first, "")
    }

    /// The same for these arguments, with a mark before the first.
    fn write_partial_from<W: fmt::Write>(
        &self,
        f: &mut fmt::Formatter<W>,
        parameters: &[Parameter],
        index: usize,
        mark: &str,
    ) -> fmt::Result
        requires { index + length parameters.now < 2 ^ 64 }
        ensures { DisplaysOnOk W.write_str_gives f.old result
            (Some (marked mark.now (partial_values (map parameter_of parameters.now)
            (values_after self.now (map parameter_of parameters.now) index)))) f.new }
    {
        let Some((parameter, others)) = parameters.split_first() else {
            return f.write_str(")");
        };
        let value = self.found(index);
        if others.is_empty() && value.is_left_out(parameter.argument) {
            return f.write_str(")");
        }
        f.write_str(mark)?;
        value.write_partial(f, parameter.argument)?;
        self.write_partial_from(f, others, index + 1, ",")
    }
}

/// Returns the index one less, if it isn't 0.
fn one_less(index: Option<u8>) -> Option<u8>
    ensures { result ≡ one_less index }
{
    index?.checked_sub(1)
}

impl Found<'_> {
    /// Returns whether the value may be one of a form with the argument.
    fn may_be(&self, argument: Argument) -> bool
        ensures { result ≡ may_be argument (found_bytes self.now) }
    {
        match self {
            Found::Bytes(bytes) => argument.may_be(bytes),
            Found::Number(number) => argument.may_be(&number.to_le_bytes()),
        }
    }

    /// Writes what the argument has of the value.
    fn write_partial<W: fmt::Write>(
        &self,
        f: &mut fmt::Formatter<W>,
        argument: Argument,
    ) -> fmt::Result
        ensures { DisplaysOnOk W.write_str_gives f.old result
            (Some (partial_value argument (found_bytes self.now))) f.new }
    {
        match self {
            Found::Bytes(bytes) => argument.write_partial(f, bytes),
            Found::Number(number) => argument.write_partial(f, &number.to_le_bytes()),
        }
    }
}

/// Writes what the argument has of so many values, with a mark before the first and commas between
/// them, and the closing parenthesis.
fn write_partial_values<W: fmt::Write>(
    f: &mut fmt::Formatter<W>,
    argument: Argument,
    count: usize,
    rest: &[u8],
    mark: &str,
) -> fmt::Result
    ensures { DisplaysOnOk W.write_str_gives f.old result
        (Some (marked mark.now (partial_from argument count rest.now))) f.new }
{
    if count == 0 {
        return f.write_str(")");
    }
    let size = argument.value_size(rest);
    f.write_str(mark)?;
    argument.write_partial(f, front(rest, size))?;
    write_partial_values(f, argument, count - 1, after(rest, size), ",")
}

impl Part {
    /// Returns whether bytes begin with those of the part, if it has some.
    fn has_bytes(&self, rest: &[u8]) -> bool
        ensures { result ≡ has_bytes (part_of self.now) rest.now }
    {
        match self {
            Part::Bytes(bytes) => front(rest, bytes.len()) == *bytes,
            _ => true,
        }
    }
}

impl Argument {
    /// Returns whether a value may be one of a form with the argument.
    fn may_be(self, value: &[u8]) -> bool
        ensures { result ≡ may_be self value.now }
    {
        match self {
            Argument::Word(words, size) => {
                value.len() == size.bytes()
                    && (!words.chooses_form() || words.word_for(number(value)).is_some())
            }
            Argument::Ipv4Server => value.len() == 16,
            Argument::Text(_) | Argument::Quoted => true,
            Argument::Name(_) => !value.is_empty(),
            _ => self.can_show(value),
        }
    }

    /// Writes what the argument has of a value.
    fn write_partial<W: fmt::Write>(self, f: &mut fmt::Formatter<W>, value: &[u8]) -> fmt::Result
        ensures { DisplaysOnOk W.write_str_gives f.old result
            (Some (partial_value self value.now)) f.new }
    {
        match self {
            Argument::Text(_) | Argument::Name(_) => write!(f, "{}", EscapedBytes(value)),
            Argument::Quoted => write!(f, "\"{}\"", EscapedUnits::new(value)),
            Argument::Word(words, size) if value.len() == size.bytes() => {
                write_word(f, words, value)
            }
            Argument::Ipv4Server if value.len() == 16 => write_ipv4(f, value),
            _ if self.can_show(value) => self.write_value(f, value),
            _ => Ok(()),
        }
    }
}

impl Words {
    /// Returns whether a type's form is chosen by the word.
    fn chooses_form(self) -> bool
        ensures { result ≡ chooses_form self }
    {
        matches!(self, Words::NoTopology | Words::Zero)
    }
}
