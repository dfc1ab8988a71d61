ghost use Rattle.std.specs.Prelude.{◌≡◌, ◌<◌, ◌+◌, ◌^◌, ◌↔◌, ◌++◌, [], length, Some, IsTrue, MatchOption, map, take, drop};
ghost use Rattle.std.specs.Fmt.{DisplaysOnOk};
ghost use Rattle.uefi_path_text.specs.form.NodeForm.{listed};
ghost use Rattle.uefi_path_text.specs.parse.Arguments.{value_at, number_of, number_sum, part_bytes, parts_data, with_zeros};
ghost use Rattle.uefi_path_text.specs.write.Fields.{argument_at, size_of, part_size, is_of, value_of_part, value_found, zero_value, addend};
ghost use Rattle.uefi_path_text.specs.write.Forms.{all_shown, shown_texts, marked, has_data, is_left_out};
ghost use Rattle.uefi_path_text.specs.write.Values.{can_show, value_text};
ghost use Rattle.uefi_path_text.specs.private.FormViews.{parameter_of, part_of};
ghost use Rattle.uefi_path_text.specs.private.Found.{found_bytes, values_of, found_at, values_after, IsAfter};

use crate::form::argument::Argument;
use crate::form::{Parameter, Part};
use crate::write::bytes::{after, after_front, front, number};
use std::fmt;

/// The data of a node, and what a form makes of them.
#[derive(Clone, Copy)]
pub(crate) struct Fields<'a> {
    /// The arguments of the form.
    pub(crate) parameters: &'static [Parameter],
    /// The parts of the data.
    pub(crate) parts: &'static [Part],
    /// The data.
    pub(crate) payload: &'a [u8],
}

/// The value of an argument.
#[derive(Clone, Copy)]
pub(crate) enum Found<'a> {
    /// Bytes of the data.
    Bytes(&'a [u8]),
    /// A number of two bytes.
    Number(u16),
}

impl<'a> Found<'a> {
    /// Returns whether the value has a text as an argument.
    fn can_show(&self, argument: Argument) -> bool
        ensures { result ≡ can_show argument (found_bytes self.now) }
    {
        match self {
            Found::Bytes(bytes) => argument.can_show(bytes),
            Found::Number(number) => argument.can_show(&number.to_le_bytes()),
        }
    }

    /// Returns whether the value is left out, if it is the last.
    pub(crate) fn is_left_out(&self, argument: Argument) -> bool
        ensures { result ≡ is_left_out argument (found_bytes self.now) }
    {
        match self {
            Found::Bytes(bytes) => argument.is_left_out(bytes),
            Found::Number(number) => argument.is_left_out(&number.to_le_bytes()),
        }
    }

    /// Writes the value as an argument.
    fn write<W: fmt::Write>(&self, f: &mut fmt::Formatter<W>, argument: Argument) -> fmt::Result
        requires { IsTrue (can_show argument (found_bytes self.now)) }
        ensures { DisplaysOnOk W.write_str_gives f.old result
            (Some (value_text argument (found_bytes self.now))) f.new }
    {
        match self {
            Found::Bytes(bytes) => argument.write_value(f, bytes),
            Found::Number(number) => argument.write_value(f, &number.to_le_bytes()),
        }
    }

    /// Returns the number of two bytes that the value is, or else 0.
    fn number(&self) -> u16
        ensures { result ≡ number_of (found_bytes self.now) }
    {
        match self {
            Found::Bytes([low, high]) => u16::from_le_bytes([*low, *high]),
            Found::Bytes(_) => 0,
            Found::Number(number) => *number,
        }
    }

    /// Returns what follows the value in bytes, if they begin with it.
    fn after<'b>(&self, rest: &'b [u8]) -> Option<&'b [u8]>
        ensures { IsAfter (found_bytes self.now) rest.now result }
    {
        match self {
            Found::Bytes(bytes) => after_front(rest, bytes),
            Found::Number(number) => after_front(rest, &number.to_le_bytes()),
        }
    }

    /// Returns the number of bytes.
    fn len(&self) -> usize
        ensures { result ≡ length (found_bytes self.now) }
    {
        match self {
            Found::Bytes(bytes) => bytes.len(),
            Found::Number(_) => 2,
        }
    }
}

/// Returns the argument at an index, if there is one.
fn argument_at(parameters: &[Parameter], index: usize) -> Option<Argument>
    ensures { result ≡ argument_at (map parameter_of parameters.now) index }
{
    let (parameter, others) = parameters.split_first()?;
    if index == 0 {
        Some(parameter.argument)
    } else {
        argument_at(others, index - 1)
    }
}

/// Returns how many of the bytes are the value of the argument at an index.
fn size_at(parameters: &[Parameter], index: usize, rest: &[u8]) -> usize
    ensures { result ≡ size_of (argument_at (map parameter_of parameters.now) index) rest.now }
{
    match argument_at(parameters, index) {
        None => 0,
        Some(argument) => argument.value_size(rest),
    }
}

/// Returns what an argument adds to a sum.
fn addend(argument: Option<Argument>, sum: u16) -> u16
    ensures { result ≡ addend argument sum }
{
    match argument {
        Some(Argument::Word(words, _)) => words.bit_word(u64::from(sum)) as u16,
        Some(Argument::DriveBay) => sum % 0x10 + sum / 0x100 * 0x100,
        _ => 0,
    }
}

/// Returns how many bytes a part has.
pub(crate) fn part_size(parameters: &[Parameter], part: &Part, rest: &[u8]) -> usize
    ensures { result ≡ part_size (map parameter_of parameters.now) (part_of part.now) rest.now }
{
    match part {
        Part::Bytes(bytes) => bytes.len(),
        Part::Value(index) => size_at(parameters, *index, rest),
        Part::Padded(_) => 32,
        Part::Sum(_, _) => 2,
    }
}

/// Returns whether a part has the value of the argument at an index.
fn is_of(index: usize, part: &Part) -> bool
    ensures { result ≡ is_of index (part_of part.now) }
{
    match part {
        Part::Bytes(_) => false,
        Part::Value(i) | Part::Padded(i) => *i == index,
        Part::Sum(first, count) => {
            usize::from(*first) <= index && index < usize::from(*first) + usize::from(*count)
        }
    }
}

/// Returns the value of the argument at an index that a part has.
fn value_of_part<'a>(
    parameters: &[Parameter],
    index: usize,
    part: &Part,
    rest: &'a [u8],
) -> Found<'a>
    ensures { found_bytes result ≡ value_of_part
        (argument_at (map parameter_of parameters.now) index) (part_of part.now) rest.now }
{
    match part {
        Part::Bytes(_) => Found::Bytes(&[]),
        Part::Value(_) => Found::Bytes(front(rest, size_at(parameters, index, rest))),
        Part::Padded(_) => {
            Found::Bytes(front(front(rest, 32), size_at(parameters, index, rest)))
        }
        Part::Sum(_, _) => {
            let sum = number(front(rest, 2)) as u16;
            Found::Number(addend(argument_at(parameters, index), sum))
        }
    }
}

/// Returns the value of an argument that is in no part.
fn zero_value(argument: Option<Argument>) -> Found<'static>
    ensures { found_bytes result ≡ zero_value argument }
{
    match argument {
        Some(Argument::Word(_, size)) => Found::Bytes(&[0; 8][..size.bytes()]),
        _ => Found::Bytes(&[]),
    }
}

/// Returns the value of the argument at an index that these parts have.
fn value_found<'a>(
    parameters: &[Parameter],
    parts: &[Part],
    index: usize,
    rest: &'a [u8],
) -> Found<'a>
    ensures { found_bytes result ≡ value_found
        (map parameter_of parameters.now) (map part_of parts.now) index rest.now }
{
    let Some((part, others)) = parts.split_first() else {
        return zero_value(argument_at(parameters, index));
    };
    if is_of(index, part) {
        value_of_part(parameters, index, part, rest)
    } else {
        let size = part_size(parameters, part, rest);
        value_found(parameters, others, index, after(rest, size))
    }
}

impl<'a> Fields<'a> {
    /// Returns the value of the argument at an index.
    pub(crate) fn found(&self, index: usize) -> Found<'a>
        ensures { found_bytes result ≡ found_at self.now index }
    {
        value_found(self.parameters, self.parts, index, self.payload)
    }

    /// The same, or the empty value if there is none.
    fn value(&self, index: usize) -> Found<'a>
        ensures { found_bytes result ≡ value_at index (values_of self.now) }
    {
        if index < self.parameters.len() {
            self.found(index)
        } else {
            Found::Bytes(&[])
        }
    }

    /// Returns the sum of numbers of two bytes: of the arguments from an index on, so many.
    fn sum(&self, index: u8, count: u8) -> u64
        ensures { result ≡ number_sum (take count (drop index (values_of self.now))) }
    {
        let mut sum = 0;
        for i in 0..count {
            let value = self.value(usize::from(index) + usize::from(i));
            sum += u64::from(value.number());
        }
        sum
    }

    /// Returns what follows a part in bytes, if they begin with it.
    fn after_part<'b>(&self, part: &Part, rest: &'b [u8]) -> Option<&'b [u8]>
        ensures { IsAfter (part_bytes (values_of self.now) (part_of part.now)) rest.now result }
    {
        match part {
            Part::Bytes(bytes) => after_front(rest, bytes),
            Part::Value(index) => self.value(*index).after(rest),
            Part::Padded(index) => after_padded(&self.value(*index), rest),
            Part::Sum(index, count) => {
                let sum = self.sum(*index, *count).to_le_bytes();
                after_front(rest, &sum[..2])
            }
        }
    }

    /// Returns whether bytes are the parts.
    fn are_parts(&self, parts: &[Part], rest: &[u8]) -> bool
        ensures { IsTrue result ↔ (parts_data (values_of self.now) (map part_of parts.now) ≡ rest.now) }
    {
        let Some((part, others)) = parts.split_first() else {
            return rest.is_empty();
        };
        match self.after_part(part, rest) {
            None => false,
            Some(more) => self.are_parts(others, more),
        }
    }

    /// Returns whether the values of these arguments, from an index on, have texts.
    fn are_shown(&self, parameters: &[Parameter], index: usize) -> bool
        requires { index + length parameters.now < 2 ^ 64 }
        ensures { result ≡ all_shown (map parameter_of parameters.now)
            (values_after self.now (map parameter_of parameters.now) index) }
    {
        let Some((parameter, others)) = parameters.split_first() else {
            return true;
        };
        self.found(index).can_show(parameter.argument) && self.are_shown(others, index + 1)
    }

    /// Returns whether the data are the parts of the values, which have texts.
    pub(crate) fn are_whole(&self) -> bool
        ensures { result ≡ has_data (listed
            (map parameter_of self.now.parameters.now) (map part_of self.now.parts.now)) self.now.payload.now }
    {
        // Its length says that an index of an argument has no overflow.
        let _few = self.parameters.len();
        self.are_parts(self.parts, self.payload) && self.are_shown(self.parameters, 0)
    }

    /// Writes the values of the arguments, with commas between them, and the closing parenthesis.
    pub(crate) fn write<W: fmt::Write>(&self, f: &mut fmt::Formatter<W>) -> fmt::Result
        requires { IsTrue (all_shown (map parameter_of self.now.parameters.now) (values_of self.now)) }
        ensures { DisplaysOnOk W.write_str_gives f.old result
            (Some (marked [] (shown_texts (map parameter_of self.now.parameters.now) (values_of self.now)))) f.new }
    {
        // Its length says that an index of an argument has no overflow.
        let _few = self.parameters.len();
        self.write_from(f, self.parameters, 0, "")
    }

    /// The same for so many arguments, from an index on.
    pub(crate) fn write_some<W: fmt::Write>(
        &self,
        f: &mut fmt::Formatter<W>,
        first: usize,
        count: usize,
    ) -> fmt::Result
        requires few { first + count < 2 ^ 64 }
        requires shown { IsTrue (all_shown (map parameter_of self.now.parameters.now) (values_of self.now)) }
        ensures { DisplaysOnOk W.write_str_gives f.old result
            (Some (marked [] (shown_texts (take count (drop first (map parameter_of self.now.parameters.now)))
            (values_after self.now (take count (drop first (map parameter_of self.now.parameters.now))) first)))) f.new }
    {
        let shown = front(after(self.parameters, first), count);
        self.write_from(f, shown, first, "")
    }

    /// Writes the values of these arguments, from an index on, with a mark before the first and
    /// commas between them, and the closing parenthesis.
    fn write_from<W: fmt::Write>(
        &self,
        f: &mut fmt::Formatter<W>,
        parameters: &[Parameter],
        index: usize,
        mark: &str,
    ) -> fmt::Result
        requires room { index + length parameters.now < 2 ^ 64 }
        requires shown { IsTrue (all_shown (map parameter_of parameters.now)
            (values_after self.now (map parameter_of parameters.now) index)) }
        ensures { DisplaysOnOk W.write_str_gives f.old result
            (Some (marked mark.now (shown_texts (map parameter_of parameters.now)
            (values_after self.now (map parameter_of parameters.now) index)))) f.new }
    {
        let Some((parameter, others)) = parameters.split_first() else {
            return f.write_str(")");
        };
        let value = self.found(index);
        if others.is_empty() && value.is_left_out(parameter.argument) {
            return f.write_str(")");
        }
        f.write_str(mark)?;
        value.write(f, parameter.argument)?;
        self.write_from(f, others, index + 1, ",")
    }
}

/// Returns what follows a value and zeros after it, in 32 bytes, if bytes begin with them.
fn after_padded<'b>(value: &Found<'_>, rest: &'b [u8]) -> Option<&'b [u8]>
    ensures { IsAfter (with_zeros (found_bytes value.now)) rest.now result }
{
    let more = value.after(rest)?;
    after_front(more, &[0; 32][value.len().min(32)..])
}
