//! The data that the arguments of a text make.

ghost use Rattle.std.specs.Prelude.{◌≡◌, ◌≤◌, ◌<◌, ◌+◌, [], length, take, drop, map, is_some, IfSome, IfNone, IsTrue, Some};
ghost use Rattle.std.specs.Option.{unwrap_or};
ghost use Rattle.uefi_base.specs.Buffer.{put_at};
ghost use Rattle.uefi_path_text.specs.parse.Values.{bytes_in};
ghost use Rattle.uefi_path_text.specs.parse.Arguments.{listed_values, value_at, number_of, byte_of, number_sum, part_bytes, parts_data, with_zeros};
ghost use Rattle.uefi_path_text.specs.private.FormViews.{parameter_of, part_of};
ghost use Rattle.uefi_path_text.specs.private.FromText.{value_bytes, IsValue, rest_parts};
ghost use Rattle.uefi_path_text.specs.private.Lists.{IsListed, listed_of};
ghost use Rattle.uefi_path_text.specs.private.TextLengths.{length_of_text};

use crate::form::argument::Argument;
use crate::form::{Parameter, Part};
use crate::parse::cut::next_text;
use crate::parse::value::Value;
use uefi_base::buffer::put;

/// The greatest length of the data of a node.
pub(crate) const GREATEST_DATA: usize = 0xfffb;

/// The arguments of a text, which has all of them.
#[derive(Clone, Copy)]
pub(crate) struct Listed<'a> {
    /// The arguments of the form.
    pub(crate) parameters: &'static [Parameter],
    /// Their texts, with commas between them; `None` if there are none.
    pub(crate) texts: Option<&'a [u8]>,
}

impl<'a> Listed<'a> {
    /// Returns the value of the argument at an index; the empty text, if there is none.
    fn value(&self, index: usize) -> Value<'a>
        requires { IsListed self.now }
        ensures bytes { value_bytes result ≡ value_at index (listed_of self.now) }
        ensures value { IsValue result }
    {
        match argument_at(self.parameters, self.texts, index) {
            Some((argument, text)) => value_of(argument, text),
            None => Value::Text(&[]),
        }
    }

    /// Returns the number of bytes of the argument at an index.
    fn value_len(&self, index: usize) -> usize
        requires { IsListed self.now }
        ensures { result ≡ length (value_at index (listed_of self.now)) }
    {
        match argument_at(self.parameters, self.texts, index) {
            Some((argument, text)) => argument.value_len(text),
            None => 0,
        }
    }

    /// Returns the number of two bytes that the argument at an index is, or else 0.
    fn number(&self, index: usize) -> u16
        requires { IsListed self.now }
        ensures { result ≡ number_of (value_at index (listed_of self.now)) }
    {
        let value = self.value(index);
        if value.len() != 2 {
            return 0;
        }
        let mut bytes = [0; 2];
        value.put(&mut bytes);
        u16::from_le_bytes(bytes)
    }

    /// Returns the first byte of the argument at an index, if it is one byte, and else 0.
    pub(crate) fn byte(&self, index: usize) -> u8
        requires { IsListed self.now }
        ensures { result ≡ byte_of (value_at index (listed_of self.now)) }
    {
        let value = self.value(index);
        if value.len() != 1 {
            return 0;
        }
        let mut bytes = [0];
        value.put(&mut bytes);
        bytes[0]
    }

    /// Returns the sum of numbers of two bytes: of the arguments from an index on, so many.
    fn sum(&self, index: u8, count: u8) -> u64
        requires { IsListed self.now }
        ensures { result ≡ number_sum (take count (drop index (listed_of self.now))) }
    {
        let mut sum = 0;
        for i in 0..count {
            sum += u64::from(self.number(usize::from(index) + usize::from(i)));
        }
        sum
    }

    /// Returns the length of a part of the data.
    fn part_len(&self, part: &Part) -> usize
        requires { IsListed self.now }
        ensures { result ≡ length (part_bytes (listed_of self.now) (part_of part.now)) }
    {
        match part {
            Part::Bytes(bytes) => bytes.len(),
            Part::Value(index) => self.value_len(*index),
            Part::Padded(index) => self.value_len(*index).max(32),
            Part::Sum(_, _) => 2,
        }
    }

    /// Writes a part of the data at an offset.
    fn put_part(&self, buffer: &mut [u8], offset: usize, part: &Part)
        requires read { IsListed self.now }
        requires room { offset + length (part_bytes (listed_of self.now) (part_of part.now))
            ≤ length buffer.old }
        ensures { buffer.new
            ≡ put_at offset (part_bytes (listed_of self.now) (part_of part.now)) buffer.old }
    {
        match part {
            Part::Bytes(bytes) => put(buffer, offset, bytes),
            Part::Value(index) => put_value(buffer, offset, &self.value(*index)),
            Part::Padded(index) => put_padded(buffer, offset, &self.value(*index)),
            Part::Sum(index, count) => {
                put_value(buffer, offset, &Value::Number(self.sum(*index, *count), 2));
            }
        }
    }

    /// Returns the length of the parts of the data, or `None` if no node has so many bytes.
    pub(crate) fn len(&self, parts: &[Part]) -> Option<usize>
        requires { IsListed self.now }
        ensures some { IfSome result (λ n. n
            ≡ length (parts_data (listed_of self.now) (map part_of parts.now))) }
        ensures few { IfSome result (λ n. n ≤ 0xfffb) }
        ensures none { IfNone result
            (0xfffb < length (parts_data (listed_of self.now) (map part_of parts.now))) }
    {
        let Some((part, others)) = parts.split_first() else {
            return Some(0);
        };
        let after = self.len(others)?;
        let size = self.part_len(part);
        if size > GREATEST_DATA - after {
            return None;
        }
        Some(size + after)
    }

    /// Writes the parts of the data at an offset.
    pub(crate) fn put(&self, buffer: &mut [u8], offset: usize, parts: &[Part])
        requires read { IsListed self.now }
        requires room { offset + length (parts_data (listed_of self.now) (map part_of parts.now))
            ≤ length buffer.old }
        ensures { buffer.new
            ≡ put_at offset (parts_data (listed_of self.now) (map part_of parts.now)) buffer.old }
    {
        if let Some((part, others)) = parts.split_first() {
            self.put_part(buffer, offset, part);
            self.put(buffer, offset + self.part_len(part), others);
        }
    }
}

/// Returns the argument at an index with its text, which may be the default, if there is one.
fn argument_at<'a>(
    parameters: &'static [Parameter],
    texts: Option<&'a [u8]>,
    index: usize,
) -> Option<(Argument, &'a [u8])>
    requires { IsTrue (is_some
        (listed_values (map parameter_of parameters.now) (rest_parts 0x2c texts))) }
    ensures some { IfSome result (λ it. bytes_in it.0 it.1.now ≡ Some (value_at index (unwrap_or
        (listed_values (map parameter_of parameters.now) (rest_parts 0x2c texts.entry)) []))) }
    ensures none { IfNone result (value_at index (unwrap_or
        (listed_values (map parameter_of parameters.now) (rest_parts 0x2c texts.entry)) []) ≡ []) }
{
    let Some((parameter, others)) = parameters.split_first() else {
        return None;
    };
    let (text, rest) = next_text(texts);
    if index > 0 {
        return argument_at(others, rest, index - 1);
    }
    Some((parameter.argument, parameter.text_or_default(text)))
}

/// Returns the value of a text of the argument's.
pub(crate) fn value_of(argument: Argument, text: &[u8]) -> Value<'_>
    requires { IsTrue (is_some (bytes_in argument text.now)) }
    ensures bytes { bytes_in argument text.now ≡ Some (value_bytes result) }
    ensures value { IsValue result }
{
    match argument.read(text) {
        Ok(value) => value,
        Err(_) => unreachable!(),
    }
}

impl Argument {
    /// Returns how many bytes a text of the argument's stands for.
    pub(crate) fn value_len(self, text: &[u8]) -> usize
        requires { IsTrue (is_some (bytes_in self text.now)) }
        ensures { result ≡ length (unwrap_or (bytes_in self text.now) []) }
    {
        self.length_of_text(text)
    }

    /// The same without a test of the text.
    fn length_of_text(self, text: &[u8]) -> usize
        ensures { result ≡ length_of_text self text.now }
    {
        match self {
            Argument::Number(size, _) | Argument::Word(_, size) => size.bytes(),
            Argument::BigEndian => 8,
            Argument::Digits(shape) => shape.size(),
            Argument::Bytes(_) | Argument::HardwareAddress => text.len() / 2,
            Argument::Ipv4 | Argument::EisaId | Argument::PnpId => 4,
            Argument::Ipv4Server | Argument::Ipv6 => 16,
            Argument::EisaLetters | Argument::DriveBay => 2,
            Argument::Text(_) | Argument::Name(_) => text.len(),
            Argument::Quoted => 2 * text.len().saturating_sub(2),
        }
    }
}

/// Writes a value at an offset.
pub(crate) fn put_value(buffer: &mut [u8], offset: usize, value: &Value<'_>)
    requires value { IsValue value.now }
    requires room { offset + length (value_bytes value.now) ≤ length buffer.old }
    ensures { buffer.new ≡ put_at offset (value_bytes value.now) buffer.old }
{
    let end = offset + value.len();
    value.put(&mut buffer[offset..end]);
}

/// Writes a value at an offset, with zeros after it, in 32 bytes.
fn put_padded(buffer: &mut [u8], offset: usize, value: &Value<'_>)
    requires value { IsValue value.now }
    requires room { offset + length (with_zeros (value_bytes value.now)) ≤ length buffer.old }
    ensures { buffer.new ≡ put_at offset (with_zeros (value_bytes value.now)) buffer.old }
{
    let size = value.len();
    put_value(buffer, offset, value);
    put(buffer, offset + size, &[0; 32][size.min(32)..]);
}
