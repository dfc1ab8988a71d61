ghost use Rattle.std.specs.Prelude.{◌≡◌, ◌≤◌, ◌*◌, length, IsTrue};
ghost use Rattle.uefi_path_text.specs.parse.Values.{low_first, pattern, offsets, has_pattern, shape_bytes, are_pairs, pairs_bytes, character_units};
ghost use Rattle.uefi_path_text.specs.private.FromText.{value_bytes, IsValue};

use crate::form::shape::Shape;
use crate::parse::shape::byte_of_digits;

/// What an argument stands for in the data of a node.
#[derive(Clone, Copy)]
pub(crate) enum Value<'a> {
    /// A number in this many bytes, at most eight, the lowest first.
    Number(u64, usize),
    /// A number in eight bytes, the highest first.
    BigEndian(u64),
    /// The bytes of the digits of a text of this shape.
    Digits(Shape, &'a [u8]),
    /// The bytes of hex digits, two each.
    Pairs(&'a [u8]),
    /// An IPv4 address.
    Ipv4([u8; 4]),
    /// An IPv4 address in 16 bytes.
    Ipv4Server([u8; 4]),
    /// An IPv6 address.
    Ipv6([u8; 16]),
    /// A text.
    Text(&'a [u8]),
    /// A text in units of two bytes.
    Units(&'a [u8]),
}

impl Value<'_> {
    /// Returns the number of bytes.
    #[tactic(auto, using(crate::proofs::arguments::Lengths::lengths), unfolding(crate::specs::parse::Values::shape_bytes))]
    pub(crate) fn len(&self) -> usize
        requires { IsValue self.now }
        ensures { result ≡ length (value_bytes self.now) }
    {
        match *self {
            Value::Number(_, size) => size,
            Value::BigEndian(_) => 8,
            Value::Digits(shape, _) => shape.offsets().len(),
            Value::Pairs(text) => text.len() / 2,
            Value::Ipv4(_) => 4,
            Value::Ipv4Server(_) | Value::Ipv6(_) => 16,
            Value::Text(text) => text.len(),
            Value::Units(text) => 2 * text.len(),
        }
    }

    /// Writes the bytes.
    #[tactic(auto, using(crate::proofs::arguments::Lengths::lengths), unfolding(crate::specs::parse::Values::shape_bytes))]
    pub(crate) fn put(&self, bytes: &mut [u8])
        requires value { IsValue self.now }
        requires room { length bytes.old ≡ length (value_bytes self.now) }
        ensures { bytes.new ≡ value_bytes self.now }
    {
        match *self {
            Value::Number(number, size) => put_number(bytes, number, size),
            Value::BigEndian(number) => bytes.copy_from_slice(&number.to_be_bytes()),
            Value::Digits(shape, text) => put_digits(bytes, shape, text),
            Value::Pairs(text) => put_pairs(bytes, text),
            Value::Ipv4(address) => bytes.copy_from_slice(&address),
            Value::Ipv4Server(address) => {
                let (first, zeros) = bytes.split_at_mut(4);
                first.copy_from_slice(&address);
                zeros.fill(0);
            }
            Value::Ipv6(address) => bytes.copy_from_slice(&address),
            Value::Text(text) => bytes.copy_from_slice(text),
            Value::Units(text) => put_units(bytes, text),
        }
    }
}

/// Writes a number in this many bytes, the lowest first.
fn put_number(bytes: &mut [u8], number: u64, size: usize)
    requires few { size ≤ 8 }
    requires room { length bytes.old ≡ size }
    ensures { bytes.new ≡ low_first size number }
{
    bytes.copy_from_slice(&number.to_le_bytes()[..size]);
}

/// Writes the bytes of the digits of a text of this shape.
fn put_digits(bytes: &mut [u8], shape: Shape, text: &[u8])
    requires shape { IsTrue (has_pattern (pattern shape) text.now) }
    requires room { length bytes.old ≡ length (offsets shape) }
    ensures { bytes.new ≡ shape_bytes shape text.now }
{
    for (i, offset) in shape.offsets().iter().enumerate() {
        bytes[i] = byte_of_digits(text[*offset], text[*offset + 1]);
    }
}

/// Writes the bytes of hex digits, two each.
#[tactic(auto, using(crate::proofs::arguments::Pairs::digit_of_pairs))]
fn put_pairs(bytes: &mut [u8], text: &[u8])
    requires pairs { IsTrue (are_pairs text.now) }
    requires room { 2 * length bytes.old ≡ length text.now }
    ensures { bytes.new ≡ pairs_bytes text.now }
{
    for (i, byte) in bytes.iter_mut().enumerate() {
        *byte = byte_of_digits(text[2 * i], text[2 * i + 1]);
    }
}

/// Writes a text in units of two bytes.
fn put_units(bytes: &mut [u8], text: &[u8])
    requires { length bytes.old ≡ 2 * length text.now }
    ensures { bytes.new ≡ character_units text.now }
{
    for (i, c) in text.iter().enumerate() {
        bytes[2 * i] = *c;
        bytes[2 * i + 1] = 0;
    }
}
