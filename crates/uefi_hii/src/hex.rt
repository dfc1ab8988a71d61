ghost use Rattle.std.specs.Prelude.{◌≡◌, ◌∷◌, ◌++◌, [], ◌^◌, ◌<◌, length, MatchOption, Some, IfSome};
ghost use Rattle.std.specs.Iterator.{YieldsFirst, item_count, at_most, UpTo, YieldsLast};
ghost use Rattle.std.specs.Iterator.SizeHint.{IsWithinCount};
ghost use Rattle.uefi_hii.specs.Hex.{hex, byte_of_one as one, byte_of_two as two};
ghost use Rattle.uefi_hii.specs.Views.{bytes_left};

use crate::digit::hex_digit;
use std::iter::{ExactSizeIterator, FusedIterator};
use uefi_base::buffer::length_fits;

/// The bytes that a text spells in hex, from either end.
///
/// Two characters of the text spell one byte, and so does an odd last character. Two hex digits, in
/// either case, give their number. `+` and a digit, or a digit alone, give that digit. All else
/// gives 0: no text is refused.
///
/// After the last byte the iterator stays ended. Its [`len`](ExactSizeIterator::len) and
/// [`size_hint`](Iterator::size_hint) are exact.
#[derive(Clone, Copy)]
pub struct HexBytes<'a> {
    rest: &'a [u8],
}

impl<'a> HexBytes<'a> {
    /// Returns the bytes that the text spells.
    #[tactic(auto, using(crate::proofs::HexEnds::few_bytes))]
    pub(crate) fn new(text: &'a str) -> HexBytes<'a>
        ensures bytes { bytes_left result ≡ hex text.now }
        ensures countable { length (bytes_left result) < 2 ^ 64 }
    {
        let rest = text.as_bytes();
        length_fits(rest);
        HexBytes { rest }
    }
}

impl<'a> Iterator for HexBytes<'a> {
    type Item = u8;

    ghost next_gives = { YieldsFirst bytes_left };

    ghost remaining = { item_count bytes_left };

    fn next(&mut self) -> Option<u8> {
        match self.rest {
            [] => None,
            [c] => {
                let byte = byte_of_one(*c);
                self.rest = &[];
                Some(byte)
            }
            [c, d, rest @ ..] => {
                let byte = byte_of_two(*c, *d);
                self.rest = rest;
                Some(byte)
            }
        }
    }

    /// Returns how many bytes are left, as both bounds.
    fn size_hint(&self) -> (usize, Option<usize>)
        ensures lower { IsWithinCount result.0 (at_most (length (bytes_left self.now))) }
        ensures upper { IfSome result.1 (UpTo (at_most (length (bytes_left self.now)))) }
        ensures least { result.0 ≡ length (bytes_left self.now) }
        ensures most { result.1 ≡ Some (length (bytes_left self.now)) }
    {
        let length = self.len();
        (length, Some(length))
    }
}

impl<'a> DoubleEndedIterator for HexBytes<'a> {
    ghost next_back_gives = { YieldsLast bytes_left };

    fn next_back(&mut self) -> Option<u8> {
        let (before, byte) = split_last_byte(self.rest)?;
        self.rest = before;
        Some(byte)
    }
}

impl<'a> ExactSizeIterator for HexBytes<'a> {
    /// Returns how many bytes are left.
    #[tactic(auto, using(crate::proofs::HexEnds::two_a_byte))]
    fn len(&self) -> usize {
        self.rest.len() / 2 + self.rest.len() % 2
    }
}

impl<'a> FusedIterator for HexBytes<'a> {}

/// Returns the last byte that a text spells, and the text before its characters.
#[tactic(auto, using(crate::proofs::HexEnds::last_of_one, crate::proofs::HexEnds::last_of_two))]
fn split_last_byte(text: &[u8]) -> Option<(&[u8], u8)>
    ensures { MatchOption result (hex text.now ≡ [])
        (λ r. hex text.now ≡ hex r.0.now ++ r.1 ∷ []) }
{
    let (last, before) = text.split_last()?;
    if text.len() % 2 != 0 {
        return Some((before, byte_of_one(*last)));
    }
    let (first, before) = before.split_last()?;
    Some((before, byte_of_two(*first, *last)))
}

/// Returns the byte that two characters spell.
#[tactic(auto, unfolding(crate::specs::Hex::byte_of_two, crate::specs::Hex::two_digits))]
pub(crate) fn byte_of_two(c: u8, d: u8) -> u8
    ensures { result ≡ two c d }
{
    match (hex_digit(c), hex_digit(d)) {
        (Some(high), Some(low)) => high * 16 + low,
        _ if c == b'+' => byte_of_one(d),
        _ => 0,
    }
}

/// Returns the byte that one character spells.
#[tactic(auto, unfolding(crate::specs::Hex::byte_of_one))]
pub(crate) fn byte_of_one(c: u8) -> u8
    ensures { result ≡ one c }
{
    hex_digit(c).unwrap_or(0)
}
