ghost use Rattle.std.specs.Prelude.{◌≡◌, ◌&&◌, ◌^◌, ◌<◌, length, Some, None, if◌then◌else◌, encode_utf8_all};
ghost use Rattle.std.specs.Char.Utf16.{is_high_surrogate, is_low_surrogate, surrogate_pair_char, lone_unit_char};
ghost use Rattle.std.specs.Option.{unwrap_or};
ghost use Rattle.std.specs.Fmt.{DisplaysOnOk};
ghost use Rattle.std.specs.Iterator.{YieldsFirst, item_count};
ghost use Rattle.uefi_base.specs.Utf16.{lossy_characters};
ghost use Rattle.uefi_base.specs.Views.{units_left, chars_left};
ghost use Rattle.uefi_base.specs.private.Characters.{text_units_left};

use crate::unaligned::UnalignedSliceIter;
use std::fmt;
use std::iter::FusedIterator;

/// An iterator over the characters of units in UTF-16, up to the first NUL or the end.
///
/// The units of a surrogate pair are one character (Unicode, 3.9, D91), and a surrogate that isn't
/// in a pair is U+FFFD, as in `char::decode_utf16` with `char::REPLACEMENT_CHARACTER`. After the
/// last character it returns `None` forever.
#[derive(Clone, Copy)]
pub struct CharsLossy<'a> {
    /// The units that weren't read yet, with those from the NUL on.
    units: UnalignedSliceIter<'a>,
}

impl<'a> CharsLossy<'a> {
    /// Returns an iterator over the characters of the units.
    #[tactic(auto, using(crate::proofs::Utf16::fewer_characters))]
    pub(crate) fn new(units: UnalignedSliceIter<'a>) -> CharsLossy<'a>
        requires { length (units_left units) < 2 ^ 64 }
        ensures chars { chars_left result ≡ lossy_characters (units_left units.entry) }
        ensures countable { length (chars_left result) < 2 ^ 64 }
    {
        CharsLossy { units }
    }

    /// Takes the next unit, unless it is the NUL.
    fn next_unit(&mut self) -> Option<u16>
        ensures { YieldsFirst text_units_left self.old result self.new }
    {
        let mut rest = self.units;
        let unit = rest.next()?;
        if unit == 0 {
            return None;
        }
        self.units = rest;
        Some(unit)
    }
}

impl Iterator for CharsLossy<'_> {
    type Item = char;

    ghost next_gives = { YieldsFirst chars_left };

    ghost remaining = { item_count chars_left };

    fn next(&mut self) -> Option<char> {
        let first = self.next_unit()?;
        let mut after = *self;
        if let Some(second) = after.next_unit() {
            if let Some(character) = pair_character(first, second) {
                *self = after;
                return Some(character);
            }
        }
        Some(lone_character(first))
    }
}

impl FusedIterator for CharsLossy<'_> {}

/// Returns the character of a unit that is in no pair: U+FFFD for a surrogate.
fn lone_character(unit: u16) -> char
    ensures { result ≡ unwrap_or (lone_unit_char unit) 0xfffd }
{
    char::from_u32(u32::from(unit)).unwrap_or(char::REPLACEMENT_CHARACTER)
}

/// Returns the character of a pair of surrogates, or `None` if the units aren't one.
fn pair_character(first: u16, second: u16) -> Option<char>
    ensures { result ≡ (if is_high_surrogate first && is_low_surrogate second
        then Some (surrogate_pair_char first second) else None) }
{
    let (high, low) = (0xd800..0xdc00, 0xdc00..0xe000);
    if !high.contains(&first) || !low.contains(&second) {
        return None;
    }
    let high = u32::from(first) - 0xd800;
    char::from_u32(0x1_0000 + high * 0x400 + (u32::from(second) - 0xdc00))
}

/// Writes the characters.
pub(crate) fn write_characters<W: fmt::Write>(
    f: &mut fmt::Formatter<W>,
    characters: CharsLossy<'_>,
) -> fmt::Result
    ensures { DisplaysOnOk W.write_str_gives f.old result
        (Some (encode_utf8_all (chars_left characters.entry))) f.new }
{
    for character in characters {
        f.write_char(character)?;
    }
    Ok(())
}
