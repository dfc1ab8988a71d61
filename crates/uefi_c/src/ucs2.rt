//! UCS-2 text in bytes, and in UTF-8.

ghost use Rattle.std.specs.Prelude.{◌≡◌, ◌↔◌, ◌*◌, ◌+◌, ◌≤◌, length, IsTrue, MatchOption, ◌≢◌, [], ◌∷◌};
ghost use Rattle.std.specs.Str.{chars};
ghost use Rattle.uefi_base.specs.Buffer.{put_prefix};
ghost use Rattle.uefi_base.specs.Ucs2.{HasUnit, MakeUcs2Text};
ghost use Rattle.uefi_base.specs.private.Search.{IsFirstWithoutUnit};
ghost use Rattle.uefi_c.specs.Ucs2.{IsUcs2, utf8_of, MakesUcs2, ucs2_of};
ghost use Rattle.uefi_c.specs.private.Ucs2.{HasNul};
ghost use Rattle.uefi_c.specs.Status.{buffer_too_small, IsOneOf, not_text, ok};

use crate::character::{character_of, put_character};
use crate::status::{self, UefiStatus};
use uefi_base::buffer::put;
use uefi_base::little_endian::u16_at;

/// The largest number of units of a text, including its NUL.
const MAX_UNITS: usize = 1 << 31;

/// The last character that fits one unit.
const MAX_UNIT_CHARACTER: char = '\u{ffff}';

/// The bytes of a unit.
const UNIT_LENGTH: usize = 2;

/// Writes the characters of UCS-2 text in UTF-8, without the NUL, to the beginning of the buffer,
/// and sets `size` to their length; the bytes after them stay as they were.
///
/// The text is all of `units`: two bytes each, little-endian, of which the last is zero, and no
/// other is zero or a surrogate. There are at most 2^31.
///
/// If it returns another status than success, all bytes stay as they were, and `size` is the length
/// that the buffer needs, or 0 if the units are no text.
#[unsafe(no_mangle)]
pub extern "C" fn uefi_ucs2_text(buffer: &mut [u8], units: &[u8], size: &mut usize) -> UefiStatus
    ensures fits { (result ≡ ok)
        ↔ IsUcs2 units.now × (length (utf8_of units.now) ≤ length buffer.old) }
    ensures known { IsOneOf result (ok ∷ buffer_too_small ∷ not_text ∷ []) }
    ensures no_such_text { (result ≡ not_text) ↔ ¬ IsUcs2 units.now }
    ensures written { result ≡ ok → buffer.new ≡ put_prefix (utf8_of units.now) buffer.old }
    ensures size { IsUcs2 units.now → size.new ≡ length (utf8_of units.now) }
    ensures no_text { ¬ IsUcs2 units.now → size.new ≡ 0 }
    ensures unchanged { result ≢ ok → buffer.new ≡ buffer.old }
{
    let Some(length) = text_length(units) else {
        *size = 0;
        return status::NOT_TEXT;
    };
    *size = length;
    if buffer.len() < length {
        return status::BUFFER_TOO_SMALL;
    }
    write_text(units, buffer);
    status::OK
}

/// Writes a text in UTF-8 as UCS-2 to the beginning of the buffer, two bytes for each character and
/// for the NUL, little-endian, and sets `size` to their number; the bytes after them stay as they
/// were.
///
/// If it returns another status than success, all bytes stay as they were, and `size` is the length
/// that the buffer needs, or 0 if the text isn't UTF-8, has 2^31 characters or more, or has one
/// that is U+0000 or above U+FFFF.
#[tactic(auto, using(crate::proofs::Ucs2Puts::ucs2_size))]
#[unsafe(no_mangle)]
pub extern "C" fn uefi_ucs2_units(buffer: &mut [u8], text: &[u8], size: &mut usize) -> UefiStatus
    ensures fits { (result ≡ ok)
        ↔ MakesUcs2 text.now × (length (ucs2_of text.now) ≤ length buffer.old) }
    ensures known { IsOneOf result (ok ∷ buffer_too_small ∷ not_text ∷ []) }
    ensures no_such_units { (result ≡ not_text) ↔ ¬ MakesUcs2 text.now }
    ensures written { result ≡ ok → buffer.new ≡ put_prefix (ucs2_of text.now) buffer.old }
    ensures size { MakesUcs2 text.now → size.new ≡ length (ucs2_of text.now) }
    ensures no_units { ¬ MakesUcs2 text.now → size.new ≡ 0 }
    ensures unchanged { result ≢ ok → buffer.new ≡ buffer.old }
{
    let Ok(text) = str::from_utf8(text) else {
        *size = 0;
        return status::NOT_TEXT;
    };
    let Some(length) = units_length(text) else {
        *size = 0;
        return status::NOT_TEXT;
    };
    *size = length;
    if buffer.len() < length {
        return status::BUFFER_TOO_SMALL;
    }
    write_units(text, buffer);
    status::OK
}

/// Returns whether the bytes are the units of a text.
pub(crate) fn is_ucs2(units: &[u8]) -> bool
    ensures { IsTrue result ↔ IsUcs2 units.now }
{
    text_length(units).is_some()
}

/// Returns the length of a text in UTF-8, or `None` if the bytes aren't the units of one.
fn text_length(units: &[u8]) -> Option<usize>
    ensures { MatchOption result (¬ IsUcs2 units.now)
        (λ size. IsUcs2 units.now × (size ≡ length (utf8_of units.now))) }
{
    let count = count_before_nul(units)?;
    utf8_length(units, count)
}

/// Returns the number of units before the last one. `None` if that one isn't zero, if the bytes
/// aren't whole units, and if there are none or more than 2^31.
fn count_before_nul(units: &[u8]) -> Option<usize>
    ensures { MatchOption result (¬ IsUcs2 units.now) (λ count. HasNul units.now count) }
{
    let count = units.len() / UNIT_LENGTH;
    if units.len() % UNIT_LENGTH != 0 {
        return None;
    }
    if count == 0 {
        return None;
    }
    if count > MAX_UNITS {
        return None;
    }
    if u16_at(units, UNIT_LENGTH * (count - 1)) != 0 {
        return None;
    }
    Some(count - 1)
}

/// Returns the length in UTF-8 of the first units, or `None` if one isn't a character.
fn utf8_length(units: &[u8], count: usize) -> Option<usize>
    requires { HasNul units.now count }
    ensures { MatchOption result (¬ IsUcs2 units.now)
        (λ size. IsUcs2 units.now × (size ≡ length (utf8_of units.now))) }
{
    let mut length = 0;
    for index in 0..count {
        let Some(character) = character_of(u16_at(units, UNIT_LENGTH * index)) else {
            return None;
        };
        length += character.len_utf8();
    }
    Some(length)
}

/// Writes the characters of a text in UTF-8 to the beginning of the buffer.
fn write_text(units: &[u8], buffer: &mut [u8])
    requires text { IsUcs2 units.now }
    requires room { length (utf8_of units.now) ≤ length buffer.old }
    ensures { buffer.new ≡ put_prefix (utf8_of units.now) buffer.old }
{
    let count = units.len() / UNIT_LENGTH - 1;
    let mut offset = 0;
    for index in 0..count {
        let Some(character) = character_of(u16_at(units, UNIT_LENGTH * index)) else {
            return;
        };
        offset += put_character(buffer, offset, character);
    }
}

/// Returns the length of the units of a text, the NUL too, or `None` if a character has no unit, or
/// there are too many.
fn units_length(text: &str) -> Option<usize>
    ensures { MatchOption result (¬ MakeUcs2Text (chars text.now)) (λ size.
        MakeUcs2Text (chars text.now) × (size ≡ 2 * (length (chars text.now) + 1))) }
{
    let count = char_count(text);
    if count >= MAX_UNITS {
        return None;
    }
    match first_without_unit(text) {
        Some(_) => None,
        None => Some(UNIT_LENGTH * (count + 1)),
    }
}

/// Returns the number of characters.
fn char_count(text: &str) -> usize
    ensures { result ≡ length (chars text.now) }
{
    text.chars().count()
}

/// Returns the first character that has no unit of its own.
fn first_without_unit(text: &str) -> Option<char>
    ensures { IsFirstWithoutUnit (chars text.now) result }
{
    text.chars().find(|c| !has_unit(*c))
}

/// Returns whether the character has a unit of its own that isn't the NUL.
fn has_unit(c: char) -> bool
    ensures { IsTrue result ↔ HasUnit c }
{
    c != '\0' && c <= MAX_UNIT_CHARACTER
}

/// Writes the units of a text, and the NUL, to the beginning of the buffer.
fn write_units(text: &str, buffer: &mut [u8])
    requires units { MakeUcs2Text (chars text.now) }
    requires room { 2 * (length (chars text.now) + 1) ≤ length buffer.old }
    ensures { buffer.new ≡ put_prefix (ucs2_of text.now) buffer.old }
{
    let mut offset = 0;
    for c in text.chars() {
        put(buffer, offset, &(c as u16).to_le_bytes());
        offset += UNIT_LENGTH;
    }
    put(buffer, offset, &[0, 0]);
}
