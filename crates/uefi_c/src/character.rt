//! Characters of UCS-2, in UTF-8.

ghost use Rattle.std.specs.Prelude.{◌≡◌, ◌+◌, ◌≤◌, true, false, length, MatchOption};
ghost use Rattle.std.specs.Char.{encode_utf8};
ghost use Rattle.uefi_base.specs.Buffer.{put_at};
ghost use Rattle.uefi_base.specs.Ucs2.{IsCharacter};
ghost use Rattle.uefi_hii.specs.Values.{is_name_unit};

use uefi_base::buffer::put;

/// The most bytes that a character has in UTF-8.
const MAX_CHARACTER_LENGTH: usize = 4;

/// Returns the character that a unit is, or `None` for zero and for surrogates.
pub(crate) fn character_of(unit: u16) -> Option<char>
    ensures character { MatchOption result (¬ IsCharacter unit)
        (λ c. IsCharacter unit × (c ≡ unit)) }
    ensures of_name { MatchOption result (is_name_unit unit ≡ false)
        (λ c. (is_name_unit unit ≡ true) × (c ≡ unit)) }
{
    if unit == 0 {
        return None;
    }
    char::from_u32(u32::from(unit))
}

/// Writes a character in UTF-8 at the offset, and returns its length.
pub(crate) fn put_character(buffer: &mut [u8], offset: usize, c: char) -> usize
    requires { offset + length (encode_utf8 c) ≤ length buffer.old }
    ensures length { result ≡ length (encode_utf8 c) }
    ensures put { buffer.new ≡ put_at offset (encode_utf8 c) buffer.old }
{
    let mut bytes = [0; MAX_CHARACTER_LENGTH];
    let character = c.encode_utf8(&mut bytes).as_bytes();
    put(buffer, offset, character);
    character.len()
}
