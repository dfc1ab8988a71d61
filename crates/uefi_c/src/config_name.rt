ghost use Rattle.std.specs.Prelude.{◌≡◌, ◌↔◌, ◌+◌, ◌*◌, ◌≤◌, length, IsSome, MatchOption, ◌≢◌, [], ◌∷◌};
ghost use Rattle.uefi_base.specs.Buffer.{put_prefix};
ghost use Rattle.uefi_hii.specs.Values.{name};
ghost use Rattle.uefi_c.specs.Config.{HasName, name_of};
ghost use Rattle.uefi_c.specs.Status.{buffer_too_small, IsOneOf, not_text, ok};

use crate::character::{character_of, put_character};
use crate::status::{self, UefiStatus};
use uefi_base::buffer::length_fits;
use uefi_hii::ConfigurationString;

/// Writes the name that the value of a pair with the key `NAME` spells, in UTF-8, to the beginning
/// of the buffer, and sets `size` to its length; the bytes after it stay as they were.
///
/// The value is a text in UTF-8 of an even number of bytes, which spells bytes in hex as for
/// `uefi_hex`. Two of them are a unit, the high byte first, and a character: not zero, and no
/// surrogate. An odd last byte is 0, and no unit. A name may be empty.
///
/// If it returns another status than success, all bytes stay as they were, and `size` is the length
/// that the buffer needs, or 0 if the value spells no name.
#[unsafe(no_mangle)]
pub extern "C" fn uefi_config_name(buffer: &mut [u8], value: &[u8], size: &mut usize) -> UefiStatus
    ensures fits { (result ≡ ok)
        ↔ HasName value.now × (length (name_of value.now) ≤ length buffer.old) }
    ensures known { IsOneOf result (ok ∷ buffer_too_small ∷ not_text ∷ []) }
    ensures no_such_name { (result ≡ not_text) ↔ ¬ HasName value.now }
    ensures written { result ≡ ok → buffer.new ≡ put_prefix (name_of value.now) buffer.old }
    ensures size { HasName value.now → size.new ≡ length (name_of value.now) }
    ensures no_name { ¬ HasName value.now → size.new ≡ 0 }
    ensures unchanged { result ≢ ok → buffer.new ≡ buffer.old }
{
    let Ok(text) = str::from_utf8(value) else {
        *size = 0;
        return status::NOT_TEXT;
    };
    let Some(length) = name_length(text) else {
        *size = 0;
        return status::NOT_TEXT;
    };
    *size = length;
    if buffer.len() < length {
        return status::BUFFER_TOO_SMALL;
    }
    write_name(text, buffer);
    status::OK
}

/// Returns the length in UTF-8 of the name that a value spells, or `None` if it spells none.
fn name_length(text: &str) -> Option<usize>
    ensures { MatchOption result (¬ IsSome (name text.now))
        (λ size. IsSome (name text.now) × (size ≡ length (name_of text.now))) }
{
    if text.len() % 2 != 0 {
        return None;
    }
    length_fits(text.as_bytes());
    let mut length = 0;
    let mut bytes = ConfigurationString::parse_bytes_from_hex(text);
    while let Some(high) = bytes.next() {
        let Some(low) = bytes.next() else {
            return if high == 0 { Some(length) } else { None };
        };
        let character = character_of(unit_of(high, low))?;
        length += character.len_utf8();
    }
    Some(length)
}

/// Writes the name that a value spells to the beginning of the buffer.
fn write_name(text: &str, buffer: &mut [u8])
    requires named { IsSome (name text.now) }
    requires room { length (name_of text.now) ≤ length buffer.old }
    ensures { buffer.new ≡ put_prefix (name_of text.now) buffer.old }
{
    let mut offset = 0;
    let mut bytes = ConfigurationString::parse_bytes_from_hex(text);
    while let Some(high) = bytes.next() {
        let Some(low) = bytes.next() else {
            return;
        };
        let Some(character) = character_of(unit_of(high, low)) else {
            return;
        };
        offset += put_character(buffer, offset, character);
    }
}

/// Returns the unit of two bytes, the high byte first.
fn unit_of(high: u8, low: u8) -> u16
    ensures { result ≡ high * 256 + low }
{
    u16::from(high) * 256 + u16::from(low)
}
