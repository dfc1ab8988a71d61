ghost use Rattle.std.specs.Prelude.{◌≡◌, ◌+◌, ◌*◌, ◌^◌, ◌<◌, true, false, length, IfOk, MatchOption, option_map, string_bytes};
ghost use Rattle.uefi_hii.specs.Hex.{hex};
ghost use Rattle.uefi_hii.specs.Values.{number, guid, is_name_unit, name};
ghost use Rattle.uefi_hii.specs.Views.{bytes_left};

use crate::configuration::ConfigurationString;
use crate::filling::{fill_from_hex, hex_bytes};
use crate::hex::HexBytes;
use std::alloc::{AllocError, Allocator};
use uefi_base::Guid;

/// The bytes of a GUID.
const GUID_LENGTH: usize = 16;

impl ConfigurationString {
    /// Returns the bytes that a value spells in hex, from either end. No text is refused: what is
    /// no digit stands for 0, as [`HexBytes`] says.
    pub fn parse_bytes_from_hex(text: &str) -> HexBytes<'_>
        ensures bytes { bytes_left result ≡ hex text.now }
        ensures countable { length (bytes_left result) < 2 ^ 64 }
    {
        HexBytes::new(text)
    }

    /// Returns the number that a value spells in hex, the highest byte first. `None` where it
    /// spells another count of bytes than 1, 2, 4 or 8.
    #[tactic(auto, using(crate::proofs::Numbers::number_steps))]
    pub fn parse_number_from_hex(text: &str) -> Option<u64>
        ensures { result ≡ number text.now }
    {
        let bytes = HexBytes::new(text);
        if !matches!(bytes.len(), 1 | 2 | 4 | 8) {
            return None;
        }
        let mut number: u64 = 0;
        for byte in bytes {
            number = number * 256 + byte as u64;
        }
        Some(number)
    }

    /// Returns the GUID whose bytes a value spells in hex. `None` where it spells another count of
    /// bytes than 16.
    pub fn parse_guid_from_hex(text: &str) -> Option<Guid>
        ensures { option_map (λ guid. guid.0) result ≡ guid text.now }
    {
        if HexBytes::new(text).len() != GUID_LENGTH {
            return None;
        }
        let mut guid = [0; GUID_LENGTH];
        fill_from_hex(text, &mut guid);
        Some(Guid(guid))
    }
}

impl<A: Allocator + Copy> ConfigurationString<A> {
    /// Returns the name that a value spells in hex: the text of its UCS-2 units, each of two bytes,
    /// the high byte first. An odd last byte has to be 0, and is the first half of a NUL that was
    /// cut.
    ///
    /// `None` where the value has an odd number of characters, where an odd last byte isn't 0, and
    /// where a unit is zero or a surrogate.
    ///
    /// # Errors
    ///
    /// [`AllocError`] if an allocation fails, which may also come before a value that is no name is
    /// found to be none.
    #[tactic(auto, using(crate::proofs::Names::name_steps))]
    pub fn parse_string_from_hex(alloc: A, text: &str) -> Result<Option<String<A>>, AllocError>
        ensures { IfOk result (λ parsed. option_map string_bytes parsed ≡ name text.now) }
    {
        if text.len() % 2 != 0 {
            return Ok(None);
        }
        let spelled = hex_bytes(alloc, text)?;
        let mut name = String::new(alloc);
        let mut bytes = spelled.iter();
        while let Some(high) = bytes.next() {
            let Some(low) = bytes.next() else {
                return Ok(if *high == 0 { Some(name) } else { None });
            };
            let Some(c) = character_of(*high, *low) else {
                return Ok(None);
            };
            name.push(c)?;
        }
        Ok(Some(name))
    }
}

/// Returns the character that a unit of a name is, of which the two bytes are given. `None` for
/// zero and for surrogates.
fn character_of(high: u8, low: u8) -> Option<char>
    ensures { MatchOption result (is_name_unit (high * 256 + low) ≡ false)
        (λ c. (is_name_unit (high * 256 + low) ≡ true) × (c ≡ high * 256 + low)) }
{
    let unit = high as u32 * 256 + low as u32;
    if unit == 0 {
        return None;
    }
    char::from_u32(unit)
}
