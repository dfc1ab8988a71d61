//! IPv4 addresses, read.

ghost use Rattle.std.specs.Prelude.{◌≡◌, ◌≤◌, ◌<◌, ◌+◌, ◌^◌, length, IfOk, OnOk, OnErr, IfErr, IsTrue, false};
ghost use Rattle.std.specs.Str.Parse.{digits_value};
ghost use Rattle.uefi_path_text.specs.parse.Ipv4.{is_octet, is_ipv4, ipv4_bytes};

use crate::parse::cut::cut;
use crate::parse::number::read_digits;

/// Reads an IPv4 address: four decimal numbers.
///
/// # Errors
///
/// The offset of the first character that no address has there.
pub(crate) fn read_ipv4(text: &[u8]) -> Result<[u8; 4], usize>
    ensures ok { OnOk result (IsTrue (is_ipv4 text.now)) }
    ensures address { IfOk result (λ address. address ≡ ipv4_bytes text.now) }
    ensures err { OnErr result (is_ipv4 text.now ≡ false) }
    ensures offset { IfErr result (λ offset. offset ≤ length text.now) }
{
    let mut address = [0; 4];
    let mut rest = Some(text);
    let mut start = 0;
    for byte in &mut address {
        let Some(parts) = rest else {
            return Err(text.len());
        };
        let (part, others) = cut(parts, b'.');
        *byte = read_octet(part, start)?;
        start += part.len() + 1;
        rest = others;
    }
    match rest {
        None => Ok(address),
        Some(_) => Err(start - 1),
    }
}

/// Reads a part of an IPv4 address that is at an offset.
fn read_octet(part: &[u8], start: usize) -> Result<u8, usize>
    requires { start + length part.now < 2 ^ 64 }
    ensures ok { OnOk result (IsTrue (is_octet part.now)) }
    ensures number { IfOk result (λ octet. octet ≡ digits_value 10 part.now) }
    ensures err { OnErr result (is_octet part.now ≡ false) }
    ensures place { IfErr result (λ offset. offset ≤ start + length part.now) }
{
    match read_digits(part, 10, 255) {
        Ok(octet) => Ok(octet as u8),
        Err(offset) => Err(start + offset),
    }
}
