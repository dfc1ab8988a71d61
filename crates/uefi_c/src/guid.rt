ghost use Rattle.std.specs.Prelude.{◌≢◌, ◌↔◌, [], ◌∷◌, ◌≡◌, ◌<◌, ◌/◌, ◌%◌, false};
ghost use Rattle.std.specs.Fmt.{digit_glyph};
ghost use Rattle.uefi_base.specs.GuidText.{IsGuidText, guid_bytes, guid_text};
ghost use Rattle.uefi_c.specs.Status.{IsOneOf, not_text, ok};

use crate::status::{self, UefiStatus};
use std::str::FromStr;
use uefi_base::Guid;

/// Writes the text of a GUID: five groups of lowercase hex digits, separated by dashes, of which the
/// first three are the little-endian numbers of the GUID.
#[unsafe(no_mangle)]
pub extern "C" fn uefi_guid_text(text: &mut [u8; 36], guid: &[u8; 16])
    ensures { text.new ≡ guid_text guid.now }
{
    let [a, b, c, d, e, f, g, h, i, j, k, l, m, n, o, p] = *guid;
    *text = [
        high(d),
        low(d),
        high(c),
        low(c),
        high(b),
        low(b),
        high(a),
        low(a),
        b'-',
        high(f),
        low(f),
        high(e),
        low(e),
        b'-',
        high(h),
        low(h),
        high(g),
        low(g),
        b'-',
        high(i),
        low(i),
        high(j),
        low(j),
        b'-',
        high(k),
        low(k),
        high(l),
        low(l),
        high(m),
        low(m),
        high(n),
        low(n),
        high(o),
        low(o),
        high(p),
        low(p),
    ];
}

/// Reads a GUID from its text, which has hex digits of either case. Without one the GUID stays as it
/// was.
#[tactic(auto, using(crate::proofs::GuidTexts::utf8_of_guid))]
#[unsafe(no_mangle)]
pub extern "C" fn uefi_guid_from_text(guid: &mut [u8; 16], text: &[u8]) -> UefiStatus
    ensures found { (result ≡ ok) ↔ IsGuidText text.now }
    ensures known { IsOneOf result (ok ∷ not_text ∷ []) }
    ensures guid { result ≡ ok → guid.new ≡ guid_bytes text.now }
    ensures unchanged { result ≢ ok → guid.new ≡ guid.old }
{
    let Ok(text) = str::from_utf8(text) else {
        return status::NOT_TEXT;
    };
    let Ok(found) = Guid::from_str(text) else {
        return status::NOT_TEXT;
    };
    *guid = found.to_bytes();
    status::OK
}

/// Returns the hex digit of a byte's higher half.
fn high(byte: u8) -> u8
    ensures { result ≡ digit_glyph false (byte / 16) }
{
    digit(byte / 16)
}

/// Returns the hex digit of a byte's lower half.
fn low(byte: u8) -> u8
    ensures { result ≡ digit_glyph false (byte % 16) }
{
    digit(byte % 16)
}

/// Returns the lowercase hex digit of a number below 16.
fn digit(number: u8) -> u8
    requires { number < 16 }
    ensures { result ≡ digit_glyph false number }
{
    if number < 10 {
        b'0' + number
    } else {
        b'a' + (number - 10)
    }
}
