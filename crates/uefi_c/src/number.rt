ghost use Rattle.std.specs.Prelude.{◌≡◌, Some, None, IsUtf8, ◌≢◌, [], ◌∷◌};
ghost use Rattle.uefi_hii.specs.Values.{number};
ghost use Rattle.uefi_c.specs.Status.{IsOneOf, not_number, ok};

use crate::status::{self, UefiStatus};
use uefi_hii::ConfigurationString;

/// Reads the number that a text in UTF-8 spells in hex, the highest byte first: 1, 2, 4 or 8 bytes.
#[unsafe(no_mangle)]
pub extern "C" fn uefi_config_number(text: &[u8], out: &mut u64) -> UefiStatus
    ensures number { result ≡ ok → number text.now ≡ Some out.new }
    ensures text { result ≡ ok → IsUtf8 text.now }
    ensures known { IsOneOf result (ok ∷ not_number ∷ []) }
    ensures none { result ≢ ok → IsUtf8 text.now → number text.now ≡ None }
    ensures unchanged { result ≢ ok → out.new ≡ out.old }
{
    let Ok(text) = str::from_utf8(text) else {
        return status::NOT_NUMBER;
    };
    let Some(number) = ConfigurationString::parse_number_from_hex(text) else {
        return status::NOT_NUMBER;
    };
    *out = number;
    status::OK
}
