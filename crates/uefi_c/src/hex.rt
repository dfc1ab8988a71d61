ghost use Rattle.std.specs.Prelude.{◌≡◌, ◌↔◌, ◌≤◌, length, IsUtf8, ◌≢◌, [], ◌∷◌};
ghost use Rattle.uefi_base.specs.Buffer.{put_prefix};
ghost use Rattle.uefi_hii.specs.Hex.{hex};
ghost use Rattle.uefi_c.specs.Status.{buffer_too_small, IsOneOf, not_text, ok};

use crate::status::{self, UefiStatus};
use uefi_hii::{ConfigurationString, fill_from_hex};

/// Writes the bytes that a text in UTF-8 spells in hex to the beginning of the buffer, and sets
/// `size` to their number; the bytes after them stay as they were.
///
/// If it returns another status than success, all bytes stay as they were, and `size` is the length
/// that the buffer needs, or 0 if the text isn't UTF-8.
#[unsafe(no_mangle)]
pub extern "C" fn uefi_hex(buffer: &mut [u8], text: &[u8], size: &mut usize) -> UefiStatus
    ensures fits { (result ≡ ok)
        ↔ IsUtf8 text.now × (length (hex text.now) ≤ length buffer.old) }
    ensures known { IsOneOf result (ok ∷ buffer_too_small ∷ not_text ∷ []) }
    ensures no_such_text { (result ≡ not_text) ↔ ¬ IsUtf8 text.now }
    ensures written { result ≡ ok → buffer.new ≡ put_prefix (hex text.now) buffer.old }
    ensures size { IsUtf8 text.now → size.new ≡ length (hex text.now) }
    ensures no_text { ¬ IsUtf8 text.now → size.new ≡ 0 }
    ensures unchanged { result ≢ ok → buffer.new ≡ buffer.old }
{
    let Ok(text) = str::from_utf8(text) else {
        *size = 0;
        return status::NOT_TEXT;
    };
    let length = ConfigurationString::parse_bytes_from_hex(text).len();
    *size = length;
    if buffer.len() < length {
        return status::BUFFER_TOO_SMALL;
    }
    let (bytes, _) = buffer.split_at_mut(length);
    fill_from_hex(text, bytes);
    status::OK
}
