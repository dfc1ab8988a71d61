ghost use Rattle.std.specs.Prelude.{◌≡◌, IfOk, encode_utf8, option_map, string_bytes};
ghost use Rattle.std.specs.List.{flat_map, list_all};
ghost use Rattle.audit_text.specs.words.Printed.{if_printed, or_wide, printed_text, prints};
ghost use Rattle.audit_text.specs.words.Texts.{before_nul};

use crate::words::texts::text_before_nul;
use std::alloc::{AllocError, Global};
use uefi_base::UnalignedSlice;

/// Returns the text that bytes are, if all of it prints: two characters of ASCII or more, of one byte
/// each or, as in UTF-16, of two, with a NUL after the last one or without it.
#[tactic(auto, unfolding(crate::specs::words::Printed::or_wide))]
pub(crate) fn printed_text(alloc: Global, bytes: &[u8]) -> Result<Option<String>, AllocError>
    ensures { IfOk result (λ text. option_map string_bytes text ≡ printed_text bytes.now) }
{
    let text = bytes_before_nul(alloc, bytes)?;
    if let Some(text) = if_printed(text, bytes.len()) {
        return Ok(Some(text));
    }
    if bytes.len() % 2 != 0 {
        return Ok(None);
    }
    let units = UnalignedSlice::new(bytes);
    let text = text_before_nul(alloc, &units)?;
    Ok(if_printed(text, units.len()))
}

/// Returns the text before the first NUL of so many characters, if it has more than one, all of it
/// prints, and no more than that NUL follows. One character alone is as likely a number.
#[tactic(auto, unfolding(crate::specs::words::Printed::if_printed))]
fn if_printed(text: String, count: usize) -> Option<String>
    ensures { option_map string_bytes result ≡ if_printed (string_bytes text) count }
{
    if text.len() > 1 && count <= text.len() + 1 && are_printed(text.as_bytes()) {
        return Some(text);
    }
    None
}

/// Returns whether each byte of a text prints.
fn are_printed(bytes: &[u8]) -> bool
    ensures { result ≡ list_all prints bytes.now }
{
    bytes.iter().all(|byte| matches!(*byte, b' '..=b'~' | b'\t' | b'\n' | b'\r'))
}

/// Returns the bytes before the first NUL as text: each is the character of its number.
#[tactic(auto, unfolding(crate::specs::words::Texts::before_nul))]
fn bytes_before_nul(alloc: Global, bytes: &[u8]) -> Result<String, AllocError>
    ensures { IfOk result
        (λ text. string_bytes text ≡ flat_map encode_utf8 (before_nul bytes.now)) }
{
    let mut text = String::new(alloc);
    let mut rest = bytes;
    while let [byte, after @ ..] = rest {
        if *byte == 0 {
            return Ok(text);
        }
        text.push(char::from(*byte))?;
        rest = after;
    }
    Ok(text)
}
