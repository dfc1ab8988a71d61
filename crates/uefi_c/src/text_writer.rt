//! Writers of text: one that counts the bytes, and one that fills a buffer.

ghost use Rattle.std.specs.Prelude.{◌+◌, ◌<◌, ◌≤◌, ◌^◌, ◌↔◌, IsOk, ◌≡◌, ◌≢◌, ◌⊎◌, [], ◌∷◌, length, IfOk, IfSome, OnOk};
ghost use Rattle.uefi_c.specs.PathWrite.{IsNeeded};
ghost use Rattle.uefi_c.specs.Status.{IsOneOf, buffer_too_small, ok, too_long};
ghost use Rattle.uefi_base.specs.Buffer.{put_prefix};
ghost use Rattle.uefi_c.specs.private.TextWriters.{Counts, Fills};

use crate::status::{self, UefiStatus};
use std::fmt::{self, Write};
use uefi_base::buffer::put;

/// A writer that counts the bytes of a text, and keeps none.
#[derive(Drop)]
struct Count {
    length: usize,
}

/// It fails if the number is no `usize`.
impl fmt::Write for Count {
    ghost write_str_gives = { Counts };

    fn write_str(&mut self, text: &str) -> fmt::Result
        ensures counted { IsOk result → Counts self.old text.now self.new }
        ensures fits { IsOk result ↔ (self.old.length + length text.now < 2 ^ 64) }
    {
        let Some(length) = self.length.checked_add(text.len()) else {
            return Err(fmt::Error);
        };
        self.length = length;
        Ok(())
    }
}

/// A writer that fills a buffer from its start.
#[derive(Drop)]
struct Fill<'a> {
    buffer: &'a mut [u8],
    length: usize,
}

/// It fails if the rest of the buffer is shorter than the text.
impl fmt::Write for Fill<'_> {
    ghost write_str_gives = { Fills };

    fn write_str(&mut self, text: &str) -> fmt::Result
        ensures filled { IsOk result → Fills self.old text.now self.new }
        ensures fits { IsOk result
            ↔ (self.old.length + length text.now ≤ length self.old.buffer.now) }
    {
        let bytes = text.as_bytes();
        let Some(end) = self.length.checked_add(bytes.len()) else {
            return Err(fmt::Error);
        };
        if self.buffer.len() < end {
            return Err(fmt::Error);
        }
        put(self.buffer, self.length, bytes);
        self.length = end;
        Ok(())
    }
}

/// Returns the length of the text that a value displays in bytes.
///
/// # Errors
///
/// If the value can't be displayed, or the length is no `usize`.
#[tactic(auto, using(crate::proofs::TextsWritten::text_counted))]
pub(crate) fn text_length<T: fmt::Display + Drop>(text: T) -> Result<usize, fmt::Error>
    ensures { IfOk result (λ n. IfSome (T.output text) (λ bytes. n ≡ length bytes)) }
{
    let mut count = Count { length: 0 };
    count.write_fmt(format_args!("{text}"))?;
    Ok(count.length)
}

/// Writes the text that a value displays to the beginning of the buffer.
///
/// # Errors
///
/// If the value can't be displayed, or the buffer is shorter.
#[tactic(auto, using(crate::proofs::TextsWritten::text_filled))]
pub(crate) fn fill_text<T: fmt::Display + Drop>(buffer: &mut [u8], text: T) -> fmt::Result
    ensures { OnOk result
        (IfSome (T.output text) (λ bytes. buffer.new ≡ put_prefix bytes buffer.old)) }
{
    let mut fill = Fill { buffer, length: 0 };
    fill.write_fmt(format_args!("{text}"))?;
    Ok(())
}

/// Writes the text that a value displays to the beginning of the buffer; the bytes after it stay as
/// they were. Returns the status, and the length of the text.
///
/// If the buffer is shorter, all bytes stay as they were. If the text can't be displayed, or its
/// length is no `usize`, the length is 0.
pub(crate) fn put_text<T: fmt::Display + Copy>(buffer: &mut [u8], text: T) -> (UefiStatus, usize)
    ensures known { IsOneOf result.0 (ok ∷ buffer_too_small ∷ too_long ∷ []) }
    ensures written { result.0 ≡ ok
        → IfSome (T.output text) (λ bytes. buffer.new ≡ put_prefix bytes buffer.old) }
    ensures size { result.0 ≢ too_long → IfSome (T.output text)
        (λ bytes. IsNeeded (length bytes) (length buffer.old) result.1 result.0) }
    ensures no_size { result.0 ≡ too_long → result.1 ≡ 0 }
    ensures unchanged { result.0 ≡ buffer_too_small → buffer.new ≡ buffer.old }
{
    let Ok(length) = text_length(text) else {
        return (status::TOO_LONG, 0);
    };
    if buffer.len() < length {
        return (status::BUFFER_TOO_SMALL, length);
    }
    let Ok(()) = fill_text(buffer, text) else {
        return (status::TOO_LONG, 0);
    };
    (status::OK, length)
}
