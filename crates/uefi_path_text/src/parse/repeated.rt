//! Arguments that are all of a kind.

ghost use Rattle.std.specs.Prelude.{◌≡◌, ◌≤◌, ◌<◌, ◌+◌, length, is_some, IfSome, IfNone, IsTrue, Some};
ghost use Rattle.uefi_base.specs.Buffer.{put_at};
ghost use Rattle.uefi_path_text.specs.parse.Values.{bytes_in};
ghost use Rattle.uefi_path_text.specs.parse.Arguments.{joined_values};
ghost use Rattle.uefi_path_text.specs.private.FromText.{value_bytes, IsValue};
ghost use Rattle.uefi_path_text.specs.private.Repeated.{AreOfKind, repeated_of};

use crate::form::argument::Argument;
use crate::parse::cut::cut;
use crate::parse::data::{GREATEST_DATA, put_value, value_of};

/// Returns the length of all values, or `None` if no node has so many bytes.
pub(crate) fn repeated_len(kind: Argument, texts: Option<&[u8]>) -> Option<usize>
    requires { AreOfKind kind texts }
    ensures some { IfSome result (λ n. n ≡ length (joined_values (repeated_of kind texts.entry))) }
    ensures few { IfSome result (λ n. n ≤ 0xfffb) }
    ensures none { IfNone result (0xfffb < length (joined_values (repeated_of kind texts.entry))) }
{
    let mut rest = texts;
    let mut size = 0;
    while let Some(parts) = rest {
        let (text, others) = cut(parts, b',');
        let more = kind.value_len(text);
        if more > GREATEST_DATA - size {
            return None;
        }
        size += more;
        rest = others;
    }
    Some(size)
}

/// Writes all values at an offset.
pub(crate) fn put_repeated(buffer: &mut [u8], offset: usize, kind: Argument, texts: Option<&[u8]>)
    requires read { AreOfKind kind texts }
    requires room { offset + length (joined_values (repeated_of kind texts)) ≤ length buffer.old }
    ensures { buffer.new ≡ put_at offset (joined_values (repeated_of kind texts.entry)) buffer.old }
{
    let mut rest = texts;
    let mut end = offset;
    while let Some(parts) = rest {
        let (text, others) = cut(parts, b',');
        let value = value_of(kind, text);
        put_value(buffer, end, &value);
        end += value.len();
        rest = others;
    }
}
