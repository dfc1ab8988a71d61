ghost use Rattle.std.specs.Prelude.{OnOk};
ghost use Rattle.uefi_base.specs.Appending.{AppendsText};
ghost use Rattle.audit_text.specs.text.EventParts.{hex_line, hex_lines, text_or_hex};
ghost use Rattle.audit_text.specs.words.Printed.{printed_text};

use crate::words::printed::printed_text;
use shown::ShownName;
use std::alloc::{AllocError, Global};

/// How many bytes a line has.
const LINE_LENGTH: usize = 32;

/// Appends `: ` and the text that bytes are, if all of it prints, or the bytes in hex, 32 a line.
#[tactic(auto, unfolding(crate::specs::text::EventParts::text_or_hex))]
pub(crate) fn push_bytes(text: &mut String, alloc: Global, bytes: &[u8]) -> Result<(), AllocError>
    ensures { OnOk result (AppendsText text.old text.new
        (text_or_hex (printed_text bytes.now) bytes.now)) }
{
    match printed_text(alloc, bytes)? {
        Some(printed) => {
            let printed = ShownName(printed.as_str());
            writeln!(text, ": {printed}")
        }
        None => {
            text.push_str("\n")?;
            push_hex_lines(text, alloc, bytes)
        }
    }
}

/// Appends bytes in hex, 32 a line.
fn push_hex_lines(text: &mut String, alloc: Global, bytes: &[u8]) -> Result<(), AllocError>
    ensures { OnOk result (AppendsText text.old text.new (hex_lines bytes.now)) }
{
    let mut rest = bytes;
    while rest.len() > LINE_LENGTH {
        let (line, after) = rest.split_at(LINE_LENGTH);
        push_hex_line(text, alloc, line)?;
        rest = after;
    }
    push_hex_line(text, alloc, rest)
}

/// Appends a line of bytes in hex.
#[tactic(auto, unfolding(crate::specs::text::EventParts::hex_line))]
fn push_hex_line(text: &mut String, alloc: Global, bytes: &[u8]) -> Result<(), AllocError>
    ensures { OnOk result (AppendsText text.old text.new (hex_line bytes.now)) }
{
    let digits = hex::encode(alloc, bytes)?;
    writeln!(text, "    {digits}")
}
