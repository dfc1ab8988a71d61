ghost use Rattle.std.specs.Prelude.{map, OnOk};
ghost use Rattle.uefi_base.specs.Appending.{AppendsText};
ghost use Rattle.uefi_audits.specs.content.Views.{content_of};
ghost use Rattle.audit_text.specs.parts.Part.{guid as guid_value, lines_of};
ghost use Rattle.audit_text.specs.private.PartViews.{part_of, value_of};
ghost use Rattle.audit_text.specs.text.EventContents.{content_lines};

use crate::parts::{Part, PartValue, content_parts};
use crate::text::events::hex_lines::push_bytes;
use shown::ShownName;
use std::alloc::{AllocError, Global};
use uefi_audits::content::EventContent;
use uefi_base::Guid;

/// Appends lines for what data say; the data, if they aren't read.
#[tactic(auto, unfolding(crate::specs::text::EventContents::content_lines))]
pub(crate) fn push_content<'a>(
    text: &mut String,
    alloc: Global,
    content: &EventContent<'a>,
    bytes: &'a [u8],
) -> Result<(), AllocError>
    ensures { OnOk result (AppendsText text.old text.new
        (content_lines bytes.now (content_of content.now))) }
{
    let mut parts = content_parts(alloc, content)?;
    if parts.is_empty() {
        parts.push(Part::bytes_in_block("  data", bytes))?;
    }
    push_parts(text, alloc, &parts)
}

/// Appends the lines of parts: of those that have words, these and the value.
#[cycle(lines)]
pub(crate) fn push_parts(
    text: &mut String,
    alloc: Global,
    parts: &Vec<Part<'_>>,
) -> Result<(), AllocError>
    ensures { OnOk result
        (AppendsText text.old text.new (lines_of (map part_of parts.now.items))) }
{
    for part in parts {
        if let Some(words) = part.words {
            text.push_str(words)?;
            push_value(text, alloc, &part.value)?;
        }
    }
    Ok(())
}

/// Appends a value.
#[cycle(lines)]
#[tactic(auto, unfolding(crate::specs::private::PartViews::most_values))]
fn push_value(text: &mut String, alloc: Global, value: &PartValue<'_>) -> Result<(), AllocError>
    ensures { OnOk result (AppendsText text.old text.new (value_of value.now).shown) }
{
    match value {
        PartValue::Empty => Ok(()),
        PartValue::Decimal(number) => write!(text, "{number}"),
        PartValue::Hexadecimal(number) => write!(text, "0x{number:x}"),
        PartValue::BootNumber(number) => {
            let bytes = [(*number / 256) as u8, (*number % 256) as u8];
            let digits = hex::encode_upper(alloc, &bytes)?;
            write!(text, " Boot{digits}")
        }
        PartValue::Guid(guid) => push_guid(text, guid),
        PartValue::Text(said) => {
            let said = ShownName(said.as_str());
            write!(text, "{said}")
        }
        PartValue::Plain(said) => text.push_str(said.as_str()),
        PartValue::Bytes(bytes) => push_bytes(text, alloc, bytes),
        PartValue::Object(parts) => push_parts(text, alloc, parts),
        PartValue::List(values) => {
            for value in values {
                push_value(text, alloc, value)?;
            }
            Ok(())
        }
    }
}

/// Appends a GUID.
#[tactic(auto, unfolding(crate::specs::parts::Part::guid))]
fn push_guid(text: &mut String, guid: &Guid) -> Result<(), AllocError>
    ensures { OnOk result (AppendsText text.old text.new (guid_value guid.now.0).shown) }
{
    write!(text, "{guid}")
}
