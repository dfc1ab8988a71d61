ghost use Rattle.std.specs.Prelude.{codes, map};
ghost use Rattle.tcg_event.specs.Views.{variable_of};
ghost use Rattle.audit_text.specs.parts.Contents.{content_parts, line, only, variable_parts};
ghost use Rattle.audit_text.specs.private.PartViews.{AreParts, part_of, value_of};
ghost use Rattle.uefi_audits.specs.content.Views.{content_of};

use crate::parts::firmware::{blob_parts, described_parts, header_parts, tagged_events_parts};
use crate::parts::gpt::gpt_parts;
use crate::parts::part::{Part, PartValue, PartsResult};
use crate::parts::path::image_parts;
use crate::parts::signatures::{lists_value, signature_parts};
use crate::parts::texts::{event_value, version_value};
use crate::parts::variable::{boot_option_parts, boot_order_value, unread_parts, variable_parts};
use std::alloc::Global;
use tcg_event::VariableData;
use uefi_audits::content::EventContent;

/// Returns the parts of what data say; none, if they aren't read.
#[tactic(auto, unfolding(crate::specs::parts::Contents::content_parts))]
pub(crate) fn content_parts<'a>(alloc: Global, content: &EventContent<'a>) -> PartsResult<'a>
    ensures { AreParts result (content_parts (content_of content.now)) }
{
    match content {
        EventContent::Unread => Ok(Vec::new(alloc)),
        EventContent::Text(said) => {
            let said = PartValue::Text(String::from_str(alloc, said)?);
            line(alloc, "text", "  text ", said)
        }
        EventContent::Separator(number) => {
            let number = PartValue::Hexadecimal(u64::from(*number));
            line(alloc, "separator", "  separator ", number)
        }
        EventContent::Locality(number) => {
            let number = PartValue::Decimal(u64::from(*number));
            line(alloc, "locality", "  started at locality ", number)
        }
        EventContent::Header(header) => only(alloc, "header", header_parts(alloc, header)?),
        EventContent::LoaderText(said) => line(alloc, "text", "  text ", event_value(alloc, said)?),
        EventContent::CrtmVersion(version) => {
            let version = version_value(alloc, version)?;
            line(alloc, "crtm_version", "  version ", version)
        }
        EventContent::Blob(blob) => only(alloc, "blob", blob_parts(alloc, blob)?),
        EventContent::DescribedBlob(blob) => only(alloc, "blob", described_parts(alloc, blob)?),
        EventContent::Tagged(tagged) => {
            only(alloc, "tagged_events", tagged_events_parts(alloc, tagged)?)
        }
        EventContent::Gpt(gpt) => only(alloc, "gpt", gpt_parts(alloc, gpt)?),
        EventContent::Variable(variable) => {
            let value = unread_parts(alloc, variable.data)?;
            only(alloc, "variable", variable_parts(alloc, variable, value)?)
        }
        EventContent::BootOption(variable, option) => {
            let value = only(alloc, "boot_option", boot_option_parts(alloc, option)?)?;
            read_variable(alloc, variable, value)
        }
        EventContent::BootOrder(variable, order) => {
            let order = boot_order_value(alloc, order)?;
            let value = line(alloc, "boot_order", "  boot order", order)?;
            read_variable(alloc, variable, value)
        }
        EventContent::SignatureLists(variable, lists) => {
            let lists = lists_value(alloc, lists)?;
            let value = vec![in alloc; Part::new("signature_lists", "", lists)]?;
            read_variable(alloc, variable, value)
        }
        EventContent::Signature(variable, signature) => {
            let value = only(alloc, "signature", signature_parts(alloc, signature)?)?;
            read_variable(alloc, variable, value)
        }
        EventContent::Image(image, path) => only(alloc, "image", image_parts(alloc, image, path)?),
    }
}

/// Returns a line of one value.
fn line<'a>(
    alloc: Global,
    key: &'static str,
    words: &'static str,
    value: PartValue<'a>,
) -> PartsResult<'a>
    ensures { AreParts result (line key.now words.now (value_of value.entry)) }
{
    Ok(vec![in alloc; Part::new(key, words, value), Part::words("\n")]?)
}

/// Returns an object alone.
fn only<'a>(alloc: Global, key: &'static str, parts: Vec<Part<'a>>) -> PartsResult<'a>
    ensures { AreParts result (only key.now (map part_of parts.entry.items)) }
{
    Ok(vec![in alloc; Part::new(key, "", PartValue::Object(parts))]?)
}

/// Returns a variable with what its value says.
fn read_variable<'a>(
    alloc: Global,
    variable: &VariableData<'a>,
    value: Vec<Part<'a>>,
) -> PartsResult<'a>
    ensures { AreParts result
        (only (codes "variable") (variable_parts (variable_of variable.now) (only (codes "value") (map part_of value.entry.items)))) }
{
    let value = only(alloc, "value", value)?;
    only(alloc, "variable", variable_parts(alloc, variable, value)?)
}
