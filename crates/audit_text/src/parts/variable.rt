ghost use Rattle.std.specs.Prelude.{◌≡◌, map, IfOk};
ghost use Rattle.uefi_path.specs.LoadOptionViews.{load_option_of};
ghost use Rattle.tcg_event.specs.BootOrderViews.{order_of};
ghost use Rattle.tcg_event.specs.Views.{variable_of};
ghost use Rattle.uefi_audits.specs.content.Value as values;
ghost use Rattle.audit_text.specs.parts.Contents.{boot_option_parts, optional_data_parts, value_parts, variable_parts};
ghost use Rattle.audit_text.specs.parts.Part.{boot_number, list};
ghost use Rattle.audit_text.specs.private.PartViews.{AreParts, part_of, value_of};

use crate::parts::part::{Part, PartValue, PartsResult, joined};
use crate::parts::path::path_parts;
use crate::words::printed::printed_text;
use crate::words::texts::{description_text, name_text};
use std::alloc::{AllocError, Global};
use tcg_event::{BootOrder, VariableData};
use uefi_path::LoadOption;

/// Returns the parts of a variable: its name, its GUID, its data, and those of its value.
#[tactic(auto, unfolding(crate::specs::parts::Contents::variable_parts))]
pub(crate) fn variable_parts<'a>(
    alloc: Global,
    variable: &VariableData<'a>,
    value: Vec<Part<'a>>,
) -> PartsResult<'a>
    ensures { AreParts result
        (variable_parts (variable_of variable.now) (map part_of value.entry.items)) }
{
    let name = name_text(alloc, &variable.name)?;
    let parts = vec![in alloc;
        Part::new("name", "  variable ", PartValue::Text(name)),
        Part::new("guid", ", ", PartValue::Guid(variable.guid)),
        Part::words("\n"),
        Part::in_json("data", PartValue::Bytes(variable.data)),
    ]?;
    joined(parts, value)
}

/// Returns the parts of a value that isn't read: the bytes, and the text that they are.
pub(crate) fn unread_parts<'a>(alloc: Global, bytes: &'a [u8]) -> PartsResult<'a>
    ensures { AreParts result (value_parts bytes.now values.unread) }
{
    let text = printed_text(alloc, bytes)?;
    Ok(vec![in alloc;
        Part::bytes_in_block("  value", bytes),
        Part::text_in_json("text", text),
    ]?)
}

/// Returns the parts of a boot option: its attributes, its description, its path, and the data for
/// its image.
#[tactic(auto, unfolding(crate::specs::parts::Contents::boot_option_parts))]
pub(crate) fn boot_option_parts<'a>(alloc: Global, option: &LoadOption<'a>) -> PartsResult<'a>
    ensures { AreParts result (boot_option_parts (load_option_of option.now)) }
{
    let attributes = PartValue::Hexadecimal(u64::from(option.attributes().bits()));
    let description = PartValue::Text(description_text(alloc, option)?);
    let line = vec![in alloc;
        Part::new("attributes", "  boot option with attributes ", attributes),
        Part::new("description", ": ", description),
        Part::words("\n"),
    ]?;
    let path = path_parts(alloc, &option.file_path())?;
    let data = optional_data_parts(alloc, option.optional_data())?;
    joined(line, joined(path, data)?)
}

/// Returns the data for the image of a boot option, and the text that they are.
#[tactic(auto, unfolding(crate::specs::parts::Contents::optional_data_parts))]
fn optional_data_parts<'a>(alloc: Global, bytes: &'a [u8]) -> PartsResult<'a>
    ensures { AreParts result (optional_data_parts bytes.now) }
{
    let text = printed_text(alloc, bytes)?;
    Ok(vec![in alloc;
        Part::bytes("optional_data", "  optional data", bytes),
        Part::text_in_json("optional_text", text),
    ]?)
}

/// Returns the order of boot options: their numbers.
pub(crate) fn boot_order_value<'a>(
    alloc: Global,
    order: &BootOrder<'_>,
) -> Result<PartValue<'a>, AllocError>
    ensures { IfOk result
        (λ value. value_of value ≡ list (map boot_number (order_of order.now))) }
{
    let mut numbers = Vec::new(alloc);
    for number in order.iter() {
        numbers.push(PartValue::BootNumber(number))?;
    }
    Ok(PartValue::List(numbers))
}
