ghost use Rattle.tcg_event.specs.GptViews.{entry_of, gpt_of};
ghost use Rattle.audit_text.specs.parts.Contents.{gpt_parts, partition_parts};
ghost use Rattle.audit_text.specs.private.PartViews.{AreParts};

use crate::parts::part::{Part, PartValue, PartsResult};
use crate::words::texts::text_before_nul;
use std::alloc::Global;
use tcg_event::{GptData, GptEntry};

/// Returns the parts of a partition table: the disk, and the partitions.
#[tactic(auto, unfolding(crate::specs::parts::Contents::gpt_parts))]
pub(crate) fn gpt_parts<'a>(alloc: Global, gpt: &GptData<'_>) -> PartsResult<'a>
    ensures { AreParts result (gpt_parts (gpt_of gpt.now)) }
{
    let header = gpt.header();
    let mut partitions = Vec::new(alloc);
    for entry in gpt.iter() {
        partitions.push(PartValue::Object(partition_parts(alloc, &entry)?))?;
    }
    Ok(vec![in alloc;
        Part::new("disk_guid", "  disk ", PartValue::Guid(header.disk_guid)),
        Part::new(
            "first_usable_lba",
            ", blocks ",
            PartValue::Decimal(header.first_usable_lba)
        ),
        Part::new(
            "last_usable_lba",
            " to ",
            PartValue::Decimal(header.last_usable_lba)
        ),
        Part::words("\n"),
        Part::new("partitions", "", PartValue::List(partitions)),
    ]?)
}

/// Returns the parts of a partition, with its name up to the first NUL.
#[tactic(auto, unfolding(crate::specs::parts::Contents::partition_parts))]
fn partition_parts<'a>(alloc: Global, entry: &GptEntry<'_>) -> PartsResult<'a>
    ensures { AreParts result (partition_parts (entry_of entry.now)) }
{
    let name = text_before_nul(alloc, &entry.name)?;
    Ok(vec![in alloc;
        Part::new(
            "unique_guid",
            "  partition ",
            PartValue::Guid(entry.unique_guid)
        ),
        Part::new(
            "first_lba",
            ", blocks ",
            PartValue::Decimal(entry.first_lba)
        ),
        Part::new("last_lba", " to ", PartValue::Decimal(entry.last_lba)),
        Part::new("type_guid", ", type ", PartValue::Guid(entry.type_guid)),
        Part::new(
            "attributes",
            ", attributes ",
            PartValue::Hexadecimal(entry.attributes)
        ),
        Part::new("name", ", name ", PartValue::Text(name)),
        Part::words("\n"),
    ]?)
}
