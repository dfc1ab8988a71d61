ghost use Rattle.std.specs.Prelude.{◌≡◌, map, IfOk};
ghost use Rattle.tcg_event.specs.Views.{blob_of, described_of, tagged_of};
ghost use Rattle.uefi_tcg.specs.v2.Views.{header_of, table_of};
ghost use Rattle.audit_text.specs.parts.Contents.{blob_parts, described_parts, header_parts, size_parts, tagged_events_parts, tagged_parts};
ghost use Rattle.audit_text.specs.parts.Part.{object};
ghost use Rattle.audit_text.specs.private.PartViews.{AreParts, value_of};

use crate::parts::part::{Part, PartValue, PartsResult, joined};
use crate::parts::texts::{algorithm_value, event_value};
use crate::words::tags::tag_name;
use crate::words::texts::byte_text;
use std::alloc::{AllocError, Global};
use tcg_event::{EventText, PlatformFirmwareBlob, PlatformFirmwareBlob2, TaggedEvent};
use uefi_audits::content::TaggedData;
use uefi_tcg::AlgorithmId;
use uefi_tcg::v2::{AlgorithmDigestSizes, EventLogHeader};

/// Returns the parts of a header.
#[tactic(auto, unfolding(crate::specs::parts::Contents::header_parts))]
pub(crate) fn header_parts<'a>(alloc: Global, header: &EventLogHeader<'a>) -> PartsResult<'a>
    ensures { AreParts result (header_parts (header_of header.now)) }
{
    let (major, minor, errata) = header.spec_version();
    let class = u64::from(header.platform_class());
    let uintn_size = u64::from(header.uintn_size());
    let sizes = PartValue::List(size_values(alloc, &header.algorithm_digest_sizes())?);
    Ok(vec![in alloc;
        Part::new("major", "  version ", PartValue::Decimal(u64::from(major))),
        Part::new("minor", ".", PartValue::Decimal(u64::from(minor))),
        Part::new("errata", ", errata ", PartValue::Decimal(u64::from(errata))),
        Part::new(
            "platform_class",
            ", platform class ",
            PartValue::Decimal(class)
        ),
        Part::words("\n"),
        Part::in_json("uintn_size", PartValue::Decimal(uintn_size)),
        Part::new("algorithms", "", sizes),
        Part::bytes("vendor_info", "  vendor's bytes", header.vendor_info()),
    ]?)
}

/// Returns the algorithms of a header, in order, each with the size of its digests.
#[tactic(auto, using(crate::proofs::words::SizeRows::rows))]
fn size_values<'a>(
    alloc: Global,
    sizes: &AlgorithmDigestSizes<'_>,
) -> Result<Vec<PartValue<'a>>, AllocError>
    ensures { IfOk result (λ values. map value_of values.items
        ≡ map (λ row. object (size_parts row)) (table_of sizes.now)) }
{
    let mut values = Vec::new(alloc);
    for index in 0..sizes.len() {
        let Some((algorithm, size)) = sizes.get(index) else {
            return Ok(values);
        };
        let value = size_value(alloc, algorithm, size)?;
        values.push(value)?;
    }
    Ok(values)
}

/// Returns an algorithm with the size of its digests.
fn size_value<'a>(
    alloc: Global,
    algorithm: AlgorithmId,
    size: u16,
) -> Result<PartValue<'a>, AllocError>
    ensures { IfOk result (λ value. value_of value ≡ object (size_parts (algorithm.0, size))) }
{
    Ok(PartValue::Object(size_parts(alloc, algorithm, size)?))
}

/// Returns the parts of an algorithm with the size of its digests.
#[tactic(auto, unfolding(crate::specs::parts::Contents::size_parts))]
fn size_parts<'a>(alloc: Global, algorithm: AlgorithmId, size: u16) -> PartsResult<'a>
    ensures { AreParts result (size_parts (algorithm.0, size)) }
{
    let algorithm = algorithm_value(alloc, algorithm)?;
    Ok(vec![in alloc;
        Part::new("algorithm", "  algorithm ", algorithm),
        Part::new("size", ", ", PartValue::Decimal(u64::from(size))),
        Part::words(" bytes\n"),
    ]?)
}

/// Returns the parts of a blob.
#[tactic(auto, unfolding(crate::specs::parts::Contents::blob_parts))]
pub(crate) fn blob_parts<'a>(alloc: Global, blob: &PlatformFirmwareBlob) -> PartsResult<'a>
    ensures { AreParts result (blob_parts (blob_of blob.now)) }
{
    Ok(vec![in alloc;
        Part::new("address", "  blob at ", PartValue::Hexadecimal(blob.base)),
        Part::new("length", ", ", PartValue::Decimal(blob.length)),
        Part::words(" bytes\n"),
    ]?)
}

/// Returns the parts of a blob with a description.
#[tactic(auto, unfolding(crate::specs::parts::Contents::described_parts))]
pub(crate) fn described_parts<'a>(
    alloc: Global,
    described: &PlatformFirmwareBlob2<'_>,
) -> PartsResult<'a>
    ensures { AreParts result (described_parts (described_of described.now)) }
{
    let blob = &described.blob;
    let description = byte_text(alloc, described.description)?;
    Ok(vec![in alloc;
        Part::new("address", "  blob at ", PartValue::Hexadecimal(blob.base)),
        Part::new("length", ", ", PartValue::Decimal(blob.length)),
        Part::new("description", " bytes: ", PartValue::Text(description)),
        Part::words("\n"),
    ]?)
}

/// Returns the parts of tagged events, and the bytes after them.
#[tactic(auto, unfolding(crate::specs::parts::Contents::tagged_events_parts))]
pub(crate) fn tagged_events_parts<'a>(alloc: Global, tagged: &TaggedData<'a>) -> PartsResult<'a>
    ensures { AreParts result (tagged_events_parts tagged.now.split.0.0 tagged.now.split.0.1) }
{
    let mut events = Vec::new(alloc);
    for event in tagged.iter() {
        events.push(PartValue::Object(tagged_parts(alloc, &event)?))?;
    }
    let events = PartValue::List(events);
    Ok(vec![in alloc; Part::new("events", "", events), Part::rest(tagged.rest())]?)
}

/// Returns the parts of a tagged event.
#[tactic(auto, unfolding(crate::specs::parts::Contents::tagged_parts))]
fn tagged_parts<'a>(alloc: Global, event: &TaggedEvent<'a>) -> PartsResult<'a>
    ensures { AreParts result (tagged_parts (tagged_of event.now)) }
{
    let number = PartValue::Hexadecimal(u64::from(event.id));
    let tag = match tag_name(event.id) {
        Some(name) => {
            let name = PartValue::Plain(String::from_str(alloc, name)?);
            vec![in alloc;
                Part::new("name", "  tagged event ", name),
                Part::new("id", " ", number),
            ]?
        }
        None => vec![in alloc; Part::new("id", "  tagged event ", number)]?,
    };
    let text = event_value(alloc, &EventText::read(event.data))?;
    let others = vec![in alloc;
        Part::in_json("data", PartValue::Bytes(event.data)),
        Part::new("text", ": ", text),
        Part::words("\n"),
    ]?;
    joined(tag, others)
}
