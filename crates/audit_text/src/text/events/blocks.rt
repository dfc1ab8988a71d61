ghost use Rattle.std.specs.Prelude.{map, OnOk};
ghost use Rattle.uefi_base.specs.Appending.{AppendsText};
ghost use Rattle.uefi_tcg.specs.LogViews.{entry_of, event_of};
ghost use Rattle.uefi_tcg.specs.v2.Views.{header_of};
ghost use Rattle.audit_text.specs.text.Events.{AreEventBlocks, digest_line, event_start, first_line, header_block, IsEventBody};
ghost use Rattle.audit_text.specs.words.Events.{AppendsSome};

use crate::parts::header_parts;
use crate::text::events::names::push_algorithm;
use crate::text::events::parts::{push_content, push_parts};
use crate::words::push_type;
use shown::ShownName;
use std::alloc::{AllocError, Global};
use uefi_audits::content::read_content;
use uefi_tcg::v2::EventLogHeader;
use uefi_tcg::{AlgorithmId, LogEntry, LogEvent, UintnSize};

/// Appends a block of lines for the header of a log of version 2.
///
/// ```text
/// NAME: header at offset 0
///   version 2.0, errata 0, platform class 0
///   algorithm sha256, 32 bytes
/// ```
///
/// # Errors
///
/// [`AllocError`] if an allocation fails. The text may have grown then.
#[tactic(auto, unfolding(crate::specs::text::Events::header_block))]
pub fn push_header_block(
    text: &mut String,
    alloc: Global,
    name: &str,
    header: &EventLogHeader<'_>,
) -> Result<(), AllocError>
    ensures { OnOk result (AppendsText text.old text.new
        (header_block name.now (header_of header.now))) }
{
    let name = ShownName(name);
    let parts = header_parts(alloc, header)?;
    writeln!(text, "{name}: header at offset 0")?;
    push_parts(text, alloc, &parts)
}

/// Appends a block of lines for each event of a log, in order. The log has a `UINTN` of this size
/// ([`ReadLog::uintn_size`](pcr_replay::ReadLog::uintn_size)).
///
/// ```text
/// NAME: event 1 at offset 266: PCR 7, EV_EFI_VARIABLE_DRIVER_CONFIG
///   sha256 ccfc4bb32888a345bc8aeadaba552b627d99348c767681ab3141f5b01e40a40e
///   variable SecureBoot, 8be4df61-93ca-11d2-aa0d-00e098032b8c
///   value
///     01
/// ```
///
/// The first line of an event has the name of the log, the event's index and the offset at which it
/// starts, its PCR and its type. A line for each digest follows, and what the data say, as
/// [`read_content`] reads them. A text is shown whole: as [`ShownName`] displays it, and bytes that
/// are no text as [`ShownBytes`](shown::ShownBytes) does. Data that aren't read are in hex, 32
/// bytes a line. A type or an algorithm without a name is its number, as `0x77`.
///
/// A device path is in UEFI's text form (UEFI 2.10, 10.6) where its nodes are of the usual types,
/// as `PciRoot(0x0)/Pci(0x1f,0x2)/HD(1,GPT,..)/\EFI\BOOT\BOOTX64.EFI`. Another node, and a file path
/// with a control character, is `Path(TYPE,SUBTYPE,HEX)`.
///
/// # Errors
///
/// [`AllocError`] if an allocation fails. The text may have grown then.
pub fn push_event_blocks(
    text: &mut String,
    alloc: Global,
    name: &str,
    entries: &[LogEntry<'_>],
    uintn_size: UintnSize,
) -> Result<(), AllocError>
    ensures { OnOk result (AppendsSome
        (AreEventBlocks uintn_size name.now (map entry_of entries.now)) text.old text.new) }
{
    for index in 0..entries.len() {
        let entry = &entries[index];
        push_first_line(text, name, index, entry)?;
        push_body(text, alloc, &entry.event, uintn_size)?;
    }
    Ok(())
}

/// Appends the first line of an event's block.
#[tactic(auto, unfolding(crate::specs::text::Events::first_line))]
fn push_first_line(
    text: &mut String,
    name: &str,
    index: usize,
    entry: &LogEntry<'_>,
) -> Result<(), AllocError>
    ensures { OnOk result (AppendsText text.old text.new
        (first_line name.now index (entry_of entry.now))) }
{
    push_start(text, name, index, entry)?;
    push_type(text, entry.event.event_type())?;
    text.push_str("\n")
}

/// Appends the log's name, the event's index and its offset, and its PCR.
#[tactic(auto, unfolding(crate::specs::text::Events::event_start))]
fn push_start(
    text: &mut String,
    name: &str,
    index: usize,
    entry: &LogEntry<'_>,
) -> Result<(), AllocError>
    ensures { OnOk result (AppendsText text.old text.new
        (event_start name.now index (entry_of entry.now))) }
{
    let (name, offset) = (ShownName(name), entry.offset);
    let pcr = entry.event.pcr_index().0;
    write!(
        text,
        "{name}: event {index} at offset {offset}: PCR {pcr}, "
    )
}

/// Appends the lines of an event's block after the first one.
#[tactic(auto, unfolding(crate::specs::text::Events::event_body))]
fn push_body(
    text: &mut String,
    alloc: Global,
    event: &LogEvent<'_>,
    uintn_size: UintnSize,
) -> Result<(), AllocError>
    ensures { OnOk result (AppendsSome (IsEventBody uintn_size (event_of event.now))
        text.old text.new) }
{
    let content = read_content(event, uintn_size);
    for (algorithm, digest) in event.digests() {
        push_digest(text, alloc, algorithm, digest)?;
    }
    push_content(text, alloc, &content, event.event_data())
}

/// Appends the line of a digest.
#[tactic(auto, unfolding(crate::specs::text::Events::digest_line))]
fn push_digest(
    text: &mut String,
    alloc: Global,
    algorithm: AlgorithmId,
    digest: &[u8],
) -> Result<(), AllocError>
    ensures { OnOk result (AppendsText text.old text.new
        (digest_line (record { algorithm = algorithm.0; bytes = digest.now }))) }
{
    let digits = hex::encode(alloc, digest)?;
    text.push_str("  ")?;
    push_algorithm(text, algorithm)?;
    writeln!(text, " {digits}")
}
