ghost use Rattle.std.specs.Prelude.{string_bytes, IfOk, OnOk};
ghost use Rattle.uefi_base.specs.Appending.{AppendsText};
ghost use Rattle.pcr_replay.specs.ReadLogs.{header_in};
ghost use Rattle.uefi_audit.specs.EventsReport.{AreEvents, AreEventsIf, IsEventsReport, header_text};
ghost use Rattle.uefi_audit.specs.declared.request.Format.TheVariants.{Json, Text};
ghost use Rattle.uefi_audit.specs.Printed.{printed_of};
ghost use Rattle.audit_text.specs.words.Events.{AppendsSome};

use crate::log_file::{LogFile, judge, judged_status};
use crate::report::Report;
use crate::request::{Format, Reading};
use audit_text::json::push_events;
use audit_text::text::{push_event_blocks, push_header_block};
use std::alloc::{AllocError, Global};

/// Returns what is printed of the events of a log.
///
/// # Errors
///
/// [`AllocError`] if an allocation fails.
pub(crate) fn events_report(
    alloc: Global,
    file: &LogFile<'_>,
    reading: Reading,
    format: Format,
) -> Result<Report, AllocError>
    ensures { IfOk result (λ report. IsEventsReport reading.allow_left_over file.now format
        (printed_of report)) }
{
    let (judgement, messages) = judge(alloc, file, reading.allow_left_over)?;
    let text = events_text(alloc, file, format, judgement.is_read())?;
    Ok(Report {
        text,
        messages,
        status: judged_status(judgement),
    })
}

/// Returns the events of a log in a format, if they are read.
#[tactic(auto, unfolding(crate::specs::EventsReport::AreEventsIf))]
fn events_text(
    alloc: Global,
    file: &LogFile<'_>,
    format: Format,
    is_read: bool,
) -> Result<String, AllocError>
    ensures { IfOk result (λ text. AreEventsIf is_read format file.now (string_bytes text)) }
{
    let mut text = String::new(alloc);
    if !is_read {
        return Ok(text);
    }
    match format {
        Format::Json => push_lines(&mut text, alloc, file)?,
        Format::Text => push_blocks(&mut text, alloc, file)?,
    }
    Ok(text)
}

/// Appends the line of each event.
fn push_lines(text: &mut String, alloc: Global, file: &LogFile<'_>) -> Result<(), AllocError>
    ensures { OnOk result (AppendsSome (AreEvents Json file.now) text.old text.new) }
{
    let (entries, uintn_size) = (file.read.entries(), file.read.uintn_size());
    push_events(text, alloc, file.name, entries, uintn_size)
}

/// Appends the block of the header, if there is one, and that of each event.
fn push_blocks(text: &mut String, alloc: Global, file: &LogFile<'_>) -> Result<(), AllocError>
    ensures { OnOk result (AppendsSome (AreEvents Text file.now) text.old text.new) }
{
    push_header(text, alloc, file)?;
    let (entries, uintn_size) = (file.read.entries(), file.read.uintn_size());
    push_event_blocks(text, alloc, file.name, entries, uintn_size)
}

/// Appends the block of a log's header, if there is one.
#[tactic(auto, unfolding(crate::specs::EventsReport::header_text))]
fn push_header(text: &mut String, alloc: Global, file: &LogFile<'_>) -> Result<(), AllocError>
    ensures { OnOk result (AppendsText text.old text.new
        (header_text file.now.name.now (header_in file.now.read))) }
{
    match &file.read.header() {
        Some(header) => push_header_block(text, alloc, file.name, header),
        None => Ok(()),
    }
}
