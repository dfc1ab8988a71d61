ghost use Rattle.std.specs.Prelude.{◌≡◌, string_bytes, IfOk, OnOk};
ghost use Rattle.uefi_base.specs.Appending.{AppendsText};
ghost use Rattle.pcr_replay.specs.ReadLogs.{entries_in};
ghost use Rattle.uefi_audits.specs.Ignored.{has_no_pcr};
ghost use Rattle.uefi_audit.specs.Printed.{printed_of};
ghost use Rattle.uefi_audit.specs.ReplayReport.{IsReplayReport, IsReplayed, name_line, refused, replay_messages, replay_status, replay_text};

use crate::failure::Status;
use crate::log_file::{LogFile, judge, judged_status};
use crate::report::Report;
use crate::request::{Format, Reading};
use audit_text::json::push_replay_json;
use audit_text::text::{
    push_banks, push_ignored, push_inactive, push_start, push_undetermined, push_unsupported,
};
use pcr_replay::Bank;
use shown::ShownName;
use std::alloc::{AllocError, Global};
use uefi_audits::facts::LogFacts;
use uefi_audits::ignored::IgnoredEvent;
use uefi_audits::log_replay::LogReplay;

/// What `replay` asks for.
#[derive(Clone, Copy)]
pub(crate) struct Asked {
    /// The one bank, or all that are active.
    pub bank: Option<Bank>,
    /// The locality at which the TPM was started, or the one that the log states.
    pub locality: Option<u8>,
    /// How the PCRs are printed.
    pub format: Format,
    /// Whether the log is one of many, so that its name is printed above its PCRs.
    pub is_one_of_many: bool,
}

/// Returns what is printed of the PCRs that a log leads to.
///
/// # Errors
///
/// [`AllocError`] if an allocation fails.
#[tactic(auto, unfolding(crate::specs::ReplayReport::IsReplayBy))]
pub(crate) fn replay_report(
    alloc: Global,
    file: &LogFile<'_>,
    reading: Reading,
    asked: Asked,
) -> Result<Report, AllocError>
    ensures { IfOk result (λ report. IsReplayReport reading.allow_left_over file.now asked
        (printed_of report)) }
{
    let (judgement, messages) = judge(alloc, file, reading.allow_left_over)?;
    let facts = LogFacts::of(alloc, &file.read, asked.locality)?;
    if !judgement.is_read() {
        return refused_report(alloc, messages, file.name, &facts, asked);
    }
    let report = replayed_report(alloc, messages, file, &facts, asked)?;
    Ok(Report {
        text: report.text,
        messages: report.messages,
        status: judged_status(judgement).and(report.status),
    })
}

/// Returns what is printed after these messages of a log with trailing bytes that aren't allowed: as JSON
/// an object without PCRs.
#[tactic(auto, unfolding(crate::specs::ReplayReport::refused_text))]
fn refused_report(
    alloc: Global,
    messages: String,
    name: &str,
    facts: &LogFacts,
    asked: Asked,
) -> Result<Report, AllocError>
    ensures { IfOk result (λ report. printed_of report
        ≡ refused (string_bytes messages) name.now asked facts.now) }
{
    let mut text = String::new(alloc);
    match asked.format {
        Format::Text => {}
        Format::Json => push_replay_json(&mut text, alloc, name, facts, None)?,
    }
    Ok(Report {
        text,
        messages,
        status: Status::Unjudged,
    })
}

/// Returns what is printed after these messages of the PCRs that a log leads to.
fn replayed_report(
    alloc: Global,
    messages: String,
    file: &LogFile<'_>,
    facts: &LogFacts,
    asked: Asked,
) -> Result<Report, AllocError>
    ensures { IfOk result (λ report. IsReplayed (string_bytes messages) file.now.name.now asked
        facts.now (entries_in file.now.read) (printed_of report)) }
{
    let replay = LogReplay::of(alloc, file.read.entries(), facts, asked.bank)?;
    let mut messages = messages;
    push_messages(
        &mut messages,
        file.name,
        facts,
        &replay,
        asked.is_one_of_many,
    )?;
    let text = replay_text(alloc, file.name, facts, &replay, asked)?;
    let status = status_of(&replay);
    Ok(Report {
        text,
        messages,
        status,
    })
}

/// Returns PCRs in the format that is asked for.
#[tactic(auto, unfolding(crate::specs::ReplayReport::replay_text))]
fn replay_text(
    alloc: Global,
    name: &str,
    facts: &LogFacts,
    replay: &LogReplay,
    asked: Asked,
) -> Result<String, AllocError>
    ensures { IfOk result (λ text. string_bytes text
        ≡ replay_text asked.format asked.is_one_of_many name.now facts.now replay.now) }
{
    let mut text = String::new(alloc);
    match asked.format {
        Format::Text => {
            push_name(&mut text, name, asked.is_one_of_many)?;
            push_banks(&mut text, alloc, replay.banks.as_slice())?;
        }
        Format::Json => {
            let banks = Some(replay.banks.as_slice());
            push_replay_json(&mut text, alloc, name, facts, banks)?;
        }
    }
    Ok(text)
}

/// Appends the messages on a replay: the locality that is assumed, unless the log is one of many, the
/// banks that weren't replayed, the PCRs that are undetermined, and the events without effect.
#[tactic(auto, unfolding(crate::specs::ReplayReport::assumed_lines))]
fn push_messages(
    messages: &mut String,
    name: &str,
    facts: &LogFacts,
    replay: &LogReplay,
    is_one_of_many: bool,
) -> Result<(), AllocError>
    ensures { OnOk result (AppendsText messages.old messages.new
        (replay_messages name.now facts.now replay.now is_one_of_many)) }
{
    if !is_one_of_many {
        push_start(messages, name, &facts.start)?;
    }
    push_inactive(messages, name, replay.inactive.as_slice())?;
    push_unsupported(messages, name, replay.unsupported.as_slice())?;
    push_undetermined(messages, name, replay.banks.as_slice())?;
    push_ignored(messages, name, replay.ignored.as_slice())
}

/// Appends the line with a log's name, if it is one of many.
#[tactic(auto, unfolding(crate::specs::ReplayReport::name_line))]
fn push_name(text: &mut String, name: &str, is_one_of_many: bool) -> Result<(), AllocError>
    ensures { OnOk result
        (AppendsText text.old text.new (name_line is_one_of_many name.now)) }
{
    if !is_one_of_many {
        return Ok(());
    }
    let name = ShownName(name);
    writeln!(text, "{name}:")
}

/// Returns the status of a replay: a log is unjudged if no bank was replayed or a PCR of one is
/// undetermined, and it differs if an event should have extended a PCR that no TPM has.
fn status_of(replay: &LogReplay) -> Status
    ensures { result ≡ replay_status replay.now }
{
    if replay.is_undetermined() {
        return Status::Unjudged;
    }
    if has_no_pcr(replay.ignored.as_slice()) {
        return Status::Differs;
    }
    Status::Well
}

/// Returns whether one of these events should have extended a PCR that no TPM has.
pub(crate) fn has_no_pcr(events: &[IgnoredEvent]) -> bool
    ensures { result ≡ has_no_pcr events.now }
{
    events.iter().any(|event| event.is_of_no_pcr())
}
