ghost use Rattle.std.specs.Prelude.{◌≡◌, string_bytes, IfOk};
ghost use Rattle.uefi_audits.specs.verify.Compared.{judged_pcrs_of};
ghost use Rattle.uefi_audits.specs.verify.Verdict.{comparison_of};
ghost use Rattle.uefi_audit.specs.Opened.{IsVerdictOf};
ghost use Rattle.uefi_audit.specs.Printed.{printed_of};
ghost use Rattle.uefi_audit.specs.Verification.{by_judgement, compared, judged_in, lacking, verdict_status, verdict_text, verification, with_verdict};

use crate::failure::Status;
use crate::log_file::{LogFile, Opened, judge};
use crate::replay::has_no_pcr;
use crate::report::Report;
use crate::request::{Format, Reading};
use audit_text::json::{NotJudged, push_verdict_json};
use audit_text::text::{
    push_ignored, push_inactive, push_missing, push_start, push_uncompared, push_verdict,
};
use std::alloc::{AllocError, Global};
use uefi_audits::ignored::{IgnoredEvent, ignored_events};
use uefi_audits::judgement::Judgement;
use uefi_audits::log_replay::inactive_banks;
use uefi_audits::verify::{ComparedPcrs, HeldPcr, PcrSelection, Verdict, held_banks};

/// The PCRs that a TPM is said to have held, and how `verify` compares a log with them.
#[derive(Clone, Copy)]
pub(crate) struct StatedPcrs<'a> {
    /// The name of the log.
    pub log: &'a str,
    /// The name of the PCRs' file.
    pub file: &'a str,
    /// The PCRs.
    pub pcrs: &'a [HeldPcr],
    /// Those that are asked for; all without a selection.
    pub selections: &'a [PcrSelection],
    /// The locality at which the TPM was started.
    pub locality: Option<u8>,
    /// How the result is printed.
    pub format: Format,
}

/// Returns what `verify` prints of a log.
///
/// # Errors
///
/// [`AllocError`] if an allocation fails.
#[tactic(auto, unfolding(crate::specs::Opened::IsVerdictOf))]
pub(crate) fn verify_report(
    alloc: Global,
    log: Opened<'_>,
    reading: Reading,
    stated: &StatedPcrs<'_>,
) -> Result<Report, AllocError>
    ensures { IfOk result (λ report. IsVerdictOf
        (λ file printed. printed ≡ verification reading.allow_left_over file stated.now)
        stated.now.format stated.now.log.now log.entry (printed_of report)) }
{
    match log {
        Opened::Refused(report) => report.refused_as(alloc, stated.log, stated.format),
        Opened::Read(file) => verification_report(alloc, &file, reading, stated),
    }
}

/// Returns what is printed of whether a log leads to the PCRs that a TPM held.
///
/// # Errors
///
/// [`AllocError`] if an allocation fails.
fn verification_report(
    alloc: Global,
    file: &LogFile<'_>,
    reading: Reading,
    stated: &StatedPcrs<'_>,
) -> Result<Report, AllocError>
    ensures { IfOk result (λ report. printed_of report
        ≡ verification reading.allow_left_over file.now stated.now) }
{
    let (judgement, messages) = judge(alloc, file, reading.allow_left_over)?;
    judged_report(alloc, judgement, messages, file, stated)
}

/// Returns what is printed after these messages of a log with this judgement.
#[tactic(auto, unfolding(crate::specs::Verification::by_judgement))]
fn judged_report(
    alloc: Global,
    judgement: Judgement,
    messages: String,
    file: &LogFile<'_>,
    stated: &StatedPcrs<'_>,
) -> Result<Report, AllocError>
    ensures { IfOk result (λ report. printed_of report
        ≡ by_judgement judgement (string_bytes messages) file.now stated.now) }
{
    let (name, format) = (file.name, stated.format);
    match judgement {
        Judgement::Accepted => {
            let compared = compare(alloc, file, stated)?;
            compared_report(alloc, messages, file, stated, &compared)
        }
        Judgement::NothingMeasured => {
            Report::unjudged_as(alloc, messages, name, format, NotJudged::NothingMeasured)
        }
        Judgement::LeftOver => {
            Report::unjudged_as(alloc, messages, name, format, NotJudged::LeftOver)
        }
    }
}

/// Returns the verdict on the PCRs that are selected.
///
/// # Errors
///
/// [`AllocError`] if an allocation fails.
pub(crate) fn compare(
    alloc: Global,
    file: &LogFile<'_>,
    stated: &StatedPcrs<'_>,
) -> Result<ComparedPcrs, AllocError>
    ensures { IfOk result
        (λ compared. judged_pcrs_of compared ≡ judged_in file.now stated.now) }
{
    let (entries, selections) = (file.read.entries(), stated.selections);
    ComparedPcrs::new(alloc, entries, stated.pcrs, selections, stated.locality)
}

/// Returns what is printed of a verdict after these messages, unless PCRs that are asked for are missing.
#[tactic(auto, unfolding(crate::specs::Verification::unless_missing))]
fn compared_report(
    alloc: Global,
    messages: String,
    file: &LogFile<'_>,
    stated: &StatedPcrs<'_>,
    found: &ComparedPcrs,
) -> Result<Report, AllocError>
    ensures { IfOk result (λ report. printed_of report ≡ compared
        (string_bytes messages) file.now stated.now (judged_pcrs_of found.now)) }
{
    if !found.coverage.missing.is_empty() {
        return lacking_report(alloc, messages, file.name, stated, found);
    }
    verdict_report(alloc, messages, file, stated, found)
}

/// Returns what is printed after these messages of PCRs of which some that are asked for are missing.
///
/// # Errors
///
/// [`AllocError`] if an allocation fails.
#[tactic(auto, unfolding(crate::specs::Verification::lacking_text))]
pub(crate) fn lacking_report(
    alloc: Global,
    messages: String,
    name: &str,
    stated: &StatedPcrs<'_>,
    compared: &ComparedPcrs,
) -> Result<Report, AllocError>
    ensures { IfOk result (λ report. printed_of report ≡ lacking
        (string_bytes messages) name.now stated.now (judged_pcrs_of compared.now)) }
{
    let mut messages = messages;
    push_missing(
        &mut messages,
        stated.file,
        compared.coverage.missing.as_slice(),
    )?;
    let mut text = String::new(alloc);
    match stated.format {
        Format::Text => {}
        Format::Json => push_verdict_json(&mut text, alloc, name, compared)?,
    }
    Ok(Report {
        text,
        messages,
        status: Status::Unjudged,
    })
}

/// Returns what is printed of a verdict after these messages.
fn verdict_report(
    alloc: Global,
    messages: String,
    file: &LogFile<'_>,
    stated: &StatedPcrs<'_>,
    compared: &ComparedPcrs,
) -> Result<Report, AllocError>
    ensures { IfOk result (λ report. printed_of report ≡ with_verdict
        (string_bytes messages) file.now stated.now (judged_pcrs_of compared.now)) }
{
    let mut messages = messages;
    let ignored = ignored_events(alloc, file.read.entries())?;
    let held = held_banks(alloc, compared.held.as_slice())?;
    let inactive = inactive_banks(alloc, file.read.entries(), held.as_slice())?;
    push_start(&mut messages, file.name, &compared.verdict.start)?;
    push_inactive(&mut messages, file.name, inactive.as_slice())?;
    push_ignored(&mut messages, file.name, ignored.as_slice())?;
    push_uncompared(
        &mut messages,
        file.name,
        compared.coverage.extended.as_slice(),
    )?;
    Ok(Report {
        text: verdict_text(alloc, file.name, compared, stated.format)?,
        messages,
        status: status_of(&compared.verdict, ignored.as_slice()),
    })
}

/// Returns a verdict in a format.
#[tactic(auto, unfolding(crate::specs::Verification::verdict_text))]
pub(crate) fn verdict_text(
    alloc: Global,
    name: &str,
    compared: &ComparedPcrs,
    format: Format,
) -> Result<String, AllocError>
    ensures { IfOk result (λ text. string_bytes text
        ≡ verdict_text format name.now (judged_pcrs_of compared.now)) }
{
    let (held, verdict) = (compared.held.as_slice(), &compared.verdict);
    let mut text = String::new(alloc);
    match format {
        Format::Text => push_verdict(&mut text, alloc, name, held, verdict)?,
        Format::Json => push_verdict_json(&mut text, alloc, name, compared)?,
    }
    Ok(text)
}

/// Returns the status of a verdict: a log is unjudged if a PCR is undetermined, and it differs if one
/// does, or one of the events without effect should have extended a PCR that no TPM has.
pub(crate) fn status_of(verdict: &Verdict, ignored: &[IgnoredEvent]) -> Status
    ensures { result ≡ verdict_status (comparison_of verdict.now) ignored.now }
{
    if verdict.undetermined > 0 {
        return Status::Unjudged;
    }
    if has_no_pcr(ignored) || !verdict.is_agreement() {
        return Status::Differs;
    }
    Status::Well
}
