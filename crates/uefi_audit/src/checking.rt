ghost use Rattle.std.specs.Prelude.{◌≡◌, map, string_bytes, IfOk};
ghost use Rattle.std.specs.Option.{option_map};
ghost use Rattle.std.specs.Result.{result_map_both};
ghost use Rattle.uefi_audit.specs.CheckReport.{AreQuoted, IsCheckReport, found_status, found_text};
ghost use Rattle.uefi_audit.specs.Printed.{printed_of};
ghost use Rattle.uefi_audits.specs.CheckResult.{mismatch_of};
ghost use Rattle.uefi_audits.specs.OutOfPlace.{remarks_of};

use crate::failure::Status;
use crate::log_file::{LogFile, judge, judged_status};
use crate::report::Report;
use crate::request::{Format, Reading};
use audit_text::json::push_check_json;
use audit_text::text::push_check;
use std::alloc::{AllocError, Global};
use tpm_quote::{Quote, QuoteError};
use uefi_audits::check::{CheckResult, check_entries};
use uefi_audits::verify::{NamedPcr, covered_pcrs};

/// Returns what is printed of the events of a log: those whose digests aren't the hash of what their
/// type measures, those that are out of place, and how many of each type match. These PCRs are
/// covered, or all.
///
/// # Errors
///
/// [`AllocError`] if an allocation fails.
#[tactic(auto, unfolding(crate::specs::CheckReport::IsCheckedIf))]
pub(crate) fn check_report(
    alloc: Global,
    file: &LogFile<'_>,
    reading: Reading,
    covered: Option<&[NamedPcr]>,
    format: Format,
) -> Result<Report, AllocError>
    ensures { IfOk result (λ report. IsCheckReport reading.allow_left_over
        (option_map (λ pcrs. pcrs.now) covered.entry) file.now format (printed_of report)) }
{
    let (judgement, messages) = judge(alloc, file, reading.allow_left_over)?;
    let status = judged_status(judgement);
    if !judgement.is_read() {
        let text = String::new(alloc);
        return Ok(Report {
            text,
            messages,
            status,
        });
    }
    let found = check_entries(alloc, file.read.entries(), covered)?;
    let text = found_text(alloc, format, file.name, &found)?;
    let status = status.and(found_status(&found));
    Ok(Report {
        text,
        messages,
        status,
    })
}

/// Returns the PCRs that the quote in these bytes covers, or why the bytes are none.
///
/// # Errors
///
/// [`AllocError`] if an allocation fails.
pub(crate) fn quoted_pcrs(
    alloc: Global,
    bytes: &[u8],
) -> Result<Result<Vec<NamedPcr>, QuoteError>, AllocError>
    ensures { IfOk result (λ quoted. AreQuoted bytes.now
        (result_map_both (λ pcrs. pcrs.items) (λ why. why) quoted)) }
{
    match Quote::try_from(bytes) {
        Ok(quote) => {
            let covered = covered_pcrs(alloc, &quote)?;
            Ok(Ok(covered))
        }
        Err(error) => Ok(Err(error)),
    }
}

/// Returns what was found of the events of a log, in a format.
#[tactic(auto, unfolding(crate::specs::CheckReport::found_text))]
fn found_text(
    alloc: Global,
    format: Format,
    name: &str,
    found: &CheckResult<'_>,
) -> Result<String, AllocError>
    ensures { IfOk result (λ text. string_bytes text ≡ found_text format name.now
        (map mismatch_of found.now.mismatches.items) (remarks_of found.now.remarks)
        found.now.types.items) }
{
    let mut text = String::new(alloc);
    match format {
        Format::Text => push_check(&mut text, name, found)?,
        Format::Json => push_check_json(&mut text, alloc, name, found)?,
    }
    Ok(text)
}

/// Returns the status of what was found of a log: whether no event is a mismatch, and no remark counts
/// against the log.
#[tactic(auto, unfolding(crate::specs::CheckReport::remarks_status))]
fn found_status(found: &CheckResult<'_>) -> Status
    ensures { result ≡ found_status (map mismatch_of found.now.mismatches.items)
        (remarks_of found.now.remarks) }
{
    if !found.mismatches.is_empty() || found.remarks.are_faults() {
        return Status::Differs;
    }
    Status::Well
}
