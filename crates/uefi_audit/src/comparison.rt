ghost use Rattle.std.specs.Prelude.{◌≡◌, map, string_bytes, IfOk};
ghost use Rattle.audit_text.specs.ComparedLogs.{logs_of};
ghost use Rattle.shown.specs.Name.{shown_name};
ghost use Rattle.uefi_audit.specs.Comparison.{IsCompared, IsComparison, IsDifferenceReport, compared_parts, compared_status, difference_text, side_printed};
ghost use Rattle.uefi_audit.specs.Printed.{printed_of};
ghost use Rattle.uefi_audits.specs.diff.Views.{difference_of, numbers_of, parts_of};

use crate::failure::Status;
use crate::log_file::{LogFile, Opened, judge, judged_status};
use crate::report::Report;
use crate::request::{Compared, Format, Reading};
use audit_text::ComparedLogs;
use audit_text::json::push_differences_json;
use audit_text::text::push_differences;
use shown::ShownName;
use std::alloc::{AllocError, Global};
use uefi_audits::diff::{ComparedParts, PcrDifference, compared_algorithms, differences};
use uefi_tcg::AlgorithmId;

/// Returns what `diff` prints of two logs. If one of them wasn't read, it is what is said of each.
///
/// # Errors
///
/// [`AllocError`] if an allocation fails.
#[tactic(auto, unfolding(crate::specs::Comparison::IsDifferenceReport))]
pub(crate) fn difference_report(
    alloc: Global,
    old: Opened<'_>,
    new: Opened<'_>,
    reading: Reading,
    asked: Compared,
) -> Result<Report, AllocError>
    ensures { IfOk result (λ report. IsDifferenceReport reading.allow_left_over asked old.entry
        new.entry (printed_of report)) }
{
    match (old, new) {
        (Opened::Read(old), Opened::Read(new)) => {
            comparison_report(alloc, &old, &new, reading, asked)
        }
        (old, new) => {
            let of_old = side_report(alloc, old, reading)?;
            of_old.and(&side_report(alloc, new, reading)?)
        }
    }
}

/// Returns what is said of a log that isn't compared.
#[tactic(auto, unfolding(crate::specs::Comparison::side_printed))]
fn side_report(alloc: Global, log: Opened<'_>, reading: Reading) -> Result<Report, AllocError>
    ensures { IfOk result (λ report. printed_of report
        ≡ side_printed reading.allow_left_over log.entry) }
{
    match log {
        Opened::Refused(report) => Ok(report),
        Opened::Read(file) => {
            let (judgement, messages) = judge(alloc, &file, reading.allow_left_over)?;
            Ok(Report {
                text: String::new(alloc),
                messages,
                status: judged_status(judgement),
            })
        }
    }
}

/// Returns what is printed of how the events of two logs differ.
#[tactic(auto, unfolding(crate::specs::Comparison::IsCompared))]
fn comparison_report(
    alloc: Global,
    old: &LogFile<'_>,
    new: &LogFile<'_>,
    reading: Reading,
    asked: Compared,
) -> Result<Report, AllocError>
    ensures { IfOk result (λ report. IsComparison reading.allow_left_over old.now new.now asked
        (printed_of report)) }
{
    let (of_old, mut messages) = judge(alloc, old, reading.allow_left_over)?;
    let (of_new, others) = judge(alloc, new, reading.allow_left_over)?;
    messages.push_str(others.as_str())?;
    let status = judged_status(of_old).and(judged_status(of_new));
    if !(of_old.is_read() && of_new.is_read()) {
        let text = String::new(alloc);
        return Ok(Report {
            text,
            messages,
            status,
        });
    }
    let algorithms = compared_algorithms(alloc, &old.read, &new.read, asked.bank)?;
    let algorithms = algorithms.as_slice();
    let parts = parts_of(algorithms, asked.digests_only);
    let found = differences(alloc, &parts, &old.read, &new.read)?;
    let logs = ComparedLogs {
        old_name: old.name,
        new_name: new.name,
        algorithms,
    };
    let text = difference_text(alloc, asked.format, &logs, found.as_slice())?;
    let status = status.and(compared_status(algorithms, found.as_slice()));
    Ok(Report {
        text,
        messages,
        status,
    })
}

/// Returns which parts of events are compared: the digests of these algorithms, and the data, unless
/// digests alone are asked for, and there are some that are compared.
fn parts_of(algorithms: &[AlgorithmId], digests_only: bool) -> ComparedParts<'_>
    ensures { parts_of result ≡ compared_parts digests_only (numbers_of algorithms.now) }
{
    ComparedParts {
        algorithms,
        with_data: !digests_only || algorithms.is_empty(),
    }
}

/// Returns the status: whether there are differences, or no digests that are compared.
#[tactic(auto, unfolding(crate::specs::Comparison::compared_status))]
fn compared_status(algorithms: &[AlgorithmId], differences: &[PcrDifference<'_>]) -> Status
    ensures { result ≡ compared_status (numbers_of algorithms.now)
        (map difference_of differences.now) }
{
    if algorithms.is_empty() {
        return Status::Unjudged;
    }
    if differences.is_empty() {
        return Status::Well;
    }
    Status::Differs
}

/// Returns what is printed of how the events of two logs differ.
#[tactic(auto, unfolding(crate::specs::Comparison::difference_text))]
fn difference_text(
    alloc: Global,
    format: Format,
    logs: &ComparedLogs<'_>,
    differences: &[PcrDifference<'_>],
) -> Result<String, AllocError>
    ensures { IfOk result (λ text. string_bytes text
        ≡ difference_text format (logs_of logs.now) (map difference_of differences.now)) }
{
    let mut text = String::new(alloc);
    match format {
        Format::Text => {
            let (old_name, new_name) = (
                shown_name(alloc, logs.old_name)?,
                shown_name(alloc, logs.new_name)?,
            );
            let logs = ComparedLogs {
                old_name: old_name.as_str(),
                new_name: new_name.as_str(),
                algorithms: logs.algorithms,
            };
            push_differences(&mut text, alloc, &logs, differences)?;
        }
        Format::Json => push_differences_json(&mut text, alloc, logs, differences)?,
    }
    Ok(text)
}

/// Returns a file's name as it is printed.
fn shown_name(alloc: Global, name: &str) -> Result<String, AllocError>
    ensures { IfOk result (λ text. string_bytes text ≡ shown_name name.now) }
{
    let name = ShownName(name);
    format!(in alloc; "{name}")
}
