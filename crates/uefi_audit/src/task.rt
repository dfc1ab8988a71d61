ghost use Rattle.std.specs.Prelude.{IfOk};
ghost use Rattle.uefi_audit.specs.Opened.{IsReportOf};
ghost use Rattle.uefi_audit.specs.Printed.{printed_of};
ghost use Rattle.uefi_audit.specs.TaskReport.{IsTaskReport};

use crate::checking::check_report;
use crate::events::events_report;
use crate::log_file::Opened;
use crate::replay::{Asked, replay_report};
use crate::report::Report;
use crate::request::{Format, Reading};
use std::alloc::{AllocError, Global};
use uefi_audits::verify::NamedPcr;

/// What is done with each of many logs.
#[derive(Clone, Copy)]
pub(crate) enum Task<'a> {
    /// Its events are printed.
    Events(Format),
    /// The PCRs that it leads to are.
    Replay(Asked),
    /// The events whose digests match nothing are. These PCRs are covered, or all.
    Check(Option<&'a [NamedPcr]>, Format),
}

/// Returns what a task prints of a log.
///
/// # Errors
///
/// [`AllocError`] if an allocation fails.
#[tactic(auto, unfolding(crate::specs::Opened::IsReportOf, crate::specs::TaskReport::IsTaskReport))]
pub(crate) fn task_report(
    alloc: Global,
    log: Opened<'_>,
    reading: Reading,
    task: Task<'_>,
) -> Result<Report, AllocError>
    ensures { IfOk result (λ report. IsReportOf (IsTaskReport task.entry reading.allow_left_over)
        log.entry (printed_of report)) }
{
    let file = match log {
        Opened::Read(file) => file,
        Opened::Refused(report) => return Ok(report),
    };
    match task {
        Task::Events(format) => events_report(alloc, &file, reading, format),
        Task::Replay(asked) => replay_report(alloc, &file, reading, asked),
        Task::Check(covered, format) => check_report(alloc, &file, reading, covered, format),
    }
}
