//! How two event logs differ, as the lines that the program `uefi_audit` prints.

ghost use Rattle.std.specs.Prelude.{◌≡◌, flat_map, map, OnOk};
ghost use Rattle.uefi_base.specs.Appending.{AppendsText};
ghost use Rattle.audit_text.specs.ComparedLogs.{logs_of};
ghost use Rattle.audit_text.specs.text.Differences.{difference_line, difference_lines, reversed};
ghost use Rattle.uefi_audits.specs.diff.Views.{difference_of, event_difference_of};

pub use self::change::push_change;
use self::lines::{push_changed_line, push_compared_line, push_earlier_line, push_only_line};
use crate::ComparedLogs;
use std::alloc::{AllocError, Global};
use uefi_audits::diff::{EventDifference, PcrDifference, event_differences};

mod change;
mod lines;

/// Appends how the events of two logs differ.
///
/// ```text
/// compared: sha1 sha256
/// PCR 7: EV_EFI_VARIABLE_DRIVER_CONFIG, variable SecureBoot: 1 -> 0 (event 3 at offset 266 of OLD, event 3 at offset 266 of NEW)
/// PCR 8: EV_IPL, grub_cmd: echo (event 60 at offset 9000 of NEW) isn't in OLD
/// ```
///
/// The first line names the algorithms whose digests are compared. Then, PCR by PCR, there is a line
/// for each event that differs from its counterpart, with what changed ([`push_change`]), one for
/// each event that only the old log has, one for each that only the new log has, and one for the
/// first event whose order is another. An event is named by its type and what its data say
/// ([`push_said`](crate::words::push_said)), one whose data changed by the name in them; its index
/// and its offset follow. What no digest covers is marked: all that the data of an image or
/// a blob say, whose digests follow then, and the name of a variable whose value alone is measured.
///
/// # Errors
///
/// [`AllocError`] if an allocation fails. The text may have grown then.
pub fn push_differences(
    text: &mut String,
    alloc: Global,
    logs: &ComparedLogs<'_>,
    differences: &[PcrDifference<'_>],
) -> Result<(), AllocError>
    ensures { OnOk result (AppendsText text.old text.new
        (difference_lines (logs_of logs.now) (map difference_of differences.now))) }
{
    push_compared_line(text, logs.algorithms)?;
    let differences = event_differences(alloc, differences)?;
    push_each(text, alloc, logs, differences.as_slice())
}

/// Appends a line for each of these differences.
fn push_each(
    text: &mut String,
    alloc: Global,
    logs: &ComparedLogs<'_>,
    differences: &[EventDifference<'_, '_>],
) -> Result<(), AllocError>
    ensures { OnOk result (AppendsText text.old text.new (flat_map
        (difference_line (logs_of logs.now)) (map event_difference_of differences.now))) }
{
    for difference in differences {
        push_difference(text, alloc, logs, difference)?;
    }
    Ok(())
}

/// Appends the line of a difference.
#[tactic(auto, unfolding(crate::specs::text::Differences::difference_line))]
fn push_difference(
    text: &mut String,
    alloc: Global,
    logs: &ComparedLogs<'_>,
    difference: &EventDifference<'_, '_>,
) -> Result<(), AllocError>
    ensures { OnOk result (AppendsText text.old text.new
        (difference_line (logs_of logs.now) (event_difference_of difference.now))) }
{
    match difference {
        EventDifference::Changed(change) => push_changed_line(text, alloc, logs, change),
        EventDifference::OnlyOld(found) => push_only_line(text, alloc, logs, found),
        EventDifference::OnlyNew(found) => push_only_line(text, alloc, &reversed(logs), found),
        EventDifference::Moved(change) => push_earlier_line(text, alloc, logs, change),
    }
}

/// Returns the logs the other way round.
fn reversed<'a>(logs: &ComparedLogs<'a>) -> ComparedLogs<'a>
    ensures { logs_of result ≡ reversed (logs_of logs.now) }
{
    ComparedLogs {
        old_name: logs.new_name,
        new_name: logs.old_name,
        algorithms: logs.algorithms,
    }
}
