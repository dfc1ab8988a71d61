//! Laws of the definitions. Each function states a law that holds for all values, and does nothing
//! when it runs.

ghost use Rattle.uefi_audits.specs.Laws.{OneChecked, OneContent};
ghost use Rattle.uefi_audits.specs.diff.Counterparts.{OneCounterpart};

use tcg_event::laws::{one_boot_order, one_gpt_data, one_signature, one_value};
use uefi_path::laws::{one_front, one_load_option};

/// States that the data of an event say one thing, by the form that its type gives them and the size
/// of a `UINTN` in its log. So an event has one line, as
/// `event_line` of `audit_text` promises it.
pub fn one_content()
    ensures { OneContent }
{
    one_front();
    one_load_option();
    one_value();
    one_gpt_data();
    one_boot_order();
    one_signature();
}

/// States that [`check`](crate::check::check) finds one thing of an event. So the events of a log have
/// one [`CheckResult`](crate::check::CheckResult).
pub fn one_checked()
    ensures { OneChecked }
{}

/// States that an event has at most one counterpart in another log, and is the counterpart of that.
/// So [`differences`](crate::diff::differences) has each event of both logs in one pair, or alone.
pub fn one_counterpart()
    ensures { OneCounterpart }
{}
