ghost use Rattle.std.specs.Prelude.{◌≡◌, ◌++◌, map, IfOk, OnOk};
ghost use Rattle.uefi_audits.specs.diff.Differences.{event_changed, event_differences, event_only_new, event_only_old, pcr_events};
ghost use Rattle.uefi_audits.specs.diff.Views.{change_of, difference_of, event_difference_of, numbered_of};

use crate::diff::difference::{EventChange, PcrDifference};
use crate::diff::pcr::NumberedEntry;
use std::alloc::{AllocError, Global};

/// A difference in one event of two logs.
#[derive(Clone, Copy)]
pub enum EventDifference<'d, 'a> {
    /// An event whose counterpart isn't the same.
    Changed(&'d EventChange<'a>),
    /// An event of the old log that has no counterpart.
    OnlyOld(&'d NumberedEntry<'a>),
    /// An event of the new log that has no counterpart.
    OnlyNew(&'d NumberedEntry<'a>),
    /// The first event of a PCR whose order is another.
    Moved(&'d EventChange<'a>),
}

/// Returns the differences in single events, PCR by PCR: the events that changed, those that only
/// the old log has, those that only the new log has, and the first one whose order is another.
///
/// # Errors
///
/// [`AllocError`] if an allocation fails.
pub fn event_differences<'d, 'a>(
    alloc: Global,
    differences: &'d [PcrDifference<'a>],
) -> Result<Vec<EventDifference<'d, 'a>>, AllocError>
    ensures { IfOk result (λ found. map event_difference_of found.items
        ≡ event_differences (map difference_of differences.now)) }
{
    let mut found = Vec::new(alloc);
    for difference in differences {
        push_events(&mut found, difference)?;
    }
    Ok(found)
}

/// Appends the differences of a PCR.
#[tactic(auto, unfolding(crate::specs::diff::Differences::pcr_events))]
fn push_events<'d, 'a>(
    found: &mut Vec<EventDifference<'d, 'a>>,
    difference: &'d PcrDifference<'a>,
) -> Result<(), AllocError>
    ensures { OnOk result (map event_difference_of found.new.items
        ≡ map event_difference_of found.old.items ++ pcr_events (difference_of difference.now)) }
{
    push_changed(found, difference.changed.as_slice())?;
    push_only_old(found, difference.only_old.as_slice())?;
    push_only_new(found, difference.only_new.as_slice())?;
    if let Some(change) = &difference.moved {
        found.push(EventDifference::Moved(change))?;
    }
    Ok(())
}

/// Appends the events that changed.
fn push_changed<'d, 'a>(
    found: &mut Vec<EventDifference<'d, 'a>>,
    changes: &'d [EventChange<'a>],
) -> Result<(), AllocError>
    ensures { OnOk result (map event_difference_of found.new.items
        ≡ map event_difference_of found.old.items ++ map event_changed (map change_of changes.now)) }
{
    for change in changes {
        found.push(EventDifference::Changed(change))?;
    }
    Ok(())
}

/// Appends the events that only the old log has.
fn push_only_old<'d, 'a>(
    found: &mut Vec<EventDifference<'d, 'a>>,
    only: &'d [NumberedEntry<'a>],
) -> Result<(), AllocError>
    ensures { OnOk result (map event_difference_of found.new.items
        ≡ map event_difference_of found.old.items ++ map event_only_old (map numbered_of only.now)) }
{
    for entry in only {
        found.push(EventDifference::OnlyOld(entry))?;
    }
    Ok(())
}

/// Appends the events that only the new log has.
fn push_only_new<'d, 'a>(
    found: &mut Vec<EventDifference<'d, 'a>>,
    only: &'d [NumberedEntry<'a>],
) -> Result<(), AllocError>
    ensures { OnOk result (map event_difference_of found.new.items
        ≡ map event_difference_of found.old.items ++ map event_only_new (map numbered_of only.now)) }
{
    for entry in only {
        found.push(EventDifference::OnlyNew(entry))?;
    }
    Ok(())
}
