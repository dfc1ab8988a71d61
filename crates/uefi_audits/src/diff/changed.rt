ghost use Rattle.std.specs.Prelude.{◌≡◌, map, IfOk};
ghost use Rattle.uefi_audits.specs.diff.Differences.{AreChanged, changes_in};
ghost use Rattle.uefi_audits.specs.diff.Views.{change_of, parts_of};
ghost use Rattle.uefi_audits.specs.private.diff.Ranks.{pair_of, paired_of};

use crate::diff::compared::{ComparedParts, is_same_event};
use crate::diff::counterparts::PairedEvent;
use crate::diff::difference::EventChange;
use crate::diff::pcr::NumberedEntry;
use std::alloc::{AllocError, Global};

/// An event of the old log and its counterpart in the new one.
#[derive(Clone, Copy)]
pub(crate) struct EventPair<'e, 'a> {
    /// The event of the old log.
    pub(crate) old: &'e NumberedEntry<'a>,
    /// Its counterpart.
    pub(crate) new: &'e NumberedEntry<'a>,
}

impl<'e, 'a> EventPair<'e, 'a> {
    /// Returns the pair with copies of its events.
    pub(crate) fn copied(&self) -> EventChange<'a>
        ensures { change_of result ≡ pair_of self.now }
    {
        EventChange {
            old: *self.old,
            new: *self.new,
        }
    }
}

/// Returns each event that has a counterpart, with it, in order.
pub(crate) fn changes_in<'e, 'a>(
    alloc: Global,
    all: &[PairedEvent<'e, 'a>],
) -> Result<Vec<EventPair<'e, 'a>>, AllocError>
    ensures { IfOk result (λ found.
        map pair_of found.items ≡ changes_in (map paired_of all.now)) }
{
    let mut found = Vec::new(alloc);
    for paired in all {
        let old = paired.found;
        if let Some(new) = paired.counterpart {
            found.push(EventPair { old, new })?;
        }
    }
    Ok(found)
}

/// Returns the pairs whose events aren't the same, in order.
pub(crate) fn changed<'a>(
    alloc: Global,
    parts: &ComparedParts<'_>,
    pairs: &[EventPair<'_, 'a>],
) -> Result<Vec<EventChange<'a>>, AllocError>
    ensures { IfOk result (λ found. AreChanged (parts_of parts.now)
        (map pair_of pairs.now) (map change_of found.items)) }
{
    let mut found = Vec::new(alloc);
    for pair in pairs {
        if !is_same_event(alloc, parts, &pair.old.entry.event, &pair.new.entry.event)? {
            found.push(pair.copied())?;
        }
    }
    Ok(found)
}
