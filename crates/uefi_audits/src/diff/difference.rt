ghost use Rattle.std.specs.Prelude.{◌≡◌, ◌++◌, map, option_map, IfOk};
ghost use Rattle.uefi_audits.specs.diff.Counterparts.{ArePaired};
ghost use Rattle.uefi_audits.specs.diff.Differences.{AreChanged, AreCounterpartsOf, AreDifferences, DifferBelow, IsDifference, alone_in, changes_in};
ghost use Rattle.uefi_audits.specs.diff.Numbered.{of_pcr};
ghost use Rattle.uefi_audits.specs.diff.Views.{change_of, difference_of, numbered_of, parts_of};
ghost use Rattle.uefi_audits.specs.private.diff.Ranks.{counterparts_of, numbered_at, pair_of, paired_of};

use crate::diff::changed::{EventPair, changed, changes_in};
use crate::diff::compared::ComparedParts;
use crate::diff::counterparts::{PairedEvent, alone, counterparts};
use crate::diff::event_key::KeyedBy;
use crate::diff::moved::first_moved;
use crate::diff::pcr::{COMPARED, NumberedEntry, entries_of, first_difference, numbered_entries};
use pcr_replay::ReadLog;
use std::alloc::{AllocError, Global};

/// How the events of a PCR differ between two logs.
#[derive(Drop)]
pub struct PcrDifference<'a> {
    /// The PCR; [`ABOVE`](crate::diff::ABOVE) for those above 23, which are taken together.
    pub pcr: u32,
    /// The events that have a counterpart which isn't the same: first those whose data are, then
    /// the others, each in the order of the old log.
    pub changed: Vec<EventChange<'a>>,
    /// The events of the old log that have no counterpart, in order.
    pub only_old: Vec<NumberedEntry<'a>>,
    /// The events of the new log that have no counterpart, in order.
    pub only_new: Vec<NumberedEntry<'a>>,
    /// The first event with the same data in both logs, or the same digest if data aren't compared,
    /// that comes in the new log before one which it follows in the old log; `None` if there is none.
    pub moved: Option<EventChange<'a>>,
}

/// An event of the old log and its counterpart in the new one.
#[derive(Clone, Copy)]
pub struct EventChange<'a> {
    /// The event of the old log.
    pub old: NumberedEntry<'a>,
    /// Its counterpart.
    pub new: NumberedEntry<'a>,
}

/// The events of a PCR with their counterparts.
#[derive(Drop)]
pub(crate) struct Counterparts<'e, 'a> {
    /// The events of the old log with those of the new one that have the same data.
    pub(crate) of_old: Vec<PairedEvent<'e, 'a>>,
    /// And the other way round.
    pub(crate) of_new: Vec<PairedEvent<'e, 'a>>,
    /// Those that are left of the old log, with those left of the new one that have the same name.
    pub(crate) left_of_old: Vec<PairedEvent<'e, 'a>>,
    /// And the other way round.
    pub(crate) left_of_new: Vec<PairedEvent<'e, 'a>>,
}

/// Returns how the events of two logs differ, PCR by PCR, those above 23 together. A PCR whose
/// events are the same, in the same order, has no difference.
///
/// An event has at most one counterpart, of its PCR and its type. The first event with some data is
/// the counterpart of the first one with the same data in the other log, the second of the second,
/// and so on. Of the events that are left, those are counterparts in the same way whose data have
/// the same name: that and the GUID of a variable, the device path of an image, the first word of a
/// command of GRUB, the number of a tag, or none. Two counterparts are the same if the compared
/// parts are ([`is_same_event`](crate::diff::is_same_event)).
///
/// If data aren't compared, events are counterparts in the same way if they have the same first
/// digest of the first algorithm, or none, and no others are.
///
/// The time is in proportion to n log n.
///
/// # Errors
///
/// [`AllocError`] if an allocation fails.
pub fn differences<'a>(
    alloc: Global,
    parts: &ComparedParts<'_>,
    old: &ReadLog<'a>,
    new: &ReadLog<'a>,
) -> Result<Vec<PcrDifference<'a>>, AllocError>
    ensures { IfOk result (λ found. AreDifferences (parts_of parts.now) old.now new.now
        (map difference_of found.items)) }
{
    let olds = numbered_entries(alloc, old)?;
    let news = numbered_entries(alloc, new)?;
    differences_of(alloc, parts, olds.as_slice(), news.as_slice())
}

/// Returns how these events of two logs differ, PCR by PCR.
fn differences_of<'a>(
    alloc: Global,
    parts: &ComparedParts<'_>,
    olds: &[NumberedEntry<'a>],
    news: &[NumberedEntry<'a>],
) -> Result<Vec<PcrDifference<'a>>, AllocError>
    ensures { IfOk result (λ found. DifferBelow (parts_of parts.now) 25
        (map numbered_of olds.now) (map numbered_of news.now) (map difference_of found.items)) }
{
    let mut found = Vec::new(alloc);
    for pcr in 0..COMPARED {
        if let Some(difference) = pcr_difference(alloc, parts, olds, news, pcr)? {
            found.push(difference)?;
        }
    }
    Ok(found)
}

/// Returns how the events of a PCR differ; `None` if they don't.
fn pcr_difference<'a>(
    alloc: Global,
    parts: &ComparedParts<'_>,
    olds: &[NumberedEntry<'a>],
    news: &[NumberedEntry<'a>],
    pcr: u32,
) -> Result<Option<PcrDifference<'a>>, AllocError>
    ensures { IfOk result (λ found. IsDifference (parts_of parts.now) pcr
        (of_pcr pcr (map numbered_of olds.now)) (of_pcr pcr (map numbered_of news.now))
        (option_map difference_of found)) }
{
    let olds = entries_of(alloc, olds, pcr)?;
    let news = entries_of(alloc, news, pcr)?;
    let (olds, news) = (olds.as_slice(), news.as_slice());
    if first_difference(alloc, parts, olds, news)?.is_none() {
        return Ok(None);
    }
    let all = counterparts_of(alloc, parts, olds, news)?;
    let pairs = changes_in(alloc, all.of_old.as_slice())?;
    Ok(Some(PcrDifference {
        pcr,
        changed: changed_in(alloc, parts, pairs.as_slice(), all.left_of_old.as_slice())?,
        only_old: alone_copied(alloc, all.left_of_old.as_slice())?,
        only_new: alone_copied(alloc, all.left_of_new.as_slice())?,
        moved: first_moved(pairs.as_slice()),
    }))
}

/// Returns the events of a PCR with their counterparts.
fn counterparts_of<'e, 'a>(
    alloc: Global,
    parts: &ComparedParts<'_>,
    olds: &[&'e NumberedEntry<'a>],
    news: &[&'e NumberedEntry<'a>],
) -> Result<Counterparts<'e, 'a>, AllocError>
    ensures { IfOk result (λ all. AreCounterpartsOf (parts_of parts.now) (map numbered_at olds.now)
        (map numbered_at news.now) (counterparts_of all)) }
{
    let (first, second) = (KeyedBy::first(parts), KeyedBy::second(parts));
    let of_old = counterparts(alloc, olds, news, first)?;
    let of_new = counterparts(alloc, news, olds, first)?;
    let olds = alone(alloc, of_old.as_slice())?;
    let news = alone(alloc, of_new.as_slice())?;
    let (olds, news) = (olds.as_slice(), news.as_slice());
    let left_of_old = counterparts(alloc, olds, news, second)?;
    let left_of_new = counterparts(alloc, news, olds, second)?;
    Ok(Counterparts {
        of_old,
        of_new,
        left_of_old,
        left_of_new,
    })
}

/// Returns copies of the events that have no counterpart, in order.
fn alone_copied<'a>(
    alloc: Global,
    all: &[PairedEvent<'_, 'a>],
) -> Result<Vec<NumberedEntry<'a>>, AllocError>
    ensures { IfOk result (λ found.
        map numbered_of found.items ≡ alone_in (map paired_of all.now)) }
{
    let found = alone(alloc, all)?;
    copies(alloc, found.as_slice())
}

/// Returns copies of these events.
fn copies<'a>(
    alloc: Global,
    all: &[&NumberedEntry<'a>],
) -> Result<Vec<NumberedEntry<'a>>, AllocError>
    ensures { IfOk result (λ found. map numbered_of found.items ≡ map numbered_at all.now) }
{
    let mut found = Vec::new(alloc);
    for entry in all {
        found.push(**entry)?;
    }
    Ok(found)
}

/// Returns the pairs whose events aren't the same: of these, and of events with their counterparts.
fn changed_in<'e, 'a>(
    alloc: Global,
    parts: &ComparedParts<'_>,
    pairs: &[EventPair<'e, 'a>],
    left: &[PairedEvent<'e, 'a>],
) -> Result<Vec<EventChange<'a>>, AllocError>
    ensures { IfOk result (λ found. AreChanged (parts_of parts.now)
        (map pair_of pairs.now ++ changes_in (map paired_of left.now))
        (map change_of found.items)) }
{
    let mut all = Vec::new(alloc);
    all.extend_from_slice(pairs)?;
    let left = changes_in(alloc, left)?;
    all.extend_from_slice(left.as_slice())?;
    changed(alloc, parts, all.as_slice())
}
