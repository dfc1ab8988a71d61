ghost use Rattle.std.specs.Prelude.{◌≡◌, map, IfOk};
ghost use Rattle.uefi_audits.specs.diff.Counterparts.{ArePaired};
ghost use Rattle.uefi_audits.specs.diff.Differences.{alone_in};
ghost use Rattle.uefi_audits.specs.private.diff.Ranks.{ArePlaces, event_of, numbered_at, paired_by, paired_of, ranked_in};
ghost use Rattle.uefi_audits.specs.private.diff.Keys.{key_by};

use crate::diff::event_key::{EventKey, KeyedBy, RankedKey};
use crate::diff::pcr::NumberedEntry;
use std::alloc::{AllocError, Global};
use std::collections::BTreeMap;

/// An event of a log with its counterpart in another.
#[derive(Clone, Copy)]
pub(crate) struct PairedEvent<'e, 'a> {
    /// The event.
    pub(crate) found: &'e NumberedEntry<'a>,
    /// Its counterpart; `None` if it has none.
    pub(crate) counterpart: Option<&'e NumberedEntry<'a>>,
}

/// An event with its key.
#[derive(Clone, Copy)]
pub(crate) struct RankedEvent<'e, 'a> {
    pub(crate) key: RankedKey<'a>,
    pub(crate) found: &'e NumberedEntry<'a>,
}

/// Returns each of these events with its counterpart among the others: of those that have one key
/// the first is the counterpart of the first, the second of the second, and so on.
pub(crate) fn counterparts<'e, 'a>(
    alloc: Global,
    events: &[&'e NumberedEntry<'a>],
    others: &[&'e NumberedEntry<'a>],
    by: KeyedBy,
) -> Result<Vec<PairedEvent<'e, 'a>>, AllocError>
    ensures { IfOk result (λ all. ArePaired (key_by by) (map numbered_at events.now)
        (map numbered_at others.now) (map paired_of all.items)) }
{
    let events = ranked(alloc, events, by)?;
    let others = ranked(alloc, others, by)?;
    let places = places_of(alloc, others.as_slice())?;
    each_paired(alloc, events.as_slice(), &places)
}

/// Returns each event with its key, and with how many events before it have that key.
fn ranked<'e, 'a>(
    alloc: Global,
    events: &[&'e NumberedEntry<'a>],
    by: KeyedBy,
) -> Result<Vec<RankedEvent<'e, 'a>>, AllocError>
    ensures { IfOk result (λ all. map event_of all.items
        ≡ ranked_in (key_by by) (map numbered_at events.now)) }
{
    let mut counts = BTreeMap::new(alloc);
    let mut all = Vec::new(alloc);
    for found in events {
        let key = EventKey::new(found, by);
        let rank = counts.get(&key).copied().unwrap_or(0);
        counts.insert(key, rank + 1)?;
        let key = RankedKey { key, rank };
        all.push(RankedEvent { key, found: *found })?;
    }
    Ok(all)
}

/// Returns the events by their keys.
fn places_of<'e, 'a>(
    alloc: Global,
    all: &[RankedEvent<'e, 'a>],
) -> Result<BTreeMap<RankedKey<'a>, &'e NumberedEntry<'a>>, AllocError>
    ensures { IfOk result (λ places. ArePlaces places (map event_of all.now)) }
{
    let mut places = BTreeMap::new(alloc);
    for ranked in all {
        places.insert(ranked.key, ranked.found)?;
    }
    Ok(places)
}

/// Returns each event with the other one that has its key.
fn each_paired<'e, 'a>(
    alloc: Global,
    all: &[RankedEvent<'e, 'a>],
    places: &BTreeMap<RankedKey<'a>, &'e NumberedEntry<'a>>,
) -> Result<Vec<PairedEvent<'e, 'a>>, AllocError>
    ensures { IfOk result (λ found. map paired_of found.items ≡ map (paired_by places.now) all.now) }
{
    let mut found = Vec::new(alloc);
    for ranked in all {
        found.push(PairedEvent {
            found: ranked.found,
            counterpart: places.get(&ranked.key).copied(),
        })?;
    }
    Ok(found)
}

/// Returns the events that have no counterpart, in order.
pub(crate) fn alone<'e, 'a>(
    alloc: Global,
    all: &[PairedEvent<'e, 'a>],
) -> Result<Vec<&'e NumberedEntry<'a>>, AllocError>
    ensures { IfOk result (λ found.
        map numbered_at found.items ≡ alone_in (map paired_of all.now)) }
{
    let mut found = Vec::new(alloc);
    for paired in all {
        if paired.counterpart.is_none() {
            found.push(paired.found)?;
        }
    }
    Ok(found)
}
