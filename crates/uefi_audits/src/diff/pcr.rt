ghost use Rattle.std.specs.Prelude.{◌≡◌, ◌↔◌, map, IfOk, IsTrue, MatchOption, option_map};
ghost use Rattle.uefi_tcg.specs.LogViews.{entry_of, event_of};
ghost use Rattle.uefi_audits.specs.diff.Differences.{DifferAt, all_compared, compared_event};
ghost use Rattle.uefi_audits.specs.diff.Numbered.{AreNumberedIn, is_of, of_pcr};
ghost use Rattle.uefi_audits.specs.diff.Views.{numbered_of, parts_of};
ghost use Rattle.uefi_audits.specs.private.diff.Ranks.{numbered_at};

use crate::content::{EventContent, read_content};
use crate::diff::compared::{ComparedParts, is_same_event};
use pcr_replay::ReadLog;
use std::alloc::{AllocError, Global};
use uefi_tcg::LogEntry;

/// How many PCRs are compared: the 24 that a TPM has, and those above as one.
pub(crate) const COMPARED: u32 = 25;

/// The PCR as which those above 23 are taken together.
pub const ABOVE: u32 = 24;

/// An event of a log with its index, and what its data say.
#[derive(Clone, Copy)]
pub struct NumberedEntry<'a> {
    /// Its index in the log: 0 for the first one.
    pub index: usize,
    /// The event with its offset.
    pub entry: LogEntry<'a>,
    /// What the event's data say.
    pub content: EventContent<'a>,
}

/// Returns the events of a log, each with its index and what its data say.
///
/// # Errors
///
/// [`AllocError`] if an allocation fails.
pub fn numbered_entries<'a>(
    alloc: Global,
    read: &ReadLog<'a>,
) -> Result<Vec<NumberedEntry<'a>>, AllocError>
    ensures { IfOk result (λ found. AreNumberedIn read.now (map numbered_of found.items)) }
{
    let (entries, uintn_size) = (read.entries(), read.uintn_size());
    let mut found = Vec::new(alloc);
    for (index, entry) in entries.iter().enumerate() {
        let content = read_content(&entry.event, uintn_size);
        found.push(NumberedEntry {
            index,
            entry: *entry,
            content,
        })?;
    }
    Ok(found)
}

/// Returns the events of a PCR among these, in order; for PCR 24, those of all above 23.
pub(crate) fn entries_of<'e, 'a>(
    alloc: Global,
    all: &'e [NumberedEntry<'a>],
    pcr: u32,
) -> Result<Vec<&'e NumberedEntry<'a>>, AllocError>
    ensures { IfOk result (λ found.
        map numbered_at found.items ≡ of_pcr pcr (map numbered_of all.now)) }
{
    let mut found = Vec::new(alloc);
    for entry in all {
        if is_of(pcr, &entry.entry) {
            found.push(entry)?;
        }
    }
    Ok(found)
}

/// Returns whether an event is of a PCR; for PCR 24, whether it is of one above 23.
fn is_of(pcr: u32, entry: &LogEntry<'_>) -> bool
    ensures { result ≡ is_of pcr (entry_of entry.now) }
{
    let of = entry.event.pcr_index().0;
    of.min(ABOVE) == pcr
}

/// Returns the first place at which the events differ, or one list has an event and the other none.
pub(crate) fn first_difference(
    alloc: Global,
    parts: &ComparedParts<'_>,
    old: &[&NumberedEntry<'_>],
    new: &[&NumberedEntry<'_>],
) -> Result<Option<usize>, AllocError>
    ensures { IfOk result (λ found. MatchOption found
        (all_compared (parts_of parts.now) (map numbered_at old.now)
        ≡ all_compared (parts_of parts.now) (map numbered_at new.now))
        (DifferAt (parts_of parts.now) (map numbered_at old.now)
        (map numbered_at new.now))) }
{
    for at in 0..old.len().max(new.len()) {
        let (one, other) = (old.get(at).copied(), new.get(at).copied());
        if !is_same_or_none(alloc, parts, one, other)? {
            return Ok(Some(at));
        }
    }
    Ok(None)
}

/// Returns whether there are two events that are the same, or none.
fn is_same_or_none(
    alloc: Global,
    parts: &ComparedParts<'_>,
    one: Option<&NumberedEntry<'_>>,
    other: Option<&NumberedEntry<'_>>,
) -> Result<bool, AllocError>
    ensures { IfOk result (λ same. IsTrue same
        ↔ (option_map (λ found. compared_event (parts_of parts.now)
        (event_of found.now.entry.event)) one.entry
        ≡ option_map (λ found. compared_event (parts_of parts.now)
        (event_of found.now.entry.event)) other.entry)) }
{
    match (one, other) {
        (Some(one), Some(other)) => {
            is_same_event(alloc, parts, &one.entry.event, &other.entry.event)
        }
        (None, None) => Ok(true),
        _ => Ok(false),
    }
}
