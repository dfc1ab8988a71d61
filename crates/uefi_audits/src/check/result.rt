//! What the digests of all events of a log say of their data.

ghost use Rattle.std.specs.Prelude.{◌≡◌, ◌++◌, map, IfOk, OnOk};
ghost use Rattle.std.specs.Option.{option_map};
ghost use Rattle.uefi_tcg.specs.LogViews.{entry_of, event_of};
ghost use Rattle.uefi_audits.specs.CheckResult.{IsCheckResult, if_mismatch, mismatch_of, mismatches_in};
ghost use Rattle.uefi_audits.specs.Findings.{AreFindings, IsFound, is_covered};
ghost use Rattle.uefi_audits.specs.OutOfPlace.{has_type, pcr_of};
ghost use Rattle.uefi_audits.specs.private.Counting.{finding_of};

use crate::check::counts::{TypeCounts, counts_of};
use crate::check::{Checked, check};
use crate::out_of_place::{Remarks, remarks_on};
use crate::verify::{NamedPcr, extends};
use pcr_replay::has_digest;
use std::alloc::{AllocError, Allocator, Global};
use uefi_tcg::{EventType, LogEntry, LogEvent};

/// An event of a log that matches in none of the forms of its type.
#[derive(Clone, Copy)]
pub struct Mismatch<'a> {
    /// Its index in the log: 0 for the first one.
    pub index: usize,
    /// The event with its offset.
    pub entry: LogEntry<'a>,
}

/// What was found of the events of a log.
#[derive(Drop)]
pub struct CheckResult<'a, A: Allocator = Global> {
    /// The events that match in none of the forms of their types, in order.
    pub mismatches: Vec<Mismatch<'a>, A>,
    /// The events that are out of place, and the PCRs without a separator.
    pub remarks: Remarks<'a, A>,
    /// How many events of each type match, in the order of the types' numbers. A type of which there
    /// is no event isn't among them.
    pub types: Vec<TypeCounts, A>,
}

/// An event of a log, and what its digests say of its data.
#[derive(Clone, Copy)]
pub(crate) struct CheckedEntry<'a> {
    /// The event with its offset.
    pub(crate) entry: LogEntry<'a>,
    /// What its digests say; `None` if it isn't covered.
    pub(crate) checked: Option<Checked>,
}

impl CheckedEntry<'_> {
    /// Returns the event's PCR.
    pub(crate) fn pcr(&self) -> u32
        ensures { result ≡ pcr_of (finding_of self.now) }
    {
        self.entry.event.pcr_index().0
    }

    /// Returns whether the event has this type.
    pub(crate) fn has_type(&self, event_type: EventType) -> bool
        ensures { result ≡ has_type (finding_of self.now) event_type }
    {
        self.entry.event.event_type() == event_type
    }
}

/// Returns what [`check`] finds of the events of a log: those that match in none of the forms of
/// their types, those that are out of place, and how many of each type match.
///
/// Whoever writes a log can give an event of another PCR any data, with their hash as its digest.
/// So where it is known which PCRs are covered, by a quote or otherwise, an event counts if it
/// extends one of them, in a bank of which it has a digest; the others are counted as not covered.
/// Without `covered` each event counts.
///
/// # Errors
///
/// [`AllocError`] if an allocation fails.
pub fn check_entries<'a, A: Allocator + Copy>(
    alloc: A,
    entries: &[LogEntry<'a>],
    covered: Option<&[NamedPcr]>,
) -> Result<CheckResult<'a, A>, AllocError>
    ensures { IfOk result (IsCheckResult (option_map (λ pcrs. pcrs.now) covered.entry)
        (map entry_of entries.now)) }
{
    let checked = checked_entries(alloc, entries, covered)?;
    let mismatches = mismatches_in(alloc, checked.as_slice())?;
    let remarks = remarks_on(alloc, checked.as_slice())?;
    let types = counts_of(alloc, checked.as_slice())?;
    Ok(CheckResult {
        mismatches,
        remarks,
        types,
    })
}

/// Returns the events, each with what its digests say, if it is covered.
fn checked_entries<'a, A: Allocator + Copy>(
    alloc: A,
    entries: &[LogEntry<'a>],
    covered: Option<&[NamedPcr]>,
) -> Result<Vec<CheckedEntry<'a>, A>, AllocError>
    ensures { IfOk result (λ found. AreFindings (option_map (λ pcrs. pcrs.now) covered.entry)
        (map entry_of entries.now) (map finding_of found.items)) }
{
    let mut found = Vec::new(alloc);
    for entry in entries {
        let checked = checked_if_covered(alloc, &entry.event, covered)?;
        found.push(CheckedEntry {
            entry: *entry,
            checked,
        })?;
    }
    Ok(found)
}

/// Returns what the digests of an event say, if it is covered.
#[tactic(auto, unfolding(crate::specs::Findings::IsFound))]
fn checked_if_covered<A: Allocator + Copy>(
    alloc: A,
    event: &LogEvent<'_>,
    covered: Option<&[NamedPcr]>,
) -> Result<Option<Checked>, AllocError>
    ensures { IfOk result (IsFound
        (is_covered (option_map (λ pcrs. pcrs.now) covered.entry) (event_of event.now))
        (event_of event.now)) }
{
    if !is_covered(event, covered) {
        return Ok(None);
    }
    let checked = check(alloc, event)?;
    Ok(Some(checked))
}

/// Returns whether an event extends one of these PCRs, in a bank of which it has a digest. Without
/// PCRs each event is covered.
#[tactic(auto, unfolding(crate::specs::Findings::is_covered))]
fn is_covered(event: &LogEvent<'_>, covered: Option<&[NamedPcr]>) -> bool
    ensures { result
        ≡ is_covered (option_map (λ pcrs. pcrs.now) covered.entry) (event_of event.now) }
{
    match covered {
        Some(pcrs) => pcrs
            .iter()
            .any(|it| extends(event, it.pcr) && has_digest(it.bank, event)),
        None => true,
    }
}

/// Returns the events that match in none of the forms of their types.
fn mismatches_in<'a, A: Allocator>(
    alloc: A,
    all: &[CheckedEntry<'a>],
) -> Result<Vec<Mismatch<'a>, A>, AllocError>
    ensures { IfOk result (λ found.
        map mismatch_of found.items ≡ mismatches_in (map finding_of all.now)) }
{
    let mut found = Vec::new(alloc);
    for index in 0..all.len() {
        push_if_mismatch(&mut found, index, &all[index])?;
    }
    Ok(found)
}

/// Appends an event, if it matches in none of the forms of its type.
#[tactic(auto, unfolding(crate::specs::CheckResult::if_mismatch))]
fn push_if_mismatch<'a, A: Allocator>(
    found: &mut Vec<Mismatch<'a>, A>,
    index: usize,
    it: &CheckedEntry<'a>,
) -> Result<(), AllocError>
    ensures { OnOk result (map mismatch_of found.new.items
        ≡ map mismatch_of found.old.items ++ if_mismatch index (finding_of it.now)) }
{
    if it.checked != Some(Checked::MatchesNone) {
        return Ok(());
    }
    let entry = it.entry;
    found.push(Mismatch { index, entry })?;
    Ok(())
}
