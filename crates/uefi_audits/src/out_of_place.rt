//! The events of a log that are out of place, and the PCRs of firmware without a separator.
//!
//! A digest covers what was measured, and neither an event's type nor its place among those of other
//! PCRs. Whoever controls a machine can extend PCRs further, and relabel what the log has. Where a
//! relabelled event can't be, [`Remarks`] has it.

ghost use Rattle.std.specs.Prelude.{◌≡◌, ◌++◌, ◌||◌, codes, map, length, IfOk, OnOk};
ghost use Rattle.std.specs.List.{filter, flat_map, list_any, range_with_len};
ghost use Rattle.uefi_tcg.specs.LogViews.{entry_of, event_of};
ghost use Rattle.pcr_replay.specs.Measured.{is_hash_of};
ghost use Rattle.uefi_audits.specs.OutOfPlace.{are_faults, exit_text, has_exit, if_broken, is_above_registers, is_exit, misplaced, misplaced_in, misplaced_of, remarks_in, remarks_of, separates, without_separator};
ghost use Rattle.uefi_audits.specs.private.Counting.{finding_of};

pub use self::rule::Rule;
use self::rule::{FIRMWARE_PCRS, JUDGED_PCRS, rule_at};
pub use self::types::{types_after_separator, types_in, types_of_bios};
use crate::check::CheckedEntry;
use pcr_replay::{Bank, is_hash_of};
use std::alloc::{AllocError, Allocator, Global};
use uefi_tcg::{EventType, LogEntry, LogEvent};

mod rule;
mod types;

/// The highest number of a register of confidential computing (UEFI 2.10, 38.4.1).
const LAST_REGISTER: u32 = 4;

/// An event that is out of place.
#[derive(Clone, Copy)]
pub struct OutOfPlace<'a> {
    /// Its index in the log: 0 for the first one.
    pub index: usize,
    /// The event with its offset.
    pub entry: LogEntry<'a>,
    /// The rule that it breaks, the first one.
    pub rule: Rule,
}

/// The remarks on the places of a log's events.
///
/// There are none on a log of confidential computing, whose registers aren't PCRs. Such a log has its
/// `Exit Boot Services Invocation` in register 2, and extends no register above 4 (UEFI 2.10, 38.4.1).
/// One that ends before that can't be told from a log of PCRs.
#[derive(Drop)]
pub struct Remarks<'a, A: Allocator = Global> {
    /// The events that are out of place, by PCR, and of a PCR in order.
    pub events: Vec<OutOfPlace<'a>, A>,
    /// The PCRs of 0 to 7 without a separator, in order.
    pub unseparated: Vec<u32, A>,
    /// Whether the boot got as far as `Exit Boot Services Invocation`: a digest of an event of PCR 5 is
    /// the hash of this text. Else the log may end before a separator.
    pub has_exited: bool,
}

impl<A: Allocator> Remarks<'_, A> {
    /// Returns whether the remarks count against the log: there are some, and the boot got as far as
    /// `Exit Boot Services Invocation`.
    pub fn are_faults(&self) -> bool
        ensures { result ≡ are_faults (remarks_of self.now) }
    {
        self.has_exited && (!self.events.is_empty() || !self.unseparated.is_empty())
    }
}

/// Returns the remarks on the places of these events; none if the log is of confidential computing.
#[tactic(auto, unfolding(crate::specs::OutOfPlace::remarks_if))]
pub(crate) fn remarks_on<'a, A: Allocator + Copy>(
    alloc: A,
    all: &[CheckedEntry<'a>],
) -> Result<Remarks<'a, A>, AllocError>
    ensures { IfOk result (λ remarks. remarks_of remarks ≡ remarks_in (map finding_of all.now)) }
{
    if has_exit(all, 2) && !has_pcr_above_registers(all) {
        return Ok(Remarks {
            events: Vec::new(alloc),
            unseparated: Vec::new(alloc),
            has_exited: false,
        });
    }
    let events = misplaced(alloc, all)?;
    let unseparated = without_separator(alloc, all)?;
    Ok(Remarks {
        events,
        unseparated,
        has_exited: has_exit(all, 5),
    })
}

/// Returns whether an event extends a PCR whose number no register of confidential computing has.
fn has_pcr_above_registers(all: &[CheckedEntry<'_>]) -> bool
    ensures { result ≡ list_any is_above_registers (map finding_of all.now) }
{
    all.iter().any(|it| it.pcr() > LAST_REGISTER && !it.has_type(EventType::NO_ACTION))
}

/// Returns whether an event of a PCR says that the operating system takes over.
fn has_exit(all: &[CheckedEntry<'_>], pcr: u32) -> bool
    ensures { result ≡ has_exit pcr (map finding_of all.now) }
{
    all.iter()
        .any(|it| it.pcr() == pcr && is_exit(&it.entry.event))
}

/// Returns whether an event's digest of some bank says so.
fn is_exit(event: &LogEvent<'_>) -> bool
    ensures { result ≡ is_exit (event_of event.now) }
{
    Bank::ALL.iter().any(|bank| is_exit_in(*bank, event))
}

/// Returns whether an event's digest of a bank is the hash of `Exit Boot Services Invocation`.
fn is_exit_in(bank: Bank, event: &LogEvent<'_>) -> bool
    ensures { result ≡ is_hash_of bank exit_text (event_of event.now) }
{
    is_hash_of(bank, event, b"Exit Boot Services Invocation", &[])
}

/// Returns the PCRs of firmware without a separator.
fn without_separator<A: Allocator>(
    alloc: A,
    all: &[CheckedEntry<'_>],
) -> Result<Vec<u32, A>, AllocError>
    ensures { IfOk result (λ pcrs. pcrs.items ≡ without_separator (map finding_of all.now)) }
{
    (0..FIRMWARE_PCRS)
        .filter(|pcr| !has_separator(all, *pcr))
        .collect(alloc)
}

/// Returns whether a PCR has a separator.
fn has_separator(all: &[CheckedEntry<'_>], pcr: u32) -> bool
    ensures { result ≡ list_any (separates pcr) (map finding_of all.now) }
{
    all.iter().any(|it| separates(pcr, it))
}

/// Returns whether an event is a PCR's separator.
fn separates(pcr: u32, it: &CheckedEntry<'_>) -> bool
    ensures { result ≡ separates pcr (finding_of it.now) }
{
    it.pcr() == pcr && it.has_type(EventType::SEPARATOR)
}

/// Returns the events of PCR 0 to 8 that are out of place. A log without an event of UEFI is that of a
/// BIOS.
fn misplaced<'a, A: Allocator>(
    alloc: A,
    all: &[CheckedEntry<'a>],
) -> Result<Vec<OutOfPlace<'a>, A>, AllocError>
    ensures { IfOk result (λ found.
        map misplaced_of found.items ≡ misplaced (map finding_of all.now)) }
{
    let first_of_uefi = EventType::EFI_EVENT_BASE.0;
    let is_of_bios = !all
        .iter()
        .any(|it| it.entry.event.event_type().0 >= first_of_uefi);
    let mut found = Vec::new(alloc);
    for pcr in 0..JUDGED_PCRS {
        push_misplaced(&mut found, all, is_of_bios, pcr)?;
    }
    Ok(found)
}

/// Appends the events of a PCR that are out of place.
fn push_misplaced<'a, A: Allocator>(
    found: &mut Vec<OutOfPlace<'a>, A>,
    all: &[CheckedEntry<'a>],
    is_of_bios: bool,
    pcr: u32,
) -> Result<(), AllocError>
    ensures { OnOk result (map misplaced_of found.new.items
        ≡ map misplaced_of found.old.items
        ++ misplaced_in is_of_bios (map finding_of all.now) pcr) }
{
    let mut is_separated = false;
    for index in 0..all.len() {
        let it = &all[index];
        let rule = rule_at(pcr, is_of_bios, is_separated, it);
        push_if_broken(found, index, &it.entry, rule)?;
        is_separated |= separates(pcr, it);
    }
    Ok(())
}

/// Appends an event, if it breaks a rule.
#[tactic(auto, unfolding(crate::specs::OutOfPlace::if_broken))]
fn push_if_broken<'a, A: Allocator>(
    found: &mut Vec<OutOfPlace<'a>, A>,
    index: usize,
    entry: &LogEntry<'a>,
    rule: Option<Rule>,
) -> Result<(), AllocError>
    ensures { OnOk result (map misplaced_of found.new.items
        ≡ map misplaced_of found.old.items ++ if_broken index (entry_of entry.now) rule) }
{
    let Some(rule) = rule else {
        return Ok(());
    };
    let entry = *entry;
    found.push(OutOfPlace { index, entry, rule })?;
    Ok(())
}
