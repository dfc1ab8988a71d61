//! The events of a log that have no effect on any PCR, and should have.

ghost use Rattle.std.specs.Prelude.{◌≡◌, ◌++◌, ◌==◌, List, IfOk, OnOk, map};
ghost use Rattle.std.specs.List.{list_any};
ghost use Rattle.uefi_tcg.specs.LogViews.{entry_of};
ghost use Rattle.uefi_audits.specs.Ignored.{ignored_event, ignored_events, is_no_pcr};

use pcr_replay::{Ignored, why_ignored};
use std::alloc::{AllocError, Allocator};
use uefi_tcg::LogEntry;

/// An event that has no effect on any PCR, and should have.
#[derive(Clone, Copy, PartialEq, Eq, Debug)]
pub struct IgnoredEvent {
    /// Its index in the log: 0 for the first one.
    pub index: usize,
    /// The offset at which it starts.
    pub offset: usize,
    /// Its PCR.
    pub pcr: u32,
    /// Why it has no effect.
    pub why: Ignored,
}

impl IgnoredEvent {
    /// Returns whether the event should have extended a PCR that no TPM has.
    pub fn is_of_no_pcr(&self) -> bool
        ensures { result ≡ is_no_pcr self.now.why }
    {
        self.why == Ignored::NoPcr
    }
}

/// Returns the events that have no effect on any PCR and should have, in order.
///
/// # Errors
///
/// [`AllocError`] if an allocation fails.
pub fn ignored_events<A: Allocator>(
    alloc: A,
    entries: &[LogEntry<'_>],
) -> Result<Vec<IgnoredEvent, A>, AllocError>
    ensures { IfOk result (λ found. found.items ≡ ignored_events (map entry_of entries.now)) }
{
    let mut found = Vec::new(alloc);
    for index in 0..entries.len() {
        push_if_ignored(&mut found, index, &entries[index])?;
    }
    Ok(found)
}

/// Appends an event, if it has no effect and should have.
#[tactic(auto, unfolding(crate::specs::Ignored::if_ignored))]
fn push_if_ignored<A: Allocator>(
    found: &mut Vec<IgnoredEvent, A>,
    index: usize,
    entry: &LogEntry<'_>,
) -> Result<(), AllocError>
    ensures { OnOk result
        (found.new.items ≡ found.old.items ++ ignored_event index (entry_of entry.now)) }
{
    let Some(why) = why_ignored(&entry.event) else {
        return Ok(());
    };
    let (offset, pcr) = (entry.offset, entry.event.pcr_index().0);
    found.push(IgnoredEvent {
        index,
        offset,
        pcr,
        why,
    })?;
    Ok(())
}
