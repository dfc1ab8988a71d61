ghost use Rattle.std.specs.Prelude.{◌≡◌, map, IfOk};
ghost use Rattle.uefi_tcg.specs.LogViews.{entry_of, event_of};
ghost use Rattle.uefi_audits.specs.verify.Uncompared.{extends, is_compared, is_extended, uncompared_pcrs};

use crate::verify::named::NamedPcr;
use pcr_replay::PCR_COUNT;
use std::alloc::{AllocError, Allocator};
use uefi_tcg::{EventType, LogEntry, LogEvent};

/// Returns the PCRs that an event of a log extends and of which no bank is compared, in order.
///
/// # Errors
///
/// [`AllocError`] if an allocation fails.
#[tactic(auto, unfolding(crate::specs::verify::Uncompared::uncompared_pcrs))]
pub fn uncompared_pcrs<A: Allocator>(
    alloc: A,
    entries: &[LogEntry<'_>],
    compared: &[NamedPcr],
) -> Result<Vec<u32, A>, AllocError>
    ensures { IfOk result (λ found.
        found.items ≡ uncompared_pcrs (map entry_of entries.now) compared.now) }
{
    (0..PCR_COUNT as u32)
        .filter(|pcr| is_extended(entries, *pcr) && !is_compared(compared, *pcr))
        .collect(alloc)
}

/// Returns whether an event of a log extends a PCR.
fn is_extended(entries: &[LogEntry<'_>], pcr: u32) -> bool
    ensures { result ≡ is_extended (map entry_of entries.now) pcr }
{
    entries.iter().any(|entry| extends(&entry.event, pcr))
}

/// Returns whether an event extends a PCR.
pub(crate) fn extends(event: &LogEvent<'_>, pcr: u32) -> bool
    ensures { result ≡ extends pcr (event_of event.now) }
{
    event.event_type() != EventType::NO_ACTION && event.pcr_index().0 == pcr
}

/// Returns whether a bank of a PCR is compared.
fn is_compared(compared: &[NamedPcr], pcr: u32) -> bool
    ensures { result ≡ is_compared compared.now pcr }
{
    compared.iter().any(|it| it.pcr == pcr)
}
