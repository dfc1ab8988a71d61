ghost use Rattle.std.specs.Prelude.{◌≡◌, ◌==◌, IfOk, List, Some, count_by, filter, length, map};
ghost use Rattle.uefi_tcg.specs.v2.Event.{Event};
ghost use Rattle.uefi_tcg.specs.v2.Header.{after_header};
ghost use Rattle.uefi_tcg.specs.v2.Log.{IsLogOf};
ghost use Rattle.uefi_tcg.specs.v2.Views.{event_of};

use std::alloc::{AllocError, Global};
use uefi_tcg::PcrIndex;
use uefi_tcg::v2::{EventLog, PcrEvent};

/// Returns the events of a log that are of a PCR, in order, as `iter` has them.
pub fn events_of_pcr<'a>(
    alloc: Global,
    bytes: &'a [u8],
    last_entry: usize,
    pcr: PcrIndex,
) -> Result<Vec<PcrEvent<'a>>, AllocError>
    ensures events { IfOk result (λ events. (log : List Event)
        × IsLogOf after_header (Some bytes.now) (Some last_entry) log
        × (map event_of events.items ≡ filter (λ event. event.pcr_index == pcr.0) log)) }
    ensures count { IfOk result (λ events. (log : List Event)
        × IsLogOf after_header (Some bytes.now) (Some last_entry) log
        × (length events.items ≡ count_by (λ event. event.pcr_index == pcr.0) log)) }
{
    let log = EventLog::new(Some(bytes), Some(last_entry), false);
    let mut events = Vec::new(alloc);
    for event in log.iter() {
        if event.pcr_index() == pcr {
            events.push(event)?;
        }
    }
    Ok(events)
}

/// Returns the types of these events, in order.
pub fn types_of_pcr(
    alloc: Global,
    bytes: &[u8],
    last_entry: usize,
    pcr: PcrIndex,
) -> Result<Vec<u32>, AllocError>
    ensures { IfOk result (λ types. (log : List Event)
        × IsLogOf after_header (Some bytes.now) (Some last_entry) log
        × (types.items ≡ map (λ event. event.event_type)
        (filter (λ event. event.pcr_index == pcr.0) log))) }
{
    let log = EventLog::new(Some(bytes), Some(last_entry), false);
    let mut types = Vec::new(alloc);
    for event in log.iter() {
        if event.pcr_index() == pcr {
            types.push(event.event_type().0)?;
        }
    }
    Ok(types)
}
