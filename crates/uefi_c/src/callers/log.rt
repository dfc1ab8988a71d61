ghost use Rattle.std.specs.Prelude.{◌≡◌, List, IfOk};
ghost use Rattle.uefi_tcg.specs.Entries.{Contents, Entry};
ghost use Rattle.uefi_tcg.specs.Logs.{HasContents};
ghost use Rattle.uefi_tcg.specs.WholeLogs.{IsWhole};
ghost use Rattle.uefi_c.specs.LastEntry.{log_named};
ghost use Rattle.uefi_c.specs.Log.{HasLeft};
ghost use Rattle.uefi_c.specs.LogSteps.{AreSeen};
ghost use Rattle.uefi_c.specs.Status.{ended};

use crate::log::{UefiEvent, UefiLog, uefi_log, uefi_log_next};
use crate::status::{self, UefiStatus};
use std::alloc::{AllocError, Allocator};

/// Collects the events of a log of either version, by a loop, and returns them with the status at
/// which it ended. Those of a whole log are the entries that the library gives, and the status is
/// the walk's end.
pub fn log_by_steps<'a, A: Allocator>(
    alloc: A,
    bytes: &'a [u8],
    last_entry: usize,
) -> Result<(Vec<UefiEvent<'a>, A>, UefiStatus), AllocError>
    ensures { IfOk result (λ found. IsWhole 256 (log_named bytes.entry last_entry)
        → (contents : Contents) → HasContents (log_named bytes.entry last_entry) contents
        → AreSeen found.0.items contents.entries × (found.1 ≡ ended)) }
{
    let mut log = no_log();
    let status = uefi_log(bytes, last_entry, &mut log);
    if status != status::OK {
        return Ok((Vec::new(alloc), status));
    }
    events_left(alloc, log)
}

/// Collects the events that a log has left, and returns them with the status at which it ended.
fn events_left<'a, A: Allocator>(
    alloc: A,
    from: UefiLog<'a>,
) -> Result<(Vec<UefiEvent<'a>, A>, UefiStatus), AllocError>
    ensures { IfOk result (λ found. (entries : List Entry) → HasLeft from.entry entries
        → AreSeen found.0.items entries × (found.1 ≡ ended)) }
{
    let mut views = Vec::new(alloc);
    let mut log = from;
    let mut event = no_event();
    'events: loop {
        let status = uefi_log_next(&mut log, &mut event);
        if status != status::OK {
            return Ok((views, status));
        }
        views.push(event)?;
    }
}

/// Returns a log whose fields are zero and empty.
fn no_log<'a>() -> UefiLog<'a> {
    UefiLog {
        bytes: &[],
        rows: &[],
        last_entry: 0,
        offset: 0,
        version: 0,
    }
}

/// Returns an event whose fields are zero and empty.
fn no_event<'a>() -> UefiEvent<'a> {
    UefiEvent {
        event_data: &[],
        digests: &[],
        rows: &[],
        offset: 0,
        digest_count: 0,
        pcr_index: 0,
        event_type: 0,
        version: 0,
    }
}
