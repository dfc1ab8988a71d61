ghost use Rattle.std.specs.Prelude.{◌≡◌, ◌≤◌, ◌<◌, ◌^◌, List, Option, length, IfOk, map, flat_map};
ghost use Rattle.std.specs.List.{AllByRecursion};
ghost use Rattle.uefi_tcg.specs.v2.Digests.{digest_bytes};
ghost use Rattle.uefi_tcg.specs.v2.Event.{Digest, Event, IsDigest};
ghost use Rattle.uefi_tcg.specs.v2.Header.{HeaderEvent, after_header, after_event};
ghost use Rattle.uefi_tcg.specs.private.v2.Log.{IsLongestFrom};
ghost use Rattle.uefi_tcg.specs.v2.Log.{IsLog};
ghost use Rattle.uefi_tcg.specs.v2.Reading.{rows_in};
ghost use Rattle.uefi_c.specs.Log2.{digest_seen, parts_of, parts_seen};

use crate::log2::{
    UefiDigest, UefiEvent2, UefiLogHeader, uefi_digest_next, uefi_log2_header, uefi_log2_next,
};
use crate::status;
use std::alloc::{AllocError, Allocator};

/// Collects the events of a version 2 log, by a loop: the log, as the library's `iter` gives it.
pub fn log2_by_steps<'a, A: Allocator>(
    alloc: A,
    log: &'a [u8],
    last_entry: usize,
) -> Result<Vec<UefiEvent2<'a>, A>, AllocError>
    ensures { IfOk result (λ views. (found : Option HeaderEvent) × (events : List Event)
        × IsLog after_header log.now last_entry found events
        × (map parts_seen views.items ≡ map parts_of events)) }
{
    let mut header = no_header();
    if uefi_log2_header(log, last_entry, &mut header) != status::OK {
        return Ok(Vec::new(alloc));
    }
    events_from(alloc, log, last_entry, header.rows, header.events_start)
}

/// Collects those after the header event, by a loop, as the library's `iter_after_header_event`
/// gives them.
pub fn log2_after_event_by_steps<'a, A: Allocator>(
    alloc: A,
    log: &'a [u8],
    last_entry: usize,
) -> Result<Vec<UefiEvent2<'a>, A>, AllocError>
    ensures { IfOk result (λ views. (found : Option HeaderEvent) × (events : List Event)
        × IsLog after_event log.now last_entry found events
        × (map parts_seen views.items ≡ map parts_of events)) }
{
    let mut header = no_header();
    if uefi_log2_header(log, last_entry, &mut header) != status::OK {
        return Ok(Vec::new(alloc));
    }
    events_from(alloc, log, last_entry, header.rows, header.event_end)
}

/// Collects the events under the table of these rows from the start on.
fn events_from<'a, A: Allocator>(
    alloc: A,
    log: &'a [u8],
    last_entry: usize,
    rows: &'a [u8],
    start: usize,
) -> Result<Vec<UefiEvent2<'a>, A>, AllocError>
    requires start { start ≤ length log.now }
    requires few { length (rows_in rows.now) < 2 ^ 32 }
    ensures { IfOk result (λ views. (events : List Event)
        × IsLongestFrom (rows_in rows.now) start log.now last_entry events
        × (map parts_seen views.items ≡ map parts_of events)) }
{
    let mut views = Vec::new(alloc);
    let mut offset = start;
    let mut event = UefiEvent2 {
        digests: &[],
        event_data: &[],
        digest_count: 0,
        pcr_index: 0,
        event_type: 0,
    };
    while uefi_log2_next(log, last_entry, rows, &mut offset, &mut event) == status::OK {
        views.push(event)?;
    }
    Ok(views)
}

/// Returns a header whose fields are zero and empty.
fn no_header<'a>() -> UefiLogHeader<'a> {
    UefiLogHeader {
        rows: &[],
        vendor: &[],
        events_start: 0,
        event_end: 0,
        platform_class: 0,
        major: 0,
        minor: 0,
        errata: 0,
        uintn_size: 0,
    }
}

/// Collects the digests that bytes encode under the table of these rows, by a loop: those of the
/// event that has the bytes, as the library's `digests` gives them.
pub fn digests_by_steps<'a, A: Allocator>(
    alloc: A,
    digests: &'a [u8],
    rows: &[u8],
) -> Result<Vec<UefiDigest<'a>, A>, AllocError>
    ensures { IfOk result (λ views. length (rows_in rows.now) < 2 ^ 32 → (all : List Digest)
        → AllByRecursion (IsDigest (rows_in rows.now)) all
        → digests.now ≡ flat_map digest_bytes all → map digest_seen views.items ≡ all) }
{
    let mut views = Vec::new(alloc);
    let mut offset = 0;
    let mut digest = UefiDigest {
        bytes: &[],
        algorithm: 0,
    };
    while uefi_digest_next(digests, rows, &mut offset, &mut digest) == status::OK {
        views.push(digest)?;
    }
    Ok(views)
}
