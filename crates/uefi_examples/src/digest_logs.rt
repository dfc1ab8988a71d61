//! Callers of the reader of version 2 logs.
//!
//! Read a version 2 log by `iter_after_header_event`, in C from `event_end`: these are the events
//! that firmware writes, and that Linux, tpm2-tools and `uefi_audit` read; `iter`, in C from
//! `events_start`, starts where the Rust crate `uefi` does.

ghost use Rattle.std.specs.Prelude.{◌≡◌, ◌==◌, ◌+◌, ◌-◌, ◌/◌, ◌<◌, ◌≤◌, ℕ, List, [], ◌∷◌, Option, Some, count_by, length, map, option_map, slice_get, take, IfOk, IfSome, MatchOption, drop};
ghost use Rattle.std.specs.List.{concat};
ghost use Rattle.uefi_base.specs.Prefix.{IsPrefix};
ghost use Rattle.uefi_tcg.specs.v1.Laws.{SameUpTo};
ghost use Rattle.uefi_tcg.specs.v2.Event.{Event, event_bytes};
ghost use Rattle.uefi_tcg.specs.v2.Header.{Header, HasHeader, HeaderEvent, IsHeaderEvent, after_event, after_header, events_start, header_bytes, start_of};
ghost use Rattle.uefi_tcg.specs.v2.Laws.{HaveEnded, LastEndsAt, Logged, least_length, least_start};
ghost use Rattle.uefi_tcg.specs.v2.Log.{EventsKeep, IsLog, IsLogOf};
ghost use Rattle.uefi_tcg.specs.v2.Views.{digest_of, event_of};

use std::alloc::{AllocError, Global};
use uefi_tcg::laws::{bound_v2, cut_v2, local_v2, one_log_v2, same_where_nothing_follows};
use uefi_tcg::v2::{EventLog, PcrEvent};
use uefi_tcg::{AlgorithmId, PcrIndex};

/// The events of a log, or that an allocation failed.
type Events<'a> = Result<Vec<PcrEvent<'a>>, AllocError>;

/// Collects the events of a log of version 2 from the header's end on: they are the log under its
/// own header's table.
pub fn collected_events<'a>(alloc: Global, bytes: &'a [u8], last_entry: usize) -> Events<'a>
    ensures { IfOk result
        (λ events. IsLogOf after_header (Some bytes.now) (Some last_entry)
        (map event_of events.items)) }
{
    EventLog::new(Some(bytes), Some(last_entry), false)
        .iter()
        .collect(alloc)
}

/// Collects the events of a log that follow its header event: they are its log from there.
pub fn events_after_header_event<'a>(
    alloc: Global,
    bytes: &'a [u8],
    last_entry: usize,
) -> Events<'a>
    ensures { IfOk result
        (λ events. IsLogOf after_event (Some bytes.now) (Some last_entry)
        (map event_of events.items)) }
{
    EventLog::new(Some(bytes), Some(last_entry), false)
        .iter_after_header_event()
        .collect(alloc)
}

/// Returns how many events a log of version 2 has from either start, where its header event has
/// nothing but the header: the same number, that of its events.
pub fn counts_from_both_starts(bytes: &[u8], last_entry: usize) -> (usize, usize)
    requires { (found : HeaderEvent) → IsHeaderEvent bytes.now last_entry found.event found.header
        → found.event.event_data ≡ header_bytes found.header }
    ensures same { result.0 ≡ result.1 }
    ensures count { (events : List Event)
        × IsLogOf after_header (Some bytes.now) (Some last_entry) events
        × (result.0 ≡ length events) }
{
    same_where_nothing_follows();
    (
        event_count(bytes, last_entry),
        count_after_header_event(bytes, last_entry),
    )
}

/// Returns how many events of a log of version 2 follow the header event, by `count`: as many as
/// its list.
pub fn count_after_header_event(bytes: &[u8], last_entry: usize) -> usize
    ensures { (events : List Event) × IsLogOf after_event (Some bytes.now) (Some last_entry) events
        × (result ≡ length events) }
{
    let log = EventLog::new(Some(bytes), Some(last_entry), false);
    log.iter_after_header_event().count()
}

/// Returns the events of a log of version 2: every list of events under the header's table that
/// keeps to the last entry is a prefix of them.
pub fn every_event<'a>(alloc: Global, bytes: &'a [u8], last_entry: usize) -> Events<'a>
    ensures { IfOk result (λ events. (header : Header) (others : List Event)
        → HasHeader bytes.now last_entry header
        → EventsKeep header.table others (events_start header) last_entry bytes.now
        → IsPrefix others (map event_of events.items)) }
{
    one_log_v2();
    collected_events(alloc, bytes, last_entry)
}

/// Returns the events of a log of version 2 that may have grown: they begin with those of each
/// earlier log, the same up to its last entry, that ended at that entry or before it.
pub fn events_so_far<'a>(alloc: Global, bytes: &'a [u8], last_entry: usize) -> Events<'a>
    ensures { IfOk result (λ events. (earlier : Logged after_header) (ended : List Event)
        → SameUpTo earlier.last_entry earlier.bytes bytes.now → earlier.last_entry ≤ last_entry
        → HaveEnded after_header ended earlier → IsPrefix ended (map event_of events.items)) }
{
    local_v2();
    collected_events(alloc, bytes, last_entry)
}

/// Reads a log of version 2 again whose last event started at the last entry, from bytes that are
/// the same up to that event's end: it has the same events for that last entry, and begins with
/// them for every last entry from that end on.
pub fn events_again<'a>(alloc: Global, bytes: &'a [u8], last_entry: usize) -> Events<'a>
    ensures same { IfOk result (λ events. (earlier : Logged after_header) (end : ℕ)
        → LastEndsAt after_header end earlier → SameUpTo end earlier.bytes bytes.now
        → earlier.last_entry ≡ last_entry → map event_of events.items ≡ earlier.events) }
    ensures begins { IfOk result (λ events. (earlier : Logged after_header) (end : ℕ)
        → LastEndsAt after_header end earlier → SameUpTo end earlier.bytes bytes.now
        → end ≤ last_entry → IsPrefix earlier.events (map event_of events.items)) }
{
    one_log_v2();
    local_v2();
    collected_events(alloc, bytes, last_entry)
}

/// Reads the events again that follow the header event, also those of a log that has grown.
pub fn events_again_after_header_event<'a>(
    alloc: Global,
    bytes: &'a [u8],
    last_entry: usize,
) -> Events<'a>
    ensures same { IfOk result (λ events. (earlier : Logged after_event) (end : ℕ)
        → LastEndsAt after_event end earlier → SameUpTo end earlier.bytes bytes.now
        → earlier.last_entry ≡ last_entry → map event_of events.items ≡ earlier.events) }
    ensures begins { IfOk result (λ events. (earlier : Logged after_event) (end : ℕ)
        → LastEndsAt after_event end earlier → SameUpTo end earlier.bytes bytes.now
        → end ≤ last_entry → IsPrefix earlier.events (map event_of events.items)) }
    ensures grown { IfOk result (λ events. (earlier : Logged after_event) (ended : List Event)
        → SameUpTo earlier.last_entry earlier.bytes bytes.now → earlier.last_entry ≤ last_entry
        → HaveEnded after_event ended earlier → IsPrefix ended (map event_of events.items)) }
{
    one_log_v2();
    local_v2();
    events_after_header_event(alloc, bytes, last_entry)
}

/// Returns the events of the first bytes of a log of version 2: a prefix of the log.
pub fn events_of_part<'a>(
    alloc: Global,
    bytes: &'a [u8],
    count: usize,
    last_entry: usize,
) -> Events<'a>
    requires { count ≤ length bytes.now }
    ensures of_part { IfOk result
        (λ events. IsLogOf after_header (Some (take count bytes.now)) (Some last_entry)
        (map event_of events.items)) }
    ensures prefix { IfOk result (λ events. (found : Option HeaderEvent) (log : List Event)
        → IsLog after_header bytes.now last_entry found log
        → IsPrefix (map event_of events.items) log) }
{
    cut_v2();
    collected_events(alloc, &bytes[..count], last_entry)
}

/// Returns the events of the first bytes of a log of version 2 that follow the header event: a
/// prefix of those of the log.
pub fn part_after_header_event<'a>(
    alloc: Global,
    bytes: &'a [u8],
    count: usize,
    last_entry: usize,
) -> Events<'a>
    requires { count ≤ length bytes.now }
    ensures { IfOk result (λ events. (found : Option HeaderEvent) (log : List Event)
        → IsLog after_event bytes.now last_entry found log
        → IsPrefix (map event_of events.items) log) }
{
    cut_v2();
    events_after_header_event(alloc, &bytes[..count], last_entry)
}

/// Returns how many events a log of version 2 has: none if its last entry is before the least
/// start, else not more than fit from there, and one.
pub fn event_count(bytes: &[u8], last_entry: usize) -> usize
    ensures count { (events : List Event)
        × IsLogOf after_header (Some bytes.now) (Some last_entry) events
        × (result ≡ length events) }
    ensures none { last_entry < least_start → result ≡ 0 }
    ensures few { result ≤ (last_entry - least_start) / least_length + 1 }
{
    bound_v2();
    count_from_header(bytes, last_entry)
}

/// Returns how many events a log of version 2 has from its header's end on.
fn count_from_header(bytes: &[u8], last_entry: usize) -> usize
    ensures { (events : List Event) × IsLogOf after_header (Some bytes.now) (Some last_entry) events
        × (result ≡ length events) }
{
    let log = EventLog::new(Some(bytes), Some(last_entry), false);
    log.iter().count()
}

/// Returns how many events of a log of version 2 follow the header event: none if the last entry is
/// before that event's end.
pub fn event_count_after_header_event(bytes: &[u8], last_entry: usize) -> usize
    ensures count { (events : List Event)
        × IsLogOf after_event (Some bytes.now) (Some last_entry) events
        × (result ≡ length events) }
    ensures none { (found : HeaderEvent)
        → IsHeaderEvent bytes.now last_entry found.event found.header
        → last_entry < start_of after_event found → result ≡ 0 }
    ensures few { (found : HeaderEvent)
        → IsHeaderEvent bytes.now last_entry found.event found.header
        → result ≤ (last_entry - start_of after_event found) / least_length + 1 }
{
    one_log_v2();
    bound_v2();
    count_after_header_event(bytes, last_entry)
}

/// Returns how many events of a log of version 2 are of a PCR.
pub fn count_of_pcr(bytes: &[u8], last_entry: usize, pcr: PcrIndex) -> usize
    ensures { (events : List Event) × IsLogOf after_header (Some bytes.now) (Some last_entry) events
        × (result ≡ count_by (λ event. event.pcr_index == pcr.0) events) }
{
    let log = EventLog::new(Some(bytes), Some(last_entry), false);
    let mut count = 0;
    for event in log.iter() {
        if event.pcr_index() == pcr {
            count += 1;
        }
    }
    count
}

/// Returns the first event of a log of version 2 by one step of the iterator: the event that keeps
/// alone under the header's table from the header's end on, or none if no event does.
pub fn first_step(bytes: &[u8], last_entry: usize) -> Option<PcrEvent<'_>>
    ensures { (header : Header) → HasHeader bytes.now last_entry header → MatchOption result
        ((event : Event) → EventsKeep header.table (event ∷ []) (events_start header) last_entry
        bytes.now → ⊥)
        (λ event. EventsKeep header.table (event_of event ∷ []) (events_start header) last_entry
        bytes.now) }
{
    let log = EventLog::new(Some(bytes), Some(last_entry), false);
    let mut events = log.iter();
    events.next()
}

/// Returns the first two events of a log of version 2 that follow its header event, by two steps:
/// the second keeps alone under the header's table from the end of the first on.
pub fn two_steps(bytes: &[u8], last_entry: usize) -> Option<(PcrEvent<'_>, PcrEvent<'_>)>
    ensures first { IfSome result (λ two. (found : HeaderEvent)
        → IsHeaderEvent bytes.now last_entry found.event found.header
        → EventsKeep found.header.table (event_of two.0 ∷ []) (start_of after_event found)
        last_entry bytes.now) }
    ensures second { IfSome result (λ two. (found : HeaderEvent)
        → IsHeaderEvent bytes.now last_entry found.event found.header
        → EventsKeep found.header.table (event_of two.1 ∷ [])
        (start_of after_event found + length (event_bytes (event_of two.0))) last_entry bytes.now) }
    // They are the first two of the log; there are none only if it has fewer.
    ensures log { (events : List Event)
        × IsLogOf after_event (Some bytes.now) (Some last_entry) events
        × MatchOption result (length events < 2)
        (λ two. take 2 events ≡ event_of two.0 ∷ event_of two.1 ∷ []) }
{
    let log = EventLog::new(Some(bytes), Some(last_entry), false);
    let mut events = log.iter_after_header_event();
    let first = events.next()?;
    let second = events.next()?;
    Some((first, second))
}

/// Returns the bytes of the events of a log of version 2, one after another: the bytes of the log
/// from its first event to the end of its list.
pub fn all_bytes(alloc: Global, bytes: &[u8], last_entry: usize) -> Result<Vec<u8>, AllocError>
    ensures encodings { IfOk result (λ joined. (events : List Event)
        × IsLogOf after_header (Some bytes.now) (Some last_entry) events
        × (joined.items ≡ concat (map event_bytes events))) }
    ensures in_log { IfOk result (λ joined. (header : Header)
        → HasHeader bytes.now last_entry header
        → IsPrefix joined.items (drop (events_start header) bytes.now)) }
{
    one_log_v2();
    joined_bytes(alloc, bytes, last_entry)
}

/// Returns the bytes of the events of a log of version 2, one after another.
fn joined_bytes(alloc: Global, bytes: &[u8], last_entry: usize) -> Result<Vec<u8>, AllocError>
    ensures { IfOk result (λ joined. (events : List Event)
        × IsLogOf after_header (Some bytes.now) (Some last_entry) events
        × (joined.items ≡ concat (map event_bytes events))) }
{
    let log = EventLog::new(Some(bytes), Some(last_entry), false);
    let mut joined = Vec::new(alloc);
    for event in log.iter() {
        joined.extend_from_slice(event.as_bytes())?;
    }
    Ok(joined)
}

/// A digest with its algorithm.
type Digest<'a> = (AlgorithmId, &'a [u8]);

/// Returns the first event of a log of version 2, its data and its first digest. Each borrows
/// `bytes` alone, and outlives the log and the iterators; data and digest outlive the event too.
pub fn first_event<'a>(
    bytes: &'a [u8],
    last_entry: usize,
) -> Option<(PcrEvent<'a>, &'a [u8], Option<Digest<'a>>)>
    ensures event { (events : List Event)
        × IsLogOf after_header (Some bytes.now) (Some last_entry) events
        × (option_map (λ found. event_of found.0) result ≡ slice_get events 0) }
    ensures event_data { IfSome result
        (λ found. found.1.now ≡ (event_of found.0).event_data) }
    ensures digest { IfSome result (λ found.
        option_map digest_of found.2 ≡ slice_get (event_of found.0).digests 0) }
{
    let log = EventLog::new(Some(bytes), Some(last_entry), false);
    let event = log.iter().next()?;
    let digest = event.digests().into_iter().next();
    Some((event, event.event_data(), digest))
}
