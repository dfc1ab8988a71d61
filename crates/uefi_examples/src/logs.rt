ghost use Rattle.std.specs.Prelude.{◌≡◌, ◌↔◌, ◌+◌, ◌/◌, ◌^◌, ◌<◌, ◌≤◌, ℕ, List, [], ◌∷◌, ◌++◌, length, map, option_map, slice_get, take, IfOk, IfSome, IsSome, MatchOption};
ghost use Rattle.uefi_base.specs.Prefix.{IsPrefix};
ghost use Rattle.uefi_tcg.specs.v1.Event.{Event, header_length};
ghost use Rattle.uefi_tcg.specs.v1.Log.{EventsKeep, IsLog};
ghost use Rattle.uefi_tcg.specs.v1.Laws.{LastEndsAt, Logged, SameUpTo, bytes_of};
ghost use Rattle.uefi_tcg.specs.v1.Views.{bytes_of_event, event_of};
ghost use Rattle.uefi_tcg.specs.v1.Writing.{event_given};

use std::alloc::{AllocError, Global};
use uefi_tcg::laws::{bound_v1, cut_v1, local_v1, one_log_v1, written_event};
use uefi_tcg::v1::{EventLog, PcrEvent, Sha1Digest, write_event};
use uefi_tcg::{EventType, PcrIndex};

/// The events of a log, or that an allocation failed.
type Events<'a> = Result<Vec<PcrEvent<'a>>, AllocError>;

/// Returns the events of a log, by `for`: they keep to the last entry, and no event can be added to
/// them.
pub fn audited_events<'a>(alloc: Global, bytes: &'a [u8], last_entry: usize) -> Events<'a>
    ensures keep { IfOk result
        (λ events. EventsKeep (map event_of events.items) 0 last_entry bytes.now) }
    ensures none_missing { IfOk result (λ events. (event : Event)
        → EventsKeep (map event_of events.items ++ event ∷ []) 0 last_entry bytes.now → ⊥) }
{
    let log = EventLog::new(Some(bytes), Some(last_entry), false);
    let mut events = Vec::new(alloc);
    for event in log.iter() {
        events.push(event)?;
    }
    Ok(events)
}

/// Collects the events of a log: they are the log.
pub fn collected_events<'a>(alloc: Global, bytes: &'a [u8], last_entry: usize) -> Events<'a>
    ensures { IfOk result (λ events. IsLog bytes.now last_entry (map event_of events.items)) }
{
    EventLog::new(Some(bytes), Some(last_entry), false)
        .iter()
        .collect(alloc)
}

/// Returns the events of a log: every list of events that keeps to the last entry is a prefix of
/// them.
pub fn every_event<'a>(alloc: Global, bytes: &'a [u8], last_entry: usize) -> Events<'a>
    ensures { IfOk result (λ events. (others : List Event)
        → EventsKeep others 0 last_entry bytes.now
        → IsPrefix others (map event_of events.items)) }
{
    one_log_v1();
    collected_events(alloc, bytes, last_entry)
}

/// Returns the events of a log that may have grown: they begin with those of each earlier log, the
/// same up to its last entry, that ended at that entry or before it.
pub fn events_so_far<'a>(alloc: Global, bytes: &'a [u8], last_entry: usize) -> Events<'a>
    ensures { IfOk result (λ events. (earlier : Logged) (ended : List Event)
        → SameUpTo earlier.last_entry earlier.bytes bytes.now → earlier.last_entry ≤ last_entry
        → IsPrefix ended earlier.events → bytes_of ended ≤ earlier.last_entry
        → IsPrefix ended (map event_of events.items)) }
{
    local_v1();
    collected_events(alloc, bytes, last_entry)
}

/// Reads a log again whose last event started at the last entry, from bytes that are the same up to
/// that event's end: it has the same events for that last entry, and begins with them for every
/// last entry from that end on.
pub fn events_again<'a>(alloc: Global, bytes: &'a [u8], last_entry: usize) -> Events<'a>
    ensures same { IfOk result (λ events. (earlier : Logged) (end : ℕ) → LastEndsAt end earlier
        → SameUpTo end earlier.bytes bytes.now → earlier.last_entry ≡ last_entry
        → map event_of events.items ≡ earlier.events) }
    ensures begins { IfOk result (λ events. (earlier : Logged) (end : ℕ) → LastEndsAt end earlier
        → SameUpTo end earlier.bytes bytes.now → end ≤ last_entry
        → IsPrefix earlier.events (map event_of events.items)) }
{
    one_log_v1();
    local_v1();
    collected_events(alloc, bytes, last_entry)
}

/// Returns the events of the first bytes of a log: a prefix of the log.
pub fn events_of_part<'a>(
    alloc: Global,
    bytes: &'a [u8],
    count: usize,
    last_entry: usize,
) -> Events<'a>
    requires { count ≤ length bytes.now }
    ensures of_part { IfOk result
        (λ events. IsLog (take count bytes.now) last_entry (map event_of events.items)) }
    ensures prefix { IfOk result (λ events. (log : List Event) → IsLog bytes.now last_entry log
        → IsPrefix (map event_of events.items) log) }
{
    cut_v1();
    collected_events(alloc, &bytes[..count], last_entry)
}

/// Writes an event to a buffer, if it fits, and reads the log that its bytes are: this event.
pub fn event_read_back<'a>(
    buffer: &'a mut [u8],
    pcr: PcrIndex,
    digest: Sha1Digest,
    event_data: &[u8],
) -> Option<PcrEvent<'a>>
    ensures event { IfSome result (λ event. event_of event
        ≡ event_given pcr EventType.IPL digest event_data.now) }
    ensures fits { IsSome result ↔ (length event_data.now < 2 ^ 32)
        × (header_length + length event_data.now ≤ length buffer.old) }
{
    one_log_v1();
    written_event();
    let written = write_event(buffer, pcr, EventType::IPL, digest, event_data);
    let Ok(end) = written else {
        return None;
    };
    EventLog::new(Some(&buffer[..end]), Some(0), false)
        .iter()
        .next()
}

/// Counts the events of a log, by `count`: not more than fit before its last entry, and one.
pub fn event_count(bytes: &[u8], last_entry: usize) -> usize
    ensures count { (events : List Event) × IsLog bytes.now last_entry events
        × (result ≡ length events) }
    ensures few { result ≤ last_entry / header_length + 1 }
{
    bound_v1();
    let log = EventLog::new(Some(bytes), Some(last_entry), false);
    log.iter().count()
}

/// Counts the events of a log without a last entry: it has none.
pub fn count_without_last_entry(bytes: &[u8]) -> usize
    ensures { result ≡ 0 }
{
    EventLog::new(Some(bytes), None, false).iter().count()
}

/// Returns the first event of a log by one step of the iterator: the event that keeps alone from
/// the log's first byte on, or none if no event does.
pub fn first_step(bytes: &[u8], last_entry: usize) -> Option<PcrEvent<'_>>
    ensures { MatchOption result
        ((event : Event) → EventsKeep (event ∷ []) 0 last_entry bytes.now → ⊥)
        (λ event. EventsKeep (event_of event ∷ []) 0 last_entry bytes.now) }
{
    let log = EventLog::new(Some(bytes), Some(last_entry), false);
    let mut events = log.iter();
    events.next()
}

/// Returns the first two events of a log by two steps: the second keeps alone in the log's bytes
/// from the end of the first on.
pub fn two_steps(bytes: &[u8], last_entry: usize) -> Option<(PcrEvent<'_>, PcrEvent<'_>)>
    ensures first { IfSome result
        (λ two. EventsKeep (event_of two.0 ∷ []) 0 last_entry bytes.now) }
    ensures second { IfSome result (λ two.
        EventsKeep (event_of two.1 ∷ []) (length (bytes_of_event two.0)) last_entry bytes.now) }
    // They are the first two of the log; there are none only if it has fewer.
    ensures log { (events : List Event) × IsLog bytes.now last_entry events
        × MatchOption result (length events < 2)
        (λ two. take 2 events ≡ event_of two.0 ∷ event_of two.1 ∷ []) }
{
    let log = EventLog::new(Some(bytes), Some(last_entry), false);
    let mut events = log.iter();
    let first = events.next()?;
    let second = events.next()?;
    Some((first, second))
}

/// Returns the first event of a log and its data, which live as long as the bytes: the log and the
/// iterator are gone.
pub fn first_event(bytes: &[u8], last_entry: usize) -> Option<(PcrEvent<'_>, &[u8])>
    ensures event { (events : List Event) × IsLog bytes.now last_entry events
        × (option_map (λ found. event_of found.0) result ≡ slice_get events 0) }
    ensures event_data { IfSome result
        (λ found. found.1.now ≡ (event_of found.0).event_data) }
{
    let log = EventLog::new(Some(bytes), Some(last_entry), false);
    let event = log.iter().next()?;
    Some((event, event.event_data()))
}
