use crate::log_inputs::{bytes_and_numbers, log_input, number, push_comma, push_hex};
use crate::v2_headers::algorithm_of;
use rows::hex_digits;
use std::alloc::Global;
use uefi_tcg::v2::{
    EventLog, EventLogHeader, EventLogIter, PcrEvent, PcrEventDigests, Start, event_starting_at,
};
use uefi_tcg::{AlgorithmId, PcrIndex};

/// Appends the digests of an event, after which their iterator stays ended.
fn push_digests(text: &mut String, digests: PcrEventDigests<'_>) -> Option<()> {
    let mut left = digests.into_iter();
    while let Some((algorithm, digest)) = left.next() {
        push_digest(text, algorithm, digest)?;
    }
    if left.next().is_some() {
        text.push_str(", and the iterator goes on").ok()?;
    }
    Some(())
}

/// Appends a digest after its algorithm.
pub(crate) fn push_digest(text: &mut String, algorithm: AlgorithmId, digest: &[u8]) -> Option<()> {
    push_comma(text)?;
    write!(text, "({}, ", algorithm.0).ok()?;
    push_hex(text, digest)?;
    text.push(')').ok()
}

/// Appends an event: where it is in the log's bytes, its PCR, its type, its digests, each after its
/// algorithm, and its data.
pub(crate) fn push_event(text: &mut String, start: usize, event: &PcrEvent<'_>) -> Option<()> {
    let end = start.saturating_add(event.as_bytes().len());
    let (pcr, event_type) = (event.pcr_index().0, event.event_type().0);
    write!(text, "({start}..{end}, {pcr}, {event_type}, [").ok()?;
    push_digests(text, event.digests())?;
    text.push_str("], ").ok()?;
    push_hex(text, event.event_data())?;
    text.push(')').ok()
}

/// Returns the events that an iterator over the log of these bytes gives, after which it stays ended.
fn listed(alloc: Global, bytes: &[u8], events: EventLogIter<'_>) -> Option<String> {
    let mut events = events;
    let mut text = format!(in alloc; "[").ok()?;
    let mut start = events.offset();
    while let Some(event) = events.next() {
        if bytes.get(start..events.offset()) != Some(event.as_bytes()) {
            return format!(in alloc; "the bytes of another event at {start}").ok();
        }
        push_comma(&mut text)?;
        push_event(&mut text, start, &event)?;
        start = events.offset();
    }
    if events.next().is_some() || events.offset() != start {
        return format!(in alloc; "the iterator goes on").ok();
    }
    text.push(']').ok()?;
    Some(text)
}

/// Returns the events of the log from a start on.
pub(crate) fn events_from<'a>(log: &EventLog<'a>, start: Start) -> EventLogIter<'a> {
    match start {
        Start::AfterHeader => log.iter(),
        Start::AfterEvent => log.iter_after_header_event(),
    }
}

/// Returns where a header and its event end.
fn ends_of(header: Option<EventLogHeader<'_>>) -> Option<(usize, usize)> {
    header.map(|header| (header.size_in_bytes(), header.event_size()))
}

/// Returns the events from a start on: the same apart and together with the header.
fn listed_from(alloc: Global, bytes: &[u8], log: &EventLog<'_>, start: Start) -> Option<String> {
    let apart = listed(alloc, bytes, events_from(log, start))?;
    let (header, events) = log.header_and_events(start);
    let together = listed(alloc, bytes, events)?;
    if ends_of(header) != ends_of(log.header()) || apart != together {
        return format!(in alloc; "apart {apart}, together {together}").ok();
    }
    Some(apart)
}

/// Returns where the header of a log and its event end, and the events from either end on.
pub(crate) fn log(alloc: Global, input: &str) -> Option<String> {
    let input = log_input(alloc, input)?;
    let bytes = input.bytes().unwrap_or(&[]);
    let log = EventLog::new(input.bytes(), input.last_entry, false);
    let after_header = listed_from(alloc, bytes, &log, Start::AfterHeader)?;
    let after_event = listed_from(alloc, bytes, &log, Start::AfterEvent)?;
    let ends = ends_of(log.header());
    format!(in alloc; "({ends:?}, {after_header}, {after_event})").ok()
}

/// Returns the event with an index in a log of these bytes.
pub(crate) fn event_at(alloc: Global, bytes: &[u8], index: usize) -> Option<String> {
    let mut events = EventLog::new(Some(bytes), Some(usize::MAX), false).iter();
    for _ in 0..index {
        events.next();
    }
    let start = events.offset();
    let mut text = String::new(alloc);
    push_event(&mut text, start, &events.next()?)?;
    Some(text)
}

/// Returns the offset of an iterator, and the length of its rest.
fn rest_of(events: &EventLogIter<'_>) -> (usize, usize) {
    (events.offset(), events.rest().len())
}

/// Returns the offset and the length of the rest of a log's iterators from both starts, before the
/// first event.
pub(crate) fn rests(alloc: Global, input: &str) -> Option<String> {
    let input = log_input(alloc, input)?;
    let log = EventLog::new(input.bytes(), input.last_entry, false);
    let starts = [Start::AfterHeader, Start::AfterEvent];
    let apart = starts.map(|start| rest_of(&events_from(&log, start)));
    let together = starts.map(|start| rest_of(&log.header_and_events(start).1));
    if apart != together {
        return format!(in alloc; "apart {apart:?}, together {together:?}").ok();
    }
    format!(in alloc; "{apart:?}").ok()
}

/// Returns the event that starts at an offset under the table of the log's header, if it keeps to
/// the last entry.
pub(crate) fn step(alloc: Global, input: &str) -> Option<String> {
    let (bytes, offset, last_entry) = bytes_and_numbers(alloc, input)?;
    let bytes = bytes.as_slice();
    let header = EventLog::new(Some(bytes), Some(usize::MAX), false).header()?;
    let sizes = header.algorithm_digest_sizes();
    let Some(event) = event_starting_at(&sizes, bytes, offset, last_entry) else {
        return format!(in alloc; "None").ok();
    };
    let mut text = String::new(alloc);
    push_event(&mut text, offset, &event)?;
    Some(text)
}

/// Returns the first digest of an algorithm, which comes first, in the first event of a log.
pub(crate) fn digest(alloc: Global, input: &str) -> Option<String> {
    let (algorithm, input) = input.split_once(" ; ")?;
    let input = log_input(alloc, input)?;
    let log = EventLog::new(input.bytes(), input.last_entry, false);
    let event = log.iter().next()?;
    let Some(digest) = event.digest(algorithm_of(algorithm)?) else {
        return format!(in alloc; "None").ok();
    };
    hex_digits(alloc, digest).ok()
}

/// Returns what the iterator over the digests of a log's first event has left at first and after
/// one; and then of it and a copy, after one more of it alone.
pub(crate) fn digest_steps(alloc: Global, input: &str) -> Option<String> {
    let input = log_input(alloc, input)?;
    let log = EventLog::new(input.bytes(), input.last_entry, false);
    let mut left = log.iter().next()?.digests().into_iter();
    let before = (left.len(), left.size_hint());
    left.next();
    let after = (left.len(), left.size_hint());
    let copy = left.clone().ok()?;
    left.next();
    format!(in alloc; "({before:?}, {after:?}, {}, {})", left.len(), copy.len()).ok()
}

/// Returns how many events of a log extended each PCR from 0 to one, which comes first.
pub(crate) fn pcr_counts(alloc: Global, input: &str) -> Option<String> {
    let (most, input) = input.split_once(" ; ")?;
    let input = log_input(alloc, input)?;
    let log = EventLog::new(input.bytes(), input.last_entry, false);
    let mut counts = Vec::new(alloc);
    for pcr in 0..=u32::try_from(number(most)?).ok()? {
        let events = log
            .iter()
            .filter(|event| event.pcr_index() == PcrIndex(pcr));
        counts.push(events.count()).ok()?;
    }
    format!(in alloc; "{:?}", counts.as_slice()).ok()
}
