use crate::log_inputs::{bytes_and_numbers, log_input, push_comma, push_hex};
use std::alloc::Global;
use uefi_tcg::v1::{EventLog, PcrEvent, event_starting_at};

/// Appends an event: where it is in the log's bytes, its PCR, its type, its digest and its data.
pub(crate) fn push_event(text: &mut String, start: usize, event: &PcrEvent<'_>) -> Option<()> {
    let end = start.saturating_add(event.as_bytes().len());
    let (pcr, event_type) = (event.pcr_index().0, event.event_type().0);
    write!(text, "({start}..{end}, {pcr}, {event_type}, ").ok()?;
    push_hex(text, event.digest().as_slice())?;
    text.push_str(", ").ok()?;
    push_hex(text, event.event_data())?;
    text.push(')').ok()
}

/// Returns the events of a log, after which its iterator stays ended.
pub(crate) fn log(alloc: Global, input: &str) -> Option<String> {
    let input = log_input(alloc, input)?;
    let bytes = input.bytes().unwrap_or(&[]);
    let mut events = EventLog::new(input.bytes(), input.last_entry, false).iter();
    let mut text = format!(in alloc; "[").ok()?;
    let mut start = events.offset();
    while let Some(event) = events.next() {
        if bytes.get(start..events.offset()) != Some(event.as_bytes()) {
            return format!(in alloc; "the bytes of another event at {start}").ok();
        }
        push_comma(&mut text)?;
        push_event(&mut text, start, &event)?;
        start = events.offset();
    }
    if events.next().is_some() || events.offset() != start {
        return format!(in alloc; "the iterator goes on").ok();
    }
    text.push(']').ok()?;
    Some(text)
}

/// Returns the event with an index in a log of these bytes.
pub(crate) fn event_at(alloc: Global, bytes: &[u8], index: usize) -> Option<String> {
    let mut events = EventLog::new(Some(bytes), Some(usize::MAX), false).iter();
    for _ in 0..index {
        events.next();
    }
    let start = events.offset();
    let mut text = String::new(alloc);
    push_event(&mut text, start, &events.next()?)?;
    Some(text)
}

/// Returns the offset of a log's iterator and the length of its rest, before the first event.
pub(crate) fn rest(alloc: Global, input: &str) -> Option<String> {
    let input = log_input(alloc, input)?;
    let events = EventLog::new(input.bytes(), input.last_entry, false).iter();
    let rest = (events.offset(), events.rest().len());
    format!(in alloc; "{rest:?}").ok()
}

/// Returns the event that starts at an offset, if it keeps to the last entry.
pub(crate) fn step(alloc: Global, input: &str) -> Option<String> {
    let (bytes, offset, last_entry) = bytes_and_numbers(alloc, input)?;
    let Some(event) = event_starting_at(bytes.as_slice(), offset, last_entry) else {
        return format!(in alloc; "None").ok();
    };
    let mut text = String::new(alloc);
    push_event(&mut text, offset, &event)?;
    Some(text)
}
