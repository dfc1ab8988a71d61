use crate::log_inputs::number;
use crate::v1_logs::push_event;
use rows::hex_digits;
use std::alloc::Global;
use test_support::{Refusing, bytes};
use uefi_base::{Error, Status};
use uefi_tcg::v1::{PcrEvent, Sha1Digest, write_event};
use uefi_tcg::v2::{PcrEventInputs, write_event_inputs};
use uefi_tcg::{EventType, PcrIndex};

/// What is written: a PCR, a type, and data.
#[derive(Drop)]
struct Written {
    pcr_index: PcrIndex,
    event_type: EventType,
    event_data: Vec<u8>,
}

/// Returns what an input has: the numbers of a PCR and of a type, and data.
fn written_of(alloc: Global, input: &str) -> Option<Written> {
    let (pcr_index, rest) = input.split_once(" ; ")?;
    let (event_type, event_data) = rest.split_once(" ; ")?;
    Some(Written {
        pcr_index: PcrIndex(u32::try_from(number(pcr_index)?).ok()?),
        event_type: EventType(u32::try_from(number(event_type)?).ok()?),
        event_data: bytes(alloc, event_data).ok()?,
    })
}

/// Returns the digest that an input begins with, and the rest of the input.
fn digest_and_rest(alloc: Global, input: &str) -> Option<(Sha1Digest, &str)> {
    let (digest, rest) = input.split_once(" ; ")?;
    let digest = bytes(alloc, digest).ok()?;
    Some((*digest.as_slice().first_chunk()?, rest))
}

/// Returns what came of writing: a text of what was written, or the error.
fn outcome(alloc: Global, text: &str, error: Option<Error<Option<usize>>>) -> Option<String> {
    let Some(error) = error else {
        return format!(in alloc; "Ok({text})").ok();
    };
    let (status, data) = (error.status(), error.data());
    format!(in alloc; "Err({status}, {data:?})").ok()
}

/// Returns the length that was written, or the error.
fn end_of(alloc: Global, end: Result<usize, Error<Option<usize>>>) -> Option<String> {
    match end {
        Ok(end) => {
            let text = format!(in alloc; "{end}").ok()?;
            outcome(alloc, text.as_str(), None)
        }
        Err(error) => outcome(alloc, "", Some(error)),
    }
}

/// Returns both outcomes, and the bytes that both buffers have afterwards.
fn both(alloc: Global, outcomes: (&str, &str), buffers: (&[u8], &[u8])) -> Option<String> {
    let buffer = hex_digits(alloc, buffers.0).ok()?;
    if buffers.0 != buffers.1 {
        let other = hex_digits(alloc, buffers.1).ok()?;
        return format!(in alloc; "the buffers {buffer} and {other}").ok();
    }
    format!(in alloc; "{}, {}, {buffer}", outcomes.0, outcomes.1).ok()
}

/// Writes an event into a buffer, and returns the view of it, or the error.
fn viewed(
    alloc: Global,
    buffer: &mut [u8],
    digest: Sha1Digest,
    written: &Written,
) -> Option<String> {
    let (pcr_index, event_type) = (written.pcr_index, written.event_type);
    let event_data = written.event_data.as_slice();
    match PcrEvent::new_in_buffer(buffer, pcr_index, event_type, digest, event_data) {
        Ok(event) => {
            let mut text = String::new(alloc);
            push_event(&mut text, 0, &event)?;
            outcome(alloc, text.as_str(), None)
        }
        Err(error) => outcome(alloc, "", Some(error)),
    }
}

/// Writes an event into a buffer of bytes ff: its length, a digest, a PCR, a type and data are the
/// input. Returns the view, or the error, and what [`write_event`] returns, which leaves the same
/// buffer.
pub(crate) fn write_v1(alloc: Global, input: &str) -> Option<String> {
    let (length, input) = input.split_once(" ; ")?;
    let (digest, input) = digest_and_rest(alloc, input)?;
    let written = written_of(alloc, input)?;
    let mut buffer = vec![in alloc; 0xffu8; number(length)?].ok()?;
    let mut other = Vec::from_slice(alloc, buffer.as_slice()).ok()?;
    let view = viewed(alloc, buffer.as_mut_slice(), digest, &written)?;
    let end = write_event(
        other.as_mut_slice(),
        written.pcr_index,
        written.event_type,
        digest,
        written.event_data.as_slice(),
    );
    let end = end_of(alloc, end)?;
    let outcomes = (view.as_str(), end.as_str());
    both(alloc, outcomes, (buffer.as_slice(), other.as_slice()))
}

/// Returns the event in a box with a digest, a PCR, a type and data.
pub(crate) fn box_v1(alloc: Global, heap: &Refusing<Global>, input: &str) -> Option<String> {
    let (digest, input) = digest_and_rest(alloc, input)?;
    let written = written_of(alloc, input)?;
    let (pcr_index, event_type) = (written.pcr_index, written.event_type);
    let event_data = written.event_data.as_slice();
    match PcrEvent::new_in_box(heap, pcr_index, event_type, digest, event_data) {
        Ok(boxed) => hex_digits(alloc, boxed.as_event().as_bytes()).ok(),
        Err(error) if error == Error::new(Status::OUT_OF_RESOURCES, ()) => None,
        Err(error) => format!(in alloc; "{error}").ok(),
    }
}

/// Writes inputs into a buffer of bytes ff: its length, a PCR, a type and data are the input. Returns
/// the bytes of the view, or the error, and what [`write_event_inputs`] returns, which leaves the
/// same buffer.
pub(crate) fn write_v2(alloc: Global, input: &str) -> Option<String> {
    let (length, input) = input.split_once(" ; ")?;
    let written = written_of(alloc, input)?;
    let (pcr_index, event_type) = (written.pcr_index, written.event_type);
    let event_data = written.event_data.as_slice();
    let mut buffer = vec![in alloc; 0xffu8; number(length)?].ok()?;
    let mut other = Vec::from_slice(alloc, buffer.as_slice()).ok()?;
    let view = viewed_inputs(alloc, buffer.as_mut_slice(), &written)?;
    let end = write_event_inputs(other.as_mut_slice(), pcr_index, event_type, event_data);
    let end = end_of(alloc, end)?;
    let outcomes = (view.as_str(), end.as_str());
    both(alloc, outcomes, (buffer.as_slice(), other.as_slice()))
}

/// Writes inputs into a buffer, and returns the bytes of the view of them, or the error.
fn viewed_inputs(alloc: Global, buffer: &mut [u8], written: &Written) -> Option<String> {
    let (pcr_index, event_type) = (written.pcr_index, written.event_type);
    let event_data = written.event_data.as_slice();
    match PcrEventInputs::new_in_buffer(buffer, pcr_index, event_type, event_data) {
        Ok(inputs) => {
            let text = hex_digits(alloc, inputs.as_bytes()).ok()?;
            outcome(alloc, text.as_str(), None)
        }
        Err(error) => outcome(alloc, "", Some(error)),
    }
}

/// Returns the inputs in a box with a PCR, a type and data.
pub(crate) fn box_v2(alloc: Global, heap: &Refusing<Global>, input: &str) -> Option<String> {
    let written = written_of(alloc, input)?;
    let (pcr_index, event_type) = (written.pcr_index, written.event_type);
    let event_data = written.event_data.as_slice();
    match PcrEventInputs::new_in_box(heap, pcr_index, event_type, event_data) {
        Ok(boxed) => hex_digits(alloc, boxed.as_inputs().as_bytes()).ok(),
        Err(error) if error == Error::new(Status::OUT_OF_RESOURCES, ()) => None,
        Err(error) => format!(in alloc; "{error}").ok(),
    }
}

/// Returns whether inputs with a PCR, a type and data, in a box, are equal to those with other data,
/// which come first, in a buffer.
pub(crate) fn equal_inputs(alloc: Global, heap: &Refusing<Global>, input: &str) -> Option<String> {
    let (other, input) = input.split_once(" ; ")?;
    let (other, written) = (bytes(alloc, other).ok()?, written_of(alloc, input)?);
    let (pcr_index, event_type) = (written.pcr_index, written.event_type);
    let event_data = written.event_data.as_slice();
    let boxed = PcrEventInputs::new_in_box(heap, pcr_index, event_type, event_data).ok()?;
    let mut buffer = [0; 64];
    let other = other.as_slice();
    let inputs = PcrEventInputs::new_in_buffer(&mut buffer, pcr_index, event_type, other).ok()?;
    let are_equal = boxed.as_inputs() == inputs;
    format!(in alloc; "{are_equal}").ok()
}

/// Returns whether an event with a digest, a PCR, a type and data, in a box, is equal to the one with
/// other data, which come first, in a buffer.
pub(crate) fn equal_written(alloc: Global, heap: &Refusing<Global>, input: &str) -> Option<String> {
    let (other, input) = input.split_once(" ; ")?;
    let other = bytes(alloc, other).ok()?;
    let (digest, input) = digest_and_rest(alloc, input)?;
    let written = written_of(alloc, input)?;
    let (pcr_index, event_type) = (written.pcr_index, written.event_type);
    let event_data = written.event_data.as_slice();
    let boxed = PcrEvent::new_in_box(heap, pcr_index, event_type, digest, event_data).ok()?;
    let mut buffer = [0; 64];
    let other = other.as_slice();
    let event = PcrEvent::new_in_buffer(&mut buffer, pcr_index, event_type, digest, other).ok()?;
    let are_equal = boxed.as_event() == event;
    format!(in alloc; "{are_equal}").ok()
}
