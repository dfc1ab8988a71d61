use crate::samples::bytes_of;
use crate::texts::units;
use rows::hex_digits;
use std::alloc::Global;
use tcg_event::{
    BootOrder, ImageLoadEvent, PlatformFirmwareBlob, PlatformFirmwareBlob2, TaggedEvents,
    VariableData,
};
use test_support::bytes;
use uefi_tcg::UintnSize;
use uefi_tcg::v2::EventLogHeader;

/// Returns the blob that the bytes are: its address and its length.
pub(crate) fn blob(input: &[u8]) -> Option<(u64, u64)> {
    let blob = PlatformFirmwareBlob::read(input)?;
    Some((blob.base, blob.length))
}

/// Returns the description, the address and the length of the blob that the bytes are.
pub(crate) fn described_blob(alloc: Global, input: &str) -> Option<String> {
    let input = bytes(alloc, input).ok()?;
    let Some(described) = PlatformFirmwareBlob2::read(input.as_slice()) else {
        return format!(in alloc; "None").ok();
    };
    let description = hex_digits(alloc, described.description).ok()?;
    let blob = described.blob;
    format!(in alloc; "({description}, {}, {})", blob.base, blob.length).ok()
}

/// Returns, of the header that the bytes begin with, the count of algorithms, its length and that of
/// its event.
pub(crate) fn header(input: &[u8]) -> Option<(usize, usize, usize)> {
    let header = EventLogHeader::read(input)?;
    let count = header.algorithm_digest_sizes().len();
    Some((count, header.size_in_bytes(), header.event_size()))
}

/// Returns the tagged events that the bytes begin with, each with its number and its data, and the
/// rest.
pub(crate) fn tagged_events(alloc: Global, input: &str) -> Option<String> {
    let input = bytes(alloc, input).ok()?;
    let mut text = String::new(alloc);
    let mut events = TaggedEvents::new(input.as_slice());
    for _ in 0..input.len() {
        let Some(event) = events.next() else {
            break;
        };
        let data = hex_digits(alloc, event.data).ok()?;
        write!(text, "({}, {data}) ", event.id).ok()?;
    }
    let rest = hex_digits(alloc, events.rest()).ok()?;
    write!(text, "rest: {rest}").ok()?;
    Some(text)
}

/// Returns the GUID, the units of the name and the data of the variable that the bytes are.
pub(crate) fn variable(alloc: Global, input: &str) -> Option<String> {
    let input = bytes(alloc, input).ok()?;
    let Some(variable) = VariableData::read(input.as_slice()) else {
        return format!(in alloc; "None").ok();
    };
    let name = units(alloc, variable.name)?;
    let data = hex_digits(alloc, variable.data).ok()?;
    format!(in alloc; "({}, {:?}, {data})", variable.guid, name.as_slice()).ok()
}

/// Returns the size of `UINTN`s that an input begins with, and its bytes.
pub(crate) fn size_and_bytes(alloc: Global, input: &str) -> Option<(UintnSize, Vec<u8>)> {
    let (size, digits) = input.split_once(" ; ")?;
    let size = match size {
        "4" => UintnSize::Four,
        _ => UintnSize::Eight,
    };
    Some((size, bytes_of(alloc, digits)?))
}

/// Returns where in memory the image is, its length there, the address that it was linked for, its
/// device path and the rest.
pub(crate) fn image(alloc: Global, input: &str) -> Option<String> {
    let (size, input) = size_and_bytes(alloc, input)?;
    let Some(image) = ImageLoadEvent::read(input.as_slice(), size) else {
        return format!(in alloc; "None").ok();
    };
    let numbers = [
        image.location_in_memory,
        image.length_in_memory,
        image.link_time_address,
    ];
    let path = hex_digits(alloc, image.device_path).ok()?;
    let rest = hex_digits(alloc, image.rest).ok()?;
    format!(in alloc; "({numbers:?}, {path}, {rest})").ok()
}

/// Returns the numbers of an order: the same by their indices as by the iterator.
pub(crate) fn boot_order(alloc: Global, input: &str) -> Option<String> {
    let input = bytes(alloc, input).ok()?;
    let Some(order) = BootOrder::read(input.as_slice()) else {
        return format!(in alloc; "None").ok();
    };
    let numbers = units(alloc, order.numbers())?;
    if !order.iter().eq(numbers.as_slice().iter().copied()) {
        return format!(in alloc; "another order").ok();
    }
    format!(in alloc; "{:?}", numbers.as_slice()).ok()
}
