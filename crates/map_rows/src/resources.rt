use crate::maps::number;
use std::alloc::{Allocator, Global};
use test_support::samples::ROOT_BRIDGE;
use test_support::{Refusing, bytes};
use uefi_map::{
    QwordAddressSpaceDescriptor, ResourceError, ResourceList, ResourceRangeType, parse,
};

/// A resource: its type, both flags, and its five numbers.
type Range = (ResourceRangeType, [u8; 2], [u64; 5]);

/// Returns the fields of a resource.
fn range_of(resource: &QwordAddressSpaceDescriptor) -> Range {
    (
        resource.resource_range_type,
        [resource.general_flags, resource.type_specific_flags],
        [
            resource.granularity,
            resource.address_min,
            resource.address_max,
            resource.translation_offset,
            resource.address_length,
        ],
    )
}

/// Returns the bytes of an input, which is the name of a sample or their digits.
fn list_of(alloc: Global, input: &str) -> Option<Vec<u8>> {
    let digits = if input == "ROOT_BRIDGE" {
        ROOT_BRIDGE
    } else {
        input
    };
    bytes(alloc, digits).ok()
}

/// Returns the resources of the list that the bytes begin with, read without memory.
fn viewed(alloc: Global, input: &[u8]) -> Option<Result<Vec<Range>, ResourceError>> {
    let list = match ResourceList::try_from(input) {
        Ok(list) => list,
        Err(error) => return Some(Err(error)),
    };
    let ranges = list.iter().map(|resource| range_of(&resource));
    Some(Ok(ranges.collect::<Vec<Range>>(alloc).ok()?))
}

/// Returns whether a vector of resources has these.
fn has<A: Allocator>(resources: &Vec<QwordAddressSpaceDescriptor, A>, ranges: &[Range]) -> bool {
    resources
        .as_slice()
        .iter()
        .map(range_of)
        .eq(ranges.iter().copied())
}

/// Returns the resources of the list that the bytes begin with, or the error: the same with memory
/// and without it.
fn read(alloc: Global, heap: &Refusing<Global>, input: &[u8]) -> Option<String> {
    let viewed = viewed(alloc, input)?;
    let is_same = match (parse(heap, input), &viewed) {
        (Err(ResourceError::Memory), _) => return None,
        (Err(error), Err(other)) => error == *other,
        (Ok(list), Ok(ranges)) => has(&list, ranges.as_slice()),
        _ => false,
    };
    if !is_same {
        return format!(in alloc; "others without memory").ok();
    }
    match viewed {
        Ok(ranges) => format!(in alloc; "Ok({:?})", ranges.as_slice()).ok(),
        Err(error) => format!(in alloc; "Err({error:?})").ok(),
    }
}

/// Returns the resources of a list, or the error.
pub(crate) fn resources(alloc: Global, heap: &Refusing<Global>, input: &str) -> Option<String> {
    read(alloc, heap, list_of(alloc, input)?.as_slice())
}

/// Returns the same of [`ROOT_BRIDGE`] with another byte: an offset, and the byte.
pub(crate) fn resources_with_byte(
    alloc: Global,
    heap: &Refusing<Global>,
    input: &str,
) -> Option<String> {
    let (offset, byte) = input.split_once(" ; ")?;
    let byte = bytes(alloc, byte).ok()?.first().copied()?;
    let mut list = bytes(alloc, ROOT_BRIDGE).ok()?;
    *list.get_mut(number(offset)?)? = byte;
    read(alloc, heap, list.as_slice())
}

/// Returns the lengths of prefixes of a list at which the error is another than one byte before,
/// each with the error.
pub(crate) fn changes(alloc: Global, input: &str) -> Option<String> {
    let list = list_of(alloc, input)?;
    let mut changes = Vec::new(alloc);
    for length in 0..=list.len() {
        let (prefix, _) = list.as_slice().split_at(length);
        let change = (length, ResourceList::try_from(prefix).err());
        let last = changes.as_slice().last();
        if last.map(|(_, error): &(usize, Option<ResourceError>)| *error) != Some(change.1) {
            changes.push(change).ok()?;
        }
    }
    format!(in alloc; "{:?}", changes.as_slice()).ok()
}

/// Returns the type that a byte is, and its number.
pub(crate) fn range_type(input: &[u8]) -> Option<(ResourceRangeType, u8)> {
    let range_type = ResourceRangeType::from(*input.first()?);
    Some((range_type, range_type.number()))
}

/// Returns the resource of the record that the bytes begin with, and how many bytes follow it.
pub(crate) fn record(alloc: Global, input: &str) -> Option<String> {
    let input = list_of(alloc, input)?;
    match QwordAddressSpaceDescriptor::read(input.as_slice()) {
        Ok(Some((resource, rest))) => {
            format!(in alloc; "Ok({:?}, {})", range_of(&resource), rest.len()).ok()
        }
        Ok(None) => format!(in alloc; "Ok(None)").ok(),
        Err(error) => format!(in alloc; "Err({error:?})").ok(),
    }
}

/// Returns the count of resources, what is left at first and at last, and whether the iterator
/// stays ended.
pub(crate) fn resource_steps(alloc: Global, input: &str) -> Option<String> {
    let input = list_of(alloc, input)?;
    let list = ResourceList::try_from(input.as_slice()).ok()?;
    let mut left = list.iter();
    let at_first = (list.iter().count(), left.size_hint());
    for _ in list.iter() {
        left.next();
    }
    let at_last = left.len();
    let ended = [left.next().is_none(), left.next().is_none()];
    format!(in alloc; "({at_first:?}, {at_last}, {ended:?})").ok()
}
