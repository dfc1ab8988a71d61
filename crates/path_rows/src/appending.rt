use rows::hex_digits;
use std::alloc::{Allocator, Global};
use test_support::{Refusing, bytes};
use uefi_path::build::{BuildError, DevicePathBuilder, DevicePathVecBuilder};
use uefi_path::{BoxedDevicePath, DevicePath, DevicePathNode};

/// Returns the path that the bytes begin with, and the bytes after it.
fn path_and_rest<'a>(input: &'a [u8]) -> Option<(DevicePath<'a>, &'a [u8])> {
    let path = DevicePath::try_from(input).ok()?;
    Some((path, input.strip_prefix(path.as_bytes())?))
}

/// Returns the bytes of a path in a box.
fn boxed_digits<A: Allocator>(alloc: Global, boxed: &BoxedDevicePath<A>) -> Option<String> {
    hex_digits(alloc, boxed.as_path().as_bytes()).ok()
}

/// Appends the path that follows the first one.
pub(crate) fn append_path(alloc: Global, heap: &Refusing<Global>, input: &str) -> Option<String> {
    let input = bytes(alloc, input).ok()?;
    let (path, rest) = path_and_rest(input.as_slice())?;
    let other = DevicePath::try_from(rest).ok()?;
    boxed_digits(alloc, &path.append_path(heap, &other).ok()?)
}

/// Appends the node that follows the path.
pub(crate) fn append_node(alloc: Global, heap: &Refusing<Global>, input: &str) -> Option<String> {
    let input = bytes(alloc, input).ok()?;
    let (path, rest) = path_and_rest(input.as_slice())?;
    let node = DevicePathNode::try_from(rest).ok()?;
    match path.append_node(heap, &node) {
        Ok(boxed) => boxed_digits(alloc, &boxed),
        Err(BuildError::Memory) => None,
        Err(error) => format!(in alloc; "Err({error:?})").ok(),
    }
}

/// Appends the first instance of the path that follows the first one.
pub(crate) fn append_instance(
    alloc: Global,
    heap: &Refusing<Global>,
    input: &str,
) -> Option<String> {
    let input = bytes(alloc, input).ok()?;
    let (path, rest) = path_and_rest(input.as_slice())?;
    let other = DevicePath::try_from(rest).ok()?;
    let instance = other.instance_iter().next()?;
    boxed_digits(alloc, &path.append_instance(heap, &instance).ok()?)
}

/// Returns the path of a vector of bytes, in a box.
pub(crate) fn boxed(alloc: Global, heap: &Refusing<Global>, input: &str) -> Option<String> {
    let input = bytes(alloc, input).ok()?;
    let input = Vec::from_slice(heap, input.as_slice()).ok()?;
    match BoxedDevicePath::try_from(input) {
        Ok(boxed) => boxed_digits(alloc, &boxed),
        Err(error) => format!(in alloc; "Err({error:?})").ok(),
    }
}

/// Returns a copy of the path that the bytes begin with, in a box.
pub(crate) fn path_to_boxed(alloc: Global, heap: &Refusing<Global>, input: &str) -> Option<String> {
    let input = bytes(alloc, input).ok()?;
    let path = DevicePath::try_from(input.as_slice()).ok()?;
    boxed_digits(alloc, &path.to_boxed(heap).ok()?)
}

/// Returns a copy of the first instance of the path that the bytes begin with, in a box.
pub(crate) fn instance_to_boxed(
    alloc: Global,
    heap: &Refusing<Global>,
    input: &str,
) -> Option<String> {
    let input = bytes(alloc, input).ok()?;
    let path = DevicePath::try_from(input.as_slice()).ok()?;
    let boxed = path.instance_iter().next()?.to_boxed(heap).ok()?;
    hex_digits(alloc, boxed.as_instance().as_bytes()).ok()
}

/// Builds a path of the nodes of another one in the buffer.
fn build_in<'a>(buffer: &'a mut [u8], path: &DevicePath<'_>) -> Result<DevicePath<'a>, BuildError> {
    let mut builder = DevicePathBuilder::with_buf(buffer);
    for node in path.node_iter() {
        builder = builder.push(&node)?;
    }
    builder.finalize()
}

/// Builds a path of the nodes of another one in a vector.
fn build_boxed<A: Allocator>(
    alloc: A,
    path: &DevicePath<'_>,
) -> Result<BoxedDevicePath<A>, BuildError> {
    let mut builder = DevicePathVecBuilder::new(alloc);
    for node in path.node_iter() {
        builder = builder.push(&node)?;
    }
    builder.finalize()
}

/// Returns the path that is built of the nodes of the path that the bytes begin with, in a vector
/// as in a buffer.
pub(crate) fn rebuilt(alloc: Global, heap: &Refusing<Global>, input: &str) -> Option<String> {
    let input = bytes(alloc, input).ok()?;
    let path = DevicePath::try_from(input.as_slice()).ok()?;
    let mut buffer = vec![in alloc; 0xeeu8; 200].ok()?;
    let boxed = match build_boxed(heap, &path) {
        Ok(boxed) => boxed,
        Err(BuildError::Memory) => return None,
        Err(error) => return format!(in alloc; "Err({error:?})").ok(),
    };
    match build_in(buffer.as_mut_slice(), &path) {
        Ok(built) if built == boxed.as_path() => boxed_digits(alloc, &boxed),
        _ => format!(in alloc; "another path in a buffer").ok(),
    }
}

/// Returns the errors of pushing the node that the bytes begin with to a builder without room, and
/// to one in a vector.
pub(crate) fn pushed(alloc: Global, heap: &Refusing<Global>, input: &str) -> Option<String> {
    let input = bytes(alloc, input).ok()?;
    let node = DevicePathNode::try_from(input.as_slice()).ok()?;
    let mut none: [u8; 0] = [];
    let in_buffer = DevicePathBuilder::with_buf(&mut none).push(&node).err();
    let in_vector = DevicePathVecBuilder::new(heap).push(&node).err();
    if in_vector == Some(BuildError::Memory) {
        return None;
    }
    format!(in alloc; "({in_buffer:?}, {in_vector:?})").ok()
}
