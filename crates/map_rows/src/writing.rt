use crate::maps::{fields, meta_and_buffer, meta_of, number};
use crate::values::descriptor;
use rows::hex_digits;
use std::alloc::{Allocator, Global};
use test_support::{Refusing, bytes};
use uefi_map::{
    MemoryDescriptor, MemoryMap, MemoryMapMeta, MemoryMapMut, MemoryMapOwned, MemoryMapRefMut,
    MemoryType,
};

/// A descriptor that is set at an index of a map.
#[derive(Drop)]
struct Setting {
    index: usize,
    descriptor: MemoryDescriptor,
    meta: MemoryMapMeta,
    map: Vec<u8>,
}

/// Returns what an input has: an index, forty bytes of a descriptor, the stride and a map.
fn setting_of(alloc: Global, input: &str) -> Option<Setting> {
    let parts = input.split(" ; ").collect::<Vec<&str>>(alloc).ok()?;
    let [index, digits, desc_size, map] = parts.as_slice() else {
        return None;
    };
    let map = bytes(alloc, map).ok()?;
    Some(Setting {
        index: number(index)?,
        descriptor: descriptor(bytes(alloc, digits).ok()?.as_slice())?,
        meta: meta_of(map.len(), number(desc_size)?),
        map,
    })
}

/// Sets a descriptor: returns the one that was there, and the one that is there after, then the
/// count, the key, whether the descriptors are sorted, and the bytes of the map.
fn set_in<M: MemoryMapMut>(
    alloc: Global,
    map: &mut M,
    index: usize,
    descriptor: MemoryDescriptor,
) -> Option<String> {
    let before = map.set(index, descriptor);
    let entries = [before, map.get(index)].map(|entry| entry.map(|it| fields(&it)));
    let seen = (map.len(), map.key(), map.is_sorted());
    let buffer = hex_digits(alloc, map.buffer()).ok()?;
    format!(in alloc; "{entries:?}, {seen:?}, {buffer}").ok()
}

/// Sets a descriptor of a map that owns its buffer.
fn set_owned<A: Allocator>(alloc: Global, heap: A, setting: &Setting) -> Option<String> {
    let buffer = Vec::from_slice(heap, setting.map.as_slice()).ok()?;
    let mut map = MemoryMapOwned::from_initialized_mem(buffer, setting.meta).ok()?;
    set_in(alloc, &mut map, setting.index, setting.descriptor)
}

/// Returns what [`set_in`] returns: the same for a map over a buffer, whose bytes are then those of
/// the map, and for one that owns its buffer.
pub(crate) fn set(alloc: Global, heap: &Refusing<Global>, input: &str) -> Option<String> {
    let mut setting = setting_of(alloc, input)?;
    let owned = set_owned(alloc, heap, &setting)?;
    let mut map = MemoryMapRefMut::new(setting.map.as_mut_slice(), setting.meta).ok()?;
    let text = set_in(alloc, &mut map, setting.index, setting.descriptor)?;
    let buffer = hex_digits(alloc, setting.map.as_slice()).ok()?;
    if owned != text || !text.as_str().ends_with(buffer.as_str()) {
        return format!(in alloc; "{text}, and also {owned}, {buffer}").ok();
    }
    Some(text)
}

/// Sets a descriptor by [`MemoryMapMut::set_at`], and returns the count, the first descriptor and the
/// one that was set, by `at`.
pub(crate) fn set_at(alloc: Global, input: &str) -> Option<String> {
    let mut setting = setting_of(alloc, input)?;
    if !setting.meta.is_map_within(setting.map.len()) {
        return None;
    }
    let mut map = MemoryMapRefMut::over(setting.map.as_mut_slice(), setting.meta);
    if map.len() <= setting.index {
        return None;
    }
    map.set_at(setting.index, setting.descriptor);
    let seen = (
        map.len(),
        fields(&map.at(0)),
        fields(&map.at(setting.index)),
    );
    format!(in alloc; "{seen:?}").ok()
}

/// The count of a map, the lengths of its buffer, and the type of its second descriptor once a byte
/// of the buffer is written.
type Written = (usize, usize, usize, Option<u32>);

/// Writes a byte into the buffer of a map.
fn write_in<M: MemoryMapMut>(map: &mut M, offset: usize, byte: u8) -> Option<Written> {
    let (count, length, length_mut) = (map.len(), map.buffer().len(), map.buffer_mut().len());
    *map.buffer_mut().get_mut(offset)? = byte;
    let MemoryType(second) = map.get(1)?.ty;
    Some((count, length, length_mut, Some(second)))
}

/// Writes a byte into the buffer of a map that owns it.
fn write_owned<A: Allocator>(
    heap: A,
    meta: MemoryMapMeta,
    buffer: &[u8],
    offset: usize,
    byte: u8,
) -> Option<Written> {
    let buffer = Vec::from_slice(heap, buffer).ok()?;
    let mut map = MemoryMapOwned::from_initialized_mem(buffer, meta).ok()?;
    write_in(&mut map, offset, byte)
}

/// Writes a byte at an offset into the buffers of a map, which come after both: returns what
/// [`write_in`] does of a map over a buffer, the byte that this then has there, and what it does of a
/// map that owns its buffer.
pub(crate) fn write_byte(alloc: Global, heap: &Refusing<Global>, input: &str) -> Option<String> {
    let (offset, rest) = input.split_once(" ; ")?;
    let (byte, rest) = rest.split_once(" ; ")?;
    let offset = number(offset)?;
    let byte = bytes(alloc, byte).ok()?.first().copied()?;
    let (meta, mut buffer) = meta_and_buffer(alloc, rest)?;
    let owned = write_owned(heap, meta, buffer.as_slice(), offset, byte)?;
    let mut map = MemoryMapRefMut::new(buffer.as_mut_slice(), meta).ok()?;
    let borrowed = write_in(&mut map, offset, byte)?;
    let found = buffer.get(offset).copied()?;
    format!(in alloc; "{borrowed:?}, {found}, {owned:?}").ok()
}
