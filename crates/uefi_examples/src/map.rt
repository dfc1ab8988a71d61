ghost use Rattle.std.specs.Prelude.{◌≡◌, ◌≢◌, ◌^◌, ◌<◌, ◌≤◌, ◌↔◌, ℕ, List, length, sum_by, slice_get, slice_set, string_bytes, SomeIff, Some, IsTrue, IsNone, IsSome, IfNone, IfSome, IfOk, OnSome};
ghost use Rattle.std.specs.Ordering.{nat_cmp};
ghost use Rattle.uefi_map.specs.memory.Descriptor.{descriptor_bytes, zero_descriptor};
ghost use Rattle.uefi_base.specs.Flags.{has_bits};
ghost use Rattle.uefi_map.specs.memory.Map.{IsMap, IsWithDescriptor, count_of, entries_of};
ghost use Rattle.uefi_map.specs.memory.Texts.{map_error_text};
ghost use Rattle.uefi_map.specs.memory.Views.{attribute_bits, entries_left, key_number, mut_bytes, mut_meta, ref_bytes, ref_meta};

use std::alloc::{AllocError, Global};
use std::cmp::Ordering;
use uefi_map::laws::stride_free;
use uefi_map::{
    MemoryAttribute, MemoryDescriptor, MemoryMap, MemoryMapError, MemoryMapIter, MemoryMapKey,
    MemoryMapMeta, MemoryMapMut, MemoryMapOwned, MemoryMapRef, MemoryMapRefMut,
};

/// Returns all entries of a map, by `collect`.
pub fn all_entries(
    alloc: Global,
    map: &MemoryMapRef<'_>,
) -> Result<Vec<MemoryDescriptor>, AllocError>
    ensures { IfOk result
        (λ entries. entries.items ≡ entries_of (ref_bytes map.now) (ref_meta map.now)) }
{
    map.entries().collect(alloc)
}

/// Returns the entries of bytes that are a map, and none of others.
pub fn entries_in(
    alloc: Global,
    bytes: &[u8],
    meta: MemoryMapMeta,
) -> Result<Vec<MemoryDescriptor>, AllocError>
    ensures { IfOk result (λ entries. IsMap (length bytes.now) meta
        → entries.items ≡ entries_of bytes.now meta) }
{
    match MemoryMapRef::new(bytes, meta) {
        Ok(map) => all_entries(alloc, &map),
        Err(_) => Ok(Vec::new(alloc)),
    }
}

/// Returns the pages of all entries of any map, by `for`, where their sum fits.
pub fn page_sum<M: MemoryMap>(map: &M) -> Option<u64>
    ensures sum { let entries = entries_of (M.bytes map.now) (M.meta map.now) in
        IfSome result (λ pages. pages ≡ sum_by (λ d. d.page_count) entries) }
    ensures too_many { let entries = entries_of (M.bytes map.now) (M.meta map.now) in
        IsNone result → 2 ^ 64 ≤ sum_by (λ d. d.page_count) entries }
{
    let mut pages = 0u64;
    for entry in map.entries() {
        pages = pages.checked_add(entry.page_count)?;
    }
    Some(pages)
}

/// Returns the count of pages in a buffer of firmware's, or `None` if it holds no map or the sum
/// doesn't fit.
pub fn pages_in(buffer: &[u8], meta: MemoryMapMeta) -> Option<u64>
    ensures sum { let entries = entries_of buffer.now meta in
        IfSome result (λ pages. pages ≡ sum_by (λ d. d.page_count) entries) }
    ensures map { IsSome result → IsMap (length buffer.now) meta }
    ensures too_many { let entries = entries_of buffer.now meta in
        IsNone result → IsMap (length buffer.now) meta
        → 2 ^ 64 ≤ sum_by (λ d. d.page_count) entries }
{
    let map = MemoryMapRef::new(buffer, meta).ok()?;
    page_sum(&map)
}

/// Returns all entries of a map: those of every map with the same forty bytes of each descriptor,
/// whatever the rest of each stride and the bytes after the map are.
pub fn entries_by_descriptors(
    alloc: Global,
    map: &MemoryMapRef<'_>,
) -> Result<Vec<MemoryDescriptor>, AllocError>
    ensures { let meta = ref_meta map.now in IfOk result (λ entries. (other : List ℕ)
        → ((i : ℕ) → i < count_of meta → descriptor_bytes other meta.desc_size i
        ≡ descriptor_bytes (ref_bytes map.now) meta.desc_size i)
        → entries.items ≡ entries_of other meta) }
{
    stride_free();
    all_entries(alloc, map)
}

/// Returns how many entries a map has, by `count`.
pub fn entry_count(map: &MemoryMapRef<'_>) -> usize
    ensures { result ≡ length (entries_of (ref_bytes map.now) (ref_meta map.now)) }
{
    map.entries().count()
}

/// Returns how many entries are still to come, by `len`.
pub fn count_left(entries: &MemoryMapIter<'_>) -> usize
    ensures { result ≡ length (entries_left entries.now) }
{
    entries.len()
}

/// Returns the same as both bounds, by `size_hint`.
pub fn bounds_of_left(entries: &MemoryMapIter<'_>) -> (usize, Option<usize>)
    ensures least { result.0 ≡ length (entries_left entries.now) }
    ensures most { result.1 ≡ Some (length (entries_left entries.now)) }
{
    entries.size_hint()
}

/// Sets a descriptor in any map and reads it there: the same descriptor. Its forty bytes alone are
/// written.
pub fn set_and_get<M: MemoryMapMut>(map: &mut M, i: usize, d: MemoryDescriptor) -> MemoryDescriptor
    requires { i < count_of (M.MemoryMap.meta map.old) }
    ensures read { result ≡ d }
    ensures written { let bytes = M.MemoryMap.bytes in
        IsWithDescriptor (bytes map.old) (M.MemoryMap.meta map.old) i d (bytes map.new) }
{
    map.set_at(i, d);
    map.at(i)
}

/// Returns whether a descriptor stays as it was when another is set: always.
pub fn other_entry_stays<M: MemoryMapMut>(
    map: &mut M,
    i: usize,
    d: MemoryDescriptor,
    other: usize,
) -> bool
    requires index { i < count_of (M.MemoryMap.meta map.old) }
    requires other { other < count_of (M.MemoryMap.meta map.old) }
    requires apart { other ≢ i }
    ensures stays { IsTrue result }
    ensures written { let bytes = M.MemoryMap.bytes in
        IsWithDescriptor (bytes map.old) (M.MemoryMap.meta map.old) i d (bytes map.new) }
{
    stride_free();
    // The sizes are those of a map.
    let _meta = map.meta();
    let before = map.at(other);
    map.set_at(i, d);
    map.at(other) == before
}

/// Does what [`set_and_get`] does in a map over a buffer, or returns `None` if the buffer is no map
/// or has no such descriptor.
pub fn set_and_get_in(
    buffer: &mut [u8],
    meta: MemoryMapMeta,
    i: usize,
    d: MemoryDescriptor,
) -> Option<MemoryDescriptor>
    ensures { SomeIff result (IsMap (length buffer.old) meta × (i < count_of meta)) d }
{
    let mut map = MemoryMapRefMut::new(buffer, meta).ok()?;
    map.set(i, d)?;
    map.get(i)
}

/// Sets a descriptor in a buffer that is a map: of what the caller lent, its forty bytes change. A
/// buffer that is no map, or has no such descriptor, stays as it was.
pub fn set_in(buffer: &mut [u8], meta: MemoryMapMeta, i: usize, d: MemoryDescriptor) -> bool
    ensures accepted { IsTrue result ↔ (IsMap (length buffer.old) meta × (i < count_of meta)) }
    ensures written { IsTrue result → IsWithDescriptor buffer.old meta i d buffer.new }
    ensures unchanged { (IsTrue result → ⊥) → buffer.new ≡ buffer.old }
{
    if !meta.is_map_within(buffer.len()) {
        return false;
    }
    let mut map = MemoryMapRefMut::over(buffer, meta);
    map.set(i, d).is_some()
}

/// Writes a byte through the buffer of any map. The map's sizes stay.
pub fn write_byte<M: MemoryMapMut>(map: &mut M, offset: usize, byte: u8)
    requires { offset < length (M.MemoryMap.bytes map.old) }
    ensures bytes { let bytes = M.MemoryMap.bytes in
        bytes map.new ≡ slice_set (bytes map.old) offset byte }
    ensures meta { M.MemoryMap.meta map.new ≡ M.MemoryMap.meta map.old }
    ensures same_buffer { M.same_buffer map.old map.new }
{
    map.buffer_mut()[offset] = byte;
}

/// Does the same in a buffer that the caller lent.
pub fn write_byte_in(buffer: &mut [u8], meta: MemoryMapMeta, offset: usize, byte: u8)
    requires map { IsMap (length buffer.old) meta }
    requires within { offset < length buffer.old }
    ensures { buffer.new ≡ slice_set buffer.old offset byte }
{
    let mut map = MemoryMapRefMut::over(buffer, meta);
    write_byte(&mut map, offset, byte);
}

/// Returns how many entries a map of a vector's bytes has: as many as it was made with.
pub fn owned_count(bytes: Vec<u8>, meta: MemoryMapMeta) -> Option<usize>
    ensures { SomeIff result (IsMap (length bytes.items) meta) (count_of meta) }
{
    match MemoryMapOwned::from_initialized_mem(bytes, meta) {
        Ok(map) => Some(map.len()),
        Err(_) => None,
    }
}

/// Returns whether two descriptors are equal: exactly where all their fields are.
pub fn is_same_descriptor(d: &MemoryDescriptor, other: &MemoryDescriptor) -> bool
    ensures { IsTrue result ↔ (d.now ≡ other.now) }
{
    d == other
}

/// Returns whether runtime services need the memory.
pub fn is_runtime(d: &MemoryDescriptor) -> bool
    ensures { result ≡ has_bits (attribute_bits d.now.att) 0x8000000000000000 }
{
    d.att.contains(MemoryAttribute::RUNTIME)
}

/// Returns the default attributes: no bit is set.
pub fn no_attributes() -> MemoryAttribute
    ensures { attribute_bits result ≡ 0 }
{
    MemoryAttribute::default()
}

/// Returns the order of attributes: that of their bits as numbers.
pub fn attribute_order(one: &MemoryAttribute, other: &MemoryAttribute) -> Ordering
    ensures { result ≡ nat_cmp (attribute_bits one.now) (attribute_bits other.now) }
{
    one.cmp(other)
}

/// Returns whether two sets of attributes are equal: exactly where their bits are.
pub fn are_same_attributes(one: MemoryAttribute, other: MemoryAttribute) -> bool
    ensures { IsTrue result ↔ (attribute_bits one ≡ attribute_bits other) }
{
    one == other
}

/// Returns the default descriptor: every field is zero.
pub fn no_memory() -> MemoryDescriptor
    ensures { result ≡ zero_descriptor }
{
    MemoryDescriptor::default()
}

/// Returns the default key: it is 0.
pub fn no_key() -> MemoryMapKey
    ensures { key_number result ≡ 0 }
{
    MemoryMapKey::default()
}

/// Returns whether two keys are equal: exactly where their numbers are.
pub fn is_same_key(key: MemoryMapKey, other: MemoryMapKey) -> bool
    ensures { IsTrue result ↔ (key_number key ≡ key_number other) }
{
    key == other
}

/// Returns the text of an error.
pub fn map_fault_text(alloc: Global, error: &MemoryMapError) -> Result<String, AllocError>
    ensures { IfOk result (λ text. string_bytes text ≡ map_error_text error.now) }
{
    error.to_string(alloc)
}

/// Returns the first entry of a map and clears it; a map without entries stays as it was. An entry
/// is a value, so the map can be written to while the entry is still in use.
pub fn take_first(map: &mut MemoryMapRefMut<'_>) -> Option<MemoryDescriptor>
    ensures first { result ≡ slice_get (entries_of (mut_bytes map.old) (mut_meta map.old)) 0 }
    ensures cleared { OnSome result
        (IsWithDescriptor (mut_bytes map.old) (mut_meta map.old) 0 zero_descriptor
        (mut_bytes map.new)) }
    ensures unchanged { IfNone result (mut_bytes map.new ≡ mut_bytes map.old) }
{
    let first = map.entries().next();
    let _before = map.set(0, MemoryDescriptor::default());
    first
}
