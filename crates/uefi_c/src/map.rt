ghost use Rattle.std.specs.Prelude.{◌≡◌, ◌<◌, ◌↔◌, length, Some, IsTrue, ◌≢◌, [], ◌∷◌};
ghost use Rattle.uefi_map.specs.memory.Map.{IsMap, AreSorted, IsWithDescriptor, count_of, entry_of};
ghost use Rattle.uefi_c.specs.Map.{sizes_of, descriptor_of};
ghost use Rattle.uefi_c.specs.Status.{ended, IsOneOf, not_map, ok};

use crate::status::{self, UefiStatus};
use uefi_map::{
    MemoryAttribute, MemoryDescriptor, MemoryMap, MemoryMapKey, MemoryMapMeta, MemoryMapMut,
    MemoryMapRef, MemoryMapRefMut, MemoryType,
};

/// A descriptor of a memory map.
#[derive(Clone, Copy)]
#[repr(C)]
pub struct UefiDescriptor {
    /// What the memory is used for.
    pub memory_type: u32,
    /// The four bytes after the type, without meaning.
    pub padding: u32,
    /// The first physical address.
    pub phys_start: u64,
    /// The first virtual address.
    pub virt_start: u64,
    /// The count of pages, of 4096 bytes each.
    pub page_count: u64,
    /// What the memory can do, and what it is used for at run time.
    pub attribute: u64,
}

/// Tests that all the bytes are a map with this stride.
#[unsafe(no_mangle)]
pub extern "C" fn uefi_map_check(map: &[u8], stride: usize) -> UefiStatus
    ensures map { (result ≡ ok) ↔ IsMap (length map.now) (sizes_of (length map.now) stride) }
    ensures known { IsOneOf result (ok ∷ not_map ∷ []) }
{
    if sizes_of(map.len(), stride).is_map_within(map.len()) {
        status::OK
    } else {
        status::NOT_MAP
    }
}

/// Reads the descriptor at an index of the map that all the bytes are.
#[unsafe(no_mangle)]
pub extern "C" fn uefi_map_entry(
    map: &[u8],
    stride: usize,
    index: usize,
    out: &mut UefiDescriptor,
) -> UefiStatus
    ensures found { let sizes = sizes_of (length map.now) stride in
        (result ≡ ok) ↔ (IsMap (length map.now) sizes × (index < count_of sizes)) }
    ensures no_map { (result ≡ not_map) ↔ ¬ IsMap (length map.now) (sizes_of (length map.now) stride) }
    ensures known { IsOneOf result (ok ∷ ended ∷ not_map ∷ []) }
    ensures entry { let sizes = sizes_of (length map.now) stride in
        result ≡ ok → entry_of map.now sizes index ≡ Some (descriptor_of out.new) }
    ensures unchanged { result ≢ ok → out.new ≡ out.old }
{
    let Ok(map) = MemoryMapRef::new(map, sizes_of(map.len(), stride)) else {
        return status::NOT_MAP;
    };
    let Some(entry) = map.get(index) else {
        return status::END;
    };
    *out = UefiDescriptor {
        memory_type: entry.ty.0,
        padding: entry.padding,
        phys_start: entry.phys_start,
        virt_start: entry.virt_start,
        page_count: entry.page_count,
        attribute: entry.att.bits(),
    };
    status::OK
}

/// Writes the descriptor at an index of the map that all the bytes are: its forty bytes.
#[unsafe(no_mangle)]
pub extern "C" fn uefi_map_set(
    map: &mut [u8],
    stride: usize,
    index: usize,
    entry: &UefiDescriptor,
) -> UefiStatus
    ensures found { let sizes = sizes_of (length map.old) stride in
        (result ≡ ok) ↔ (IsMap (length map.old) sizes × (index < count_of sizes)) }
    ensures no_map { (result ≡ not_map) ↔ ¬ IsMap (length map.old) (sizes_of (length map.old) stride) }
    ensures known { IsOneOf result (ok ∷ ended ∷ not_map ∷ []) }
    ensures written { let sizes = sizes_of (length map.old) stride in
        result ≡ ok → IsWithDescriptor map.old sizes index (descriptor_of entry.now) map.new }
    ensures unchanged { result ≢ ok → map.new ≡ map.old }
{
    let sizes = sizes_of(map.len(), stride);
    if !sizes.is_map_within(map.len()) {
        return status::NOT_MAP;
    }
    let mut map = MemoryMapRefMut::over(map, sizes);
    match map.set(index, descriptor_of(entry)) {
        Some(_) => status::OK,
        None => status::END,
    }
}

/// Returns the descriptor of these numbers.
fn descriptor_of(entry: &UefiDescriptor) -> MemoryDescriptor
    ensures { result ≡ descriptor_of entry.now }
{
    MemoryDescriptor {
        ty: MemoryType(entry.memory_type),
        padding: entry.padding,
        phys_start: entry.phys_start,
        virt_start: entry.virt_start,
        page_count: entry.page_count,
        att: MemoryAttribute::from_bits_retain(entry.attribute),
    }
}

/// Returns whether all the bytes are a map with this stride, and no descriptor begins at a lower
/// physical address than the one before it.
#[unsafe(no_mangle)]
pub extern "C" fn uefi_map_is_sorted(map: &[u8], stride: usize) -> bool
    ensures { let sizes = sizes_of (length map.now) stride in
        IsTrue result ↔ (IsMap (length map.now) sizes × AreSorted map.now sizes) }
{
    match MemoryMapRef::new(map, sizes_of(map.len(), stride)) {
        Ok(map) => map.is_sorted(),
        Err(_) => false,
    }
}

/// Returns the sizes of a map that is all the bytes.
fn sizes_of(map_size: usize, desc_size: usize) -> MemoryMapMeta
    ensures { result ≡ sizes_of map_size desc_size }
{
    MemoryMapMeta {
        map_size,
        desc_size,
        map_key: MemoryMapKey::from_raw(0),
        desc_version: MemoryDescriptor::VERSION,
    }
}
