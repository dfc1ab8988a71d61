ghost use Rattle.std.specs.Prelude.{ℕ, List, ◌≡◌, ◌^◌, ◌<◌, ◌↔◌, IsTrue, length, Some, OnSome, IfNone};
ghost use Rattle.uefi_map.specs.declared.memory.meta.MemoryMapMeta.{MemoryMapMeta};
ghost use Rattle.uefi_map.specs.memory.Descriptor.{descriptor};
ghost use Rattle.uefi_map.specs.memory.Map.{IsMap, AreSorted, count_of, entry_of, entries_of, IsWithDescriptor};
ghost use Rattle.uefi_map.specs.memory.Views.{entries_left};
ghost use Rattle.std.specs.Borrow.{sem};
ghost use Rattle.uefi_map.specs.memory.Lending.{LendsBuffer};

use super::descriptor::MemoryDescriptor;
use super::iter::MemoryMapIter;
use super::layout::{DESCRIPTOR_LENGTH, offset_of};
use super::meta::{MemoryMapKey, MemoryMapMeta};

/// A memory map (UEFI 2.10, 7.2 `EFI_BOOT_SERVICES.GetMemoryMap()`): a buffer that begins with the
/// map's descriptors, and what firmware says of it.
///
/// The offset of descriptor i is i times the stride, [`MemoryMapMeta::desc_size`]. The rest of each
/// stride, and the bytes after the map, have no meaning.
///
/// A type gives [`meta`](MemoryMap::meta) and [`buffer`](MemoryMap::buffer), and has the other
/// calls, with their contracts, from here.
pub trait MemoryMap {
    /// The bytes of the buffer.
    ghost bytes: { Self → List ℕ };

    /// The sizes, the key and the version.
    ghost meta: { Self → MemoryMapMeta };

    /// Returns what firmware says of the map.
    fn meta(&self) -> MemoryMapMeta
        ensures meta { result ≡ meta self.now }
        ensures map { IsMap (length (bytes self.now)) (meta self.now) };

    /// Returns the key of the state of firmware's map that this one is of.
    fn key(&self) -> MemoryMapKey
        ensures { result ≡ (meta self.now).map_key }
    {
        self.meta().map_key
    }

    /// Returns the count of descriptors.
    fn len(&self) -> usize
        ensures { result ≡ count_of (meta self.now) }
    {
        self.meta().entry_count()
    }

    /// Returns whether there is no descriptor.
    fn is_empty(&self) -> bool
        ensures { IsTrue result ↔ (count_of (meta self.now) ≡ 0) }
    {
        self.len() == 0
    }

    /// Returns the descriptor at the index, or `None` if the index isn't below
    /// [`len`](MemoryMap::len).
    fn get(&self, i: usize) -> Option<MemoryDescriptor>
        ensures { result ≡ entry_of (bytes self.now) (meta self.now) i }
    {
        if i < self.len() {
            Some(self.at(i))
        } else {
            None
        }
    }

    /// Returns the descriptor at an index that is below [`len`](MemoryMap::len).
    fn at(&self, i: usize) -> MemoryDescriptor
        requires { i < count_of (meta self.now) }
        ensures { result ≡ descriptor (bytes self.now) (meta self.now).desc_size i }
    {
        let offset = offset_of(&self.meta(), i);
        MemoryDescriptor::read(&self.buffer()[offset..offset + DESCRIPTOR_LENGTH])
    }

    /// Returns the whole buffer.
    fn buffer(&self) -> &[u8]
        ensures { result.now ≡ bytes self.now };

    /// Returns the descriptors, in order.
    fn entries(&self) -> MemoryMapIter<'_>
        ensures entries { entries_left result ≡ entries_of (bytes self.now) (meta self.now) }
        ensures countable { length (entries_left result) < 2 ^ 64 }
    {
        MemoryMapIter::new(self.buffer(), &self.meta())
    }

    /// Returns whether no descriptor begins at a lower physical address than the one before it.
    fn is_sorted(&self) -> bool
        ensures { IsTrue result ↔ AreSorted (bytes self.now) (meta self.now) }
    {
        self.entries().is_sorted_by_key(|entry| entry.phys_start)
    }
}

/// A memory map whose descriptors can be written.
///
/// A type gives [`buffer_mut`](MemoryMapMut::buffer_mut), and has the other calls, with their
/// contracts, from here.
pub trait MemoryMapMut: MemoryMap {
    /// The map with the bytes in its buffer.
    ghost with_bytes: { Self → List ℕ → Self };

    /// Both maps write to the same buffer of a caller's, if they borrow one.
    ghost same_buffer: { Self → Self → Type 0 };

    /// Sets the descriptor at the index, and returns the one that was there before. If the index
    /// isn't below [`len`](MemoryMap::len), it returns `None`, and every byte stays as it was.
    ///
    /// It writes the forty bytes of the descriptor alone.
    fn set(&mut self, i: usize, entry: MemoryDescriptor) -> Option<MemoryDescriptor>
        ensures before { let map = Self.MemoryMap in
            result ≡ entry_of (map.bytes self.old) (map.meta self.old) i }
        ensures written { let map = Self.MemoryMap in
            OnSome result (IsWithDescriptor (map.bytes self.old) (map.meta self.old) i entry
            (map.bytes self.new)) }
        ensures read_back { let map = Self.MemoryMap in
            OnSome result (entry_of (map.bytes self.new) (map.meta self.new) i ≡ Some entry) }
        ensures unchanged { let map = Self.MemoryMap in
            IfNone result (map.bytes self.new ≡ map.bytes self.old) }
        ensures meta { let map = Self.MemoryMap in map.meta self.new ≡ map.meta self.old }
        ensures same_buffer { same_buffer self.old self.new }
    {
        let before = self.get(i)?;
        self.set_at(i, entry);
        Some(before)
    }

    /// Sets the descriptor at an index that is below [`len`](MemoryMap::len).
    ///
    /// It writes the forty bytes of the descriptor alone.
    fn set_at(&mut self, i: usize, entry: MemoryDescriptor)
        requires { i < count_of (Self.MemoryMap.meta self.old) }
        ensures written { let map = Self.MemoryMap in
            IsWithDescriptor (map.bytes self.old) (map.meta self.old) i entry (map.bytes self.new) }
        ensures read_back { let map = Self.MemoryMap in
            descriptor (map.bytes self.new) (map.meta self.new).desc_size i ≡ entry }
        ensures meta { let map = Self.MemoryMap in map.meta self.new ≡ map.meta self.old }
        ensures same_buffer { same_buffer self.old self.new }
    {
        let offset = offset_of(&self.meta(), i);
        entry.write(&mut self.buffer_mut()[offset..offset + DESCRIPTOR_LENGTH]);
    }

    /// Returns the whole buffer, to be written. Any bytes are descriptors, so it stays a map.
    fn buffer_mut(&mut self) -> &mut [u8]
        ensures* writes_back { sem 𝓛
            (LendsBuffer Self.row self.entry (with_bytes self.entry.now) result) }
        ensures buffer { result.now ≡ Self.MemoryMap.bytes self.old };

    // What is written to the buffer is then the map's bytes, and the rest of the map stays as it
    // was.
    ghost bytes_with: { (map : Self) (bytes : List ℕ)
        → length bytes ≡ length (Self.MemoryMap.bytes map)
        → Self.MemoryMap.bytes (with_bytes map bytes) ≡ bytes };

    ghost meta_with: { (map : Self) (bytes : List ℕ)
        → length bytes ≡ length (Self.MemoryMap.bytes map)
        → Self.MemoryMap.meta (with_bytes map bytes) ≡ Self.MemoryMap.meta map };

    ghost same_buffer_with: { (map : Self) (bytes : List ℕ) → same_buffer map (with_bytes map bytes) };

    ghost same_buffer_as_itself: { (map : Self) → same_buffer map map };

    ghost same_buffer_after: { (one other third : Self)
        → same_buffer one other → same_buffer other third → same_buffer one third };
}
