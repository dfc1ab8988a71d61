ghost use Rattle.std.specs.Prelude.{◌≡◌, ◌↔◌, take, length, IsOk, IfOk, IfErr};
ghost use Rattle.uefi_map.specs.memory.Map.{IsMap};
ghost use Rattle.uefi_map.specs.memory.Views.{owned_bytes, owned_meta, owned_with};
ghost use Rattle.uefi_map.specs.private.memory.Keeping.{owned_bytes-with, owned_meta-with};

use super::map_error::MemoryMapError;
use super::memory_map::{MemoryMap, MemoryMapMut};
use super::meta::MemoryMapMeta;
use super::sizes::Sizes;
use std::alloc::{Allocator, Global};

/// A memory map that owns its buffer, which is as long as the map.
#[derive(Drop)]
pub struct MemoryMapOwned<A: Allocator = Global> {
    buffer: Vec<u8, A>,
    sizes: Sizes,
}

impl<A: Allocator> MemoryMapOwned<A> {
    /// Returns the map that the vector begins with. It drops the bytes after the map, and allocates
    /// nothing.
    ///
    /// # Errors
    ///
    /// [`InvalidSize`](MemoryMapError::InvalidSize), with the vector as it was, exactly if the
    /// sizes make no map of it ([`MemoryMapMeta::is_map_within`]).
    pub fn from_initialized_mem(
        mut buffer: Vec<u8, A>,
        meta: MemoryMapMeta,
    ) -> Result<MemoryMapOwned<A>, (MemoryMapError, Vec<u8, A>)>
        ensures accepted { IsOk result ↔ IsMap (length buffer.items) meta }
        ensures buffer { IfOk result (λ map. owned_bytes map ≡ take meta.map_size buffer.items) }
        ensures meta { IfOk result (λ map. owned_meta map ≡ meta) }
        ensures refused { IfErr result (λ error. error ≡ (MemoryMapError.InvalidSize, buffer)) }
    {
        if !meta.is_map_within(buffer.len()) {
            return Err((MemoryMapError::InvalidSize, buffer));
        }
        buffer.truncate(meta.map_size);
        Ok(MemoryMapOwned {
            buffer,
            sizes: Sizes::new(meta),
        })
    }
}

impl<A: Allocator> MemoryMap for MemoryMapOwned<A> {
    ghost bytes = { owned_bytes };

    ghost meta = { owned_meta };

    fn meta(&self) -> MemoryMapMeta {
        self.sizes.within(self.buffer.len())
    }

    fn buffer(&self) -> &[u8] {
        self.buffer.as_slice()
    }
}

impl<A: Allocator> MemoryMapMut for MemoryMapOwned<A> {
    ghost same_buffer = { λ _ _. Unit {0} };

    ghost with_bytes = { owned_with };

    ghost bytes_with = { owned_bytes-with };

    ghost meta_with = { owned_meta-with };

    ghost same_buffer_with = { λ _ _. tt };

    ghost same_buffer_as_itself = { λ _. tt };

    ghost same_buffer_after = { λ _ _ _ _ _. tt };

    fn buffer_mut(&mut self) -> &mut [u8] {
        &mut self.buffer
    }
}
