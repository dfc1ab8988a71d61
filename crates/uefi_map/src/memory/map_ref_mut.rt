ghost use Rattle.std.specs.Prelude.{◌≡◌, ◌↔◌, length, Err, IsOk, IfOk, IfErr, IsTrue, refl};
ghost use Rattle.std.specs.Borrow.{sem};
ghost use Rattle.std.proofs.Common.{◌∙◌};
ghost use Rattle.uefi_map.specs.memory.Map.{IsMap};
ghost use Rattle.uefi_map.specs.memory.Views.{mut_bytes, mut_meta, WritesTo, mut_with, WriteToTheSame};
ghost use Rattle.uefi_map.specs.memory.Lending.{StaysIfRefused};
ghost use Rattle.uefi_map.specs.private.memory.Keeping.{mut_meta-with};

use super::map_error::MemoryMapError;
use super::memory_map::{MemoryMap, MemoryMapMut};
use super::meta::MemoryMapMeta;
use super::sizes::Sizes;

/// A memory map over a buffer that can be written.
///
/// It borrows the buffer, and allocates nothing.
#[derive(Drop)]
pub struct MemoryMapRefMut<'a> {
    buffer: &'a mut [u8],
    sizes: Sizes,
}

impl<'a> MemoryMapRefMut<'a> {
    /// Returns the map that the buffer begins with.
    ///
    /// # Errors
    ///
    /// [`InvalidSize`](MemoryMapError::InvalidSize) exactly if the sizes make no map of the buffer
    /// ([`MemoryMapMeta::is_map_within`]). Every byte of the buffer then stays as it was. A caller
    /// whose own proof needs that calls [`MemoryMapMeta::is_map_within`] and
    /// [`MemoryMapRefMut::over`].
    pub fn new(
        buffer: &'a mut [u8],
        meta: MemoryMapMeta,
    ) -> Result<MemoryMapRefMut<'a>, MemoryMapError>
        ensures* unchanged_if_refused { sem 𝓛 (StaysIfRefused buffer.entry result) }
        ensures accepted { IsOk result ↔ IsMap (length buffer.entry.now) meta }
        ensures buffer { IfOk result (λ map. mut_bytes map ≡ buffer.entry.now) }
        ensures meta { IfOk result (λ map. mut_meta map ≡ meta) }
        ensures refused { IfErr result (λ error. error ≡ MemoryMapError.InvalidSize) }
        ensures same_buffer { IfOk result (WritesTo buffer.entry) }
    {
        if is_map(buffer.len(), meta) {
            return MemoryMapRefMut::accepted(buffer, meta);
        }
        MemoryMapRefMut::refused()
    }

    /// Returns the map that the buffer is known to begin with.
    fn accepted(
        buffer: &'a mut [u8],
        meta: MemoryMapMeta,
    ) -> Result<MemoryMapRefMut<'a>, MemoryMapError>
        requires { IsMap (length buffer.old) meta }
        ensures accepted { IsOk result }
        ensures buffer { IfOk result (λ map. mut_bytes map ≡ buffer.entry.now) }
        ensures meta { IfOk result (λ map. mut_meta map ≡ meta) }
        ensures same_buffer { IfOk result (WritesTo buffer.entry) }
    {
        Ok(MemoryMapRefMut::over(buffer, meta))
    }

    /// Returns the error of sizes that make no map.
    fn refused() -> Result<MemoryMapRefMut<'a>, MemoryMapError>
        ensures { result ≡ Err MemoryMapError.InvalidSize }
    {
        Err(MemoryMapError::InvalidSize)
    }

    /// Returns the map that the buffer begins with, for sizes that are known to make one, by
    /// [`MemoryMapMeta::is_map_within`].
    pub fn over(buffer: &'a mut [u8], meta: MemoryMapMeta) -> MemoryMapRefMut<'a>
        requires { IsMap (length buffer.old) meta }
        ensures buffer { mut_bytes result ≡ buffer.entry.now }
        ensures meta { mut_meta result ≡ meta }
        ensures same_buffer { WritesTo buffer.entry result }
    {
        MemoryMapRefMut {
            buffer,
            sizes: Sizes::new(meta),
        }
    }
}

/// Returns whether the sizes make a map of a buffer with this length.
fn is_map(length: usize, meta: MemoryMapMeta) -> bool
    ensures { IsTrue result ↔ IsMap length meta }
{
    meta.is_map_within(length)
}

impl<'a> MemoryMap for MemoryMapRefMut<'a> {
    ghost bytes = { mut_bytes };

    ghost meta = { mut_meta };

    fn meta(&self) -> MemoryMapMeta {
        self.sizes.within(self.buffer.len())
    }

    fn buffer(&self) -> &[u8] {
        self.buffer
    }
}

impl<'a> MemoryMapMut for MemoryMapRefMut<'a> {
    ghost same_buffer = { WriteToTheSame };

    ghost with_bytes = { mut_with };

    ghost bytes_with = { λ _ _ _. refl };

    ghost meta_with = { mut_meta-with };

    ghost same_buffer_with = { λ _ _. refl };

    ghost same_buffer_as_itself = { λ _. refl };

    ghost same_buffer_after = { λ _ _ _ first second. second ∙ first };

    fn buffer_mut(&mut self) -> &mut [u8] {
        self.buffer
    }
}
