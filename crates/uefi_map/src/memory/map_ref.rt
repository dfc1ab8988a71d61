ghost use Rattle.std.specs.Prelude.{◌≡◌, ◌↔◌, length, IsOk, IfOk, IfErr};
ghost use Rattle.uefi_map.specs.memory.Map.{IsMap};

use super::map_error::MemoryMapError;
use super::memory_map::MemoryMap;
use super::meta::MemoryMapMeta;

/// A memory map over a buffer that is only read.
///
/// A view: it borrows the buffer, and allocates nothing.
///
/// # Examples
///
/// ```
/// use uefi_map::{MemoryMap, MemoryMapMeta, MemoryMapRef};
///
/// /// Returns the count of pages in a buffer of firmware's, or `None` if it holds no map or the sum
/// /// doesn't fit.
/// pub fn pages_in(buffer: &[u8], meta: MemoryMapMeta) -> Option<u64> {
///     let map = MemoryMapRef::new(buffer, meta).ok()?;
///     let mut pages = 0u64;
///     for entry in map.entries() {
///         pages = pages.checked_add(entry.page_count)?;
///     }
///     Some(pages)
/// }
/// ```
///
/// This function is proved in `crates/uefi_examples/src/map.rt`, which shows its contract.
#[derive(Clone, Copy)]
pub struct MemoryMapRef<'a> {
    buffer: &'a [u8],
    meta: MemoryMapMeta,
    pub ghost map: { IsMap (length buffer.now) meta },
}

impl<'a> MemoryMapRef<'a> {
    ghost use Rattle.uefi_map.specs.memory.Views.{ref_bytes, ref_meta};

    /// Returns the map that the buffer begins with.
    ///
    /// # Errors
    ///
    /// [`InvalidSize`](MemoryMapError::InvalidSize) exactly if the sizes make no map of the buffer
    /// ([`MemoryMapMeta::is_map_within`]): if the stride is below 40 bytes, is no multiple of 8, or
    /// doesn't divide the map's length, or if this is above the buffer's.
    pub fn new(buffer: &'a [u8], meta: MemoryMapMeta) -> Result<MemoryMapRef<'a>, MemoryMapError>
        ensures accepted { IsOk result ↔ IsMap (length buffer.now) meta }
        ensures buffer { IfOk result (λ map. ref_bytes map ≡ buffer.now) }
        ensures meta { IfOk result (λ map. ref_meta map ≡ meta) }
        ensures refused { IfErr result (λ error. error ≡ MemoryMapError.InvalidSize) }
    {
        if !meta.is_map_within(buffer.len()) {
            return Err(MemoryMapError::InvalidSize);
        }
        Ok(MemoryMapRef { buffer, meta })
    }
}

impl<'a> MemoryMap for MemoryMapRef<'a> {
    ghost use Rattle.uefi_map.specs.memory.Views.{ref_bytes, ref_meta};

    ghost bytes = { ref_bytes };

    ghost meta = { ref_meta };

    fn meta(&self) -> MemoryMapMeta {
        self.meta
    }

    fn buffer(&self) -> &[u8] {
        self.buffer
    }
}
