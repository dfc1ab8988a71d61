ghost use Rattle.std.specs.Prelude.{◌≡◌};
ghost use Rattle.uefi_map.specs.memory.Map.{IsMap, meta_within};
ghost use Rattle.uefi_map.specs.private.memory.Map.{HasWholeStrides};
ghost use Rattle.uefi_map.specs.declared.memory.meta.MemoryMapMeta.{MemoryMapMeta};

use super::meta::MemoryMapMeta;
use std::marker::Model;

/// The sizes of a map that was accepted, without its buffer.
///
/// A struct that lends its buffer as `&mut` can't keep a fact about the buffer's length beside it.
/// So it keeps these, and asks for the map's sizes by the buffer's length.
#[derive(Drop)]
pub(crate) struct Sizes {
    meta: MemoryMapMeta,
}

impl Model for Sizes {
    ghost Value = { MemoryMapMeta };

    ghost view = { λ sizes. sizes.meta };

    ghost invariant = { λ sizes. HasWholeStrides sizes.meta };
}

impl Sizes {
    /// Returns the sizes, which are whole strides.
    pub(crate) fn new(meta: MemoryMapMeta) -> Sizes
        requires { HasWholeStrides meta }
        ensures { result ≡ meta }
    {
        Sizes { meta }
    }

    /// Returns the sizes of the map in a buffer with this length, or those of an empty map if the
    /// buffer is too short.
    pub(crate) fn within(&self, length: usize) -> MemoryMapMeta
        ensures map { IsMap length result }
        ensures meta { result ≡ meta_within length self.now }
    {
        let map_size = if self.meta.map_size <= length {
            self.meta.map_size
        } else {
            0
        };
        MemoryMapMeta {
            map_size,
            ..self.meta
        }
    }
}
