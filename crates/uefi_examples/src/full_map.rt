//! A memory map that the library doesn't know: what a type of another crate gives to be one.

ghost use Rattle.std.specs.Prelude.{◌≡◌, ◌≤◌, length, SomeIff};
ghost use Rattle.uefi_examples.specs.FullMap.{full_bytes, full_meta, full_with, full_bytes-with, full_meta-with};

use crate::map::set_and_get;
use uefi_map::{MemoryDescriptor, MemoryMap, MemoryMapKey, MemoryMapMeta, MemoryMapMut};

/// The bytes from one descriptor to the next.
const STRIDE: usize = 48;

/// A map with as many descriptors at a stride of 48 as its buffer has room for.
#[derive(Drop)]
pub struct FullMap {
    buffer: Vec<u8>,
    key: MemoryMapKey,
}

impl MemoryMap for FullMap {
    ghost bytes = { full_bytes };

    ghost meta = { full_meta };

    fn meta(&self) -> MemoryMapMeta {
        let length = self.buffer.len();
        MemoryMapMeta {
            map_size: length - length % STRIDE,
            desc_size: STRIDE,
            map_key: self.key,
            desc_version: MemoryDescriptor::VERSION,
        }
    }

    fn buffer(&self) -> &[u8] {
        self.buffer.as_slice()
    }
}

impl MemoryMapMut for FullMap {
    ghost with_bytes = { full_with };

    ghost bytes_with = { full_bytes-with };

    ghost meta_with = { full_meta-with };

    ghost same_buffer = { λ _ _. Unit {0} };

    ghost same_buffer_with = { λ _ _. tt };

    ghost same_buffer_as_itself = { λ _. tt };

    ghost same_buffer_after = { λ _ _ _ _ _. tt };

    fn buffer_mut(&mut self) -> &mut [u8] {
        &mut self.buffer
    }
}

/// Sets the first descriptor of such a map, by the trait's own calls, and returns it as it is read
/// again, or `None` for a buffer without room for a descriptor.
pub fn set_first(buffer: Vec<u8>, d: MemoryDescriptor) -> Option<MemoryDescriptor>
    ensures { SomeIff result (STRIDE ≤ length buffer.items) d }
{
    let mut map = FullMap {
        buffer,
        key: MemoryMapKey::default(),
    };
    if map.is_empty() {
        return None;
    }
    Some(set_and_get(&mut map, 0, d))
}
