ghost use Rattle.std.specs.Prelude.{◌≡◌, length, IfOk, map};
ghost use Rattle.uefi_map.specs.memory.Map.{IsMap, entries_of};
ghost use Rattle.uefi_c.specs.Map.{sizes_of, descriptor_of};

use crate::map::{UefiDescriptor, uefi_map_entry};
use crate::status;
use std::alloc::{AllocError, Allocator};

/// Collects the descriptors of a map, by a loop over the index: those that the library's `entries`
/// gives.
pub fn entries_by_steps<A: Allocator>(
    alloc: A,
    bytes: &[u8],
    stride: usize,
) -> Result<Vec<UefiDescriptor, A>, AllocError>
    ensures { let sizes = sizes_of (length bytes.now) stride in
        IfOk result (λ views. IsMap (length bytes.now) sizes
        → map descriptor_of views.items ≡ entries_of bytes.now sizes) }
{
    let mut views = Vec::new(alloc);
    let mut index = 0;
    let mut entry = UefiDescriptor {
        memory_type: 0,
        padding: 0,
        phys_start: 0,
        virt_start: 0,
        page_count: 0,
        attribute: 0,
    };
    while uefi_map_entry(bytes, stride, index, &mut entry) == status::OK {
        views.push(entry)?;
        index += 1;
    }
    Ok(views)
}
