ghost use Rattle.std.specs.Prelude.{◌≡◌, ◌+◌, ◌-◌, ◌*◌, ◌/◌, ◌<◌, ◌≤◌, ◌&&◌, nat_le, nat_lt, IfSome, IsSome, length};
ghost use Rattle.std.specs.List.{find};
ghost use Rattle.uefi_map.specs.memory.Map.{IsMap, entries_of};

use uefi_map::{MemoryDescriptor, MemoryMap, MemoryMapMeta, MemoryMapRef};

/// Returns the first region of a memory map that has an address.
pub fn region_at(bytes: &[u8], meta: MemoryMapMeta, address: u64) -> Option<MemoryDescriptor>
    ensures map { IsSome result → IsMap (length bytes.now) meta }
    ensures first { IsMap (length bytes.now) meta → result ≡ find (λ region.
        nat_le region.phys_start address
        && nat_lt ((address - region.phys_start) / 4096) region.page_count)
        (entries_of bytes.now meta) }
    ensures address { IfSome result (λ region. (region.phys_start ≤ address)
        × (address < region.phys_start + 4096 * region.page_count)) }
{
    let Ok(map) = MemoryMapRef::new(bytes, meta) else {
        return None;
    };
    for region in map.entries() {
        if region.phys_start <= address
            && (address - region.phys_start) / 4096 < region.page_count
        {
            return Some(region);
        }
    }
    None
}
