use uefi_map::{MemoryDescriptor, MemoryMap, MemoryMapKey, MemoryMapMeta, MemoryMapRef};

/// Returns what firmware would say of a map that is all the bytes.
fn meta_of(bytes: &[u8], desc_size: usize) -> MemoryMapMeta {
    MemoryMapMeta {
        map_size: bytes.len(),
        desc_size,
        map_key: MemoryMapKey::default(),
        desc_version: MemoryDescriptor::VERSION,
    }
}

/// Reads the bytes as a memory map at this stride. The sum is over type, physical address and pages
/// of each entry.
#[unsafe(no_mangle)]
pub extern "C" fn port_map(bytes: &[u8], desc_size: usize) -> u64 {
    let Ok(map) = MemoryMapRef::new(bytes, meta_of(bytes, desc_size)) else {
        return 0;
    };
    let mut sum = 0u64;
    for entry in map.entries() {
        sum = sum
            .wrapping_add(u64::from(entry.ty.0))
            .wrapping_add(entry.phys_start)
            .wrapping_add(entry.page_count);
    }
    sum
}

/// Reads the bytes as a memory map at this stride. The sum is 1 where it is sorted, else 0.
#[unsafe(no_mangle)]
pub extern "C" fn port_sorted(bytes: &[u8], desc_size: usize) -> u64 {
    match MemoryMapRef::new(bytes, meta_of(bytes, desc_size)) {
        Ok(map) => u64::from(map.is_sorted()),
        Err(_) => 0,
    }
}
