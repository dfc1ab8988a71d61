use std::alloc::Global;
use uefi_map::parse;

/// Reads the list of resources that the bytes begin with. The sum is over the number of its ranges
/// and the granularity of the first.
#[unsafe(no_mangle)]
pub extern "C" fn port_pci(alloc: Global, bytes: &[u8]) -> u64 {
    match parse(alloc, bytes) {
        Ok(list) => {
            let granularity = list.first().map_or(0, |range| range.granularity);
            (list.len() as u64).wrapping_add(granularity)
        }
        Err(_) => 0,
    }
}
