ghost use Rattle.std.specs.Prelude.{◌≢◌, ◌≤◌, ◌↔◌, IfErr, IfOk, IsErrOf, IsTrue, List};
ghost use Rattle.std.specs.List.{Any};
ghost use Rattle.uefi_map.specs.declared.pci.resource.QwordAddressSpaceDescriptor.{QwordAddressSpaceDescriptor};
ghost use Rattle.uefi_map.specs.pci.ResourceList.{HaveFault, HaveList, HaveSomeFault};

use std::alloc::Global;
use uefi_map::{ResourceError, parse};

/// Returns whether one of the ranges that the bytes list has an address.
pub fn is_decoded(alloc: Global, bytes: &[u8], address: u64) -> Result<bool, ResourceError>
    ensures list { IfOk result (λ found. (list : List QwordAddressSpaceDescriptor)
        × HaveList bytes.now list
        × (IsTrue found ↔ Any (λ range.
        (range.address_min ≤ address) × (address ≤ range.address_max)) list)) }
    ensures fault { IfErr result
        (λ fault. fault ≢ ResourceError.Memory → HaveFault bytes.now fault) }
    ensures memory { IsErrOf result ResourceError.Memory → ¬ HaveSomeFault bytes.now }
{
    let list = parse(alloc, bytes)?;
    Ok(list.iter().any(|range| range.address_min <= address && address <= range.address_max))
}
