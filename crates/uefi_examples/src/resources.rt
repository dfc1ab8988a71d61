ghost use Rattle.std.specs.Prelude.{◌≡◌, ◌≢◌, ◌↔◌, ◌^◌, ◌<◌, List, length, sum_by, IsTrue, IsNone, IsSome, IfOk, IfErr, IfSome};
ghost use Rattle.uefi_map.specs.declared.pci.resource.QwordAddressSpaceDescriptor.{QwordAddressSpaceDescriptor};
ghost use Rattle.uefi_map.specs.pci.ResourceList.{HaveList, HaveFault, HaveSomeList};
ghost use Rattle.uefi_map.specs.pci.Views.{resources_left};

use std::alloc::{AllocError, Global};
use uefi_map::laws::one_list;
use uefi_map::{
    QwordAddressSpaceDescriptor, ResourceError, ResourceIter, ResourceList, ResourceRangeType,
    parse,
};

/// Returns how many ranges the bytes list.
pub fn range_count(alloc: Global, bytes: &[u8]) -> Result<usize, ResourceError>
    ensures list { IfOk result (λ count. (list : List QwordAddressSpaceDescriptor)
        × HaveList bytes.now list × (count ≡ length list)) }
    ensures fault { IfErr result
        (λ fault. fault ≢ ResourceError.Memory → HaveFault bytes.now fault) }
{
    let list = parse(alloc, bytes)?;
    Ok(list.len())
}

/// Returns what is wrong with bytes: nothing exactly where they begin with a list, else the fault
/// that they have.
pub fn fault_of(alloc: Global, bytes: &[u8]) -> Result<Option<ResourceError>, AllocError>
    ensures list { IfOk result (λ fault. IsNone fault ↔ HaveSomeList bytes.now) }
    ensures fault { IfOk result (λ fault. IfSome fault (λ f. HaveFault bytes.now f)) }
{
    match parse(alloc, bytes) {
        Ok(_) => Ok(None),
        Err(ResourceError::Memory) => Err(AllocError),
        Err(fault) => Ok(Some(fault)),
    }
}

/// Returns the count of addresses in all ranges that the bytes list, or `None` if they begin with
/// no list or the sum doesn't fit.
pub fn addresses_in(bytes: &[u8]) -> Option<u64>
    ensures sum { IfSome result (λ addresses. (list : List QwordAddressSpaceDescriptor)
        × HaveList bytes.now list
        × (addresses ≡ sum_by (λ range. range.address_length) list)) }
    ensures fits { (list : List QwordAddressSpaceDescriptor) → HaveList bytes.now list
        → sum_by (λ range. range.address_length) list < 2 ^ 64 → IsSome result }
{
    let list = ResourceList::try_from(bytes).ok()?;
    let mut addresses = 0u64;
    for range in list.iter() {
        addresses = addresses.checked_add(range.address_length)?;
    }
    Some(addresses)
}

/// Returns the count of ranges that the bytes list, and the count of addresses in them, or `None`
/// if the second doesn't fit. Each of the two calls names some list that the bytes begin with; it
/// is the same one.
pub fn ranges_and_addresses(
    alloc: Global,
    bytes: &[u8],
) -> Result<Option<(usize, u64)>, ResourceError>
    ensures counts { IfOk result
        (λ found. IfSome found (λ counts. (list : List QwordAddressSpaceDescriptor)
        × HaveList bytes.now list × (counts.0 ≡ length list)
        × (counts.1 ≡ sum_by (λ range. range.address_length) list))) }
    ensures fits { IfOk result
        (λ found. (list : List QwordAddressSpaceDescriptor) → HaveList bytes.now list
        → sum_by (λ range. range.address_length) list < 2 ^ 64 → IsSome found) }
    ensures fault { IfErr result
        (λ fault. fault ≢ ResourceError.Memory → HaveFault bytes.now fault) }
{
    one_list();
    let ranges = range_count(alloc, bytes)?;
    let Some(addresses) = addresses_in(bytes) else {
        return Ok(None);
    };
    Ok(Some((ranges, addresses)))
}

/// Returns the count of resources that are left, by `len`.
pub fn resources_to_come(resources: &ResourceIter<'_>) -> usize
    ensures { result ≡ length (resources_left resources.now) }
{
    resources.len()
}

/// Returns whether a number stands for ranges of bus numbers: 2 alone does.
pub fn is_bus(number: u8) -> bool
    ensures { IsTrue result ↔ (number ≡ 2) }
{
    ResourceRangeType::from(number) == ResourceRangeType::Bus
}
