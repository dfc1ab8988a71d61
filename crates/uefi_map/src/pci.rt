//! Lists of PCI resources (UEFI 2.10, 14.2): their records, the list that bytes begin with, and its
//! resources in a vector.

ghost use Rattle.std.specs.Prelude.{◌≢◌, IfOk, IfErr};
ghost use Rattle.std.specs.Result.{IsErrOf};
ghost use Rattle.uefi_map.specs.pci.ResourceList.{HaveSomeFault, HaveOneList, HaveOneFault};

pub use self::resource::{QwordAddressSpaceDescriptor, ResourceRangeType};
pub use self::resource_error::ResourceError;
pub use self::resource_iter::ResourceIter;
pub use self::resource_list::ResourceList;
use std::alloc::Allocator;

// A record.
mod resource;

// A list of records.
mod resource_error;
mod resource_iter;
mod resource_list;

/// Returns the resources of the list that the bytes begin with, in order: those of
/// [`ResourceList::try_from`], in a vector.
///
/// # Errors
///
/// - The error of [`ResourceList::try_from`] if the bytes begin with no list.
/// - [`Memory`](ResourceError::Memory) if they begin with one, and an allocation fails.
pub fn parse<A: Allocator>(
    alloc: A,
    bytes: &[u8],
) -> Result<Vec<QwordAddressSpaceDescriptor, A>, ResourceError>
    ensures list { IfOk result (λ list. HaveOneList bytes.now list.items) }
    ensures fault { IfErr result
        (λ fault. fault ≢ ResourceError.Memory → HaveOneFault bytes.now fault) }
    ensures memory { IsErrOf result ResourceError.Memory → ¬ HaveSomeFault bytes.now }
{
    let list = ResourceList::try_from(bytes)?;
    Ok(list.iter().collect(alloc)?)
}
