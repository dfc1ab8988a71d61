ghost use Rattle.std.specs.Prelude.{◌≡◌, ◌^◌, ◌<◌, length};
ghost use Rattle.uefi_map.specs.pci.ResourceList.{ReadsList};
ghost use Rattle.uefi_map.specs.pci.Views.{resources_left, resources_of};

use super::resource::QwordAddressSpaceDescriptor;
use super::resource_error::ResourceError;
use super::resource_iter::ResourceIter;

/// The resources of a PCI root bridge (UEFI 2.10, 14.2
/// `EFI_PCI_ROOT_BRIDGE_IO_PROTOCOL.Configuration()`): a record of 46 bytes for each
/// [`QwordAddressSpaceDescriptor`], and then the end tag 0x79 (ACPI 6.5, 6.4.2.9).
///
/// A view: it borrows the bytes that it was read from, and allocates nothing.
///
/// # Examples
///
/// ```
/// use uefi_map::ResourceList;
///
/// /// Returns the count of addresses in all ranges that the bytes list, or `None` if they begin with
/// /// no list or the sum doesn't fit.
/// pub fn addresses_in(bytes: &[u8]) -> Option<u64> {
///     let list = ResourceList::try_from(bytes).ok()?;
///     let mut addresses = 0u64;
///     for range in list.iter() {
///         addresses = addresses.checked_add(range.address_length)?;
///     }
///     Some(addresses)
/// }
/// ```
///
/// This function is proved in `crates/uefi_examples/src/resources.rt`, which shows its contract.
#[derive(Clone, Copy)]
pub struct ResourceList<'a> {
    records: &'a [u8],
}

impl<'a> ResourceList<'a> {
    /// Returns the resources, in order.
    pub fn iter(&self) -> ResourceIter<'a>
        ensures resources { resources_left result ≡ resources_of self.now }
        ensures countable { length (resources_left result) < 2 ^ 64 }
    {
        ResourceIter::new(self.records)
    }
}

/// Reads the list that the bytes begin with. The bytes after its end tag aren't looked at.
///
/// # Errors
///
/// Fails exactly if the bytes begin with no list. The first offset at which neither a whole record
/// nor the end tag begins decides:
///
/// - [`NoEndTag`](ResourceError::NoEndTag) if the bytes end there.
/// - [`CutRecord`](ResourceError::CutRecord) if the tag of a record is there, and the bytes end before
///   the record does.
/// - [`UnknownTag`](ResourceError::UnknownTag) with the byte there, if it is neither tag.
///
/// It allocates nothing, so [`Memory`](ResourceError::Memory) never comes.
impl<'a> TryFrom<&'a [u8]> for ResourceList<'a> {
    type Error = ResourceError;

    ghost try_from_gives = { λ bytes read. ReadsList resources_of bytes.now read };

    #[tactic(auto, using(crate::proofs::pci::Records::rest_within))]
    fn try_from(bytes: &'a [u8]) -> Result<ResourceList<'a>, ResourceError> {
        let mut rest = bytes;
        while let Some((_, after)) = QwordAddressSpaceDescriptor::read(rest)? {
            rest = after;
        }
        let (records, _) = bytes
            .split_at_checked(bytes.len() - rest.len())
            .ok_or(ResourceError::NoEndTag)?;
        Ok(ResourceList { records })
    }
}
