ghost use Rattle.std.specs.Prelude.{◌≡◌, ◌↔◌, ◌+◌, ◌*◌, ◌/◌, ◌%◌, ◌<◌, length, slice_range, IsSome, IfSome};

use crate::read::bytes_at;

/// Addresses of DNS servers, 16 bytes each (UEFI 2.10, 10.3.4.30).
///
/// A view: it borrows the bytes.
#[derive(Clone, Copy, PartialEq, Eq, Debug)]
pub struct DnsAddresses<'a> {
    bytes: &'a [u8],
    pub ghost whole: { length bytes.now % 16 ≡ 0 },
}

impl<'a> DnsAddresses<'a> {
    ghost use Rattle.uefi_node.specs.Views.{address_bytes};

    /// Returns the addresses in all of `bytes`, or `None` if there is a part of one.
    pub fn new(bytes: &'a [u8]) -> Option<DnsAddresses<'a>>
        ensures some { IsSome result ↔ (length bytes.now % 16 ≡ 0) }
        ensures same { IfSome result (λ list. address_bytes list ≡ bytes.now) }
    {
        if bytes.len() % 16 != 0 {
            return None;
        }
        Some(DnsAddresses::new_unchecked(bytes))
    }

    /// Returns the addresses in bytes that are known to be whole ones.
    pub(crate) fn new_unchecked(bytes: &'a [u8]) -> DnsAddresses<'a>
        requires { length bytes.now % 16 ≡ 0 }
        ensures { address_bytes result ≡ bytes.now }
    {
        DnsAddresses { bytes }
    }

    /// Returns the number of addresses.
    pub fn count(&self) -> usize
        ensures { result ≡ length (address_bytes self.now) / 16 }
    {
        self.bytes.len() / 16
    }

    /// Returns the address at `index`, or `None` if there are at most `index` addresses. An IPv4
    /// address is in the first four bytes.
    pub fn get(&self, index: usize) -> Option<[u8; 16]>
        ensures some { IsSome result ↔ (index < length (address_bytes self.now) / 16) }
        ensures address { IfSome result (λ address.
            address ≡ slice_range (address_bytes self.now) (16 * index) (16 * index + 16)) }
    {
        if index < self.count() {
            Some(bytes_at(self.bytes, 16 * index))
        } else {
            None
        }
    }

    /// Returns the bytes of the addresses.
    pub fn as_bytes(&self) -> &'a [u8]
        ensures { result.now ≡ address_bytes self.now }
    {
        self.bytes
    }
}
