ghost use Rattle.std.specs.Prelude.{◌≡◌, ◌↔◌, ◌*◌, ◌/◌, ◌%◌, ◌≤◌, ◌<◌, length, IsSome, IfSome};
ghost use Rattle.uefi_base.specs.LittleEndian.{u32_at};

use uefi_base::little_endian::u32_at;

/// Addresses (`_ADR`) of ACPI objects, four bytes each: at least one (UEFI 2.10, 10.3.3.1).
///
/// A view: it borrows the bytes.
#[derive(Clone, Copy, PartialEq, Eq, Debug)]
pub struct AdrList<'a> {
    bytes: &'a [u8],
    pub ghost some: { 4 ≤ length bytes.now },
    pub ghost whole: { length bytes.now % 4 ≡ 0 },
}

impl<'a> AdrList<'a> {
    ghost use Rattle.uefi_node.specs.Views.{adr_bytes};

    /// Returns the addresses in all of `bytes`, or `None` if there is none or a part of one.
    pub fn new(bytes: &'a [u8]) -> Option<AdrList<'a>>
        ensures some { IsSome result ↔ (4 ≤ length bytes.now) × (length bytes.now % 4 ≡ 0) }
        ensures same { IfSome result (λ list. adr_bytes list ≡ bytes.now) }
    {
        if bytes.is_empty() || bytes.len() % 4 != 0 {
            return None;
        }
        Some(AdrList::new_unchecked(bytes))
    }

    /// Returns the addresses in bytes that are known to be some.
    pub(crate) fn new_unchecked(bytes: &'a [u8]) -> AdrList<'a>
        requires some { 4 ≤ length bytes.now }
        requires whole { length bytes.now % 4 ≡ 0 }
        ensures { adr_bytes result ≡ bytes.now }
    {
        AdrList { bytes }
    }

    /// Returns the number of addresses: at least 1.
    pub fn count(&self) -> usize
        ensures { result ≡ length (adr_bytes self.now) / 4 }
    {
        self.bytes.len() / 4
    }

    /// Returns the address at `index`, or `None` if there are at most `index` addresses.
    pub fn get(&self, index: usize) -> Option<u32>
        ensures some { IsSome result ↔ (index < length (adr_bytes self.now) / 4) }
        ensures address { IfSome result (λ n. n ≡ u32_at (adr_bytes self.now) (4 * index)) }
    {
        if index < self.count() {
            Some(u32_at(self.bytes, 4 * index))
        } else {
            None
        }
    }

    /// Returns the bytes of the addresses.
    pub fn as_bytes(&self) -> &'a [u8]
        ensures { result.now ≡ adr_bytes self.now }
    {
        self.bytes
    }
}
