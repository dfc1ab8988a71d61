ghost use Rattle.std.specs.Prelude.{◌≡◌, ◌^◌, ◌<◌, length, Some, IfSome};
ghost use Rattle.std.specs.Iterator.{YieldsFirst, item_count, at_most, UpTo};
ghost use Rattle.std.specs.Iterator.SizeHint.{IsWithinCount};
ghost use Rattle.uefi_map.specs.pci.Views.{resources_in, resources_left};

use super::resource::{QwordAddressSpaceDescriptor, RECORD_LENGTH};
use std::iter::{ExactSizeIterator, FusedIterator};
use uefi_base::buffer::length_fits;

/// The resources of a list, in order, each by value.
///
/// After the last resource the iterator stays ended. Its [`len`](ExactSizeIterator::len) and
/// [`size_hint`](Iterator::size_hint) are exact. It borrows the bytes that the list was read from.
#[derive(Clone, Copy)]
pub struct ResourceIter<'a> {
    rest: &'a [u8],
}

#[tactic(auto, using(crate::proofs::pci::Records::resource_count))]
impl<'a> ResourceIter<'a> {
    /// Returns the resources of whole records.
    pub(super) fn new(rest: &'a [u8]) -> ResourceIter<'a>
        ensures resources { resources_left result ≡ resources_in rest.now }
        ensures countable { length (resources_left result) < 2 ^ 64 }
    {
        length_fits(rest);
        ResourceIter { rest }
    }
}

impl<'a> Iterator for ResourceIter<'a> {
    type Item = QwordAddressSpaceDescriptor;

    ghost next_gives = { YieldsFirst resources_left };

    ghost remaining = { item_count resources_left };

    #[tactic(auto, using(crate::proofs::pci::Records::next_resource))]
    fn next(&mut self) -> Option<QwordAddressSpaceDescriptor> {
        let (record, rest) = self.rest.split_at_checked(RECORD_LENGTH)?;
        self.rest = rest;
        Some(QwordAddressSpaceDescriptor::in_record(record))
    }

    /// Returns the count of resources that are left, as both bounds.
    fn size_hint(&self) -> (usize, Option<usize>)
        ensures lower { IsWithinCount result.0 (at_most (length (resources_left self.now))) }
        ensures upper { IfSome result.1 (UpTo (at_most (length (resources_left self.now)))) }
        ensures least { result.0 ≡ length (resources_left self.now) }
        ensures most { result.1 ≡ Some (length (resources_left self.now)) }
    {
        let length = self.len();
        (length, Some(length))
    }
}

#[tactic(auto, using(crate::proofs::pci::Records::resource_count))]
impl<'a> ExactSizeIterator for ResourceIter<'a> {
    /// Returns the count of resources that are left.
    fn len(&self) -> usize {
        self.rest.len() / RECORD_LENGTH
    }
}

impl<'a> FusedIterator for ResourceIter<'a> {}
