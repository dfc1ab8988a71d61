ghost use Rattle.std.specs.Prelude.{◌≡◌, ◌↔◌, ◌%◌, ◌^◌, ◌<◌, [], length, slice_get, slice_index, IsTrue, IsOk, IfOk, Some, IfSome, IsSome, nat_eq, encode_utf8_all};
ghost use Rattle.std.specs.Cmp.{partial_equiv_from_equiv, on_per, on_equiv};
ghost use Rattle.std.specs.Cmp.Lexicographic.{pointwise, nat_list_eq_equiv};
ghost use Rattle.std.specs.Result.{IsErrOf};
ghost use Rattle.std.specs.Iterator.{YieldsFirst, item_count, at_most, UpTo};
ghost use Rattle.std.specs.Iterator.SizeHint.{IsWithinCount};
ghost use Rattle.uefi_base.specs.Ucs2.{IsUcs2Text};
ghost use Rattle.uefi_base.specs.Unaligned.{units_of};
ghost use Rattle.uefi_base.specs.Faults.{HasFault, unaligned_error};
ghost use Rattle.uefi_base.specs.private.Search.{IsFirstNonCharacter};
ghost use Rattle.uefi_base.specs.declared.text_error.FromSliceWithNulError.{FromSliceWithNulError};

use crate::buffer::length_fits;
use crate::chars_lossy::{CharsLossy, write_characters};
use crate::cstring16::CString16;
use crate::little_endian::u16_at;
use crate::text_error::{FromSliceWithNulError, UnalignedCStr16Error};
use crate::ucs2::{fault_of, is_character};
use std::alloc::Allocator;
use std::fmt;
use std::iter::{ExactSizeIterator, FusedIterator};

/// A slice of 16-bit units (UEFI 2.10, 2.3.1, `CHAR16`) in bytes, which may start at any address.
///
/// | offset | bytes | field |
/// |---|---|---|
/// | 2 i | 2 | unit i, little-endian |
///
/// The units may be any numbers. [`to_cstring16`](Self::to_cstring16) tests whether they are UCS-2
/// text, and [`chars_lossy`](Self::chars_lossy) reads any units as UTF-16. A view: it borrows the
/// bytes, and its iterators live as long as they do. Two slices are equal if their units are.
///
/// # Examples
///
/// ```
/// use std::alloc::{AllocError, Global};
/// use uefi_base::UnalignedSlice;
///
/// /// Returns the units of `bytes`, or `None` if a last byte is left over.
/// pub fn units_in(alloc: Global, bytes: &[u8]) -> Result<Option<Vec<u16>>, AllocError> {
///     if bytes.len() % 2 != 0 {
///         return Ok(None);
///     }
///     let units = UnalignedSlice::new(bytes).iter().collect(alloc)?;
///     Ok(Some(units))
/// }
/// ```
///
/// This function is proved in `crates/uefi_examples/src/base.rt`, which shows its contract.
#[derive(Clone, Copy)]
pub struct UnalignedSlice<'a> {
    bytes: &'a [u8],
    pub ghost even: { length bytes.now % 2 ≡ 0 },
}

#[tactic(auto, using(crate::proofs::UnitsOfBytes::half_as_many_units))]
impl<'a> UnalignedSlice<'a> {
    ghost use Rattle.uefi_base.specs.Utf16.{lossy_characters};
    ghost use Rattle.uefi_base.specs.Views.{slice_units, units_left, owned_units, chars_left};

    /// Returns the units in all of `bytes`, whose length is even.
    pub fn new(bytes: &'a [u8]) -> UnalignedSlice<'a>
        requires { length bytes.now % 2 ≡ 0 }
        ensures { slice_units result ≡ units_of bytes.now }
    {
        UnalignedSlice { bytes }
    }

    /// Returns the units in all of `bytes`, or `None` if the length is odd.
    pub fn try_new(bytes: &'a [u8]) -> Option<UnalignedSlice<'a>>
        ensures units { IfSome result (λ slice. slice_units slice ≡ units_of bytes.now) }
        ensures even { IsSome result ↔ (length bytes.now % 2 ≡ 0) }
    {
        if bytes.len() % 2 != 0 {
            return None;
        }
        Some(UnalignedSlice::new(bytes))
    }

    /// Returns the number of units.
    pub fn len(&self) -> usize
        ensures { result ≡ length (slice_units self.now) }
    {
        self.bytes.len() / 2
    }

    /// Returns whether there are no units.
    pub fn is_empty(&self) -> bool
        ensures { IsTrue result ↔ (slice_units self.now ≡ []) }
    {
        self.bytes.is_empty()
    }

    /// Returns the unit at `index`, or `None` if there are at most `index` units.
    #[tactic(auto, using(crate::proofs::UnitsOfBytes::half_as_many_units, std::proofs::lemmas::Option::slice_get_cases))]
    pub fn get(&self, index: usize) -> Option<u16>
        ensures { result ≡ slice_get (slice_units self.now) index }
    {
        if index < self.len() {
            Some(self.unit(index))
        } else {
            None
        }
    }

    /// Returns the unit at an index that is known to be in bounds.
    #[tactic(auto, using(crate::proofs::UnitsOfBytes::half_as_many_units, crate::proofs::UnitsOfBytes::unit_at))]
    fn unit(&self, index: usize) -> u16
        requires { index < length (slice_units self.now) }
        ensures { result ≡ slice_index (slice_units self.now) index }
    {
        u16_at(self.bytes, 2 * index)
    }

    /// Returns an iterator over the units, in order.
    pub fn iter(&self) -> UnalignedSliceIter<'a>
        ensures units { units_left result ≡ slice_units self.now }
        ensures countable { length (units_left result) < 2 ^ 64 }
    {
        UnalignedSliceIter::new(self.bytes)
    }

    /// Returns an iterator over the characters of the units in UTF-16, up to the first NUL or the
    /// end. A surrogate that isn't in a pair is U+FFFD.
    pub fn chars_lossy(&self) -> CharsLossy<'a>
        ensures chars { chars_left result ≡ lossy_characters (slice_units self.now) }
        ensures countable { length (chars_left result) < 2 ^ 64 }
    {
        CharsLossy::new(self.iter())
    }

    /// Returns the text that consists of all the units, in an allocation of its own.
    ///
    /// # Errors
    ///
    /// Fails with the first of these errors that applies:
    ///
    /// - [`TooLong`](UnalignedCStr16Error::TooLong) if there are more than 2^31 units.
    /// - At the lowest index that holds either a surrogate or a zero that isn't the last unit:
    ///   [`InvalidChar`](UnalignedCStr16Error::InvalidChar) with that index if it holds a
    ///   surrogate, [`InteriorNul`](UnalignedCStr16Error::InteriorNul) with that index if it holds
    ///   a zero.
    /// - [`NotNulTerminated`](UnalignedCStr16Error::NotNulTerminated) if no unit is zero.
    /// - [`Memory`](UnalignedCStr16Error::Memory) if an allocation fails. Nothing is allocated
    ///   before the other errors are ruled out.
    pub fn to_cstring16<A: Allocator>(&self, alloc: A) -> Result<CString16<A>, UnalignedCStr16Error>
        ensures text { IfOk result (λ text. owned_units text ≡ slice_units self.now) }
        ensures accepted { IsOk result → IsUcs2Text (slice_units self.now) }
        ensures memory { IsErrOf result UnalignedCStr16Error.Memory
            → IsUcs2Text (slice_units self.now) }
        ensures refused { (fault : FromSliceWithNulError) →
            IsErrOf result (unaligned_error fault) ↔ HasFault (slice_units self.now) fault }
    {
        if let Some(fault) = fault_of(self.len(), self.first_non_character()) {
            return Err(UnalignedCStr16Error::from(fault));
        }
        let units = self.iter().collect::<Vec<u16, A>>(alloc)?;
        Ok(CString16::from_vec_with_nul_unchecked(units))
    }

    /// Returns whether both slices have the same units.
    fn has_units_of(&self, other: &UnalignedSlice<'_>) -> bool
        ensures { IsTrue result ↔ (slice_units self.now ≡ slice_units other.now) }
    {
        if self.len() != other.len() {
            return false;
        }
        for i in 0..self.len() {
            if self.unit(i) != other.unit(i) {
                return false;
            }
        }
        true
    }

    /// Returns the first unit that isn't a character, with its index.
    fn first_non_character(&self) -> Option<(usize, u16)>
        ensures { IsFirstNonCharacter (slice_units self.now) result }
    {
        self.iter()
            .enumerate()
            .find(|(_, unit)| !is_character(*unit))
    }
}

/// Two slices are equal if all their units are.
impl PartialEq for UnalignedSlice<'_> {
    ghost use Rattle.uefi_base.specs.Views.{slice_units};

    ghost eq = { λ x y. pointwise nat_eq (slice_units x) (slice_units y) };

    ghost laws = { on_per slice_units (partial_equiv_from_equiv nat_list_eq_equiv) };

    fn eq(&self, other: &Self) -> bool {
        self.has_units_of(other)
    }
}

impl Eq for UnalignedSlice<'_> {
    ghost use Rattle.uefi_base.specs.Views.{slice_units};

    ghost laws = { on_equiv slice_units nat_list_eq_equiv };
}

/// Writes the characters of [`chars_lossy`](UnalignedSlice::chars_lossy), without an allocation.
impl fmt::Display for UnalignedSlice<'_> {
    ghost use Rattle.uefi_base.specs.Utf16.{lossy_characters};
    ghost use Rattle.uefi_base.specs.Views.{slice_units};

    ghost output = { λ slice. Some (encode_utf8_all (lossy_characters (slice_units slice))) };

    fn fmt<W: fmt::Write>(&self, f: &mut fmt::Formatter<W>) -> fmt::Result {
        write_characters(f, self.chars_lossy())
    }
}

/// An iterator over the units of an [`UnalignedSlice`], in order.
///
/// After the last unit it returns `None` forever. Its [`len`](ExactSizeIterator::len) and
/// [`size_hint`](Iterator::size_hint) are exact.
#[derive(Clone, Copy)]
pub struct UnalignedSliceIter<'a> {
    rest: &'a [u8],
}

#[tactic(auto, using(crate::proofs::UnitsOfBytes::half_as_many_units))]
impl<'a> UnalignedSliceIter<'a> {
    ghost use Rattle.uefi_base.specs.Views.{units_left};

    /// Returns an iterator over the units in `rest`.
    fn new(rest: &'a [u8]) -> UnalignedSliceIter<'a>
        ensures units { units_left result ≡ units_of rest.now }
        ensures countable { length rest.now < 2 ^ 64 }
    {
        length_fits(rest);
        UnalignedSliceIter { rest }
    }
}

impl<'a> Iterator for UnalignedSliceIter<'a> {
    ghost use Rattle.uefi_base.specs.Views.{units_left};

    type Item = u16;

    ghost next_gives = { YieldsFirst units_left };

    ghost remaining = { item_count units_left };

    fn next(&mut self) -> Option<u16> {
        let (unit, rest) = self.rest.split_first_chunk::<2>()?;
        self.rest = rest;
        Some(u16::from_le_bytes(*unit))
    }

    /// Returns the number of units that are left, as both bounds.
    fn size_hint(&self) -> (usize, Option<usize>)
        ensures lower { IsWithinCount result.0 (at_most (length (units_left self.now))) }
        ensures upper { IfSome result.1 (UpTo (at_most (length (units_left self.now)))) }
        ensures least { result.0 ≡ length (units_left self.now) }
        ensures most { result.1 ≡ Some (length (units_left self.now)) }
    {
        let length = self.len();
        (length, Some(length))
    }
}

#[tactic(auto, using(crate::proofs::UnitsOfBytes::half_as_many_units))]
impl<'a> ExactSizeIterator for UnalignedSliceIter<'a> {
    /// Returns the number of units that are left.
    fn len(&self) -> usize {
        self.rest.len() / 2
    }
}

impl<'a> FusedIterator for UnalignedSliceIter<'a> {}
