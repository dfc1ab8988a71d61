ghost use Rattle.std.specs.Prelude.{◌≡◌, ◌↔◌, ◌<◌, [], ◌∷◌, ◌++◌, length, IsTrue, IsOk, IfOk, MatchOption, encode_utf8_all, nat_eq, Some};
ghost use Rattle.std.specs.Cmp.{partial_equiv_from_equiv, on_per, on_equiv};
ghost use Rattle.std.specs.Cmp.Lexicographic.{pointwise, nat_list_eq_equiv};
ghost use Rattle.std.specs.Result.{IsErrOf};
ghost use Rattle.std.specs.Str.{chars};
ghost use Rattle.uefi_base.specs.Ucs2.{last_character, HasUnit, IsUcs2Text, MakeUcs2Text, characters_of};
ghost use Rattle.uefi_base.specs.Utf16.{before_nul};
ghost use Rattle.uefi_base.specs.Faults.{AreTooMany, OffendsFirst};
ghost use Rattle.uefi_base.specs.private.Search.{HasStrFault, IsFirstWithoutUnit};

use crate::cstr16::CStr16;
use crate::text_error::FromStrError;
use crate::ucs2::{MAX_UNIT_CHARACTER, MAX_UNITS};
use std::alloc::{AllocError, Allocator, Global};
use std::fmt;

/// UCS-2 text that owns its units: the owned form of [`CStr16`]. Two texts are equal if their units
/// are; to compare one with a view, compare [`as_cstr16`](Self::as_cstr16).
#[derive(Drop)]
pub struct CString16<A: Allocator = Global> {
    units: Vec<u16, A>,
    pub ghost text: { IsUcs2Text units.items },
}

impl<A: Allocator> CString16<A> {
    ghost use Rattle.uefi_base.specs.Views.{text_units, owned_units};

    /// Returns the text with a unit for each character of `text`, and the NUL.
    ///
    /// # Errors
    ///
    /// Fails with the first of these errors that applies:
    ///
    /// - [`TooLong`](FromStrError::TooLong) if there are more than 2^31 - 1 characters.
    /// - At the first character that is either above U+FFFF or U+0000:
    ///   [`InvalidChar`](FromStrError::InvalidChar) if it is above U+FFFF,
    ///   [`InteriorNul`](FromStrError::InteriorNul) if it is U+0000.
    /// - [`Memory`](FromStrError::Memory) if an allocation fails. Nothing is allocated before the
    ///   other errors are ruled out.
    #[tactic(auto, using(crate::proofs::Characters::text_of_chars))]
    pub fn from_str(alloc: A, text: &str) -> Result<CString16<A>, FromStrError>
        ensures text { IfOk result (λ owned. owned_units owned ≡ chars text.now ++ 0 ∷ []) }
        ensures accepted { IsOk result → MakeUcs2Text (chars text.now) }
        ensures memory { IsErrOf result FromStrError.Memory → MakeUcs2Text (chars text.now) }

        // Each of the other errors is returned exactly if it applies.
        ensures too_long { IsErrOf result FromStrError.TooLong ↔ AreTooMany (chars text.now) }
        ensures invalid_char { IsErrOf result FromStrError.InvalidChar
            ↔ OffendsFirst (chars text.now) (λ character. last_character < character) }
        ensures interior_nul { IsErrOf result FromStrError.InteriorNul
            ↔ OffendsFirst (chars text.now) (λ character. character ≡ 0) }
    {
        if let Some(fault) = fault_of(text) {
            return Err(fault);
        }
        let units = units_with_nul(alloc, text)?;
        Ok(CString16::from_vec_with_nul_unchecked(units))
    }

    /// Returns the text that consists of all of `units`, which are known to be text.
    pub(crate) fn from_vec_with_nul_unchecked(units: Vec<u16, A>) -> CString16<A>
        requires { IsUcs2Text units.items }
        ensures { owned_units result ≡ units.items }
    {
        CString16 { units }
    }

    /// Returns a view of the units that this text owns.
    pub fn as_cstr16(&self) -> CStr16<'_>
        ensures { text_units result ≡ owned_units self.now }
    {
        CStr16::from_u16_with_nul_unchecked(self.units.as_slice())
    }

    /// Returns all units, including the NUL.
    pub fn as_u16_with_nul(&self) -> &[u16]
        ensures units { result.now ≡ owned_units self.now }
        ensures text { IsUcs2Text result.now }
    {
        self.units.as_slice()
    }

    /// Returns whether the characters, without the NUL, are those of `text` before its first
    /// U+0000, or all of them if it has none.
    pub fn eq_str_until_nul(&self, text: &str) -> bool
        ensures { IsTrue result
            ↔ (characters_of (owned_units self.now) ≡ before_nul (chars text.now)) }
    {
        self.as_cstr16().eq_str_until_nul(text)
    }
}

impl<A: Allocator + Clone> Clone for CString16<A> {
    ghost use Rattle.uefi_base.specs.Views.{owned_units};

    ghost is_clone = { λ text copy. owned_units copy ≡ owned_units text };

    /// Returns a copy with the same units, in an allocation of its own.
    ///
    /// # Errors
    ///
    /// [`AllocError`] if an allocation fails.
    fn clone(&self) -> Result<CString16<A>, AllocError> {
        let alloc = self.units.allocator().clone()?;
        let copy = Vec::from_slice(alloc, self.units.as_slice())?;
        Ok(CString16::from_vec_with_nul_unchecked(copy))
    }
}

/// Two texts are equal if all their units are.
impl<A: Allocator> PartialEq for CString16<A> {
    ghost use Rattle.uefi_base.specs.Views.{owned_units};

    ghost eq = { λ x y. pointwise nat_eq (owned_units x) (owned_units y) };

    ghost laws = { on_per owned_units (partial_equiv_from_equiv nat_list_eq_equiv) };

    fn eq(&self, other: &Self) -> bool {
        self.as_cstr16() == other.as_cstr16()
    }
}

impl<A: Allocator> Eq for CString16<A> {
    ghost use Rattle.uefi_base.specs.Views.{owned_units};

    ghost laws = { on_equiv owned_units nat_list_eq_equiv };
}

/// Writes the characters, without the NUL.
impl<A: Allocator> fmt::Display for CString16<A> {
    ghost use Rattle.uefi_base.specs.Views.{owned_units};

    ghost output = { λ text. Some (encode_utf8_all (characters_of (owned_units text))) };

    fn fmt<W: fmt::Write>(&self, f: &mut fmt::Formatter<W>) -> fmt::Result {
        let text = self.as_cstr16();
        write!(f, "{text}")
    }
}

/// Returns the error for characters that can't be made into text.
fn fault_of(text: &str) -> Option<FromStrError>
    ensures { MatchOption result (MakeUcs2Text (chars text.now)) (HasStrFault (chars text.now)) }
{
    if char_count(text) >= MAX_UNITS {
        return Some(FromStrError::TooLong);
    }
    match first_without_unit(text) {
        None => None,
        Some('\0') => Some(FromStrError::InteriorNul),
        Some(_) => Some(FromStrError::InvalidChar),
    }
}

/// Returns the number of characters.
#[tactic(auto, using(std::proofs::lemmas::Str::chars_from_encodes))]
fn char_count(text: &str) -> usize
    ensures { result ≡ length (chars text.now) }
{
    text.chars().count()
}

/// Returns the first character that has no unit of its own.
fn first_without_unit(text: &str) -> Option<char>
    ensures { IsFirstWithoutUnit (chars text.now) result }
{
    text.chars().find(|c| !has_unit(*c))
}

/// Returns whether the character has a unit of its own that isn't the NUL.
fn has_unit(c: char) -> bool
    ensures { IsTrue result ↔ HasUnit c }
{
    c != '\0' && c <= MAX_UNIT_CHARACTER
}

/// Returns a unit for each character, and the NUL.
fn units_with_nul<A: Allocator>(alloc: A, text: &str) -> Result<Vec<u16, A>, AllocError>
    requires { MakeUcs2Text (chars text.now) }
    ensures { IfOk result (λ units. units.items ≡ chars text.now ++ 0 ∷ []) }
{
    let mut units = Vec::with_capacity(alloc, char_count(text) + 1)?;
    for c in text.chars() {
        units.push(c as u16)?;
    }
    units.push(0)?;
    Ok(units)
}
