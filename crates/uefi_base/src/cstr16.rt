ghost use Rattle.std.specs.Prelude.{◌≡◌, ◌↔◌, [], length, encode_utf8_all, string_bytes, nat_eq, IsTrue, IsOk, IfOk, Some};
ghost use Rattle.std.specs.Cmp.{partial_equiv_from_equiv, on_per, on_equiv};
ghost use Rattle.std.specs.Cmp.Lexicographic.{pointwise, nat_list_eq_equiv};
ghost use Rattle.std.specs.Fmt.{DisplaysOnOk};
ghost use Rattle.std.specs.Result.{IsErrOf};
ghost use Rattle.std.specs.Str.{chars};
ghost use Rattle.uefi_base.specs.Ucs2.{AreCharactersBefore, IsUcs2Text, characters_of};
ghost use Rattle.uefi_base.specs.Utf16.{before_nul};
ghost use Rattle.uefi_base.specs.Faults.{HasFault};
ghost use Rattle.uefi_base.specs.private.Search.{IsFirstNonCharacter};
ghost use Rattle.uefi_base.specs.declared.text_error.FromSliceWithNulError.{FromSliceWithNulError};

use crate::text_error::FromSliceWithNulError;
use crate::ucs2::{fault_of, is_character};
use std::alloc::{AllocError, Allocator};
use std::fmt;

/// UCS-2 text that ends with a NUL (UEFI 2.10, 2.3.1, `CHAR16`): at most 2^31 units of 16 bits, of
/// which none is a surrogate and only the last is zero.
///
/// A view: it borrows the units that it was made from, and what it returns lives as long as they
/// do. Two texts are equal if their units are.
///
/// # Examples
///
/// ```
/// use std::alloc::{AllocError, Global};
/// use uefi_base::CStr16;
///
/// /// Returns the characters of `units`, or `None` if the units aren't text.
/// pub fn characters(alloc: Global, units: &[u16]) -> Result<Option<String>, AllocError> {
///     let Ok(text) = CStr16::from_u16_with_nul(units) else {
///         return Ok(None);
///     };
///     Ok(Some(text.to_string(alloc)?))
/// }
/// ```
///
/// This function is proved in `crates/uefi_examples/src/base.rt`, which shows its contract.
#[derive(Clone, Copy)]
pub struct CStr16<'a> {
    units: &'a [u16],
    pub ghost text: { IsUcs2Text units.now },
}

impl<'a> CStr16<'a> {
    ghost use Rattle.uefi_base.specs.Views.{text_units};

    /// Returns the text that consists of all of `units`.
    ///
    /// # Errors
    ///
    /// Fails exactly if `units` aren't text, with the first of these errors that applies:
    ///
    /// - [`TooLong`](FromSliceWithNulError::TooLong) if there are more than 2^31 units.
    /// - At the lowest index that holds either a surrogate or a zero that isn't the last unit:
    ///   [`InvalidChar`](FromSliceWithNulError::InvalidChar) with that index if it holds a
    ///   surrogate, [`InteriorNul`](FromSliceWithNulError::InteriorNul) with that index if it holds
    ///   a zero.
    /// - [`NotNulTerminated`](FromSliceWithNulError::NotNulTerminated) if no unit is zero.
    pub fn from_u16_with_nul(units: &'a [u16]) -> Result<CStr16<'a>, FromSliceWithNulError>
        ensures text { IfOk result (λ text. text_units text ≡ units.now) }
        ensures accepted { IsOk result ↔ IsUcs2Text units.now }
        ensures refused { (fault : FromSliceWithNulError) →
            IsErrOf result fault ↔ HasFault units.now fault }
    {
        match fault_of(units.len(), first_non_character(units)) {
            Some(fault) => Err(fault),
            None => Ok(CStr16 { units }),
        }
    }

    /// Returns the text that consists of all of `units`, which are known to be text.
    pub(crate) fn from_u16_with_nul_unchecked(units: &'a [u16]) -> CStr16<'a>
        requires { IsUcs2Text units.now }
        ensures { text_units result ≡ units.now }
    {
        CStr16 { units }
    }

    /// Returns all units, including the NUL.
    pub fn as_u16_with_nul(&self) -> &'a [u16]
        ensures units { result.now ≡ text_units self.now }
        ensures text { IsUcs2Text result.now }
    {
        self.units
    }

    /// Returns the number of characters: one for each unit but the NUL.
    pub fn num_chars(&self) -> usize
        ensures { result ≡ length (characters_of (text_units self.now)) }
    {
        self.units.len() - 1
    }

    /// Returns whether there are no characters: whether the NUL is the only unit.
    pub fn is_empty(&self) -> bool
        ensures { IsTrue result ↔ (characters_of (text_units self.now) ≡ []) }
    {
        self.num_chars() == 0
    }

    /// Returns whether the characters, without the NUL, are those of `text` before its first
    /// U+0000, or all of them if it has none.
    pub fn eq_str_until_nul(&self, text: &str) -> bool
        ensures { IsTrue result
            ↔ (characters_of (text_units self.now) ≡ before_nul (chars text.now)) }
    {
        are_characters(&self.units[..self.num_chars()], text)
    }

    /// Returns the characters, without the NUL, in a `String`.
    ///
    /// # Errors
    ///
    /// [`AllocError`] if an allocation fails.
    #[tactic(auto, using(crate::proofs::Characters::encodes_more))]
    pub fn to_string<A: Allocator>(&self, alloc: A) -> Result<String<A>, AllocError>
        ensures { IfOk result
            (λ text. string_bytes text ≡ encode_utf8_all (characters_of (text_units self.now))) }
    {
        let mut text = String::with_capacity(alloc, self.num_chars())?;
        for unit in &self.units[..self.num_chars()] {
            text.push(char::from_u32(u32::from(*unit)).unwrap())?;
        }
        Ok(text)
    }
}

/// Two texts are equal if all their units are.
impl PartialEq for CStr16<'_> {
    ghost use Rattle.uefi_base.specs.Views.{text_units};

    ghost eq = { λ x y. pointwise nat_eq (text_units x) (text_units y) };

    ghost laws = { on_per text_units (partial_equiv_from_equiv nat_list_eq_equiv) };

    fn eq(&self, other: &Self) -> bool {
        self.units == other.units
    }
}

impl Eq for CStr16<'_> {
    ghost use Rattle.uefi_base.specs.Views.{text_units};

    ghost laws = { on_equiv text_units nat_list_eq_equiv };
}

/// Writes the characters, without the NUL.
impl fmt::Display for CStr16<'_> {
    ghost use Rattle.uefi_base.specs.Views.{text_units};

    ghost output = { λ text. Some (encode_utf8_all (characters_of (text_units text))) };

    fn fmt<W: fmt::Write>(&self, f: &mut fmt::Formatter<W>) -> fmt::Result {
        write_characters(f, &self.units[..self.num_chars()])
    }
}

/// Writes units that are characters.
fn write_characters<W: fmt::Write>(f: &mut fmt::Formatter<W>, units: &[u16]) -> fmt::Result
    requires { AreCharactersBefore units.now (length units.now) }
    ensures { DisplaysOnOk W.write_str_gives f.old result (Some (encode_utf8_all units.now)) f.new }
{
    for unit in units {
        f.write_char(char::from_u32(u32::from(*unit)).unwrap())?;
    }
    Ok(())
}

/// Returns whether the units are the characters of `text` before its first U+0000.
fn are_characters(units: &[u16], text: &str) -> bool
    ensures { IsTrue result ↔ (units.now ≡ before_nul (chars text.now)) }
{
    let mut index = 0;
    for character in text.chars() {
        if character == '\0' {
            return index == units.len();
        }
        if index == units.len() || u32::from(units[index]) != u32::from(character) {
            return false;
        }
        index += 1;
    }
    index == units.len()
}

/// Returns the first unit that isn't a character, with its index.
fn first_non_character(units: &[u16]) -> Option<(usize, u16)>
    ensures { IsFirstNonCharacter units.now result }
{
    units
        .iter()
        .copied()
        .enumerate()
        .find(|(_, unit)| !is_character(*unit))
}
