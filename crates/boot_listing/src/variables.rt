//! The boot manager's variables among the files of a folder.

ghost use Rattle.std.specs.Prelude.{◌≡◌, ◌↔◌, ◌<◌, ◌^◌, ◌++◌, ◌∷◌, [], List, ℕ, length, nat_lt, IfOk, IfSome, IsTrue, Some, true, option_map};
ghost use Rattle.std.specs.Fmt.{digit_glyph};
ghost use Rattle.std.specs.Option.{unwrap_or};
ghost use Rattle.uefi_base.specs.Views.{slice_units};
ghost use Rattle.boot_listing.specs.Variables.{IsVariable, boot_current, boot_order, bytes_if, distinct_after, is_file_of, is_other, name_of, numbers_of, ordered, value_of};
ghost use Rattle.boot_listing.specs.private.Found.{Finds, IsFound, found_of};
ghost use Rattle.boot_listing.specs.private.Marks.{AreMarks};
ghost use Rattle.boot_listing.specs.declared.variables.BootVariable.TheVariants.{BootOption};

use std::alloc::{AllocError, Allocator};
use std::fmt;
use uefi_base::UnalignedSlice;
use uefi_base::little_endian::u16_at;

/// A file of a folder of variables, as it was read.
#[derive(Drop)]
pub struct VariableFile {
    /// The name in the folder, such as `BootOrder-8be4df61-93ca-11d2-aa0d-00e098032b8c`.
    pub name: String,
    /// Four bytes of attributes, then the value (Linux, efivarfs).
    pub bytes: Vec<u8>,
}

/// A variable of the boot manager (UEFI 2.10, 3.3).
#[derive(Clone, Copy)]
pub enum BootVariable {
    /// `BootCurrent`: the boot option that was booted.
    BootCurrent,
    /// `BootOrder`: the order in which boot options are tried.
    BootOrder,
    /// `Boot####`: a boot option, by its number in upper case hex.
    BootOption(u16),
}

/// How a file's name ends in efivarfs: the GUID `EFI_GLOBAL_VARIABLE` (UEFI 2.10, 3.3).
const GLOBAL_VARIABLE: &str = "-8be4df61-93ca-11d2-aa0d-00e098032b8c";

/// How many bytes of attributes a file has before the value.
const ATTRIBUTES_LENGTH: usize = 4;

/// How many boot options there can be.
const OPTION_COUNT: usize = 1 << 16;

impl BootVariable {
    /// Returns the variable that a file of this name is, or `None` if it is another one.
    ///
    /// The name is that of the variable, alone or with the GUID behind it.
    pub fn of_file(name: &str) -> Option<BootVariable>
        ensures variable { (variable : BootVariable) → IsVariable variable
            → IsTrue (is_file_of variable name.now) ↔ (result ≡ Some variable) }
        ensures valid { IfSome result IsVariable }
    {
        match name.strip_suffix(GLOBAL_VARIABLE) {
            Some(front) => BootVariable::named(front),
            None => BootVariable::named(name),
        }
    }

    /// Returns the variable of this name.
    fn named(name: &str) -> Option<BootVariable>
        ensures variable { (variable : BootVariable) → IsVariable variable
            → (name.now ≡ name_of variable) ↔ (result ≡ Some variable) }
        ensures valid { IfSome result IsVariable }
    {
        match name {
            "BootCurrent" => Some(BootVariable::BootCurrent),
            "BootOrder" => Some(BootVariable::BootOrder),
            _ => Some(BootVariable::BootOption(option_number(name)?)),
        }
    }
}

/// Writes the name of the variable.
impl fmt::Display for BootVariable {
    ghost output = { λ variable. Some (name_of variable) };

    fn fmt<W: fmt::Write>(&self, f: &mut fmt::Formatter<W>) -> fmt::Result {
        match self {
            BootVariable::BootCurrent => f.write_str("BootCurrent"),
            BootVariable::BootOrder => f.write_str("BootOrder"),
            BootVariable::BootOption(number) => {
                let (high, low) = ((*number / 256) as u8, (*number % 256) as u8);
                write!(f, "Boot{high:02X}{low:02X}")
            }
        }
    }
}

/// Returns the number of the boot option of this name.
fn option_number(name: &str) -> Option<u16>
    ensures { (number : ℕ) → number < 2 ^ 16
        → (name.now ≡ name_of (BootOption number)) ↔ (result ≡ Some number) }
{
    let [a, b, c, d] = name.strip_prefix("Boot")?.as_bytes() else {
        return None;
    };
    let high = 16 * digit_value(*a)? + digit_value(*b)?;
    let low = 16 * digit_value(*c)? + digit_value(*d)?;
    Some(256 * high + low)
}

/// Returns the value of an upper case hex digit.
fn digit_value(digit: u8) -> Option<u16>
    ensures value { (value : ℕ) → value < 16
        → (digit ≡ digit_glyph true value) ↔ (result ≡ Some value) }
    ensures bound { IfSome result (λ value. value < 16) }
{
    match digit {
        b'0'..=b'9' => Some(u16::from(digit - b'0')),
        b'A'..=b'F' => Some(u16::from(digit - b'A') + 10),
        _ => None,
    }
}

/// What a folder has of a variable.
#[derive(Clone, Copy)]
pub(crate) enum Found<'a> {
    /// No file.
    Nothing,
    /// One file, with these bytes.
    Once(&'a [u8]),
    /// More than one: alone, and with the GUID behind it.
    Twice,
}

impl<'a> Found<'a> {
    /// Returns whether there is a file.
    fn is_there(self) -> bool
        ensures { (files : List (List ℕ)) → IsFound files self.entry
            → result ≡ nat_lt 0 (length files) }
    {
        match self {
            Found::Nothing => false,
            Found::Once(_) | Found::Twice => true,
        }
    }

    /// Returns the numbers of boot options that it has, if it is `BootOrder` and can be read.
    fn numbers(self) -> Option<UnalignedSlice<'a>>
        ensures { (files : List (List ℕ)) → IsFound files self.entry
            → unwrap_or (option_map slice_units result) [] ≡ ordered files }
    {
        match self {
            Found::Once(bytes) => boot_order(value_of(bytes)?),
            Found::Nothing | Found::Twice => None,
        }
    }

    /// Returns what there is of the variable with one more file, which has these bytes.
    fn and(self, bytes: &'a [u8]) -> Found<'a>
        ensures { (files : List (List ℕ)) → IsFound files self.entry
            → IsFound (files ++ bytes.now ∷ []) result }
    {
        match self {
            Found::Nothing => Found::Once(bytes),
            Found::Once(_) | Found::Twice => Found::Twice,
        }
    }
}

/// What a folder has of each variable of the boot manager.
#[derive(Drop)]
pub(crate) struct BootVariables<'a, A: Allocator> {
    /// Of `BootCurrent`.
    pub(crate) current: Found<'a>,
    /// Of `BootOrder`.
    pub(crate) order: Found<'a>,
    /// Of `Boot####`, by its number: 65,536 of them.
    pub(crate) options: Vec<Found<'a>, A>,
}

impl<'a, A: Allocator + Copy> BootVariables<'a, A> {
    /// Returns what the files have of each variable.
    ///
    /// # Errors
    ///
    /// [`AllocError`] if an allocation fails.
    pub(crate) fn find(
        alloc: A,
        files: &'a [VariableFile],
    ) -> Result<BootVariables<'a, A>, AllocError>
        ensures { IfOk result (Finds files.now) }
    {
        let mut found = BootVariables {
            current: Found::Nothing,
            order: Found::Nothing,
            options: Vec::from_elem(alloc, Found::Nothing, OPTION_COUNT)?,
        };
        for file in files {
            found.note(file);
        }
        Ok(found)
    }

    /// Takes note of a file, if it is one of a variable.
    fn note(&mut self, file: &'a VariableFile)
        requires { length self.old.options.items ≡ 2 ^ 16 }
        ensures count { length self.new.options.items ≡ 2 ^ 16 }
        ensures each { (variable : BootVariable) → IsVariable variable → (files : List (List ℕ))
            → IsFound files (found_of self.old variable)
            → IsFound (files ++ bytes_if variable file.now) (found_of self.new variable) }
    {
        let bytes = file.bytes.as_slice();
        match BootVariable::of_file(file.name.as_str()) {
            Some(BootVariable::BootCurrent) => self.current = self.current.and(bytes),
            Some(BootVariable::BootOrder) => self.order = self.order.and(bytes),
            Some(BootVariable::BootOption(number)) => {
                let number = usize::from(number);
                self.options[number] = self.options[number].and(bytes);
            }
            None => {}
        }
    }

    /// Returns the numbers of the boot options, each once: those that `BootOrder` has, in its order,
    /// then those of the other files, from the least.
    ///
    /// # Errors
    ///
    /// [`AllocError`] if an allocation fails.
    pub(crate) fn numbers(&self, alloc: A) -> Result<Vec<u16, A>, AllocError>
        requires { length self.now.options.items ≡ 2 ^ 16 }
        ensures { IfOk result (λ numbers. (files : List VariableFile) → Finds files self.now
            → numbers.items ≡ numbers_of files) }
    {
        let order = self.order.numbers().unwrap_or(UnalignedSlice::new(&[]));
        let (mut numbers, is_ordered) = distinct(alloc, order)?;
        for index in 0..OPTION_COUNT {
            if self.is_other(is_ordered.as_slice(), index) {
                numbers.push(index as u16)?;
            }
        }
        Ok(numbers)
    }

    /// Returns whether there is a file of the boot option with this number, and the order hasn't it.
    fn is_other(&self, is_ordered: &[bool], index: usize) -> bool
        requires number { index < 2 ^ 16 }
        requires count { length self.now.options.items ≡ 2 ^ 16 }
        requires marks { length is_ordered.now ≡ 2 ^ 16 }
        ensures { (files : List VariableFile) → (order : List ℕ) → Finds files self.now
            → AreMarks order is_ordered.now → result ≡ is_other files order index }
    {
        !is_ordered[index] && self.options[index].is_there()
    }
}

/// Returns the numbers, each where it comes first, and for each boot option whether it is among
/// them.
fn distinct<A: Allocator + Copy>(
    alloc: A,
    order: UnalignedSlice<'_>,
) -> Result<(Vec<u16, A>, Vec<bool, A>), AllocError>
    ensures numbers { IfOk result (λ r. r.0.items ≡ distinct_after [] (slice_units order.entry)) }
    ensures marks { IfOk result (λ r. AreMarks (slice_units order.entry) r.1.items) }
{
    let mut numbers = Vec::new(alloc);
    let mut is_there = Vec::from_elem(alloc, false, OPTION_COUNT)?;
    for number in order.iter() {
        let index = usize::from(number);
        if !is_there[index] {
            numbers.push(number)?;
            is_there[index] = true;
        }
    }
    Ok((numbers, is_there))
}

/// Returns the value of a variable, which comes after four bytes of attributes.
pub(crate) fn value_of(bytes: &[u8]) -> Option<&[u8]>
    ensures { option_map (λ value. value.now) result ≡ value_of bytes.now }
{
    bytes.get(ATTRIBUTES_LENGTH..)
}

/// Returns the numbers of boot options that the value of `BootOrder` has, two bytes each,
/// little-endian; `None` if its length is odd.
pub(crate) fn boot_order(value: &[u8]) -> Option<UnalignedSlice<'_>>
    ensures { option_map slice_units result ≡ boot_order value.now }
{
    if value.len() % 2 != 0 {
        return None;
    }
    Some(UnalignedSlice::new(value))
}

/// Returns the number of the boot option that the value of `BootCurrent` is, which has two bytes,
/// little-endian; `None` if it hasn't two.
pub(crate) fn boot_current(value: &[u8]) -> Option<u16>
    ensures { result ≡ boot_current value.now }
{
    if value.len() != 2 {
        return None;
    }
    Some(u16_at(value, 0))
}
