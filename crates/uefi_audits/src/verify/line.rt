ghost use Rattle.std.specs.Prelude.{◌≡◌, ◌↔◌, ◌⊎◌, List, [], ◌∷◌, ℕ, Some, IfOk, IsTrue, MatchOption};
ghost use Rattle.std.specs.Option.{option_map};
ghost use Rattle.pcr_replay.specs.Views.{value_of};
ghost use Rattle.uefi_audits.specs.verify.Reading.{number_in, two_digits, unspaced, IsBankLine, IsNamedBy, IsPcrLine, IsTpm1Line, IsValueIn};

use hex::FromHexError;
use pcr_replay::{Bank, PcrValue};
use std::alloc::{AllocError, Allocator};

/// Returns the name in the line that a bank begins with, as `tpm2_pcrread` prints it: two spaces,
/// the name and a colon. `None` for another line, or if the name isn't UTF-8.
pub(crate) fn bank_in_line(line: &[u8]) -> Option<&str>
    ensures { MatchOption result ((name : List ℕ) → IsBankLine line.now name → ⊥)
        (λ name. IsBankLine line.now name.now) }
{
    let Some(name) = name_in_line(line) else {
        return None;
    };
    match str::from_utf8(name) {
        Ok(name) => Some(name),
        Err(_) => None,
    }
}

/// Returns the bytes between two spaces that a line begins with and a colon at its end.
fn name_in_line(line: &[u8]) -> Option<&[u8]>
    ensures { MatchOption result ((name : List ℕ) → IsNamedBy line.now name → ⊥)
        (λ name. IsNamedBy line.now name.now) }
{
    match line {
        [b' ', b' ', name @ .., b':'] => Some(name),
        _ => None,
    }
}

/// Returns the number and the digits in the line of a PCR, as `tpm2_pcrread` prints it: four
/// spaces, the number as wide as two digits, `: 0x` and hex digits. `None` for another line.
pub(crate) fn pcr_in_line(line: &[u8]) -> Option<(u32, &[u8])>
    ensures { MatchOption result
        ((number : ℕ) (digits : List ℕ) → IsPcrLine line.now number digits → ⊥)
        (λ found. IsPcrLine line.now found.0 found.1.now) }
{
    match line {
        [
            b' ',
            b' ',
            b' ',
            b' ',
            first,
            second,
            b':',
            b' ',
            b'0',
            b'x',
            digits @ ..,
        ] => Some((number_in(*first, *second)?, digits)),
        _ => None,
    }
}

/// Returns the number and the digits in the line of a PCR of TPM 1.2, as Linux has it: `PCR-`, two
/// digits, a colon, and each byte as a space and two hex digits. `None` for another line.
pub(crate) fn tpm1_pcr_in_line<A: Allocator>(
    alloc: A,
    line: &[u8],
) -> Result<Option<(u32, Vec<u8, A>)>, AllocError>
    ensures { IfOk result (λ read. MatchOption read
        ((number : ℕ) (digits : List ℕ) → IsTpm1Line line.now number digits → ⊥)
        (λ found. IsTpm1Line line.now found.0 found.1.items)) }
{
    let [b'P', b'C', b'R', b'-', tens, ones, b':', spaced @ ..] = line else {
        return Ok(None);
    };
    let Some(number) = two_digits(*tens, *ones) else {
        return Ok(None);
    };
    match unspaced(alloc, spaced)? {
        Some(digits) => Ok(Some((number, digits))),
        None => Ok(None),
    }
}

/// Returns the number in two characters: one digit and a space, or two digits.
#[tactic(auto, unfolding(crate::specs::verify::Reading::number_in))]
fn number_in(first: u8, second: u8) -> Option<u32>
    ensures { result ≡ number_in first second }
{
    if first.is_ascii_digit() && second == b' ' {
        return Some(u32::from(first - b'0'));
    }
    two_digits(first, second)
}

/// Returns the number in two digits.
#[tactic(auto, unfolding(crate::specs::verify::Reading::two_digits))]
pub(crate) fn two_digits(tens: u8, ones: u8) -> Option<u32>
    ensures { result ≡ two_digits tens ones }
{
    if tens.is_ascii_digit() && ones.is_ascii_digit() {
        return Some(10 * u32::from(tens - b'0') + u32::from(ones - b'0'));
    }
    None
}

/// Returns the hex digits of bytes that are each a space and two digits; a space may end them.
fn unspaced<A: Allocator>(alloc: A, text: &[u8]) -> Result<Option<Vec<u8, A>>, AllocError>
    ensures { IfOk result (λ found. option_map (λ digits. digits.items) found ≡ unspaced text.now) }
{
    let mut digits = Vec::new(alloc);
    let mut rest = text;
    while let Some((high, low, after)) = split_byte(rest) {
        digits.push(high)?;
        digits.push(low)?;
        rest = after;
    }
    if is_end(rest) {
        return Ok(Some(digits));
    }
    Ok(None)
}

/// Returns the two digits after the space that a text begins with, and the rest.
fn split_byte(text: &[u8]) -> Option<(u8, u8, &[u8])>
    ensures { MatchOption result
        ((high low : ℕ) (rest : List ℕ) → text.now ≡ 32 ∷ high ∷ low ∷ rest → ⊥)
        (λ split. text.now ≡ 32 ∷ split.0 ∷ split.1 ∷ split.2.now) }
{
    match text {
        [b' ', high, low, rest @ ..] => Some((*high, *low, rest)),
        _ => None,
    }
}

/// Returns whether a text is empty or one space.
fn is_end(text: &[u8]) -> bool
    ensures { IsTrue result ↔ ((text.now ≡ []) ⊎ (text.now ≡ 32 ∷ [])) }
{
    match text {
        [] => true,
        [byte] => *byte == b' ',
        _ => false,
    }
}

/// Returns the value that hex digits state for a PCR of a bank; `None` if they state none, or
/// one that hasn't the bank's length.
pub(crate) fn value_in<A: Allocator>(
    alloc: A,
    bank: Bank,
    digits: &[u8],
) -> Result<Option<PcrValue>, AllocError>
    ensures { IfOk result (λ found. MatchOption found
        ((value : List ℕ) → IsValueIn bank digits.now value → ⊥)
        (λ value. IsValueIn bank digits.now (value_of value))) }
{
    let bytes = match hex::decode(alloc, digits) {
        Ok(bytes) => bytes,
        Err(FromHexError::OutOfMemory) => return Err(AllocError),
        Err(_) => return Ok(None),
    };
    if bytes.len() != bank.size() {
        return Ok(None);
    }
    Ok(Some(PcrValue::new(bytes.as_slice())))
}
