ghost use Rattle.std.specs.Prelude.{◌≡◌, ◌⊎◌, ◌++◌, ◌∷◌, ◌≢◌, List, ℕ, map, IfErr, IfOk, IsTrue, MatchOption, ◌↔◌};
ghost use Rattle.pcr_replay.specs.Views.{value_of};
ghost use Rattle.uefi_audits.specs.declared.verify.held.HeldPcr.{HeldPcr};
ghost use Rattle.uefi_audits.specs.declared.verify.held.Section.{Section};
ghost use Rattle.uefi_audits.specs.verify.Reading.{Adds, IsFileError, IsFileOf, IsNew, IsOfOther, IsTextError, IsTextOf, IsValueIn, NamesBank, is_labelled};
ghost use Rattle.uefi_audits.specs.verify.Reading.{IsWithoutReturn, StatesPcr, Stated};
ghost use Rattle.uefi_audits.specs.private.verify.Views.{stated_of};

use crate::naming::bank_named;
use crate::verify::held::{Held, HeldError, HeldPcr, Section};
use crate::verify::line::{bank_in_line, pcr_in_line, tpm1_pcr_in_line, value_in};
use crate::verify::splitting::split_once;
use pcr_replay::{Bank, PcrValue};
use std::alloc::{AllocError, Allocator};

/// Returns the PCRs that a text states, as `tpm2_pcrread`, `tpm2_quote` and `tpm2_checkquote` of
/// tpm2-tools print them or as Linux has those of TPM 1.2 in its file `pcrs`, whose bank is SHA-1.
///
/// | line | what it says |
/// |---|---|
/// | `  sha256:` | the PCRs of this bank follow |
/// | `    7 : 0x1234..` | PCR 7 of that bank held this |
/// | `PCR-07: 12 34 ..` | PCR 7 of TPM 1.2 held this |
/// | `quoted: ..`, `signature:`, `  alg: ..`, `  sig: ..` | it is of a quote, and passed over |
/// | `pcrs:`, `calcDigest: ..`, `sig: ..` | the same |
///
/// A line ends with `\n` or `\r\n`, the last one too. Hex digits may be of either case. The PCRs of
/// a bank that can't be replayed are passed over, and its name is returned.
///
/// # Errors
///
/// - [`HeldError::Memory`] if an allocation fails.
/// - [`HeldError::Line`] with the offset of the first line that is none of these, states a value of
///   another length than its bank's, states a PCR that a line before it states, or doesn't end.
pub fn held_in_text<'a, A: Allocator + Copy>(
    alloc: A,
    text: &'a [u8],
) -> Result<Held<'a, A>, HeldError>
    ensures held { IfOk result (λ held.
        IsTextOf text.now held.pcrs.items (map (λ name. name.now) held.unsupported.items)) }
    ensures error { IfErr result (λ error. IsTextError text.now error) }
{
    let (pcrs, unsupported) = (Vec::new(alloc), Vec::new(alloc));
    let mut held = Held { pcrs, unsupported };
    let mut section = Section::Before;
    let mut rest = text;
    while !rest.is_empty() {
        let offset = text.len() - rest.len();
        let Some((bytes, after)) = split_once(rest, b'\n') else {
            return Err(HeldError::Line(offset));
        };
        let line = without_return(bytes);
        let Some(next) = read_line(alloc, &mut held, section, line)? else {
            return Err(HeldError::Line(offset));
        };
        section = next;
        rest = after;
    }
    Ok(held)
}

/// Reads a line: of a bank that begins, of a PCR, which is appended unless it is of a bank that can't
/// be replayed, or of a quote. Returns the bank of the lines that follow; `None` if the line is none of
/// these.
fn read_line<'a, A: Allocator + Copy>(
    alloc: A,
    held: &mut Held<'a, A>,
    section: Section,
    line: &'a [u8],
) -> Result<Option<Section>, AllocError>
    ensures { IfOk result (λ read. MatchOption read
        ((after : Stated) → Adds (stated_of held.old section) line.now after → ⊥)
        (λ next. Adds (stated_of held.old section) line.now (stated_of held.new next))) }
{
    if let Some(name) = bank_in_line(line) {
        return Ok(Some(begin_bank(held, name)?));
    }
    if is_passed_over(section, line) {
        return Ok(Some(section));
    }
    let Some(pcr) = held_in_line(alloc, section, line)? else {
        return Ok(None);
    };
    if !is_new(&pcr, held.pcrs.as_slice()) {
        return Ok(None);
    }
    held.pcrs.push(pcr)?;
    Ok(Some(section))
}

/// Returns the bank of this name, which is noted if it can't be replayed.
fn begin_bank<'a, A: Allocator>(
    held: &mut Held<'a, A>,
    name: &'a str,
) -> Result<Section, AllocError>
    ensures { (section : Section) → IfOk result (λ next.
        NamesBank (stated_of held.old section) name.now (stated_of held.new next)) }
{
    match bank_named(name) {
        Some(bank) => Ok(Section::Replayed(bank)),
        None => {
            held.unsupported.push(name)?;
            Ok(Section::Unsupported)
        }
    }
}

/// Returns whether a line is of a PCR in a bank that can't be replayed, or one that a quote has beside
/// those of banks and PCRs.
fn is_passed_over(section: Section, line: &[u8]) -> bool
    ensures { IsTrue result ↔ (IsOfOther section line.now ⊎ IsTrue (is_labelled line.now)) }
{
    is_of_other(section, line) || is_labelled(line)
}

/// Returns whether a line is of a PCR in a bank that can't be replayed.
fn is_of_other(section: Section, line: &[u8]) -> bool
    ensures { IsTrue result ↔ IsOfOther section line.now }
{
    match section {
        Section::Unsupported => pcr_in_line(line).is_some(),
        _ => false,
    }
}

/// Returns whether a line begins as one that a quote has beside those of banks and PCRs.
#[tactic(auto, unfolding(crate::specs::verify::Reading::is_labelled))]
fn is_labelled(line: &[u8]) -> bool
    ensures { result ≡ is_labelled line.now }
{
    line.starts_with(b"quoted: ")
        || line.starts_with(b"signature:")
        || line.starts_with(b"  alg: ")
        || line.starts_with(b"  sig: ")
        || line.starts_with(b"pcrs:")
        || line.starts_with(b"calcDigest: ")
        || line.starts_with(b"sig: ")
}

/// Returns whether a PCR is none of the others.
fn is_new(held: &HeldPcr, others: &[HeldPcr]) -> bool
    ensures { IsTrue result ↔ IsNew held.now others.now }
{
    others
        .iter()
        .all(|other| held.bank != other.bank || held.pcr != other.pcr)
}

/// Returns the value of a PCR of a bank that its file in Linux's sysfs states, as in
/// `pcr-sha256/0`: hex digits and a line break.
///
/// # Errors
///
/// - [`HeldError::Memory`] if an allocation fails.
/// - [`HeldError::Line`] with 0 if the text is something else, or the value hasn't the bank's
///   length.
pub fn held_in_file<A: Allocator + Copy>(
    alloc: A,
    bank: Bank,
    text: &[u8],
) -> Result<PcrValue, HeldError>
    ensures value { IfOk result (λ value. IsFileOf bank text.now (value_of value)) }
    ensures error { IfErr result (λ error. IsFileError bank text.now error) }
{
    match text {
        [digits @ .., b'\n'] => match value_in(alloc, bank, digits)? {
            Some(value) => Ok(value),
            None => Err(HeldError::Line(0)),
        },
        _ => Err(HeldError::Line(0)),
    }
}

/// Returns the PCR that a line states: one of the bank that began, or one of TPM 1.2. `None` if it
/// states none.
fn held_in_line<A: Allocator + Copy>(
    alloc: A,
    section: Section,
    line: &[u8],
) -> Result<Option<HeldPcr>, AllocError>
    ensures { IfOk result (λ found. MatchOption found
        ((held : HeldPcr) → StatesPcr section line.now held → ⊥)
        (λ held. StatesPcr section line.now held)) }
{
    if let Some((pcr, digits)) = tpm1_pcr_in_line(alloc, line)? {
        return held_of(alloc, Bank::Sha1, pcr, digits.as_slice());
    }
    let Section::Replayed(bank) = section else {
        return Ok(None);
    };
    let Some((pcr, digits)) = pcr_in_line(line) else {
        return Ok(None);
    };
    held_of(alloc, bank, pcr, digits)
}

/// Returns the PCR of this bank and number whose value the digits state; `None` if they state none.
fn held_of<A: Allocator>(
    alloc: A,
    bank: Bank,
    pcr: u32,
    digits: &[u8],
) -> Result<Option<HeldPcr>, AllocError>
    ensures { IfOk result (λ found. MatchOption found
        ((value : List ℕ) → IsValueIn bank digits.now value → ⊥)
        (λ held. (held.bank ≡ bank) × (held.pcr ≡ pcr)
        × IsValueIn bank digits.now (value_of held.value))) }
{
    let Some(value) = value_in(alloc, bank, digits)? else {
        return Ok(None);
    };
    Ok(Some(HeldPcr { bank, pcr, value }))
}

/// Returns the bytes without the `\r` at their end, if there is one.
fn without_return(bytes: &[u8]) -> &[u8]
    ensures { IsWithoutReturn bytes.now result.now }
{
    match bytes {
        [line @ .., b'\r'] => line,
        _ => bytes,
    }
}
