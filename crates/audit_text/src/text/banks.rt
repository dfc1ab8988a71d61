ghost use Rattle.std.specs.Prelude.{◌≡◌, flat_map, map, OnOk};
ghost use Rattle.uefi_base.specs.Appending.{AppendsText};
ghost use Rattle.pcr_replay.specs.Views.{outcome_of};
ghost use Rattle.pcr_replay.specs.BankReplays.{bank_outcomes_of};
ghost use Rattle.audit_text.specs.text.Pcrs.{bank_lines, padding, pcr_line};

use pcr_replay::{BankPcrs, PcrValue, Undetermined};
use std::alloc::{AllocError, Allocator};
use uefi_audits::naming::bank_name;

/// Appends the PCRs of each bank, as [`push_bank`] does.
///
/// # Errors
///
/// [`AllocError`] if an allocation fails. The text may have grown then.
pub fn push_banks<A: Allocator + Copy>(
    text: &mut String<A>,
    alloc: A,
    banks: &[BankPcrs],
) -> Result<(), AllocError>
    ensures { OnOk result (AppendsText text.old text.new
        (flat_map bank_lines (map bank_outcomes_of banks.now))) }
{
    for bank in banks {
        push_bank(text, alloc, bank)?;
    }
    Ok(())
}

/// Appends the PCRs of a bank, as `tpm2_pcrread` of tpm2-tools 5.4 prints them: a line with the
/// bank's name, and a line for each PCR with its value in hex, in upper case. The word
/// `undetermined` is in place of a value that isn't known.
///
/// # Errors
///
/// [`AllocError`] if an allocation fails. The text may have grown then.
#[tactic(auto, unfolding(crate::specs::text::Pcrs::bank_lines))]
pub fn push_bank<A: Allocator + Copy>(
    text: &mut String<A>,
    alloc: A,
    bank: &BankPcrs,
) -> Result<(), AllocError>
    ensures { OnOk result
        (AppendsText text.old text.new (bank_lines (bank_outcomes_of bank.now))) }
{
    let name = bank_name(bank.bank);
    writeln!(text, "  {name}:")?;
    let outcomes = bank.pcrs.outcomes();
    for number in 0..outcomes.len() {
        push_pcr(text, alloc, number, &outcomes[number])?;
    }
    Ok(())
}

/// Appends the line of a PCR.
#[tactic(auto, unfolding(crate::specs::text::Pcrs::pcr_line))]
fn push_pcr<A: Allocator + Copy>(
    text: &mut String<A>,
    alloc: A,
    number: usize,
    outcome: &Result<PcrValue, Undetermined>,
) -> Result<(), AllocError>
    ensures { OnOk result
        (AppendsText text.old text.new (pcr_line number (outcome_of outcome.now))) }
{
    let gap = padding(number);
    match outcome {
        Ok(value) => {
            let digits = hex::encode_upper(alloc, value.as_bytes())?;
            writeln!(text, "    {number}{gap}: 0x{digits}")
        }
        Err(_) => writeln!(text, "    {number}{gap}: undetermined"),
    }
}

/// Returns what follows a PCR's number, so that it is as wide as two digits.
#[tactic(auto, unfolding(crate::specs::text::Pcrs::padding))]
fn padding(number: usize) -> &'static str
    ensures { result.now ≡ padding number }
{
    if number < 10 { " " } else { "" }
}
