ghost use Rattle.std.specs.Prelude.{flat_map, map, OnOk};
ghost use Rattle.uefi_base.specs.Appending.{AppendsText};
ghost use Rattle.pcr_replay.specs.Views.{outcome_of, outcomes_of};
ghost use Rattle.pcr_replay.specs.BankReplays.{bank_outcomes_of};
ghost use Rattle.uefi_audits.specs.Numbered.{numbered};
ghost use Rattle.audit_text.specs.text.Undetermined.{undetermined_line, undetermined_lines, undetermined_text};

use pcr_replay::{Bank, BankPcrs, PcrValue, Pcrs, Undetermined};
use shown::ShownName;
use std::alloc::{AllocError, Allocator};
use uefi_audits::naming::bank_name;

/// Appends a line for each PCR that is undetermined, for standard error: the file's name, the bank,
/// the PCR, and the index and the offset of the first event by which it is.
///
/// # Errors
///
/// [`AllocError`] if an allocation fails. The text may have grown then.
pub fn push_undetermined<A: Allocator>(
    told: &mut String<A>,
    name: &str,
    banks: &[BankPcrs],
) -> Result<(), AllocError>
    ensures { OnOk result (AppendsText told.old told.new
        (flat_map (undetermined_lines name.now) (map bank_outcomes_of banks.now))) }
{
    for bank in banks {
        push_of_bank(told, name, bank.bank, &bank.pcrs)?;
    }
    Ok(())
}

/// Appends a line for each PCR of a bank that is undetermined.
#[tactic(auto, unfolding(crate::specs::text::Undetermined::undetermined_lines))]
fn push_of_bank<A: Allocator>(
    told: &mut String<A>,
    name: &str,
    bank: Bank,
    pcrs: &Pcrs,
) -> Result<(), AllocError>
    ensures { OnOk result (AppendsText told.old told.new
        (numbered (undetermined_text name.now bank) 0 (outcomes_of pcrs.now))) }
{
    let outcomes = pcrs.outcomes();
    for number in 0..outcomes.len() {
        push_if_undetermined(told, name, bank, number, &outcomes[number])?;
    }
    Ok(())
}

/// Appends the line of a PCR, if it is undetermined.
#[tactic(auto, unfolding(crate::specs::text::Undetermined::undetermined_text))]
fn push_if_undetermined<A: Allocator>(
    told: &mut String<A>,
    name: &str,
    bank: Bank,
    number: usize,
    outcome: &Result<PcrValue, Undetermined>,
) -> Result<(), AllocError>
    ensures { OnOk result (AppendsText told.old told.new
        (undetermined_text name.now bank number (outcome_of outcome.now))) }
{
    match outcome {
        Ok(_) => Ok(()),
        Err(at) => push_line(told, name, bank, number, at),
    }
}

/// Appends the line of a PCR that is undetermined.
pub(super) fn push_line<A: Allocator>(
    told: &mut String<A>,
    name: &str,
    bank: Bank,
    number: usize,
    at: &Undetermined,
) -> Result<(), AllocError>
    ensures { OnOk result (AppendsText told.old told.new
        (undetermined_line name.now bank number at.now)) }
{
    let (name, bank) = (ShownName(name), bank_name(bank));
    writeln!(told, "{name}: {bank}: PCR {number} is undetermined: {at}")
}
