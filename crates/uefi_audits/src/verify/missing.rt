ghost use Rattle.std.specs.Prelude.{◌≡◌, ◌++◌, IfOk, OnOk};
ghost use Rattle.uefi_audits.specs.verify.Missing.{asked_pcrs, is_among, is_asked, is_missing, is_stated, missing_of, missing_pcrs};

use crate::verify::named::NamedPcr;
use crate::verify::selection::PcrSelection;
use pcr_replay::{Bank, PCR_COUNT};
use std::alloc::{AllocError, Allocator};

/// Returns the PCRs that are asked for and not among those stated, by banks in the order of
/// [`Bank::ALL`]. Without selections none is missing.
///
/// A PCR that a selection selects is asked for in the bank that the selection names. If it names none,
/// whoever states the PCRs chooses the banks: it is asked for in each bank of which a PCR is stated.
///
/// # Errors
///
/// [`AllocError`] if an allocation fails.
#[tactic(auto, unfolding(crate::specs::verify::Missing::missing_pcrs))]
pub fn missing_pcrs<A: Allocator>(
    alloc: A,
    stated: &[NamedPcr],
    selections: &[PcrSelection],
) -> Result<Vec<NamedPcr, A>, AllocError>
    ensures { IfOk result (λ missing. missing.items ≡ missing_pcrs selections.now stated.now) }
{
    let mut missing = Vec::new(alloc);
    for bank in &Bank::ALL {
        push_missing(&mut missing, stated, selections, *bank)?;
    }
    Ok(missing)
}

/// Returns the PCRs that selections ask for, each of which names a bank, by banks in the order of
/// [`Bank::ALL`].
///
/// # Errors
///
/// [`AllocError`] if an allocation fails.
pub fn asked_pcrs<A: Allocator>(
    alloc: A,
    selections: &[PcrSelection],
) -> Result<Vec<NamedPcr, A>, AllocError>
    ensures { IfOk result (λ asked. asked.items ≡ asked_pcrs selections.now) }
{
    missing_pcrs(alloc, &[], selections)
}

/// Appends the PCRs of a bank that are asked for and not stated.
fn push_missing<A: Allocator>(
    missing: &mut Vec<NamedPcr, A>,
    stated: &[NamedPcr],
    selections: &[PcrSelection],
    bank: Bank,
) -> Result<(), AllocError>
    ensures { OnOk result (missing.new.items
        ≡ missing.old.items ++ missing_of selections.now stated.now bank) }
{
    for pcr in 0..PCR_COUNT as u32 {
        if is_missing(selections, stated, bank, pcr) {
            missing.push(NamedPcr { bank, pcr })?;
        }
    }
    Ok(())
}

/// Returns whether a PCR is asked for and not stated.
fn is_missing(selections: &[PcrSelection], stated: &[NamedPcr], bank: Bank, pcr: u32) -> bool
    ensures { result ≡ is_missing selections.now stated.now bank pcr }
{
    is_asked(selections, stated, bank, pcr) && !is_among(stated, bank, pcr)
}

/// Returns whether a PCR is asked for by one of the selections.
fn is_asked(selections: &[PcrSelection], stated: &[NamedPcr], bank: Bank, pcr: u32) -> bool
    ensures { result ≡ is_asked selections.now stated.now bank pcr }
{
    selections.iter().any(|it| {
        it.is_selected(bank, pcr) && (it.bank().is_some() || is_stated(stated, bank))
    })
}

/// Returns whether a PCR of a bank is among these.
fn is_among(stated: &[NamedPcr], bank: Bank, pcr: u32) -> bool
    ensures { result ≡ is_among stated.now bank pcr }
{
    stated.iter().any(|it| it.bank == bank && it.pcr == pcr)
}

/// Returns whether a PCR of the bank is among these.
fn is_stated(stated: &[NamedPcr], bank: Bank) -> bool
    ensures { result ≡ is_stated stated.now bank }
{
    stated.iter().any(|it| it.bank == bank)
}
