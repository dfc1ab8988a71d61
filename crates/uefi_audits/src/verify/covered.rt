ghost use Rattle.std.specs.Prelude.{◌≡◌, ◌++◌, IfOk, OnOk};
ghost use Rattle.tpm_quote.specs.Views.{quote_of, selection_of};
ghost use Rattle.uefi_audits.specs.verify.Covered.{covered_by, covered_pcrs, is_covered, is_selected_by};

use crate::naming::bank_of;
use crate::verify::named::NamedPcr;
use pcr_replay::Bank;
use std::alloc::{AllocError, Allocator};
use tpm_quote::{PcrSelection, Quote};

/// Returns the PCRs that a quote covers, in its order, but for those of banks that can't be replayed.
///
/// # Errors
///
/// [`AllocError`] if an allocation fails.
pub fn covered_pcrs<A: Allocator>(
    alloc: A,
    quote: &Quote<'_>,
) -> Result<Vec<NamedPcr, A>, AllocError>
    ensures { IfOk result (λ covered. covered.items ≡ covered_pcrs (quote_of quote.now)) }
{
    let mut covered = Vec::new(alloc);
    for selection in quote.pcr_selections() {
        push_selected(&mut covered, &selection)?;
    }
    Ok(covered)
}

/// Appends the PCRs that a selection selects, ascending; none if their bank can't be replayed.
#[tactic(auto, unfolding(crate::specs::verify::Covered::named_in))]
fn push_selected<A: Allocator>(
    covered: &mut Vec<NamedPcr, A>,
    selection: &PcrSelection<'_>,
) -> Result<(), AllocError>
    ensures { OnOk result
        (covered.new.items ≡ covered.old.items ++ covered_by (selection_of selection.now)) }
{
    let Some(bank) = bank_of(selection.algorithm()) else {
        return Ok(());
    };
    for pcr in selection.pcrs() {
        covered.push(NamedPcr { bank, pcr: pcr.0 })?;
    }
    Ok(())
}

/// Returns whether a quote covers a PCR of a bank.
pub(crate) fn is_covered(quote: &Quote<'_>, bank: Bank, pcr: u32) -> bool
    ensures { result ≡ is_covered (quote_of quote.now) bank pcr }
{
    quote.pcr_selections().any(|it| it.algorithm() == bank.algorithm() && is_selected_by(&it, pcr))
}

/// Returns whether a selection of a quote selects a PCR.
fn is_selected_by(selection: &PcrSelection<'_>, pcr: u32) -> bool
    ensures { result ≡ is_selected_by (selection_of selection.now) pcr }
{
    selection.pcrs().any(|it| it.0 == pcr)
}
