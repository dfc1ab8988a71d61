ghost use Rattle.std.specs.Prelude.{◌≡◌, IfOk};
ghost use Rattle.uefi_audits.specs.verify.Banks.{held_banks, is_held};

use crate::verify::held::HeldPcr;
use pcr_replay::Bank;
use std::alloc::{AllocError, Allocator};

/// Returns the banks of which a PCR is held, in the order of [`Bank::ALL`]: those that have to be
/// replayed.
///
/// # Errors
///
/// [`AllocError`] if an allocation fails.
pub fn held_banks<A: Allocator>(alloc: A, held: &[HeldPcr]) -> Result<Vec<Bank, A>, AllocError>
    ensures { IfOk result (λ banks. banks.items ≡ held_banks held.now) }
{
    Bank::ALL
        .iter()
        .copied()
        .filter(|bank| is_held(held, *bank))
        .collect(alloc)
}

/// Returns whether a PCR of the bank is held.
fn is_held(held: &[HeldPcr], bank: Bank) -> bool
    ensures { result ≡ is_held held.now bank }
{
    held.iter().any(|pcr| pcr.bank == bank)
}
