ghost use Rattle.std.specs.Prelude.{◌≡◌, map, IfOk};
ghost use Rattle.uefi_audits.specs.verify.Named.{name_of};

use crate::verify::held::HeldPcr;
use pcr_replay::Bank;
use std::alloc::{AllocError, Allocator};

/// A PCR, by its bank and its number.
#[derive(Clone, Copy, PartialEq, Eq, Debug)]
pub struct NamedPcr {
    /// Its bank.
    pub bank: Bank,
    /// Its number.
    pub pcr: u32,
}

/// Returns which PCRs these are.
///
/// # Errors
///
/// [`AllocError`] if an allocation fails.
pub fn named_pcrs<A: Allocator>(alloc: A, held: &[HeldPcr]) -> Result<Vec<NamedPcr, A>, AllocError>
    ensures { IfOk result (λ named. named.items ≡ map name_of held.now) }
{
    held.iter()
        .map(|held| NamedPcr {
            bank: held.bank,
            pcr: held.pcr,
        })
        .collect(alloc)
}
