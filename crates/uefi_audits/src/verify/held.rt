ghost use Rattle.std.specs.Prelude.{◌≡◌};
ghost use Rattle.uefi_audits.specs.declared.verify.held.HeldError.TheVariants.{Memory};

use pcr_replay::{Bank, PcrValue};
use std::alloc::{AllocError, Allocator, Global};

/// A PCR that a TPM held.
#[derive(Clone, Copy)]
pub struct HeldPcr {
    /// Its bank.
    pub bank: Bank,
    /// Its number.
    pub pcr: u32,
    /// What it held.
    pub value: PcrValue,
}

/// What a text states of the PCRs that a TPM held.
#[derive(Drop)]
pub struct Held<'a, A: Allocator = Global> {
    /// The PCRs, in the order of their lines. None of them is stated twice.
    pub pcrs: Vec<HeldPcr, A>,
    /// The names of the banks that can't be replayed, whose PCRs aren't among them.
    pub unsupported: Vec<&'a str, A>,
}

/// Why no PCRs were read from a text.
#[derive(Clone, Copy, PartialEq, Eq, Debug, Drop)]
pub enum HeldError {
    /// An allocation failed.
    Memory,
    /// The line that begins at this offset isn't one of a text of PCRs, states a PCR that a line
    /// before it states, or doesn't end.
    Line(usize),
}

impl From<AllocError> for HeldError {
    ghost from_gives = { λ _ error. error ≡ Memory };

    fn from(_error: AllocError) -> HeldError {
        HeldError::Memory
    }
}

/// The bank of which the lines of a text state PCRs.
#[derive(Clone, Copy)]
pub(crate) enum Section {
    /// None: no bank has begun.
    Before,
    /// One that can be replayed.
    Replayed(Bank),
    /// Another, whose PCRs are passed over.
    Unsupported,
}
