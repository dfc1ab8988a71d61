ghost use Rattle.std.specs.Prelude.{◌≡◌, IfOk, IfErr};
ghost use Rattle.uefi_listing.specs.declared.run.RunError.TheVariants.{Memory};
ghost use Rattle.uefi_listing.specs.Running.{WroteListing, StoppedAt};

use crate::command::Command;
use crate::listing::{Outcome, listing};
use std::alloc::{AllocError, Allocator};
use std::io::Write;

/// The error of [`run`](fn@run).
#[derive(Clone, Copy, PartialEq, Eq, Debug)]
pub enum RunError {
    /// An allocation failed, and nothing was written.
    Memory,
    /// A write failed or accepted no bytes. The count is that of the listing's bytes written
    /// before.
    Output(usize),
}

impl From<AllocError> for RunError {
    ghost from_gives = { λ _ e. e ≡ Memory };

    fn from(_error: AllocError) -> RunError {
        RunError::Memory
    }
}

/// Makes the listing of the bytes in memory, and writes it.
///
/// # Errors
///
/// - [`RunError::Memory`] if an allocation fails. Nothing was written then.
/// - [`RunError::Output`] if a write fails or accepts no bytes, with the count of those that were
///   written before. An error of the kind `Interrupted` ends the run like every other.
pub fn run<A: Allocator + Copy, W: Write>(
    alloc: A,
    command: &Command,
    bytes: &[u8],
    out: &mut W,
) -> Result<Outcome, RunError>
    ensures whole { IfOk result
        (WroteListing command.now bytes.now (W.contents out.old) (W.contents out.new)) }
    ensures part { IfErr result
        (StoppedAt command.now bytes.now (W.contents out.old) (W.contents out.new)) }
{
    let (text, outcome) = listing(alloc, command, bytes)?;
    let mut sent = 0;
    while sent < text.len() {
        match out.write(&text[sent..]) {
            Ok(0) | Err(_) => return Err(RunError::Output(sent)),
            Ok(taken) => sent += taken,
        }
    }
    Ok(outcome)
}
