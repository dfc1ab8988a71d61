//! What was measured, in the data of an event.

ghost use Rattle.std.specs.Prelude.{◌≡◌, ◌++◌, ◌∷◌, [], IfOk, MatchOption, List, ℕ};
ghost use Rattle.uefi_audits.specs.Check.{IsCommand, widened};

use std::alloc::{AllocError, Allocator};

/// Returns the data without their closing NUL; `None` if they have none.
pub(super) fn without_nul(bytes: &[u8]) -> Option<&[u8]>
    ensures { MatchOption result ((text : List ℕ) → bytes.now ≡ text ++ 0 ∷ [] → ⊥)
        (λ text. bytes.now ≡ text.now ++ 0 ∷ []) }
{
    bytes.strip_suffix(&[0])
}

/// Returns the command in the data of an event, between what GRUB writes before it and the closing
/// NUL.
pub(super) fn command_in(bytes: &[u8]) -> Option<&[u8]>
    ensures { MatchOption result ((command : List ℕ) → IsCommand bytes.now command → ⊥)
        (λ command. IsCommand bytes.now command.now) }
{
    let text = without_nul(bytes)?;
    if let Some(command) = text.strip_prefix(b"grub_cmd: ") {
        return Some(command);
    }
    if let Some(command) = text.strip_prefix(b"kernel_cmdline: ") {
        return Some(command);
    }
    text.strip_prefix(b"module_cmdline: ")
}

/// Returns the bytes whose units, of UTF-16, the data are; `None` if a unit is 256 or more, or the
/// data have no even length.
pub(super) fn narrowed<A: Allocator>(
    alloc: A,
    units: &[u8],
) -> Result<Option<Vec<u8, A>>, AllocError>
    ensures { IfOk result (λ found. MatchOption found
        ((bytes : List ℕ) → units.now ≡ widened bytes → ⊥)
        (λ bytes. units.now ≡ widened bytes.items)) }
{
    let mut bytes = Vec::new(alloc);
    let mut rest = units;
    while let Some((byte, after)) = split_unit(rest) {
        bytes.push(byte)?;
        rest = after;
    }
    if rest.is_empty() {
        return Ok(Some(bytes));
    }
    Ok(None)
}

/// Returns the first unit of a text of UTF-16, if it is below 256, and the units after it.
fn split_unit(units: &[u8]) -> Option<(u8, &[u8])>
    ensures { MatchOption result ((byte : ℕ) (after : List ℕ) → units.now ≡ byte ∷ 0 ∷ after → ⊥)
        (λ first. units.now ≡ first.0 ∷ 0 ∷ first.1.now) }
{
    match units {
        [byte, 0, after @ ..] => Some((*byte, after)),
        _ => None,
    }
}
