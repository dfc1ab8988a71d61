ghost use Rattle.std.specs.Prelude.{OnOk};
ghost use Rattle.uefi_base.specs.Appending.{AppendsText};
ghost use Rattle.audit_text.specs.text.Remarks.{start_lines};

use shown::ShownName;
use std::alloc::{AllocError, Allocator};
use uefi_audits::known_start::KnownStart;

/// Appends the line that says at which locality PCR 0 starts, if neither the log nor the caller states
/// one.
///
/// # Errors
///
/// [`AllocError`] if an allocation fails. The text may have grown then.
#[tactic(auto, unfolding(crate::specs::text::Remarks::start_lines))]
pub fn push_start<A: Allocator>(
    messages: &mut String<A>,
    name: &str,
    known: &KnownStart,
) -> Result<(), AllocError>
    ensures { OnOk result
        (AppendsText messages.old messages.new (start_lines name.now known.now)) }
{
    if known.is_stated {
        return Ok(());
    }
    let (name, locality) = (ShownName(name), known.start.locality);
    writeln!(
        messages,
        "{name}: states no locality; PCR 0 starts at locality {locality}"
    )
}
