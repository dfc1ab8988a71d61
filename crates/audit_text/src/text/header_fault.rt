ghost use Rattle.std.specs.Prelude.{OnOk};
ghost use Rattle.uefi_base.specs.Appending.{AppendsText};
ghost use Rattle.audit_text.specs.text.HeaderFault.{header_fault_lines};

use shown::ShownName;
use std::alloc::{AllocError, Allocator};
use uefi_audits::header_fault::HeaderFault;

/// Appends why the event that a log begins with isn't its header, if it should be.
///
/// # Errors
///
/// [`AllocError`] if an allocation fails. The text may have grown then.
#[tactic(auto, unfolding(crate::specs::text::HeaderFault::header_fault_lines))]
pub fn push_header_fault<A: Allocator>(
    messages: &mut String<A>,
    name: &str,
    fault: Option<HeaderFault>,
) -> Result<(), AllocError>
    ensures { OnOk result
        (AppendsText messages.old messages.new (header_fault_lines name.now fault)) }
{
    let name = ShownName(name);
    match fault {
        Some(HeaderFault::Pcr(pcr)) => writeln!(
            messages,
            "{name}: its header is of PCR {pcr}, not of PCR 0, so that it is read as version 1"
        ),
        Some(HeaderFault::Digest) => writeln!(
            messages,
            "{name}: the digest of its header isn't zero, so that it is read as version 1"
        ),
        None => Ok(()),
    }
}
