ghost use Rattle.std.specs.Prelude.{OnOk};
ghost use Rattle.uefi_base.specs.Appending.{AppendsText};
ghost use Rattle.audit_text.specs.text.Missing.{missing_lines};

use shown::ShownName;
use std::alloc::{AllocError, Allocator};
use uefi_audits::naming::bank_name;
use uefi_audits::verify::NamedPcr;

/// Appends a line for each PCR that is asked for and not stated, by the name of the file that states the
/// PCRs.
///
/// # Errors
///
/// [`AllocError`] if an allocation fails. The text may have grown then.
pub fn push_missing<A: Allocator>(
    messages: &mut String<A>,
    name: &str,
    missing: &[NamedPcr],
) -> Result<(), AllocError>
    ensures { OnOk result
        (AppendsText messages.old messages.new (missing_lines name.now missing.now)) }
{
    for pcr in missing {
        let (name, bank, pcr) = (ShownName(name), bank_name(pcr.bank), pcr.pcr);
        writeln!(
            messages,
            "{name}: states no {bank} PCR {pcr}, which is asked for"
        )?;
    }
    Ok(())
}
