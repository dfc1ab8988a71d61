ghost use Rattle.std.specs.Prelude.{OnOk};
ghost use Rattle.uefi_base.specs.Appending.{AppendsText};
ghost use Rattle.audit_text.specs.text.Remarks.{other_pcrs, uncompared_from, uncompared_line};

use shown::ShownName;
use std::alloc::{AllocError, Allocator};

/// Appends which PCRs events extend that weren't compared, if there are any.
///
/// # Errors
///
/// [`AllocError`] if an allocation fails. The text may have grown then.
#[tactic(auto, unfolding(crate::specs::text::Remarks::uncompared_line))]
pub fn push_uncompared<A: Allocator>(
    messages: &mut String<A>,
    name: &str,
    pcrs: &[u32],
) -> Result<(), AllocError>
    ensures { OnOk result
        (AppendsText messages.old messages.new (uncompared_line name.now pcrs.now)) }
{
    match pcrs {
        [] => Ok(()),
        [first, others @ ..] => push_line(messages, name, *first, others),
    }
}

/// Appends the line of a PCR and further ones.
#[tactic(auto, unfolding(crate::specs::text::Remarks::uncompared_from))]
fn push_line<A: Allocator>(
    messages: &mut String<A>,
    name: &str,
    first: u32,
    others: &[u32],
) -> Result<(), AllocError>
    ensures { OnOk result (AppendsText messages.old messages.new
        (uncompared_from name.now first others.now)) }
{
    let name = ShownName(name);
    write!(messages, "{name}: not compared: PCR {first}")?;
    push_others(messages, others)?;
    writeln!(messages, ", which events extend")
}

/// Appends further PCRs, each after a comma.
#[tactic(auto, unfolding(crate::specs::text::Remarks::other_pcrs))]
pub(super) fn push_others<A: Allocator>(
    messages: &mut String<A>,
    pcrs: &[u32],
) -> Result<(), AllocError>
    ensures { OnOk result (AppendsText messages.old messages.new (other_pcrs pcrs.now)) }
{
    for pcr in pcrs {
        write!(messages, ", {pcr}")?;
    }
    Ok(())
}
