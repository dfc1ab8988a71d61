ghost use Rattle.std.specs.Prelude.{flat_map, OnOk};
ghost use Rattle.uefi_base.specs.Appending.{AppendsText};
ghost use Rattle.audit_text.specs.text.Remarks.{ignored_line};

use pcr_replay::Ignored;
use shown::ShownName;
use std::alloc::{AllocError, Allocator};
use uefi_audits::ignored::IgnoredEvent;

/// Appends a line for each event that has no effect on any PCR and should have: its index, its offset,
/// and why.
///
/// # Errors
///
/// [`AllocError`] if an allocation fails. The text may have grown then.
pub fn push_ignored<A: Allocator>(
    messages: &mut String<A>,
    name: &str,
    events: &[IgnoredEvent],
) -> Result<(), AllocError>
    ensures { OnOk result (AppendsText messages.old messages.new
        (flat_map (ignored_line name.now) events.now)) }
{
    for event in events {
        push_line(messages, name, event)?;
    }
    Ok(())
}

/// Appends the line of an event that has no effect.
#[tactic(auto, unfolding(crate::specs::text::Remarks::ignored_line))]
fn push_line<A: Allocator>(
    messages: &mut String<A>,
    name: &str,
    event: &IgnoredEvent,
) -> Result<(), AllocError>
    ensures { OnOk result
        (AppendsText messages.old messages.new (ignored_line name.now event.now)) }
{
    let (name, index, offset, pcr) = (ShownName(name), event.index, event.offset, event.pcr);
    match event.why {
        Ignored::NoPcr => writeln!(
            messages,
            "{name}: event {index} at offset {offset} is of PCR {pcr}, which no TPM has"
        ),
        Ignored::OtherPcr => writeln!(
            messages,
            "{name}: event {index} at offset {offset} states the locality, and isn't of PCR 0"
        ),
    }
}
