ghost use Rattle.std.specs.Prelude.{OnOk};
ghost use Rattle.std.specs.Option.{option_map};
ghost use Rattle.uefi_base.specs.Appending.{AppendsText};
ghost use Rattle.pcr_replay.specs.Views.{outcome_of, value_of};
ghost use Rattle.audit_text.specs.text.Verdict.{line_of, outcome_text, value_text, verdict_lines};
ghost use Rattle.uefi_audits.specs.verify.Verdict.{comparison_of};

use crate::text::agreement::push_agreement;
use pcr_replay::{PcrValue, Undetermined};
use shown::ShownName;
use std::alloc::{AllocError, Allocator};
use uefi_audits::naming::bank_name;
use uefi_audits::verify::{HeldPcr, Verdict, agrees, led_to, named_pcrs};

/// Appends whether a log leads to these PCRs: one line if it does, or else a line for each PCR that
/// doesn't agree. The lines name the log by `name`, and the locality at which PCR 0 starts.
///
/// # Errors
///
/// [`AllocError`] if an allocation fails. The text may have grown then.
pub fn push_verdict<A: Allocator + Copy>(
    text: &mut String<A>,
    alloc: A,
    name: &str,
    held: &[HeldPcr],
    verdict: &Verdict<A>,
) -> Result<(), AllocError>
    ensures { OnOk result (AppendsText text.old text.new
        (verdict_lines name.now (comparison_of verdict.now) held.now)) }
{
    if verdict.is_agreement() {
        let named = named_pcrs(alloc, held)?;
        return push_agreement(text, name, named.as_slice(), verdict.start.start.locality);
    }
    for pcr in held {
        push_if_disagreeing(text, alloc, name, pcr, verdict)?;
    }
    Ok(())
}

/// Appends the line of a PCR, unless it agrees.
#[tactic(auto, unfolding(crate::specs::text::Verdict::line_of))]
fn push_if_disagreeing<A: Allocator + Copy>(
    text: &mut String<A>,
    alloc: A,
    name: &str,
    held: &HeldPcr,
    verdict: &Verdict<A>,
) -> Result<(), AllocError>
    ensures { OnOk result (AppendsText text.old text.new
        (line_of name.now (comparison_of verdict.now) held.now)) }
{
    let replays = verdict.replays.as_slice();
    if agrees(held, replays) {
        return Ok(());
    }
    let (name, bank, pcr) = (ShownName(name), bank_name(held.bank), held.pcr);
    let digits = hex::encode_upper(alloc, held.value.as_bytes())?;
    write!(text, "{name}: {bank} PCR {pcr} held 0x{digits}")?;
    let locality = verdict.start.start.locality;
    push_outcome(text, alloc, pcr, locality, led_to(held, replays))
}

/// Appends what the log leads to in a PCR.
#[tactic(auto, unfolding(crate::specs::text::Verdict::outcome_text))]
fn push_outcome<A: Allocator + Copy>(
    text: &mut String<A>,
    alloc: A,
    pcr: u32,
    locality: u8,
    outcome: Option<&Result<PcrValue, Undetermined>>,
) -> Result<(), AllocError>
    ensures { OnOk result (AppendsText text.old text.new (outcome_text pcr locality
        (option_map (λ outcome. outcome_of outcome.now) outcome.entry))) }
{
    match outcome {
        None => writeln!(text, ", and the log has no such PCR"),
        Some(Ok(value)) => push_value(text, alloc, pcr, locality, value),
        Some(Err(at)) => writeln!(text, ", undetermined: {at}"),
    }
}

/// Appends the value to which the log leads in a PCR, and for PCR 0 where it starts.
fn push_value<A: Allocator + Copy>(
    text: &mut String<A>,
    alloc: A,
    pcr: u32,
    locality: u8,
    value: &PcrValue,
) -> Result<(), AllocError>
    ensures { OnOk result (AppendsText text.old text.new
        (value_text pcr locality (value_of value.now))) }
{
    let digits = hex::encode_upper(alloc, value.as_bytes())?;
    if pcr == 0 {
        return writeln!(
            text,
            ", the log leads to 0x{digits}, PCR 0 starts at locality {locality}"
        );
    }
    writeln!(text, ", the log leads to 0x{digits}")
}
