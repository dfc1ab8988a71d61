ghost use Rattle.std.specs.Prelude.{◌≡◌, OnOk, None};
ghost use Rattle.std.specs.Option.{option_map};
ghost use Rattle.uefi_base.specs.Appending.{AppendsText};
ghost use Rattle.audit_text.specs.text.Agreement.{agree_line, goes_on, is_next, opening, pcr_text, ranges_after};

use shown::ShownName;
use std::alloc::{AllocError, Allocator};
use uefi_audits::naming::bank_name;
use uefi_audits::verify::NamedPcr;

/// Appends the line of PCRs that all agree: each bank with its PCRs, those that follow one another as
/// a range, and where PCR 0 starts.
#[tactic(auto, unfolding(crate::specs::text::Agreement::agree_line))]
pub(super) fn push_agreement<A: Allocator>(
    text: &mut String<A>,
    name: &str,
    pcrs: &[NamedPcr],
    locality: u8,
) -> Result<(), AllocError>
    ensures { OnOk result (AppendsText text.old text.new (agree_line name.now pcrs.now locality)) }
{
    let name = ShownName(name);
    write!(text, "{name}: agrees: ")?;
    push_ranges(text, pcrs)?;
    writeln!(text, " (PCR 0 starts at locality {locality})")
}

/// Appends each bank with its PCRs.
#[tactic(auto, unfolding(crate::specs::text::Agreement::ranges_after))]
pub(super) fn push_ranges<A: Allocator>(
    text: &mut String<A>,
    pcrs: &[NamedPcr],
) -> Result<(), AllocError>
    ensures { OnOk result (AppendsText text.old text.new (ranges_after None pcrs.now)) }
{
    let mut before = None;
    let mut rest = pcrs;
    while let [pcr, others @ ..] = rest {
        push_pcr(text, before, pcr, others.first())?;
        before = Some(pcr);
        rest = others;
    }
    Ok(())
}

/// Appends a PCR that begins or ends a range, by those before and after it.
#[tactic(auto, unfolding(crate::specs::text::Agreement::pcr_text))]
fn push_pcr<A: Allocator>(
    text: &mut String<A>,
    before: Option<&NamedPcr>,
    named: &NamedPcr,
    after: Option<&NamedPcr>,
) -> Result<(), AllocError>
    ensures { OnOk result (AppendsText text.old text.new (pcr_text
        (option_map (λ it. it.now) before.entry) named.now (option_map (λ it. it.now) after.entry))) }
{
    let pcr = named.pcr;
    if !is_next(before, named) {
        push_opening(text, before, named)?;
        return write!(text, "{pcr}");
    }
    if goes_on(named, after) {
        return Ok(());
    }
    write!(text, "-{pcr}")
}

/// Returns whether a PCR is the next one of the bank of the one before it.
#[tactic(auto, unfolding(crate::specs::text::Agreement::is_next))]
fn is_next(before: Option<&NamedPcr>, named: &NamedPcr) -> bool
    ensures { result ≡ is_next (option_map (λ it. it.now) before.entry) named.now }
{
    match before {
        None => false,
        Some(before) => {
            before.bank == named.bank && u64::from(named.pcr) == u64::from(before.pcr) + 1
        }
    }
}

/// Returns whether the PCR after one is the next one of its bank.
#[tactic(auto, unfolding(crate::specs::text::Agreement::goes_on))]
fn goes_on(named: &NamedPcr, after: Option<&NamedPcr>) -> bool
    ensures { result ≡ goes_on named.now (option_map (λ it. it.now) after.entry) }
{
    match after {
        None => false,
        Some(after) => is_next(Some(named), after),
    }
}

/// Appends what is before a PCR that begins a range: the name of its bank, unless the one before
/// it is of that bank.
#[tactic(auto, unfolding(crate::specs::text::Agreement::opening))]
fn push_opening<A: Allocator>(
    text: &mut String<A>,
    before: Option<&NamedPcr>,
    named: &NamedPcr,
) -> Result<(), AllocError>
    ensures { OnOk result (AppendsText text.old text.new
        (opening (option_map (λ it. it.now) before.entry) named.now)) }
{
    let bank = bank_name(named.bank);
    match before {
        None => write!(text, "{bank}: "),
        Some(before) if before.bank == named.bank => text.push_str(", "),
        Some(_) => write!(text, "; {bank}: "),
    }
}
