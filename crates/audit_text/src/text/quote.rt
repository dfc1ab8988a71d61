ghost use Rattle.std.specs.Prelude.{◌≡◌, OnOk};
ghost use Rattle.uefi_base.specs.Appending.{AppendsText};
ghost use Rattle.tpm_quote.specs.Views.{clock_info_of};
ghost use Rattle.uefi_audits.specs.verify.Quote.{quote_judgement_of, received_of};
ghost use Rattle.audit_text.specs.text.Quote.{clock_text, digests_text, no_digest_line, no_pcr_line, nonce_differs_line, nonce_text, other_nonce_line, quote_line, quote_verdict_line, safe_text};

use crate::text::agreement::{push_agreement, push_ranges};
use crate::text::undetermined::push_line;
use crate::text::unreplayed::{push_inactive, push_unsupported};
use pcr_replay::NoQuoteDigest;
use shown::ShownName;
use std::alloc::{AllocError, Allocator};
use tpm_quote::ClockInfo;
use uefi_audits::naming::{bank_name, bank_of};
use uefi_audits::verify::{NamedPcr, QuoteVerdict, ReceivedQuote, covered_pcrs};

/// Appends the line of a quote's nonce, if it isn't the one that the quote was asked for with. The
/// line begins with `name`, that of the quote's file.
///
/// # Errors
///
/// [`AllocError`] if an allocation fails. The text may have grown then.
#[tactic(auto, unfolding(crate::specs::text::Quote::unless_asked))]
pub fn push_other_nonce<A: Allocator + Copy>(
    text: &mut String<A>,
    alloc: A,
    name: &str,
    received: &ReceivedQuote<'_>,
) -> Result<(), AllocError>
    ensures { OnOk result (AppendsText text.old text.new
        (other_nonce_line name.now (received_of received.now))) }
{
    let Some(nonce) = received.nonce else {
        return Ok(());
    };
    if received.has_its_nonce() {
        return Ok(());
    }
    let name = ShownName(name);
    write!(text, "{name}: has ")?;
    push_nonce(text, alloc, received.quote.extra_data())?;
    text.push_str(", not ")?;
    push_nonce(text, alloc, nonce)?;
    text.push_str("\n")
}

/// Appends a nonce in hex.
#[tactic(auto, unfolding(crate::specs::text::Quote::nonce_text))]
fn push_nonce<A: Allocator + Copy>(
    text: &mut String<A>,
    alloc: A,
    nonce: &[u8],
) -> Result<(), AllocError>
    ensures { OnOk result (AppendsText text.old text.new (nonce_text nonce.now)) }
{
    if nonce.is_empty() {
        return text.push_str("no nonce");
    }
    let digits = hex::encode(alloc, nonce)?;
    write!(text, "nonce 0x{digits}")
}

/// Appends the line of a quote: the hash function of its digest, its nonce, and the clock of the TPM.
///
/// # Errors
///
/// [`AllocError`] if an allocation fails. The text may have grown then.
#[tactic(auto, unfolding(crate::specs::text::Quote::quote_line))]
pub fn push_quote<A: Allocator + Copy>(
    text: &mut String<A>,
    alloc: A,
    name: &str,
    received: &ReceivedQuote<'_>,
) -> Result<(), AllocError>
    ensures { OnOk result (AppendsText text.old text.new
        (quote_line name.now (received_of received.now))) }
{
    let (name, hash) = (ShownName(name), bank_name(received.hash));
    write!(text, "{name}: hash {hash}, ")?;
    push_nonce(text, alloc, received.quote.extra_data())?;
    push_clock(text, received.quote.clock_info())
}

/// Appends a clock.
#[tactic(auto, unfolding(crate::specs::text::Quote::clock_text))]
fn push_clock<A: Allocator>(text: &mut String<A>, clock_info: ClockInfo) -> Result<(), AllocError>
    ensures { OnOk result (AppendsText text.old text.new (clock_text (clock_info_of clock_info))) }
{
    let ClockInfo {
        clock,
        reset_count,
        restart_count,
        safe,
    } = clock_info;
    let safe = safe_text(safe);
    writeln!(
        text,
        ", clock {clock} ms, {safe}, reset count {reset_count}, restart count {restart_count}"
    )
}

/// Returns whether a clock never showed a greater value, in words.
fn safe_text(safe: bool) -> &'static str
    ensures { result.now ≡ safe_text safe }
{
    if safe { "safe" } else { "not safe" }
}

/// Appends the line of a verdict on a quote: the PCRs that it covers, and if the log doesn't lead to
/// them, both digests. It says that all agrees only if the nonce does, too. Nothing, if the log leads to
/// no digest. The line begins with `name`, the log's.
///
/// # Errors
///
/// [`AllocError`] if an allocation fails. The text may have grown then.
#[tactic(auto, unfolding(crate::specs::text::Quote::by_digest))]
pub fn push_quote_verdict<A: Allocator + Copy>(
    text: &mut String<A>,
    alloc: A,
    name: &str,
    verdict: &QuoteVerdict<'_>,
) -> Result<(), AllocError>
    ensures { OnOk result (AppendsText text.old text.new
        (quote_verdict_line name.now (quote_judgement_of verdict.now))) }
{
    let Ok(found) = &verdict.digest else {
        return Ok(());
    };
    let quote = &verdict.received.quote;
    let covered = covered_pcrs(alloc, quote)?;
    let locality = verdict.start.start.locality;
    if verdict.agrees() {
        return push_agreement(text, name, covered.as_slice(), locality);
    }
    if verdict.digest_agrees {
        return push_nonce_differs(text, name, covered.as_slice(), locality);
    }
    let name = ShownName(name);
    write!(text, "{name}: differs: ")?;
    push_ranges(text, covered.as_slice())?;
    push_digests(text, alloc, quote.pcr_digest(), found.as_bytes(), locality)
}

/// Appends the line of a quote that differs in its nonce alone: the log leads to the PCRs that it covers.
#[tactic(auto, unfolding(crate::specs::text::Quote::nonce_differs_line))]
fn push_nonce_differs<A: Allocator>(
    text: &mut String<A>,
    name: &str,
    pcrs: &[NamedPcr],
    locality: u8,
) -> Result<(), AllocError>
    ensures { OnOk result (AppendsText text.old text.new
        (nonce_differs_line name.now pcrs.now locality)) }
{
    let name = ShownName(name);
    write!(text, "{name}: differs: the nonce, not ")?;
    push_ranges(text, pcrs)?;
    writeln!(text, " (PCR 0 starts at locality {locality})")
}

/// Appends the digest of a quote, and that of the PCRs to which a log leads.
#[tactic(auto, unfolding(crate::specs::text::Quote::digests_text))]
fn push_digests<A: Allocator + Copy>(
    text: &mut String<A>,
    alloc: A,
    quoted: &[u8],
    found: &[u8],
    locality: u8,
) -> Result<(), AllocError>
    ensures { OnOk result (AppendsText text.old text.new
        (digests_text quoted.now found.now locality)) }
{
    let quoted = hex::encode(alloc, quoted)?;
    let found = hex::encode(alloc, found)?;
    writeln!(
        text,
        ": the quote has the digest 0x{quoted}, the log leads to 0x{found} \
         (PCR 0 starts at locality {locality})"
    )
}

/// Appends why a log leads to no digest, for standard error, by the log's name.
///
/// # Errors
///
/// [`AllocError`] if an allocation fails. The text may have grown then.
#[tactic(auto, unfolding(crate::specs::text::Quote::no_digest_line))]
pub fn push_no_digest(
    messages: &mut String,
    name: &str,
    why: NoQuoteDigest,
) -> Result<(), AllocError>
    ensures { OnOk result
        (AppendsText messages.old messages.new (no_digest_line name.now why)) }
{
    match why {
        NoQuoteDigest::NoBank(algorithm) => match bank_of(algorithm) {
            Some(bank) => push_inactive(messages, name, &[bank]),
            None => push_unsupported(messages, name, &[algorithm.0]),
        },
        NoQuoteDigest::Undetermined(algorithm, pcr, at) => match bank_of(algorithm) {
            Some(bank) => push_line(messages, name, bank, pcr.0 as usize, &at),
            None => push_unsupported(messages, name, &[algorithm.0]),
        },
    }
}

/// Appends that a quote covers no PCR, for standard error, by the name of its file.
///
/// # Errors
///
/// [`AllocError`] if an allocation fails. The text may have grown then.
#[tactic(auto, unfolding(crate::specs::text::Quote::no_pcr_line))]
pub fn push_no_pcr<A: Allocator>(messages: &mut String<A>, name: &str) -> Result<(), AllocError>
    ensures { OnOk result (AppendsText messages.old messages.new (no_pcr_line name.now)) }
{
    let name = ShownName(name);
    writeln!(messages, "{name}: covers no PCR")
}
