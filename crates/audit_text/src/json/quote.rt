ghost use Rattle.std.specs.Prelude.{map, IfOk, OnOk};
ghost use Rattle.uefi_base.specs.Appending.{AppendsText};
ghost use Rattle.tpm_quote.specs.PcrSelection.{selected_pcrs};
ghost use Rattle.tpm_quote.specs.Views.{clock_info_of, quote_of, selection_of};
ghost use Rattle.uefi_audits.specs.verify.Compared.{judged_quote_of};
ghost use Rattle.uefi_audits.specs.verify.Quote.{quote_judgement_of};
ghost use Rattle.audit_text.specs.json.Coverage.{pcr_number};
ghost use Rattle.audit_text.specs.private.JsonValues.{AreValuesOf, IsValueOf};
ghost use Rattle.audit_text.specs.json.Quote.{clock_json, failed_json, quote_json, quote_line, quote_object, selection_json};

use crate::json::coverage::{covered_json, not_covered_json, push_unless};
use crate::json::digests::algorithm_json;
use crate::json::event::hex_json;
use crate::json::line::push_line;
use serde_json::{Map, Value, json, put};
use std::alloc::{AllocError, Global};
use tpm_quote::{ClockInfo, PcrSelection, Quote};
use uefi_audits::naming::bank_name;
use uefi_audits::verify::{ComparedQuote, QuoteVerdict};

/// Appends whether a log agrees with a quote as one line of JSON: an object, and a line break.
///
/// | key | value |
/// |---|---|
/// | `agrees` | whether nothing failed |
/// | `covered` | the PCRs that the quote covers, an object for each bank: `bank`, `pcrs` |
/// | `failed` | what failed: `digest` if the log doesn't lead to the quote's, `nonce` if it is another one, `coverage` if PCRs that are asked for aren't covered, or none is |
/// | `locality` | the locality at which PCR 0 starts |
/// | `log` | what was given: the log's name |
/// | `not_covered` | such objects of the PCRs that are asked for and not covered; and with the bank `null` one of those that events extend and of which no bank is covered |
/// | `quote` | the quote |
///
/// | key of the quote | value |
/// |---|---|
/// | `banks` | for each selection: `algorithm` (a name, or a number), `pcrs` |
/// | `clock` | the TPM's clock: `clock` in milliseconds, `reset_count`, `restart_count`, `safe` |
/// | `digest` | its digest, in hex |
/// | `digest_agrees` | whether the log leads to it |
/// | `hash` | the hash function of its digest |
/// | `leads_to` | the digest to which the log leads, in hex; `null` if it leads to none |
/// | `nonce` | its nonce, in hex |
/// | `nonce_agrees` | whether that is the nonce that was asked for; `null` if any will do |
///
/// # Errors
///
/// [`AllocError`] if an allocation fails. The text may have grown then.
pub fn push_quote_json(
    text: &mut String,
    alloc: Global,
    name: &str,
    compared: &ComparedQuote<'_>,
) -> Result<(), AllocError>
    ensures { OnOk result (AppendsText text.old text.new
        (quote_line name.now (judged_quote_of compared.now))) }
{
    let value = quote_json(alloc, name, compared)?;
    push_line(text, alloc, &value)
}

/// Returns the object of a log.
#[tactic(auto, unfolding(crate::specs::json::Quote::quote_json))]
fn quote_json(alloc: Global, name: &str, compared: &ComparedQuote<'_>) -> Result<Value, AllocError>
    ensures { IfOk result (IsValueOf (quote_json name.now (judged_quote_of compared.now))) }
{
    let mut members = Map::new(alloc);
    put(
        &mut members,
        alloc,
        "agrees",
        Value::Bool(compared.agrees()),
    )?;
    let covered = covered_json(alloc, compared.coverage.covered.as_slice())?;
    put(&mut members, alloc, "covered", covered)?;
    let failed = failed_json(alloc, compared)?;
    put(&mut members, alloc, "failed", failed)?;
    let locality = Value::from(compared.verdict.start.start.locality);
    put(&mut members, alloc, "locality", locality)?;
    let log = Value::try_from_str(alloc, name)?;
    put(&mut members, alloc, "log", log)?;
    let not_covered = not_covered_json(alloc, &compared.coverage)?;
    put(&mut members, alloc, "not_covered", not_covered)?;
    let quote = quote_object(alloc, &compared.verdict)?;
    put(&mut members, alloc, "quote", quote)?;
    Ok(Value::Object(members))
}

/// Returns what of a quote doesn't agree.
#[tactic(auto, unfolding(crate::specs::json::Quote::failed_json))]
fn failed_json(alloc: Global, compared: &ComparedQuote<'_>) -> Result<Value, AllocError>
    ensures { IfOk result (IsValueOf (failed_json (judged_quote_of compared.now))) }
{
    let verdict = &compared.verdict;
    let mut failed = Vec::new(alloc);
    push_unless(&mut failed, alloc, verdict.digest_agrees, "digest")?;
    push_unless(
        &mut failed,
        alloc,
        verdict.received.has_its_nonce(),
        "nonce",
    )?;
    push_unless(&mut failed, alloc, compared.coverage.is_whole(), "coverage")?;
    Ok(Value::Array(failed))
}

/// Returns the object of a quote.
#[tactic(auto, unfolding(crate::specs::json::Quote::quote_object))]
fn quote_object(alloc: Global, verdict: &QuoteVerdict<'_>) -> Result<Value, AllocError>
    ensures { IfOk result (IsValueOf (quote_object (quote_judgement_of verdict.now))) }
{
    let received = &verdict.received;
    let quote = &received.quote;
    let mut members = Map::new(alloc);
    let banks = Value::Array(each_selection(alloc, quote)?);
    put(&mut members, alloc, "banks", banks)?;
    let clock = clock_json(alloc, quote.clock_info())?;
    put(&mut members, alloc, "clock", clock)?;
    let digest = hex_json(alloc, quote.pcr_digest())?;
    put(&mut members, alloc, "digest", digest)?;
    let digest_agrees = Value::Bool(verdict.digest_agrees);
    put(&mut members, alloc, "digest_agrees", digest_agrees)?;
    let hash = Value::try_from_str(alloc, bank_name(received.hash))?;
    put(&mut members, alloc, "hash", hash)?;
    let leads_to = match &verdict.digest {
        Ok(digest) => hex_json(alloc, digest.as_bytes())?,
        Err(_) => Value::Null,
    };
    put(&mut members, alloc, "leads_to", leads_to)?;
    let nonce = hex_json(alloc, quote.extra_data())?;
    put(&mut members, alloc, "nonce", nonce)?;
    let nonce_agrees = match received.nonce {
        Some(_) => Value::Bool(received.has_its_nonce()),
        None => Value::Null,
    };
    put(&mut members, alloc, "nonce_agrees", nonce_agrees)?;
    Ok(Value::Object(members))
}

/// Returns each selection of a quote.
fn each_selection(alloc: Global, quote: &Quote<'_>) -> Result<Vec<Value>, AllocError>
    ensures { IfOk result (AreValuesOf (map selection_json (quote_of quote.now).pcr_selections)) }
{
    let mut values = Vec::new(alloc);
    for selection in quote.pcr_selections() {
        let value = selection_json(alloc, &selection)?;
        values.push(value)?;
    }
    Ok(values)
}

/// Returns a selection: the algorithm of its bank, and its PCRs.
#[tactic(auto, unfolding(crate::specs::json::Quote::selection_json))]
fn selection_json(alloc: Global, selection: &PcrSelection<'_>) -> Result<Value, AllocError>
    ensures { IfOk result (IsValueOf (selection_json (selection_of selection.now))) }
{
    let algorithm = algorithm_json(alloc, selection.algorithm())?;
    let pcrs = Value::Array(pcrs_json(alloc, selection)?);
    json!(in alloc; {"algorithm": algorithm, "pcrs": pcrs})
}

/// Returns the PCRs of a selection.
fn pcrs_json(alloc: Global, selection: &PcrSelection<'_>) -> Result<Vec<Value>, AllocError>
    ensures { IfOk result
        (AreValuesOf (map pcr_number (selected_pcrs (selection_of selection.now)))) }
{
    let mut values = Vec::new(alloc);
    for pcr in selection.pcrs() {
        values.push(Value::from(pcr.0))?;
    }
    Ok(values)
}

/// Returns a clock.
#[tactic(auto, unfolding(crate::specs::json::Quote::clock_json))]
fn clock_json(alloc: Global, clock_info: ClockInfo) -> Result<Value, AllocError>
    ensures { IfOk result (IsValueOf (clock_json (clock_info_of clock_info))) }
{
    let ClockInfo {
        clock,
        reset_count,
        restart_count,
        safe,
    } = clock_info;
    json!(in alloc; {
        "clock": clock,
        "reset_count": reset_count,
        "restart_count": restart_count,
        "safe": safe
    })
}
