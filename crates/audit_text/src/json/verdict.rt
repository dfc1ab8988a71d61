ghost use Rattle.std.specs.Prelude.{flat_map, map, IfOk, OnOk};
ghost use Rattle.std.specs.Option.{option_map};
ghost use Rattle.uefi_base.specs.Appending.{AppendsText};
ghost use Rattle.pcr_replay.specs.Views.{outcome_of};
ghost use Rattle.pcr_replay.specs.BankReplays.{bank_outcomes_of};
ghost use Rattle.audit_text.specs.private.JsonValues.{AppendsValues, AreValuesOf, IsValueOf};
ghost use Rattle.audit_text.specs.json.Verdict.{failed_json, if_disagreeing, pcr_json, undetermined_by, verdict_json, verdict_line};
ghost use Rattle.uefi_audits.specs.verify.Compared.{judged_pcrs_of};

use crate::json::coverage::{covered_json, not_covered_json, push_unless};
use crate::json::event::hex_json;
use crate::json::line::push_line;
use pcr_replay::{BankPcrs, PcrValue, Undetermined};
use serde_json::{Map, Value, json, put};
use std::alloc::{AllocError, Global};
use uefi_audits::naming::bank_name;
use uefi_audits::verify::{ComparedPcrs, HeldPcr, agrees, led_to};

/// Appends whether a log leads to these PCRs as one line of JSON: an object, and a line break.
///
/// | key | value |
/// |---|---|
/// | `agrees` | whether nothing failed |
/// | `count` | how many PCRs are compared |
/// | `covered` | which PCRs are compared, an object for each bank: `bank`, `pcrs` |
/// | `disagreeing` | an object for each PCR that doesn't hold what the log leads to, in order |
/// | `failed` | what failed: `pcrs` if such a PCR is there, `coverage` if PCRs that are asked for aren't stated, or none is compared |
/// | `locality` | the locality at which PCR 0 starts |
/// | `log` | what was given: the log's name |
/// | `not_covered` | such objects of the PCRs that are asked for and not stated; and with the bank `null` one of those that events extend and of which no bank is compared |
///
/// | key of a PCR | value |
/// |---|---|
/// | `bank` | its bank's name |
/// | `held` | what it held, in hex |
/// | `leads_to` | what the log leads to, in hex; `null` if that is no value |
/// | `pcr` | its index |
/// | `undetermined` | the event by which it is undetermined: `index`, `offset`, `reason`; else `null` |
///
/// If the log has no such PCR, both `leads_to` and `undetermined` are `null`.
///
/// # Errors
///
/// [`AllocError`] if an allocation fails. The text may have grown then.
pub fn push_verdict_json(
    text: &mut String,
    alloc: Global,
    name: &str,
    compared: &ComparedPcrs,
) -> Result<(), AllocError>
    ensures { OnOk result (AppendsText text.old text.new
        (verdict_line name.now (judged_pcrs_of compared.now))) }
{
    let value = verdict_json(alloc, name, compared)?;
    push_line(text, alloc, &value)
}

/// Returns the object of a log.
#[tactic(auto, unfolding(crate::specs::json::Verdict::verdict_json))]
fn verdict_json(alloc: Global, name: &str, compared: &ComparedPcrs) -> Result<Value, AllocError>
    ensures { IfOk result (IsValueOf (verdict_json name.now (judged_pcrs_of compared.now))) }
{
    let (held, replays) = (
        compared.held.as_slice(),
        compared.verdict.replays.as_slice(),
    );
    let mut members = Map::new(alloc);
    put(
        &mut members,
        alloc,
        "agrees",
        Value::Bool(compared.agrees()),
    )?;
    put(&mut members, alloc, "count", Value::from(held.len()))?;
    let covered = covered_json(alloc, compared.coverage.covered.as_slice())?;
    put(&mut members, alloc, "covered", covered)?;
    let disagreeing = Value::Array(each_disagreeing(alloc, held, replays)?);
    put(&mut members, alloc, "disagreeing", disagreeing)?;
    let failed = failed_json(alloc, compared)?;
    put(&mut members, alloc, "failed", failed)?;
    let locality = Value::from(compared.verdict.start.start.locality);
    put(&mut members, alloc, "locality", locality)?;
    let log = Value::try_from_str(alloc, name)?;
    put(&mut members, alloc, "log", log)?;
    let not_covered = not_covered_json(alloc, &compared.coverage)?;
    put(&mut members, alloc, "not_covered", not_covered)?;
    Ok(Value::Object(members))
}

/// Returns what of PCRs doesn't agree.
#[tactic(auto, unfolding(crate::specs::json::Verdict::failed_json))]
fn failed_json(alloc: Global, compared: &ComparedPcrs) -> Result<Value, AllocError>
    ensures { IfOk result (IsValueOf (failed_json (judged_pcrs_of compared.now))) }
{
    let mut failed = Vec::new(alloc);
    push_unless(&mut failed, alloc, compared.verdict.is_agreement(), "pcrs")?;
    push_unless(&mut failed, alloc, compared.coverage.is_whole(), "coverage")?;
    Ok(Value::Array(failed))
}

/// Returns each PCR that doesn't agree.
fn each_disagreeing(
    alloc: Global,
    held: &[HeldPcr],
    replays: &[BankPcrs],
) -> Result<Vec<Value>, AllocError>
    ensures { IfOk result
        (AreValuesOf (flat_map (if_disagreeing (map bank_outcomes_of replays.now)) held.now)) }
{
    let mut values = Vec::new(alloc);
    for pcr in held {
        push_if_disagreeing(&mut values, alloc, pcr, replays)?;
    }
    Ok(values)
}

/// Appends a PCR, unless it agrees.
#[tactic(auto, unfolding(crate::specs::json::Verdict::if_disagreeing))]
fn push_if_disagreeing(
    values: &mut Vec<Value>,
    alloc: Global,
    held: &HeldPcr,
    replays: &[BankPcrs],
) -> Result<(), AllocError>
    ensures { OnOk result (AppendsValues values.old values.new (if_disagreeing (map
        bank_outcomes_of replays.now) held.now)) }
{
    if agrees(held, replays) {
        return Ok(());
    }
    let value = pcr_json(alloc, held, led_to(held, replays))?;
    values.push(value)?;
    Ok(())
}

/// Returns a PCR that doesn't agree: what it held, what the log leads to, and the event by which it
/// is undetermined.
#[tactic(auto, unfolding(crate::specs::json::Verdict::pcr_json))]
fn pcr_json(
    alloc: Global,
    held: &HeldPcr,
    outcome: Option<&Result<PcrValue, Undetermined>>,
) -> Result<Value, AllocError>
    ensures { IfOk result (IsValueOf
        (pcr_json held.now (option_map (λ outcome. outcome_of outcome.now) outcome.entry))) }
{
    let held_value = hex_json(alloc, held.value.as_bytes())?;
    let leads_to = match outcome {
        Some(Ok(value)) => hex_json(alloc, value.as_bytes())?,
        _ => Value::Null,
    };
    let undetermined = undetermined_by(alloc, outcome)?;
    json!(in alloc; {
        "bank": bank_name(held.bank),
        "held": held_value,
        "leads_to": leads_to,
        "pcr": held.pcr,
        "undetermined": undetermined
    })
}

/// Returns the event by which a PCR is undetermined; `null` if it isn't.
#[tactic(auto, unfolding(crate::specs::json::Verdict::undetermined_by))]
fn undetermined_by(
    alloc: Global,
    outcome: Option<&Result<PcrValue, Undetermined>>,
) -> Result<Value, AllocError>
    ensures { IfOk result (IsValueOf (undetermined_by (option_map (λ outcome. outcome_of
        outcome.now) outcome.entry))) }
{
    match outcome {
        Some(Err(at)) => {
            let (index, offset) = (at.index, at.offset);
            let reason = format!(in alloc; "{}", at.fault)?;
            json!(in alloc; {"index": index, "offset": offset, "reason": reason})
        }
        _ => Ok(Value::Null),
    }
}
