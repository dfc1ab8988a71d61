ghost use Rattle.std.specs.Prelude.{IfOk, OnOk, map, option_map};
ghost use Rattle.pcr_replay.specs.Views.{outcome_of, outcomes_of};
ghost use Rattle.pcr_replay.specs.BankReplays.{bank_outcomes_of};
ghost use Rattle.audit_text.specs.private.JsonValues.{AppendsValues, AreValuesOf, IsValueOf};
ghost use Rattle.audit_text.specs.json.Replay.{bank_json, banks_json, if_undetermined, undetermined_json};
ghost use Rattle.uefi_audits.specs.Numbered.{numbered};

use crate::json::event::hex_json;
use pcr_replay::{BankPcrs, PcrValue, Pcrs, Undetermined};
use serde_json::{Value, json};
use std::alloc::{AllocError, Global};
use uefi_audits::naming::bank_name;

/// Returns the banks of a log; `null` if it is refused.
#[tactic(auto, unfolding(crate::specs::json::Replay::banks_json))]
pub(crate) fn banks_json(alloc: Global, banks: Option<&[BankPcrs]>) -> Result<Value, AllocError>
    ensures { IfOk result
        (IsValueOf (banks_json (option_map (λ them. map bank_outcomes_of them.now) banks.entry))) }
{
    let Some(banks) = banks else {
        return Ok(Value::Null);
    };
    let mut values = Vec::new(alloc);
    for bank in banks {
        values.push(bank_json(alloc, bank)?)?;
    }
    Ok(Value::Array(values))
}

/// Returns a bank: its name, its PCRs, and the events by which some are undetermined.
#[tactic(auto, unfolding(crate::specs::json::Replay::bank_json))]
fn bank_json(alloc: Global, bank: &BankPcrs) -> Result<Value, AllocError>
    ensures { IfOk result (IsValueOf (bank_json (bank_outcomes_of bank.now))) }
{
    let name = bank_name(bank.bank);
    let mut pcrs = Vec::new(alloc);
    for outcome in bank.pcrs.outcomes() {
        pcrs.push(match outcome {
            Ok(value) => hex_json(alloc, value.as_bytes())?,
            Err(_) => Value::Null,
        })?;
    }
    let pcrs = Value::Array(pcrs);
    let undetermined = Value::Array(all_undetermined(alloc, &bank.pcrs)?);
    json!(in alloc; {"algorithm": name, "pcrs": pcrs, "undetermined": undetermined})
}

/// Returns the events by which PCRs are undetermined, in the order of the PCRs.
fn all_undetermined(alloc: Global, pcrs: &Pcrs) -> Result<Vec<Value>, AllocError>
    ensures { IfOk result (AreValuesOf (numbered if_undetermined 0 (outcomes_of pcrs.now))) }
{
    let outcomes = pcrs.outcomes();
    let mut values = Vec::new(alloc);
    for pcr in 0..outcomes.len() {
        push_if_undetermined(&mut values, alloc, pcr, &outcomes[pcr])?;
    }
    Ok(values)
}

/// Appends the event by which a PCR is undetermined, if it is.
#[tactic(auto, unfolding(crate::specs::json::Replay::if_undetermined))]
fn push_if_undetermined(
    values: &mut Vec<Value>,
    alloc: Global,
    pcr: usize,
    outcome: &Result<PcrValue, Undetermined>,
) -> Result<(), AllocError>
    ensures { OnOk result
        (AppendsValues values.old values.new (if_undetermined pcr (outcome_of outcome.now))) }
{
    match outcome {
        Ok(_) => Ok(()),
        Err(at) => {
            let value = undetermined_json(alloc, pcr, at)?;
            values.push(value)?;
            Ok(())
        }
    }
}

/// Returns the event by which a PCR is undetermined: its index, its offset, and why.
#[tactic(auto, unfolding(crate::specs::json::Replay::undetermined_json))]
fn undetermined_json(alloc: Global, pcr: usize, at: &Undetermined) -> Result<Value, AllocError>
    ensures { IfOk result (IsValueOf (undetermined_json pcr at.now)) }
{
    let (index, offset) = (at.index, at.offset);
    let reason = format!(in alloc; "{}", at.fault)?;
    json!(in alloc; {
        "index": index,
        "offset": offset,
        "pcr": pcr,
        "reason": reason
    })
}
