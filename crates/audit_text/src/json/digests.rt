ghost use Rattle.std.specs.Prelude.{map, IfOk, OnOk};
ghost use Rattle.uefi_tcg.specs.LogViews.{event_of};
ghost use Rattle.audit_text.specs.json.Algorithm.{algorithm_json};
ghost use Rattle.audit_text.specs.json.Event.{digest_json, hashed_bank, hashed_banks};
ghost use Rattle.audit_text.specs.private.JsonValues.{AppendsValues, AreValuesOf, IsValueOf};

use crate::words::names::algorithm_name;
use pcr_replay::{Bank, is_hash_of_data};
use serde_json::{Value, json};
use std::alloc::{AllocError, Global};
use uefi_audits::naming::bank_name;
use uefi_tcg::{AlgorithmId, LogEvent};

/// Returns the digests of an event as JSON, in order.
pub(crate) fn digests_json(alloc: Global, event: &LogEvent<'_>) -> Result<Vec<Value>, AllocError>
    ensures { IfOk result (AreValuesOf (map digest_json (event_of event.now).digests)) }
{
    let mut values = Vec::new(alloc);
    for (algorithm, digest) in event.digests() {
        let value = digest_json(alloc, algorithm, digest)?;
        values.push(value)?;
    }
    Ok(values)
}

/// Returns a digest: the name of its algorithm, and its bytes in hex.
#[tactic(auto, unfolding(crate::specs::json::Event::digest_json))]
fn digest_json(alloc: Global, algorithm: AlgorithmId, digest: &[u8]) -> Result<Value, AllocError>
    ensures { IfOk result
        (IsValueOf (digest_json (record { algorithm = algorithm.0; bytes = digest.now }))) }
{
    let algorithm = algorithm_json(alloc, algorithm)?;
    let digest = hex::encode(alloc, digest)?;
    let digest = digest.as_str();
    json!(in alloc; {"algorithm": algorithm, "digest": digest})
}

/// Returns an algorithm as JSON: its name, or the number of one without a name.
///
/// # Errors
///
/// [`AllocError`] if an allocation fails.
#[tactic(auto, unfolding(crate::specs::json::Algorithm::algorithm_json))]
pub(crate) fn algorithm_json(alloc: Global, algorithm: AlgorithmId) -> Result<Value, AllocError>
    ensures { IfOk result (IsValueOf (algorithm_json algorithm.0)) }
{
    match algorithm_name(algorithm) {
        Some(name) => Value::try_from_str(alloc, name),
        None => Ok(Value::from(algorithm.0)),
    }
}

/// Returns the names of the banks in which an event's digest is the hash of its data.
pub(crate) fn hashed_banks(alloc: Global, event: &LogEvent<'_>) -> Result<Vec<Value>, AllocError>
    ensures { IfOk result (AreValuesOf (hashed_banks (event_of event.now))) }
{
    let mut names = Vec::new(alloc);
    for bank in &Bank::ALL {
        push_hashed(alloc, &mut names, *bank, event)?;
    }
    Ok(names)
}

/// Appends the bank's name, if the event's digest of the bank is the hash of its data.
#[tactic(auto, unfolding(crate::specs::json::Event::hashed_bank))]
fn push_hashed(
    alloc: Global,
    names: &mut Vec<Value>,
    bank: Bank,
    event: &LogEvent<'_>,
) -> Result<(), AllocError>
    ensures { OnOk result
        (AppendsValues names.old names.new (hashed_bank (event_of event.now) bank)) }
{
    if is_hash_of_data(bank, event) {
        let name = Value::try_from_str(alloc, bank_name(bank))?;
        names.push(name)?;
    }
    Ok(())
}
