ghost use Rattle.std.specs.Prelude.{◌≡◌, ◌==◌, not, map, IfOk};
ghost use Rattle.std.specs.List.{filter, list_any};
ghost use Rattle.pcr_replay.specs.Banks.{algorithm_of};
ghost use Rattle.pcr_replay.specs.BankReplays.{bank_outcomes_of};
ghost use Rattle.audit_text.specs.private.JsonValues.{IsValueOf};
ghost use Rattle.audit_text.specs.json.Replay.{algorithm_json, not_replayed_json};

use crate::words::push_number;
use pcr_replay::BankPcrs;
use serde_json::Value;
use std::alloc::{AllocError, Global};
use uefi_audits::naming::{bank_name, bank_of};
use uefi_tcg::AlgorithmId;

/// Returns those of these algorithms whose banks aren't among these.
#[tactic(auto, unfolding(crate::specs::json::Replay::not_replayed_json))]
pub(crate) fn not_replayed_json(
    alloc: Global,
    algorithms: &[u16],
    banks: &[BankPcrs],
) -> Result<Value, AllocError>
    ensures { IfOk result
        (IsValueOf (not_replayed_json algorithms.now (map bank_outcomes_of banks.now))) }
{
    let others = algorithms_without(alloc, algorithms, banks)?;
    let mut values = Vec::new(alloc);
    for algorithm in &others {
        values.push(algorithm_json(alloc, *algorithm)?)?;
    }
    Ok(Value::Array(values))
}

/// Returns those of these algorithms whose banks aren't among these.
fn algorithms_without(
    alloc: Global,
    algorithms: &[u16],
    banks: &[BankPcrs],
) -> Result<Vec<u16>, AllocError>
    ensures { IfOk result (λ others. others.items ≡ filter (λ algorithm.
        not (list_any (λ found. algorithm_of found.bank == algorithm) banks.now)) algorithms.now) }
{
    algorithms
        .iter()
        .copied()
        .filter(|algorithm| !is_replayed(banks, *algorithm))
        .collect(alloc)
}

/// Returns whether one of these banks is an algorithm's.
fn is_replayed(banks: &[BankPcrs], algorithm: u16) -> bool
    ensures { result ≡ list_any (λ found. algorithm_of found.bank == algorithm) banks.now }
{
    banks
        .iter()
        .any(|found| found.bank.algorithm().0 == algorithm)
}

/// Returns an algorithm: the name of its bank, or its number in hex if that bank can't be replayed.
#[tactic(auto, unfolding(crate::specs::json::Replay::algorithm_json))]
fn algorithm_json(alloc: Global, algorithm: u16) -> Result<Value, AllocError>
    ensures { IfOk result (IsValueOf (algorithm_json algorithm)) }
{
    match bank_of(AlgorithmId(algorithm)) {
        Some(bank) => Value::try_from_str(alloc, bank_name(bank)),
        None => {
            let mut digits = String::new(alloc);
            push_number(&mut digits, algorithm)?;
            Ok(Value::String(digits))
        }
    }
}
