ghost use Rattle.std.specs.Prelude.{map, option_map, IfOk, OnOk};
ghost use Rattle.uefi_base.specs.Appending.{AppendsText};
ghost use Rattle.pcr_replay.specs.BankReplays.{bank_outcomes_of};
ghost use Rattle.audit_text.specs.private.JsonValues.{IsValueOf};
ghost use Rattle.audit_text.specs.json.Replay.{locality_json, part_json, replay_json, replay_line};

use crate::json::bank::banks_json;
use crate::json::line::push_line;
use crate::json::not_replayed::not_replayed_json;
use pcr_replay::BankPcrs;
use serde_json::{Map, Value, json, put};
use std::alloc::{AllocError, Global};
use uefi_audits::facts::LogFacts;
use uefi_audits::known_start::KnownStart;

/// Appends what a log leads to as one line of JSON: an object, and a line break.
///
/// | key | value |
/// |---|---|
/// | `banks` | an object for each bank; `null` if the log is refused |
/// | `left_over` | `count` and `offset` of the bytes after the last event; `null` if none are |
/// | `locality` | `number`, at which PCR 0 starts, and `stated`: whether the log or the caller says so |
/// | `log` | the file's name |
/// | `not_replayed` | the algorithms in the header's table that `banks` lacks, by ascending number |
/// | `padding` | `count` and `offset` of the padding after the last event; `null` if there is none |
///
/// | key of a bank | value |
/// |---|---|
/// | `algorithm` | its name |
/// | `pcrs` | the 24 PCRs: each its value in hex, or `null` if it is undetermined |
/// | `undetermined` | for each PCR that is, `pcr` and the event: `index`, `offset`, `reason` |
///
/// An algorithm in `not_replayed` is the name of its bank, or its number in hex if that bank can't
/// be replayed.
///
/// # Errors
///
/// [`AllocError`] if an allocation fails. The text may have grown then.
pub fn push_replay_json(
    text: &mut String,
    alloc: Global,
    name: &str,
    facts: &LogFacts,
    banks: Option<&[BankPcrs]>,
) -> Result<(), AllocError>
    ensures { OnOk result (AppendsText text.old text.new (replay_line name.now facts.now
        (option_map (λ them. map bank_outcomes_of them.now) banks.entry))) }
{
    let value = replay_json(alloc, name, facts, banks)?;
    push_line(text, alloc, &value)
}

/// Returns the object of a log with this name.
#[tactic(auto, unfolding(crate::specs::json::Replay::replay_json))]
fn replay_json(
    alloc: Global,
    name: &str,
    facts: &LogFacts,
    banks: Option<&[BankPcrs]>,
) -> Result<Value, AllocError>
    ensures { IfOk result (IsValueOf (replay_json name.now facts.now (option_map (λ them. map
        bank_outcomes_of them.now) banks.entry))) }
{
    let (offset, algorithms) = (facts.trailing.offset, facts.algorithms.as_slice());
    let mut members = Map::new(alloc);
    let all = banks_json(alloc, banks)?;
    put(&mut members, alloc, "banks", all)?;
    let left_over = part_json(alloc, offset, facts.trailing.left_over)?;
    put(&mut members, alloc, "left_over", left_over)?;
    let locality = locality_json(alloc, &facts.start)?;
    put(&mut members, alloc, "locality", locality)?;
    let log = Value::try_from_str(alloc, name)?;
    put(&mut members, alloc, "log", log)?;
    let not_replayed = not_replayed_json(alloc, algorithms, banks.unwrap_or(&[]))?;
    put(&mut members, alloc, "not_replayed", not_replayed)?;
    let padding = part_json(alloc, offset, facts.trailing.padding)?;
    put(&mut members, alloc, "padding", padding)?;
    Ok(Value::Object(members))
}

/// Returns bytes that begin at an offset: their count and that offset; `null` if there are none.
#[tactic(auto, unfolding(crate::specs::json::Replay::part_json))]
fn part_json(alloc: Global, offset: usize, count: usize) -> Result<Value, AllocError>
    ensures { IfOk result (IsValueOf (part_json offset count)) }
{
    if count == 0 {
        return Ok(Value::Null);
    }
    json!(in alloc; {"count": count, "offset": offset})
}

/// Returns the locality at which PCR 0 starts, and whether it is stated.
#[tactic(auto, unfolding(crate::specs::json::Replay::locality_json))]
fn locality_json(alloc: Global, known: &KnownStart) -> Result<Value, AllocError>
    ensures { IfOk result (IsValueOf (locality_json known.now)) }
{
    let (number, stated) = (known.start.locality, known.is_stated);
    json!(in alloc; {"number": number, "stated": stated})
}
