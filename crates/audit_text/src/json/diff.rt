ghost use Rattle.std.specs.Prelude.{flat_map, map, IfOk, OnOk};
ghost use Rattle.uefi_base.specs.Appending.{AppendsText};
ghost use Rattle.audit_text.specs.ComparedLogs.{logs_of};
ghost use Rattle.audit_text.specs.json.Algorithm.{algorithm_json};
ghost use Rattle.audit_text.specs.json.Diff.{compared_json, difference_json, difference_json_lines, entry_json, event_difference_json, event_difference_line, pair_json};
ghost use Rattle.uefi_audits.specs.diff.Views.{change_of, difference_of, event_difference_of, numbered_of, numbers_of};
ghost use Rattle.audit_text.specs.json.Json.{Json};
ghost use Rattle.audit_text.specs.private.JsonValues.{AreValuesOf, IsValueOf};

use crate::compared_logs::ComparedLogs;
use crate::json::digests::algorithm_json;
use crate::json::event::event_json;
use crate::json::line::push_line;
use serde_json::{Map, Value, json, put};
use std::alloc::{AllocError, Global};
use uefi_audits::diff::{
    EventChange, EventDifference, NumberedEntry, PcrDifference, event_differences,
};
use uefi_tcg::AlgorithmId;

/// Appends how the events of two logs differ, as lines of JSON: an object that says what is
/// compared, and then an object for each difference, in the order of
/// [`push_differences`](crate::text::push_differences).
///
/// | key of the first object | value |
/// |---|---|
/// | `compared` | the algorithms whose digests are compared, each its name, or the number of one without a name |
/// | `new`, `old` | the names of the logs |
///
/// | key of a difference | value |
/// |---|---|
/// | `difference` | what it is, as below |
/// | `new`, `old` | the event of each log; `null` if it isn't in that log |
/// | `pcr` | the index of the PCR |
///
/// | `difference` | of |
/// |---|---|
/// | `changed` | an event whose counterpart isn't the same |
/// | `only_old`, `only_new` | an event that has no counterpart |
/// | `moved` | the first event whose order is another |
///
/// Each event is the whole object of [`event_line`](crate::json::event_line).
///
/// # Errors
///
/// [`AllocError`] if an allocation fails. The text may have grown then.
pub fn push_differences_json(
    text: &mut String,
    alloc: Global,
    logs: &ComparedLogs<'_>,
    differences: &[PcrDifference<'_>],
) -> Result<(), AllocError>
    ensures { OnOk result (AppendsText text.old text.new
        (difference_json_lines (logs_of logs.now) (map difference_of differences.now))) }
{
    let compared = compared_json(alloc, logs)?;
    push_line(text, alloc, &compared)?;
    let differences = event_differences(alloc, differences)?;
    push_each(text, alloc, logs, differences.as_slice())
}

/// Returns what is compared.
#[tactic(auto, unfolding(crate::specs::json::Diff::compared_json))]
fn compared_json(alloc: Global, logs: &ComparedLogs<'_>) -> Result<Value, AllocError>
    ensures { IfOk result (IsValueOf (compared_json (logs_of logs.now))) }
{
    let algorithms = Value::Array(each_algorithm(alloc, logs.algorithms)?);
    json!(in alloc; {"compared": algorithms, "new": logs.new_name, "old": logs.old_name})
}

/// Returns each algorithm.
fn each_algorithm(alloc: Global, algorithms: &[AlgorithmId]) -> Result<Vec<Value>, AllocError>
    ensures { IfOk result (AreValuesOf (map algorithm_json (numbers_of algorithms.now))) }
{
    let mut values = Vec::new(alloc);
    for algorithm in algorithms {
        let value = algorithm_json(alloc, *algorithm)?;
        values.push(value)?;
    }
    Ok(values)
}

/// Appends a line for each of these differences.
fn push_each(
    text: &mut String,
    alloc: Global,
    logs: &ComparedLogs<'_>,
    differences: &[EventDifference<'_, '_>],
) -> Result<(), AllocError>
    ensures { OnOk result (AppendsText text.old text.new (flat_map
        (event_difference_line (logs_of logs.now)) (map event_difference_of differences.now))) }
{
    for difference in differences {
        let value = event_difference_json(alloc, logs, difference)?;
        push_line(text, alloc, &value)?;
    }
    Ok(())
}

/// Returns a difference in an event.
#[tactic(auto, unfolding(crate::specs::json::Diff::event_difference_json))]
fn event_difference_json(
    alloc: Global,
    logs: &ComparedLogs<'_>,
    difference: &EventDifference<'_, '_>,
) -> Result<Value, AllocError>
    ensures { IfOk result (IsValueOf
        (event_difference_json (logs_of logs.now) (event_difference_of difference.now))) }
{
    match difference {
        EventDifference::Changed(change) => pair_json(alloc, logs, "changed", change),
        EventDifference::OnlyOld(found) => {
            let old = entry_json(alloc, logs.old_name, found)?;
            difference_json(
                alloc,
                "only_old",
                found.entry.event.pcr_index().0,
                old,
                Value::Null,
            )
        }
        EventDifference::OnlyNew(found) => {
            let new = entry_json(alloc, logs.new_name, found)?;
            difference_json(
                alloc,
                "only_new",
                found.entry.event.pcr_index().0,
                Value::Null,
                new,
            )
        }
        EventDifference::Moved(change) => pair_json(alloc, logs, "moved", change),
    }
}

/// Returns an event and its counterpart.
fn pair_json(
    alloc: Global,
    logs: &ComparedLogs<'_>,
    kind: &str,
    change: &EventChange<'_>,
) -> Result<Value, AllocError>
    ensures { IfOk result
        (IsValueOf (pair_json (logs_of logs.now) kind.now (change_of change.now))) }
{
    let old = entry_json(alloc, logs.old_name, &change.old)?;
    let new = entry_json(alloc, logs.new_name, &change.new)?;
    difference_json(alloc, kind, change.old.entry.event.pcr_index().0, old, new)
}

/// Returns what differs: what kind of difference it is, its PCR, and what each log has.
#[tactic(auto, unfolding(crate::specs::json::Diff::difference_json))]
fn difference_json(
    alloc: Global,
    kind: &str,
    pcr: u32,
    old: Value,
    new: Value,
) -> Result<Value, AllocError>
    ensures { (of_old of_new : Json) → IsValueOf of_old old → IsValueOf of_new new
        → IfOk result (IsValueOf (difference_json kind.now pcr of_old of_new)) }
{
    let mut members = Map::new(alloc);
    let kind = Value::try_from_str(alloc, kind)?;
    put(&mut members, alloc, "difference", kind)?;
    put(&mut members, alloc, "new", new)?;
    put(&mut members, alloc, "old", old)?;
    put(&mut members, alloc, "pcr", Value::from(pcr))?;
    Ok(Value::Object(members))
}

/// Returns an event of a log.
fn entry_json(alloc: Global, name: &str, found: &NumberedEntry<'_>) -> Result<Value, AllocError>
    ensures { IfOk result (IsValueOf (entry_json name.now (numbered_of found.now))) }
{
    event_json(alloc, name, found.index, &found.entry, &found.content)
}
