//! The remarks on the places of a log's events, as JSON.

ghost use Rattle.std.specs.Prelude.{flat_map, IfOk, OnOk};
ghost use Rattle.uefi_base.specs.Appending.{AppendsText};
ghost use Rattle.uefi_audits.specs.OutOfPlace.{misplaced_of, remarks_of};
ghost use Rattle.audit_text.specs.private.JsonValues.{IsValueOf};
ghost use Rattle.audit_text.specs.json.OutOfPlace.{misplaced_json, remark_lines, unseparated_json, unseparated_line};

use crate::json::{push_line, type_json};
use crate::words::rule_name;
use serde_json::{Map, Value, json, put};
use std::alloc::{AllocError, Global};
use uefi_audits::out_of_place::{OutOfPlace, Remarks};

/// Appends the remarks: a line for each event that is out of place, and one for each PCR without a
/// separator.
#[tactic(auto, unfolding(crate::specs::json::OutOfPlace::remark_lines))]
pub(super) fn push_remarks(
    text: &mut String,
    alloc: Global,
    log: &str,
    remarks: &Remarks<'_>,
) -> Result<(), AllocError>
    ensures { OnOk result (AppendsText text.old text.new
        (remark_lines log.now (remarks_of remarks.now))) }
{
    for event in &remarks.events {
        let value = misplaced_json(alloc, log, event)?;
        push_line(text, alloc, &value)?;
    }
    push_unseparated(text, alloc, log, remarks.unseparated.as_slice())
}

/// Returns an event that is out of place.
#[tactic(auto, unfolding(crate::specs::json::OutOfPlace::misplaced_json))]
fn misplaced_json(alloc: Global, log: &str, found: &OutOfPlace<'_>) -> Result<Value, AllocError>
    ensures { IfOk result (IsValueOf (misplaced_json log.now (misplaced_of found.now))) }
{
    let entry = &found.entry;
    let mut members = Map::new(alloc);
    put(&mut members, alloc, "index", Value::from(found.index))?;
    let log = Value::try_from_str(alloc, log)?;
    put(&mut members, alloc, "log", log)?;
    put(&mut members, alloc, "offset", Value::from(entry.offset))?;
    let rule = Value::try_from_str(alloc, rule_name(found.rule))?;
    put(&mut members, alloc, "out_of_place", rule)?;
    let pcr = entry.event.pcr_index().0;
    put(&mut members, alloc, "pcr", Value::from(pcr))?;
    let event_type = type_json(alloc, entry.event.event_type())?;
    put(&mut members, alloc, "type", event_type)?;
    Ok(Value::Object(members))
}

/// Appends a line for each PCR without a separator.
fn push_unseparated(
    text: &mut String,
    alloc: Global,
    log: &str,
    pcrs: &[u32],
) -> Result<(), AllocError>
    ensures { OnOk result
        (AppendsText text.old text.new (flat_map (unseparated_line log.now) pcrs.now)) }
{
    for pcr in pcrs {
        let value = unseparated_json(alloc, log, *pcr)?;
        push_line(text, alloc, &value)?;
    }
    Ok(())
}

/// Returns a PCR without a separator.
#[tactic(auto, unfolding(crate::specs::json::OutOfPlace::unseparated_json))]
fn unseparated_json(alloc: Global, log: &str, pcr: u32) -> Result<Value, AllocError>
    ensures { IfOk result (IsValueOf (unseparated_json log.now pcr)) }
{
    json!(in alloc; {"log": log, "out_of_place": "no separator", "pcr": pcr})
}
