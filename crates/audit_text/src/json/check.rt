//! What was checked, as JSON.

ghost use Rattle.std.specs.Prelude.{flat_map, map, IfOk, OnOk};
ghost use Rattle.uefi_base.specs.Appending.{AppendsText};
ghost use Rattle.uefi_audits.specs.CheckResult.{all_forms, mismatch_of};
ghost use Rattle.uefi_audits.specs.OutOfPlace.{remarks_of};
ghost use Rattle.audit_text.specs.json.Check.{check_lines, counts_json, form_member, form_members, mismatch_json, mismatch_line, types_json, types_line};
ghost use Rattle.audit_text.specs.json.Json.{object};
ghost use Rattle.audit_text.specs.private.JsonValues.{IsValueOf, PutsMembers};

use super::out_of_place::push_remarks;
use crate::json::{push_line, type_json};
use crate::words::form_name;
use serde_json::{Map, Value, json, put};
use std::alloc::{AllocError, Global};
use uefi_audits::check::{CheckResult, Form, Mismatch, TypeCounts};

/// Appends what was found of the events of a log as JSON: a line with an object for each event that
/// matches in none of its type's forms, for each that is out of place, and for each PCR without a
/// separator, and then a line with one for the types of the events.
///
/// | key of an event | value |
/// |---|---|
/// | `index` | its index in the log |
/// | `log` | what was given: the log's name |
/// | `matches` | `false` |
/// | `offset` | where it starts in the log's bytes |
/// | `pcr` | the index of its PCR |
/// | `type` | an object with `name`, if the type has one, and `number` |
///
/// An event that is out of place has `out_of_place` in place of `matches`: `second separator`,
/// `separator of another value`, `type of other PCRs`, `after the separator`, or `other than its data
/// was measured`. A PCR without a separator has `log`, `out_of_place`, which is `no separator`, and
/// `pcr`.
///
/// The last line's object has the log's name as `log`, and as `checked` an array with an object for
/// each type of the events, in the order of the types' numbers.
///
/// | key of a type | value |
/// |---|---|
/// | `forms` | an object with how many match in each form in which any matches |
/// | `matched` | how many match |
/// | `matches_none` | how many match in none of the type's forms |
/// | `not_covered` | how many aren't covered |
/// | `not_in_log` | of how many the log doesn't have what was measured |
/// | `type` | an object with `name`, if the type has one, and `number` |
///
/// # Errors
///
/// [`AllocError`] if an allocation fails. The text may have grown then.
#[tactic(auto, unfolding(crate::specs::json::Check::check_lines))]
pub fn push_check_json(
    text: &mut String,
    alloc: Global,
    log: &str,
    found: &CheckResult<'_>,
) -> Result<(), AllocError>
    ensures { OnOk result (AppendsText text.old text.new (check_lines log.now
        (map mismatch_of found.now.mismatches.items) (remarks_of found.now.remarks)
        found.now.types.items)) }
{
    push_mismatches(text, alloc, log, found.mismatches.as_slice())?;
    push_remarks(text, alloc, log, &found.remarks)?;
    push_types(text, alloc, log, found.types.as_slice())
}

/// Appends a line for each event that matches in none of its type's forms.
fn push_mismatches(
    text: &mut String,
    alloc: Global,
    log: &str,
    mismatches: &[Mismatch<'_>],
) -> Result<(), AllocError>
    ensures { OnOk result (AppendsText text.old text.new
        (flat_map (mismatch_line log.now) (map mismatch_of mismatches.now))) }
{
    for mismatch in mismatches {
        let value = mismatch_json(alloc, log, mismatch)?;
        push_line(text, alloc, &value)?;
    }
    Ok(())
}

/// Returns an event that matches in none of its type's forms.
#[tactic(auto, unfolding(crate::specs::json::Check::mismatch_json))]
fn mismatch_json(alloc: Global, log: &str, mismatch: &Mismatch<'_>) -> Result<Value, AllocError>
    ensures { IfOk result (IsValueOf (mismatch_json log.now (mismatch_of mismatch.now))) }
{
    let entry = &mismatch.entry;
    let mut members = Map::new(alloc);
    put(&mut members, alloc, "index", Value::from(mismatch.index))?;
    let log = Value::try_from_str(alloc, log)?;
    put(&mut members, alloc, "log", log)?;
    put(&mut members, alloc, "matches", Value::Bool(false))?;
    put(&mut members, alloc, "offset", Value::from(entry.offset))?;
    let pcr = entry.event.pcr_index().0;
    put(&mut members, alloc, "pcr", Value::from(pcr))?;
    let event_type = type_json(alloc, entry.event.event_type())?;
    put(&mut members, alloc, "type", event_type)?;
    Ok(Value::Object(members))
}

/// Appends the line of the types.
fn push_types(
    text: &mut String,
    alloc: Global,
    log: &str,
    types: &[TypeCounts],
) -> Result<(), AllocError>
    ensures { OnOk result (AppendsText text.old text.new (types_line log.now types.now)) }
{
    let value = types_json(alloc, log, types)?;
    push_line(text, alloc, &value)
}

/// Returns the counts of the types.
#[tactic(auto, unfolding(crate::specs::json::Check::types_json))]
fn types_json(alloc: Global, log: &str, types: &[TypeCounts]) -> Result<Value, AllocError>
    ensures { IfOk result (IsValueOf (types_json log.now types.now)) }
{
    let mut checked = Vec::new(alloc);
    for counts in types {
        checked.push(counts_json(alloc, counts)?)?;
    }
    json!(in alloc; {"checked": Value::Array(checked), "log": log})
}

/// Returns the counts of a type.
#[tactic(auto, unfolding(crate::specs::json::Check::counts_json))]
fn counts_json(alloc: Global, counts: &TypeCounts) -> Result<Value, AllocError>
    ensures { IfOk result (IsValueOf (counts_json counts.now)) }
{
    let mut members = Map::new(alloc);
    let forms = forms_json(alloc, counts)?;
    put(&mut members, alloc, "forms", forms)?;
    let (matches, none) = (counts.matches, counts.matches_none);
    put(&mut members, alloc, "matched", Value::from(matches))?;
    put(&mut members, alloc, "matches_none", Value::from(none))?;
    let (uncovered, outside) = (counts.not_covered, counts.not_in_log);
    put(&mut members, alloc, "not_covered", Value::from(uncovered))?;
    put(&mut members, alloc, "not_in_log", Value::from(outside))?;
    let event_type = type_json(alloc, counts.event_type)?;
    put(&mut members, alloc, "type", event_type)?;
    Ok(Value::Object(members))
}

/// Returns how many match in each form in which any matches.
fn forms_json(alloc: Global, counts: &TypeCounts) -> Result<Value, AllocError>
    ensures { IfOk result (IsValueOf (object (form_members counts.now.by_form all_forms))) }
{
    let mut members = Map::new(alloc);
    for form in Form::ALL {
        put_form(&mut members, alloc, counts.matching_in(form), form)?;
    }
    Ok(Value::Object(members))
}

/// Puts in how many match in a form, if any does.
#[tactic(auto, unfolding(crate::specs::json::Check::form_member))]
fn put_form(
    members: &mut Map<String, Value>,
    alloc: Global,
    count: u64,
    form: Form,
) -> Result<(), AllocError>
    ensures { OnOk result (PutsMembers members.old members.new (form_member count form)) }
{
    if count == 0 {
        return Ok(());
    }
    put(members, alloc, form_name(form), Value::from(count))
}
