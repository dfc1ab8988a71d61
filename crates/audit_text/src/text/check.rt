//! The lines of what was checked.

ghost use Rattle.std.specs.Prelude.{flat_map, map, IfOk, OnOk};
ghost use Rattle.uefi_base.specs.Appending.{AppendsText};
ghost use Rattle.uefi_audits.specs.CheckResult.{all_forms, mismatch_of};
ghost use Rattle.uefi_audits.specs.OutOfPlace.{remarks_of};
ghost use Rattle.audit_text.specs.text.Check.{check_text, counts_line, form_texts, if_any, in_parentheses, mismatch_line, uncovered_text};
ghost use Rattle.audit_text.specs.private.Forms.{AppendsNext};

use super::out_of_place::push_remarks;
use crate::words::{form_name, push_type};
use shown::ShownName;
use std::alloc::{AllocError, Allocator};
use uefi_audits::check::{CheckResult, Form, Mismatch, TypeCounts};

/// Appends what was found of the events of a log: a line for each that matches in none of its type's
/// forms, for each that is out of place, and for the PCRs without a separator, and then one for each
/// type of the events, in the order of the types' numbers. The name is that of the log's file.
///
/// ```text
/// NAME: event 5 at offset 266 (EV_SEPARATOR, PCR 0) matches in none of the forms of its type
/// NAME: event 9 at offset 702 (EV_SEPARATOR, PCR 4) is out of place: second separator
/// NAME: PCR 5, 6 without a separator
/// EV_SEPARATOR: 7 match (7 data), 1 don't match, 0 not in the log
/// EV_IPL: 3 match (2 command, 1 narrowed), 0 don't match, 4 not in the log
/// ```
///
/// A type without a name is its number, as `0x80000011`. Where not all events of a type are covered,
/// `, 2 not covered` ends its line.
///
/// # Errors
///
/// [`AllocError`] if an allocation fails. The text may have grown then.
#[tactic(auto, unfolding(crate::specs::text::Check::check_text))]
pub fn push_check<A: Allocator>(
    text: &mut String<A>,
    name: &str,
    found: &CheckResult<'_, A>,
) -> Result<(), AllocError>
    ensures { OnOk result (AppendsText text.old text.new (check_text name.now
        (map mismatch_of found.now.mismatches.items) (remarks_of found.now.remarks)
        found.now.types.items)) }
{
    push_mismatches(text, name, found.mismatches.as_slice())?;
    push_remarks(text, name, &found.remarks)?;
    for counts in &found.types {
        push_counts(text, counts)?;
    }
    Ok(())
}

/// Appends a line for each event that matches in none of its type's forms.
fn push_mismatches<A: Allocator>(
    text: &mut String<A>,
    name: &str,
    mismatches: &[Mismatch<'_>],
) -> Result<(), AllocError>
    ensures { OnOk result (AppendsText text.old text.new
        (flat_map (mismatch_line name.now) (map mismatch_of mismatches.now))) }
{
    for mismatch in mismatches {
        push_mismatch(text, name, mismatch)?;
    }
    Ok(())
}

/// Appends the line of an event that matches in none of its type's forms.
#[tactic(auto, unfolding(crate::specs::text::Check::mismatch_line))]
fn push_mismatch<A: Allocator>(
    text: &mut String<A>,
    name: &str,
    mismatch: &Mismatch<'_>,
) -> Result<(), AllocError>
    ensures { OnOk result
        (AppendsText text.old text.new (mismatch_line name.now (mismatch_of mismatch.now))) }
{
    let (name, index, entry) = (ShownName(name), mismatch.index, &mismatch.entry);
    let offset = entry.offset;
    write!(text, "{name}: event {index} at offset {offset} (")?;
    push_type(text, entry.event.event_type())?;
    let pcr = entry.event.pcr_index().0;
    writeln!(
        text,
        ", PCR {pcr}) matches in none of the forms of its type"
    )
}

/// Appends the line of a type.
#[tactic(auto, unfolding(crate::specs::text::Check::counts_line))]
fn push_counts<A: Allocator>(text: &mut String<A>, counts: &TypeCounts) -> Result<(), AllocError>
    ensures { OnOk result (AppendsText text.old text.new (counts_line counts.now)) }
{
    push_type(text, counts.event_type)?;
    let matches = counts.matches;
    write!(text, ": {matches} match")?;
    push_forms(text, counts)?;
    let (none, outside) = (counts.matches_none, counts.not_in_log);
    write!(text, ", {none} don't match, {outside} not in the log")?;
    push_uncovered(text, counts.not_covered)
}

/// Appends the end of a type's line: how many of its events aren't covered, if any isn't.
#[tactic(auto, unfolding(crate::specs::text::Check::uncovered_text))]
fn push_uncovered<A: Allocator>(text: &mut String<A>, count: u64) -> Result<(), AllocError>
    ensures { OnOk result (AppendsText text.old text.new (uncovered_text count)) }
{
    if count == 0 {
        return text.push_str("\n");
    }
    writeln!(text, ", {count} not covered")
}

/// Appends in parentheses how many events match in each form, if any matches.
fn push_forms<A: Allocator>(text: &mut String<A>, counts: &TypeCounts) -> Result<(), AllocError>
    ensures { OnOk result (AppendsText text.old text.new
        (in_parentheses (form_texts counts.now.by_form all_forms))) }
{
    let mut any = false;
    for form in Form::ALL {
        any = push_form(text, any, counts.matching_in(form), form)?;
    }
    if any {
        text.push(')')?;
    }
    Ok(())
}

/// Appends how many events match in a form, if any does. Returns whether any does in this form or
/// in one before it.
#[tactic(auto, unfolding(crate::specs::text::Check::if_any))]
fn push_form<A: Allocator>(
    text: &mut String<A>,
    any: bool,
    count: u64,
    form: Form,
) -> Result<bool, AllocError>
    ensures { IfOk result (AppendsNext any (if_any count form) text.old text.new) }
{
    if count == 0 {
        return Ok(any);
    }
    let before = if any { ", " } else { " (" };
    let name = form_name(form);
    write!(text, "{before}{count} {name}")?;
    Ok(true)
}
