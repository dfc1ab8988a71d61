//! The lines of the remarks on the places of a log's events.

ghost use Rattle.std.specs.Prelude.{◌≡◌, flat_map, map, OnOk};
ghost use Rattle.uefi_base.specs.Appending.{AppendsText};
ghost use Rattle.uefi_audits.specs.OutOfPlace.{misplaced_of, remarks_of};
ghost use Rattle.audit_text.specs.text.OutOfPlace.{misplaced_line, remark_lines, unseparated_from, unseparated_line};

use super::uncompared::push_others;
use crate::words::{push_type, rule_name};
use shown::ShownName;
use std::alloc::{AllocError, Allocator};
use uefi_audits::out_of_place::{OutOfPlace, Remarks};

/// Appends the remarks: a line for each event that is out of place, and one for the PCRs without a
/// separator.
#[tactic(auto, unfolding(crate::specs::text::OutOfPlace::remark_lines))]
pub(super) fn push_remarks<A: Allocator>(
    text: &mut String<A>,
    name: &str,
    remarks: &Remarks<'_, A>,
) -> Result<(), AllocError>
    ensures { OnOk result (AppendsText text.old text.new
        (remark_lines name.now (remarks_of remarks.now))) }
{
    push_events(text, name, remarks.events.as_slice())?;
    push_unseparated(text, name, remarks.unseparated.as_slice())
}

/// Appends a line for each event that is out of place.
fn push_events<A: Allocator>(
    text: &mut String<A>,
    name: &str,
    events: &[OutOfPlace<'_>],
) -> Result<(), AllocError>
    ensures { OnOk result (AppendsText text.old text.new
        (flat_map (misplaced_line name.now) (map misplaced_of events.now))) }
{
    for event in events {
        push_event(text, name, event)?;
    }
    Ok(())
}

/// Appends the line of an event that is out of place.
#[tactic(auto, unfolding(crate::specs::text::OutOfPlace::misplaced_line))]
fn push_event<A: Allocator>(
    text: &mut String<A>,
    name: &str,
    found: &OutOfPlace<'_>,
) -> Result<(), AllocError>
    ensures { OnOk result
        (AppendsText text.old text.new (misplaced_line name.now (misplaced_of found.now))) }
{
    let (name, index, offset) = (ShownName(name), found.index, found.entry.offset);
    write!(text, "{name}: event {index} at offset {offset} (")?;
    push_type(text, found.entry.event.event_type())?;
    let (pcr, rule) = (found.entry.event.pcr_index().0, rule_name(found.rule));
    writeln!(text, ", PCR {pcr}) is out of place: {rule}")
}

/// Appends which PCRs have no separator, if there are any.
#[tactic(auto, unfolding(crate::specs::text::OutOfPlace::unseparated_line))]
fn push_unseparated<A: Allocator>(
    text: &mut String<A>,
    name: &str,
    pcrs: &[u32],
) -> Result<(), AllocError>
    ensures { OnOk result (AppendsText text.old text.new (unseparated_line name.now pcrs.now)) }
{
    match pcrs {
        [] => Ok(()),
        [first, others @ ..] => push_pcrs(text, name, *first, others),
    }
}

/// Appends the line of a PCR without a separator and further ones.
#[tactic(auto, unfolding(crate::specs::text::OutOfPlace::unseparated_from))]
fn push_pcrs<A: Allocator>(
    text: &mut String<A>,
    name: &str,
    first: u32,
    others: &[u32],
) -> Result<(), AllocError>
    ensures { OnOk result
        (AppendsText text.old text.new (unseparated_from name.now first others.now)) }
{
    let name = ShownName(name);
    write!(text, "{name}: PCR {first}")?;
    push_others(text, others)?;
    writeln!(text, " without a separator")
}
