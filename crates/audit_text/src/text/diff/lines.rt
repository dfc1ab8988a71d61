ghost use Rattle.std.specs.Prelude.{OnOk};
ghost use Rattle.uefi_base.specs.Appending.{AppendsText};
ghost use Rattle.audit_text.specs.ComparedLogs.{logs_of};
ghost use Rattle.audit_text.specs.text.Differences.{algorithm_words, at_text, changed_line, command_words, compared_line, cover_text, covered_words, digest_words, digests_text, earlier_line, earlier_text, label_words, name_text, name_words, only_line, place_text, places_text, start_text, type_text};
ghost use Rattle.audit_text.specs.words.Said.{said};
ghost use Rattle.uefi_audits.specs.content.Views.{content_of};
ghost use Rattle.uefi_audits.specs.diff.Views.{change_of, name_of, numbered_of, numbers_of};
ghost use Rattle.uefi_tcg.specs.EventTypes.{event_type_name};
ghost use Rattle.uefi_tcg.specs.LogViews.{event_of};

use crate::ComparedLogs;
use crate::text::diff::change::{digest_text, has_no_form, push_change};
use crate::text::events::names::push_algorithm;
use crate::words::{push_bytes, push_said};
use std::alloc::{AllocError, Global};
use uefi_audits::content::EventContent;
use uefi_audits::diff::{EventChange, EventName, NumberedEntry, command_name, has_uncovered_name};
use uefi_tcg::{AlgorithmId, EventType, LogEvent};

/// Appends the line that names the algorithms whose digests are compared.
#[tactic(auto, unfolding(crate::specs::text::Differences::compared_line))]
pub(crate) fn push_compared_line(
    text: &mut String,
    algorithms: &[AlgorithmId],
) -> Result<(), AllocError>
    ensures { OnOk result (AppendsText text.old text.new (compared_line (numbers_of algorithms.now))) }
{
    if algorithms.is_empty() {
        return text.push_str("compared: data alone, since no bank to compare is in both logs\n");
    }
    text.push_str("compared:")?;
    push_algorithms(text, algorithms)?;
    text.push_str("\n")
}

/// Appends the names of algorithms, each after a space.
#[tactic(auto, unfolding(crate::specs::text::Differences::algorithm_words))]
fn push_algorithms(text: &mut String, algorithms: &[AlgorithmId]) -> Result<(), AllocError>
    ensures { OnOk result (AppendsText text.old text.new (algorithm_words (numbers_of algorithms.now))) }
{
    for algorithm in algorithms {
        text.push_str(" ")?;
        push_algorithm(text, *algorithm)?;
    }
    Ok(())
}

/// Appends the line of an event that differs from its counterpart.
#[tactic(auto, unfolding(crate::specs::text::Differences::changed_line))]
pub(crate) fn push_changed_line(
    text: &mut String,
    alloc: Global,
    logs: &ComparedLogs<'_>,
    change: &EventChange<'_>,
) -> Result<(), AllocError>
    ensures { OnOk result (AppendsText text.old text.new
        (changed_line (logs_of logs.now) (change_of change.now))) }
{
    push_start(text, &change.old)?;
    push_name(text, alloc, change)?;
    text.push_str(": ")?;
    push_change(text, alloc, logs.algorithms, &change.old, &change.new)?;
    push_places(text, logs, change)
}

/// Appends where an event and its counterpart are.
#[tactic(auto, unfolding(crate::specs::text::Differences::places_text))]
fn push_places(
    text: &mut String,
    logs: &ComparedLogs<'_>,
    change: &EventChange<'_>,
) -> Result<(), AllocError>
    ensures { OnOk result (AppendsText text.old text.new
        (places_text (logs_of logs.now) (change_of change.now))) }
{
    text.push_str(" (")?;
    push_at(text, logs.old_name, &change.old)?;
    text.push_str(", ")?;
    push_at(text, logs.new_name, &change.new)?;
    text.push_str(")\n")
}

/// Appends the line of an event of the old log that the new one doesn't have.
#[tactic(auto, unfolding(crate::specs::text::Differences::only_line))]
pub(crate) fn push_only_line(
    text: &mut String,
    alloc: Global,
    logs: &ComparedLogs<'_>,
    found: &NumberedEntry<'_>,
) -> Result<(), AllocError>
    ensures { OnOk result (AppendsText text.old text.new
        (only_line (logs_of logs.now) (numbered_of found.now))) }
{
    let new_name = logs.new_name;
    push_place(text, alloc, logs, found)?;
    writeln!(text, " isn't in {new_name}")
}

/// Appends the line of an event that comes earlier in the new log.
#[tactic(auto, unfolding(crate::specs::text::Differences::earlier_line))]
pub(crate) fn push_earlier_line(
    text: &mut String,
    alloc: Global,
    logs: &ComparedLogs<'_>,
    change: &EventChange<'_>,
) -> Result<(), AllocError>
    ensures { OnOk result (AppendsText text.old text.new
        (earlier_line (logs_of logs.now) (change_of change.now))) }
{
    push_place(text, alloc, logs, &change.old)?;
    push_earlier(text, logs.new_name, &change.new)
}

/// Appends that an event comes earlier in the log of this name, and its index and offset there.
#[tactic(auto, unfolding(crate::specs::text::Differences::earlier_text))]
fn push_earlier(text: &mut String, name: &str, found: &NumberedEntry<'_>) -> Result<(), AllocError>
    ensures { OnOk result
        (AppendsText text.old text.new (earlier_text name.now (numbered_of found.now))) }
{
    let (index, offset) = (found.index, found.entry.offset);
    writeln!(
        text,
        " comes earlier in {name}, as event {index} at offset {offset}"
    )
}

/// Appends what the line of an event of the old log begins with: its PCR and its type, what its data
/// say, its digests, if the data aren't what was measured, and where it is.
#[tactic(auto, unfolding(crate::specs::text::Differences::place_text))]
fn push_place(
    text: &mut String,
    alloc: Global,
    logs: &ComparedLogs<'_>,
    found: &NumberedEntry<'_>,
) -> Result<(), AllocError>
    ensures { OnOk result (AppendsText text.old text.new
        (place_text (logs_of logs.now) (numbered_of found.now))) }
{
    push_start(text, found)?;
    push_words(text, alloc, found)?;
    push_digests(text, alloc, logs.algorithms, &found.entry.event)?;
    text.push_str(" (")?;
    push_at(text, logs.old_name, found)?;
    text.push_str(")")
}

/// Appends the PCR and the type of an event.
#[tactic(auto, unfolding(crate::specs::text::Differences::start_text))]
fn push_start(text: &mut String, found: &NumberedEntry<'_>) -> Result<(), AllocError>
    ensures { OnOk result (AppendsText text.old text.new (start_text (numbered_of found.now))) }
{
    let pcr = found.entry.event.pcr_index().0;
    write!(text, "PCR {pcr}: ")?;
    push_type(text, found.entry.event.event_type())
}

/// Appends the index and the offset of an event, and the name of its log.
#[tactic(auto, unfolding(crate::specs::text::Differences::at_text))]
fn push_at(text: &mut String, name: &str, found: &NumberedEntry<'_>) -> Result<(), AllocError>
    ensures { OnOk result
        (AppendsText text.old text.new (at_text name.now (numbered_of found.now))) }
{
    let (index, offset) = (found.index, found.entry.offset);
    write!(text, "event {index} at offset {offset} of {name}")
}

/// Appends what data say, after a comma, and whether no digest covers it; nothing if they say
/// nothing.
#[tactic(auto, unfolding(crate::specs::text::Differences::covered_words))]
fn push_words(text: &mut String, alloc: Global, found: &NumberedEntry<'_>) -> Result<(), AllocError>
    ensures { OnOk result (AppendsText text.old text.new
        (covered_words (said (content_of found.now.content)) (cover_text (numbered_of found.now)))) }
{
    let mut words = String::new(alloc);
    push_said(&mut words, alloc, &found.content)?;
    if words.is_empty() {
        return Ok(());
    }
    write!(text, ", {words}")?;
    push_cover(text, found)
}

/// Appends whether no digest covers what the data say, or the name in them.
#[tactic(auto, unfolding(crate::specs::text::Differences::cover_text))]
fn push_cover(text: &mut String, found: &NumberedEntry<'_>) -> Result<(), AllocError>
    ensures { OnOk result (AppendsText text.old text.new (cover_text (numbered_of found.now))) }
{
    if has_no_form(&found.entry.event) {
        return text.push_str(", which no digest covers");
    }
    if has_uncovered_name(found) {
        return text.push_str(", whose name no digest covers");
    }
    Ok(())
}

/// Appends the digests of an event whose data aren't what was measured, each after a comma.
#[tactic(auto, unfolding(crate::specs::text::Differences::digests_text))]
fn push_digests(
    text: &mut String,
    alloc: Global,
    algorithms: &[AlgorithmId],
    event: &LogEvent<'_>,
) -> Result<(), AllocError>
    ensures { OnOk result (AppendsText text.old text.new
        (digests_text (numbers_of algorithms.now) (event_of event.now))) }
{
    if !has_no_form(event) {
        return Ok(());
    }
    for algorithm in algorithms {
        push_digest(text, alloc, *algorithm, event)?;
    }
    Ok(())
}

/// Appends the digests that an event has of an algorithm, after a comma.
#[tactic(auto, unfolding(crate::specs::text::Differences::digest_words))]
fn push_digest(
    text: &mut String,
    alloc: Global,
    algorithm: AlgorithmId,
    event: &LogEvent<'_>,
) -> Result<(), AllocError>
    ensures { OnOk result (AppendsText text.old text.new
        (digest_words (event_of event.now) algorithm.0)) }
{
    let digests = digest_text(alloc, algorithm, event)?;
    text.push_str(", ")?;
    push_algorithm(text, algorithm)?;
    text.push_str(digests.as_str())
}

/// Appends what an event that changed is named by, after a comma; nothing if it has no name.
#[tactic(auto, unfolding(crate::specs::text::Differences::words_text))]
fn push_name(text: &mut String, alloc: Global, change: &EventChange<'_>) -> Result<(), AllocError>
    ensures { OnOk result (AppendsText text.old text.new (name_text (change_of change.now))) }
{
    let mut words = String::new(alloc);
    push_label(&mut words, alloc, &change.old, &change.new)?;
    if words.is_empty() {
        return Ok(());
    }
    write!(text, ", {words}")
}

/// Appends what the data of an event say, if those of its counterpart are the same, or else their
/// name.
#[tactic(auto, unfolding(crate::specs::text::Differences::label_words))]
fn push_label(
    text: &mut String,
    alloc: Global,
    old: &NumberedEntry<'_>,
    new: &NumberedEntry<'_>,
) -> Result<(), AllocError>
    ensures { OnOk result (AppendsText text.old text.new
        (label_words (numbered_of old.now) (numbered_of new.now))) }
{
    let bytes = old.entry.event.event_data();
    if bytes == new.entry.event.event_data() {
        return push_said(text, alloc, &old.content);
    }
    push_name_words(text, alloc, &old.content, bytes)
}

/// Appends the name of a variable, the path of an image, a tag, or what GRUB writes before a command
/// and the command's first word.
#[tactic(auto, unfolding(crate::specs::text::Differences::name_words))]
fn push_name_words(
    text: &mut String,
    alloc: Global,
    content: &EventContent<'_>,
    bytes: &[u8],
) -> Result<(), AllocError>
    ensures { OnOk result
        (AppendsText text.old text.new (name_words (content_of content.now) bytes.now)) }
{
    match content {
        EventContent::Variable(_)
        | EventContent::BootOption(..)
        | EventContent::BootOrder(..)
        | EventContent::SignatureLists(..)
        | EventContent::Signature(..)
        | EventContent::Image(..)
        | EventContent::Tagged(_) => push_said(text, alloc, content),
        EventContent::LoaderText(_) => push_command(text, command_name(bytes)),
        _ => Ok(()),
    }
}

/// Appends the word that GRUB writes before a command, and the command's first word.
#[tactic(auto, unfolding(crate::specs::text::Differences::command_words))]
fn push_command(text: &mut String, command: EventName<'_>) -> Result<(), AllocError>
    ensures { OnOk result (AppendsText text.old text.new (command_words (name_of command.entry))) }
{
    push_bytes(text, command.namespace)?;
    if command.name.is_empty() {
        return Ok(());
    }
    text.push_str(": ")?;
    push_bytes(text, command.name)
}

/// Appends the name of a type, or its number.
#[tactic(auto, unfolding(crate::specs::text::Differences::type_text))]
fn push_type(text: &mut String, event_type: EventType) -> Result<(), AllocError>
    ensures { OnOk result (AppendsText text.old text.new
        (type_text event_type.0 (event_type_name event_type.0))) }
{
    match event_type.name() {
        Some(name) => text.push_str(name),
        None => {
            let number = event_type.0;
            write!(text, "type 0x{:x}", number)
        }
    }
}
