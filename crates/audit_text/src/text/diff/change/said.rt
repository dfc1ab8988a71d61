ghost use Rattle.std.specs.Prelude.{◌≡◌, IfOk, option_map, string_bytes};
ghost use Rattle.audit_text.specs.text.Change.{block_change, is_unread, lines_in, plain_value, print_change, read_change, said_change, tagged_text, value_change, words_in};
ghost use Rattle.audit_text.specs.words.Printed.{printed_text};
ghost use Rattle.shown.specs.Name.{shown_name};
ghost use Rattle.uefi_audits.specs.content.Views.{content_of};
ghost use Rattle.uefi_audits.specs.diff.Views.{numbered_of};

use crate::text::diff::change::bytes::byte_change;
use crate::text::diff::change::lines::line_change;
use crate::text::diff::change::words::word_change;
use crate::text::events::parts::push_content;
use crate::words::printed::printed_text;
use crate::words::texts::{shown, shown_event, shown_version};
use std::alloc::{AllocError, Global};
use tcg_event::EventText;
use uefi_audits::content::{EventContent, TaggedData};
use uefi_audits::diff::NumberedEntry;

/// Returns what changed in what the data of two events say; nothing if both say the same, or the
/// data of one aren't read.
#[tactic(auto, unfolding(crate::specs::text::Change::said_change))]
pub(crate) fn said_change(
    alloc: Global,
    old: &NumberedEntry<'_>,
    new: &NumberedEntry<'_>,
) -> Result<String, AllocError>
    ensures { IfOk result
        (λ words. string_bytes words ≡ said_change (numbered_of old.now) (numbered_of new.now)) }
{
    match (plain_value(&old.content), plain_value(&new.content)) {
        (Some(old), Some(new)) => value_change(alloc, old, new),
        _ => read_change(alloc, old, new),
    }
}

/// Returns what changed in texts, or in the lines of what the data say.
#[tactic(auto, unfolding(crate::specs::text::Change::read_change))]
fn read_change(
    alloc: Global,
    old: &NumberedEntry<'_>,
    new: &NumberedEntry<'_>,
) -> Result<String, AllocError>
    ensures { IfOk result
        (λ words. string_bytes words ≡ read_change (numbered_of old.now) (numbered_of new.now)) }
{
    let old_text = words_in(alloc, &old.content)?;
    let new_text = words_in(alloc, &new.content)?;
    match (&old_text, &new_text) {
        (Some(old), Some(new)) => word_change(alloc, old.as_str(), new.as_str()),
        _ => block_change(alloc, old, new),
    }
}

/// Returns what changed in the value of a variable.
#[tactic(auto, unfolding(crate::specs::text::Change::value_change))]
fn value_change(alloc: Global, old: &[u8], new: &[u8]) -> Result<String, AllocError>
    ensures { IfOk result (λ words. string_bytes words ≡ value_change old.now new.now) }
{
    let (zero, one) = ([0], [1]);
    if old == zero.as_slice() && new == one.as_slice() {
        return String::from_str(alloc, "0 -> 1");
    }
    if old == one.as_slice() && new == zero.as_slice() {
        return String::from_str(alloc, "1 -> 0");
    }
    print_change(alloc, old, new)
}

/// Returns what changed in the texts that bytes are, if all of both prints; else in the bytes.
#[tactic(auto, unfolding(crate::specs::text::Change::print_change))]
fn print_change(alloc: Global, old: &[u8], new: &[u8]) -> Result<String, AllocError>
    ensures { IfOk result (λ words. string_bytes words ≡ print_change old.now new.now) }
{
    let old_text = shown_printed(alloc, old)?;
    let new_text = shown_printed(alloc, new)?;
    match (&old_text, &new_text) {
        (Some(old), Some(new)) => word_change(alloc, old.as_str(), new.as_str()),
        _ => byte_change(alloc, old, new),
    }
}

/// Returns the text that bytes are, if all of it prints, as it is shown.
fn shown_printed(alloc: Global, bytes: &[u8]) -> Result<Option<String>, AllocError>
    ensures { IfOk result
        (λ text. option_map string_bytes text ≡ option_map shown_name (printed_text bytes.now)) }
{
    match printed_text(alloc, bytes)? {
        Some(text) => Ok(Some(shown(alloc, text.as_str())?)),
        None => Ok(None),
    }
}

/// Returns the lines of what the data say that only one of two events has; nothing if the data of
/// one aren't read.
#[tactic(auto, unfolding(crate::specs::text::Change::block_change))]
fn block_change(
    alloc: Global,
    old: &NumberedEntry<'_>,
    new: &NumberedEntry<'_>,
) -> Result<String, AllocError>
    ensures { IfOk result
        (λ words. string_bytes words ≡ block_change (numbered_of old.now) (numbered_of new.now)) }
{
    if is_unread(&old.content) || is_unread(&new.content) {
        return Ok(String::new(alloc));
    }
    let old = lines_in(alloc, old)?;
    let new = lines_in(alloc, new)?;
    line_change(alloc, old.as_str(), new.as_str())
}

/// Returns the lines of what the data of an event say.
fn lines_in(alloc: Global, found: &NumberedEntry<'_>) -> Result<String, AllocError>
    ensures { IfOk result (λ text. string_bytes text ≡ lines_in (numbered_of found.now)) }
{
    let mut text = String::new(alloc);
    push_content(
        &mut text,
        alloc,
        &found.content,
        found.entry.event.event_data(),
    )?;
    Ok(text)
}

/// Returns the value of a variable, if it isn't read.
fn plain_value<'a>(content: &EventContent<'a>) -> Option<&'a [u8]>
    ensures { option_map (λ value. value.now) result ≡ plain_value (content_of content.now) }
{
    match content {
        EventContent::Variable(variable) => Some(variable.data),
        _ => None,
    }
}

/// Returns the text or the version that data are, as it is shown.
fn words_in(alloc: Global, content: &EventContent<'_>) -> Result<Option<String>, AllocError>
    ensures { IfOk result
        (λ text. option_map string_bytes text ≡ words_in (content_of content.now)) }
{
    match content {
        EventContent::Text(said) => Ok(Some(shown(alloc, said)?)),
        EventContent::LoaderText(said) => Ok(Some(shown_event(alloc, said)?)),
        EventContent::CrtmVersion(version) => Ok(Some(shown_version(alloc, version)?)),
        EventContent::Tagged(tagged) => tagged_text(alloc, tagged),
        _ => Ok(None),
    }
}

/// Returns the text of a tagged event that is the only one, with no bytes after it, as it is shown.
#[tactic(auto, unfolding(crate::specs::text::Change::tagged_text))]
fn tagged_text(alloc: Global, tagged: &TaggedData<'_>) -> Result<Option<String>, AllocError>
    ensures { IfOk result (λ text. option_map string_bytes text
        ≡ tagged_text tagged.now.split.0.0 tagged.now.split.0.1) }
{
    let mut events = tagged.iter();
    match (events.next(), events.next()) {
        (Some(one), None) if tagged.rest().is_empty() => {
            Ok(Some(shown_event(alloc, &EventText::read(one.data))?))
        }
        _ => Ok(None),
    }
}

/// Returns whether data aren't read.
fn is_unread(content: &EventContent<'_>) -> bool
    ensures { result ≡ is_unread (content_of content.now) }
{
    matches!(content, EventContent::Unread)
}
