ghost use Rattle.std.specs.Prelude.{◌≡◌, map, IfOk, OnOk, string_bytes};
ghost use Rattle.uefi_base.specs.Appending.{AppendsText};
ghost use Rattle.uefi_tcg.specs.LogViews.{event_of};
ghost use Rattle.audit_text.specs.text.Change.{are_uncovered, change_text, data_change, data_words, digest_words, has_no_form, with_digests};
ghost use Rattle.uefi_audits.specs.diff.Views.{numbered_of};

use self::bytes::byte_change;
use self::digests::digest_changes;
pub(crate) use self::digests::digest_text;
use self::said::said_change;
use std::alloc::{AllocError, Global};
use uefi_audits::check::forms_of;
use uefi_audits::diff::NumberedEntry;
use uefi_tcg::{AlgorithmId, LogEvent};

mod bytes;
mod digests;
mod lines;
mod prefix;
mod said;
mod sides;
mod words;

/// Appends what changed between an event of a log and its counterpart in another one, on one line.
/// Nothing is appended if the data are the same, and the digests of these algorithms are too.
///
/// ```text
/// 0 -> 1
/// .. splash -> .. debug
/// nothing -> signature of owner 77fa9abd-0359-4d32-bd60-28f4e78f784b: 80b4d969..
/// from byte 12: 0a0b -> 0c (no digest covers this); sha256 aa.. -> bb..
/// ```
///
/// | data | what is compared |
/// |---|---|
/// | a variable whose value isn't read | the value: 0 and 1 in one byte, its words, if all of it prints, or its bytes |
/// | a text, a version, the only tagged event | its words, with `..` for those before the first that differs |
/// | other data that are read | the lines of an event's block for them, without their indent |
/// | data that aren't read, or if nothing differs in that | the bytes of the data |
///
/// Bytes are in hex from the first that differs, at most 32 of an event, and how many more there are:
/// `..(23 more)`. If an event has nothing that the other one lacks, its side is `nothing`. The lines are
/// those of [`push_event_blocks`](crate::text::push_event_blocks).
///
/// The digests follow if the data don't account for them: the data are the same, or the types of
/// both events have no form ([`forms_of`]), so that no digest covers what changed. They are in hex,
/// or `none` if an event has no digest of the algorithm.
///
/// # Errors
///
/// [`AllocError`] if an allocation fails. The text may have grown then.
pub fn push_change(
    text: &mut String,
    alloc: Global,
    algorithms: &[AlgorithmId],
    old: &NumberedEntry<'_>,
    new: &NumberedEntry<'_>,
) -> Result<(), AllocError>
    ensures { OnOk result (AppendsText text.old text.new (change_text
        (map (λ id. id.0) algorithms.now) (numbered_of old.now) (numbered_of new.now))) }
{
    let words = data_words(alloc, old, new)?;
    let digests = digest_words(alloc, algorithms, old, new)?;
    push_with_digests(text, words.as_str(), digests.as_str())
}

/// Appends what changed in the data and in the digests, with `; ` between them.
#[tactic(auto, unfolding(crate::specs::text::Change::with_digests))]
fn push_with_digests(text: &mut String, words: &str, digests: &str) -> Result<(), AllocError>
    ensures { OnOk result (AppendsText text.old text.new (with_digests words.now digests.now)) }
{
    if words.is_empty() || digests.is_empty() {
        return write!(text, "{words}{digests}");
    }
    write!(text, "{words}; {digests}")
}

/// Returns what changed in the data, and whether no digest covers it; nothing if they are the same.
#[tactic(auto, unfolding(crate::specs::text::Change::data_words))]
fn data_words(
    alloc: Global,
    old: &NumberedEntry<'_>,
    new: &NumberedEntry<'_>,
) -> Result<String, AllocError>
    ensures { IfOk result
        (λ words. string_bytes words ≡ data_words (numbered_of old.now) (numbered_of new.now)) }
{
    if old.entry.event.event_data() == new.entry.event.event_data() {
        return Ok(String::new(alloc));
    }
    let words = data_change(alloc, old, new)?;
    if !are_uncovered(old, new) {
        return Ok(words);
    }
    format!(in alloc; "{words} (no digest covers this)")
}

/// Returns what changed in what the data say, or the bytes from the first that differs.
#[tactic(auto, unfolding(crate::specs::text::Change::or_else))]
fn data_change(
    alloc: Global,
    old: &NumberedEntry<'_>,
    new: &NumberedEntry<'_>,
) -> Result<String, AllocError>
    ensures { IfOk result
        (λ words. string_bytes words ≡ data_change (numbered_of old.now) (numbered_of new.now)) }
{
    let said = said_change(alloc, old, new)?;
    if !said.is_empty() {
        return Ok(said);
    }
    let (old, new) = (old.entry.event.event_data(), new.entry.event.event_data());
    byte_change(alloc, old, new)
}

/// Returns what changed in the digests, if the data don't account for it.
#[tactic(auto, unfolding(crate::specs::text::Change::digest_words))]
fn digest_words(
    alloc: Global,
    algorithms: &[AlgorithmId],
    old: &NumberedEntry<'_>,
    new: &NumberedEntry<'_>,
) -> Result<String, AllocError>
    ensures { IfOk result (λ words. string_bytes words ≡ digest_words
        (map (λ id. id.0) algorithms.now) (numbered_of old.now) (numbered_of new.now)) }
{
    let same = old.entry.event.event_data() == new.entry.event.event_data();
    if same || are_uncovered(old, new) {
        return digest_changes(alloc, algorithms, &old.entry.event, &new.entry.event);
    }
    Ok(String::new(alloc))
}

/// Returns whether the log has nothing that two events measure, by their types.
fn are_uncovered(old: &NumberedEntry<'_>, new: &NumberedEntry<'_>) -> bool
    ensures { result ≡ are_uncovered (numbered_of old.now) (numbered_of new.now) }
{
    has_no_form(&old.entry.event) && has_no_form(&new.entry.event)
}

/// Returns whether the log has nothing that an event measures, by its type.
pub(crate) fn has_no_form(event: &LogEvent<'_>) -> bool
    ensures { result ≡ has_no_form (event_of event.now) }
{
    forms_of(event.event_type()).is_empty()
}
