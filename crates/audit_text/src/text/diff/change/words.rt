ghost use Rattle.std.specs.Prelude.{◌≡◌, ◌≤◌, IfOk, length, map, string_bytes};
ghost use Rattle.std.specs.List.{common_prefix_len};
ghost use Rattle.std.specs.Str.{bytes_eq};
ghost use Rattle.audit_text.specs.text.ChangeParts.{joined_words, word_change, words_between, words_from, words_of};

use crate::text::diff::change::prefix::common_prefix_length;
use crate::text::diff::change::sides::change_between;
use std::alloc::{AllocError, Global};

/// Returns the words of two texts, as they are shown, from the first that differs; nothing if none
/// does.
#[tactic(auto, unfolding(crate::specs::text::ChangeParts::word_change))]
pub(crate) fn word_change(alloc: Global, old: &str, new: &str) -> Result<String, AllocError>
    ensures { IfOk result (λ words. string_bytes words ≡ word_change old.now new.now) }
{
    let old = words_of(alloc, old)?;
    let new = words_of(alloc, new)?;
    let index = common_count(old.as_slice(), new.as_slice());
    words_between(alloc, index, old.as_slice(), new.as_slice())
}

/// Returns the words of both sides from an index.
#[tactic(auto, unfolding(crate::specs::text::ChangeParts::words_between))]
fn words_between(
    alloc: Global,
    index: usize,
    old: &[&str],
    new: &[&str],
) -> Result<String, AllocError>
    requires within_old { index ≤ length old.now }
    requires within_new { index ≤ length new.now }
    ensures { IfOk result (λ words. string_bytes words
        ≡ words_between index (map (λ word. word.now) old.now) (map (λ word. word.now) new.now)) }
{
    let old = words_from(alloc, index, old)?;
    let new = words_from(alloc, index, new)?;
    change_between(alloc, old.as_str(), new.as_str())
}

/// Returns the words of a text, which spaces separate.
fn words_of<'a>(alloc: Global, text: &'a str) -> Result<Vec<&'a str>, AllocError>
    ensures { IfOk result (λ found. map (λ word. word.now) found.items ≡ words_of text.now) }
{
    text.split(' ').collect(alloc)
}

/// Returns how many first words both texts have.
fn common_count(old: &[&str], new: &[&str]) -> usize
    ensures count { result ≡ common_prefix_len bytes_eq
        (map (λ word. word.now) old.now) (map (λ word. word.now) new.now) }
    ensures within_old { result ≤ length old.now }
    ensures within_new { result ≤ length new.now }
{
    common_prefix_length(old, new)
}

/// Returns the words from an index, after `.. ` for those before them.
#[tactic(auto, unfolding(crate::specs::text::ChangeParts::words_from))]
fn words_from(alloc: Global, index: usize, words: &[&str]) -> Result<String, AllocError>
    requires { index ≤ length words.now }
    ensures { IfOk result (λ text. string_bytes text
        ≡ words_from index (map (λ word. word.now) words.now)) }
{
    let rest = joined_words(alloc, index, words)?;
    if index == 0 || rest.is_empty() {
        return Ok(rest);
    }
    format!(in alloc; ".. {rest}")
}

/// Returns the words from an index, with spaces between them.
#[tactic(auto, unfolding(crate::specs::text::ChangeParts::joined_words))]
fn joined_words(alloc: Global, index: usize, words: &[&str]) -> Result<String, AllocError>
    requires { index ≤ length words.now }
    ensures { IfOk result (λ text. string_bytes text
        ≡ joined_words index (map (λ word. word.now) words.now)) }
{
    let (_, rest) = words.split_at(index);
    rest.join(alloc, " ")
}
