ghost use Rattle.std.specs.Prelude.{◌≡◌, ◌≤◌, IfOk, length, string_bytes};
ghost use Rattle.audit_text.specs.text.ChangeParts.{byte_change, bytes_from, first_bytes};

use crate::text::diff::change::prefix::common_prefix_length;
use crate::text::diff::change::sides::change_between;
use crate::words::push_more;
use std::alloc::{AllocError, Global};

/// How many bytes of a side are shown.
const SHOWN_LENGTH: usize = 32;

/// Returns the bytes of both sides in hex from the first that differs; nothing if none does.
#[tactic(auto, unfolding(crate::specs::text::ChangeParts::byte_change))]
pub(crate) fn byte_change(alloc: Global, old: &[u8], new: &[u8]) -> Result<String, AllocError>
    ensures { IfOk result (λ words. string_bytes words ≡ byte_change old.now new.now) }
{
    if old == new {
        return Ok(String::new(alloc));
    }
    bytes_from(alloc, common_prefix_length(old, new), old, new)
}

/// Returns the bytes of both sides in hex from an index.
#[tactic(auto, unfolding(crate::specs::text::ChangeParts::bytes_from))]
fn bytes_from(alloc: Global, index: usize, old: &[u8], new: &[u8]) -> Result<String, AllocError>
    requires within_old { index ≤ length old.now }
    requires within_new { index ≤ length new.now }
    ensures { IfOk result (λ words. string_bytes words ≡ bytes_from index old.now new.now) }
{
    let (_, old) = old.split_at(index);
    let (_, new) = new.split_at(index);
    let old = first_bytes(alloc, old)?;
    let new = first_bytes(alloc, new)?;
    let change = change_between(alloc, old.as_str(), new.as_str())?;
    format!(in alloc; "from byte {index}: {change}")
}

/// Returns the first bytes in hex, and how many there are more.
#[tactic(auto, unfolding(crate::specs::text::ChangeParts::first_bytes))]
fn first_bytes(alloc: Global, bytes: &[u8]) -> Result<String, AllocError>
    ensures { IfOk result (λ words. string_bytes words ≡ first_bytes bytes.now) }
{
    let (first, rest) = bytes.split_at(SHOWN_LENGTH.min(bytes.len()));
    let mut words = hex::encode(alloc, first)?;
    push_more(&mut words, rest.len())?;
    Ok(words)
}
