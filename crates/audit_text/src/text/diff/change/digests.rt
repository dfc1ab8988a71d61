ghost use Rattle.std.specs.Prelude.{◌≡◌, map, IfOk, OnOk, string_bytes};
ghost use Rattle.std.specs.List.{flat_map};
ghost use Rattle.uefi_base.specs.Appending.{AppendsText};
ghost use Rattle.uefi_tcg.specs.LogViews.{event_of};
ghost use Rattle.audit_text.specs.text.Change.{digest_change, digest_changes, digest_hex, digest_text};

use crate::text::events::names::push_algorithm;
use std::alloc::{AllocError, Global};
use uefi_tcg::{AlgorithmId, LogEvent};

/// Returns the digests of two events that differ, of each of some algorithms.
#[tactic(auto, unfolding(crate::specs::text::Change::digest_changes))]
pub(crate) fn digest_changes(
    alloc: Global,
    algorithms: &[AlgorithmId],
    old: &LogEvent<'_>,
    new: &LogEvent<'_>,
) -> Result<String, AllocError>
    ensures { IfOk result (λ words. string_bytes words ≡ digest_changes
        (map (λ id. id.0) algorithms.now) (event_of old.now) (event_of new.now)) }
{
    let mut changes = Vec::new(alloc);
    for algorithm in algorithms {
        let change = digest_change(alloc, *algorithm, old, new)?;
        if !change.is_empty() {
            changes.push(change)?;
        }
    }
    changes.join(alloc, ", ")
}

/// Returns the digests of an algorithm that two events have; nothing if they are the same.
#[tactic(auto, unfolding(crate::specs::text::Change::digest_change))]
fn digest_change(
    alloc: Global,
    algorithm: AlgorithmId,
    old: &LogEvent<'_>,
    new: &LogEvent<'_>,
) -> Result<String, AllocError>
    ensures { IfOk result (λ words. string_bytes words
        ≡ digest_change (event_of old.now) (event_of new.now) algorithm.0) }
{
    let old = digest_text(alloc, algorithm, old)?;
    let new = digest_text(alloc, algorithm, new)?;
    let mut words = String::new(alloc);
    if old.as_str() == new.as_str() {
        return Ok(words);
    }
    push_algorithm(&mut words, algorithm)?;
    write!(words, "{old} ->{new}")?;
    Ok(words)
}

/// Returns the digests of an algorithm that an event has, each after a space, or ` none`.
#[tactic(auto, unfolding(crate::specs::text::Change::digest_text))]
pub(crate) fn digest_text(
    alloc: Global,
    algorithm: AlgorithmId,
    event: &LogEvent<'_>,
) -> Result<String, AllocError>
    ensures { IfOk result
        (λ text. string_bytes text ≡ digest_text algorithm.0 (event_of event.now)) }
{
    let text = digests_hex(alloc, algorithm, event)?;
    if text.is_empty() {
        return String::from_str(alloc, " none");
    }
    Ok(text)
}

/// Returns the digests of an algorithm that an event has, each after a space.
fn digests_hex(
    alloc: Global,
    algorithm: AlgorithmId,
    event: &LogEvent<'_>,
) -> Result<String, AllocError>
    ensures { IfOk result (λ text. string_bytes text
        ≡ flat_map (digest_hex algorithm.0) (event_of event.now).digests) }
{
    let mut text = String::new(alloc);
    for (of, digest) in event.digests() {
        push_digest(&mut text, alloc, algorithm, of, digest)?;
    }
    Ok(text)
}

/// Appends a space and a digest, if it is one of an algorithm.
#[tactic(auto, unfolding(crate::specs::text::Change::digest_hex))]
fn push_digest(
    text: &mut String,
    alloc: Global,
    algorithm: AlgorithmId,
    of: AlgorithmId,
    digest: &[u8],
) -> Result<(), AllocError>
    ensures { OnOk result (AppendsText text.old text.new
        (digest_hex algorithm.0 (record { algorithm = of.0; bytes = digest.now }))) }
{
    if of != algorithm {
        return Ok(());
    }
    let digits = hex::encode(alloc, digest)?;
    write!(text, " {digits}")
}
