ghost use Rattle.std.specs.Prelude.{◌≡◌, IfOk, List, ℕ, map, string_bytes};
ghost use Rattle.std.specs.BTreeSet.{contains_by};
ghost use Rattle.std.specs.Cmp.Lexicographic.{slice_cmp};
ghost use Rattle.std.specs.Ordering.{nat_cmp};
ghost use Rattle.audit_text.specs.text.ChangeParts.{is_among, line_change, lines_of, lines_only, only_text};

use crate::text::diff::change::sides::change_between;
use std::alloc::{AllocError, Global};
use std::collections::BTreeSet;

/// Returns the lines that only one of two blocks has, without their indent; nothing if both have
/// the same ones.
#[tactic(auto, unfolding(crate::specs::text::ChangeParts::line_change))]
pub(crate) fn line_change(alloc: Global, old: &str, new: &str) -> Result<String, AllocError>
    ensures { IfOk result (λ words. string_bytes words ≡ line_change old.now new.now) }
{
    let old = lines_of(alloc, old)?;
    let new = lines_of(alloc, new)?;
    let only_old = only_text(alloc, new.as_slice(), old.as_slice())?;
    let only_new = only_text(alloc, old.as_slice(), new.as_slice())?;
    change_between(alloc, only_old.as_str(), only_new.as_str())
}

/// Returns the lines of a block without their indent.
fn lines_of<'a>(alloc: Global, block: &'a str) -> Result<Vec<&'a str>, AllocError>
    ensures { IfOk result (λ found. map (λ line. line.now) found.items ≡ lines_of block.now) }
{
    block.lines().map(|line| line.trim_start()).collect(alloc)
}

/// Returns those of some lines that aren't among others, as one text.
#[tactic(auto, unfolding(crate::specs::text::ChangeParts::only_text))]
fn only_text(alloc: Global, others: &[&str], lines: &[&str]) -> Result<String, AllocError>
    ensures { IfOk result (λ text. string_bytes text
        ≡ only_text (map (λ line. line.now) others.now) (map (λ line. line.now) lines.now)) }
{
    let only = lines_only(alloc, others, lines)?;
    only.join(alloc, "; ")
}

/// Returns those of some lines that aren't among others.
fn lines_only<'a>(
    alloc: Global,
    others: &[&str],
    lines: &[&'a str],
) -> Result<Vec<&'a str>, AllocError>
    ensures { IfOk result (λ only. map (λ line. line.now) only.items
        ≡ lines_only (map (λ line. line.now) others.now) (map (λ line. line.now) lines.now)) }
{
    let others = set_of(alloc, others)?;
    let mut only = Vec::new(alloc);
    for line in lines {
        if !others.contains(*line) {
            only.push(*line)?;
        }
    }
    Ok(only)
}

/// Returns lines as a set.
fn set_of<'a>(alloc: Global, lines: &[&'a str]) -> Result<BTreeSet<&'a str>, AllocError>
    ensures { IfOk result (λ set. (line : List ℕ) →
        contains_by (λ it. slice_cmp nat_cmp line it.now) set
        ≡ is_among (map (λ it. it.now) lines.now) line) }
{
    let mut set = BTreeSet::new(alloc);
    for line in lines {
        set.insert(*line)?;
    }
    Ok(set)
}
