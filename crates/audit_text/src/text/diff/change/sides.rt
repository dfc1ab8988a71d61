ghost use Rattle.std.specs.Prelude.{◌≡◌, IfOk, OnOk, string_bytes};
ghost use Rattle.uefi_base.specs.Appending.{AppendsText};
ghost use Rattle.audit_text.specs.text.ChangeParts.{change_between, side_text};

use std::alloc::{AllocError, Global};

/// Returns what the old side of a change has and what the new one has; nothing if neither has text.
#[tactic(auto, unfolding(crate::specs::text::ChangeParts::change_between))]
pub(crate) fn change_between(alloc: Global, old: &str, new: &str) -> Result<String, AllocError>
    ensures { IfOk result (λ words. string_bytes words ≡ change_between old.now new.now) }
{
    let mut words = String::new(alloc);
    if old.is_empty() && new.is_empty() {
        return Ok(words);
    }
    push_side(&mut words, old)?;
    words.push_str(" -> ")?;
    push_side(&mut words, new)?;
    Ok(words)
}

/// Appends what one side has, or `nothing`.
#[tactic(auto, unfolding(crate::specs::text::ChangeParts::side_text))]
fn push_side(words: &mut String, side: &str) -> Result<(), AllocError>
    ensures { OnOk result (AppendsText words.old words.new (side_text side.now)) }
{
    if side.is_empty() {
        return words.push_str("nothing");
    }
    words.push_str(side)
}
