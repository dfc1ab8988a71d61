ghost use Rattle.std.specs.Prelude.{OnOk};
ghost use Rattle.uefi_base.specs.Appending.{AppendsText};
ghost use Rattle.audit_text.specs.text.Judgement.{judgement_lines, many_line, nothing_line};

use crate::text::trailing::push_trailing;
use shown::ShownName;
use std::alloc::{AllocError, Allocator};
use uefi_audits::judgement::Judgement;
use uefi_audits::trailing::Trailing;

/// Appends what is said of a log before its events are read: what follows its last event, and why it
/// can't be judged, unless that says it.
///
/// # Errors
///
/// [`AllocError`] if an allocation fails. The text may have grown then.
#[tactic(auto, unfolding(crate::specs::text::Judgement::judgement_lines))]
pub fn push_judgement<A: Allocator>(
    messages: &mut String<A>,
    name: &str,
    judgement: Judgement,
    trailing: &Trailing,
) -> Result<(), AllocError>
    ensures { OnOk result (AppendsText messages.old messages.new
        (judgement_lines name.now judgement trailing.now)) }
{
    match judgement {
        Judgement::LeftOver | Judgement::Accepted => push_trailing(messages, name, trailing),
        Judgement::NothingMeasured => {
            push_trailing(messages, name, trailing)?;
            push_nothing(messages, name, trailing)
        }
    }
}

/// Appends the line of a log whose header has more algorithms than are allowed: how many it has, and how
/// many are.
///
/// # Errors
///
/// [`AllocError`] if an allocation fails. The text may have grown then.
#[tactic(auto, unfolding(crate::specs::text::Judgement::many_line))]
pub fn push_many_algorithms<A: Allocator>(
    messages: &mut String<A>,
    name: &str,
    rows: usize,
    most: u32,
) -> Result<(), AllocError>
    ensures { OnOk result
        (AppendsText messages.old messages.new (many_line name.now rows most)) }
{
    let name = ShownName(name);
    writeln!(
        messages,
        "{name}: its header has {rows} algorithms, and at most {most} are read (--max-rows)"
    )
}

/// Appends the line of a log in which nothing was measured.
#[tactic(auto, unfolding(crate::specs::text::Judgement::nothing_line))]
fn push_nothing<A: Allocator>(
    messages: &mut String<A>,
    name: &str,
    trailing: &Trailing,
) -> Result<(), AllocError>
    ensures { OnOk result
        (AppendsText messages.old messages.new (nothing_line name.now trailing.now)) }
{
    let name = ShownName(name);
    if trailing.is_of_empty_log() {
        return writeln!(messages, "{name}: the log is empty");
    }
    writeln!(messages, "{name}: nothing was measured")
}
