ghost use Rattle.std.specs.Prelude.{OnOk};
ghost use Rattle.uefi_base.specs.Appending.{AppendsText};
ghost use Rattle.audit_text.specs.text.Trailing.{left_over_line, left_over_lines, padding_line, padding_lines, trailing_lines};

use shown::ShownName;
use std::alloc::{AllocError, Allocator};
use uefi_audits::trailing::Trailing;

/// Appends the line that says how much padding follows the last event of a log, or how many other bytes
/// do, and where; nothing, if none follow.
///
/// # Errors
///
/// [`AllocError`] if an allocation fails. The text may have grown then.
pub fn push_trailing<A: Allocator>(
    messages: &mut String<A>,
    name: &str,
    trailing: &Trailing,
) -> Result<(), AllocError>
    ensures { OnOk result
        (AppendsText messages.old messages.new (trailing_lines name.now trailing.now)) }
{
    push_padding(messages, name, trailing)?;
    push_left_over(messages, name, trailing)
}

/// Appends the line of padding, if there is any.
#[tactic(auto, unfolding(crate::specs::text::Trailing::padding_line))]
fn push_padding<A: Allocator>(
    messages: &mut String<A>,
    name: &str,
    trailing: &Trailing,
) -> Result<(), AllocError>
    ensures { OnOk result
        (AppendsText messages.old messages.new (padding_lines name.now trailing.now)) }
{
    let (count, offset) = (trailing.padding, trailing.offset);
    if count == 0 {
        return Ok(());
    }
    let name = ShownName(name);
    writeln!(
        messages,
        "{name}: {count} bytes of padding at offset {offset}"
    )
}

/// Appends the line of bytes that are left over, if there are any.
#[tactic(auto, unfolding(crate::specs::text::Trailing::left_over_line))]
fn push_left_over<A: Allocator>(
    messages: &mut String<A>,
    name: &str,
    trailing: &Trailing,
) -> Result<(), AllocError>
    ensures { OnOk result
        (AppendsText messages.old messages.new (left_over_lines name.now trailing.now)) }
{
    let (count, offset) = (trailing.left_over, trailing.offset);
    if count == 0 {
        return Ok(());
    }
    let name = ShownName(name);
    writeln!(
        messages,
        "{name}: {count} bytes are left over at offset {offset}"
    )
}
