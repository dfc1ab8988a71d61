//! The line that says why the input was refused.

ghost use Rattle.std.specs.Prelude.{OnOk};
ghost use Rattle.uefi_base.specs.Appending.{AppendsText};
ghost use Rattle.boot_listing.specs.Refusal.{refusal_line};

use crate::command::Form;
use std::alloc::{AllocError, Allocator};

/// Appends the line of a refusal, by its fault.
pub(crate) fn push_refusal<A: Allocator>(
    text: &mut String<A>,
    form: Form,
    fault: &str,
) -> Result<(), AllocError>
    ensures { OnOk result (AppendsText text.old text.new (refusal_line form fault.now)) }
{
    match form {
        Form::Lines => writeln!(text, "{fault}"),
        Form::Json => writeln!(text, "{{\"fault\":\"{fault}\"}}"),
    }
}
