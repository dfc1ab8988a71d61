ghost use Rattle.std.specs.Prelude.{OnOk};
ghost use Rattle.uefi_base.specs.Appending.{AppendsText};
ghost use Rattle.audit_text.specs.words.Numbers.{hex_text};

use std::alloc::AllocError;

/// Appends an algorithm's number in hex: `0x`, and two digits or more.
///
/// # Errors
///
/// [`AllocError`] if an allocation fails. The text may have grown then.
#[tactic(auto, unfolding(crate::specs::words::Numbers::hex_text))]
pub fn push_number(text: &mut String, algorithm: u16) -> Result<(), AllocError>
    ensures { OnOk result (AppendsText text.old text.new (hex_text algorithm)) }
{
    if algorithm < 16 {
        return write!(text, "0x0{algorithm:x}");
    }
    write!(text, "0x{algorithm:x}")
}
