//! What `path` prints of a text, and what it refuses.

ghost use Rattle.std.specs.Prelude.{◌≢◌, IfOk, OnOk};
ghost use Rattle.uefi_base.specs.Appending.{AppendsText};
ghost use Rattle.uefi_path_text.specs.declared.parse.error.FromTextError.TheVariants.{Memory};
ghost use Rattle.boot_listing.specs.Appending.{AppendsListing};
ghost use Rattle.boot_listing.specs.Refusal.{refusal_line};
ghost use Rattle.boot_listing.specs.Path.{PathListing, bytes_line, fault_of};

use crate::Outcome;
use crate::command::Form;
use crate::refusal::push_refusal;
use shown::Hex;
use std::alloc::{AllocError, Allocator};
use uefi_path_text::{FromTextError, from_text_in};

/// Appends a line with the bytes, in hex, of the device path whose text is given (UEFI 2.10, 10.6).
/// In JSON they are `bytes` of an object.
///
/// # Errors
///
/// [`AllocError`] if an allocation fails. The text may have grown then.
pub fn push_path_listing<A: Allocator + Copy>(
    text: &mut String<A>,
    alloc: A,
    form: Form,
    path: &str,
) -> Result<Outcome, AllocError>
    ensures { IfOk result (AppendsListing (PathListing form path.now) text.old text.new) }
{
    match from_text_in(alloc, path) {
        Ok(path) => {
            push_bytes(text, form, path.as_path().as_bytes())?;
            Ok(Outcome::Listed)
        }
        Err(error) => {
            push_error(text, form, error)?;
            Ok(Outcome::Refused)
        }
    }
}

/// Appends the line of a path's bytes.
fn push_bytes<A: Allocator>(
    text: &mut String<A>,
    form: Form,
    bytes: &[u8],
) -> Result<(), AllocError>
    ensures { OnOk result (AppendsText text.old text.new (bytes_line form bytes.now)) }
{
    let bytes = Hex(bytes);
    match form {
        Form::Lines => writeln!(text, "{bytes}"),
        Form::Json => writeln!(text, "{{\"bytes\":\"{bytes}\"}}"),
    }
}

/// Appends the line of a refusal. Running out of memory is none, and is returned.
fn push_error<A: Allocator>(
    text: &mut String<A>,
    form: Form,
    error: FromTextError,
) -> Result<(), AllocError>
    ensures memory { OnOk result (error ≢ Memory) }
    ensures line { OnOk result
        (AppendsText text.old text.new (refusal_line form (fault_of error))) }
{
    match error {
        FromTextError::UnknownNode(_) => push_refusal(text, form, "refused UnknownNode"),
        FromTextError::Argument(_) => push_refusal(text, form, "refused Argument"),
        FromTextError::Missing(_) => push_refusal(text, form, "refused Missing"),
        FromTextError::TooLong(_) => push_refusal(text, form, "refused TooLong"),
        FromTextError::Buffer(_) => push_refusal(text, form, "refused Buffer"),
        FromTextError::Memory => Err(AllocError),
    }
}
