//! What `option` lists of bytes, and what it refuses.

ghost use Rattle.std.specs.Prelude.{◌≡◌, IfOk, OnOk};
ghost use Rattle.uefi_base.specs.Appending.{AppendsText};
ghost use Rattle.uefi_base.specs.Views.{slice_units};
ghost use Rattle.uefi_path.specs.LoadOptionFlags.{attribute_bits};
ghost use Rattle.uefi_path.specs.LoadOptionViews.{load_option_of};
ghost use Rattle.boot_listing.specs.Appending.{AppendsListing};
ghost use Rattle.boot_listing.specs.Option.{LoadOptionListing, description_members, fault_of, image_members, load_option_lines, load_option_members, load_option_object, load_option_text};

use crate::Outcome;
use crate::command::Form;
use crate::json::JsonText;
use crate::refusal::push_refusal;
use shown::{Hex, HexName, HexNumber, gap_before};
use std::alloc::{AllocError, Allocator};
use uefi_base::UnalignedSlice;
use uefi_path::{LoadOption, LoadOptionAttributes, LoadOptionError};
use uefi_path_text::{AllowShortcuts, DisplayOnly, to_text};

/// Appends the text of a load option.
///
/// Its lines are `attributes` with `0x` and the bits in hex; `description` with four hex digits for
/// each unit of the description but the NUL that ends it; `path` with the text of the path to the
/// image (UEFI 2.10, 10.6.1); last `data` with the optional data in hex.
///
/// In JSON these are members of an object: `attributes` as a number, and the characters of
/// `description` up to the NUL.
///
/// # Errors
///
/// [`AllocError`] if an allocation fails. The text may have grown then.
pub fn push_load_option<A: Allocator + Copy>(
    text: &mut String<A>,
    alloc: A,
    form: Form,
    option: &LoadOption<'_>,
) -> Result<(), AllocError>
    ensures { OnOk result
        (AppendsText text.old text.new (load_option_text form (load_option_of option.now))) }
{
    match form {
        Form::Lines => push_load_option_lines(text, option),
        Form::Json => push_load_option_object(text, alloc, option),
    }
}

/// Appends the lines of a load option.
fn push_load_option_lines<A: Allocator>(
    text: &mut String<A>,
    option: &LoadOption<'_>,
) -> Result<(), AllocError>
    ensures { OnOk result
        (AppendsText text.old text.new (load_option_lines (load_option_of option.now))) }
{
    let attributes = HexNumber(u64::from(option.attributes().bits()));
    let description = HexName(option.description());
    let path = to_text(
        option.file_path(),
        DisplayOnly(false),
        AllowShortcuts(false),
    );
    let (gap, data) = (
        gap_before(option.optional_data()),
        Hex(option.optional_data()),
    );
    writeln!(
        text,
        "attributes {attributes}\ndescription{description}\npath {path}\ndata{gap}{data}"
    )
}

/// Appends the object of a load option.
fn push_load_option_object<A: Allocator + Copy>(
    text: &mut String<A>,
    alloc: A,
    option: &LoadOption<'_>,
) -> Result<(), AllocError>
    ensures { OnOk result
        (AppendsText text.old text.new (load_option_object (load_option_of option.now))) }
{
    text.push_str("{")?;
    push_load_option_members(text, alloc, option)?;
    text.push_str("}\n")
}

/// Appends the members of an object for a load option.
pub(crate) fn push_load_option_members<A: Allocator + Copy>(
    text: &mut String<A>,
    alloc: A,
    option: &LoadOption<'_>,
) -> Result<(), AllocError>
    ensures { OnOk result
        (AppendsText text.old text.new (load_option_members (load_option_of option.now))) }
{
    push_description_members(text, alloc, option.attributes(), option.description())?;
    push_image_members(text, alloc, option)
}

/// Appends the members for the attributes and for the description.
fn push_description_members<A: Allocator + Copy>(
    text: &mut String<A>,
    alloc: A,
    attributes: LoadOptionAttributes,
    description: UnalignedSlice<'_>,
) -> Result<(), AllocError>
    ensures { OnOk result
        (AppendsText text.old text.new
        (description_members (attribute_bits attributes) (slice_units description.entry))) }
{
    let mut characters = String::new(alloc);
    write!(characters, "{description}")?;
    let description = JsonText(characters.as_str());
    let attributes = attributes.bits();
    write!(
        text,
        "\"attributes\":{attributes},\"description\":\"{description}\""
    )
}

/// Appends the members for the path to the image and for the data.
fn push_image_members<A: Allocator + Copy>(
    text: &mut String<A>,
    alloc: A,
    option: &LoadOption<'_>,
) -> Result<(), AllocError>
    ensures { OnOk result
        (AppendsText text.old text.new (image_members (load_option_of option.now))) }
{
    let path = to_text(
        option.file_path(),
        DisplayOnly(false),
        AllowShortcuts(false),
    );
    let mut characters = String::new(alloc);
    write!(characters, "{path}")?;
    let (path, data) = (JsonText(characters.as_str()), Hex(option.optional_data()));
    write!(text, ",\"path\":\"{path}\",\"data\":\"{data}\"")
}

/// Appends the listing of the load option that the bytes are.
///
/// # Errors
///
/// [`AllocError`] if an allocation fails. The text may have grown then.
pub fn push_load_option_listing<A: Allocator + Copy>(
    text: &mut String<A>,
    alloc: A,
    form: Form,
    bytes: &[u8],
) -> Result<Outcome, AllocError>
    ensures { IfOk result (AppendsListing (LoadOptionListing form bytes.now) text.old text.new) }
{
    match LoadOption::try_from(bytes) {
        Ok(option) => {
            push_load_option(text, alloc, form, &option)?;
            Ok(Outcome::Listed)
        }
        Err(error) => {
            push_refusal(text, form, fault_of(error))?;
            Ok(Outcome::Refused)
        }
    }
}

/// Returns what an error is named by.
pub(crate) fn fault_of(error: LoadOptionError) -> &'static str
    ensures { result.now ≡ fault_of error }
{
    match error {
        LoadOptionError::TooShort => "refused TooShort",
        LoadOptionError::NotNulTerminated => "refused NotNulTerminated",
        LoadOptionError::FilePathListTooLong => "refused FilePathListTooLong",
        LoadOptionError::FilePath(_) => "refused FilePath",
    }
}
