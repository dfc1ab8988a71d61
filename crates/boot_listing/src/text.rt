//! What `text` lists of bytes, and what it refuses.

ghost use Rattle.std.specs.Prelude.{◌++◌, flat_map, IfOk, OnOk};
ghost use Rattle.uefi_base.specs.Appending.{AppendsText};
ghost use Rattle.uefi_path.specs.Views.{instance_nodes, path_nodes};
ghost use Rattle.boot_listing.specs.Appending.{AppendsListing};
ghost use Rattle.boot_listing.specs.Json.{elements};
ghost use Rattle.boot_listing.specs.Text.{text_line, text_string, texts_object, texts_of, AppendsPathTexts, PathTextListing};

use crate::Outcome;
use crate::command::Form;
use crate::json::JsonText;
use crate::refusal::push_refusal;
use std::alloc::{AllocError, Allocator};
use uefi_path::{ByteConversionError, DevicePath, DevicePathInstance};
use uefi_path_text::{AllowShortcuts, DisplayOnly, instance_to_text};

/// Appends a device path as text: for each instance a line with its text, such as
/// `PciRoot(0x0)/Pci(0x1F,0x0)` (UEFI 2.10, 10.6.1). In JSON the texts are `paths` of an object.
///
/// The text has all of each node, and no form of a vendor.
///
/// # Errors
///
/// [`AllocError`] if an allocation fails. The text may have grown then.
pub fn push_path_text<A: Allocator + Copy>(
    text: &mut String<A>,
    alloc: A,
    form: Form,
    path: &DevicePath<'_>,
) -> Result<(), AllocError>
    ensures { OnOk result
        (AppendsPathTexts (texts_of form) text.old text.new (path_nodes path.now)) }
{
    match form {
        Form::Lines => push_text_lines(text, path),
        Form::Json => push_texts_object(text, alloc, path),
    }
}

/// Appends a line for each instance.
fn push_text_lines<A: Allocator>(
    text: &mut String<A>,
    path: &DevicePath<'_>,
) -> Result<(), AllocError>
    ensures { OnOk result
        (AppendsPathTexts (flat_map text_line) text.old text.new (path_nodes path.now)) }
{
    for instance in path.instance_iter() {
        push_instance_text(text, &instance)?;
    }
    Ok(())
}

/// Appends the line of an instance: its text.
fn push_instance_text<A: Allocator>(
    text: &mut String<A>,
    instance: &DevicePathInstance<'_>,
) -> Result<(), AllocError>
    ensures { OnOk result
        (AppendsText text.old text.new (text_line (instance_nodes instance.now))) }
{
    let instance = instance_to_text(*instance, DisplayOnly(false), AllowShortcuts(false));
    writeln!(text, "{instance}")
}

/// Appends an object with the texts of the instances.
fn push_texts_object<A: Allocator + Copy>(
    text: &mut String<A>,
    alloc: A,
    path: &DevicePath<'_>,
) -> Result<(), AllocError>
    ensures { OnOk result
        (AppendsPathTexts texts_object text.old text.new (path_nodes path.now)) }
{
    text.push_str("{\"paths\":[")?;
    push_text_strings(text, alloc, path)?;
    writeln!(text, "]}}")
}

/// Appends the texts of the instances as elements of an array.
fn push_text_strings<A: Allocator + Copy>(
    text: &mut String<A>,
    alloc: A,
    path: &DevicePath<'_>,
) -> Result<(), AllocError>
    ensures { OnOk result
        (AppendsPathTexts (elements text_string) text.old text.new (path_nodes path.now)) }
{
    let mut gap = "";
    for instance in path.instance_iter() {
        push_text_string(text, alloc, gap, &instance)?;
        gap = ",";
    }
    Ok(())
}

/// Appends the text of an instance as an element of an array, behind a gap.
fn push_text_string<A: Allocator + Copy>(
    text: &mut String<A>,
    alloc: A,
    gap: &str,
    instance: &DevicePathInstance<'_>,
) -> Result<(), AllocError>
    ensures { OnOk result
        (AppendsText text.old text.new (gap.now ++ text_string (instance_nodes instance.now))) }
{
    let instance = instance_to_text(*instance, DisplayOnly(false), AllowShortcuts(false));
    let mut characters = String::new(alloc);
    write!(characters, "{instance}")?;
    let instance = JsonText(characters.as_str());
    write!(text, "{gap}\"{instance}\"")
}

/// Appends the listing of the device path that is a prefix of the bytes, as text.
///
/// # Errors
///
/// [`AllocError`] if an allocation fails. The text may have grown then.
pub fn push_path_text_listing<A: Allocator + Copy>(
    text: &mut String<A>,
    alloc: A,
    form: Form,
    bytes: &[u8],
) -> Result<Outcome, AllocError>
    ensures { IfOk result (AppendsListing (PathTextListing form bytes.now) text.old text.new) }
{
    match DevicePath::try_from(bytes) {
        Ok(path) => {
            push_path_text(text, alloc, form, &path)?;
            Ok(Outcome::Listed)
        }
        Err(ByteConversionError::InvalidLength) => {
            push_refusal(text, form, "refused InvalidLength")?;
            Ok(Outcome::Refused)
        }
    }
}
