//! What `list` prints of a folder of variables.

ghost use Rattle.std.specs.Prelude.{◌≡◌, ◌^◌, ◌++◌, ℕ, List, length, string_bytes, IfOk, OnOk};
ghost use Rattle.uefi_base.specs.Appending.{AppendsText};
ghost use Rattle.uefi_base.specs.Views.{slice_units};
ghost use Rattle.uefi_path.specs.LoadOptionFlags.{attribute_bits};
ghost use Rattle.uefi_path.specs.LoadOptionViews.{load_option_of};
ghost use Rattle.boot_listing.specs.Json.{elements};
ghost use Rattle.boot_listing.specs.List.{FolderListing, TellsOption, TellsOptions, TellsValue, TellsVariables, boot_option_lines, boot_option_object, boot_option_text, current_lines, current_option, current_value_line, description_line, fault_line, image_lines, json_state, name_string, option_name, option_names, order_lines, order_names, order_object, order_options, order_value_line, state, state_lines, state_members};
ghost use Rattle.boot_listing.specs.Variables.{numbers_of, value_of};
ghost use Rattle.boot_listing.specs.private.Found.{Finds, IsFound};
ghost use Rattle.boot_listing.specs.private.Appending.{AppendsSome};
ghost use Rattle.boot_listing.specs.declared.variables.VariableFile.{VariableFile};

use crate::Outcome;
use crate::command::Form;
use crate::option::{fault_of, push_load_option_members};
use crate::refusal::push_refusal;
use crate::variables::{
    BootVariable, BootVariables, Found, VariableFile, boot_current, boot_order, value_of,
};
use shown::{Hex, HexNumber, ShownName, gap_before};
use std::alloc::{AllocError, Allocator};
use uefi_base::UnalignedSlice;
use uefi_path::{LoadOption, LoadOptionAttributes};
use uefi_path_text::{AllowShortcuts, DisplayOnly, to_text};

/// Returns the lines of the boot manager's variables among the files of a folder: `BootCurrent` and
/// `BootOrder`, if they are there, each with the names of boot options; then the boot options, those
/// of `BootOrder` first, in its order, then the others by their numbers.
///
/// A boot option has a line with its name and `active` or `inactive`, and four below it: `attributes`
/// with `0x` and the bits in hex, `description` as [`ShownName`] displays it, `path` with the text of
/// the path to the image (UEFI 2.10, 10.6.1), and `data` with the optional data in hex.
///
/// A variable that can't be told has one line, its name and the fault: `missing` if `BootOrder` names
/// it and there is no file; `twice` if there are two, one with the GUID behind its name; `refused`
/// and the error if the file isn't what the variable is.
///
/// In JSON each variable is an object with its `name`, and `option`, `options`, the members for a boot
/// option, or `fault`. Those are `active`, `attributes` as a number, `description`, `path` and `data`.
///
/// Files of which none is a variable of the boot manager are refused.
///
/// # Errors
///
/// [`AllocError`] if an allocation fails.
pub fn folder_listing<A: Allocator + Copy>(
    alloc: A,
    form: Form,
    files: &[VariableFile],
) -> Result<(String<A>, Outcome), AllocError>
    ensures { IfOk result (λ r. FolderListing form files.now (string_bytes r.0) r.1) }
{
    let mut text = String::new(alloc);
    push_variables(&mut text, alloc, form, files)?;
    if text.is_empty() {
        push_refusal(&mut text, form, "refused NoBootVariable")?;
        return Ok((text, Outcome::Refused));
    }
    Ok((text, Outcome::Listed))
}

/// Appends the lines of the boot manager's variables.
fn push_variables<A: Allocator + Copy>(
    text: &mut String<A>,
    alloc: A,
    form: Form,
    files: &[VariableFile],
) -> Result<(), AllocError>
    ensures { OnOk result (AppendsSome (TellsVariables form files.now) text.old text.new) }
{
    let found = BootVariables::find(alloc, files)?;
    push_current(text, form, found.current)?;
    push_order(text, form, found.order)?;
    push_options(text, alloc, form, &found)
}

/// Appends the line of `BootCurrent`, if it is there.
fn push_current<A: Allocator>(
    text: &mut String<A>,
    form: Form,
    found: Found<'_>,
) -> Result<(), AllocError>
    ensures { OnOk result ((files : List (List ℕ)) → IsFound files found.entry
        → AppendsText text.old text.new (current_lines form files)) }
{
    match found {
        Found::Nothing => Ok(()),
        Found::Once(bytes) => push_current_value(text, form, bytes),
        Found::Twice => push_fault(text, form, BootVariable::BootCurrent, "twice"),
    }
}

/// Appends the line of `BootCurrent`, which is the number of a boot option.
fn push_current_value<A: Allocator>(
    text: &mut String<A>,
    form: Form,
    bytes: &[u8],
) -> Result<(), AllocError>
    ensures { OnOk result
        (AppendsText text.old text.new (current_value_line form (value_of bytes.now))) }
{
    let Some(value) = value_of(bytes) else {
        return push_fault(
            text,
            form,
            BootVariable::BootCurrent,
            "refused NoAttributes",
        );
    };
    let Some(number) = boot_current(value) else {
        return push_fault(
            text,
            form,
            BootVariable::BootCurrent,
            "refused InvalidLength",
        );
    };
    push_current_option(text, form, number)
}

/// Appends what `BootCurrent` is: the name of a boot option.
fn push_current_option<A: Allocator>(
    text: &mut String<A>,
    form: Form,
    number: u16,
) -> Result<(), AllocError>
    ensures { OnOk result (AppendsText text.old text.new (current_option form number)) }
{
    let option = BootVariable::BootOption(number);
    match form {
        Form::Lines => writeln!(text, "BootCurrent {option}"),
        Form::Json => writeln!(text, "{{\"name\":\"BootCurrent\",\"option\":\"{option}\"}}"),
    }
}

/// Appends the line of `BootOrder`, if it is there.
fn push_order<A: Allocator>(
    text: &mut String<A>,
    form: Form,
    found: Found<'_>,
) -> Result<(), AllocError>
    ensures { OnOk result ((files : List (List ℕ)) → IsFound files found.entry
        → AppendsText text.old text.new (order_lines form files)) }
{
    match found {
        Found::Nothing => Ok(()),
        Found::Once(bytes) => push_order_value(text, form, bytes),
        Found::Twice => push_fault(text, form, BootVariable::BootOrder, "twice"),
    }
}

/// Appends the line of `BootOrder`, which has the numbers of boot options.
fn push_order_value<A: Allocator>(
    text: &mut String<A>,
    form: Form,
    bytes: &[u8],
) -> Result<(), AllocError>
    ensures { OnOk result
        (AppendsText text.old text.new (order_value_line form (value_of bytes.now))) }
{
    let Some(value) = value_of(bytes) else {
        return push_fault(text, form, BootVariable::BootOrder, "refused NoAttributes");
    };
    let Some(numbers) = boot_order(value) else {
        return push_fault(text, form, BootVariable::BootOrder, "refused InvalidLength");
    };
    push_order_options(text, form, numbers)
}

/// Appends what `BootOrder` is: the names of boot options.
fn push_order_options<A: Allocator>(
    text: &mut String<A>,
    form: Form,
    numbers: UnalignedSlice<'_>,
) -> Result<(), AllocError>
    ensures { OnOk result
        (AppendsText text.old text.new (order_options form (slice_units numbers.entry))) }
{
    match form {
        Form::Lines => push_order_names(text, numbers),
        Form::Json => push_order_object(text, numbers),
    }
}

/// Appends a line with the names of boot options.
fn push_order_names<A: Allocator>(
    text: &mut String<A>,
    numbers: UnalignedSlice<'_>,
) -> Result<(), AllocError>
    ensures { OnOk result
        (AppendsText text.old text.new (order_names (slice_units numbers.entry))) }
{
    text.push_str("BootOrder")?;
    push_names(text, numbers)?;
    text.push_str("\n")
}

/// Appends the names of boot options, each behind a space.
fn push_names<A: Allocator>(
    text: &mut String<A>,
    numbers: UnalignedSlice<'_>,
) -> Result<(), AllocError>
    ensures { OnOk result
        (AppendsText text.old text.new (option_names (slice_units numbers.entry))) }
{
    for number in numbers.iter() {
        push_name(text, number)?;
    }
    Ok(())
}

/// Appends the name of a boot option behind a space.
fn push_name<A: Allocator>(text: &mut String<A>, number: u16) -> Result<(), AllocError>
    ensures { OnOk result (AppendsText text.old text.new (option_name number)) }
{
    let option = BootVariable::BootOption(number);
    write!(text, " {option}")
}

/// Appends an object with the names of boot options.
fn push_order_object<A: Allocator>(
    text: &mut String<A>,
    numbers: UnalignedSlice<'_>,
) -> Result<(), AllocError>
    ensures { OnOk result
        (AppendsText text.old text.new (order_object (slice_units numbers.entry))) }
{
    text.push_str("{\"name\":\"BootOrder\",\"options\":[")?;
    push_name_strings(text, numbers)?;
    writeln!(text, "]}}")
}

/// Appends the names of boot options as elements of an array.
fn push_name_strings<A: Allocator>(
    text: &mut String<A>,
    numbers: UnalignedSlice<'_>,
) -> Result<(), AllocError>
    ensures { OnOk result
        (AppendsText text.old text.new (elements name_string (slice_units numbers.entry))) }
{
    let mut gap = "";
    for number in numbers.iter() {
        push_name_string(text, gap, number)?;
        gap = ",";
    }
    Ok(())
}

/// Appends the name of a boot option as an element of an array, behind a gap.
fn push_name_string<A: Allocator>(
    text: &mut String<A>,
    gap: &str,
    number: u16,
) -> Result<(), AllocError>
    ensures { OnOk result (AppendsText text.old text.new (gap.now ++ name_string number)) }
{
    let option = BootVariable::BootOption(number);
    write!(text, "{gap}\"{option}\"")
}

/// Appends the texts of all boot options.
fn push_options<A: Allocator + Copy>(
    text: &mut String<A>,
    alloc: A,
    form: Form,
    found: &BootVariables<'_, A>,
) -> Result<(), AllocError>
    requires { length found.now.options.items ≡ 2 ^ 16 }
    ensures { OnOk result ((files : List VariableFile) → Finds files found.now
        → AppendsSome (TellsOptions form files (numbers_of files)) text.old text.new) }
{
    let numbers = found.numbers(alloc)?;
    for number in numbers.as_slice() {
        let files = found.options[usize::from(*number)];
        push_option(text, alloc, form, *number, files)?;
    }
    Ok(())
}

/// Appends the lines of a boot option.
fn push_option<A: Allocator + Copy>(
    text: &mut String<A>,
    alloc: A,
    form: Form,
    number: u16,
    found: Found<'_>,
) -> Result<(), AllocError>
    ensures { OnOk result ((files : List (List ℕ)) → IsFound files found.entry
        → AppendsSome (TellsOption form number files) text.old text.new) }
{
    let name = BootVariable::BootOption(number);
    match found {
        Found::Nothing => push_fault(text, form, name, "missing"),
        Found::Once(bytes) => push_option_value(text, alloc, form, number, bytes),
        Found::Twice => push_fault(text, form, name, "twice"),
    }
}

/// Appends the lines of a boot option that has one file.
fn push_option_value<A: Allocator + Copy>(
    text: &mut String<A>,
    alloc: A,
    form: Form,
    number: u16,
    bytes: &[u8],
) -> Result<(), AllocError>
    ensures { OnOk result
        (AppendsSome (TellsValue form number (value_of bytes.now)) text.old text.new) }
{
    let name = BootVariable::BootOption(number);
    let Some(value) = value_of(bytes) else {
        return push_fault(text, form, name, "refused NoAttributes");
    };
    match LoadOption::try_from(value) {
        Ok(option) => push_boot_option(text, alloc, form, number, &option),
        Err(error) => push_fault(text, form, name, fault_of(error)),
    }
}

/// Appends the name of a variable and a fault.
fn push_fault<A: Allocator>(
    text: &mut String<A>,
    form: Form,
    name: BootVariable,
    fault: &str,
) -> Result<(), AllocError>
    ensures { OnOk result (AppendsText text.old text.new (fault_line form name fault.now)) }
{
    match form {
        Form::Lines => writeln!(text, "{name} {fault}"),
        Form::Json => writeln!(text, "{{\"name\":\"{name}\",\"fault\":\"{fault}\"}}"),
    }
}

/// Appends the text of a boot option.
fn push_boot_option<A: Allocator + Copy>(
    text: &mut String<A>,
    alloc: A,
    form: Form,
    number: u16,
    option: &LoadOption<'_>,
) -> Result<(), AllocError>
    ensures { OnOk result
        (AppendsText text.old text.new (boot_option_text form number (load_option_of option.now))) }
{
    match form {
        Form::Lines => push_boot_option_lines(text, alloc, number, option),
        Form::Json => push_boot_option_object(text, alloc, number, option),
    }
}

/// Appends the lines of a boot option.
fn push_boot_option_lines<A: Allocator + Copy>(
    text: &mut String<A>,
    alloc: A,
    number: u16,
    option: &LoadOption<'_>,
) -> Result<(), AllocError>
    ensures { OnOk result
        (AppendsText text.old text.new (boot_option_lines number (load_option_of option.now))) }
{
    push_state(text, number, option.attributes())?;
    push_description(text, alloc, option.description())?;
    push_image(text, option)
}

/// Appends the line that says whether a boot option is active, and that of its attributes.
fn push_state<A: Allocator>(
    text: &mut String<A>,
    number: u16,
    attributes: LoadOptionAttributes,
) -> Result<(), AllocError>
    ensures { OnOk result
        (AppendsText text.old text.new (state_lines number (attribute_bits attributes))) }
{
    let name = BootVariable::BootOption(number);
    let state = state_of(attributes);
    let attributes = HexNumber(u64::from(attributes.bits()));
    writeln!(text, "{name} {state}\n  attributes {attributes}")
}

/// Returns whether a boot option is active, in a word.
fn state_of(attributes: LoadOptionAttributes) -> &'static str
    ensures { result.now ≡ state (attribute_bits attributes) }
{
    if attributes.contains(LoadOptionAttributes::ACTIVE) {
        "active"
    } else {
        "inactive"
    }
}

/// Appends the line of a description.
fn push_description<A: Allocator + Copy>(
    text: &mut String<A>,
    alloc: A,
    description: UnalignedSlice<'_>,
) -> Result<(), AllocError>
    ensures { OnOk result
        (AppendsText text.old text.new (description_line (slice_units description.entry))) }
{
    let mut characters = String::new(alloc);
    write!(characters, "{description}")?;
    let description = ShownName(characters.as_str());
    writeln!(text, "  description {description}")
}

/// Appends the lines of the path to the image and of the data for it.
fn push_image<A: Allocator>(text: &mut String<A>, option: &LoadOption<'_>) -> Result<(), AllocError>
    ensures { OnOk result
        (AppendsText text.old text.new (image_lines (load_option_of option.now))) }
{
    let path = to_text(
        option.file_path(),
        DisplayOnly(false),
        AllowShortcuts(false),
    );
    let (gap, data) = (
        gap_before(option.optional_data()),
        Hex(option.optional_data()),
    );
    writeln!(text, "  path {path}\n  data{gap}{data}")
}

/// Appends the object of a boot option.
fn push_boot_option_object<A: Allocator + Copy>(
    text: &mut String<A>,
    alloc: A,
    number: u16,
    option: &LoadOption<'_>,
) -> Result<(), AllocError>
    ensures { OnOk result
        (AppendsText text.old text.new (boot_option_object number (load_option_of option.now))) }
{
    push_state_members(text, number, option.attributes())?;
    push_load_option_members(text, alloc, option)?;
    text.push_str("}\n")
}

/// Appends the members for the name of a boot option and for whether it is active.
fn push_state_members<A: Allocator>(
    text: &mut String<A>,
    number: u16,
    attributes: LoadOptionAttributes,
) -> Result<(), AllocError>
    ensures { OnOk result
        (AppendsText text.old text.new (state_members number (attribute_bits attributes))) }
{
    let name = BootVariable::BootOption(number);
    let active = json_state(attributes);
    write!(text, "{{\"name\":\"{name}\",\"active\":{active},")
}

/// Returns whether a boot option is active, as JSON has it.
fn json_state(attributes: LoadOptionAttributes) -> &'static str
    ensures { result.now ≡ json_state (attribute_bits attributes) }
{
    if attributes.contains(LoadOptionAttributes::ACTIVE) {
        "true"
    } else {
        "false"
    }
}
