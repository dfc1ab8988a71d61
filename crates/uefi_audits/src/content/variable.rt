ghost use Rattle.std.specs.Prelude.{◌≡◌, ◌%◌, length, option_map};
ghost use Rattle.std.specs.Str.{bytes_eq};
ghost use Rattle.uefi_base.specs.Unaligned.{units_of};
ghost use Rattle.uefi_base.specs.Views.{slice_units};
ghost use Rattle.uefi_path.specs.LoadOption.{IsLoadOption, load_option_bytes};
ghost use Rattle.uefi_path.specs.LoadOptionViews.{load_option_of};
ghost use Rattle.tcg_event.specs.Reading.{Reads};
ghost use Rattle.tcg_event.specs.Views.{variable_of};
ghost use Rattle.uefi_tcg.specs.declared.uintn_size.UintnSize.{UintnSize};
ghost use Rattle.uefi_audits.specs.content.Content.{HasValue, Says};
ghost use Rattle.uefi_audits.specs.content.Form.{OfAuthority, OfVariable};
ghost use Rattle.uefi_audits.specs.content.Value.{OfBootOption, OfBootOrder, OfSignature, OfSignatureLists};
ghost use Rattle.uefi_audits.specs.content.Value.{authority_form, global_form, has_digit, has_unit, is_boot_option_name, value_form};
ghost use Rattle.uefi_audits.specs.content.Views.{content_of};

use crate::content::EventContent;
use tcg_event::{BootOrder, SignatureData, SignatureLists, VariableData};
use uefi_base::{Guid, UnalignedSlice};
use uefi_path::LoadOption;

/// The GUID of UEFI's own variables (UEFI 2.10, 3.3, `EFI_GLOBAL_VARIABLE`).
const GLOBAL_VARIABLE: Guid = Guid([
    0x61, 0xdf, 0xe4, 0x8b, 0xca, 0x93, 0xd2, 0x11, 0xaa, 0x0d, 0x00, 0xe0, 0x98, 0x03, 0x2b, 0x8c,
]);

/// The GUID of the databases `db` and `dbx` (UEFI 2.10, 32.6.1,
/// `EFI_IMAGE_SECURITY_DATABASE_GUID`).
const IMAGE_SECURITY_DATABASE: Guid = Guid([
    0xcb, 0xb2, 0x19, 0xd7, 0x3a, 0x3d, 0x96, 0x45, 0xa3, 0xbc, 0xda, 0xd0, 0x0e, 0x67, 0x65, 0x6f,
]);

/// The GUID of the variables of the boot loader shim.
const SHIM_LOCK: Guid = Guid([
    0x50, 0xab, 0x5d, 0x60, 0x46, 0xe0, 0x00, 0x43, 0xab, 0xb6, 0x3d, 0xd8, 0x10, 0xdd, 0x8b, 0x23,
]);

/// Returns the variable that data are, with what its value says.
#[tactic(auto, unfolding(crate::specs::content::Content::Says))]
pub(crate) fn variable_content(bytes: &[u8]) -> EventContent<'_>
    ensures { (size : UintnSize) → Says size OfVariable bytes.now (content_of result) }
{
    match VariableData::read(bytes) {
        Some(variable) => with_value(&variable),
        None => EventContent::Unread,
    }
}

/// Returns the variable that data are, with the signature that its value is.
#[tactic(auto, unfolding(crate::specs::content::Content::Says))]
pub(crate) fn authority_content(bytes: &[u8]) -> EventContent<'_>
    ensures { (size : UintnSize) → Says size OfAuthority bytes.now (content_of result) }
{
    match VariableData::read(bytes) {
        Some(variable) => with_authority(&variable),
        None => EventContent::Unread,
    }
}

/// Returns a variable with what its value says, by its GUID and its name.
#[tactic(auto, unfolding(crate::specs::content::Value::SaysValue))]
fn with_value<'a>(variable: &VariableData<'a>) -> EventContent<'a>
    ensures { HasValue (value_form (variable_of variable.now).guid (variable_of variable.now).name)
        (variable_of variable.now) (content_of result) }
{
    let name = &variable.name;
    if variable.guid == GLOBAL_VARIABLE {
        return with_global_value(variable);
    }
    if variable.guid == IMAGE_SECURITY_DATABASE
        && (is_named(name, b"d\0b\0") || is_named(name, b"d\0b\0x\0"))
    {
        return with_signature_lists(variable);
    }
    EventContent::Variable(*variable)
}

/// Returns one of UEFI's own variables with what its value says, by its name.
#[tactic(auto, unfolding(crate::specs::content::Value::SaysValue))]
fn with_global_value<'a>(variable: &VariableData<'a>) -> EventContent<'a>
    ensures { HasValue (global_form (variable_of variable.now).name) (variable_of variable.now)
        (content_of result) }
{
    let name = &variable.name;
    if is_boot_option_name(name) {
        return with_boot_option(variable);
    }
    if is_named(name, b"B\0o\0o\0t\0O\0r\0d\0e\0r\0") {
        return with_boot_order(variable);
    }
    if is_named(name, b"P\0K\0") || is_named(name, b"K\0E\0K\0") {
        return with_signature_lists(variable);
    }
    EventContent::Variable(*variable)
}

/// Returns a variable in an event of type `EV_EFI_VARIABLE_AUTHORITY` with what its value says.
#[tactic(auto, unfolding(crate::specs::content::Value::SaysValue))]
fn with_authority<'a>(variable: &VariableData<'a>) -> EventContent<'a>
    ensures { HasValue
        (authority_form (variable_of variable.now).guid (variable_of variable.now).name)
        (variable_of variable.now) (content_of result) }
{
    if variable.guid == IMAGE_SECURITY_DATABASE
        || (variable.guid == SHIM_LOCK && is_named(&variable.name, b"M\0o\0k\0L\0i\0s\0t\0"))
    {
        return with_signature(variable);
    }
    EventContent::Variable(*variable)
}

/// Returns a variable with the boot option that its value is.
#[tactic(auto, unfolding(crate::specs::content::Value::SaysValue))]
fn with_boot_option<'a>(variable: &VariableData<'a>) -> EventContent<'a>
    ensures { HasValue OfBootOption (variable_of variable.now) (content_of result) }
{
    match load_option(variable.data) {
        Some(option) => EventContent::BootOption(*variable, option),
        None => EventContent::Variable(*variable),
    }
}

/// Returns the load option that the bytes are.
#[tactic(auto, unfolding(tcg_event::specs::Reading::Reads))]
fn load_option(bytes: &[u8]) -> Option<LoadOption<'_>>
    ensures { Reads IsLoadOption load_option_bytes bytes.now (option_map load_option_of result) }
{
    let Ok(option) = LoadOption::try_from(bytes) else {
        return None;
    };
    Some(option)
}

/// Returns a variable with the order of boot options that its value is.
#[tactic(auto, unfolding(crate::specs::content::Value::SaysValue))]
fn with_boot_order<'a>(variable: &VariableData<'a>) -> EventContent<'a>
    ensures { HasValue OfBootOrder (variable_of variable.now) (content_of result) }
{
    match BootOrder::read(variable.data) {
        Some(order) => EventContent::BootOrder(*variable, order),
        None => EventContent::Variable(*variable),
    }
}

/// Returns a variable with the lists of a signature database that its value is.
#[tactic(auto, unfolding(crate::specs::content::Value::SaysValue))]
fn with_signature_lists<'a>(variable: &VariableData<'a>) -> EventContent<'a>
    ensures { HasValue OfSignatureLists (variable_of variable.now) (content_of result) }
{
    match SignatureLists::read(variable.data) {
        Some(lists) => EventContent::SignatureLists(*variable, lists),
        None => EventContent::Variable(*variable),
    }
}

/// Returns a variable with the signature that its value is.
#[tactic(auto, unfolding(crate::specs::content::Value::SaysValue))]
fn with_signature<'a>(variable: &VariableData<'a>) -> EventContent<'a>
    ensures { HasValue OfSignature (variable_of variable.now) (content_of result) }
{
    match SignatureData::read(variable.data) {
        Some(signature) => EventContent::Signature(*variable, signature),
        None => EventContent::Variable(*variable),
    }
}

/// Returns whether a name has the units in these bytes.
fn is_named(name: &UnalignedSlice<'_>, units: &[u8]) -> bool
    requires { length units.now % 2 ≡ 0 }
    ensures { result ≡ bytes_eq (slice_units name.now) (units_of units.now) }
{
    *name == UnalignedSlice::new(units)
}

/// Returns whether a name is `Boot` and four upper-case hex digits.
#[tactic(auto, unfolding(crate::specs::content::Value::is_boot_option_name))]
fn is_boot_option_name(name: &UnalignedSlice<'_>) -> bool
    ensures { result ≡ is_boot_option_name (slice_units name.now) }
{
    name.len() == 8
        && has_unit(name, 0, 0x42)
        && has_unit(name, 1, 0x6f)
        && has_unit(name, 2, 0x6f)
        && has_unit(name, 3, 0x74)
        && has_digit(name, 4)
        && has_digit(name, 5)
        && has_digit(name, 6)
        && has_digit(name, 7)
}

/// Returns whether a name has a unit at an index.
fn has_unit(name: &UnalignedSlice<'_>, index: usize, unit: u16) -> bool
    ensures { result ≡ has_unit (slice_units name.now) index unit }
{
    name.get(index) == Some(unit)
}

/// Returns whether a name has an upper-case hex digit at an index.
fn has_digit(name: &UnalignedSlice<'_>, index: usize) -> bool
    ensures { result ≡ has_digit (slice_units name.now) index }
{
    matches!(name.get(index), Some(0x30..=0x39 | 0x41..=0x46))
}
