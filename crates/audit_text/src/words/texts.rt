ghost use Rattle.std.specs.Prelude.{◌≡◌, IfOk, encode_utf8, string_bytes};
ghost use Rattle.std.specs.List.{flat_map};
ghost use Rattle.uefi_base.specs.Views.{slice_units};
ghost use Rattle.uefi_path.specs.LoadOptionViews.{load_option_of};
ghost use Rattle.tcg_event.specs.Views.{text_of, version_of};
ghost use Rattle.shown.specs.Name.{shown_name, shown_name_bytes};
ghost use Rattle.audit_text.specs.words.Texts.{before_nul, shown_event, shown_version, unit_text};

use shown::{ShownBytes, ShownName};
use std::alloc::{AllocError, Global};
use tcg_event::{CrtmVersion, EventText};
use uefi_base::UnalignedSlice;
use uefi_path::LoadOption;

/// Returns units as text, with U+FFFD for each surrogate.
pub(crate) fn name_text(alloc: Global, units: &UnalignedSlice<'_>) -> Result<String, AllocError>
    ensures { IfOk result
        (λ text. string_bytes text ≡ flat_map unit_text (slice_units units.now)) }
{
    let mut text = String::new(alloc);
    for unit in units.iter() {
        text.push(character(unit))?;
    }
    Ok(text)
}

/// Returns the units before the first NUL as text.
#[tactic(auto, unfolding(crate::specs::words::Texts::before_nul))]
pub(crate) fn text_before_nul(
    alloc: Global,
    units: &UnalignedSlice<'_>,
) -> Result<String, AllocError>
    ensures { IfOk result
        (λ text. string_bytes text ≡ flat_map unit_text (before_nul (slice_units units.now))) }
{
    let mut text = String::new(alloc);
    for unit in units.iter() {
        if unit == 0 {
            return Ok(text);
        }
        text.push(character(unit))?;
    }
    Ok(text)
}

/// Returns the character of a unit: U+FFFD for a surrogate.
pub(crate) fn character(unit: u16) -> char
    ensures { encode_utf8 result ≡ unit_text unit }
{
    char::from_u32(u32::from(unit)).unwrap_or('\u{fffd}')
}

/// Returns bytes as text: each is the character of its number.
pub(crate) fn byte_text(alloc: Global, bytes: &[u8]) -> Result<String, AllocError>
    ensures { IfOk result (λ text. string_bytes text ≡ flat_map encode_utf8 bytes.now) }
{
    let mut text = String::new(alloc);
    for byte in bytes {
        text.push(char::from(*byte))?;
    }
    Ok(text)
}

/// Returns a text on one line, with nothing in it hidden, as [`ShownName`] displays it.
pub(crate) fn shown(alloc: Global, text: &str) -> Result<String, AllocError>
    ensures { IfOk result (λ shown. string_bytes shown ≡ shown_name text.now) }
{
    let shown = ShownName(text);
    format!(in alloc; "{shown}")
}

/// Returns bytes that are no text as [`ShownBytes`] displays them.
pub(crate) fn shown_bytes(alloc: Global, bytes: &[u8]) -> Result<String, AllocError>
    ensures { IfOk result (λ shown. string_bytes shown ≡ shown_name_bytes bytes.now) }
{
    let shown = ShownBytes(bytes);
    format!(in alloc; "{shown}")
}

/// Returns the text of units on one line, with nothing in it hidden.
fn shown_units(alloc: Global, units: &UnalignedSlice<'_>) -> Result<String, AllocError>
    ensures { IfOk result (λ text. string_bytes text
        ≡ shown_name (flat_map unit_text (slice_units units.now))) }
{
    let text = name_text(alloc, units)?;
    shown(alloc, text.as_str())
}

/// Returns the text of an event on one line, with nothing in it hidden.
#[tactic(auto, unfolding(crate::specs::words::Texts::shown_event))]
pub(crate) fn shown_event(alloc: Global, text: &EventText<'_>) -> Result<String, AllocError>
    ensures { IfOk result (λ shown. string_bytes shown ≡ shown_event (text_of text.now)) }
{
    match text {
        EventText::Utf8 { text, .. } => shown(alloc, text),
        EventText::Utf16 { units, .. } => shown_units(alloc, units),
        EventText::Other(bytes) => shown_bytes(alloc, bytes),
    }
}

/// Returns the text of a version on one line, with nothing in it hidden.
#[tactic(auto, unfolding(crate::specs::words::Texts::shown_version))]
pub(crate) fn shown_version(alloc: Global, version: &CrtmVersion<'_>) -> Result<String, AllocError>
    ensures { IfOk result (λ shown. string_bytes shown ≡ shown_version (version_of version.now)) }
{
    match version {
        CrtmVersion::Ucs2(units) => shown_units(alloc, units),
        CrtmVersion::Guid(guid) => guid.to_string(alloc),
        CrtmVersion::Other(text) => shown_event(alloc, text),
    }
}

/// Returns the description of a boot option, without its NUL.
#[tactic(auto, using(crate::proofs::words::BeforeNul::without_nul))]
pub(crate) fn description_text(alloc: Global, option: &LoadOption<'_>) -> Result<String, AllocError>
    ensures { IfOk result (λ text. string_bytes text
        ≡ flat_map unit_text (before_nul (load_option_of option.now).description)) }
{
    text_before_nul(alloc, &option.description())
}
