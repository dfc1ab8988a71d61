use rows::hex_digits;
use std::alloc::Global;
use tcg_event::{CrtmVersion, EventText};
use test_support::bytes;
use uefi_base::UnalignedSlice;

/// Returns the units over bytes.
pub(crate) fn units(alloc: Global, slice: UnalignedSlice<'_>) -> Option<Vec<u16>> {
    slice.iter().collect::<Vec<u16>>(alloc).ok()
}

/// Returns the form of a text: its characters, and whether a NUL ends it, or bytes that are no text.
fn shown(alloc: Global, text: &EventText<'_>) -> Option<String> {
    match text {
        EventText::Utf8 { text, has_nul } => {
            let text = hex_digits(alloc, text.as_bytes()).ok()?;
            format!(in alloc; "Utf8({text}, {has_nul})").ok()
        }
        EventText::Utf16 {
            units: text,
            has_nul,
        } => {
            let text = units(alloc, *text)?;
            format!(in alloc; "Utf16({:?}, {has_nul})", text.as_slice()).ok()
        }
        EventText::Other(bytes) => {
            let bytes = hex_digits(alloc, bytes).ok()?;
            format!(in alloc; "Other({bytes})").ok()
        }
    }
}

/// Returns the text that the bytes are, or the bytes.
pub(crate) fn event_text(alloc: Global, input: &str) -> Option<String> {
    let input = bytes(alloc, input).ok()?;
    shown(alloc, &EventText::read(input.as_slice()))
}

/// Returns the version that the bytes are, or what else they say.
pub(crate) fn crtm_version(alloc: Global, input: &str) -> Option<String> {
    let input = bytes(alloc, input).ok()?;
    match CrtmVersion::read(input.as_slice()) {
        CrtmVersion::Ucs2(text) => {
            let text = units(alloc, text)?;
            format!(in alloc; "Ucs2({:?})", text.as_slice()).ok()
        }
        CrtmVersion::Guid(guid) => format!(in alloc; "Guid({guid})").ok(),
        CrtmVersion::Other(text) => {
            let text = shown(alloc, &text)?;
            format!(in alloc; "Other({text})").ok()
        }
    }
}
