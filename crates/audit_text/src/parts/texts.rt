ghost use Rattle.std.specs.Prelude.{◌≡◌, IfOk};
ghost use Rattle.tcg_event.specs.Views.{text_of, version_of};
ghost use Rattle.audit_text.specs.parts.Contents.{algorithm_value, event_value, version_value};
ghost use Rattle.audit_text.specs.private.PartViews.{value_of};
ghost use Rattle.audit_text.specs.words.Names.{algorithm_name};

use crate::parts::part::PartValue;
use crate::words::names::algorithm_name;
use crate::words::texts::{name_text, shown_bytes};
use std::alloc::{AllocError, Global};
use tcg_event::{CrtmVersion, EventText};
use uefi_tcg::AlgorithmId;

/// Returns the text of an event; bytes that are no text as they are shown.
pub(crate) fn event_value<'a>(
    alloc: Global,
    text: &EventText<'_>,
) -> Result<PartValue<'a>, AllocError>
    ensures { IfOk result (λ value. value_of value ≡ event_value (text_of text.now)) }
{
    match text {
        EventText::Utf8 { text, .. } => Ok(PartValue::Text(String::from_str(alloc, text)?)),
        EventText::Utf16 { units, .. } => Ok(PartValue::Text(name_text(alloc, units)?)),
        EventText::Other(bytes) => Ok(PartValue::Plain(shown_bytes(alloc, bytes)?)),
    }
}

/// Returns a version: its text, or its GUID.
pub(crate) fn version_value<'a>(
    alloc: Global,
    version: &CrtmVersion<'_>,
) -> Result<PartValue<'a>, AllocError>
    ensures { IfOk result (λ value. value_of value ≡ version_value (version_of version.now)) }
{
    match version {
        CrtmVersion::Ucs2(units) => Ok(PartValue::Text(name_text(alloc, units)?)),
        CrtmVersion::Guid(guid) => Ok(PartValue::Guid(*guid)),
        CrtmVersion::Other(text) => event_value(alloc, text),
    }
}

/// Returns the name of an algorithm; the number of one without a name.
pub(crate) fn algorithm_value<'a>(
    alloc: Global,
    algorithm: AlgorithmId,
) -> Result<PartValue<'a>, AllocError>
    ensures { IfOk result (λ value. value_of value
        ≡ algorithm_value (algorithm_name algorithm.0) algorithm.0) }
{
    match algorithm_name(algorithm) {
        Some(name) => Ok(PartValue::Plain(String::from_str(alloc, name)?)),
        None => Ok(PartValue::Hexadecimal(u64::from(algorithm.0))),
    }
}
