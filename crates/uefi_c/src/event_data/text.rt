ghost use Rattle.std.specs.Prelude.{◌≡◌, ◌==◌, ◌%◌, length, IfSome, IsTrue, MatchOption, ◌≢◌, [], ◌∷◌, if◌then◌else◌};
ghost use Rattle.tcg_event.specs.Text.{other, text_in};
ghost use Rattle.tcg_event.specs.Views.{text_of};
ghost use Rattle.uefi_c.specs.EventData.{text_given_by, text_seen};
ghost use Rattle.uefi_c.specs.Status.{IsOneOf, ok, other_data};

use crate::cursor::units_at;
use crate::status::{self, UefiStatus};
use tcg_event::EventText;

/// The text of an event (TCG PC Client Platform Firmware Profile 1.06, 10.4.1, `EV_IPL`).
#[derive(Clone, Copy)]
#[repr(C)]
pub struct UefiEventText<'a> {
    /// The bytes of the text, without the NUL: UTF-8, or units of UTF-16, of two bytes each,
    /// little-endian.
    pub text: &'a [u8],
    /// Whether these are units of UTF-16.
    pub is_utf16: bool,
    /// Whether a NUL follows them.
    pub has_nul: bool,
}

/// Reads the text that the data of an event are.
#[unsafe(no_mangle)]
pub extern "C" fn uefi_event_text<'a>(
    event_data: &'a [u8],
    out: &mut UefiEventText<'a>,
) -> UefiStatus
    ensures text { text_in event_data.now ≡ text_given_by result out.new event_data.now }
    ensures whole_units { result ≡ ok
        → IsTrue out.new.is_utf16 → length out.new.text.now % 2 ≡ 0 }
    ensures known { IsOneOf result (ok ∷ other_data ∷ []) }
    ensures unchanged { result ≢ ok → out.new ≡ out.old }
{
    let Some(text) = seen(event_data, &EventText::read(event_data)) else {
        return status::OTHER_DATA;
    };
    *out = text;
    status::OK
}

/// Returns the text that the bytes are, with its bytes; `None` if they are no text.
pub(crate) fn seen<'a>(bytes: &'a [u8], text: &EventText<'a>) -> Option<UefiEventText<'a>>
    requires { text_of text.now ≡ text_in bytes.now }
    ensures text { MatchOption result (text_in bytes.now ≡ other bytes.now)
        (λ seen. text_in bytes.now ≡ text_seen seen) }
    ensures whole_units { IfSome result
        (λ seen. IsTrue seen.is_utf16 → length seen.text.now % 2 ≡ 0) }
{
    match text {
        EventText::Utf8 { text, has_nul } => Some(UefiEventText {
            text: text.as_bytes(),
            is_utf16: false,
            has_nul: *has_nul,
        }),
        EventText::Utf16 { units, has_nul } => Some(UefiEventText {
            text: units_at(bytes, 0, units.len()),
            is_utf16: true,
            has_nul: *has_nul,
        }),
        EventText::Other(_) => None,
    }
}
