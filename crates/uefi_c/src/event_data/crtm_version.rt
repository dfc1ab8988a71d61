ghost use Rattle.std.specs.Prelude.{◌≡◌, ◌≤◌, ◌%◌, length, IsTrue, IsFalse, ◌≢◌, [], ◌∷◌};
ghost use Rattle.tcg_event.specs.CrtmVersion.{version_in};
ghost use Rattle.uefi_c.specs.EventData.{version_given_by};
ghost use Rattle.uefi_c.specs.Status.{IsOneOf, ok, other_data};

use super::text::{UefiEventText, seen};
use crate::cursor::units_at;
use crate::status::{self, UefiStatus};
use tcg_event::CrtmVersion;

// The forms of a version.

/// A string of UCS-2 that a NUL ends.
const UCS2: u32 = 0;

/// A GUID.
const GUID: u32 = 1;

/// Another text.
const OTHER: u32 = 2;

/// The version of the static root of trust for measurement (TCG PC Client Platform Firmware Profile
/// 1.06, 10.4.1, `EV_S_CRTM_VERSION`).
#[derive(Clone, Copy)]
#[repr(C)]
pub struct UefiCrtmVersion<'a> {
    /// The text without its NUL. If the version is a GUID, its sixteen bytes.
    pub text: UefiEventText<'a>,
    /// The form: 0 for a string of UCS-2 that a NUL ends, 1 for a GUID, 2 for another text.
    pub form: u32,
}

/// Reads the version that the data of an event are.
#[unsafe(no_mangle)]
pub extern "C" fn uefi_event_crtm_version<'a>(
    event_data: &'a [u8],
    out: &mut UefiCrtmVersion<'a>,
) -> UefiStatus
    ensures version { version_in event_data.now
        ≡ version_given_by result out.new event_data.now }
    ensures known { result ≡ ok → out.new.form ≤ 2 }
    ensures string { result ≡ ok → out.new.form ≡ 0
        → IsTrue out.new.text.is_utf16 × IsTrue out.new.text.has_nul }
    ensures guid { result ≡ ok → out.new.form ≡ 1
        → IsFalse out.new.text.is_utf16 × IsFalse out.new.text.has_nul }
    ensures whole_units { result ≡ ok → IsTrue out.new.text.is_utf16
        → length out.new.text.text.now % 2 ≡ 0 }
    ensures status { IsOneOf result (ok ∷ other_data ∷ []) }
    ensures unchanged { result ≢ ok → out.new ≡ out.old }
{
    match CrtmVersion::read(event_data) {
        CrtmVersion::Ucs2(units) => {
            let text = UefiEventText {
                text: units_at(event_data, 0, units.len()),
                is_utf16: true,
                has_nul: true,
            };
            *out = UefiCrtmVersion { text, form: UCS2 };
            status::OK
        }
        CrtmVersion::Guid(_) => {
            let text = UefiEventText {
                text: event_data,
                is_utf16: false,
                has_nul: false,
            };
            *out = UefiCrtmVersion { text, form: GUID };
            status::OK
        }
        CrtmVersion::Other(text) => {
            let Some(text) = seen(event_data, &text) else {
                return status::OTHER_DATA;
            };
            *out = UefiCrtmVersion { text, form: OTHER };
            status::OK
        }
    }
}
