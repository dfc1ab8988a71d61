ghost use Rattle.std.specs.Prelude.{◌≡◌, drop, IfSome, IfNone, ◌≢◌, ◌<◌, ◌≤◌, [], ◌∷◌, length};
ghost use Rattle.uefi_base.specs.Prefix.{IsPrefix};
ghost use Rattle.tcg_event.specs.Tagged.{Tagged, IsTagged, tagged_bytes};
ghost use Rattle.tcg_event.specs.Views.{tagged_of};
ghost use Rattle.uefi_c.specs.Cursor.{Stands};
ghost use Rattle.uefi_c.specs.EventData.{tagged_seen};
ghost use Rattle.uefi_c.specs.Status.{cut, ended, IsOneOf, ok};

use crate::cursor::bytes_from;
use crate::status::{self, UefiStatus};
use tcg_event::{TaggedEvent, TaggedEvents};

/// A tagged event (TCG PC Client Platform Firmware Profile 1.06, 10.4.1,
/// `TCG_PCClientTaggedEvent`).
#[derive(Clone, Copy)]
#[repr(C)]
pub struct UefiTaggedEvent<'a> {
    /// The data.
    pub value: &'a [u8],
    /// The number that says what the data are.
    pub id: u32,
}

/// Reads the tagged event at the offset of an event's data, and moves the offset to its end.
#[unsafe(no_mangle)]
pub extern "C" fn uefi_tagged_next<'a>(
    event_data: &'a [u8],
    offset: &mut usize,
    out: &mut UefiTaggedEvent<'a>,
) -> UefiStatus
    ensures tagged { result ≡ ok → IsTagged (tagged_seen out.new) }
    ensures stands { result ≡ ok → Stands (tagged_bytes (tagged_seen out.new))
        event_data.now offset.old offset.new }
    ensures known { IsOneOf result (ok ∷ ended ∷ cut ∷ []) }
    ensures ended { result ≡ ended → length event_data.now ≤ offset.old }
    ensures cut { result ≡ cut → offset.old < length event_data.now }
    ensures none { result ≢ ok → (tagged : Tagged) → IsTagged tagged
        → IsPrefix (tagged_bytes tagged) (drop offset.old event_data.now) → ⊥ }
    ensures offset_unchanged { result ≢ ok → offset.new ≡ offset.old }
    ensures out_unchanged { result ≢ ok → out.new ≡ out.old }
{
    let Some((tagged, end)) = tagged_at(event_data, *offset) else {
        return if *offset < event_data.len() {
            status::CUT
        } else {
            status::END
        };
    };
    *out = UefiTaggedEvent {
        value: tagged.data,
        id: tagged.id,
    };
    *offset = end;
    status::OK
}

/// Returns the tagged event at the offset, and the offset of its end.
fn tagged_at(event_data: &[u8], offset: usize) -> Option<(TaggedEvent<'_>, usize)>
    ensures tagged { IfSome result (λ found. IsTagged (tagged_of found.0)) }
    ensures stands { IfSome result
        (λ found. Stands (tagged_bytes (tagged_of found.0)) event_data.now offset found.1) }
    ensures none { IfNone result ((tagged : Tagged) → IsTagged tagged
        → IsPrefix (tagged_bytes tagged) (drop offset event_data.now) → ⊥) }
{
    let bytes = bytes_from(event_data, offset)?;
    let mut events = TaggedEvents::new(bytes);
    let tagged = events.next()?;
    Some((tagged, event_data.len() - events.rest().len()))
}
