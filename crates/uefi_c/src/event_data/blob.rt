ghost use Rattle.std.specs.Prelude.{◌≡◌, [], IsTrue, ◌≢◌, ◌∷◌};
ghost use Rattle.tcg_event.specs.Blob.{ReadsBlob, ReadsDescribedBlob};
ghost use Rattle.uefi_c.specs.EventData.{given, blob_seen, described_seen};
ghost use Rattle.uefi_c.specs.Status.{IsOneOf, ok, other_data};

use crate::status::{self, UefiStatus};
use tcg_event::{PlatformFirmwareBlob, PlatformFirmwareBlob2};

/// A blob of firmware (TCG PC Client Platform Firmware Profile 1.06, 10.2,
/// `UEFI_PLATFORM_FIRMWARE_BLOB`, `UEFI_PLATFORM_FIRMWARE_BLOB2`).
#[derive(Clone, Copy)]
#[repr(C)]
pub struct UefiBlob<'a> {
    /// The description, which is ASCII as a rule: at most 255 bytes. A blob without one has none.
    pub description: &'a [u8],
    /// The address of the blob in memory.
    pub base: u64,
    /// The length of the blob.
    pub length: u64,
}

/// Reads the blob without a description that the data of an event are.
#[unsafe(no_mangle)]
pub extern "C" fn uefi_blob<'a>(event_data: &'a [u8], out: &mut UefiBlob<'a>) -> UefiStatus
    ensures blob { ReadsBlob event_data.now (given result (blob_seen out.new)) }
    ensures description { result ≡ ok → out.new.description.now ≡ [] }
    ensures known { IsOneOf result (ok ∷ other_data ∷ []) }
    ensures unchanged { result ≢ ok → out.new ≡ out.old }
{
    let Some(blob) = PlatformFirmwareBlob::read(event_data) else {
        return status::OTHER_DATA;
    };
    *out = UefiBlob {
        description: &[],
        base: blob.base,
        length: blob.length,
    };
    status::OK
}

/// Reads the blob with a description that the data of an event are.
#[unsafe(no_mangle)]
pub extern "C" fn uefi_blob2<'a>(event_data: &'a [u8], out: &mut UefiBlob<'a>) -> UefiStatus
    ensures blob { ReadsDescribedBlob event_data.now (given result (described_seen out.new)) }
    ensures known { IsOneOf result (ok ∷ other_data ∷ []) }
    ensures unchanged { result ≢ ok → out.new ≡ out.old }
{
    let Some(described) = PlatformFirmwareBlob2::read(event_data) else {
        return status::OTHER_DATA;
    };
    *out = UefiBlob {
        description: described.description,
        base: described.blob.base,
        length: described.blob.length,
    };
    status::OK
}
