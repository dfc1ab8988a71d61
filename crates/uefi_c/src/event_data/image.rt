ghost use Rattle.std.specs.Prelude.{◌≡◌, ◌≢◌, [], ◌∷◌};
ghost use Rattle.uefi_tcg.specs.UintnSize.{uintn_size_of};
ghost use Rattle.tcg_event.specs.Image.{ReadsImage};
ghost use Rattle.uefi_c.specs.EventData.{given, image_seen};
ghost use Rattle.uefi_c.specs.Status.{IsOneOf, ok, other_data};

use crate::status::{self, UefiStatus};
use tcg_event::ImageLoadEvent;
use uefi_tcg::UintnSize;

/// An image that was loaded (TCG PC Client Platform Firmware Profile 1.06, 10.2.3,
/// `UEFI_IMAGE_LOAD_EVENT`).
#[derive(Clone, Copy)]
#[repr(C)]
pub struct UefiImage<'a> {
    /// The device path: as many bytes as are stated, which needn't be a path.
    pub device_path: &'a [u8],
    /// The bytes after it. Where firmware states a length of 0, the path is here.
    pub rest: &'a [u8],
    /// The address at which the image was loaded.
    pub location_in_memory: u64,
    /// The length of the image in memory.
    pub length_in_memory: u64,
    /// The address for which the image was linked.
    pub link_time_address: u64,
}

/// Reads the image that the data of an event are, in a log whose header states this size of a
/// `UINTN`: 1 is four bytes, every other number eight.
#[unsafe(no_mangle)]
pub extern "C" fn uefi_image<'a>(
    event_data: &'a [u8],
    uintn_size: u8,
    out: &mut UefiImage<'a>,
) -> UefiStatus
    ensures image { ReadsImage (uintn_size_of uintn_size) event_data.now
        (given result (image_seen out.new)) }
    ensures known { IsOneOf result (ok ∷ other_data ∷ []) }
    ensures unchanged { result ≢ ok → out.new ≡ out.old }
{
    let Some(image) = ImageLoadEvent::read(event_data, UintnSize::from_header(uintn_size)) else {
        return status::OTHER_DATA;
    };
    *out = UefiImage {
        device_path: image.device_path,
        rest: image.rest,
        location_in_memory: image.location_in_memory,
        length_in_memory: image.length_in_memory,
        link_time_address: image.link_time_address,
    };
    status::OK
}
