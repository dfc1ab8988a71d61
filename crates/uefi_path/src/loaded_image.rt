ghost use Rattle.std.specs.Prelude.{◌≡◌};
ghost use Rattle.uefi_path.specs.Views.{loaded_path};

use crate::path::DevicePath;

/// The device path of a loaded image, which says where the image was loaded from (UEFI 2.10, 9.2
/// `EFI_LOADED_IMAGE_DEVICE_PATH_PROTOCOL`).
#[derive(Clone, Copy)]
#[repr(transparent)]
pub struct LoadedImageDevicePath<'a>(DevicePath<'a>);

impl<'a> LoadedImageDevicePath<'a> {
    /// Returns `path` as the device path of a loaded image.
    pub fn new(path: DevicePath<'a>) -> LoadedImageDevicePath<'a>
        ensures { loaded_path result ≡ path.entry }
    {
        LoadedImageDevicePath(path)
    }

    /// Returns the device path.
    pub fn device_path(&self) -> DevicePath<'a>
        ensures { result ≡ loaded_path self.now }
    {
        self.0
    }
}
