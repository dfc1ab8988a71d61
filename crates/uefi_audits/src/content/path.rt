ghost use Rattle.std.specs.Prelude.{option_map};
ghost use Rattle.uefi_path.specs.Views.{path_nodes};
ghost use Rattle.uefi_audits.specs.content.Path.{ReadsNodes};

use uefi_path::DevicePath;

/// Returns the device path that the bytes are; `None` if they are none, whole and alone.
pub(crate) fn whole_path(bytes: &[u8]) -> Option<DevicePath<'_>>
    ensures { ReadsNodes bytes.now (option_map path_nodes result) }
{
    let Ok(path) = DevicePath::try_from(bytes) else {
        return None;
    };
    if path.as_bytes().len() != bytes.len() {
        return None;
    }
    Some(path)
}
