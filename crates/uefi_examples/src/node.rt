ghost use Rattle.std.specs.Prelude.{◌≡◌, [], ◌∷◌, IfOk, IfSome};
ghost use Rattle.std.specs.List.{Any};
ghost use Rattle.uefi_path.specs.Node.{end_entire};
ghost use Rattle.uefi_path.specs.Path.{all_but_last};
ghost use Rattle.uefi_path.specs.Views.{path_nodes};
ghost use Rattle.uefi_node.specs.Layout.{IsNodeAs, node_as};
ghost use Rattle.uefi_node.specs.Media.{hard_drive, file_path};
ghost use Rattle.uefi_node.specs.declared.media.hard_drive.HardDrive.{HardDrive};

use uefi_node::laws::{faithful_types, one_signature, one_way_to_split, worked_rows};
use uefi_node::media::{FilePath, HardDrive};
use uefi_node::{DevicePathNodeEnum, DevicePathNodeExt};
use uefi_path::DevicePath;
use uefi_path::build::{BuildError, DevicePathBuilder};

/// Returns the number of the partition that a path goes over first, if it goes over one.
pub fn partition_number(path: &DevicePath<'_>) -> Option<u32>
    ensures { IfSome result (λ number. Any (λ node. (drive : HardDrive)
        × IsNodeAs hard_drive drive node × (number ≡ drive.partition_number))
        (all_but_last (path_nodes path.now))) }
{
    for node in path.node_iter() {
        if let Ok(DevicePathNodeEnum::MediaHardDrive(drive)) = node.as_enum() {
            return Some(drive.partition_number);
        }
    }
    None
}

/// Builds the path of a boot entry: a file on a partition.
pub fn boot_path<'a>(
    buffer: &'a mut [u8],
    drive: &HardDrive,
    file: &FilePath<'_>,
) -> Result<DevicePath<'a>, BuildError>
    ensures { IfOk result (λ path. path_nodes path
        ≡ node_as hard_drive drive.now ∷ node_as file_path file.now ∷ end_entire ∷ []) }
{
    DevicePathBuilder::with_buf(buffer)
        .push(drive)?
        .push(file)?
        .finalize()
}

/// Calls each law of typed nodes.
pub fn laws_of_nodes() {
    faithful_types::<HardDrive>();
    one_signature();
    one_way_to_split();
    worked_rows();
}
