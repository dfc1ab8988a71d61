ghost use Rattle.std.specs.Prelude.{IfNone, IfSome};
ghost use Rattle.std.specs.List.{All, Any};
ghost use Rattle.uefi_path.specs.Path.{all_but_last};
ghost use Rattle.uefi_path.specs.Views.{path_nodes};
ghost use Rattle.uefi_node.specs.Layout.{IsNodeAs};
ghost use Rattle.uefi_node.specs.Media.{hard_drive};
ghost use Rattle.uefi_node.specs.declared.media.hard_drive.HardDrive.{HardDrive};

use uefi_node::media::HardDrive;
use uefi_path::DevicePath;

/// Returns the first partition of a hard drive that a path goes over.
pub fn partition_of(path: &DevicePath<'_>) -> Option<HardDrive>
    ensures found { IfSome result (λ drive.
        Any (IsNodeAs hard_drive drive) (all_but_last (path_nodes path.now))) }
    ensures none { IfNone result (All (λ node. (drive : HardDrive) → ¬ IsNodeAs hard_drive drive node)
        (all_but_last (path_nodes path.now))) }
{
    for node in path.node_iter() {
        if let Ok(drive) = HardDrive::try_from(node) {
            return Some(drive);
        }
    }
    None
}
