ghost use Rattle.std.specs.Prelude.{◌≡◌, ◌↔◌, IfErr, IfOk, IsOk, IsTrue, List};
ghost use Rattle.std.specs.List.{Any};
ghost use Rattle.uefi_base.specs.Prefix.{IsPrefix};
ghost use Rattle.uefi_path.specs.Node.{Node, joined};
ghost use Rattle.uefi_path.specs.Path.{HasPath, IsPath, all_but_last};

use uefi_path::{ByteConversionError, DevicePath, DeviceType};

/// Returns whether the path that the bytes begin with goes over a medium, such as a partition.
pub fn goes_over_medium(bytes: &[u8]) -> Result<bool, ByteConversionError>
    ensures accepted { IsOk result ↔ HasPath bytes.now }
    ensures medium { IfOk result (λ found. (nodes : List Node)
        × IsPath nodes × IsPrefix (joined nodes) bytes.now
        × (IsTrue found ↔ Any (λ node. node.device_type ≡ 4) (all_but_last nodes))) }
    ensures refused { IfErr result (λ error. error ≡ ByteConversionError.InvalidLength) }
{
    let path = DevicePath::try_from(bytes)?;
    Ok(
        path.node_iter()
            .any(|node| node.device_type() == DeviceType::MEDIA),
    )
}
