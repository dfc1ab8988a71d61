ghost use Rattle.std.specs.Prelude.{◌≡◌, ◌≢◌, ◌↔◌, [], ◌∷◌, length};
ghost use Rattle.uefi_base.specs.Buffer.{put_prefix};
ghost use Rattle.uefi_path.specs.Node.{encoding};
ghost use Rattle.uefi_node.specs.Messaging.{nvme_namespace};
ghost use Rattle.uefi_c.specs.Nodes.{IsOfType, nvme_node};
ghost use Rattle.uefi_c.specs.Path.{node_seen};
ghost use Rattle.uefi_c.specs.PathWrite.{IsNeeded};
ghost use Rattle.uefi_c.specs.Status.{buffer_too_small, IsOneOf, ok, other_data};

use crate::nodes::typed::{fields_of, joined, write_parts};
use crate::path::UefiNode;
use crate::status::{self, UefiStatus};
use uefi_base::little_endian::{u32_at, u64_at};
use uefi_path::{DeviceSubType, DeviceType};

/// A namespace of an NVM Express device (UEFI 2.10, 10.3.4.22).
#[derive(Clone, Copy)]
#[repr(C)]
pub struct UefiNvmeNode {
    /// The extended unique identifier (EUI-64), or 0 if there is none.
    pub ieee_extended_unique_identifier: u64,
    /// The number of the namespace.
    pub namespace_identifier: u32,
}

/// Reads the fields of the node of an NVM Express namespace.
///
/// If it has another type or subtype, or its data have another length, the status is that the data
/// are another structure, and `out` stays as it was.
#[unsafe(no_mangle)]
pub extern "C" fn uefi_nvme_node(node: &UefiNode<'_>, out: &mut UefiNvmeNode) -> UefiStatus
    ensures known { IsOneOf result (ok ∷ other_data ∷ []) }
    ensures found { (result ≡ ok) ↔ IsOfType nvme_namespace (node_seen node.now) }
    ensures fields { result ≡ ok → node_seen node.now ≡ nvme_node out.new }
    ensures unchanged { result ≢ ok → out.new ≡ out.old }
{
    let node_data = node.data;
    let Some(fields) = fields_of::<12>(
        node,
        node_data,
        DeviceType::MESSAGING,
        DeviceSubType::MESSAGING_NVME_NAMESPACE,
    ) else {
        return status::OTHER_DATA;
    };
    *out = UefiNvmeNode {
        ieee_extended_unique_identifier: u64_at(fields, 4),
        namespace_identifier: u32_at(fields, 0),
    };
    status::OK
}

/// Writes the node of an NVM Express namespace to the beginning of the buffer, and sets `size` to
/// its length; the bytes after it stay as they were.
///
/// If the buffer is too small, all bytes stay as they were, and `size` is the length that it needs.
#[unsafe(no_mangle)]
pub extern "C" fn uefi_write_nvme_node(
    buffer: &mut [u8],
    node: &UefiNvmeNode,
    size: &mut usize,
) -> UefiStatus
    ensures known { IsOneOf result (ok ∷ buffer_too_small ∷ []) }
    ensures written { result ≡ ok
        → buffer.new ≡ put_prefix (encoding (nvme_node node.now)) buffer.old }
    ensures size { IsNeeded (length (encoding (nvme_node node.now))) (length buffer.old)
        size.new result }
    ensures unchanged { result ≢ ok → buffer.new ≡ buffer.old }
{
    let fields = joined::<12>(&[
        &node.namespace_identifier.to_le_bytes(),
        &node.ieee_extended_unique_identifier.to_le_bytes(),
    ]);
    let (status, length) = write_parts(
        buffer,
        DeviceType::MESSAGING,
        DeviceSubType::MESSAGING_NVME_NAMESPACE,
        &fields,
        &[],
    );
    *size = length;
    status
}
