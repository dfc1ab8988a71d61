ghost use Rattle.std.specs.Prelude.{◌≡◌, ◌≢◌, ◌↔◌, [], ◌∷◌, length};
ghost use Rattle.uefi_base.specs.Buffer.{put_prefix};
ghost use Rattle.uefi_path.specs.Node.{encoding};
ghost use Rattle.uefi_node.specs.Acpi.{acpi};
ghost use Rattle.uefi_c.specs.Nodes.{IsOfType, acpi_node};
ghost use Rattle.uefi_c.specs.Path.{node_seen};
ghost use Rattle.uefi_c.specs.PathWrite.{IsNeeded};
ghost use Rattle.uefi_c.specs.Status.{buffer_too_small, IsOneOf, ok, other_data};

use crate::nodes::typed::{fields_of, joined, write_parts};
use crate::path::UefiNode;
use crate::status::{self, UefiStatus};
use uefi_base::little_endian::u32_at;
use uefi_path::{DeviceSubType, DeviceType};

/// A device that numbers of its ACPI object name (UEFI 2.10, 10.3.3).
#[derive(Clone, Copy)]
#[repr(C)]
pub struct UefiAcpiNode {
    /// The hardware identifier (`_HID`): an EISA identifier, compressed.
    pub hid: u32,
    /// The unique identifier (`_UID`).
    pub uid: u32,
}

/// Reads the fields of the node of an ACPI device.
///
/// If it has another type or subtype, or its data have another length, the status is that the data
/// are another structure, and `out` stays as it was.
#[unsafe(no_mangle)]
pub extern "C" fn uefi_acpi_node(node: &UefiNode<'_>, out: &mut UefiAcpiNode) -> UefiStatus
    ensures known { IsOneOf result (ok ∷ other_data ∷ []) }
    ensures found { (result ≡ ok) ↔ IsOfType acpi (node_seen node.now) }
    ensures fields { result ≡ ok → node_seen node.now ≡ acpi_node out.new }
    ensures unchanged { result ≢ ok → out.new ≡ out.old }
{
    let node_data = node.data;
    let Some(fields) = fields_of::<8>(node, node_data, DeviceType::ACPI, DeviceSubType::ACPI) else {
        return status::OTHER_DATA;
    };
    *out = UefiAcpiNode {
        hid: u32_at(fields, 0),
        uid: u32_at(fields, 4),
    };
    status::OK
}

/// Writes the node of an ACPI device to the beginning of the buffer, and sets `size` to its
/// length; the bytes after it stay as they were.
///
/// If the buffer is too small, all bytes stay as they were, and `size` is the length that it needs.
#[unsafe(no_mangle)]
pub extern "C" fn uefi_write_acpi_node(
    buffer: &mut [u8],
    node: &UefiAcpiNode,
    size: &mut usize,
) -> UefiStatus
    ensures known { IsOneOf result (ok ∷ buffer_too_small ∷ []) }
    ensures written { result ≡ ok
        → buffer.new ≡ put_prefix (encoding (acpi_node node.now)) buffer.old }
    ensures size { IsNeeded (length (encoding (acpi_node node.now))) (length buffer.old)
        size.new result }
    ensures unchanged { result ≢ ok → buffer.new ≡ buffer.old }
{
    let fields = joined::<8>(&[&node.hid.to_le_bytes(), &node.uid.to_le_bytes()]);
    let (status, length) = write_parts(buffer, DeviceType::ACPI, DeviceSubType::ACPI, &fields, &[]);
    *size = length;
    status
}
