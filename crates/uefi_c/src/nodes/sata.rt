ghost use Rattle.std.specs.Prelude.{◌≡◌, ◌≢◌, ◌↔◌, [], ◌∷◌, length};
ghost use Rattle.uefi_base.specs.Buffer.{put_prefix};
ghost use Rattle.uefi_path.specs.Node.{encoding};
ghost use Rattle.uefi_node.specs.Messaging.{sata};
ghost use Rattle.uefi_c.specs.Nodes.{IsOfType, sata_node};
ghost use Rattle.uefi_c.specs.Path.{node_seen};
ghost use Rattle.uefi_c.specs.PathWrite.{IsNeeded};
ghost use Rattle.uefi_c.specs.Status.{buffer_too_small, IsOneOf, ok, other_data};

use crate::nodes::typed::{fields_of, joined, write_parts};
use crate::path::UefiNode;
use crate::status::{self, UefiStatus};
use uefi_base::little_endian::u16_at;
use uefi_path::{DeviceSubType, DeviceType};

/// A SATA device (UEFI 2.10, 10.3.4.6).
#[derive(Clone, Copy)]
#[repr(C)]
pub struct UefiSataNode {
    /// The port of the host bus adapter.
    pub hba_port_number: u16,
    /// The port of the multiplier, or 0xffff if there is none.
    pub port_multiplier_port_number: u16,
    /// The logical unit.
    pub logical_unit_number: u16,
}

/// Reads the fields of the node of a SATA device.
///
/// If it has another type or subtype, or its data have another length, the status is that the data
/// are another structure, and `out` stays as it was.
#[unsafe(no_mangle)]
pub extern "C" fn uefi_sata_node(node: &UefiNode<'_>, out: &mut UefiSataNode) -> UefiStatus
    ensures known { IsOneOf result (ok ∷ other_data ∷ []) }
    ensures found { (result ≡ ok) ↔ IsOfType sata (node_seen node.now) }
    ensures fields { result ≡ ok → node_seen node.now ≡ sata_node out.new }
    ensures unchanged { result ≢ ok → out.new ≡ out.old }
{
    let node_data = node.data;
    let Some(fields) = fields_of::<6>(
        node,
        node_data,
        DeviceType::MESSAGING,
        DeviceSubType::MESSAGING_SATA,
    ) else {
        return status::OTHER_DATA;
    };
    *out = UefiSataNode {
        hba_port_number: u16_at(fields, 0),
        port_multiplier_port_number: u16_at(fields, 2),
        logical_unit_number: u16_at(fields, 4),
    };
    status::OK
}

/// Writes the node of a SATA device to the beginning of the buffer, and sets `size` to its
/// length; the bytes after it stay as they were.
///
/// If the buffer is too small, all bytes stay as they were, and `size` is the length that it needs.
#[unsafe(no_mangle)]
pub extern "C" fn uefi_write_sata_node(
    buffer: &mut [u8],
    node: &UefiSataNode,
    size: &mut usize,
) -> UefiStatus
    ensures known { IsOneOf result (ok ∷ buffer_too_small ∷ []) }
    ensures written { result ≡ ok
        → buffer.new ≡ put_prefix (encoding (sata_node node.now)) buffer.old }
    ensures size { IsNeeded (length (encoding (sata_node node.now))) (length buffer.old)
        size.new result }
    ensures unchanged { result ≢ ok → buffer.new ≡ buffer.old }
{
    let fields = joined::<6>(&[
        &node.hba_port_number.to_le_bytes(),
        &node.port_multiplier_port_number.to_le_bytes(),
        &node.logical_unit_number.to_le_bytes(),
    ]);
    let (status, length) = write_parts(
        buffer,
        DeviceType::MESSAGING,
        DeviceSubType::MESSAGING_SATA,
        &fields,
        &[],
    );
    *size = length;
    status
}
