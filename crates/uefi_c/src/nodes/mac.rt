ghost use Rattle.std.specs.Prelude.{◌≡◌, ◌≢◌, ◌↔◌, [], ◌∷◌, length};
ghost use Rattle.uefi_base.specs.Buffer.{put_prefix};
ghost use Rattle.uefi_path.specs.Node.{encoding};
ghost use Rattle.uefi_node.specs.Messaging.{mac_address};
ghost use Rattle.uefi_c.specs.Nodes.{IsOfType, mac_node};
ghost use Rattle.uefi_c.specs.Path.{node_seen};
ghost use Rattle.uefi_c.specs.PathWrite.{IsNeeded};
ghost use Rattle.uefi_c.specs.Status.{buffer_too_small, IsOneOf, ok, other_data};

use crate::nodes::typed::{bytes_at, fields_of, joined, write_parts};
use crate::path::UefiNode;
use crate::status::{self, UefiStatus};
use uefi_path::{DeviceSubType, DeviceType};

/// The address of a network interface (UEFI 2.10, 10.3.4.11).
#[derive(Clone, Copy)]
#[repr(C)]
pub struct UefiMacNode {
    /// The address, with zeros after it.
    pub mac_address: [u8; 32],
    /// The type of the interface, a number of RFC 3232.
    pub interface_type: u8,
}

/// Reads the fields of the node of a network interface.
///
/// If it has another type or subtype, or its data have another length, the status is that the data
/// are another structure, and `out` stays as it was.
#[unsafe(no_mangle)]
pub extern "C" fn uefi_mac_node(node: &UefiNode<'_>, out: &mut UefiMacNode) -> UefiStatus
    ensures known { IsOneOf result (ok ∷ other_data ∷ []) }
    ensures found { (result ≡ ok) ↔ IsOfType mac_address (node_seen node.now) }
    ensures fields { result ≡ ok → node_seen node.now ≡ mac_node out.new }
    ensures unchanged { result ≢ ok → out.new ≡ out.old }
{
    let node_data = node.data;
    let Some(fields) = fields_of::<33>(
        node,
        node_data,
        DeviceType::MESSAGING,
        DeviceSubType::MESSAGING_MAC_ADDRESS,
    ) else {
        return status::OTHER_DATA;
    };
    *out = UefiMacNode {
        mac_address: bytes_at(fields, 0),
        interface_type: fields[32],
    };
    status::OK
}

/// Writes the node of a network interface to the beginning of the buffer, and sets `size` to its
/// length; the bytes after it stay as they were.
///
/// If the buffer is too small, all bytes stay as they were, and `size` is the length that it needs.
#[unsafe(no_mangle)]
pub extern "C" fn uefi_write_mac_node(
    buffer: &mut [u8],
    node: &UefiMacNode,
    size: &mut usize,
) -> UefiStatus
    ensures known { IsOneOf result (ok ∷ buffer_too_small ∷ []) }
    ensures written { result ≡ ok
        → buffer.new ≡ put_prefix (encoding (mac_node node.now)) buffer.old }
    ensures size { IsNeeded (length (encoding (mac_node node.now))) (length buffer.old)
        size.new result }
    ensures unchanged { result ≢ ok → buffer.new ≡ buffer.old }
{
    let fields = joined::<33>(&[&node.mac_address, &node.interface_type.to_le_bytes()]);
    let (status, length) = write_parts(
        buffer,
        DeviceType::MESSAGING,
        DeviceSubType::MESSAGING_MAC_ADDRESS,
        &fields,
        &[],
    );
    *size = length;
    status
}
