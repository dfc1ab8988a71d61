ghost use Rattle.std.specs.Prelude.{◌≡◌, ◌≢◌, ◌↔◌, [], ◌∷◌, length};
ghost use Rattle.uefi_base.specs.Buffer.{put_prefix};
ghost use Rattle.uefi_path.specs.Node.{encoding};
ghost use Rattle.uefi_node.specs.Messaging.{usb};
ghost use Rattle.uefi_c.specs.Nodes.{IsOfType, usb_node};
ghost use Rattle.uefi_c.specs.Path.{node_seen};
ghost use Rattle.uefi_c.specs.PathWrite.{IsNeeded};
ghost use Rattle.uefi_c.specs.Status.{buffer_too_small, IsOneOf, ok, other_data};

use crate::nodes::typed::{fields_of, write_parts};
use crate::path::UefiNode;
use crate::status::{self, UefiStatus};
use uefi_path::{DeviceSubType, DeviceType};

/// A USB device, by its port (UEFI 2.10, 10.3.4.5).
#[derive(Clone, Copy)]
#[repr(C)]
pub struct UefiUsbNode {
    /// The port of the hub.
    pub parent_port_number: u8,
    /// The interface of the device.
    pub interface_number: u8,
}

/// Reads the fields of the node of a USB device.
///
/// If it has another type or subtype, or its data have another length, the status is that the data
/// are another structure, and `out` stays as it was.
#[unsafe(no_mangle)]
pub extern "C" fn uefi_usb_node(node: &UefiNode<'_>, out: &mut UefiUsbNode) -> UefiStatus
    ensures known { IsOneOf result (ok ∷ other_data ∷ []) }
    ensures found { (result ≡ ok) ↔ IsOfType usb (node_seen node.now) }
    ensures fields { result ≡ ok → node_seen node.now ≡ usb_node out.new }
    ensures unchanged { result ≢ ok → out.new ≡ out.old }
{
    let node_data = node.data;
    let Some(fields) = fields_of::<2>(
        node,
        node_data,
        DeviceType::MESSAGING,
        DeviceSubType::MESSAGING_USB,
    ) else {
        return status::OTHER_DATA;
    };
    *out = UefiUsbNode {
        parent_port_number: fields[0],
        interface_number: fields[1],
    };
    status::OK
}

/// Writes the node of a USB device to the beginning of the buffer, and sets `size` to its
/// length; the bytes after it stay as they were.
///
/// If the buffer is too small, all bytes stay as they were, and `size` is the length that it needs.
#[unsafe(no_mangle)]
pub extern "C" fn uefi_write_usb_node(
    buffer: &mut [u8],
    node: &UefiUsbNode,
    size: &mut usize,
) -> UefiStatus
    ensures known { IsOneOf result (ok ∷ buffer_too_small ∷ []) }
    ensures written { result ≡ ok
        → buffer.new ≡ put_prefix (encoding (usb_node node.now)) buffer.old }
    ensures size { IsNeeded (length (encoding (usb_node node.now))) (length buffer.old)
        size.new result }
    ensures unchanged { result ≢ ok → buffer.new ≡ buffer.old }
{
    let fields = [node.parent_port_number, node.interface_number];
    let (status, length) = write_parts(
        buffer,
        DeviceType::MESSAGING,
        DeviceSubType::MESSAGING_USB,
        &fields,
        &[],
    );
    *size = length;
    status
}
