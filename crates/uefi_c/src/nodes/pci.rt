ghost use Rattle.std.specs.Prelude.{◌≡◌, ◌≢◌, ◌↔◌, [], ◌∷◌, length};
ghost use Rattle.uefi_base.specs.Buffer.{put_prefix};
ghost use Rattle.uefi_path.specs.Node.{encoding};
ghost use Rattle.uefi_node.specs.Hardware.{pci};
ghost use Rattle.uefi_c.specs.Nodes.{IsOfType, pci_node};
ghost use Rattle.uefi_c.specs.Path.{node_seen};
ghost use Rattle.uefi_c.specs.PathWrite.{IsNeeded};
ghost use Rattle.uefi_c.specs.Status.{buffer_too_small, IsOneOf, ok, other_data};

use crate::nodes::typed::{fields_of, write_parts};
use crate::path::UefiNode;
use crate::status::{self, UefiStatus};
use uefi_path::{DeviceSubType, DeviceType};

/// A PCI function (UEFI 2.10, 10.3.2.1).
#[derive(Clone, Copy)]
#[repr(C)]
pub struct UefiPciNode {
    /// The function.
    pub function: u8,
    /// The device.
    pub device: u8,
}

/// Reads the fields of the node of a PCI function.
///
/// If it has another type or subtype, or its data have another length, the status is that the data
/// are another structure, and `out` stays as it was.
#[unsafe(no_mangle)]
pub extern "C" fn uefi_pci_node(node: &UefiNode<'_>, out: &mut UefiPciNode) -> UefiStatus
    ensures known { IsOneOf result (ok ∷ other_data ∷ []) }
    ensures found { (result ≡ ok) ↔ IsOfType pci (node_seen node.now) }
    ensures fields { result ≡ ok → node_seen node.now ≡ pci_node out.new }
    ensures unchanged { result ≢ ok → out.new ≡ out.old }
{
    let node_data = node.data;
    let Some(fields) = fields_of::<2>(
        node,
        node_data,
        DeviceType::HARDWARE,
        DeviceSubType::HARDWARE_PCI,
    ) else {
        return status::OTHER_DATA;
    };
    *out = UefiPciNode {
        function: fields[0],
        device: fields[1],
    };
    status::OK
}

/// Writes the node of a PCI function to the beginning of the buffer, and sets `size` to its
/// length; the bytes after it stay as they were.
///
/// If the buffer is too small, all bytes stay as they were, and `size` is the length that it needs.
#[unsafe(no_mangle)]
pub extern "C" fn uefi_write_pci_node(
    buffer: &mut [u8],
    node: &UefiPciNode,
    size: &mut usize,
) -> UefiStatus
    ensures known { IsOneOf result (ok ∷ buffer_too_small ∷ []) }
    ensures written { result ≡ ok
        → buffer.new ≡ put_prefix (encoding (pci_node node.now)) buffer.old }
    ensures size { IsNeeded (length (encoding (pci_node node.now))) (length buffer.old)
        size.new result }
    ensures unchanged { result ≢ ok → buffer.new ≡ buffer.old }
{
    let fields = [node.function, node.device];
    let (status, length) = write_parts(
        buffer,
        DeviceType::HARDWARE,
        DeviceSubType::HARDWARE_PCI,
        &fields,
        &[],
    );
    *size = length;
    status
}
