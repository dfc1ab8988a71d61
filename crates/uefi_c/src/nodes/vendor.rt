ghost use Rattle.std.specs.Prelude.{◌≡◌, ◌≢◌, ◌⊎◌, ◌↔◌, ◌<◌, [], ◌∷◌, length, IsTrue, Some, None};
ghost use Rattle.std.specs.Option.{option_map};
ghost use Rattle.uefi_base.specs.Buffer.{put_prefix};
ghost use Rattle.uefi_path.specs.Node.{Node, encoding};
ghost use Rattle.uefi_path.specs.build.Writing.{greatest_length};
ghost use Rattle.uefi_c.specs.Nodes.{IsVendorNode, vendor_node};
ghost use Rattle.uefi_c.specs.Path.{node_seen};
ghost use Rattle.uefi_c.specs.PathWrite.{IsNeeded};
ghost use Rattle.uefi_c.specs.private.Nodes.{vendor_sub_type};
ghost use Rattle.uefi_c.specs.Status.{buffer_too_small, IsOneOf, ok, other_data, too_long};

use crate::nodes::typed::write_parts;
use crate::path::UefiNode;
use crate::status::{self, UefiStatus};
use uefi_path::{DeviceSubType, DeviceType};

/// What a vendor describes: a device (UEFI 2.10, 10.3.2.4), a connection (10.3.4.17) or a medium
/// (10.3.5.3), by its type.
#[derive(Clone, Copy)]
#[repr(C)]
pub struct UefiVendorNode<'a> {
    /// The data of the vendor, which may be none.
    pub vendor_defined_data: &'a [u8],
    /// The GUID that says what the data are.
    pub vendor_guid: [u8; 16],
    /// The type: 1 for a device, 3 for a connection, 4 for a medium.
    pub device_type: u8,
}

/// Reads the fields of the node of what a vendor describes.
///
/// If it has another type or subtype, or fewer than 16 bytes of data, the status is that the data
/// are another structure, and `out` stays as it was.
#[unsafe(no_mangle)]
pub extern "C" fn uefi_vendor_node<'a>(
    node: &UefiNode<'a>,
    out: &mut UefiVendorNode<'a>,
) -> UefiStatus
    ensures known { IsOneOf result (ok ∷ other_data ∷ []) }
    ensures found { (result ≡ ok) ↔ IsVendorNode (node_seen node.now) }
    ensures fields { result ≡ ok → vendor_node out.new ≡ Some (node_seen node.now) }
    ensures unchanged { result ≢ ok → out.new ≡ out.old }
{
    let node_data = node.data;
    if !is_vendor(node) {
        return status::OTHER_DATA;
    }
    let Some((vendor_guid, vendor_defined_data)) = node_data.split_first_chunk() else {
        return status::OTHER_DATA;
    };
    *out = UefiVendorNode {
        vendor_defined_data,
        vendor_guid: *vendor_guid,
        device_type: node.device_type,
    };
    status::OK
}

/// Writes the node of what a vendor describes to the beginning of the buffer, and sets `size` to
/// its length; the bytes after it stay as they were.
///
/// If it returns another status than success, all bytes stay as they were, and `size` is the length
/// that the buffer needs, or 0 if the type is none of the three, or the node would have more than
/// 65535 bytes.
#[unsafe(no_mangle)]
pub extern "C" fn uefi_write_vendor_node(
    buffer: &mut [u8],
    node: &UefiVendorNode<'_>,
    size: &mut usize,
) -> UefiStatus
    ensures known { IsOneOf result (ok ∷ buffer_too_small ∷ too_long ∷ other_data ∷ []) }
    ensures other_data { (result ≡ other_data) ↔ (vendor_node node.now ≡ None) }
    ensures too_long { (result ≡ too_long) ↔ (vendor : Node) × (vendor_node node.now ≡ Some vendor)
        × (greatest_length < length (encoding vendor)) }
    ensures written { result ≡ ok → (vendor : Node) → vendor_node node.now ≡ Some vendor
        → buffer.new ≡ put_prefix (encoding vendor) buffer.old }
    ensures size { (result ≡ ok) ⊎ (result ≡ buffer_too_small)
        → (vendor : Node) → vendor_node node.now ≡ Some vendor
        → IsNeeded (length (encoding vendor)) (length buffer.old) size.new result }
    ensures no_size { (result ≡ other_data) ⊎ (result ≡ too_long) → size.new ≡ 0 }
    ensures unchanged { result ≢ ok → buffer.new ≡ buffer.old }
{
    let Some(sub_type) = vendor_sub_type(node.device_type) else {
        *size = 0;
        return status::OTHER_DATA;
    };
    let vendor_defined_data = node.vendor_defined_data;
    let (status, length) = write_parts(
        buffer,
        DeviceType(node.device_type),
        sub_type,
        &node.vendor_guid,
        vendor_defined_data,
    );
    *size = length;
    status
}

/// Returns whether the node has the subtype that vendors describe by its type.
fn is_vendor(node: &UefiNode<'_>) -> bool
    ensures { IsTrue result ↔ (vendor_sub_type node.now.device_type ≡ Some node.now.sub_type) }
{
    match vendor_sub_type(node.device_type) {
        Some(sub_type) => sub_type.0 == node.sub_type,
        None => false,
    }
}

/// Returns the subtype of the nodes of this type that vendors describe, or `None` if it has none.
fn vendor_sub_type(device_type: u8) -> Option<DeviceSubType>
    ensures { option_map (λ sub_type. sub_type.0) result ≡ vendor_sub_type device_type }
{
    if device_type == DeviceType::HARDWARE.0 {
        return Some(DeviceSubType::HARDWARE_VENDOR);
    }
    if device_type == DeviceType::MESSAGING.0 {
        return Some(DeviceSubType::MESSAGING_VENDOR);
    }
    if device_type == DeviceType::MEDIA.0 {
        return Some(DeviceSubType::MEDIA_VENDOR);
    }
    None
}
