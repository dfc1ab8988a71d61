ghost use Rattle.std.specs.Prelude.{◌≡◌, ◌≢◌, ◌↔◌, [], ◌∷◌, length};
ghost use Rattle.uefi_base.specs.Buffer.{put_prefix};
ghost use Rattle.uefi_path.specs.Node.{encoding};
ghost use Rattle.uefi_node.specs.Messaging.{ipv4};
ghost use Rattle.uefi_c.specs.Nodes.{IsOfType, ipv4_node};
ghost use Rattle.uefi_c.specs.Path.{node_seen};
ghost use Rattle.uefi_c.specs.PathWrite.{IsNeeded};
ghost use Rattle.uefi_c.specs.Status.{buffer_too_small, IsOneOf, ok, other_data};

use crate::nodes::typed::{bytes_at, fields_of, joined, write_parts};
use crate::path::UefiNode;
use crate::status::{self, UefiStatus};
use uefi_base::little_endian::u16_at;
use uefi_path::{DeviceSubType, DeviceType};

/// An IPv4 connection (UEFI 2.10, 10.3.4.12).
#[derive(Clone, Copy)]
#[repr(C)]
pub struct UefiIpv4Node {
    /// The local address.
    pub local_ip_address: [u8; 4],
    /// The remote address.
    pub remote_ip_address: [u8; 4],
    /// The local port.
    pub local_port: u16,
    /// The remote port.
    pub remote_port: u16,
    /// The network protocol, a number of RFC 3232.
    pub protocol: u16,
    /// Where the local address comes from: 0 for DHCP, 1 if it is set by hand.
    pub ip_address_origin: u8,
    /// The address of the gateway.
    pub gateway_ip_address: [u8; 4],
    /// The mask of the subnet.
    pub subnet_mask: [u8; 4],
}

/// Reads the fields of the node of an IPv4 connection.
///
/// If it has another type or subtype, or its data have another length, the status is that the data
/// are another structure, and `out` stays as it was.
#[unsafe(no_mangle)]
pub extern "C" fn uefi_ipv4_node(node: &UefiNode<'_>, out: &mut UefiIpv4Node) -> UefiStatus
    ensures known { IsOneOf result (ok ∷ other_data ∷ []) }
    ensures found { (result ≡ ok) ↔ IsOfType ipv4 (node_seen node.now) }
    ensures fields { result ≡ ok → node_seen node.now ≡ ipv4_node out.new }
    ensures unchanged { result ≢ ok → out.new ≡ out.old }
{
    let node_data = node.data;
    let Some(fields) = fields_of::<23>(
        node,
        node_data,
        DeviceType::MESSAGING,
        DeviceSubType::MESSAGING_IPV4,
    ) else {
        return status::OTHER_DATA;
    };
    *out = UefiIpv4Node {
        local_ip_address: bytes_at(fields, 0),
        remote_ip_address: bytes_at(fields, 4),
        local_port: u16_at(fields, 8),
        remote_port: u16_at(fields, 10),
        protocol: u16_at(fields, 12),
        ip_address_origin: fields[14],
        gateway_ip_address: bytes_at(fields, 15),
        subnet_mask: bytes_at(fields, 19),
    };
    status::OK
}

/// Writes the node of an IPv4 connection to the beginning of the buffer, and sets `size` to its
/// length; the bytes after it stay as they were.
///
/// If the buffer is too small, all bytes stay as they were, and `size` is the length that it needs.
#[unsafe(no_mangle)]
pub extern "C" fn uefi_write_ipv4_node(
    buffer: &mut [u8],
    node: &UefiIpv4Node,
    size: &mut usize,
) -> UefiStatus
    ensures known { IsOneOf result (ok ∷ buffer_too_small ∷ []) }
    ensures written { result ≡ ok
        → buffer.new ≡ put_prefix (encoding (ipv4_node node.now)) buffer.old }
    ensures size { IsNeeded (length (encoding (ipv4_node node.now))) (length buffer.old)
        size.new result }
    ensures unchanged { result ≢ ok → buffer.new ≡ buffer.old }
{
    let fields = joined::<23>(&[
        &node.local_ip_address,
        &node.remote_ip_address,
        &node.local_port.to_le_bytes(),
        &node.remote_port.to_le_bytes(),
        &node.protocol.to_le_bytes(),
        &node.ip_address_origin.to_le_bytes(),
        &node.gateway_ip_address,
        &node.subnet_mask,
    ]);
    let (status, length) = write_parts(
        buffer,
        DeviceType::MESSAGING,
        DeviceSubType::MESSAGING_IPV4,
        &fields,
        &[],
    );
    *size = length;
    status
}
