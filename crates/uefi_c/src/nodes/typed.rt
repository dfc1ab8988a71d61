ghost use Rattle.std.specs.Prelude.{◌≡◌, ◌↔◌, ◌+◌, ◌≤◌, ◌++◌, length, slice_range, IsSome, IfSome, IfNone, IsTrue};
ghost use Rattle.std.specs.List.{flat_map};
ghost use Rattle.uefi_base.specs.Buffer.{put_prefix};
ghost use Rattle.uefi_base.specs.LittleEndian.{AreBytes};
ghost use Rattle.uefi_path.specs.Header.{header_length};
ghost use Rattle.uefi_c.specs.Path.{node_seen};
ghost use Rattle.uefi_c.specs.private.Nodes.{HasFields, HasNumbers, Writes};

use crate::path::UefiNode;
use crate::status::{self, UefiStatus};
use uefi_base::buffer::put;
use uefi_path::{DevicePathHeader, DeviceSubType, DeviceType};

/// The length of a node's header.
const HEADER_LENGTH: usize = 4;

/// The most bytes that a node has: its length has to fit two.
const MOST_BYTES: usize = 0xffff;

/// Returns whether the node has this type and subtype.
pub(crate) fn is_of(node: &UefiNode<'_>, device_type: DeviceType, sub_type: DeviceSubType) -> bool
    ensures { IsTrue result ↔ HasNumbers device_type.0 sub_type.0 (node_seen node.now) }
{
    node.device_type == device_type.0 && node.sub_type == sub_type.0
}

/// Returns the data of the node if it has this type and subtype, and data of `N` bytes.
pub(crate) fn fields_of<'a, const N: usize>(
    node: &UefiNode<'_>,
    node_data: &'a [u8],
    device_type: DeviceType,
    sub_type: DeviceSubType,
) -> Option<&'a [u8; N]>
    requires { node_data.now ≡ node.now.data.now }
    ensures fields { IfSome result (λ fields. fields.now ≡ node_data.now) }
    ensures bytes { IfSome result (λ fields. AreBytes fields.now) }
    ensures found { IsSome result ↔ HasFields device_type.0 sub_type.0 N (node_seen node.now) }
{
    if !is_of(node, device_type, sub_type) {
        return None;
    }
    let (fields, rest) = node_data.split_first_chunk()?;
    if !rest.is_empty() {
        return None;
    }
    Some(fields)
}

/// Returns the bytes at `offset`.
pub(crate) fn bytes_at<const N: usize>(bytes: &[u8], offset: usize) -> [u8; N]
    requires { offset + N ≤ length bytes.now }
    ensures { result ≡ slice_range bytes.now offset (offset + N) }
{
    let mut part = [0; N];
    part.copy_from_slice(&bytes[offset..offset + N]);
    part
}

/// Returns the bytes of the parts, one after another, which are `N` together.
pub(crate) fn joined<const N: usize>(parts: &[&[u8]]) -> [u8; N]
    requires { length (flat_map (λ part. part.now) parts.now) ≡ N }
    ensures { result ≡ flat_map (λ part. part.now) parts.now }
{
    let mut bytes = [0; N];
    let mut end = 0;
    for part in parts {
        put(&mut bytes, end, part);
        end += part.len();
    }
    bytes
}

/// Writes the node with this type and subtype, whose data are the fields and then the rest, to the
/// beginning of the buffer. Returns the status, and the length of the node that was written or that
/// the buffer needs, or 0 if the node would have more than 65535 bytes.
///
/// All bytes stay as they were unless the status is success.
pub(crate) fn write_parts(
    buffer: &mut [u8],
    device_type: DeviceType,
    sub_type: DeviceSubType,
    fields: &[u8],
    rest: &[u8],
) -> (UefiStatus, usize)
    ensures { Writes (record {
      device_type = device_type.0;
      sub_type = sub_type.0;
      payload = fields.now ++ rest.now;
    }) buffer.old buffer.new result.0 result.1 }
{
    let Some(length) = node_length(fields, rest) else {
        return (status::TOO_LONG, 0);
    };
    if buffer.len() < length {
        return (status::BUFFER_TOO_SMALL, length);
    }
    let header = DevicePathHeader::new(device_type, sub_type, length as u16);
    put_parts(buffer, header.to_bytes(), fields, rest);
    (status::OK, length)
}

/// Returns the length of a node with these data in bytes, or `None` if two bytes don't have it.
fn node_length(fields: &[u8], rest: &[u8]) -> Option<usize>
    ensures length { IfSome result
        (λ n. n ≡ header_length + (length fields.now + length rest.now)) }
    ensures fits { IsSome result
        ↔ (header_length + (length fields.now + length rest.now) ≤ 0xffff) }
{
    let room = MOST_BYTES - HEADER_LENGTH;
    if fields.len() > room || rest.len() > room - fields.len() {
        return None;
    }
    Some(HEADER_LENGTH + fields.len() + rest.len())
}

/// Puts a header and the data after it to the beginning of a buffer that has room for them.
#[tactic(auto, using(uefi_node::proofs::Parts::node_put))]
fn put_parts(buffer: &mut [u8], header: [u8; 4], fields: &[u8], rest: &[u8])
    requires { 4 + (length fields.now + length rest.now) ≤ length buffer.old }
    ensures { buffer.new ≡ put_prefix (header ++ (fields.now ++ rest.now)) buffer.old }
{
    put(buffer, 0, &header);
    put(buffer, HEADER_LENGTH, fields);
    put(buffer, HEADER_LENGTH + fields.len(), rest);
}
