ghost use Rattle.std.specs.Prelude.{◌≡◌, ◌≢◌, ◌↔◌, ◌⊎◌, ◌+◌, ◌≤◌, List, [], ◌∷◌, length, IsTrue, IsSome, IfSome};
ghost use Rattle.uefi_base.specs.Buffer.{put_at, put_prefix};
ghost use Rattle.uefi_path.specs.Node.{Node, encoding, joined, IsEndEntire, end_entire};
ghost use Rattle.uefi_path.specs.Header.{header_length};
ghost use Rattle.uefi_path.specs.Path.{HasPath};
ghost use Rattle.uefi_c.specs.Path.{BeginsWithPath, node_seen};
ghost use Rattle.uefi_c.specs.PathWrite.{FitsLength, IsNeeded, with_node, with_path};
ghost use Rattle.uefi_c.specs.Status.{buffer_too_small, ends_path, IsOneOf, no_path, ok, too_long};

use crate::path::UefiNode;
use crate::status::{self, UefiStatus};
use uefi_base::buffer::put;
use uefi_path::{DevicePath, DevicePathHeader, DeviceSubType, DeviceType};

/// The length of a node's header.
const HEADER_LENGTH: usize = 4;

/// The most bytes that a node has: its length has to fit two.
const MOST_BYTES: usize = 0xffff;

/// Writes a node to the beginning of the buffer, and sets `size` to its length; the bytes after it
/// stay as they were.
///
/// If it returns another status than success, all bytes stay as they were, and `size` is the length
/// that the buffer needs, or 0 if the node would have more than 65535 bytes.
#[unsafe(no_mangle)]
pub extern "C" fn uefi_write_node(
    buffer: &mut [u8],
    node: &UefiNode<'_>,
    size: &mut usize,
) -> UefiStatus
    ensures known { IsOneOf result (ok ∷ buffer_too_small ∷ too_long ∷ []) }
    ensures too_long { (result ≡ too_long) ↔ ¬ FitsLength node.now }
    ensures written { result ≡ ok
        → buffer.new ≡ put_prefix (encoding (node_seen node.now)) buffer.old }
    ensures size { FitsLength node.now
        → IsNeeded (length (encoding (node_seen node.now))) (length buffer.old) size.new result }
    ensures no_size { result ≡ too_long → size.new ≡ 0 }
    ensures unchanged { result ≢ ok → buffer.new ≡ buffer.old }
{
    *size = 0;
    let node_data = node.data;
    let Some(length) = node_length(node_data) else {
        return status::TOO_LONG;
    };
    *size = length;
    if buffer.len() < length {
        return status::BUFFER_TOO_SMALL;
    }
    put_node(buffer, 0, node, node_data);
    status::OK
}

/// Writes the path that `path` begins with to the beginning of the buffer, with the node before its
/// end (UEFI 2.10, 10.5.2 `AppendDeviceNode`), and sets `size` to the length of all. Its end-entire
/// node has no data.
///
/// If it returns another status than success, all bytes stay as they were, and `size` is the length
/// that the buffer needs, or 0 if `path` begins with no path, or the node is an end-entire node or
/// would have more than 65535 bytes.
#[unsafe(no_mangle)]
pub extern "C" fn uefi_path_append_node(
    buffer: &mut [u8],
    path: &[u8],
    node: &UefiNode<'_>,
    size: &mut usize,
) -> UefiStatus
    ensures known { IsOneOf result
        (ok ∷ buffer_too_small ∷ no_path ∷ ends_path ∷ too_long ∷ []) }
    ensures no_path { (result ≡ no_path) ↔ ¬ HasPath path.now }
    ensures ends_path { (result ≡ ends_path)
        ↔ HasPath path.now × IsEndEntire (node_seen node.now) }
    ensures too_long { (result ≡ too_long)
        ↔ HasPath path.now × ¬ IsEndEntire (node_seen node.now) × ¬ FitsLength node.now }
    ensures accepted { (result ≡ ok) ⊎ (result ≡ buffer_too_small)
        → FitsLength node.now × ¬ IsEndEntire (node_seen node.now) }
    ensures written { result ≡ ok → (nodes : List Node) → BeginsWithPath path.now nodes
        → buffer.new ≡ put_prefix (joined (with_node nodes (node_seen node.now))) buffer.old }
    ensures size { (result ≡ ok) ⊎ (result ≡ buffer_too_small)
        → (nodes : List Node) → BeginsWithPath path.now nodes
        → IsNeeded (length (joined (with_node nodes (node_seen node.now)))) (length buffer.old)
        size.new result }
    ensures no_size { result ≢ ok → result ≢ buffer_too_small → size.new ≡ 0 }
    ensures unchanged { result ≢ ok → buffer.new ≡ buffer.old }
{
    *size = 0;
    let Ok(path) = DevicePath::try_from(path) else {
        return status::NO_PATH;
    };
    if is_end_entire(node) {
        return status::ENDS_PATH;
    }
    let node_data = node.data;
    let Some(length) = node_length(node_data) else {
        return status::TOO_LONG;
    };
    let nodes = path.nodes();
    let end = nodes.len() + length;
    let needed = end + HEADER_LENGTH;
    *size = needed;
    if buffer.len() < needed {
        return status::BUFFER_TOO_SMALL;
    }
    put(buffer, 0, nodes);
    put_node(buffer, nodes.len(), node, node_data);
    put_end(buffer, end);
    status::OK
}

/// Writes the path that `path` begins with to the beginning of the buffer, with the nodes of the path
/// that `other` begins with in the place of its end (UEFI 2.10, 10.5.2 `AppendDevicePath`), and sets
/// `size` to the length of all.
///
/// If it returns another status than success, all bytes stay as they were, and `size` is the length
/// that the buffer needs, or 0 if one of the two begins with no path.
#[unsafe(no_mangle)]
pub extern "C" fn uefi_path_append(
    buffer: &mut [u8],
    path: &[u8],
    other: &[u8],
    size: &mut usize,
) -> UefiStatus
    ensures known { IsOneOf result (ok ∷ buffer_too_small ∷ no_path ∷ []) }
    ensures no_path { (result ≡ no_path) ↔ ¬ (HasPath path.now × HasPath other.now) }
    ensures written { result ≡ ok → (nodes others : List Node) → BeginsWithPath path.now nodes
        → BeginsWithPath other.now others
        → buffer.new ≡ put_prefix (joined (with_path nodes others)) buffer.old }
    ensures size { (nodes others : List Node) → BeginsWithPath path.now nodes
        → BeginsWithPath other.now others
        → IsNeeded (length (joined (with_path nodes others))) (length buffer.old) size.new result }
    ensures no_size { result ≡ no_path → size.new ≡ 0 }
    ensures unchanged { result ≢ ok → buffer.new ≡ buffer.old }
{
    *size = 0;
    let Ok(path) = DevicePath::try_from(path) else {
        return status::NO_PATH;
    };
    let Ok(other) = DevicePath::try_from(other) else {
        return status::NO_PATH;
    };
    let (nodes, others) = (path.nodes(), other.as_bytes());
    let needed = nodes.len() + others.len();
    *size = needed;
    if buffer.len() < needed {
        return status::BUFFER_TOO_SMALL;
    }
    put(buffer, 0, nodes);
    put(buffer, nodes.len(), others);
    status::OK
}

/// Returns the length of a node with these data in bytes, or `None` if two bytes don't have it.
fn node_length(node_data: &[u8]) -> Option<usize>
    ensures length { IfSome result (λ n. n ≡ header_length + length node_data.now) }
    ensures fits { IsSome result ↔ (header_length + length node_data.now ≤ 0xffff) }
{
    let length = HEADER_LENGTH.checked_add(node_data.len())?;
    if length > MOST_BYTES {
        return None;
    }
    Some(length)
}

/// Writes a node, which has these data, at the offset.
fn put_node(buffer: &mut [u8], offset: usize, node: &UefiNode<'_>, node_data: &[u8])
    requires bytes { node_data.now ≡ node.now.data.now }
    requires fits { FitsLength node.now }
    requires room { offset + length (encoding (node_seen node.now)) ≤ length buffer.old }
    ensures { buffer.new ≡ put_at offset (encoding (node_seen node.now)) buffer.old }
{
    let (device_type, sub_type) = (DeviceType(node.device_type), DeviceSubType(node.sub_type));
    let length = HEADER_LENGTH + node_data.len();
    put(
        buffer,
        offset,
        &DevicePathHeader::new(device_type, sub_type, length as u16).to_bytes(),
    );
    put(buffer, offset + HEADER_LENGTH, node_data);
}

/// Writes the end-entire node without data at the offset.
fn put_end(buffer: &mut [u8], offset: usize)
    requires { offset + length (encoding end_entire) ≤ length buffer.old }
    ensures { buffer.new ≡ put_at offset (encoding end_entire) buffer.old }
{
    let end = DevicePathHeader::new(DeviceType::END, DeviceSubType::END_ENTIRE, 4);
    put(buffer, offset, &end.to_bytes());
}

/// Returns whether the node is an end-entire node.
fn is_end_entire(node: &UefiNode<'_>) -> bool
    ensures { IsTrue result ↔ IsEndEntire (node_seen node.now) }
{
    node.device_type == DeviceType::END.0 && node.sub_type == DeviceSubType::END_ENTIRE.0
}
