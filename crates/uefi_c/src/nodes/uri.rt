ghost use Rattle.std.specs.Prelude.{◌≡◌, ◌≢◌, ◌⊎◌, ◌↔◌, [], ◌∷◌, ◌<◌, length};
ghost use Rattle.uefi_base.specs.Buffer.{put_prefix};
ghost use Rattle.uefi_path.specs.Node.{encoding};
ghost use Rattle.uefi_path.specs.build.Writing.{greatest_length};
ghost use Rattle.uefi_node.specs.Messaging.{uri};
ghost use Rattle.uefi_c.specs.Nodes.{IsOfType, uri_node};
ghost use Rattle.uefi_c.specs.Path.{node_seen};
ghost use Rattle.uefi_c.specs.PathWrite.{IsNeeded};
ghost use Rattle.uefi_c.specs.Status.{buffer_too_small, IsOneOf, ok, other_data, too_long};

use crate::nodes::typed::{is_of, write_parts};
use crate::path::UefiNode;
use crate::status::{self, UefiStatus};
use uefi_path::{DeviceSubType, DeviceType};

/// A URI (UEFI 2.10, 10.3.4.23).
#[derive(Clone, Copy)]
#[repr(C)]
pub struct UefiUriNode<'a> {
    /// The URI (RFC 3986). It may be any bytes, also none.
    pub uri: &'a [u8],
}

/// Reads the URI that the data of a node are.
///
/// If the node has another type or subtype, the status is that the data are another structure, and
/// `out` stays as it was.
#[unsafe(no_mangle)]
pub extern "C" fn uefi_uri_node<'a>(node: &UefiNode<'a>, out: &mut UefiUriNode<'a>) -> UefiStatus
    ensures known { IsOneOf result (ok ∷ other_data ∷ []) }
    ensures found { (result ≡ ok) ↔ IsOfType uri (node_seen node.now) }
    ensures fields { result ≡ ok → node_seen node.now ≡ uri_node out.new }
    ensures unchanged { result ≢ ok → out.new ≡ out.old }
{
    if !is_of(node, DeviceType::MESSAGING, DeviceSubType::MESSAGING_URI) {
        return status::OTHER_DATA;
    }
    *out = UefiUriNode { uri: node.data };
    status::OK
}

/// Writes the node of a URI to the beginning of the buffer, and sets `size` to its length; the
/// bytes after it stay as they were.
///
/// If it returns another status than success, all bytes stay as they were, and `size` is the length
/// that the buffer needs, or 0 if the node would have more than 65535 bytes.
#[unsafe(no_mangle)]
pub extern "C" fn uefi_write_uri_node(
    buffer: &mut [u8],
    node: &UefiUriNode<'_>,
    size: &mut usize,
) -> UefiStatus
    ensures known { IsOneOf result (ok ∷ buffer_too_small ∷ too_long ∷ []) }
    ensures too_long { (result ≡ too_long)
        ↔ (greatest_length < length (encoding (uri_node node.now))) }
    ensures written { result ≡ ok
        → buffer.new ≡ put_prefix (encoding (uri_node node.now)) buffer.old }
    ensures size { (result ≡ ok) ⊎ (result ≡ buffer_too_small)
        → IsNeeded (length (encoding (uri_node node.now))) (length buffer.old) size.new result }
    ensures no_size { result ≡ too_long → size.new ≡ 0 }
    ensures unchanged { result ≢ ok → buffer.new ≡ buffer.old }
{
    let uri = node.uri;
    let (status, length) = write_parts(
        buffer,
        DeviceType::MESSAGING,
        DeviceSubType::MESSAGING_URI,
        &[],
        uri,
    );
    *size = length;
    status
}
