ghost use Rattle.std.specs.Prelude.{◌≡◌, ◌≢◌, ◌⊎◌, ◌↔◌, [], ◌∷◌, ◌<◌, length, IsTrue};
ghost use Rattle.uefi_base.specs.Buffer.{put_prefix};
ghost use Rattle.uefi_path.specs.Node.{encoding};
ghost use Rattle.uefi_path.specs.build.Writing.{greatest_length};
ghost use Rattle.uefi_node.specs.Media.{file_path};
ghost use Rattle.uefi_c.specs.Nodes.{IsOfType, file_path_node, file_path_of};
ghost use Rattle.uefi_c.specs.Path.{node_seen};
ghost use Rattle.uefi_c.specs.PathWrite.{IsNeeded};
ghost use Rattle.uefi_c.specs.Status.{buffer_too_small, IsOneOf, ok, other_data, too_long};

use crate::nodes::typed::{is_of, write_parts};
use crate::path::UefiNode;
use crate::status::{self, UefiStatus};
use uefi_base::UnalignedSlice;
use uefi_path::{DeviceSubType, DeviceType};

/// The path of a file (UEFI 2.10, 10.3.5.4).
#[derive(Clone, Copy)]
#[repr(C)]
pub struct UefiFilePathNode<'a> {
    /// The bytes of the path: any units of two bytes, little-endian, also without a NUL.
    pub path_name: &'a [u8],
}

/// Reads the path of a file that the data of a node are.
///
/// If the node has another type or subtype, or data of an odd length, the status is that the data
/// are another structure, and `out` stays as it was.
#[unsafe(no_mangle)]
pub extern "C" fn uefi_file_path_node<'a>(
    node: &UefiNode<'a>,
    out: &mut UefiFilePathNode<'a>,
) -> UefiStatus
    ensures known { IsOneOf result (ok ∷ other_data ∷ []) }
    ensures found { (result ≡ ok) ↔ IsOfType file_path (node_seen node.now) }
    ensures fields { result ≡ ok → node_seen node.now ≡ file_path_node out.new }
    ensures unchanged { result ≢ ok → out.new ≡ out.old }
{
    let node_data = node.data;
    if !is_of(node, DeviceType::MEDIA, DeviceSubType::MEDIA_FILE_PATH) || !are_units(node_data) {
        return status::OTHER_DATA;
    }
    *out = UefiFilePathNode {
        path_name: node_data,
    };
    status::OK
}

/// Writes the node of the path of a file to the beginning of the buffer, and sets `size` to its
/// length; the bytes after it stay as they were.
///
/// If it returns another status than success, all bytes stay as they were, and `size` is the length
/// that the buffer needs, or 0 if the path has an odd length, or the node would have more than
/// 65535 bytes.
#[unsafe(no_mangle)]
pub extern "C" fn uefi_write_file_path_node(
    buffer: &mut [u8],
    node: &UefiFilePathNode<'_>,
    size: &mut usize,
) -> UefiStatus
    ensures known { IsOneOf result (ok ∷ buffer_too_small ∷ too_long ∷ other_data ∷ []) }
    ensures other_data { (result ≡ other_data)
        ↔ ¬ IsOfType file_path (file_path_node node.now) }
    ensures too_long { (result ≡ too_long) ↔ IsOfType file_path (file_path_node node.now)
        × (greatest_length < length (encoding (file_path_node node.now))) }
    ensures written { result ≡ ok
        → buffer.new ≡ put_prefix (encoding (file_path_node node.now)) buffer.old }
    ensures size { (result ≡ ok) ⊎ (result ≡ buffer_too_small)
        → IsNeeded (length (encoding (file_path_node node.now))) (length buffer.old)
        size.new result }
    ensures no_size { (result ≡ other_data) ⊎ (result ≡ too_long) → size.new ≡ 0 }
    ensures unchanged { result ≢ ok → buffer.new ≡ buffer.old }
{
    let name = node.path_name;
    if !are_units(name) {
        *size = 0;
        return status::OTHER_DATA;
    }
    let (status, length) = write_parts(
        buffer,
        DeviceType::MEDIA,
        DeviceSubType::MEDIA_FILE_PATH,
        &[],
        name,
    );
    *size = length;
    status
}

/// Returns whether the bytes are those of units of two bytes.
fn are_units(bytes: &[u8]) -> bool
    ensures { IsTrue result ↔ IsOfType file_path (file_path_of bytes.now) }
{
    UnalignedSlice::try_new(bytes).is_some()
}
