//! Texts of paths and nodes, and paths of texts (UEFI 2.10, 10.6).

ghost use Rattle.std.specs.Prelude.{◌≡◌, ◌≢◌, ◌↔◌, ◌⊎◌, ◌++◌, ◌==◌, List, [], ◌∷◌, length, not, bit_and, IsUtf8};
ghost use Rattle.uefi_base.specs.Buffer.{put_prefix};
ghost use Rattle.uefi_base.specs.Prefix.{IsPrefix};
ghost use Rattle.uefi_path.specs.Node.{Node, Fits, encoding, HasNode};
ghost use Rattle.uefi_path.specs.Path.{HasPath};
ghost use Rattle.uefi_path_text.specs.parse.Errors.{IsWrongAt, WritesText};
ghost use Rattle.uefi_c.specs.Faults.{IsNodeFault};
ghost use Rattle.uefi_c.specs.Path.{BeginsWithPath};
ghost use Rattle.uefi_c.specs.PathText.{NeedsMore, allow_shortcuts_flag, display_only_flag, has_flag, text_faults, text_of_node, text_of_path};
ghost use Rattle.uefi_c.specs.PathWrite.{IsNeeded};
ghost use Rattle.uefi_c.specs.Status.{IsOneOf, buffer_too_small, cut, no_end, no_path, not_text, ok, short_node, too_long};

use crate::node_fault::node_fault;
use crate::status::{self, UefiStatus};
use crate::text_writer::put_text;
use uefi_path::{DevicePath, DevicePathNode};
use uefi_path_text::{
    AllowShortcuts, DisplayOnly, FromTextError, node_to_text, to_text, write_from_text,
};

/// The flag of a text for display alone.
const DISPLAY_ONLY: u32 = 1;

/// The flag of a text in which nodes of some vendors have forms of their own.
const ALLOW_SHORTCUTS: u32 = 2;

/// Writes the text of the path that `path` begins with to the beginning of the buffer, in UTF-8 and
/// without a NUL, and sets `size` to its length. The bytes after it stay as they were.
///
/// Of the flags, 1 is for a text for display alone, which may lack parts of nodes, and 2 for forms
/// of some vendors' nodes such as `VenVt100()`; the other bits mean nothing.
///
/// If the buffer is too small, or `path` begins with no path, all bytes stay as they were, and `size`
/// is the length that the buffer needs, or 0. A text whose length is no `usize` is too long.
#[unsafe(no_mangle)]
pub extern "C" fn uefi_path_text(
    buffer: &mut [u8],
    path: &[u8],
    flags: u32,
    size: &mut usize,
) -> UefiStatus
    ensures known { IsOneOf result (ok ∷ buffer_too_small ∷ no_path ∷ too_long ∷ []) }
    ensures no_path { (result ≡ no_path) ↔ ¬ HasPath path.now }
    ensures written { result ≡ ok → (nodes : List Node) → BeginsWithPath path.now nodes
        → buffer.new ≡ put_prefix (text_of_path flags nodes) buffer.old }
    ensures size { (result ≡ ok) ⊎ (result ≡ buffer_too_small)
        → (nodes : List Node) → BeginsWithPath path.now nodes
        → IsNeeded (length (text_of_path flags nodes)) (length buffer.old) size.new result }
    ensures no_size { result ≢ ok → result ≢ buffer_too_small → size.new ≡ 0 }
    ensures unchanged { (result ≡ buffer_too_small) ⊎ (result ≡ no_path)
        → buffer.new ≡ buffer.old }
{
    let Ok(path) = DevicePath::try_from(path) else {
        *size = 0;
        return status::NO_PATH;
    };
    let text = to_text(path, display_only(flags), allow_shortcuts(flags));
    let (status, needed) = put_text(buffer, text);
    *size = needed;
    status
}

/// Writes the text of the node that `node` begins with to the beginning of the buffer, in UTF-8 and
/// without a NUL, and sets `size` to its length. The bytes after it stay as they were.
///
/// The flags, and what else it returns, are those of [`uefi_path_text`], but for the fault of the
/// node where there is none: the bytes end there, they cut it, or it states a length below 4.
#[unsafe(no_mangle)]
pub extern "C" fn uefi_node_text(
    buffer: &mut [u8],
    node: &[u8],
    flags: u32,
    size: &mut usize,
) -> UefiStatus
    ensures known { IsOneOf result
        (ok ∷ buffer_too_small ∷ no_end ∷ cut ∷ short_node ∷ too_long ∷ []) }
    ensures fault { IsOneOf result (no_end ∷ cut ∷ short_node ∷ []) → IsNodeFault node.now result }
    ensures none { ¬ HasNode node.now → IsOneOf result (no_end ∷ cut ∷ short_node ∷ []) }
    ensures written { result ≡ ok → (first : Node) → Fits first → IsPrefix (encoding first) node.now
        → buffer.new ≡ put_prefix (text_of_node flags first) buffer.old }
    ensures size { (result ≡ ok) ⊎ (result ≡ buffer_too_small)
        → (first : Node) → Fits first → IsPrefix (encoding first) node.now
        → IsNeeded (length (text_of_node flags first)) (length buffer.old) size.new result }
    ensures no_size { result ≢ ok → result ≢ buffer_too_small → size.new ≡ 0 }
    ensures unchanged { result ≢ ok → result ≢ too_long → buffer.new ≡ buffer.old }
{
    let Ok(node) = DevicePathNode::try_from(node) else {
        *size = 0;
        return node_fault(node);
    };
    let text = node_to_text(node, display_only(flags), allow_shortcuts(flags));
    let (status, needed) = put_text(buffer, text);
    *size = needed;
    status
}

/// Returns whether a text is for display alone.
fn display_only(flags: u32) -> DisplayOnly
    ensures { result.0 ≡ has_flag flags display_only_flag }
{
    DisplayOnly(flags & DISPLAY_ONLY != 0)
}

/// Returns whether nodes of some vendors have forms of their own.
fn allow_shortcuts(flags: u32) -> AllowShortcuts
    ensures { result.0 ≡ has_flag flags allow_shortcuts_flag }
{
    AllowShortcuts(flags & ALLOW_SHORTCUTS != 0)
}

/// Writes the path whose text `text` is to the beginning of the buffer, and sets `size` to its length.
/// The bytes after it stay as they were.
///
/// If it returns another status than success, all bytes stay as they were, and `size` is the length
/// that the buffer needs, or 0. Where the text is that of no path, `fault_at` is set to the offset
/// of the fault: no node has the name before it, the character there isn't expected, something is
/// missing there, or a node that begins there is too long. Else it stays as it was.
#[unsafe(no_mangle)]
pub extern "C" fn uefi_path_from_text(
    buffer: &mut [u8],
    text: &[u8],
    fault_at: &mut usize,
    size: &mut usize,
) -> UefiStatus
    ensures known { IsOneOf result (ok ∷ buffer_too_small ∷ not_text ∷ text_faults) }
    ensures not_text { (result ≡ not_text) ↔ ¬ IsUtf8 text.now }
    ensures written { result ≡ ok → WritesText text.now buffer.old buffer.new size.new }
    ensures too_small { result ≡ buffer_too_small
        → NeedsMore text.now (length buffer.old) size.new }
    ensures fault { IsOneOf result text_faults → IsWrongAt text.now fault_at.new }
    ensures no_size { result ≢ ok → result ≢ buffer_too_small → size.new ≡ 0 }
    ensures no_fault { ¬ IsOneOf result text_faults → fault_at.new ≡ fault_at.old }
    ensures unchanged { result ≢ ok → buffer.new ≡ buffer.old }
{
    *size = 0;
    let Ok(text) = str::from_utf8(text) else {
        return status::NOT_TEXT;
    };
    match write_from_text(buffer, text) {
        Ok(length) => {
            *size = length;
            status::OK
        }
        Err(FromTextError::Buffer(needed)) => {
            *size = needed;
            status::BUFFER_TOO_SMALL
        }
        Err(FromTextError::UnknownNode(offset)) => {
            *fault_at = offset;
            status::UNKNOWN_NODE
        }
        Err(FromTextError::Argument(offset)) => {
            *fault_at = offset;
            status::UNEXPECTED_CHARACTER
        }
        Err(FromTextError::Missing(offset)) => {
            *fault_at = offset;
            status::MISSING_TEXT
        }
        Err(FromTextError::TooLong(offset)) => {
            *fault_at = offset;
            status::TOO_LONG
        }
        Err(FromTextError::Memory) => unreachable!(),
    }
}
