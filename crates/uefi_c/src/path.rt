ghost use Rattle.std.specs.Prelude.{◌≡◌, ◌++◌, ◌↔◌, ◌+◌, ◌≤◌, List, ℕ, drop, length, IsTrue, IfSome, IfNone, ◌≢◌, [], ◌∷◌, IfOk, IfErr, IsErr};
ghost use Rattle.uefi_base.specs.Prefix.{IsPrefix};
ghost use Rattle.uefi_path.specs.Node.{Node, Fits, encoding, joined, HasNode, IsEnd};
ghost use Rattle.uefi_path.specs.Path.{IsPath, HasPath};
ghost use Rattle.uefi_path.specs.private.Encoding.{EncodesInstance};
ghost use Rattle.uefi_path.specs.Views.{node_of};
ghost use Rattle.uefi_c.specs.Faults.{HasLastNode, IsNodeFault, MeetsNodeFault, MeetsPathFault};
ghost use Rattle.uefi_c.specs.Path.{BeginsWithPath, HasInstance, node_seen, IsNextNode, IsNextInstance, EndsWalk};
ghost use Rattle.uefi_c.specs.Status.{ended, IsOneOf, no_path, ok};

use crate::cursor::bytes_from;
use crate::node_fault::node_fault;
use crate::status::{self, UefiStatus};
use uefi_path::{DevicePath, DevicePathNode, DeviceType};

/// A node of a device path.
#[derive(Clone, Copy)]
#[repr(C)]
pub struct UefiNode<'a> {
    /// The bytes after the four of the node's header.
    pub data: &'a [u8],
    /// The type.
    pub device_type: u8,
    /// The subtype.
    pub sub_type: u8,
}

/// Finds the path that the bytes begin with: the one prefix that is a path.
#[unsafe(no_mangle)]
pub extern "C" fn uefi_path<'a>(bytes: &'a [u8], path: &mut &'a [u8]) -> UefiStatus
    ensures found { (result ≡ ok) ↔ HasPath bytes.now }
    ensures known { IsOneOf result (ok ∷ no_path ∷ []) }
    ensures path { result ≡ ok → (nodes : List Node) → IsPath nodes
        → IsPrefix (joined nodes) bytes.now → path.new.now ≡ joined nodes }
    ensures unchanged { result ≢ ok → path.new ≡ path.old }
{
    let Ok(found) = DevicePath::try_from(bytes) else {
        return status::NO_PATH;
    };
    *path = found.as_bytes();
    status::OK
}

/// Finds where bytes stop being a path: sets the offset to that of the first node that can't be read,
/// and returns why. If they begin with a path it returns success, and the offset is the path's end.
#[unsafe(no_mangle)]
pub extern "C" fn uefi_path_fault(path: &[u8], offset: &mut usize) -> UefiStatus
    ensures found { (result ≡ ok) ↔ HasPath path.now }
    ensures end { result ≡ ok → (nodes : List Node) → BeginsWithPath path.now nodes
        → offset.new ≡ length (joined nodes) }
    ensures fault { result ≢ ok → MeetsPathFault path.now offset.new result }
{
    let mut rest = path;
    loop {
        let Some((node, after)) = split_node(rest) else {
            *offset = path.len() - rest.len();
            return node_fault(rest);
        };
        rest = after;
        if node.is_end_entire() {
            *offset = path.len() - rest.len();
            return status::OK;
        }
    }
}

/// Returns whether both begin with the same path.
#[unsafe(no_mangle)]
pub extern "C" fn uefi_path_equal(path: &[u8], other: &[u8]) -> bool
    ensures { IsTrue result
        ↔ (nodes : List Node) × BeginsWithPath path.now nodes × BeginsWithPath other.now nodes }
{
    match (DevicePath::try_from(path), DevicePath::try_from(other)) {
        (Ok(path), Ok(other)) => path == other,
        _ => false,
    }
}

/// Reads the node at the offset, unless it ends the walk, and moves the offset to its end.
///
/// An end-entire node ends the walk, and a node of type END after which the bytes end. Without a node
/// it returns why: the bytes end there, they cut it, or it states a length below 4.
#[unsafe(no_mangle)]
pub extern "C" fn uefi_path_next_node<'a>(
    path: &'a [u8],
    offset: &mut usize,
    out: &mut UefiNode<'a>,
) -> UefiStatus
    ensures node { result ≡ ok → IsNextNode path.now offset.old (node_seen out.new) offset.new }
    ensures ended { result ≡ ended → HasLastNode path.now offset.old }
    ensures fault { result ≢ ok → result ≢ ended
        → IsNodeFault (drop offset.old path.now) result }
    ensures none { result ≢ ok
        → (node : Node) (end : ℕ) → IsNextNode path.now offset.old node end → ⊥ }
    ensures offset_unchanged { result ≢ ok → offset.new ≡ offset.old }
    ensures out_unchanged { result ≢ ok → out.new ≡ out.old }
{
    let Some(rest) = bytes_from(path, *offset) else {
        return status::NO_END;
    };
    let Some((node, after)) = split_node(rest) else {
        return node_fault(rest);
    };
    if ends_walk(&node, after.is_empty()) {
        return status::END;
    }
    *out = UefiNode {
        data: node.data(),
        device_type: node.device_type().0,
        sub_type: node.sub_type().0,
    };
    *offset = path.len() - after.len();
    status::OK
}

/// Returns whether the node ends the walk, by whether the bytes end after it.
fn ends_walk(node: &DevicePathNode<'_>, is_at_end: bool) -> bool
    ensures { IsTrue result ↔ EndsWalk (node_of node.now) (IsTrue is_at_end) }
{
    if !is_end(node) {
        return false;
    }
    is_at_end || node.is_end_entire()
}

/// Returns whether the node has the type END.
fn is_end(node: &DevicePathNode<'_>) -> bool
    ensures { IsTrue result ↔ IsEnd (node_of node.now) }
{
    node.device_type() == DeviceType::END
}

/// Finds the instance at the offset, and moves the offset to its end. Without one it returns why: the
/// bytes end there, or the fault of the first node that isn't there.
#[unsafe(no_mangle)]
pub extern "C" fn uefi_path_next_instance<'a>(
    path: &'a [u8],
    offset: &mut usize,
    instance: &mut &'a [u8],
) -> UefiStatus
    ensures instance { result ≡ ok
        → IsNextInstance path.now offset.old instance.new.now offset.new }
    ensures ended { (result ≡ ended) ↔ (length path.now ≤ offset.old) }
    ensures fault { result ≢ ok → result ≢ ended
        → MeetsNodeFault (drop offset.old path.now) result }
    ensures none { result ≢ ok → ¬ HasInstance (drop offset.old path.now) }
    ensures offset_unchanged { result ≢ ok → offset.new ≡ offset.old }
    ensures out_unchanged { result ≢ ok → instance.new ≡ instance.old }
{
    if *offset >= path.len() {
        return status::END;
    }
    let (_, rest) = path.split_at(*offset);
    match first_instance(rest) {
        Ok(found) => {
            *offset += found.len();
            *instance = found;
            status::OK
        }
        Err(fault) => fault,
    }
}

/// Returns the instance that the bytes begin with: the nodes up to the first of type END.
///
/// # Errors
///
/// The fault of the first node that isn't there.
fn first_instance(bytes: &[u8]) -> Result<&[u8], UefiStatus>
    ensures instance { IfOk result (λ found. EncodesInstance found.now) }
    ensures prefix { IfOk result (λ found. IsPrefix found.now bytes.now) }
    ensures none { IsErr result → ¬ HasInstance bytes.now }
    ensures fault { IfErr result (MeetsNodeFault bytes.now) }
{
    let mut rest = bytes;
    loop {
        let Some((node, after)) = split_node(rest) else {
            return Err(node_fault(rest));
        };
        rest = after;
        if is_end(&node) {
            let (found, _) = bytes.split_at(bytes.len() - rest.len());
            return Ok(found);
        }
    }
}

/// Returns the node that the bytes begin with, and the bytes after it.
fn split_node(bytes: &[u8]) -> Option<(DevicePathNode<'_>, &[u8])>
    ensures fits { IfSome result (λ split. Fits (node_of split.0)) }
    ensures split { IfSome result
        (λ split. bytes.now ≡ encoding (node_of split.0) ++ split.1.now) }
    ensures none { IfNone result (¬ HasNode bytes.now) }
{
    let node = DevicePathNode::try_from(bytes).ok()?;
    let (_, after) = bytes.split_at(node.as_bytes().len());
    Some((node, after))
}
