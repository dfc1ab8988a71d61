ghost use Rattle.std.specs.Prelude.{◌≡◌, ◌↔◌, List, [], ◌∷◌, ◌++◌, IsTrue, IfOk, OnErr};
ghost use Rattle.uefi_path.specs.Node.{Node, Fits, encoding, joined, HasNode};
ghost use Rattle.uefi_path.specs.Path.{all_but_last};
ghost use Rattle.uefi_path.specs.private.Stop.{Stops};
ghost use Rattle.uefi_path.specs.private.Encoding.{HasNodes, EncodesNodes, IsEncodingOfNodes};
ghost use Rattle.uefi_path.specs.Views.{node_of};

use crate::device_type::DeviceType;
use crate::error::ByteConversionError;
use crate::header::{HEADER_LENGTH, LENGTH_OFFSET};
use crate::node::DevicePathNode;
use uefi_base::little_endian::u16_at;

/// The node at which a walk over nodes stops.
#[derive(Clone, Copy)]
pub(crate) enum StopCondition {
    /// Any node of the type END, which ends an instance.
    AnyEndNode,
    /// The end-entire node, which ends the path.
    EndEntireNode,
}

impl StopCondition {
    /// Returns whether the walk stops at the node.
    pub(crate) fn stops_at(self, node: &DevicePathNode<'_>) -> bool
        ensures { IsTrue result ↔ Stops self (node_of node.now) }
    {
        match self {
            StopCondition::AnyEndNode => node.device_type() == DeviceType::END,
            StopCondition::EndEntireNode => node.is_end_entire(),
        }
    }
}

/// Returns the node that the bytes start with, and the bytes after it; or `InvalidLength` if no
/// prefix of the bytes is a node.
pub(crate) fn split_node(bytes: &[u8]) -> Result<(DevicePathNode<'_>, &[u8]), ByteConversionError>
    ensures fits { IfOk result (λ r. Fits (node_of r.0)) }
    ensures split { IfOk result (λ r. bytes.now ≡ encoding (node_of r.0) ++ r.1.now) }
    ensures none { OnErr result (¬ HasNode bytes.now) }
{
    if bytes.len() < HEADER_LENGTH {
        return Err(ByteConversionError::InvalidLength);
    }
    let length = usize::from(u16_at(bytes, LENGTH_OFFSET));
    if length < HEADER_LENGTH || bytes.len() < length {
        return Err(ByteConversionError::InvalidLength);
    }
    let (node, after) = bytes.split_at(length);
    Ok((DevicePathNode::new_unchecked(node), after))
}

/// Returns the node that the bytes are known to start with, and the bytes after it, without a test.
pub(crate) fn first_node(bytes: &[u8]) -> (DevicePathNode<'_>, &[u8])
    requires { HasNode bytes.now }
    ensures fits { Fits (node_of result.0) }
    ensures split { bytes.now ≡ encoding (node_of result.0) ++ result.1.now }
{
    let length = usize::from(u16_at(bytes, LENGTH_OFFSET));
    let (node, after) = bytes.split_at(length);
    (DevicePathNode::new_unchecked(node), after)
}

/// Returns the bytes of the nodes up to the first at which the walk stops, and those after them; or
/// `InvalidLength` if no prefix of the bytes is such nodes.
pub(crate) fn split_nodes(
    bytes: &[u8],
    stop: StopCondition,
) -> Result<(&[u8], &[u8]), ByteConversionError>
    ensures nodes { IfOk result (λ r. EncodesNodes (Stops stop) r.0.now) }
    ensures split { IfOk result (λ r. bytes.now ≡ r.0.now ++ r.1.now) }
    ensures none { OnErr result (¬ HasNodes (Stops stop) bytes.now) }
{
    let mut rest = bytes;
    loop {
        let (node, after) = split_node(rest)?;
        rest = after;
        if stop.stops_at(&node) {
            return bytes
                .split_at_checked(bytes.len() - rest.len())
                .ok_or(ByteConversionError::InvalidLength);
        }
    }
}

/// Returns the bytes of the nodes before the one at which the walk stops, of bytes that are known
/// to be such nodes.
pub(crate) fn nodes_before_end(bytes: &[u8], stop: StopCondition) -> &[u8]
    requires { EncodesNodes (Stops stop) bytes.now }
    ensures { (nodes : List Node) → IsEncodingOfNodes (Stops stop) bytes.now nodes
        → result.now ≡ joined (all_but_last nodes) }
{
    let mut rest = bytes;
    loop {
        let (node, after) = first_node(rest);
        if stop.stops_at(&node) {
            let (before, _) = bytes.split_at(bytes.len() - rest.len());
            return before;
        }
        rest = after;
    }
}

/// Returns the node at which the walk stops, of bytes that are known to be such nodes.
pub(crate) fn end_node(bytes: &[u8], stop: StopCondition) -> DevicePathNode<'_>
    requires { EncodesNodes (Stops stop) bytes.now }
    ensures { (nodes : List Node) → IsEncodingOfNodes (Stops stop) bytes.now nodes
        → nodes ≡ all_but_last nodes ++ (node_of result ∷ []) }
{
    let mut rest = bytes;
    loop {
        let (node, after) = first_node(rest);
        if stop.stops_at(&node) {
            return node;
        }
        rest = after;
    }
}
