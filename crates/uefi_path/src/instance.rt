ghost use Rattle.std.specs.Prelude.{◌≡◌, [], ◌∷◌, ◌++◌, ◌^◌, ◌<◌, length, IfOk, nat_eq};
ghost use Rattle.std.specs.Cmp.{partial_equiv_from_equiv, on_per, on_equiv};
ghost use Rattle.std.specs.Cmp.Lexicographic.{pointwise, nat_list_eq_equiv};
ghost use Rattle.uefi_path.specs.Node.{joined, IsEnd};
ghost use Rattle.uefi_path.specs.Path.{IsInstance, all_but_last};
ghost use Rattle.uefi_path.specs.private.Encoding.{IsEncodingOfNodes, EncodesInstance};
ghost use Rattle.uefi_path.specs.private.OnePath.{EncodesInstance-prop};

use crate::boxed::BoxedDevicePathInstance;
use crate::node::DevicePathNode;
use crate::node_iter::DevicePathNodeIterator;
use crate::walk::{StopCondition, end_node, nodes_before_end};
use std::alloc::{AllocError, Allocator};

/// One instance of a device path (UEFI 2.10, 10.2): nodes of which only the last has the type END.
///
/// Its bytes are the encodings of its nodes, in order. A view: it borrows the bytes of the path,
/// and what it returns lives as long as they do.
#[derive(Clone, Copy)]
pub struct DevicePathInstance<'a> {
    bytes: &'a [u8],
    pub ghost nodes: { EncodesInstance bytes.now } by { EncodesInstance-prop bytes.now },
}

#[tactic(auto, using(crate::specs::private::OnePath::same_nodes, crate::proofs::Counts::few_before_end))]
impl<'a> DevicePathInstance<'a> {
    ghost use Rattle.uefi_path.specs.Views.{node_of, instance_nodes, nodes_left, boxed_instance_nodes};

    /// Returns the instance that `bytes`, which are known to be an instance, encode.
    pub(crate) fn new_unchecked(bytes: &'a [u8]) -> DevicePathInstance<'a>
        requires { EncodesInstance bytes.now }
        ensures { IsEncodingOfNodes IsEnd bytes.now (instance_nodes result) }
    {
        DevicePathInstance { bytes }
    }

    /// Returns an iterator over the nodes before the one with the type END, in order.
    pub fn node_iter(&self) -> DevicePathNodeIterator<'a>
        ensures nodes { nodes_left result ≡ all_but_last (instance_nodes self.now) }
        ensures countable { length (nodes_left result) < 2 ^ 64 }
    {
        DevicePathNodeIterator::new(self.bytes, StopCondition::AnyEndNode)
    }

    /// Returns the bytes of the nodes before the one with the type END.
    pub(crate) fn nodes(&self) -> &'a [u8]
        ensures { result.now ≡ joined (all_but_last (instance_nodes self.now)) }
    {
        nodes_before_end(self.bytes, StopCondition::AnyEndNode)
    }

    /// Returns the node with the type END, which is the last.
    pub fn end_node(&self) -> DevicePathNode<'a>
        ensures { instance_nodes self.now ≡ all_but_last (instance_nodes self.now) ++ (node_of result ∷ []) }
    {
        end_node(self.bytes, StopCondition::AnyEndNode)
    }

    /// Copies the instance into an allocation of its own.
    ///
    /// # Errors
    ///
    /// [`AllocError`] if an allocation fails.
    pub fn to_boxed<A: Allocator>(&self, alloc: A) -> Result<BoxedDevicePathInstance<A>, AllocError>
        ensures { IfOk result (λ boxed. boxed_instance_nodes boxed ≡ instance_nodes self.now) }
    {
        let bytes = Vec::from_slice(alloc, self.bytes)?;
        Ok(BoxedDevicePathInstance::new_unchecked(bytes))
    }

    /// Returns all bytes of the instance, including those of its last node.
    pub fn as_bytes(&self) -> &'a [u8]
        ensures bytes { result.now ≡ joined (instance_nodes self.now) }
        ensures instance { IsInstance (instance_nodes self.now) }
    {
        self.bytes
    }
}

/// Two instances are equal if all their bytes are.
impl<'a> PartialEq for DevicePathInstance<'a> {
    ghost use Rattle.uefi_path.specs.Views.{instance_bytes};

    ghost eq = { λ x y. pointwise nat_eq (instance_bytes x) (instance_bytes y) };

    ghost laws = { on_per instance_bytes (partial_equiv_from_equiv nat_list_eq_equiv) };

    fn eq(&self, other: &Self) -> bool {
        self.as_bytes() == other.as_bytes()
    }
}

impl<'a> Eq for DevicePathInstance<'a> {
    ghost use Rattle.uefi_path.specs.Views.{instance_bytes};

    ghost laws = { on_equiv instance_bytes nat_list_eq_equiv };
}
