ghost use Rattle.std.specs.Prelude.{◌≡◌, ◌≤◌, ◌∷◌, ◌++◌, [], length, IfOk, IfErr, OnOk, OnErr};
ghost use Rattle.uefi_path.specs.Node.{Fits, encoding, IsEndEntire, end_entire};
ghost use Rattle.uefi_path.specs.build.Pushing.{HasVectorFault, CanBePushed};
ghost use Rattle.uefi_path.specs.private.NodeFault.{HasNodeFault};
ghost use Rattle.uefi_path.specs.build.Writing.{greatest_length};
ghost use Rattle.uefi_path.specs.private.Encoding.{EncodesBefore};
ghost use Rattle.uefi_path.specs.private.OnePath.{EncodesBefore-prop};

use crate::append::end_entire_bytes;
use crate::boxed::BoxedDevicePath;
use crate::build::error::BuildError;
use crate::build::node::{BuildNode, is_end_entire};
use std::alloc::{Allocator, Global};

/// A path that is built in a vector, node by node (UEFI 2.10, 10.2). It grows as nodes are pushed.
#[derive(Drop)]
pub struct DevicePathVecBuilder<A: Allocator = Global> {
    bytes: Vec<u8, A>,
    pub ghost nodes: { EncodesBefore bytes.items } by { EncodesBefore-prop bytes.items },
}

impl<A: Allocator> DevicePathVecBuilder<A> {
    ghost use Rattle.uefi_path.specs.Views.{boxed_nodes};
    ghost use Rattle.uefi_path.specs.build.Views.{vec_built_nodes};

    /// Returns a builder without a node. This takes no memory.
    pub fn new(alloc: A) -> DevicePathVecBuilder<A>
        ensures { vec_built_nodes result ≡ [] }
    {
        DevicePathVecBuilder {
            bytes: Vec::new(alloc),
        }
    }

    /// Appends the node to those that were pushed before, and returns the builder.
    ///
    /// # Errors
    ///
    /// Fails with the first of these errors that applies:
    ///
    /// - [`BuildError::EndEntire`] if the node is an end-entire node.
    /// - [`BuildError::Form`] if no node of its type has the value.
    /// - [`BuildError::NodeTooBig`] if the node is longer than 65535 bytes.
    /// - [`BuildError::Memory`] if an allocation fails.
    ///
    /// The builder is gone then. [`DevicePathVecBuilder::push_node`] keeps it.
    pub fn push<N: BuildNode>(mut self, node: &N) -> Result<DevicePathVecBuilder<A>, BuildError>
        ensures valid { OnOk result (N.is_valid node.now × Fits (N.node node.now)) }
        ensures accepted { OnOk result (¬ IsEndEntire (N.node node.now)) }
        ensures nodes { IfOk result (λ builder. vec_built_nodes builder
            ≡ vec_built_nodes self ++ N.node node.now ∷ []) }
        ensures refused { IfErr result (HasVectorFault (N.is_valid node.now) (N.node node.now)) }
    {
        self.push_node(node)?;
        Ok(self)
    }

    /// Appends the node to those that were pushed before.
    ///
    /// # Errors
    ///
    /// The errors of [`DevicePathVecBuilder::push`]. The nodes of the builder are then unchanged.
    pub fn push_node<N: BuildNode>(&mut self, node: &N) -> Result<(), BuildError>
        ensures valid { OnOk result (N.is_valid node.now × Fits (N.node node.now)) }
        ensures accepted { OnOk result (¬ IsEndEntire (N.node node.now)) }
        ensures nodes { OnOk result (vec_built_nodes self.new
            ≡ vec_built_nodes self.old ++ N.node node.now ∷ []) }
        ensures refused { IfErr result (HasVectorFault (N.is_valid node.now) (N.node node.now)) }
        ensures same_nodes { OnErr result (vec_built_nodes self.new ≡ vec_built_nodes self.old) }
    {
        append_node(&mut self.bytes, node)?;
        Ok(())
    }

    /// Appends the end-entire node to the nodes that were pushed, and returns the path.
    ///
    /// # Errors
    ///
    /// [`BuildError::Memory`] if an allocation fails.
    pub fn finalize(self) -> Result<BoxedDevicePath<A>, BuildError>
        ensures nodes { IfOk result (λ boxed. boxed_nodes boxed
            ≡ vec_built_nodes self ++ end_entire ∷ []) }
        ensures memory { IfErr result (λ error. error ≡ BuildError.Memory) }
    {
        let DevicePathVecBuilder { mut bytes } = self;
        bytes.extend_from_slice(&end_entire_bytes())?;
        Ok(BoxedDevicePath::new_unchecked(bytes))
    }
}

/// Appends the bytes of the node.
fn append_node<N: BuildNode, A: Allocator>(
    bytes: &mut Vec<u8, A>,
    node: &N,
) -> Result<(), BuildError>
    ensures valid { OnOk result (N.is_valid node.now × Fits (N.node node.now)) }
    ensures accepted { OnOk result (¬ IsEndEntire (N.node node.now)) }
    ensures appended { OnOk result (bytes.new.items ≡ bytes.old.items ++ encoding (N.node node.now)) }
    ensures refused { IfErr result (HasVectorFault (N.is_valid node.now) (N.node node.now)) }
    ensures unchanged { OnErr result (bytes.new.items ≡ bytes.old.items) }
{
    if is_end_entire(node) {
        return Err(BuildError::EndEntire);
    }
    let size = size_of(node)?;
    let offset = bytes.len();
    bytes.resize(offset + size, 0)?;
    node.write(&mut bytes[offset..])?;
    Ok(())
}

/// Returns the length of the node in bytes.
fn size_of<N: BuildNode>(node: &N) -> Result<usize, BuildError>
    ensures size { IfOk result (λ size. size ≡ length (encoding (N.node node.now))) }
    ensures short { IfOk result (λ size. size ≤ greatest_length) }
    ensures valid { OnOk result (N.is_valid node.now) }
    ensures fault { IfErr result (HasNodeFault (N.is_valid node.now) (N.node node.now)) }
{
    match node.write(&mut []) {
        Err(BuildError::BufferTooSmall(size)) => Ok(size),
        other => other,
    }
}
