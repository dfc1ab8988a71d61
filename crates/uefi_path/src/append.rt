ghost use Rattle.std.specs.Prelude.{◌≡◌, [], ◌∷◌, ◌++◌, IfOk, IfErr, OnOk};
ghost use Rattle.std.specs.List.{flat_map};
ghost use Rattle.uefi_path.specs.Node.{encoding, IsEndEntire, end_entire, end_instance};
ghost use Rattle.uefi_path.specs.Path.{all_but_last};
ghost use Rattle.uefi_path.specs.build.Appending.{HasAppendingFault};
ghost use Rattle.uefi_path.specs.Views.{node_of, path_nodes, instance_nodes, boxed_nodes};

use crate::boxed::BoxedDevicePath;
use crate::build::BuildError;
use crate::device_type::{DeviceSubType, DeviceType};
use crate::header::{DevicePathHeader, HEADER_LENGTH};
use crate::instance::DevicePathInstance;
use crate::node::DevicePathNode;
use crate::path::DevicePath;
use std::alloc::{AllocError, Allocator};

impl<'a> DevicePath<'a> {
    /// Returns the path with the nodes of this one before its end-entire node, and then those of
    /// the other one (UEFI 2.10, 10.5.2 `AppendDevicePath`).
    ///
    /// # Errors
    ///
    /// [`AllocError`] if an allocation fails.
    pub fn append_path<A: Allocator>(
        &self,
        alloc: A,
        other: &DevicePath<'_>,
    ) -> Result<BoxedDevicePath<A>, AllocError>
        ensures { IfOk result (λ boxed. boxed_nodes boxed
            ≡ all_but_last (path_nodes self.now) ++ path_nodes other.now) }
    {
        let bytes = concat(alloc, &[self.nodes(), other.as_bytes()])?;
        Ok(BoxedDevicePath::new_unchecked(bytes))
    }

    /// Returns the path with the nodes of this one before its end-entire node, and then the node
    /// (UEFI 2.10, 10.5.2 `AppendDeviceNode`). Its own end-entire node has no data.
    ///
    /// # Errors
    ///
    /// Fails with the first of these errors that applies:
    ///
    /// - [`BuildError::EndEntire`] if the node is an end-entire node.
    /// - [`BuildError::Memory`] if an allocation fails.
    pub fn append_node<A: Allocator>(
        &self,
        alloc: A,
        node: &DevicePathNode<'_>,
    ) -> Result<BoxedDevicePath<A>, BuildError>
        ensures accepted { OnOk result (¬ IsEndEntire (node_of node.now)) }
        ensures appended { IfOk result (λ boxed. boxed_nodes boxed
            ≡ all_but_last (path_nodes self.now) ++ node_of node.now ∷ end_entire ∷ []) }
        ensures refused { IfErr result (HasAppendingFault (node_of node.now)) }
    {
        if node.is_end_entire() {
            return Err(BuildError::EndEntire);
        }
        let bytes = concat(alloc, &[self.nodes(), node.as_bytes(), &end_entire_bytes()])?;
        Ok(BoxedDevicePath::new_unchecked(bytes))
    }

    /// Returns the path with the instances of this one, and then the instance (UEFI 2.10, 10.5.2
    /// `AppendDevicePathInstance`). The node between them ends the instance before it, and the
    /// end-entire node ends the path: both have no data.
    ///
    /// # Errors
    ///
    /// [`AllocError`] if an allocation fails.
    pub fn append_instance<A: Allocator>(
        &self,
        alloc: A,
        instance: &DevicePathInstance<'_>,
    ) -> Result<BoxedDevicePath<A>, AllocError>
        ensures { IfOk result (λ boxed. boxed_nodes boxed
            ≡ all_but_last (path_nodes self.now) ++ end_instance
            ∷ all_but_last (instance_nodes instance.now) ++ end_entire ∷ []) }
    {
        let bytes = concat(
            alloc,
            &[
                self.nodes(),
                &end_instance_bytes(),
                instance.nodes(),
                &end_entire_bytes(),
            ],
        )?;
        Ok(BoxedDevicePath::new_unchecked(bytes))
    }
}

/// Returns the bytes of the end-entire node without data.
pub(crate) fn end_entire_bytes() -> [u8; HEADER_LENGTH]
    ensures { result ≡ encoding end_entire }
{
    DevicePathHeader::new(DeviceType::END, DeviceSubType::END_ENTIRE, 4).to_bytes()
}

/// Returns the bytes of the node without data that ends an instance before another one.
fn end_instance_bytes() -> [u8; HEADER_LENGTH]
    ensures { result ≡ encoding end_instance }
{
    DevicePathHeader::new(DeviceType::END, DeviceSubType::END_INSTANCE, 4).to_bytes()
}

/// Returns a copy of the parts, one after another.
fn concat<A: Allocator>(alloc: A, parts: &[&[u8]]) -> Result<Vec<u8, A>, AllocError>
    ensures { IfOk result (λ bytes. bytes.items ≡ flat_map (λ part. part.now) parts.now) }
{
    let mut bytes = Vec::new(alloc);
    for part in parts {
        bytes.extend_from_slice(part)?;
    }
    Ok(bytes)
}
