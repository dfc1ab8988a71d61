ghost use Rattle.std.specs.Prelude.{◌≡◌, ◌↔◌, ℕ, length, IsTrue};
ghost use Rattle.uefi_path.specs.Node.{Node, IsEndEntire};
ghost use Rattle.uefi_path.specs.build.Writing.{WritesNode};

use crate::build::error::BuildError;
use crate::device_type::{DeviceSubType, DeviceType};
use crate::node::DevicePathNode;
use uefi_base::buffer::put;

/// What can be put into a path: a node that was read, or a value of a type of nodes.
pub trait BuildNode {
    /// The node of the value.
    ghost node: { Self → Node };

    /// Some node has the value.
    ghost is_valid: { Self → Type 0 };

    /// Returns the type and the subtype of the node.
    fn full_type(&self) -> (DeviceType, DeviceSubType)
        ensures device_type { result.0.0 ≡ (node self.now).device_type }
        ensures sub_type { result.1.0 ≡ (node self.now).sub_type };

    /// Writes the node to the start of the buffer, and returns its length in bytes. The bytes after
    /// it stay.
    ///
    /// # Errors
    ///
    /// Fails with the first of these errors that applies, and leaves every byte of the buffer
    /// unchanged:
    ///
    /// - [`BuildError::Form`] if no node of its type has the value.
    /// - [`BuildError::NodeTooBig`] if the node is longer than 65535 bytes.
    /// - [`BuildError::BufferTooSmall`] with the length of the node if the buffer is shorter.
    fn write(&self, buffer: &mut [u8]) -> Result<usize, BuildError>
        ensures { WritesNode (is_valid self.now) (node self.now) buffer.old buffer.new result };
}

impl<'a> BuildNode for DevicePathNode<'a> {
    ghost use Rattle.uefi_path.specs.Views.{node_of};
    ghost use Rattle.uefi_path.specs.Node.{Fits};

    ghost node = { node_of };

    ghost is_valid = { λ view. Fits (node_of view) };

    fn full_type(&self) -> (DeviceType, DeviceSubType) {
        (self.device_type(), self.sub_type())
    }

    fn write(&self, buffer: &mut [u8]) -> Result<usize, BuildError> {
        let bytes = self.as_bytes();
        if buffer.len() < bytes.len() {
            return Err(BuildError::BufferTooSmall(bytes.len()));
        }
        put(buffer, 0, bytes);
        Ok(bytes.len())
    }
}

/// Returns whether the node is an end-entire node.
pub(crate) fn is_end_entire<N: BuildNode>(node: &N) -> bool
    ensures { IsTrue result ↔ IsEndEntire (N.node node.now) }
{
    node.full_type() == (DeviceType::END, DeviceSubType::END_ENTIRE)
}
