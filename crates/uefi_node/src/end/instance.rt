ghost use Rattle.uefi_path.specs.Views.{node_of};
ghost use Rattle.uefi_node.specs.Layout.{IsValue, node_as};
ghost use Rattle.uefi_node.specs.Reading.{ReadsAs};
ghost use Rattle.uefi_node.specs.End.{instance};

use crate::error::NodeConversionError;
use crate::read::{NodeKind, NodeValue, RestKind, read_node};
use crate::write::{Tail, write_node};
use uefi_path::build::{BuildError, BuildNode};
use uefi_path::{DevicePathNode, DeviceSubType, DeviceType};

/// The end of an instance: another one follows (UEFI 2.10, 10.3.1).
///
/// The node has no data.
#[derive(Clone, Copy, PartialEq, Eq, Debug)]
pub struct Instance;

/// The type of the nodes, and how long their data are.
const KIND: NodeKind = NodeKind {
    full_type: (DeviceType::END, DeviceSubType::END_INSTANCE),
    size: 0,
    rest: RestKind::Nothing,
};

impl<'a> TryFrom<DevicePathNode<'a>> for Instance {
    type Error = NodeConversionError;

    ghost try_from_gives = { λ node read. ReadsAs instance (node_of node) read };

    fn try_from(node: DevicePathNode<'a>) -> Result<Instance, NodeConversionError> {
        read_node(&node, KIND)
    }
}

impl<'a> NodeValue<'a> for Instance {
    ghost layout = { instance };

    fn from_data(_: &'a [u8]) -> Option<Instance> {
        Some(Instance)
    }
}

impl BuildNode for Instance {
    ghost node = { node_as instance };

    ghost is_valid = { IsValue instance };

    fn full_type(&self) -> (DeviceType, DeviceSubType) {
        KIND.full_type
    }

    fn write(&self, buffer: &mut [u8]) -> Result<usize, BuildError> {
        write_node(buffer, KIND, self, &[], Tail::Bytes(&[]))
    }
}
