ghost use Rattle.uefi_path.specs.Views.{node_of};
ghost use Rattle.uefi_node.specs.Layout.{IsValue, node_as};
ghost use Rattle.uefi_node.specs.Reading.{ReadsAs};
ghost use Rattle.uefi_node.specs.End.{entire};

use crate::error::NodeConversionError;
use crate::read::{NodeKind, NodeValue, RestKind, read_node};
use crate::write::{Tail, write_node};
use uefi_path::build::{BuildError, BuildNode};
use uefi_path::{DevicePathNode, DeviceSubType, DeviceType};

/// The end of the whole path (UEFI 2.10, 10.3.1).
///
/// The node has no data.
#[derive(Clone, Copy, PartialEq, Eq, Debug)]
pub struct Entire;

/// The type of the nodes, and how long their data are.
const KIND: NodeKind = NodeKind {
    full_type: (DeviceType::END, DeviceSubType::END_ENTIRE),
    size: 0,
    rest: RestKind::Nothing,
};

impl<'a> TryFrom<DevicePathNode<'a>> for Entire {
    type Error = NodeConversionError;

    ghost try_from_gives = { λ node read. ReadsAs entire (node_of node) read };

    fn try_from(node: DevicePathNode<'a>) -> Result<Entire, NodeConversionError> {
        read_node(&node, KIND)
    }
}

impl<'a> NodeValue<'a> for Entire {
    ghost layout = { entire };

    fn from_data(_: &'a [u8]) -> Option<Entire> {
        Some(Entire)
    }
}

impl BuildNode for Entire {
    ghost node = { node_as entire };

    ghost is_valid = { IsValue entire };

    fn full_type(&self) -> (DeviceType, DeviceSubType) {
        KIND.full_type
    }

    fn write(&self, buffer: &mut [u8]) -> Result<usize, BuildError> {
        write_node(buffer, KIND, self, &[], Tail::Bytes(&[]))
    }
}
