ghost use Rattle.uefi_path.specs.Views.{node_of};
ghost use Rattle.uefi_node.specs.Layout.{IsValue, node_as};
ghost use Rattle.uefi_node.specs.Reading.{ReadsAs};
ghost use Rattle.uefi_node.specs.Messaging.{uri};

use crate::error::NodeConversionError;
use crate::read::{NodeKind, NodeValue, RestKind, read_node};
use crate::write::{Tail, write_node};
use uefi_path::build::{BuildError, BuildNode};
use uefi_path::{DevicePathNode, DeviceSubType, DeviceType};

/// A URI (UEFI 2.10, 10.3.4.23).
///
/// | offset | bytes | field |
/// |---|---|---|
/// | 4 | the rest | `value` |
///
/// Offsets are from the start of the node.
#[derive(Clone, Copy, PartialEq, Eq, Debug)]
pub struct Uri<'a> {
    /// The URI (RFC 3986). It may be empty.
    pub value: &'a [u8],
}

/// The type of the nodes, and how long their data are.
const KIND: NodeKind = NodeKind {
    full_type: (DeviceType::MESSAGING, DeviceSubType::MESSAGING_URI),
    size: 0,
    rest: RestKind::Bytes,
};

impl<'a> TryFrom<DevicePathNode<'a>> for Uri<'a> {
    type Error = NodeConversionError;

    ghost try_from_gives = { λ node read. ReadsAs uri (node_of node) read };

    fn try_from(node: DevicePathNode<'a>) -> Result<Uri<'a>, NodeConversionError> {
        read_node(&node, KIND)
    }
}

impl<'a> NodeValue<'a> for Uri<'a> {
    ghost layout = { uri };

    fn from_data(data: &'a [u8]) -> Option<Uri<'a>> {
        Some(Uri { value: data })
    }
}

impl BuildNode for Uri<'_> {
    ghost node = { node_as uri };

    ghost is_valid = { IsValue uri };

    fn full_type(&self) -> (DeviceType, DeviceSubType) {
        KIND.full_type
    }

    fn write(&self, buffer: &mut [u8]) -> Result<usize, BuildError> {
        write_node(buffer, KIND, self, &[], Tail::Bytes(self.value))
    }
}
