ghost use Rattle.uefi_path.specs.Views.{node_of};
ghost use Rattle.uefi_node.specs.Layout.{IsValue, node_as};
ghost use Rattle.uefi_node.specs.Reading.{ReadsAs};
ghost use Rattle.uefi_node.specs.Media.{protocol};

use crate::error::NodeConversionError;
use crate::read::{NodeKind, NodeValue, RestKind, bytes_at, read_node};
use crate::write::{Tail, joined, write_node};
use uefi_base::Guid;
use uefi_path::build::{BuildError, BuildNode};
use uefi_path::{DevicePathNode, DeviceSubType, DeviceType};

/// A protocol of a medium (UEFI 2.10, 10.3.5.5).
///
/// | offset | bytes | field |
/// |---|---|---|
/// | 4 | 16 | `protocol_guid` |
///
/// Offsets are from the start of the node.
#[derive(Clone, Copy, PartialEq, Eq, Debug)]
pub struct Protocol {
    /// The GUID of the protocol.
    pub protocol_guid: Guid,
}

/// The type of the nodes, and how long their data are.
const KIND: NodeKind = NodeKind {
    full_type: (DeviceType::MEDIA, DeviceSubType::MEDIA_PROTOCOL),
    size: 16,
    rest: RestKind::Nothing,
};

impl<'a> TryFrom<DevicePathNode<'a>> for Protocol {
    type Error = NodeConversionError;

    ghost try_from_gives = { λ node read. ReadsAs protocol (node_of node) read };

    fn try_from(node: DevicePathNode<'a>) -> Result<Protocol, NodeConversionError> {
        read_node(&node, KIND)
    }
}

impl<'a> NodeValue<'a> for Protocol {
    ghost layout = { protocol };

    fn from_data(data: &'a [u8]) -> Option<Protocol> {
        Some(Protocol {
            protocol_guid: Guid(bytes_at(data, 0)),
        })
    }
}

impl BuildNode for Protocol {
    ghost node = { node_as protocol };

    ghost is_valid = { IsValue protocol };

    fn full_type(&self) -> (DeviceType, DeviceSubType) {
        KIND.full_type
    }

    fn write(&self, buffer: &mut [u8]) -> Result<usize, BuildError> {
        let fields = joined::<16>(&[&self.protocol_guid.to_bytes()]);
        write_node(buffer, KIND, self, &fields, Tail::Bytes(&[]))
    }
}
