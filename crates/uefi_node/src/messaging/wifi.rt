ghost use Rattle.uefi_path.specs.Views.{node_of};
ghost use Rattle.uefi_node.specs.Layout.{IsValue, node_as};
ghost use Rattle.uefi_node.specs.Reading.{ReadsAs};
ghost use Rattle.uefi_node.specs.Messaging.{wifi};

use crate::error::NodeConversionError;
use crate::read::{NodeKind, NodeValue, RestKind, bytes_at, read_node};
use crate::write::{Tail, joined, write_node};
use uefi_path::build::{BuildError, BuildNode};
use uefi_path::{DevicePathNode, DeviceSubType, DeviceType};

/// A wireless network (UEFI 2.10, 10.3.4.27).
///
/// | offset | bytes | field |
/// |---|---|---|
/// | 4 | 32 | `ssid` |
///
/// Offsets are from the start of the node.
#[derive(Clone, Copy, PartialEq, Eq, Debug)]
pub struct Wifi {
    /// The SSID, with zeros after it.
    pub ssid: [u8; 32],
}

/// The type of the nodes, and how long their data are.
const KIND: NodeKind = NodeKind {
    full_type: (DeviceType::MESSAGING, DeviceSubType::MESSAGING_WIFI),
    size: 32,
    rest: RestKind::Nothing,
};

impl<'a> TryFrom<DevicePathNode<'a>> for Wifi {
    type Error = NodeConversionError;

    ghost try_from_gives = { λ node read. ReadsAs wifi (node_of node) read };

    fn try_from(node: DevicePathNode<'a>) -> Result<Wifi, NodeConversionError> {
        read_node(&node, KIND)
    }
}

impl<'a> NodeValue<'a> for Wifi {
    ghost layout = { wifi };

    fn from_data(data: &'a [u8]) -> Option<Wifi> {
        Some(Wifi {
            ssid: bytes_at(data, 0),
        })
    }
}

impl BuildNode for Wifi {
    ghost node = { node_as wifi };

    ghost is_valid = { IsValue wifi };

    fn full_type(&self) -> (DeviceType, DeviceSubType) {
        KIND.full_type
    }

    fn write(&self, buffer: &mut [u8]) -> Result<usize, BuildError> {
        let fields = joined::<32>(&[&self.ssid]);
        write_node(buffer, KIND, self, &fields, Tail::Bytes(&[]))
    }
}
