ghost use Rattle.uefi_path.specs.Views.{node_of};
ghost use Rattle.uefi_node.specs.Layout.{IsValue, node_as};
ghost use Rattle.uefi_node.specs.Reading.{ReadsAs};
ghost use Rattle.uefi_node.specs.Messaging.{mac_address};

use crate::error::NodeConversionError;
use crate::read::{NodeKind, NodeValue, RestKind, bytes_at, read_node};
use crate::write::{Tail, joined, write_node};
use uefi_path::build::{BuildError, BuildNode};
use uefi_path::{DevicePathNode, DeviceSubType, DeviceType};

/// The address of a network interface (UEFI 2.10, 10.3.4.11).
///
/// | offset | bytes | field |
/// |---|---|---|
/// | 4 | 32 | `mac_address` |
/// | 36 | 1 | `interface_type` |
///
/// Offsets are from the start of the node.
#[derive(Clone, Copy, PartialEq, Eq, Debug)]
pub struct MacAddress {
    /// The address, with zeros after it.
    pub mac_address: [u8; 32],
    /// The type of the interface, a number of RFC 3232.
    pub interface_type: u8,
}

/// The type of the nodes, and how long their data are.
const KIND: NodeKind = NodeKind {
    full_type: (DeviceType::MESSAGING, DeviceSubType::MESSAGING_MAC_ADDRESS),
    size: 33,
    rest: RestKind::Nothing,
};

impl<'a> TryFrom<DevicePathNode<'a>> for MacAddress {
    type Error = NodeConversionError;

    ghost try_from_gives = { λ node read. ReadsAs mac_address (node_of node) read };

    fn try_from(node: DevicePathNode<'a>) -> Result<MacAddress, NodeConversionError> {
        read_node(&node, KIND)
    }
}

impl<'a> NodeValue<'a> for MacAddress {
    ghost layout = { mac_address };

    fn from_data(data: &'a [u8]) -> Option<MacAddress> {
        Some(MacAddress {
            mac_address: bytes_at(data, 0),
            interface_type: data[32],
        })
    }
}

impl BuildNode for MacAddress {
    ghost node = { node_as mac_address };

    ghost is_valid = { IsValue mac_address };

    fn full_type(&self) -> (DeviceType, DeviceSubType) {
        KIND.full_type
    }

    fn write(&self, buffer: &mut [u8]) -> Result<usize, BuildError> {
        let fields = joined::<33>(&[&self.mac_address, &self.interface_type.to_le_bytes()]);
        write_node(buffer, KIND, self, &fields, Tail::Bytes(&[]))
    }
}
