ghost use Rattle.uefi_path.specs.Views.{node_of};
ghost use Rattle.uefi_node.specs.Layout.{IsValue, node_as};
ghost use Rattle.uefi_node.specs.Reading.{ReadsAs};
ghost use Rattle.uefi_node.specs.Messaging.{bluetooth};

use crate::error::NodeConversionError;
use crate::read::{NodeKind, NodeValue, RestKind, bytes_at, read_node};
use crate::write::{Tail, joined, write_node};
use uefi_path::build::{BuildError, BuildNode};
use uefi_path::{DevicePathNode, DeviceSubType, DeviceType};

/// A Bluetooth device (UEFI 2.10, 10.3.4.26).
///
/// | offset | bytes | field |
/// |---|---|---|
/// | 4 | 6 | `device_address` |
///
/// Offsets are from the start of the node.
#[derive(Clone, Copy, PartialEq, Eq, Debug)]
pub struct Bluetooth {
    /// The address of the device.
    pub device_address: [u8; 6],
}

/// The type of the nodes, and how long their data are.
const KIND: NodeKind = NodeKind {
    full_type: (DeviceType::MESSAGING, DeviceSubType::MESSAGING_BLUETOOTH),
    size: 6,
    rest: RestKind::Nothing,
};

impl<'a> TryFrom<DevicePathNode<'a>> for Bluetooth {
    type Error = NodeConversionError;

    ghost try_from_gives = { λ node read. ReadsAs bluetooth (node_of node) read };

    fn try_from(node: DevicePathNode<'a>) -> Result<Bluetooth, NodeConversionError> {
        read_node(&node, KIND)
    }
}

impl<'a> NodeValue<'a> for Bluetooth {
    ghost layout = { bluetooth };

    fn from_data(data: &'a [u8]) -> Option<Bluetooth> {
        Some(Bluetooth {
            device_address: bytes_at(data, 0),
        })
    }
}

impl BuildNode for Bluetooth {
    ghost node = { node_as bluetooth };

    ghost is_valid = { IsValue bluetooth };

    fn full_type(&self) -> (DeviceType, DeviceSubType) {
        KIND.full_type
    }

    fn write(&self, buffer: &mut [u8]) -> Result<usize, BuildError> {
        let fields = joined::<6>(&[&self.device_address]);
        write_node(buffer, KIND, self, &fields, Tail::Bytes(&[]))
    }
}
