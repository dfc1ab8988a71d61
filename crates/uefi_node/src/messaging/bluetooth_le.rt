ghost use Rattle.uefi_path.specs.Views.{node_of};
ghost use Rattle.uefi_node.specs.Layout.{IsValue, node_as};
ghost use Rattle.uefi_node.specs.Reading.{ReadsAs};
ghost use Rattle.uefi_node.specs.Messaging.{bluetooth_le};

use crate::error::NodeConversionError;
use crate::read::{NodeKind, NodeValue, RestKind, bytes_at, read_node};
use crate::write::{Tail, joined, write_node};
use uefi_path::build::{BuildError, BuildNode};
use uefi_path::{DevicePathNode, DeviceSubType, DeviceType};

/// A Bluetooth Low Energy device (UEFI 2.10, 10.3.4.29).
///
/// | offset | bytes | field |
/// |---|---|---|
/// | 4 | 6 | `device_address` |
/// | 10 | 1 | `address_type` |
///
/// Offsets are from the start of the node.
#[derive(Clone, Copy, PartialEq, Eq, Debug)]
pub struct BluetoothLe {
    /// The address of the device.
    pub device_address: [u8; 6],
    /// The type of the address.
    pub address_type: BluetoothLeAddressType,
}

/// The type of the nodes, and how long their data are.
const KIND: NodeKind = NodeKind {
    full_type: (DeviceType::MESSAGING, DeviceSubType::MESSAGING_BLUETOOTH_LE),
    size: 7,
    rest: RestKind::Nothing,
};

impl<'a> TryFrom<DevicePathNode<'a>> for BluetoothLe {
    type Error = NodeConversionError;

    ghost try_from_gives = { λ node read. ReadsAs bluetooth_le (node_of node) read };

    fn try_from(node: DevicePathNode<'a>) -> Result<BluetoothLe, NodeConversionError> {
        read_node(&node, KIND)
    }
}

impl<'a> NodeValue<'a> for BluetoothLe {
    ghost layout = { bluetooth_le };

    fn from_data(data: &'a [u8]) -> Option<BluetoothLe> {
        Some(BluetoothLe {
            device_address: bytes_at(data, 0),
            address_type: BluetoothLeAddressType(data[6]),
        })
    }
}

impl BuildNode for BluetoothLe {
    ghost node = { node_as bluetooth_le };

    ghost is_valid = { IsValue bluetooth_le };

    fn full_type(&self) -> (DeviceType, DeviceSubType) {
        KIND.full_type
    }

    fn write(&self, buffer: &mut [u8]) -> Result<usize, BuildError> {
        let fields = joined::<7>(&[&self.device_address, &self.address_type.0.to_le_bytes()]);
        write_node(buffer, KIND, self, &fields, Tail::Bytes(&[]))
    }
}

/// The type of a Bluetooth Low Energy address (UEFI 2.10, 10.3.4.29).
///
/// Numbers without a constant here are valid too.
#[derive(Clone, Copy, PartialEq, Eq, PartialOrd, Ord, Hash, Debug)]
#[repr(transparent)]
pub struct BluetoothLeAddressType(pub u8);

impl BluetoothLeAddressType {
    /// A public device address.
    pub const PUBLIC: BluetoothLeAddressType = BluetoothLeAddressType(0);

    /// A random device address.
    pub const RANDOM: BluetoothLeAddressType = BluetoothLeAddressType(1);
}
