ghost use Rattle.uefi_path.specs.Views.{node_of};
ghost use Rattle.uefi_node.specs.Layout.{IsValue, node_as};
ghost use Rattle.uefi_node.specs.Reading.{ReadsAs};
ghost use Rattle.uefi_node.specs.Hardware.{pci};

use crate::error::NodeConversionError;
use crate::read::{NodeKind, NodeValue, RestKind, read_node};
use crate::write::{Tail, joined, write_node};
use uefi_path::build::{BuildError, BuildNode};
use uefi_path::{DevicePathNode, DeviceSubType, DeviceType};

/// A PCI function (UEFI 2.10, 10.3.2.1).
///
/// | offset | bytes | field |
/// |---|---|---|
/// | 4 | 1 | `function` |
/// | 5 | 1 | `device` |
///
/// Offsets are from the start of the node.
#[derive(Clone, Copy, PartialEq, Eq, Debug)]
pub struct Pci {
    /// The function.
    pub function: u8,
    /// The device.
    pub device: u8,
}

/// The type of the nodes, and how long their data are.
const KIND: NodeKind = NodeKind {
    full_type: (DeviceType::HARDWARE, DeviceSubType::HARDWARE_PCI),
    size: 2,
    rest: RestKind::Nothing,
};

impl<'a> TryFrom<DevicePathNode<'a>> for Pci {
    type Error = NodeConversionError;

    ghost try_from_gives = { λ node read. ReadsAs pci (node_of node) read };

    fn try_from(node: DevicePathNode<'a>) -> Result<Pci, NodeConversionError> {
        read_node(&node, KIND)
    }
}

impl<'a> NodeValue<'a> for Pci {
    ghost layout = { pci };

    fn from_data(data: &'a [u8]) -> Option<Pci> {
        Some(Pci {
            function: data[0],
            device: data[1],
        })
    }
}

impl BuildNode for Pci {
    ghost node = { node_as pci };

    ghost is_valid = { IsValue pci };

    fn full_type(&self) -> (DeviceType, DeviceSubType) {
        KIND.full_type
    }

    fn write(&self, buffer: &mut [u8]) -> Result<usize, BuildError> {
        let fields = joined::<2>(&[&self.function.to_le_bytes(), &self.device.to_le_bytes()]);
        write_node(buffer, KIND, self, &fields, Tail::Bytes(&[]))
    }
}
