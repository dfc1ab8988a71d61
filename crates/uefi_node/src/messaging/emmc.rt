ghost use Rattle.uefi_path.specs.Views.{node_of};
ghost use Rattle.uefi_node.specs.Layout.{IsValue, node_as};
ghost use Rattle.uefi_node.specs.Reading.{ReadsAs};
ghost use Rattle.uefi_node.specs.Messaging.{emmc};

use crate::error::NodeConversionError;
use crate::read::{NodeKind, NodeValue, RestKind, read_node};
use crate::write::{Tail, joined, write_node};
use uefi_path::build::{BuildError, BuildNode};
use uefi_path::{DevicePathNode, DeviceSubType, DeviceType};

/// An embedded MMC device (UEFI 2.10, 10.3.4.28).
///
/// | offset | bytes | field |
/// |---|---|---|
/// | 4 | 1 | `slot_number` |
///
/// Offsets are from the start of the node.
#[derive(Clone, Copy, PartialEq, Eq, Debug)]
pub struct Emmc {
    /// The slot.
    pub slot_number: u8,
}

/// The type of the nodes, and how long their data are.
const KIND: NodeKind = NodeKind {
    full_type: (DeviceType::MESSAGING, DeviceSubType::MESSAGING_EMMC),
    size: 1,
    rest: RestKind::Nothing,
};

impl<'a> TryFrom<DevicePathNode<'a>> for Emmc {
    type Error = NodeConversionError;

    ghost try_from_gives = { λ node read. ReadsAs emmc (node_of node) read };

    fn try_from(node: DevicePathNode<'a>) -> Result<Emmc, NodeConversionError> {
        read_node(&node, KIND)
    }
}

impl<'a> NodeValue<'a> for Emmc {
    ghost layout = { emmc };

    fn from_data(data: &'a [u8]) -> Option<Emmc> {
        Some(Emmc {
            slot_number: data[0],
        })
    }
}

impl BuildNode for Emmc {
    ghost node = { node_as emmc };

    ghost is_valid = { IsValue emmc };

    fn full_type(&self) -> (DeviceType, DeviceSubType) {
        KIND.full_type
    }

    fn write(&self, buffer: &mut [u8]) -> Result<usize, BuildError> {
        let fields = joined::<1>(&[&self.slot_number.to_le_bytes()]);
        write_node(buffer, KIND, self, &fields, Tail::Bytes(&[]))
    }
}
