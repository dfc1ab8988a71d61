ghost use Rattle.uefi_path.specs.Views.{node_of};
ghost use Rattle.uefi_node.specs.Layout.{IsValue, node_as};
ghost use Rattle.uefi_node.specs.Reading.{ReadsAs};
ghost use Rattle.uefi_node.specs.Messaging.{scsi};

use crate::error::NodeConversionError;
use crate::read::{NodeKind, NodeValue, RestKind, read_node};
use crate::write::{Tail, joined, write_node};
use uefi_base::little_endian::u16_at;
use uefi_path::build::{BuildError, BuildNode};
use uefi_path::{DevicePathNode, DeviceSubType, DeviceType};

/// A SCSI device (UEFI 2.10, 10.3.4.2).
///
/// | offset | bytes | field |
/// |---|---|---|
/// | 4 | 2 | `target_id` |
/// | 6 | 2 | `logical_unit_number` |
///
/// Offsets are from the start of the node. Numbers are little-endian.
#[derive(Clone, Copy, PartialEq, Eq, Debug)]
pub struct Scsi {
    /// The target on the bus.
    pub target_id: u16,
    /// The logical unit.
    pub logical_unit_number: u16,
}

/// The type of the nodes, and how long their data are.
const KIND: NodeKind = NodeKind {
    full_type: (DeviceType::MESSAGING, DeviceSubType::MESSAGING_SCSI),
    size: 4,
    rest: RestKind::Nothing,
};

impl<'a> TryFrom<DevicePathNode<'a>> for Scsi {
    type Error = NodeConversionError;

    ghost try_from_gives = { λ node read. ReadsAs scsi (node_of node) read };

    fn try_from(node: DevicePathNode<'a>) -> Result<Scsi, NodeConversionError> {
        read_node(&node, KIND)
    }
}

impl<'a> NodeValue<'a> for Scsi {
    ghost layout = { scsi };

    fn from_data(data: &'a [u8]) -> Option<Scsi> {
        Some(Scsi {
            target_id: u16_at(data, 0),
            logical_unit_number: u16_at(data, 2),
        })
    }
}

impl BuildNode for Scsi {
    ghost node = { node_as scsi };

    ghost is_valid = { IsValue scsi };

    fn full_type(&self) -> (DeviceType, DeviceSubType) {
        KIND.full_type
    }

    fn write(&self, buffer: &mut [u8]) -> Result<usize, BuildError> {
        let fields = joined::<4>(&[
            &self.target_id.to_le_bytes(),
            &self.logical_unit_number.to_le_bytes(),
        ]);
        write_node(buffer, KIND, self, &fields, Tail::Bytes(&[]))
    }
}
