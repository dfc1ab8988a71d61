ghost use Rattle.uefi_path.specs.Views.{node_of};
ghost use Rattle.uefi_node.specs.Layout.{IsValue, node_as};
ghost use Rattle.uefi_node.specs.Reading.{ReadsAs};
ghost use Rattle.uefi_node.specs.Messaging.{i2o};

use crate::error::NodeConversionError;
use crate::read::{NodeKind, NodeValue, RestKind, read_node};
use crate::write::{Tail, joined, write_node};
use uefi_base::little_endian::u32_at;
use uefi_path::build::{BuildError, BuildNode};
use uefi_path::{DevicePathNode, DeviceSubType, DeviceType};

/// An I2O device (UEFI 2.10, 10.3.4.10).
///
/// | offset | bytes | field |
/// |---|---|---|
/// | 4 | 4 | `target_id` |
///
/// Offsets are from the start of the node. Numbers are little-endian.
#[derive(Clone, Copy, PartialEq, Eq, Debug)]
pub struct I2o {
    /// The target (TID).
    pub target_id: u32,
}

/// The type of the nodes, and how long their data are.
const KIND: NodeKind = NodeKind {
    full_type: (DeviceType::MESSAGING, DeviceSubType::MESSAGING_I2O),
    size: 4,
    rest: RestKind::Nothing,
};

impl<'a> TryFrom<DevicePathNode<'a>> for I2o {
    type Error = NodeConversionError;

    ghost try_from_gives = { λ node read. ReadsAs i2o (node_of node) read };

    fn try_from(node: DevicePathNode<'a>) -> Result<I2o, NodeConversionError> {
        read_node(&node, KIND)
    }
}

impl<'a> NodeValue<'a> for I2o {
    ghost layout = { i2o };

    fn from_data(data: &'a [u8]) -> Option<I2o> {
        Some(I2o {
            target_id: u32_at(data, 0),
        })
    }
}

impl BuildNode for I2o {
    ghost node = { node_as i2o };

    ghost is_valid = { IsValue i2o };

    fn full_type(&self) -> (DeviceType, DeviceSubType) {
        KIND.full_type
    }

    fn write(&self, buffer: &mut [u8]) -> Result<usize, BuildError> {
        let fields = joined::<4>(&[&self.target_id.to_le_bytes()]);
        write_node(buffer, KIND, self, &fields, Tail::Bytes(&[]))
    }
}
