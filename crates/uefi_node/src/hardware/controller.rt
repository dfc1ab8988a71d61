ghost use Rattle.uefi_path.specs.Views.{node_of};
ghost use Rattle.uefi_node.specs.Layout.{IsValue, node_as};
ghost use Rattle.uefi_node.specs.Reading.{ReadsAs};
ghost use Rattle.uefi_node.specs.Hardware.{controller};

use crate::error::NodeConversionError;
use crate::read::{NodeKind, NodeValue, RestKind, read_node};
use crate::write::{Tail, joined, write_node};
use uefi_base::little_endian::u32_at;
use uefi_path::build::{BuildError, BuildNode};
use uefi_path::{DevicePathNode, DeviceSubType, DeviceType};

/// A controller (UEFI 2.10, 10.3.2.5).
///
/// | offset | bytes | field |
/// |---|---|---|
/// | 4 | 4 | `controller_number` |
///
/// Offsets are from the start of the node. Numbers are little-endian.
#[derive(Clone, Copy, PartialEq, Eq, Debug)]
pub struct Controller {
    /// The number of the controller.
    pub controller_number: u32,
}

/// The type of the nodes, and how long their data are.
const KIND: NodeKind = NodeKind {
    full_type: (DeviceType::HARDWARE, DeviceSubType::HARDWARE_CONTROLLER),
    size: 4,
    rest: RestKind::Nothing,
};

impl<'a> TryFrom<DevicePathNode<'a>> for Controller {
    type Error = NodeConversionError;

    ghost try_from_gives = { λ node read. ReadsAs controller (node_of node) read };

    fn try_from(node: DevicePathNode<'a>) -> Result<Controller, NodeConversionError> {
        read_node(&node, KIND)
    }
}

impl<'a> NodeValue<'a> for Controller {
    ghost layout = { controller };

    fn from_data(data: &'a [u8]) -> Option<Controller> {
        Some(Controller {
            controller_number: u32_at(data, 0),
        })
    }
}

impl BuildNode for Controller {
    ghost node = { node_as controller };

    ghost is_valid = { IsValue controller };

    fn full_type(&self) -> (DeviceType, DeviceSubType) {
        KIND.full_type
    }

    fn write(&self, buffer: &mut [u8]) -> Result<usize, BuildError> {
        let fields = joined::<4>(&[&self.controller_number.to_le_bytes()]);
        write_node(buffer, KIND, self, &fields, Tail::Bytes(&[]))
    }
}
