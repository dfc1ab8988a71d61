ghost use Rattle.uefi_path.specs.Views.{node_of};
ghost use Rattle.uefi_node.specs.Layout.{IsValue, node_as};
ghost use Rattle.uefi_node.specs.Reading.{ReadsAs};
ghost use Rattle.uefi_node.specs.Media.{piwg_firmware_file};

use crate::error::NodeConversionError;
use crate::read::{NodeKind, NodeValue, RestKind, read_node};
use crate::write::{Tail, write_node};
use uefi_path::build::{BuildError, BuildNode};
use uefi_path::{DevicePathNode, DeviceSubType, DeviceType};

/// A file of a firmware volume (UEFI 2.10, 10.3.5.6).
///
/// | offset | bytes | field |
/// |---|---|---|
/// | 4 | the rest | `data` |
///
/// Offsets are from the start of the node.
#[derive(Clone, Copy, PartialEq, Eq, Debug)]
pub struct PiwgFirmwareFile<'a> {
    /// What the PI specification says: 16 bytes, the GUID that names the file.
    pub data: &'a [u8],
}

/// The type of the nodes, and how long their data are.
const KIND: NodeKind = NodeKind {
    full_type: (DeviceType::MEDIA, DeviceSubType::MEDIA_PIWG_FIRMWARE_FILE),
    size: 0,
    rest: RestKind::Bytes,
};

impl<'a> TryFrom<DevicePathNode<'a>> for PiwgFirmwareFile<'a> {
    type Error = NodeConversionError;

    ghost try_from_gives = { λ node read. ReadsAs piwg_firmware_file (node_of node) read };

    fn try_from(node: DevicePathNode<'a>) -> Result<PiwgFirmwareFile<'a>, NodeConversionError> {
        read_node(&node, KIND)
    }
}

impl<'a> NodeValue<'a> for PiwgFirmwareFile<'a> {
    ghost layout = { piwg_firmware_file };

    fn from_data(data: &'a [u8]) -> Option<PiwgFirmwareFile<'a>> {
        Some(PiwgFirmwareFile { data })
    }
}

impl BuildNode for PiwgFirmwareFile<'_> {
    ghost node = { node_as piwg_firmware_file };

    ghost is_valid = { IsValue piwg_firmware_file };

    fn full_type(&self) -> (DeviceType, DeviceSubType) {
        KIND.full_type
    }

    fn write(&self, buffer: &mut [u8]) -> Result<usize, BuildError> {
        write_node(buffer, KIND, self, &[], Tail::Bytes(self.data))
    }
}
