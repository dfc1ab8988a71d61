ghost use Rattle.uefi_path.specs.Views.{node_of};
ghost use Rattle.uefi_node.specs.Layout.{IsValue, node_as};
ghost use Rattle.uefi_node.specs.Reading.{ReadsAs};
ghost use Rattle.uefi_node.specs.Media.{piwg_firmware_volume};

use crate::error::NodeConversionError;
use crate::read::{NodeKind, NodeValue, RestKind, read_node};
use crate::write::{Tail, write_node};
use uefi_path::build::{BuildError, BuildNode};
use uefi_path::{DevicePathNode, DeviceSubType, DeviceType};

/// A firmware volume (UEFI 2.10, 10.3.5.7).
///
/// | offset | bytes | field |
/// |---|---|---|
/// | 4 | the rest | `data` |
///
/// Offsets are from the start of the node.
#[derive(Clone, Copy, PartialEq, Eq, Debug)]
pub struct PiwgFirmwareVolume<'a> {
    /// What the PI specification says: 16 bytes, the GUID that names the volume.
    pub data: &'a [u8],
}

/// The type of the nodes, and how long their data are.
const KIND: NodeKind = NodeKind {
    full_type: (DeviceType::MEDIA, DeviceSubType::MEDIA_PIWG_FIRMWARE_VOLUME),
    size: 0,
    rest: RestKind::Bytes,
};

impl<'a> TryFrom<DevicePathNode<'a>> for PiwgFirmwareVolume<'a> {
    type Error = NodeConversionError;

    ghost try_from_gives = { λ node read. ReadsAs piwg_firmware_volume (node_of node) read };

    fn try_from(node: DevicePathNode<'a>) -> Result<PiwgFirmwareVolume<'a>, NodeConversionError> {
        read_node(&node, KIND)
    }
}

impl<'a> NodeValue<'a> for PiwgFirmwareVolume<'a> {
    ghost layout = { piwg_firmware_volume };

    fn from_data(data: &'a [u8]) -> Option<PiwgFirmwareVolume<'a>> {
        Some(PiwgFirmwareVolume { data })
    }
}

impl BuildNode for PiwgFirmwareVolume<'_> {
    ghost node = { node_as piwg_firmware_volume };

    ghost is_valid = { IsValue piwg_firmware_volume };

    fn full_type(&self) -> (DeviceType, DeviceSubType) {
        KIND.full_type
    }

    fn write(&self, buffer: &mut [u8]) -> Result<usize, BuildError> {
        write_node(buffer, KIND, self, &[], Tail::Bytes(self.data))
    }
}
