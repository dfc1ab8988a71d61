ghost use Rattle.uefi_path.specs.Views.{node_of};
ghost use Rattle.uefi_node.specs.Layout.{IsValue, node_as};
ghost use Rattle.uefi_node.specs.Reading.{ReadsAs};
ghost use Rattle.uefi_node.specs.Media.{cd_rom};

use crate::error::NodeConversionError;
use crate::read::{NodeKind, NodeValue, RestKind, read_node};
use crate::write::{Tail, joined, write_node};
use uefi_base::little_endian::{u32_at, u64_at};
use uefi_path::build::{BuildError, BuildNode};
use uefi_path::{DevicePathNode, DeviceSubType, DeviceType};

/// A boot entry of a CD-ROM (UEFI 2.10, 10.3.5.2).
///
/// | offset | bytes | field |
/// |---|---|---|
/// | 4 | 4 | `boot_entry` |
/// | 8 | 8 | `partition_start` |
/// | 16 | 8 | `partition_size` |
///
/// Offsets are from the start of the node. Numbers are little-endian.
#[derive(Clone, Copy, PartialEq, Eq, Debug)]
pub struct CdRom {
    /// The number of the entry in the boot catalog; the default entry is 0.
    pub boot_entry: u32,
    /// The first block of the partition.
    pub partition_start: u64,
    /// The number of its blocks.
    pub partition_size: u64,
}

/// The type of the nodes, and how long their data are.
const KIND: NodeKind = NodeKind {
    full_type: (DeviceType::MEDIA, DeviceSubType::MEDIA_CD_ROM),
    size: 20,
    rest: RestKind::Nothing,
};

impl<'a> TryFrom<DevicePathNode<'a>> for CdRom {
    type Error = NodeConversionError;

    ghost try_from_gives = { λ node read. ReadsAs cd_rom (node_of node) read };

    fn try_from(node: DevicePathNode<'a>) -> Result<CdRom, NodeConversionError> {
        read_node(&node, KIND)
    }
}

impl<'a> NodeValue<'a> for CdRom {
    ghost layout = { cd_rom };

    fn from_data(data: &'a [u8]) -> Option<CdRom> {
        Some(CdRom {
            boot_entry: u32_at(data, 0),
            partition_start: u64_at(data, 4),
            partition_size: u64_at(data, 12),
        })
    }
}

impl BuildNode for CdRom {
    ghost node = { node_as cd_rom };

    ghost is_valid = { IsValue cd_rom };

    fn full_type(&self) -> (DeviceType, DeviceSubType) {
        KIND.full_type
    }

    fn write(&self, buffer: &mut [u8]) -> Result<usize, BuildError> {
        let fields = joined::<20>(&[
            &self.boot_entry.to_le_bytes(),
            &self.partition_start.to_le_bytes(),
            &self.partition_size.to_le_bytes(),
        ]);
        write_node(buffer, KIND, self, &fields, Tail::Bytes(&[]))
    }
}
