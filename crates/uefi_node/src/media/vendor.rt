ghost use Rattle.uefi_path.specs.Views.{node_of};
ghost use Rattle.uefi_node.specs.Layout.{IsValue, node_as};
ghost use Rattle.uefi_node.specs.Reading.{ReadsAs};
ghost use Rattle.uefi_node.specs.Media.{vendor};

use crate::error::NodeConversionError;
use crate::read::{NodeKind, NodeValue, RestKind, bytes_at, read_node};
use crate::write::{Tail, joined, write_node};
use uefi_base::Guid;
use uefi_path::build::{BuildError, BuildNode};
use uefi_path::{DevicePathNode, DeviceSubType, DeviceType};

/// A medium that its vendor describes (UEFI 2.10, 10.3.5.3).
///
/// | offset | bytes | field |
/// |---|---|---|
/// | 4 | 16 | `vendor_guid` |
/// | 20 | the rest | `vendor_defined_data` |
///
/// Offsets are from the start of the node.
#[derive(Clone, Copy, PartialEq, Eq, Debug)]
pub struct Vendor<'a> {
    /// The GUID that says what the data are.
    pub vendor_guid: Guid,
    /// The data of the vendor.
    pub vendor_defined_data: &'a [u8],
}

/// The type of the nodes, and how long their data are.
const KIND: NodeKind = NodeKind {
    full_type: (DeviceType::MEDIA, DeviceSubType::MEDIA_VENDOR),
    size: 16,
    rest: RestKind::Bytes,
};

impl<'a> TryFrom<DevicePathNode<'a>> for Vendor<'a> {
    type Error = NodeConversionError;

    ghost try_from_gives = { λ node read. ReadsAs vendor (node_of node) read };

    fn try_from(node: DevicePathNode<'a>) -> Result<Vendor<'a>, NodeConversionError> {
        read_node(&node, KIND)
    }
}

impl<'a> NodeValue<'a> for Vendor<'a> {
    ghost layout = { vendor };

    fn from_data(data: &'a [u8]) -> Option<Vendor<'a>> {
        let (_, vendor_defined_data) = data.split_at(16);
        Some(Vendor {
            vendor_guid: Guid(bytes_at(data, 0)),
            vendor_defined_data,
        })
    }
}

impl BuildNode for Vendor<'_> {
    ghost node = { node_as vendor };

    ghost is_valid = { IsValue vendor };

    fn full_type(&self) -> (DeviceType, DeviceSubType) {
        KIND.full_type
    }

    fn write(&self, buffer: &mut [u8]) -> Result<usize, BuildError> {
        let fields = joined::<16>(&[&self.vendor_guid.to_bytes()]);
        write_node(
            buffer,
            KIND,
            self,
            &fields,
            Tail::Bytes(self.vendor_defined_data),
        )
    }
}
