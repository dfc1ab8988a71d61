ghost use Rattle.uefi_path.specs.Views.{node_of};
ghost use Rattle.uefi_node.specs.Layout.{IsValue, node_as};
ghost use Rattle.uefi_node.specs.Reading.{ReadsAs};
ghost use Rattle.uefi_node.specs.Acpi.{nvdimm};

use crate::error::NodeConversionError;
use crate::read::{NodeKind, NodeValue, RestKind, read_node};
use crate::write::{Tail, joined, write_node};
use uefi_base::little_endian::u32_at;
use uefi_path::build::{BuildError, BuildNode};
use uefi_path::{DevicePathNode, DeviceSubType, DeviceType};

/// An NVDIMM (UEFI 2.10, 10.3.3.2).
///
/// | offset | bytes | field |
/// |---|---|---|
/// | 4 | 4 | `nfit_device_handle` |
///
/// Offsets are from the start of the node. Numbers are little-endian.
#[derive(Clone, Copy, PartialEq, Eq, Debug)]
pub struct Nvdimm {
    /// The handle of the device in the NFIT.
    pub nfit_device_handle: u32,
}

/// The type of the nodes, and how long their data are.
const KIND: NodeKind = NodeKind {
    full_type: (DeviceType::ACPI, DeviceSubType::ACPI_NVDIMM),
    size: 4,
    rest: RestKind::Nothing,
};

impl<'a> TryFrom<DevicePathNode<'a>> for Nvdimm {
    type Error = NodeConversionError;

    ghost try_from_gives = { λ node read. ReadsAs nvdimm (node_of node) read };

    fn try_from(node: DevicePathNode<'a>) -> Result<Nvdimm, NodeConversionError> {
        read_node(&node, KIND)
    }
}

impl<'a> NodeValue<'a> for Nvdimm {
    ghost layout = { nvdimm };

    fn from_data(data: &'a [u8]) -> Option<Nvdimm> {
        Some(Nvdimm {
            nfit_device_handle: u32_at(data, 0),
        })
    }
}

impl BuildNode for Nvdimm {
    ghost node = { node_as nvdimm };

    ghost is_valid = { IsValue nvdimm };

    fn full_type(&self) -> (DeviceType, DeviceSubType) {
        KIND.full_type
    }

    fn write(&self, buffer: &mut [u8]) -> Result<usize, BuildError> {
        let fields = joined::<4>(&[&self.nfit_device_handle.to_le_bytes()]);
        write_node(buffer, KIND, self, &fields, Tail::Bytes(&[]))
    }
}
