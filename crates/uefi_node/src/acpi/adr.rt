ghost use Rattle.uefi_path.specs.Views.{node_of};
ghost use Rattle.uefi_node.specs.Layout.{IsValue, node_as};
ghost use Rattle.uefi_node.specs.Reading.{ReadsAs};
ghost use Rattle.uefi_node.specs.Acpi.{adr};

use crate::acpi::adr_list::AdrList;
use crate::error::NodeConversionError;
use crate::read::{NodeKind, NodeValue, RestKind, read_node};
use crate::write::{Tail, write_node};
use uefi_path::build::{BuildError, BuildNode};
use uefi_path::{DevicePathNode, DeviceSubType, DeviceType};

/// Video outputs, by the addresses (`_ADR`) of their ACPI objects (UEFI 2.10, 10.3.3.1).
///
/// | offset | bytes | field |
/// |---|---|---|
/// | 4 | 4 each | `adr` |
///
/// Offsets are from the start of the node.
#[derive(Clone, Copy, PartialEq, Eq, Debug)]
pub struct Adr<'a> {
    /// The addresses: at least one.
    pub adr: AdrList<'a>,
}

/// The type of the nodes, and how long their data are.
const KIND: NodeKind = NodeKind {
    full_type: (DeviceType::ACPI, DeviceSubType::ACPI_ADR),
    size: 0,
    rest: RestKind::Numbers,
};

impl<'a> TryFrom<DevicePathNode<'a>> for Adr<'a> {
    type Error = NodeConversionError;

    ghost try_from_gives = { λ node read. ReadsAs adr (node_of node) read };

    fn try_from(node: DevicePathNode<'a>) -> Result<Adr<'a>, NodeConversionError> {
        read_node(&node, KIND)
    }
}

impl<'a> NodeValue<'a> for Adr<'a> {
    ghost layout = { adr };

    fn from_data(data: &'a [u8]) -> Option<Adr<'a>> {
        Some(Adr {
            adr: AdrList::new_unchecked(data),
        })
    }
}

impl BuildNode for Adr<'_> {
    ghost node = { node_as adr };

    ghost is_valid = { IsValue adr };

    fn full_type(&self) -> (DeviceType, DeviceSubType) {
        KIND.full_type
    }

    fn write(&self, buffer: &mut [u8]) -> Result<usize, BuildError> {
        write_node(buffer, KIND, self, &[], Tail::Bytes(self.adr.as_bytes()))
    }
}
