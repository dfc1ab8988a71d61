ghost use Rattle.uefi_path.specs.Views.{node_of};
ghost use Rattle.uefi_node.specs.Layout.{IsValue, node_as};
ghost use Rattle.uefi_node.specs.Reading.{ReadsAs};
ghost use Rattle.uefi_node.specs.Messaging.{nvdimm_namespace};

use crate::error::NodeConversionError;
use crate::read::{NodeKind, NodeValue, RestKind, bytes_at, read_node};
use crate::write::{Tail, joined, write_node};
use uefi_path::build::{BuildError, BuildNode};
use uefi_path::{DevicePathNode, DeviceSubType, DeviceType};

/// A namespace of an NVDIMM (UEFI 2.10, 10.3.4.31).
///
/// | offset | bytes | field |
/// |---|---|---|
/// | 4 | 16 | `uuid` |
///
/// Offsets are from the start of the node.
#[derive(Clone, Copy, PartialEq, Eq, Debug)]
pub struct NvdimmNamespace {
    /// The label UUID of the namespace.
    pub uuid: [u8; 16],
}

/// The type of the nodes, and how long their data are.
const KIND: NodeKind = NodeKind {
    full_type: (
        DeviceType::MESSAGING,
        DeviceSubType::MESSAGING_NVDIMM_NAMESPACE,
    ),
    size: 16,
    rest: RestKind::Nothing,
};

impl<'a> TryFrom<DevicePathNode<'a>> for NvdimmNamespace {
    type Error = NodeConversionError;

    ghost try_from_gives = { λ node read. ReadsAs nvdimm_namespace (node_of node) read };

    fn try_from(node: DevicePathNode<'a>) -> Result<NvdimmNamespace, NodeConversionError> {
        read_node(&node, KIND)
    }
}

impl<'a> NodeValue<'a> for NvdimmNamespace {
    ghost layout = { nvdimm_namespace };

    fn from_data(data: &'a [u8]) -> Option<NvdimmNamespace> {
        Some(NvdimmNamespace {
            uuid: bytes_at(data, 0),
        })
    }
}

impl BuildNode for NvdimmNamespace {
    ghost node = { node_as nvdimm_namespace };

    ghost is_valid = { IsValue nvdimm_namespace };

    fn full_type(&self) -> (DeviceType, DeviceSubType) {
        KIND.full_type
    }

    fn write(&self, buffer: &mut [u8]) -> Result<usize, BuildError> {
        let fields = joined::<16>(&[&self.uuid]);
        write_node(buffer, KIND, self, &fields, Tail::Bytes(&[]))
    }
}
