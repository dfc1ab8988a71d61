ghost use Rattle.uefi_path.specs.Views.{node_of};
ghost use Rattle.uefi_node.specs.Layout.{IsValue, node_as};
ghost use Rattle.uefi_node.specs.Reading.{ReadsAs};
ghost use Rattle.uefi_node.specs.Messaging.{nvme_namespace};

use crate::error::NodeConversionError;
use crate::read::{NodeKind, NodeValue, RestKind, read_node};
use crate::write::{Tail, joined, write_node};
use uefi_base::little_endian::{u32_at, u64_at};
use uefi_path::build::{BuildError, BuildNode};
use uefi_path::{DevicePathNode, DeviceSubType, DeviceType};

/// A namespace of an NVM Express device (UEFI 2.10, 10.3.4.22).
///
/// | offset | bytes | field |
/// |---|---|---|
/// | 4 | 4 | `namespace_identifier` |
/// | 8 | 8 | `ieee_extended_unique_identifier` |
///
/// Offsets are from the start of the node. Numbers are little-endian.
#[derive(Clone, Copy, PartialEq, Eq, Debug)]
pub struct NvmeNamespace {
    /// The number of the namespace.
    pub namespace_identifier: u32,
    /// The extended unique identifier (EUI-64), or 0 if there is none.
    pub ieee_extended_unique_identifier: u64,
}

/// The type of the nodes, and how long their data are.
const KIND: NodeKind = NodeKind {
    full_type: (
        DeviceType::MESSAGING,
        DeviceSubType::MESSAGING_NVME_NAMESPACE,
    ),
    size: 12,
    rest: RestKind::Nothing,
};

impl<'a> TryFrom<DevicePathNode<'a>> for NvmeNamespace {
    type Error = NodeConversionError;

    ghost try_from_gives = { λ node read. ReadsAs nvme_namespace (node_of node) read };

    fn try_from(node: DevicePathNode<'a>) -> Result<NvmeNamespace, NodeConversionError> {
        read_node(&node, KIND)
    }
}

impl<'a> NodeValue<'a> for NvmeNamespace {
    ghost layout = { nvme_namespace };

    fn from_data(data: &'a [u8]) -> Option<NvmeNamespace> {
        Some(NvmeNamespace {
            namespace_identifier: u32_at(data, 0),
            ieee_extended_unique_identifier: u64_at(data, 4),
        })
    }
}

impl BuildNode for NvmeNamespace {
    ghost node = { node_as nvme_namespace };

    ghost is_valid = { IsValue nvme_namespace };

    fn full_type(&self) -> (DeviceType, DeviceSubType) {
        KIND.full_type
    }

    fn write(&self, buffer: &mut [u8]) -> Result<usize, BuildError> {
        let fields = joined::<12>(&[
            &self.namespace_identifier.to_le_bytes(),
            &self.ieee_extended_unique_identifier.to_le_bytes(),
        ]);
        write_node(buffer, KIND, self, &fields, Tail::Bytes(&[]))
    }
}
