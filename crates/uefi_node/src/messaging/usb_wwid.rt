ghost use Rattle.uefi_path.specs.Views.{node_of};
ghost use Rattle.uefi_node.specs.Layout.{IsValue, node_as};
ghost use Rattle.uefi_node.specs.Reading.{ReadsAs};
ghost use Rattle.uefi_node.specs.Messaging.{usb_wwid};

use crate::error::NodeConversionError;
use crate::read::{NodeKind, NodeValue, RestKind, read_node};
use crate::write::{Tail, joined, write_node};
use uefi_base::UnalignedSlice;
use uefi_base::little_endian::u16_at;
use uefi_path::build::{BuildError, BuildNode};
use uefi_path::{DevicePathNode, DeviceSubType, DeviceType};

/// A USB device, by its serial number (UEFI 2.10, 10.3.4.7).
///
/// | offset | bytes | field |
/// |---|---|---|
/// | 4 | 2 | `interface_number` |
/// | 6 | 2 | `device_vendor_id` |
/// | 8 | 2 | `device_product_id` |
/// | 10 | 2 a unit | `serial_number` |
///
/// Offsets are from the start of the node. Numbers are little-endian.
#[derive(Clone, Copy, PartialEq, Eq)]
pub struct UsbWwid<'a> {
    /// The interface of the device.
    pub interface_number: u16,
    /// The vendor.
    pub device_vendor_id: u16,
    /// The product.
    pub device_product_id: u16,
    /// The serial number, without a NUL: its last 64 units or fewer.
    pub serial_number: UnalignedSlice<'a>,
}

/// The type of the nodes, and how long their data are.
const KIND: NodeKind = NodeKind {
    full_type: (DeviceType::MESSAGING, DeviceSubType::MESSAGING_USB_WWID),
    size: 6,
    rest: RestKind::Units,
};

impl<'a> TryFrom<DevicePathNode<'a>> for UsbWwid<'a> {
    type Error = NodeConversionError;

    ghost try_from_gives = { λ node read. ReadsAs usb_wwid (node_of node) read };

    fn try_from(node: DevicePathNode<'a>) -> Result<UsbWwid<'a>, NodeConversionError> {
        read_node(&node, KIND)
    }
}

impl<'a> NodeValue<'a> for UsbWwid<'a> {
    ghost layout = { usb_wwid };

    fn from_data(data: &'a [u8]) -> Option<UsbWwid<'a>> {
        let (_, serial_number) = data.split_at(6);
        Some(UsbWwid {
            interface_number: u16_at(data, 0),
            device_vendor_id: u16_at(data, 2),
            device_product_id: u16_at(data, 4),
            serial_number: UnalignedSlice::new(serial_number),
        })
    }
}

impl BuildNode for UsbWwid<'_> {
    ghost node = { node_as usb_wwid };

    ghost is_valid = { IsValue usb_wwid };

    fn full_type(&self) -> (DeviceType, DeviceSubType) {
        KIND.full_type
    }

    fn write(&self, buffer: &mut [u8]) -> Result<usize, BuildError> {
        let fields = joined::<6>(&[
            &self.interface_number.to_le_bytes(),
            &self.device_vendor_id.to_le_bytes(),
            &self.device_product_id.to_le_bytes(),
        ]);
        write_node(buffer, KIND, self, &fields, Tail::Units(self.serial_number))
    }
}
