use crate::nodes::{fault_of, shown};
use std::alloc::Global;
use uefi_node::DevicePathNodeEnum;
use uefi_node::DevicePathNodeEnum::*;
use uefi_node::messaging::UsbWwid;
use uefi_path::DevicePathNode;

/// Returns a USB device by its serial number, whose type has no `Debug`.
fn usb_wwid<'a>(alloc: Global, node: DevicePathNode<'a>, value: &UsbWwid<'a>) -> Option<String> {
    if let Err(fault) = fault_of(alloc, node, value)? {
        return format!(in alloc; "{fault}").ok();
    }
    let (interface_number, vendor) = (value.interface_number, value.device_vendor_id);
    let product = value.device_product_id;
    let serial_number = value.serial_number.iter().collect::<Vec<u16>>(alloc).ok()?;
    format!(in alloc;
        "MessagingUsbWwid(UsbWwid {{ interface_number: {interface_number}, \
         device_vendor_id: {vendor}, device_product_id: {product}, \
         serial_number: {serial_number:?} }})"
    )
    .ok()
}

/// Returns the value of a node that is a connection, with the name of its variant.
pub(crate) fn messaging<'a>(
    alloc: Global,
    node: DevicePathNode<'a>,
    value: DevicePathNodeEnum<'a>,
) -> Option<String> {
    match value {
        MessagingAtapi(value) => shown(alloc, node, "MessagingAtapi", &value),
        MessagingScsi(value) => shown(alloc, node, "MessagingScsi", &value),
        MessagingFibreChannel(value) => shown(alloc, node, "MessagingFibreChannel", &value),
        MessagingFibreChannelEx(value) => shown(alloc, node, "MessagingFibreChannelEx", &value),
        MessagingIeee1394(value) => shown(alloc, node, "MessagingIeee1394", &value),
        MessagingUsb(value) => shown(alloc, node, "MessagingUsb", &value),
        MessagingSata(value) => shown(alloc, node, "MessagingSata", &value),
        MessagingDeviceLogicalUnit(value) => shown(
            alloc,
            node,
            "MessagingDeviceLogicalUnit",
            &value,
        ),
        MessagingUsbWwid(value) => usb_wwid(alloc, node, &value),
        MessagingUsbClass(value) => shown(alloc, node, "MessagingUsbClass", &value),
        MessagingI2o(value) => shown(alloc, node, "MessagingI2o", &value),
        MessagingUart(value) => shown(alloc, node, "MessagingUart", &value),
        MessagingSasEx(value) => shown(alloc, node, "MessagingSasEx", &value),
        MessagingNvmeNamespace(value) => shown(alloc, node, "MessagingNvmeNamespace", &value),
        MessagingUfs(value) => shown(alloc, node, "MessagingUfs", &value),
        MessagingSd(value) => shown(alloc, node, "MessagingSd", &value),
        MessagingEmmc(value) => shown(alloc, node, "MessagingEmmc", &value),
        MessagingNvdimmNamespace(value) => shown(alloc, node, "MessagingNvdimmNamespace", &value),
        MessagingNvmeOfNamespace(value) => shown(alloc, node, "MessagingNvmeOfNamespace", &value),
        _ => network(alloc, node, value),
    }
}

/// The same of a connection of a network, or of a vendor.
fn network<'a>(
    alloc: Global,
    node: DevicePathNode<'a>,
    value: DevicePathNodeEnum<'a>,
) -> Option<String> {
    match value {
        MessagingMacAddress(value) => shown(alloc, node, "MessagingMacAddress", &value),
        MessagingIpv4(value) => shown(alloc, node, "MessagingIpv4", &value),
        MessagingIpv6(value) => shown(alloc, node, "MessagingIpv6", &value),
        MessagingVlan(value) => shown(alloc, node, "MessagingVlan", &value),
        MessagingInfiniband(value) => shown(alloc, node, "MessagingInfiniband", &value),
        MessagingVendor(value) => shown(alloc, node, "MessagingVendor", &value),
        MessagingIscsi(value) => shown(alloc, node, "MessagingIscsi", &value),
        MessagingUri(value) => shown(alloc, node, "MessagingUri", &value),
        MessagingBluetooth(value) => shown(alloc, node, "MessagingBluetooth", &value),
        MessagingWifi(value) => shown(alloc, node, "MessagingWifi", &value),
        MessagingBluetoothLe(value) => shown(alloc, node, "MessagingBluetoothLe", &value),
        MessagingDns(value) => shown(alloc, node, "MessagingDns", &value),
        MessagingRestService(value) => shown(alloc, node, "MessagingRestService", &value),
        _ => format!(in alloc; "no type").ok(),
    }
}
