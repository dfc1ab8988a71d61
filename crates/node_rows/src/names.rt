use std::alloc::Global;
use uefi_node::bios_boot_spec::BootSpecificationDeviceType;
use uefi_node::hardware::BmcInterfaceType;
use uefi_node::media::{PartitionFormat, RamDiskType};
use uefi_node::messaging::{
    BluetoothLeAddressType, DnsAddressType, InfinibandResourceFlags, Ipv4AddressOrigin,
    Ipv6AddressOrigin, IscsiLoginOptions, IscsiProtocol, MasterSlave, Parity, PrimarySecondary,
    RestServiceAccessMode, RestServiceType, StopBits,
};

/// Returns the value that has a name, as `Debug` prints it.
pub(crate) fn named(alloc: Global, name: &str) -> Option<String> {
    if let Some(disk_type) = ram_disk_type(name) {
        return format!(in alloc; "{disk_type:?}").ok();
    }
    let of_device = device(name).or(connection(name));
    let number = of_device.or(network(name)).or(flag(name));
    let (Some(number), Some((type_name, _))) = (number, name.split_once("::")) else {
        return format!(in alloc; "there is no such name").ok();
    };
    format!(in alloc; "{type_name}({number})").ok()
}

/// Returns the GUID of the type of RAM disks that has a name, as text.
pub(crate) fn guid_text(alloc: Global, name: &str) -> Option<String> {
    let Some(RamDiskType(guid)) = ram_disk_type(name) else {
        return format!(in alloc; "there is no such name").ok();
    };
    format!(in alloc; "\"{guid}\"").ok()
}

/// Returns the type of RAM disks that has a name.
fn ram_disk_type(name: &str) -> Option<RamDiskType> {
    Some(match name {
        "RamDiskType::VIRTUAL_DISK" => RamDiskType::VIRTUAL_DISK,
        "RamDiskType::VIRTUAL_CD" => RamDiskType::VIRTUAL_CD,
        "RamDiskType::PERSISTENT_VIRTUAL_DISK" => RamDiskType::PERSISTENT_VIRTUAL_DISK,
        "RamDiskType::PERSISTENT_VIRTUAL_CD" => RamDiskType::PERSISTENT_VIRTUAL_CD,
        _ => return None,
    })
}

/// Returns the number of the value of a device that has a name.
fn device(name: &str) -> Option<u32> {
    Some(match name {
        "BmcInterfaceType::UNKNOWN" => u32::from(BmcInterfaceType::UNKNOWN.0),
        "BmcInterfaceType::KEYBOARD_CONTROLLER_STYLE" => u32::from(
            BmcInterfaceType::KEYBOARD_CONTROLLER_STYLE.0,
        ),
        "BmcInterfaceType::SERVER_MANAGEMENT_INTERFACE_CHIP" => u32::from(
            BmcInterfaceType::SERVER_MANAGEMENT_INTERFACE_CHIP.0,
        ),
        "BmcInterfaceType::BLOCK_TRANSFER" => u32::from(BmcInterfaceType::BLOCK_TRANSFER.0),
        "PartitionFormat::MBR" => u32::from(PartitionFormat::MBR.0),
        "PartitionFormat::GPT" => u32::from(PartitionFormat::GPT.0),
        "BootSpecificationDeviceType::FLOPPY" => u32::from(BootSpecificationDeviceType::FLOPPY.0),
        "BootSpecificationDeviceType::HARD_DRIVE" => u32::from(
            BootSpecificationDeviceType::HARD_DRIVE.0,
        ),
        "BootSpecificationDeviceType::CD_ROM" => u32::from(BootSpecificationDeviceType::CD_ROM.0),
        "BootSpecificationDeviceType::PCMCIA" => u32::from(BootSpecificationDeviceType::PCMCIA.0),
        "BootSpecificationDeviceType::USB" => u32::from(BootSpecificationDeviceType::USB.0),
        "BootSpecificationDeviceType::EMBEDDED_NETWORK" => u32::from(
            BootSpecificationDeviceType::EMBEDDED_NETWORK.0,
        ),
        "BootSpecificationDeviceType::BOOTSTRAP_ENTRY_VECTOR" => u32::from(
            BootSpecificationDeviceType::BOOTSTRAP_ENTRY_VECTOR.0,
        ),
        "BootSpecificationDeviceType::UNKNOWN" => u32::from(BootSpecificationDeviceType::UNKNOWN.0),
        _ => return None,
    })
}

/// Returns the number of the value of a connection that has a name.
fn connection(name: &str) -> Option<u32> {
    Some(match name {
        "PrimarySecondary::PRIMARY" => u32::from(PrimarySecondary::PRIMARY.0),
        "PrimarySecondary::SECONDARY" => u32::from(PrimarySecondary::SECONDARY.0),
        "MasterSlave::MASTER" => u32::from(MasterSlave::MASTER.0),
        "MasterSlave::SLAVE" => u32::from(MasterSlave::SLAVE.0),
        "Parity::DEFAULT" => u32::from(Parity::DEFAULT.0),
        "Parity::NO" => u32::from(Parity::NO.0),
        "Parity::EVEN" => u32::from(Parity::EVEN.0),
        "Parity::ODD" => u32::from(Parity::ODD.0),
        "Parity::MARK" => u32::from(Parity::MARK.0),
        "Parity::SPACE" => u32::from(Parity::SPACE.0),
        "StopBits::DEFAULT" => u32::from(StopBits::DEFAULT.0),
        "StopBits::ONE" => u32::from(StopBits::ONE.0),
        "StopBits::ONE_POINT_FIVE" => u32::from(StopBits::ONE_POINT_FIVE.0),
        "StopBits::TWO" => u32::from(StopBits::TWO.0),
        _ => return None,
    })
}

/// Returns the number of the value of a network that has a name.
fn network(name: &str) -> Option<u32> {
    Some(match name {
        "Ipv4AddressOrigin::DHCP" => u32::from(Ipv4AddressOrigin::DHCP.0),
        "Ipv4AddressOrigin::STATIC" => u32::from(Ipv4AddressOrigin::STATIC.0),
        "Ipv6AddressOrigin::MANUAL" => u32::from(Ipv6AddressOrigin::MANUAL.0),
        "Ipv6AddressOrigin::AUTO" => u32::from(Ipv6AddressOrigin::AUTO.0),
        "Ipv6AddressOrigin::STATEFUL" => u32::from(Ipv6AddressOrigin::STATEFUL.0),
        "DnsAddressType::IPV4" => u32::from(DnsAddressType::IPV4.0),
        "DnsAddressType::IPV6" => u32::from(DnsAddressType::IPV6.0),
        "BluetoothLeAddressType::PUBLIC" => u32::from(BluetoothLeAddressType::PUBLIC.0),
        "BluetoothLeAddressType::RANDOM" => u32::from(BluetoothLeAddressType::RANDOM.0),
        "RestServiceType::REDFISH" => u32::from(RestServiceType::REDFISH.0),
        "RestServiceType::ODATA" => u32::from(RestServiceType::ODATA.0),
        "RestServiceType::VENDOR" => u32::from(RestServiceType::VENDOR.0),
        "RestServiceAccessMode::IN_BAND" => u32::from(RestServiceAccessMode::IN_BAND.0),
        "RestServiceAccessMode::OUT_OF_BAND" => u32::from(RestServiceAccessMode::OUT_OF_BAND.0),
        "IscsiProtocol::TCP" => u32::from(IscsiProtocol::TCP.0),
        _ => return None,
    })
}

/// Returns the number of the value of a set of flags that has a name.
fn flag(name: &str) -> Option<u32> {
    Some(match name {
        "InfinibandResourceFlags::SERVICE" => u32::from(InfinibandResourceFlags::SERVICE.bits()),
        "InfinibandResourceFlags::EXTENDED_BOOT_ENVIRONMENT" => u32::from(
            InfinibandResourceFlags::EXTENDED_BOOT_ENVIRONMENT.bits(),
        ),
        "InfinibandResourceFlags::CONSOLE_PROTOCOL" => u32::from(
            InfinibandResourceFlags::CONSOLE_PROTOCOL.bits(),
        ),
        "InfinibandResourceFlags::STORAGE_PROTOCOL" => u32::from(
            InfinibandResourceFlags::STORAGE_PROTOCOL.bits(),
        ),
        "InfinibandResourceFlags::NETWORK_PROTOCOL" => u32::from(
            InfinibandResourceFlags::NETWORK_PROTOCOL.bits(),
        ),
        "IscsiLoginOptions::HEADER_DIGEST_USING_CRC32C" => u32::from(
            IscsiLoginOptions::HEADER_DIGEST_USING_CRC32C.bits(),
        ),
        "IscsiLoginOptions::DATA_DIGEST_USING_CRC32C" => u32::from(
            IscsiLoginOptions::DATA_DIGEST_USING_CRC32C.bits(),
        ),
        "IscsiLoginOptions::AUTH_METHOD_NONE" => u32::from(
            IscsiLoginOptions::AUTH_METHOD_NONE.bits(),
        ),
        "IscsiLoginOptions::CHAP_UNI" => u32::from(IscsiLoginOptions::CHAP_UNI.bits()),
        _ => return None,
    })
}
