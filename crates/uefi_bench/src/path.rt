use uefi_node::{DevicePathNodeEnum, DevicePathNodeExt};
use uefi_path::{DevicePath, DevicePathNode, DevicePathNodeIterator};

/// Reads the path that the bytes begin with. The sum is its length in bytes.
#[unsafe(no_mangle)]
pub extern "C" fn port_path(bytes: &[u8]) -> u64 {
    match DevicePath::try_from(bytes) {
        Ok(path) => path.as_bytes().len() as u64,
        Err(_) => 0,
    }
}

/// Reads the path, and then its nodes but the end-entire one. The sum is over [`node_sum`].
#[unsafe(no_mangle)]
pub extern "C" fn port_nodes(bytes: &[u8]) -> u64 {
    match DevicePath::try_from(bytes) {
        Ok(path) => node_sum(path.node_iter()),
        Err(_) => 0,
    }
}

/// Reads the path, and then each instance and its nodes but the one that ends it. The sum is over
/// each instance's length in bytes and over [`node_sum`].
#[unsafe(no_mangle)]
pub extern "C" fn port_instances(bytes: &[u8]) -> u64 {
    let Ok(path) = DevicePath::try_from(bytes) else {
        return 0;
    };
    let mut sum = 0u64;
    for instance in path.instance_iter() {
        sum = sum
            .wrapping_add(instance.as_bytes().len() as u64)
            .wrapping_add(node_sum(instance.node_iter()));
    }
    sum
}

/// Returns the sum over the nodes' types and the lengths of their data.
fn node_sum(nodes: DevicePathNodeIterator<'_>) -> u64 {
    let mut sum = 0u64;
    for node in nodes {
        sum = sum
            .wrapping_add(u64::from(node.device_type().0))
            .wrapping_add(node.data().len() as u64);
    }
    sum
}

/// Reads the path, and its nodes but the end-entire one as values of their types. The sum is over
/// [`value_sum`].
#[unsafe(no_mangle)]
pub extern "C" fn port_values(bytes: &[u8]) -> u64 {
    let Ok(path) = DevicePath::try_from(bytes) else {
        return 0;
    };
    let mut sum = 0u64;
    for node in path.node_iter() {
        sum = sum.wrapping_add(value_sum(&node));
    }
    sum
}

/// Returns the sum over numbers of a value that boot options have, or 0 for another node.
fn value_sum(node: &DevicePathNode<'_>) -> u64 {
    match node.as_enum() {
        Ok(DevicePathNodeEnum::AcpiAcpi(it)) => u64::from(it.hid).wrapping_add(u64::from(it.uid)),
        Ok(DevicePathNodeEnum::HardwarePci(it)) => {
            u64::from(it.device).wrapping_add(u64::from(it.function))
        }
        Ok(DevicePathNodeEnum::MessagingNvmeNamespace(it)) => u64::from(it.namespace_identifier),
        Ok(DevicePathNodeEnum::MediaHardDrive(it)) => {
            it.partition_start.wrapping_add(it.partition_size)
        }
        Ok(DevicePathNodeEnum::MediaFilePath(it)) => it.path_name.len() as u64,
        _ => 0,
    }
}
