use crate::messaging::messaging;
use std::alloc::Global;
use std::fmt;
use test_support::bytes;
use uefi_node::DevicePathNodeEnum::*;
use uefi_node::media::FilePath;
use uefi_node::{DevicePathNodeEnum, DevicePathNodeExt, NodeConversionError};
use uefi_path::DevicePathNode;
use uefi_path::build::{BuildError, BuildNode};

/// How many bytes of a buffer follow a node that is written into it.
const AFTER: usize = 3;

/// Returns the value that the node is, with the name of its type, or why it is none.
pub(crate) fn node(alloc: Global, input: &str) -> Option<String> {
    let input = bytes(alloc, input).ok()?;
    let Ok(node) = DevicePathNode::try_from(input.as_slice()) else {
        return format!(in alloc; "no node").ok();
    };
    match node.as_enum() {
        Ok(value) => of_value(alloc, node, value),
        Err(error) => format!(in alloc; "{error:?}").ok(),
    }
}

/// Returns whether a value is written as these bytes into a larger buffer, whose other bytes stay.
fn is_written<N: BuildNode>(alloc: Global, value: &N, node: &[u8]) -> Option<bool> {
    let mut buffer = vec![in alloc; 0xeeu8; node.len() + AFTER].ok()?;
    let written = value.write(buffer.as_mut_slice());
    let mut wanted = Vec::from_slice(alloc, node).ok()?;
    wanted.extend_from_slice(&[0xee; AFTER]).ok()?;
    Some(written == Ok(node.len()) && buffer.as_slice() == wanted.as_slice())
}

/// Returns whether a value isn't written into a buffer that is shorter than its node, of which each
/// byte stays.
fn needs<N: BuildNode>(alloc: Global, value: &N, length: usize) -> Option<bool> {
    let mut buffer = vec![in alloc; 0xeeu8; length].ok()?;
    for _ in 0..length {
        let last = buffer.pop();
        let written = value.write(buffer.as_mut_slice());
        if last != Some(0xee) || written != Err(BuildError::BufferTooSmall(length)) {
            return Some(false);
        }
    }
    Some(true)
}

/// Returns what is wrong with a value of a node, if anything is: that its type reads another one,
/// or that it isn't written as the node.
pub(crate) fn fault_of<'a, 'b, T>(
    alloc: Global,
    node: DevicePathNode<'a>,
    value: &T,
) -> Option<Result<(), &'b str>>
where
    T: TryFrom<DevicePathNode<'a>, Error = NodeConversionError> + BuildNode + PartialEq + Drop,
{
    let Ok(read) = T::try_from(node) else {
        return Some(Err("the type refuses the node"));
    };
    if read != *value {
        return Some(Err("the type reads another value"));
    }
    if !is_written(alloc, value, node.as_bytes())? {
        return Some(Err("it is not written as the node"));
    }
    if !needs(alloc, value, node.as_bytes().len())? {
        return Some(Err("it is written into a buffer that is too short"));
    }
    Some(Ok(()))
}

/// Returns a value with the name of its variant, or what is wrong with it.
pub(crate) fn shown<'a, T>(
    alloc: Global,
    node: DevicePathNode<'a>,
    name: &str,
    value: &T,
) -> Option<String>
where
    T: TryFrom<DevicePathNode<'a>, Error = NodeConversionError>
        + BuildNode
        + PartialEq
        + fmt::Debug
        + Drop,
{
    match fault_of(alloc, node, value)? {
        Err(fault) => format!(in alloc; "{fault}").ok(),
        Ok(()) => format!(in alloc; "{name}({value:?})").ok(),
    }
}

/// Returns the path of a file, whose type has no `Debug`.
fn file_path<'a>(alloc: Global, node: DevicePathNode<'a>, value: &FilePath<'a>) -> Option<String> {
    if let Err(fault) = fault_of(alloc, node, value)? {
        return format!(in alloc; "{fault}").ok();
    }
    let path_name = value.path_name.iter().collect::<Vec<u16>>(alloc).ok()?;
    format!(in alloc; "MediaFilePath(FilePath {{ path_name: {path_name:?} }})").ok()
}

/// Returns the value of a node, with the name of its variant.
fn of_value<'a>(
    alloc: Global,
    node: DevicePathNode<'a>,
    value: DevicePathNodeEnum<'a>,
) -> Option<String> {
    match value {
        EndInstance(value) => shown(alloc, node, "EndInstance", &value),
        EndEntire(value) => shown(alloc, node, "EndEntire", &value),
        HardwarePci(value) => shown(alloc, node, "HardwarePci", &value),
        HardwarePccard(value) => shown(alloc, node, "HardwarePccard", &value),
        HardwareMemoryMapped(value) => shown(alloc, node, "HardwareMemoryMapped", &value),
        HardwareVendor(value) => shown(alloc, node, "HardwareVendor", &value),
        HardwareController(value) => shown(alloc, node, "HardwareController", &value),
        HardwareBmc(value) => shown(alloc, node, "HardwareBmc", &value),
        AcpiAcpi(value) => shown(alloc, node, "AcpiAcpi", &value),
        AcpiExpanded(value) => shown(alloc, node, "AcpiExpanded", &value),
        AcpiAdr(value) => shown(alloc, node, "AcpiAdr", &value),
        AcpiNvdimm(value) => shown(alloc, node, "AcpiNvdimm", &value),
        MediaHardDrive(value) => shown(alloc, node, "MediaHardDrive", &value),
        MediaCdRom(value) => shown(alloc, node, "MediaCdRom", &value),
        MediaVendor(value) => shown(alloc, node, "MediaVendor", &value),
        MediaFilePath(value) => file_path(alloc, node, &value),
        MediaProtocol(value) => shown(alloc, node, "MediaProtocol", &value),
        MediaPiwgFirmwareFile(value) => shown(alloc, node, "MediaPiwgFirmwareFile", &value),
        MediaPiwgFirmwareVolume(value) => shown(alloc, node, "MediaPiwgFirmwareVolume", &value),
        MediaRelativeOffsetRange(value) => shown(alloc, node, "MediaRelativeOffsetRange", &value),
        MediaRamDisk(value) => shown(alloc, node, "MediaRamDisk", &value),
        BiosBootSpecBootSpecification(value) => shown(
            alloc,
            node,
            "BiosBootSpecBootSpecification",
            &value,
        ),
        _ => messaging(alloc, node, value),
    }
}
