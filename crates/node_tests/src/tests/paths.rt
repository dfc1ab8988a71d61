use std::alloc::{AllocError, Allocator, Global};
use std::test::Fail;
use test_support::{bytes, same_bytes, takes_memory};
use uefi_base::{Guid, UnalignedSlice};
use uefi_node::media::{FilePath, HardDrive, PartitionFormat, PartitionSignature};
use uefi_path::build::{BuildError, DevicePathBuilder, DevicePathVecBuilder};
use uefi_path::{BoxedDevicePath, DevicePath};

/// The path of a boot entry that `efibootmgr -c` made: a partition of a GUID partition table, and
/// [`FILE`] in it.
const GPT_PATH: &str = "0401 2a00 01000000 0008000000000000 0000100000000000 \
    3c2d1e0f5a4b78698796a5b4c3d2e1f0 02 02 \
    0404 3000 5c004500460049005c0042004f004f0054005c0042004f004f0054005800360034002e004500460049000000 \
    7fff 0400";

/// The same for a partition of a master boot record.
const MBR_PATH: &str = "0401 2a00 02000000 0010000000000000 0000010000000000 \
    d4c3b2a1000000000000000000000000 01 01 \
    0404 3000 5c004500460049005c0042004f004f0054005c0042004f004f0054005800360034002e004500460049000000 \
    7fff 0400";

/// The file of both entries.
const FILE: &str = "\\EFI\\BOOT\\BOOTX64.EFI\0";

/// The partition of the first entry.
const GPT: HardDrive = HardDrive {
    partition_number: 1,
    partition_start: 2048,
    partition_size: 1048576,
    partition_signature: PartitionSignature::Guid(Guid([
        0x3c, 0x2d, 0x1e, 0x0f, 0x5a, 0x4b, 0x78, 0x69, 0x87, 0x96, 0xa5, 0xb4, 0xc3, 0xd2, 0xe1,
        0xf0,
    ])),
    partition_format: PartitionFormat::GPT,
};

/// The partition of the second entry.
const MBR: HardDrive = HardDrive {
    partition_number: 2,
    partition_start: 4096,
    partition_size: 65536,
    partition_signature: PartitionSignature::Mbr([0xd4, 0xc3, 0xb2, 0xa1]),
    partition_format: PartitionFormat::MBR,
};

/// Returns an ASCII text as units, two bytes each.
fn unit_bytes(alloc: Global, text: &str) -> Result<Vec<u8>, AllocError> {
    let mut bytes = Vec::new(alloc);
    for byte in text.bytes() {
        bytes.extend_from_slice(&[byte, 0])?;
    }
    Ok(bytes)
}

/// Returns the file whose units the bytes are, or `None` if half a unit is left.
fn file<'a>(name: &'a [u8]) -> Option<FilePath<'a>> {
    if name.len() % 2 != 0 {
        return None;
    }
    Some(FilePath {
        path_name: UnalignedSlice::new(name),
    })
}

/// Builds the path of a file in a partition.
fn build_in<'a>(
    buffer: &'a mut [u8],
    partition: HardDrive,
    file: FilePath<'_>,
) -> Result<DevicePath<'a>, BuildError> {
    DevicePathBuilder::with_buf(buffer)
        .push(&partition)?
        .push(&file)?
        .finalize()
}

/// Checks that the path of [`FILE`] in the partition is built as the entry has it.
fn builds(alloc: Global, entry: &str, partition: HardDrive) -> Result<(), Fail> {
    let expected = bytes(alloc, entry)?;
    let name = unit_bytes(alloc, FILE)?;
    let file = file(&name).ok_or("a file")?;
    let mut buffer = vec![in alloc; 0xeeu8; 100]?;
    let built = build_in(&mut buffer, partition, file).ok().ok_or("a path")?;
    same_bytes("the path", built.as_bytes(), &expected)
}

#[test]
fn the_path_of_a_boot_entry_is_built(rt: HostRuntime) -> Result<(), Fail> {
    builds(rt.alloc(), GPT_PATH, GPT)?;
    builds(rt.alloc(), MBR_PATH, MBR)
}

/// Builds the path of a file in a partition in a vector.
fn build_boxed<A: Allocator>(
    alloc: A,
    partition: HardDrive,
    file: FilePath<'_>,
) -> Result<BoxedDevicePath<A>, BuildError> {
    DevicePathVecBuilder::new(alloc)
        .push(&partition)?
        .push(&file)?
        .finalize()
}

/// Returns the length of the path that is built in a vector; or `None` if memory ran out.
fn built_length<A: Allocator>(alloc: A, partition: HardDrive, file: FilePath<'_>) -> Option<usize> {
    let built = build_boxed(alloc, partition, file);
    Some(built.ok()?.as_path().as_bytes().len())
}

#[test]
fn a_vector_has_the_path_or_memory_was_refused(rt: HostRuntime) -> Result<(), Fail> {
    let name = unit_bytes(rt.alloc(), FILE)?;
    let file = file(&name).ok_or("a file")?;
    let built = build_boxed(rt.alloc(), MBR, file).ok().ok_or("a path")?;
    let expected = bytes(rt.alloc(), MBR_PATH)?;
    same_bytes("the path", built.as_path().as_bytes(), &expected)?;
    takes_memory(rt.alloc(), &94, |heap| built_length(heap, MBR, file))
}
