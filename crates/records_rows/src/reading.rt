use rows::hex_digits;
use std::alloc::{AllocError, Global};
use test_support::bytes;
use test_support::samples::{FILE, FILE_SYSTEM, ZERO_FILE};
use uefi_base::{Error, Identify, UnalignedSlice};
use uefi_records::{FileInfo, FileSystemInfo, FileSystemVolumeLabel};

/// Returns the digits of the sample that has a name, or of any other text the text.
fn sample<'a>(name: &'a str) -> &'a str {
    match name {
        "FILE" => FILE,
        "ZERO_FILE" => ZERO_FILE,
        "FILE_SYSTEM" => FILE_SYSTEM,
        digits => digits,
    }
}

/// Returns how many bytes were written, and the buffer, which has this many bytes of a sample.
fn written_and_buffer(alloc: Global, input: &str) -> Option<(usize, Vec<u8>)> {
    let parts = input.split(" ; ").collect::<Vec<&str>>(alloc).ok()?;
    let [written, length, name] = parts.as_slice() else {
        return None;
    };
    let mut buffer = bytes(alloc, sample(name)).ok()?;
    buffer.truncate(length.parse::<usize>().ok()?);
    // The greatest number has more bits than some processors' lengths.
    let written = written.parse::<u64>().ok()?;
    Some((usize::try_from(written).unwrap_or(usize::MAX), buffer))
}

/// Returns the units of a name.
pub(crate) fn units(alloc: Global, name: UnalignedSlice<'_>) -> Result<Vec<u16>, AllocError> {
    name.iter().collect::<Vec<u16>>(alloc)
}

/// Returns why bytes are no record.
fn refusal(alloc: Global, error: Error<Option<usize>>) -> Option<String> {
    let (status, data) = (error.status(), error.data());
    format!(in alloc; "Err({status}, {data:?})").ok()
}

/// Returns the times of creation, of the last access and of the last modification.
fn times(alloc: Global, info: &FileInfo<'_>) -> Option<String> {
    let mut times = Vec::from_slice(alloc, &info.create_time().to_bytes()).ok()?;
    let accessed = info.last_access_time().to_bytes();
    times.extend_from_slice(&accessed).ok()?;
    let modified = info.modification_time().to_bytes();
    times.extend_from_slice(&modified).ok()?;
    hex_digits(alloc, times.as_slice()).ok()
}

/// Returns the file information record in a buffer.
pub(crate) fn file(alloc: Global, input: &str) -> Option<String> {
    let (written, buffer) = written_and_buffer(alloc, input)?;
    let info = match FileInfo::from_uefi(buffer.as_slice(), written) {
        Ok(info) => info,
        Err(error) => return refusal(alloc, error),
    };
    let sizes = (info.size(), info.file_size(), info.physical_size());
    let times = times(alloc, &info)?;
    let attribute = info.attribute();
    let kinds = [info.is_directory(), info.is_regular_file()];
    let name = units(alloc, info.file_name()).ok()?;
    format!(in alloc;
        "File {{ sizes: {sizes:?}, times: {times}, attribute: {attribute:?}, \
         is_directory, is_regular_file: {kinds:?}, name: {name:?} }}"
    )
    .ok()
}

/// Returns the file system information record in a buffer.
pub(crate) fn file_system(alloc: Global, input: &str) -> Option<String> {
    let (written, buffer) = written_and_buffer(alloc, input)?;
    let info = match FileSystemInfo::from_uefi(buffer.as_slice(), written) {
        Ok(info) => info,
        Err(error) => return refusal(alloc, error),
    };
    let (size, read_only) = (info.size(), info.read_only());
    let numbers = (info.volume_size(), info.free_space(), info.block_size());
    let label = units(alloc, info.volume_label()).ok()?;
    format!(in alloc;
        "FileSystem {{ size: {size}, read_only: {read_only}, \
         volume_size, free_space, block_size: {numbers:?}, label: {label:?} }}"
    )
    .ok()
}

/// Returns the units of the label in a buffer.
pub(crate) fn label(alloc: Global, input: &str) -> Option<String> {
    let (written, buffer) = written_and_buffer(alloc, input)?;
    match FileSystemVolumeLabel::from_uefi(buffer.as_slice(), written) {
        Ok(label) => {
            let label = units(alloc, label.volume_label()).ok()?;
            format!(in alloc; "Ok({label:?})").ok()
        }
        Err(error) => refusal(alloc, error),
    }
}

/// Returns the bytes of a sample, and the same with another byte, of which the input has the offset
/// and the byte.
fn both(alloc: Global, sample: &str, input: &str) -> Option<(Vec<u8>, Vec<u8>)> {
    let (offset, byte) = input.split_once(" ; ")?;
    let byte = bytes(alloc, byte).ok()?.first().copied()?;
    let mut changed = bytes(alloc, sample).ok()?;
    *changed.get_mut(offset.parse::<usize>().ok()?)? = byte;
    Some((bytes(alloc, sample).ok()?, changed))
}

/// Returns whether the file of [`FILE`] is equal to itself with another byte.
pub(crate) fn equal_files(alloc: Global, input: &str) -> Option<String> {
    let (one, other) = both(alloc, FILE, input)?;
    let one = FileInfo::from_uefi(one.as_slice(), 86).ok()?;
    let other = FileInfo::from_uefi(other.as_slice(), 86).ok()?;
    let are_equal = one == other;
    format!(in alloc; "{are_equal}").ok()
}

/// Returns whether the file system of [`FILE_SYSTEM`] is equal to itself with another byte.
pub(crate) fn equal_file_systems(alloc: Global, input: &str) -> Option<String> {
    let (one, other) = both(alloc, FILE_SYSTEM, input)?;
    let one = FileSystemInfo::from_uefi(one.as_slice(), 42).ok()?;
    let other = FileSystemInfo::from_uefi(other.as_slice(), 42).ok()?;
    let are_equal = one == other;
    format!(in alloc; "{are_equal}").ok()
}

/// Returns whether the labels in both buffers are equal.
pub(crate) fn equal_labels(one: &[u8], other: &[u8]) -> Option<bool> {
    let one = FileSystemVolumeLabel::from_uefi(one, 8).ok()?;
    let other = FileSystemVolumeLabel::from_uefi(other, 8).ok()?;
    Some(one == other)
}

/// Returns the GUID of a kind of records, if it is also their identity.
pub(crate) fn guid(alloc: Global, input: &str) -> Option<String> {
    let (guid, same) = match input {
        "FileInfo" => (FileInfo::GUID, FileInfo::identity()),
        "FileSystemInfo" => (FileSystemInfo::GUID, FileSystemInfo::identity()),
        _ => (
            FileSystemVolumeLabel::GUID,
            FileSystemVolumeLabel::identity(),
        ),
    };
    if guid != same {
        return format!(in alloc; "the identity is {same}").ok();
    }
    format!(in alloc; "\"{guid}\"").ok()
}
