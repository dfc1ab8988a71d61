use crate::reading::units;
use rows::{hex_digits, quoted};
use std::alloc::Global;
use test_support::bytes;
use uefi_base::{CStr16, CString16};
use uefi_records::{
    FileAttribute, FileInfo, FileInfoCreationError, FileSystemInfo, FileSystemVolumeLabel, Time,
    write_file_info, write_file_system_info, write_file_system_volume_label,
};

/// Returns the name, and the storage, that an input has: a text, a length and a byte.
fn name_and_storage(alloc: Global, input: &str) -> Option<(CString16, Vec<u8>)> {
    let parts = input.split(" ; ").collect::<Vec<&str>>(alloc).ok()?;
    let [name, length, byte] = parts.as_slice() else {
        return None;
    };
    let name = CString16::from_str(alloc, name).ok()?;
    let byte = bytes(alloc, byte).ok()?.first().copied()?;
    let storage = vec![in alloc; byte; length.parse::<usize>().ok()?].ok()?;
    Some((name, storage))
}

/// Returns a record of a file with this name, of which all else is zero, over that storage.
fn zero_file<'a>(
    storage: &'a mut [u8],
    name: &CStr16<'_>,
) -> Result<FileInfo<'a>, FileInfoCreationError> {
    let time = Time::invalid();
    let none = FileAttribute::empty();
    FileInfo::new(storage, 0, 0, time, time, time, none, name)
}

/// Returns what was written with the storage after it, or the error if the storage stayed.
fn after(
    alloc: Global,
    storage: &[u8],
    before: &[u8],
    written: Result<String, FileInfoCreationError>,
) -> Option<String> {
    match written {
        Ok(written) => {
            let storage = hex_digits(alloc, storage).ok()?;
            format!(in alloc; "Ok({written}, storage: {storage})").ok()
        }
        Err(error) if storage == before => format!(in alloc; "Err({error:?})").ok(),
        Err(error) => format!(in alloc; "Err({error:?}), though the storage changed").ok(),
    }
}

/// Writes a record of a file, and returns its size and its name.
pub(crate) fn write_file(alloc: Global, input: &str) -> Option<String> {
    let (name, mut storage) = name_and_storage(alloc, input)?;
    let before = Vec::from_slice(alloc, storage.as_slice()).ok()?;
    let written = match zero_file(storage.as_mut_slice(), &name.as_cstr16()) {
        Ok(info) => {
            let (size, name) = (info.size(), units(alloc, info.file_name()).ok()?);
            Ok(format!(in alloc; "size: {size}, name: {name:?}").ok()?)
        }
        Err(error) => Err(error),
    };
    after(alloc, storage.as_slice(), before.as_slice(), written)
}

/// Writes a record of a file system, and returns its size and whether it is read-only.
pub(crate) fn write_file_system(alloc: Global, input: &str) -> Option<String> {
    let (name, mut storage) = name_and_storage(alloc, input)?;
    let before = Vec::from_slice(alloc, storage.as_slice()).ok()?;
    let made = FileSystemInfo::new(storage.as_mut_slice(), true, 1, 2, 3, &name.as_cstr16());
    let written = match made {
        Ok(info) => {
            let (size, read_only) = (info.size(), info.read_only());
            Ok(format!(in alloc; "size: {size}, read_only: {read_only}").ok()?)
        }
        Err(error) => Err(error),
    };
    after(alloc, storage.as_slice(), before.as_slice(), written)
}

/// Writes a label, and returns its units.
pub(crate) fn write_label(alloc: Global, input: &str) -> Option<String> {
    let (name, mut storage) = name_and_storage(alloc, input)?;
    let before = Vec::from_slice(alloc, storage.as_slice()).ok()?;
    let written = match FileSystemVolumeLabel::new(storage.as_mut_slice(), &name.as_cstr16()) {
        Ok(label) => {
            let label = units(alloc, label.volume_label()).ok()?;
            Ok(format!(in alloc; "label: {label:?}").ok()?)
        }
        Err(error) => Err(error),
    };
    after(alloc, storage.as_slice(), before.as_slice(), written)
}

/// Returns the size of the record of a file with a name.
pub(crate) fn file_size(alloc: Global, input: &str) -> Option<String> {
    let (name, mut storage) = name_and_storage(alloc, input)?;
    let size = match zero_file(storage.as_mut_slice(), &name.as_cstr16()) {
        Ok(info) => Ok(info.size()),
        Err(error) => Err(error),
    };
    format!(in alloc; "{size:?}").ok()
}

/// Returns the size of the record of a file system with a label.
pub(crate) fn file_system_size(alloc: Global, input: &str) -> Option<String> {
    let (name, mut storage) = name_and_storage(alloc, input)?;
    let made = FileSystemInfo::new(storage.as_mut_slice(), false, 0, 0, 0, &name.as_cstr16());
    let size = match made {
        Ok(info) => Ok(info.size()),
        Err(error) => Err(error),
    };
    format!(in alloc; "{size:?}").ok()
}

/// Writes a record of a file, and returns how far that wrote, and whether the record is read.
pub(crate) fn file_end(alloc: Global, input: &str) -> Option<String> {
    let (name, mut buffer) = name_and_storage(alloc, input)?;
    let (time, none, name) = (Time::invalid(), FileAttribute::empty(), name.as_cstr16());
    let end = write_file_info(buffer.as_mut_slice(), 1, 2, time, time, time, none, &name);
    let is_read = FileInfo::from_uefi(buffer.as_slice(), buffer.len()).is_ok();
    format!(in alloc; "({end:?}, {is_read})").ok()
}

/// The same of a record of a file system.
pub(crate) fn file_system_end(alloc: Global, input: &str) -> Option<String> {
    let (name, mut buffer) = name_and_storage(alloc, input)?;
    let end = write_file_system_info(buffer.as_mut_slice(), true, 1, 2, 3, &name.as_cstr16());
    let is_read = FileSystemInfo::from_uefi(buffer.as_slice(), buffer.len()).is_ok();
    format!(in alloc; "({end:?}, {is_read})").ok()
}

/// The same of a label.
pub(crate) fn label_end(alloc: Global, input: &str) -> Option<String> {
    let (name, mut buffer) = name_and_storage(alloc, input)?;
    let end = write_file_system_volume_label(buffer.as_mut_slice(), &name.as_cstr16());
    let is_read = FileSystemVolumeLabel::from_uefi(buffer.as_slice(), buffer.len()).is_ok();
    format!(in alloc; "({end:?}, {is_read})").ok()
}

/// Returns what the error of a label in storage that is too short is displayed as.
pub(crate) fn label_error(alloc: Global, input: &str) -> Option<String> {
    let (name, mut storage) = name_and_storage(alloc, input)?;
    let made = FileSystemVolumeLabel::new(storage.as_mut_slice(), &name.as_cstr16());
    let Some(error) = made.err() else {
        return format!(in alloc; "the storage is long enough").ok();
    };
    let text = format!(in alloc; "{error}").ok()?;
    quoted(alloc, text.as_str()).ok()
}
