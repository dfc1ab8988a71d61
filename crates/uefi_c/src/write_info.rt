ghost use Rattle.std.specs.Prelude.{◌≡◌, ◌↔◌, ◌+◌, ◌%◌, ◌≤◌, length, MatchOption, ◌≢◌, [], ◌∷◌};
ghost use Rattle.uefi_base.specs.Buffer.{put_prefix};
ghost use Rattle.uefi_base.specs.Unaligned.{units_of};
ghost use Rattle.uefi_records.specs.file.Name.{record_size};
ghost use Rattle.uefi_records.specs.file.FileInfo.{file_info_alignment, file_info_bytes, file_info_size, file_name_offset};
ghost use Rattle.uefi_records.specs.file.FileSystemInfo.{file_system_info_bytes, file_system_info_size, label_offset, unused_bytes, volume_label_bytes, volume_label_size};
ghost use Rattle.uefi_c.specs.Info.{file_seen, file_system_seen};
ghost use Rattle.uefi_c.specs.Ucs2.{IsUcs2};
ghost use Rattle.uefi_c.specs.Status.{buffer_too_small, IsOneOf, not_text, ok};

use crate::info::{FILE_NAME_OFFSET, LABEL_OFFSET, UefiFileInfo, UefiFileSystemInfo};
use crate::status::{self, UefiStatus};
use crate::time::bytes_of;
use crate::ucs2::is_ucs2;
use uefi_base::buffer::put;

/// What the sizes of records with a name after fields are multiples of.
const ALIGNMENT: usize = 8;

// The offsets of the fields of a file information record.
const FILE_SIZE_OFFSET: usize = 8;

const PHYSICAL_SIZE_OFFSET: usize = 16;

const CREATE_TIME_OFFSET: usize = 24;

const LAST_ACCESS_TIME_OFFSET: usize = 40;

const MODIFICATION_TIME_OFFSET: usize = 56;

const ATTRIBUTE_OFFSET: usize = 72;

// The offsets of the fields of a file system information record.
const READ_ONLY_OFFSET: usize = 8;

const VOLUME_SIZE_OFFSET: usize = 16;

const FREE_SPACE_OFFSET: usize = 24;

const BLOCK_SIZE_OFFSET: usize = 32;

/// Writes a file information record to the beginning of the buffer, and sets `size` to its size.
///
/// The record states its own size, and not that of `info`. The times may have any fields, and get
/// zeros as padding. The bytes after the name stay as they were, also those that round the size up
/// to a multiple of 8.
///
/// If it returns another status than success, all bytes stay as they were, and `size` is the size
/// that the buffer needs, or 0 if the name isn't UCS-2 text with a NUL.
#[unsafe(no_mangle)]
pub extern "C" fn uefi_write_file_info(
    buffer: &mut [u8],
    info: &UefiFileInfo<'_>,
    size: &mut usize,
) -> UefiStatus
    ensures fits { (result ≡ ok)
        ↔ IsUcs2 info.now.name.now
        × (file_info_size (length (units_of info.now.name.now)) ≤ length buffer.old) }
    ensures known { IsOneOf result (ok ∷ buffer_too_small ∷ not_text ∷ []) }
    ensures no_such_name { (result ≡ not_text) ↔ ¬ IsUcs2 info.now.name.now }
    ensures written { result ≡ ok → buffer.new ≡ put_prefix
        (file_info_bytes (file_seen info.now) (units_of info.now.name.now)) buffer.old }
    ensures size { IsUcs2 info.now.name.now
        → size.new ≡ file_info_size (length (units_of info.now.name.now)) }
    ensures no_name { ¬ IsUcs2 info.now.name.now → size.new ≡ 0 }
    ensures unchanged { result ≢ ok → buffer.new ≡ buffer.old }
{
    let name = info.name;
    let Some(length) = record_size(name, FILE_NAME_OFFSET) else {
        *size = 0;
        return status::NOT_TEXT;
    };
    *size = length;
    if buffer.len() < length {
        return status::BUFFER_TOO_SMALL;
    }
    put_file_info(buffer, info, name, length);
    status::OK
}

/// Writes a file system information record to the beginning of the buffer, and sets `size` to its
/// size.
///
/// The record states its own size, and not that of `info`. The bytes after the label stay as they
/// were, also those that round the size up to a multiple of 8, and so do the unused bytes 9 to 15.
///
/// If it returns another status than success, all bytes stay as they were, and `size` is the size
/// that the buffer needs, or 0 if the label isn't UCS-2 text with a NUL.
#[unsafe(no_mangle)]
pub extern "C" fn uefi_write_file_system_info(
    buffer: &mut [u8],
    info: &UefiFileSystemInfo<'_>,
    size: &mut usize,
) -> UefiStatus
    ensures fits { (result ≡ ok)
        ↔ IsUcs2 info.now.label.now
        × (file_system_info_size (length (units_of info.now.label.now)) ≤ length buffer.old) }
    ensures known { IsOneOf result (ok ∷ buffer_too_small ∷ not_text ∷ []) }
    ensures no_such_label { (result ≡ not_text) ↔ ¬ IsUcs2 info.now.label.now }
    ensures written { result ≡ ok → buffer.new ≡ put_prefix
        (file_system_info_bytes (file_system_seen info.now) (unused_bytes buffer.old)
        (units_of info.now.label.now)) buffer.old }
    ensures size { IsUcs2 info.now.label.now
        → size.new ≡ file_system_info_size (length (units_of info.now.label.now)) }
    ensures no_label { ¬ IsUcs2 info.now.label.now → size.new ≡ 0 }
    ensures unchanged { result ≢ ok → buffer.new ≡ buffer.old }
{
    let label = info.label;
    let Some(length) = record_size(label, LABEL_OFFSET) else {
        *size = 0;
        return status::NOT_TEXT;
    };
    *size = length;
    if buffer.len() < length {
        return status::BUFFER_TOO_SMALL;
    }
    put_file_system_info(buffer, info, label, length);
    status::OK
}

/// Writes the record of a volume label alone to the beginning of the buffer, and sets `size` to its
/// size: the label, with its NUL. The bytes after it stay as they were.
///
/// If it returns another status than success, all bytes stay as they were, and `size` is the size
/// that the buffer needs, or 0 if the label isn't UCS-2 text with a NUL.
#[tactic(auto, using(crate::proofs::Ucs2Units::label_size))]
#[unsafe(no_mangle)]
pub extern "C" fn uefi_write_volume_label(
    buffer: &mut [u8],
    label: &[u8],
    size: &mut usize,
) -> UefiStatus
    ensures fits { (result ≡ ok)
        ↔ IsUcs2 label.now
        × (volume_label_size (length (units_of label.now)) ≤ length buffer.old) }
    ensures known { IsOneOf result (ok ∷ buffer_too_small ∷ not_text ∷ []) }
    ensures no_such_label { (result ≡ not_text) ↔ ¬ IsUcs2 label.now }
    ensures written { result ≡ ok
        → buffer.new ≡ put_prefix (volume_label_bytes (units_of label.now)) buffer.old }
    ensures size { IsUcs2 label.now
        → size.new ≡ volume_label_size (length (units_of label.now)) }
    ensures no_label { ¬ IsUcs2 label.now → size.new ≡ 0 }
    ensures unchanged { result ≢ ok → buffer.new ≡ buffer.old }
{
    if !is_ucs2(label) {
        *size = 0;
        return status::NOT_TEXT;
    }
    *size = label.len();
    if buffer.len() < label.len() {
        return status::BUFFER_TOO_SMALL;
    }
    put(buffer, 0, label);
    status::OK
}

/// Returns the size of a record with fields before this name at this offset, or `None` if the name
/// isn't UCS-2 text.
fn record_size(name: &[u8], offset: usize) -> Option<usize>
    requires { offset ≤ file_name_offset }
    ensures { MatchOption result (¬ IsUcs2 name.now) (λ size. IsUcs2 name.now
        × (size ≡ record_size offset file_info_alignment (length (units_of name.now)))
        × (offset + length name.now ≤ size)) }
{
    if !is_ucs2(name) {
        return None;
    }
    Some((offset + name.len() + (ALIGNMENT - 1)) / ALIGNMENT * ALIGNMENT)
}

/// Writes a file information record of this size.
fn put_file_info(buffer: &mut [u8], info: &UefiFileInfo<'_>, name: &[u8], size: usize)
    requires even { length name.now % 2 ≡ 0 }
    requires size { size ≡ file_info_size (length (units_of name.now)) }
    requires room { file_name_offset + length name.now ≤ length buffer.old }
    ensures { buffer.new ≡ put_prefix
        (file_info_bytes (file_seen info.now) (units_of name.now)) buffer.old }
{
    put(buffer, 0, &(size as u64).to_le_bytes());
    put(buffer, FILE_SIZE_OFFSET, &info.file_size.to_le_bytes());
    put(
        buffer,
        PHYSICAL_SIZE_OFFSET,
        &info.physical_size.to_le_bytes(),
    );
    put(buffer, CREATE_TIME_OFFSET, &bytes_of(&info.create_time));
    put(
        buffer,
        LAST_ACCESS_TIME_OFFSET,
        &bytes_of(&info.last_access_time),
    );
    put(
        buffer,
        MODIFICATION_TIME_OFFSET,
        &bytes_of(&info.modification_time),
    );
    put(buffer, ATTRIBUTE_OFFSET, &info.attribute.to_le_bytes());
    put(buffer, FILE_NAME_OFFSET, name);
}

/// Writes a file system information record of this size.
fn put_file_system_info(buffer: &mut [u8], info: &UefiFileSystemInfo<'_>, label: &[u8], size: usize)
    requires even { length label.now % 2 ≡ 0 }
    requires size { size ≡ file_system_info_size (length (units_of label.now)) }
    requires room { label_offset + length label.now ≤ length buffer.old }
    ensures { buffer.new ≡ put_prefix (file_system_info_bytes (file_system_seen info.now)
        (unused_bytes buffer.old) (units_of label.now)) buffer.old }
{
    put(buffer, 0, &(size as u64).to_le_bytes());
    put(buffer, READ_ONLY_OFFSET, &[info.read_only as u8]);
    put(buffer, VOLUME_SIZE_OFFSET, &info.volume_size.to_le_bytes());
    put(buffer, FREE_SPACE_OFFSET, &info.free_space.to_le_bytes());
    put(buffer, BLOCK_SIZE_OFFSET, &info.block_size.to_le_bytes());
    put(buffer, LABEL_OFFSET, label);
}
