//! Writers that borrow the buffer for the call alone, so that a caller's proof knows what the
//! buffer holds after it.

ghost use Rattle.std.specs.Prelude.{◌≡◌, ◌↔◌, ◌≤◌, length, IsOk, IfOk, IfErr, OnOk, OnErr};
ghost use Rattle.uefi_base.specs.Buffer.{put_prefix};
ghost use Rattle.uefi_base.specs.Views.{text_units};
ghost use Rattle.uefi_records.specs.file.Name.{FitName, record_end};
ghost use Rattle.uefi_records.specs.file.FileInfo.{FitFile, file_info_bytes, file_info_size, file_name_offset};
ghost use Rattle.uefi_records.specs.file.Views.{file_fields_given, file_system_fields_given};
ghost use Rattle.uefi_records.specs.file.FileSystemInfo.{FitFileSystem, file_system_info_bytes, file_system_info_size, label_offset, lone_label_offset, unused_bytes, volume_label_bytes, volume_label_size};

use crate::file::creation_error::FileInfoCreationError;
use crate::file::name::room_for;
use crate::file::{file_info, file_system_info, file_system_volume_label};
use crate::flags::FileAttribute;
use crate::time::Time;
use uefi_base::CStr16;
use uefi_base::buffer::{put, put_units};

/// Writes a [`FileInfo`](crate::FileInfo) record to the beginning of a buffer, and returns its end:
/// the offset after the name's NUL, which is what
/// [`FileInfo::from_uefi`](crate::FileInfo::from_uefi) takes as `written`.
///
/// The stated size is the record's size, rounded up to a multiple of 8. The rounding bytes, and all
/// that follows, stay as they were. [`FileInfo::new`](crate::FileInfo::new) does the same and
/// returns a view of the record.
///
/// # Errors
///
/// [`FileInfoCreationError::InsufficientStorage`], with the record's size, exactly if the buffer is
/// shorter than that. Every byte then stays as it was.
#[tactic(auto, using(crate::proofs::file::Names::FitName_of_text))]
pub fn write_file_info(
    buffer: &mut [u8],
    file_size: u64,
    physical_size: u64,
    create_time: Time,
    last_access_time: Time,
    modification_time: Time,
    attribute: FileAttribute,
    file_name: &CStr16,
) -> Result<usize, FileInfoCreationError>
    ensures end { IfOk result
        (λ end. end ≡ record_end file_name_offset (length (text_units file_name.now))) }
    ensures written { OnOk result (buffer.new ≡ put_prefix
        (file_info_bytes (file_fields_given file_size physical_size create_time
        last_access_time modification_time attribute) (text_units file_name.now)) buffer.old) }
    ensures fields_fit { OnOk result (FitFile (file_fields_given file_size physical_size
        create_time last_access_time modification_time attribute)) }
    ensures name_fits { OnOk result (FitName (text_units file_name.now)) }
    ensures short { IfErr result (λ error. error ≡ FileInfoCreationError.InsufficientStorage
        (file_info_size (length (text_units file_name.now)))) }
    ensures unchanged { OnErr result (buffer.new ≡ buffer.old) }
    ensures fits { IsOk result
        ↔ (file_info_size (length (text_units file_name.now)) ≤ length buffer.old) }
{
    use file_info::*;
    let name = file_name.as_u16_with_nul();
    let (end, size) = room_for(name.len(), NAME_OFFSET, ALIGNMENT, buffer.len())?;
    put(buffer, SIZE_OFFSET, &(size as u64).to_le_bytes());
    put(buffer, FILE_SIZE_OFFSET, &file_size.to_le_bytes());
    put(buffer, PHYSICAL_SIZE_OFFSET, &physical_size.to_le_bytes());
    put(buffer, CREATE_TIME_OFFSET, &create_time.to_bytes());
    put(
        buffer,
        LAST_ACCESS_TIME_OFFSET,
        &last_access_time.to_bytes(),
    );
    put(
        buffer,
        MODIFICATION_TIME_OFFSET,
        &modification_time.to_bytes(),
    );
    put(buffer, ATTRIBUTE_OFFSET, &attribute.bits().to_le_bytes());
    put_units(buffer, NAME_OFFSET, name);
    Ok(end)
}

/// Writes a [`FileSystemInfo`](crate::FileSystemInfo) record to the beginning of a buffer, and
/// returns its end: the offset after the label's NUL, which is what
/// [`FileSystemInfo::from_uefi`](crate::FileSystemInfo::from_uefi) takes as `written`.
///
/// The stated size is the record's size, rounded up to a multiple of 8. The unused bytes 9 to 15,
/// the rounding bytes, and all that follows, stay as they were.
/// [`FileSystemInfo::new`](crate::FileSystemInfo::new) does the same and returns a view of the
/// record.
///
/// # Errors
///
/// [`FileInfoCreationError::InsufficientStorage`], with the record's size, exactly if the buffer is
/// shorter than that. Every byte then stays as it was.
#[tactic(auto, using(crate::proofs::file::Names::FitName_of_text))]
pub fn write_file_system_info(
    buffer: &mut [u8],
    read_only: bool,
    volume_size: u64,
    free_space: u64,
    block_size: u32,
    volume_label: &CStr16,
) -> Result<usize, FileInfoCreationError>
    ensures end { IfOk result
        (λ end. end ≡ record_end label_offset (length (text_units volume_label.now))) }
    ensures written { OnOk result (buffer.new ≡ put_prefix (file_system_info_bytes
        (file_system_fields_given read_only volume_size free_space block_size)
        (unused_bytes buffer.old) (text_units volume_label.now)) buffer.old) }
    ensures fields_fit { OnOk result (FitFileSystem
        (file_system_fields_given read_only volume_size free_space block_size)) }
    ensures label_fits { OnOk result (FitName (text_units volume_label.now)) }
    ensures short { IfErr result (λ error. error ≡ FileInfoCreationError.InsufficientStorage
        (file_system_info_size (length (text_units volume_label.now)))) }
    ensures unchanged { OnErr result (buffer.new ≡ buffer.old) }
    ensures fits { IsOk result
        ↔ (file_system_info_size (length (text_units volume_label.now)) ≤ length buffer.old) }
{
    use file_system_info::*;
    let label = volume_label.as_u16_with_nul();
    let (end, size) = room_for(label.len(), LABEL_OFFSET, ALIGNMENT, buffer.len())?;
    put(buffer, SIZE_OFFSET, &(size as u64).to_le_bytes());
    put(buffer, READ_ONLY_OFFSET, &[read_only as u8]);
    put(buffer, VOLUME_SIZE_OFFSET, &volume_size.to_le_bytes());
    put(buffer, FREE_SPACE_OFFSET, &free_space.to_le_bytes());
    put(buffer, BLOCK_SIZE_OFFSET, &block_size.to_le_bytes());
    put_units(buffer, LABEL_OFFSET, label);
    Ok(end)
}

/// Writes a [`FileSystemVolumeLabel`](crate::FileSystemVolumeLabel) record to the beginning of a
/// buffer, and returns its end: the offset after the label's NUL, which is what
/// [`FileSystemVolumeLabel::from_uefi`](crate::FileSystemVolumeLabel::from_uefi) takes as
/// `written`.
///
/// All that follows stays as it was.
/// [`FileSystemVolumeLabel::new`](crate::FileSystemVolumeLabel::new) does the same and returns a
/// view of the record.
///
/// # Errors
///
/// [`FileInfoCreationError::InsufficientStorage`], with the record's size, exactly if the buffer is
/// shorter than that. Every byte then stays as it was.
#[tactic(auto, using(crate::proofs::file::Names::FitName_of_text))]
pub fn write_file_system_volume_label(
    buffer: &mut [u8],
    volume_label: &CStr16,
) -> Result<usize, FileInfoCreationError>
    ensures end { IfOk result
        (λ end. end ≡ record_end lone_label_offset (length (text_units volume_label.now))) }
    ensures written { OnOk result
        (buffer.new ≡ put_prefix (volume_label_bytes (text_units volume_label.now)) buffer.old) }
    ensures label_fits { OnOk result (FitName (text_units volume_label.now)) }
    ensures short { IfErr result (λ error. error ≡ FileInfoCreationError.InsufficientStorage
        (volume_label_size (length (text_units volume_label.now)))) }
    ensures unchanged { OnErr result (buffer.new ≡ buffer.old) }
    ensures fits { IsOk result
        ↔ (volume_label_size (length (text_units volume_label.now)) ≤ length buffer.old) }
{
    use file_system_volume_label::{ALIGNMENT, LABEL_OFFSET};
    let label = volume_label.as_u16_with_nul();
    let (end, _) = room_for(label.len(), LABEL_OFFSET, ALIGNMENT, buffer.len())?;
    put_units(buffer, LABEL_OFFSET, label);
    Ok(end)
}
