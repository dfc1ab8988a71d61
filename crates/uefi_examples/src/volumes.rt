ghost use Rattle.std.specs.Prelude.{◌≡◌, ◌↔◌, ◌≤◌, length, take, IsSome, IsTrue, IfSome};
ghost use Rattle.uefi_base.specs.Views.{text_units};
ghost use Rattle.uefi_records.specs.file.FileSystemInfo.{file_system_info_size, volume_label_size};
ghost use Rattle.uefi_records.specs.file.Views.{file_system_fields_given, file_system_fields_of, file_system_label_of, system_stated_size, volume_label_of};

use crate::base::is_same_error;
use uefi_base::CStr16;
use uefi_records::laws::{reads_back, written_alone};
use uefi_records::{
    FileSystemInfo, FileSystemVolumeLabel, write_file_system_info, write_file_system_volume_label,
};

/// Writes a volume's record, if it fits, and reads it back: the fields and the label are those that
/// were passed.
pub fn file_system_read_back<'a>(
    buffer: &'a mut [u8],
    read_only: bool,
    volume_size: u64,
    free_space: u64,
    block_size: u32,
    volume_label: &CStr16<'_>,
) -> Option<FileSystemInfo<'a>>
    ensures fields { IfSome result (λ info. file_system_fields_of info
        ≡ file_system_fields_given read_only volume_size free_space block_size) }
    ensures label { IfSome result (λ info. file_system_label_of info ≡ text_units volume_label.now) }
    ensures size { IfSome result (λ info. system_stated_size info
        ≡ file_system_info_size (length (text_units volume_label.now))) }
    ensures fits { IsSome result
        ↔ (file_system_info_size (length (text_units volume_label.now)) ≤ length buffer.old) }
{
    reads_back();
    let written = write_file_system_info(
        buffer,
        read_only,
        volume_size,
        free_space,
        block_size,
        volume_label,
    );
    let end = written.ok()?;
    FileSystemInfo::from_uefi(buffer, end).ok()
}

/// Writes a label, if it fits, and reads it back: the same label.
pub fn label_read_back<'a>(
    buffer: &'a mut [u8],
    volume_label: &CStr16<'_>,
) -> Option<FileSystemVolumeLabel<'a>>
    ensures label { IfSome result (λ label. volume_label_of label ≡ text_units volume_label.now) }
    ensures fits { IsSome result
        ↔ (volume_label_size (length (text_units volume_label.now)) ≤ length buffer.old) }
{
    reads_back();
    let end = write_file_system_volume_label(buffer, volume_label).ok()?;
    FileSystemVolumeLabel::from_uefi(buffer, end).ok()
}

/// Returns whether two buffers of one length that agree on the written bytes have equal records of
/// a volume, or equal errors: always.
pub fn are_volumes_read_alike(one: &[u8], other: &[u8], written: usize) -> bool
    requires lengths { length one.now ≡ length other.now }
    requires same { take written one.now ≡ take written other.now }
    ensures { IsTrue result }
{
    written_alone();
    match (
        FileSystemInfo::from_uefi(one, written),
        FileSystemInfo::from_uefi(other, written),
    ) {
        (Ok(one), Ok(other)) => one == other,
        (Err(one), Err(other)) => is_same_error(&one, &other),
        _ => false,
    }
}

/// Returns whether two buffers of one length that agree on the written bytes have equal labels, or
/// equal errors: always.
pub fn are_labels_read_alike(one: &[u8], other: &[u8], written: usize) -> bool
    requires lengths { length one.now ≡ length other.now }
    requires same { take written one.now ≡ take written other.now }
    ensures { IsTrue result }
{
    written_alone();
    match (
        FileSystemVolumeLabel::from_uefi(one, written),
        FileSystemVolumeLabel::from_uefi(other, written),
    ) {
        (Ok(one), Ok(other)) => one == other,
        (Err(one), Err(other)) => is_same_error(&one, &other),
        _ => false,
    }
}
