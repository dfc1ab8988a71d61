ghost use Rattle.std.specs.Prelude.{◌≡◌, ◌↔◌, ◌≤◌, ℕ, List, Some, length, take, IsOk, IsSome, IsTrue, OnOk, OnErr, IfErr, IfSome, SomeIff, slice_range};
ghost use Rattle.uefi_base.specs.Buffer.{put_prefix};
ghost use Rattle.uefi_base.specs.Flags.{has_bits};
ghost use Rattle.uefi_base.specs.Unaligned.{unit_bytes};
ghost use Rattle.uefi_base.specs.Views.{slice_units, text_units};
ghost use Rattle.uefi_records.specs.flags.Named.{directory_attribute};
ghost use Rattle.uefi_records.specs.file.Identity.{file_info_guid};
ghost use Rattle.uefi_records.specs.file.Name.{FitName};
ghost use Rattle.uefi_records.specs.file.FileInfo.{file_fields, file_info_size, file_info_verdict};
ghost use Rattle.uefi_records.specs.file.FileSystemInfo.{volume_label_size};
ghost use Rattle.uefi_records.specs.file.Verdict.{accepted};
ghost use Rattle.uefi_records.specs.file.Views.{file_fields_given, file_fields_of, file_name_of, stated_size};

use crate::base::{guid_of, is_same_error};
use uefi_base::{CStr16, Guid, UnalignedSlice};
use uefi_records::laws::{equal_files, reads_back, times_read_back, written_alone};
use uefi_records::{
    FileAttribute, FileInfo, FileInfoCreationError, FileSystemVolumeLabel, Time, write_file_info,
    write_file_system_volume_label,
};

/// Returns the GUID of file information records, by code that is generic over the record.
pub fn guid_of_file_info() -> Guid
    ensures { result ≡ file_info_guid }
{
    guid_of::<FileInfo<'_>>()
}

/// Returns whether the file is a directory whose record is in the written bytes, or `None` if
/// there is no record.
pub fn is_directory_in(buffer: &[u8], written: usize) -> Option<bool>
    ensures found { (name : List ℕ) →
        file_info_verdict (take written buffer.now) (length buffer.now) ≡ accepted name →
        result ≡ Some (has_bits (file_fields buffer.now).attribute directory_attribute) }
    ensures accepted { IsSome result → (name : List ℕ)
        × (file_info_verdict (take written buffer.now) (length buffer.now) ≡ accepted name) }
{
    let info = FileInfo::from_uefi(buffer, written).ok()?;
    Some(info.is_directory())
}

/// Returns the sixteen bytes of the time at which a file was created, as its record has them.
pub fn creation_bytes(buffer: &[u8], written: usize) -> Option<[u8; 16]>
    ensures bytes { IfSome result (λ bytes. bytes ≡ slice_range buffer.now 24 40) }
    ensures found { (name : List ℕ) →
        file_info_verdict (take written buffer.now) (length buffer.now) ≡ accepted name →
        IsSome result }
    ensures accepted { IsSome result → (name : List ℕ)
        × (file_info_verdict (take written buffer.now) (length buffer.now) ≡ accepted name) }
{
    times_read_back();
    let info = FileInfo::from_uefi(buffer, written).ok()?;
    Some(info.create_time().to_bytes())
}

/// Returns how many units the name has of the file whose record is in the written bytes, or
/// `None` if there is no record.
pub fn name_length(buffer: &[u8], written: usize) -> Option<usize>
    ensures found { (name : List ℕ) →
        file_info_verdict (take written buffer.now) (length buffer.now) ≡ accepted name →
        result ≡ Some (length name) }
    ensures accepted { IsSome result → (name : List ℕ)
        × (file_info_verdict (take written buffer.now) (length buffer.now) ≡ accepted name) }
{
    let info = FileInfo::from_uefi(buffer, written).ok()?;
    Some(info.file_name().len())
}

/// Returns the units of a file's name. The last is zero, and no other is.
pub fn name_of<'a>(info: &FileInfo<'a>) -> UnalignedSlice<'a>
    ensures units { slice_units result ≡ file_name_of info.now }
    ensures name { FitName (slice_units result) }
{
    info.file_name()
}

/// Returns whether a label fits the storage: exactly if its record's size is at most the storage's.
pub fn label_fits(storage: &mut [u8], label: &CStr16<'_>) -> bool
    ensures { IsTrue result
        ↔ (volume_label_size (length (text_units label.now)) ≤ length storage.old) }
{
    FileSystemVolumeLabel::new(storage, label).is_ok()
}

/// Writes a label if it fits, and leaves the buffer as it was if it doesn't.
pub fn label_written(buffer: &mut [u8], label: &CStr16<'_>) -> Result<(), FileInfoCreationError>
    ensures written { OnOk result
        (buffer.new ≡ put_prefix (unit_bytes (text_units label.now)) buffer.old) }
    ensures unchanged { OnErr result (buffer.new ≡ buffer.old) }
    ensures fits { IsOk result
        ↔ (volume_label_size (length (text_units label.now)) ≤ length buffer.old) }
    ensures short { IfErr result (λ error. error ≡ FileInfoCreationError.InsufficientStorage
        (volume_label_size (length (text_units label.now)))) }
{
    write_file_system_volume_label(buffer, label)?;
    Ok(())
}

/// Writes a record, if it fits, and reads it back: the fields and the name are those that were
/// passed.
pub fn file_read_back<'a>(
    buffer: &'a mut [u8],
    sizes: (u64, u64),
    times: (Time, Time, Time),
    attribute: FileAttribute,
    file_name: &CStr16<'_>,
) -> Option<FileInfo<'a>>
    ensures fields { IfSome result (λ info. file_fields_of info
        ≡ file_fields_given sizes.0 sizes.1 times.0 times.1 times.2 attribute) }
    ensures name { IfSome result (λ info. file_name_of info ≡ text_units file_name.now) }
    ensures size { IfSome result
        (λ info. stated_size info ≡ file_info_size (length (text_units file_name.now))) }
    ensures fits { IsSome result
        ↔ (file_info_size (length (text_units file_name.now)) ≤ length buffer.old) }
{
    reads_back();
    let written = write_file_info(
        buffer, sizes.0, sizes.1, times.0, times.1, times.2, attribute, file_name,
    );
    let end = written.ok()?;
    FileInfo::from_uefi(buffer, end).ok()
}

/// Returns whether two buffers of one length that agree on the written bytes are read alike:
/// always.
pub fn are_read_alike(one: &[u8], other: &[u8], written: usize) -> bool
    requires lengths { length one.now ≡ length other.now }
    requires same { take written one.now ≡ take written other.now }
    ensures { IsTrue result }
{
    written_alone();
    match (
        FileInfo::from_uefi(one, written),
        FileInfo::from_uefi(other, written),
    ) {
        (Ok(one), Ok(other)) => is_same_file(&one, &other),
        (Err(one), Err(other)) => is_same_error(&one, &other),
        _ => false,
    }
}

/// Returns whether two file information records are equal: exactly if their accessors return the
/// same.
pub fn is_same_file(info: &FileInfo<'_>, other: &FileInfo<'_>) -> bool
    ensures { IsTrue result
        ↔ ((stated_size info.now ≡ stated_size other.now)
        × (file_fields_of info.now ≡ file_fields_of other.now)
        × (file_name_of info.now ≡ file_name_of other.now)) }
{
    equal_files();
    info == other
}

/// Returns the number of units in the record of a label, if 64 bytes have room for it. The storage
/// can be written to again once the record is no longer in use.
pub fn unit_count(label: &CStr16<'_>) -> Option<usize>
    ensures { let units = length (text_units label.now) in
        SomeIff result (volume_label_size units ≤ 64) units }
{
    let mut storage = [0; 64];
    let count = match FileSystemVolumeLabel::new(&mut storage, label) {
        Ok(record) => record.volume_label().len(),
        Err(_) => return None,
    };
    storage[0] = 1;
    Some(count)
}
