ghost use Rattle.std.specs.Prelude.{◌≡◌, ◌↔◌, ◌≤◌, Err, length, take, IsOk, IfOk, IfErr, OnOk, MatchResult, nat_eq};
ghost use Rattle.std.specs.Cmp.{partial_equiv_from_equiv, on_per, on_equiv};
ghost use Rattle.std.specs.Cmp.Lexicographic.{pointwise, nat_list_eq_equiv};
ghost use Rattle.std.specs.Borrow.{sem};
ghost use Rattle.uefi_base.specs.Buffer.{put_prefix, EndsAs};
ghost use Rattle.uefi_base.specs.Views.{slice_units, text_units};
ghost use Rattle.uefi_records.specs.file.Name.{FitName};
ghost use Rattle.uefi_records.specs.private.file.Kept.{EndsWithName};
ghost use Rattle.uefi_records.specs.file.FileInfo.{size_in};
ghost use Rattle.uefi_records.specs.file.FileSystemInfo.{FitFileSystem, file_system_fields, file_system_info_alignment, file_system_info_bytes, file_system_info_size, file_system_info_verdict, label_offset, unused_bytes};
ghost use Rattle.uefi_records.specs.file.Verdict.{FollowsVerdict};

use crate::file::creation_error::FileInfoCreationError;
use crate::file::identity::FileSystemInfoIdentity;
use crate::file::name::{name_at, name_end};
use crate::file::protocol_info::FileProtocolInfo;
use crate::file::write::write_file_system_info;
use uefi_base::little_endian::{u32_at, u64_at};
use uefi_base::{Align, CStr16, Error, IdentifiedBy, UnalignedSlice};

// The offsets of the fields, and the record's alignment.
pub(crate) const SIZE_OFFSET: usize = 0;

pub(crate) const READ_ONLY_OFFSET: usize = 8;

pub(crate) const VOLUME_SIZE_OFFSET: usize = 16;

pub(crate) const FREE_SPACE_OFFSET: usize = 24;

pub(crate) const BLOCK_SIZE_OFFSET: usize = 32;

pub(crate) const LABEL_OFFSET: usize = 36;

pub(crate) const ALIGNMENT: usize = 8;

/// A file system information record (UEFI 2.10, 13.5 `EFI_FILE_PROTOCOL.GetInfo()`,
/// `EFI_FILE_SYSTEM_INFO`): the sizes and the label of a volume.
///
/// | offset | bytes | field |
/// |---|---|---|
/// | 0 | 8 | size of the record, little-endian, as all numbers |
/// | 8 | 1 | 0 if the volume can be written, any other number if it is read-only |
/// | 9 | 7 | unused |
/// | 16 | 8 | size of the volume |
/// | 24 | 8 | free bytes of the volume |
/// | 32 | 4 | size of a block |
/// | 36 | 2 a unit | label, with its NUL |
///
/// The size of the record is the length of all this, rounded up to a multiple of 8. A view: it
/// borrows the bytes that it was read from or written to, and what it returns lives as long as they
/// do. Two are equal if the stated sizes, all fields and the units of the labels are; the unused
/// bytes don't count.
#[derive(Clone, Copy)]
pub struct FileSystemInfo<'a> {
    bytes: &'a [u8],
    pub ghost named: { EndsWithName label_offset bytes.now },
}

impl<'a> FileSystemInfo<'a> {
    ghost use Rattle.uefi_records.specs.file.Views.{file_system_fields_given, file_system_info_view, file_system_numbers};
    ghost use Rattle.uefi_records.specs.file.Views.{system_stated_size, file_system_fields_of, file_system_label_of};

    /// Reads the record in the first `written` bytes of the buffer, or in the whole buffer if it is
    /// shorter.
    ///
    /// The label ends with the first zero unit there. The size that the record states is not
    /// trusted.
    ///
    /// # Errors
    ///
    /// In this order:
    /// - [`BAD_BUFFER_SIZE`](uefi_base::Status::BAD_BUFFER_SIZE), with no data, if there are fewer
    ///   than 36 such bytes, or no unit from offset 36 on is zero.
    /// - [`BUFFER_TOO_SMALL`](uefi_base::Status::BUFFER_TOO_SMALL), with the size of the record of
    ///   that label, if the whole buffer is shorter.
    pub fn from_uefi(
        buffer: &'a [u8],
        written: usize,
    ) -> Result<FileSystemInfo<'a>, Error<Option<usize>>>
        ensures verdict { FollowsVerdict file_system_label_of
            (file_system_info_verdict (take written buffer.now) (length buffer.now)) result }
        ensures size { IfOk result (λ info. system_stated_size info ≡ size_in buffer.now) }
        ensures fields { IfOk result
            (λ info. file_system_fields_of info ≡ file_system_fields buffer.now) }
    {
        let end = name_end(buffer, written, LABEL_OFFSET, ALIGNMENT)?;
        Ok(FileSystemInfo {
            bytes: &buffer[..end],
        })
    }

    /// Writes a record to the beginning of the storage, and returns a view of it.
    ///
    /// The stated size is the record's size, rounded up to a multiple of 8. The unused bytes 9 to
    /// 15, the rounding bytes, and all that follows, stay as they were.
    ///
    /// # Errors
    ///
    /// [`FileInfoCreationError::InsufficientStorage`], with the record's size, exactly if the
    /// storage is shorter. Every byte then stays as it was.
    pub fn new(
        storage: &'a mut [u8],
        read_only: bool,
        volume_size: u64,
        free_space: u64,
        block_size: u32,
        volume_label: &CStr16,
    ) -> Result<FileSystemInfo<'a>, FileInfoCreationError>
        ensures* after { sem 𝓛 (EndsAs storage.entry (λ after. MatchResult result
            (λ _. after ≡ put_prefix (file_system_info_bytes
            (file_system_fields_given read_only volume_size free_space block_size)
            (unused_bytes storage.old) (text_units volume_label.now)) storage.old)
            (λ _. after ≡ storage.old))) }
        ensures size { IfOk result (λ info. system_stated_size info
            ≡ file_system_info_size (length (text_units volume_label.now))) }
        ensures fields { IfOk result (λ info. file_system_fields_of info
            ≡ file_system_fields_given read_only volume_size free_space block_size) }
        ensures label { IfOk result
            (λ info. file_system_label_of info ≡ text_units volume_label.now) }
        ensures fields_fit { OnOk result (FitFileSystem
            (file_system_fields_given read_only volume_size free_space block_size)) }
        ensures label_fits { OnOk result (FitName (text_units volume_label.now)) }
        ensures short { IfErr result (λ error. error ≡ FileInfoCreationError.InsufficientStorage
            (file_system_info_size (length (text_units volume_label.now)))) }
        ensures fits { IsOk result
            ↔ (file_system_info_size (length (text_units volume_label.now)) ≤ length storage.old) }
    {
        let written = write_file_system_info(
            storage,
            read_only,
            volume_size,
            free_space,
            block_size,
            volume_label,
        );
        FileSystemInfo::over(storage, written)
    }

    /// Returns the size that the record states.
    pub fn size(&self) -> u64
        ensures { result ≡ system_stated_size self.now }
    {
        u64_at(self.bytes, SIZE_OFFSET)
    }

    /// Returns whether the volume is read-only.
    pub fn read_only(&self) -> bool
        ensures { result ≡ (file_system_fields_of self.now).read_only }
    {
        self.bytes[READ_ONLY_OFFSET] != 0
    }

    /// Returns the size of the volume, in bytes.
    pub fn volume_size(&self) -> u64
        ensures { result ≡ (file_system_fields_of self.now).volume_size }
    {
        u64_at(self.bytes, VOLUME_SIZE_OFFSET)
    }

    /// Returns the number of free bytes on the volume.
    pub fn free_space(&self) -> u64
        ensures { result ≡ (file_system_fields_of self.now).free_space }
    {
        u64_at(self.bytes, FREE_SPACE_OFFSET)
    }

    /// Returns the size of a block, in bytes.
    pub fn block_size(&self) -> u32
        ensures { result ≡ (file_system_fields_of self.now).block_size }
    {
        u32_at(self.bytes, BLOCK_SIZE_OFFSET)
    }

    /// Returns the units of the label: the last is zero, the NUL, and no other is.
    pub fn volume_label(&self) -> UnalignedSlice<'a>
        ensures units { slice_units result ≡ file_system_label_of self.now }
        ensures name { FitName (slice_units result) }
    {
        name_at(self.bytes, LABEL_OFFSET)
    }

    /// Returns all numbers, in the order of the record, with 1 for a read-only volume and 0 for
    /// others.
    fn numbers(&self) -> [u64; 5]
        ensures { result ≡ file_system_numbers self.now }
    {
        [
            self.size(),
            u64::from(self.read_only()),
            self.volume_size(),
            self.free_space(),
            u64::from(self.block_size()),
        ]
    }

    /// Returns the view of the record that was written, if it was.
    fn over(
        bytes: &'a [u8],
        written: Result<usize, FileInfoCreationError>,
    ) -> Result<FileSystemInfo<'a>, FileInfoCreationError>
        requires { IfOk written
            (λ end. (end ≤ length bytes.now) × EndsWithName label_offset (take end bytes.now)) }
        ensures seen { MatchResult written
            (λ end. IfOk result (λ info. file_system_info_view info ≡ take end bytes.now))
            (λ error. result ≡ Err error) }
        ensures ok { IsOk result ↔ IsOk written }
    {
        let end = written?;
        Ok(FileSystemInfo {
            bytes: &bytes[..end],
        })
    }
}

impl PartialEq for FileSystemInfo<'_> {
    ghost use Rattle.uefi_records.specs.file.Views.{file_system_info_key};

    ghost eq = { λ x y. pointwise nat_eq (file_system_info_key x) (file_system_info_key y) };

    ghost laws = { on_per file_system_info_key (partial_equiv_from_equiv nat_list_eq_equiv) };

    fn eq(&self, other: &Self) -> bool {
        self.numbers() == other.numbers() && self.volume_label() == other.volume_label()
    }
}

impl Eq for FileSystemInfo<'_> {
    ghost use Rattle.uefi_records.specs.file.Views.{file_system_info_key};

    ghost laws = { on_equiv file_system_info_key nat_list_eq_equiv };
}

impl Align for FileSystemInfo<'_> {
    ghost alignment = { file_system_info_alignment };

    fn alignment() -> usize
        ensures { result ≡ file_system_info_alignment }
    {
        ALIGNMENT
    }
}

impl IdentifiedBy for FileSystemInfo<'_> {
    type Identity = FileSystemInfoIdentity;
}

impl FileProtocolInfo for FileSystemInfo<'_> {}
