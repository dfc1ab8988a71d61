ghost use Rattle.std.specs.Prelude.{◌≡◌, ◌↔◌, ◌≤◌, Err, length, take, IsOk, IfOk, IfErr, OnOk, MatchResult, nat_eq};
ghost use Rattle.std.specs.Cmp.{partial_equiv_from_equiv, on_per, on_equiv};
ghost use Rattle.std.specs.Cmp.Lexicographic.{pointwise, nat_list_eq_equiv};
ghost use Rattle.std.specs.Borrow.{sem};
ghost use Rattle.uefi_base.specs.Buffer.{put_prefix, EndsAs};
ghost use Rattle.uefi_base.specs.Views.{slice_units, text_units};
ghost use Rattle.uefi_records.specs.file.Name.{FitName};
ghost use Rattle.uefi_records.specs.private.file.Kept.{EndsWithName};
ghost use Rattle.uefi_records.specs.file.FileSystemInfo.{lone_label_offset, volume_label_alignment, volume_label_bytes, volume_label_size, volume_label_verdict};
ghost use Rattle.uefi_records.specs.file.Verdict.{FollowsVerdict};

use crate::file::creation_error::FileInfoCreationError;
use crate::file::identity::FileSystemVolumeLabelIdentity;
use crate::file::name::{name_at, name_end};
use crate::file::protocol_info::FileProtocolInfo;
use crate::file::write::write_file_system_volume_label;
use uefi_base::{Align, CStr16, Error, IdentifiedBy, UnalignedSlice};

// The offset of the label, and the record's alignment.
pub(crate) const LABEL_OFFSET: usize = 0;

pub(crate) const ALIGNMENT: usize = 2;

/// A volume label record (UEFI 2.10, 13.5 `EFI_FILE_PROTOCOL.GetInfo()`,
/// `EFI_FILE_SYSTEM_VOLUME_LABEL`): the label of a volume, and nothing else.
///
/// | offset | bytes | field |
/// |---|---|---|
/// | 0 | 2 a unit | label, little-endian, with its NUL |
///
/// A view: it borrows the bytes that it was read from or written to, and what it returns lives as
/// long as they do. Two are equal if the units of the labels are.
#[derive(Clone, Copy)]
pub struct FileSystemVolumeLabel<'a> {
    bytes: &'a [u8],
    pub ghost named: { EndsWithName lone_label_offset bytes.now },
}

impl<'a> FileSystemVolumeLabel<'a> {
    ghost use Rattle.uefi_records.specs.file.Views.{volume_label_view, volume_label_of};

    /// Reads the record in the first `written` bytes of the buffer, or in the whole buffer if it is
    /// shorter.
    ///
    /// The label ends with the first zero unit there.
    ///
    /// # Errors
    ///
    /// [`BAD_BUFFER_SIZE`](uefi_base::Status::BAD_BUFFER_SIZE), with no data, if no unit there is
    /// zero.
    pub fn from_uefi(
        buffer: &'a [u8],
        written: usize,
    ) -> Result<FileSystemVolumeLabel<'a>, Error<Option<usize>>>
        ensures verdict { FollowsVerdict volume_label_of
            (volume_label_verdict (take written buffer.now) (length buffer.now)) result }
    {
        let end = name_end(buffer, written, LABEL_OFFSET, ALIGNMENT)?;
        Ok(FileSystemVolumeLabel {
            bytes: &buffer[..end],
        })
    }

    /// Writes a record to the beginning of the storage, and returns a view of it. All that follows
    /// stays as it was.
    ///
    /// # Errors
    ///
    /// [`FileInfoCreationError::InsufficientStorage`], with the record's size, exactly if the
    /// storage is shorter. Every byte then stays as it was.
    pub fn new(
        storage: &'a mut [u8],
        volume_label: &CStr16,
    ) -> Result<FileSystemVolumeLabel<'a>, FileInfoCreationError>
        ensures* after { sem 𝓛 (EndsAs storage.entry (λ after. MatchResult result
            (λ _. after ≡ put_prefix (volume_label_bytes (text_units volume_label.now)) storage.old)
            (λ _. after ≡ storage.old))) }
        ensures label { IfOk result
            (λ label. volume_label_of label ≡ text_units volume_label.now) }
        ensures label_fits { OnOk result (FitName (text_units volume_label.now)) }
        ensures short { IfErr result (λ error. error ≡ FileInfoCreationError.InsufficientStorage
            (volume_label_size (length (text_units volume_label.now)))) }
        ensures fits { IsOk result
            ↔ (volume_label_size (length (text_units volume_label.now)) ≤ length storage.old) }
    {
        let written = write_file_system_volume_label(storage, volume_label);
        FileSystemVolumeLabel::over(storage, written)
    }

    /// Returns the units of the label: the last is zero, the NUL, and no other is.
    pub fn volume_label(&self) -> UnalignedSlice<'a>
        ensures units { slice_units result ≡ volume_label_of self.now }
        ensures name { FitName (slice_units result) }
    {
        name_at(self.bytes, LABEL_OFFSET)
    }

    /// Returns the view of the record that was written, if it was.
    fn over(
        bytes: &'a [u8],
        written: Result<usize, FileInfoCreationError>,
    ) -> Result<FileSystemVolumeLabel<'a>, FileInfoCreationError>
        requires { IfOk written
            (λ end. (end ≤ length bytes.now)
            × EndsWithName lone_label_offset (take end bytes.now)) }
        ensures seen { MatchResult written
            (λ end. IfOk result (λ label. volume_label_view label ≡ take end bytes.now))
            (λ error. result ≡ Err error) }
        ensures ok { IsOk result ↔ IsOk written }
    {
        let end = written?;
        Ok(FileSystemVolumeLabel {
            bytes: &bytes[..end],
        })
    }
}

impl PartialEq for FileSystemVolumeLabel<'_> {
    ghost use Rattle.uefi_records.specs.file.Views.{volume_label_of};

    ghost eq = { λ x y. pointwise nat_eq (volume_label_of x) (volume_label_of y) };

    ghost laws = { on_per volume_label_of (partial_equiv_from_equiv nat_list_eq_equiv) };

    fn eq(&self, other: &Self) -> bool {
        self.volume_label() == other.volume_label()
    }
}

impl Eq for FileSystemVolumeLabel<'_> {
    ghost use Rattle.uefi_records.specs.file.Views.{volume_label_of};

    ghost laws = { on_equiv volume_label_of nat_list_eq_equiv };
}

impl Align for FileSystemVolumeLabel<'_> {
    ghost alignment = { volume_label_alignment };

    fn alignment() -> usize
        ensures { result ≡ volume_label_alignment }
    {
        ALIGNMENT
    }
}

impl IdentifiedBy for FileSystemVolumeLabel<'_> {
    type Identity = FileSystemVolumeLabelIdentity;
}

impl FileProtocolInfo for FileSystemVolumeLabel<'_> {}
