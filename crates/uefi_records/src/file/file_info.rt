ghost use Rattle.std.specs.Prelude.{◌≡◌, ◌↔◌, ◌≤◌, length, take, not, Err, IsOk, IfOk, IfErr, OnOk, MatchResult, nat_eq};
ghost use Rattle.std.specs.Cmp.{partial_equiv_from_equiv, on_per, on_equiv};
ghost use Rattle.std.specs.Cmp.Lexicographic.{pointwise, nat_list_eq_equiv};
ghost use Rattle.std.specs.Borrow.{sem};
ghost use Rattle.uefi_base.specs.Buffer.{put_prefix, EndsAs};
ghost use Rattle.uefi_base.specs.LittleEndian.{AreBytes};
ghost use Rattle.uefi_base.specs.Views.{slice_units, text_units};
ghost use Rattle.uefi_base.specs.Flags.{has_bits};
ghost use Rattle.uefi_records.specs.flags.Named.{directory_attribute};
ghost use Rattle.uefi_records.specs.file.Name.{FitName};
ghost use Rattle.uefi_records.specs.private.file.Kept.{EndsWithName};
ghost use Rattle.uefi_records.specs.file.FileInfo.{FitFile, size_in, file_fields, file_info_alignment, file_info_bytes, file_info_size, file_info_verdict, file_name_offset};
ghost use Rattle.uefi_records.specs.file.Verdict.{FollowsVerdict};
ghost use Rattle.uefi_records.specs.flags.Views.{attribute_bits};
ghost use Rattle.uefi_records.specs.time.Views.{time_of};

use crate::file::creation_error::FileInfoCreationError;
use crate::file::identity::FileInfoIdentity;
use crate::file::name::{name_at, name_end};
use crate::file::protocol_info::FileProtocolInfo;
use crate::file::write::write_file_info;
use crate::flags::FileAttribute;
use crate::time::Time;
use uefi_base::little_endian::u64_at;
use uefi_base::{Align, CStr16, Error, IdentifiedBy, UnalignedSlice};

// The offsets of the fields, and the record's alignment.
pub(crate) const SIZE_OFFSET: usize = 0;

pub(crate) const FILE_SIZE_OFFSET: usize = 8;

pub(crate) const PHYSICAL_SIZE_OFFSET: usize = 16;

pub(crate) const CREATE_TIME_OFFSET: usize = 24;

pub(crate) const LAST_ACCESS_TIME_OFFSET: usize = 40;

pub(crate) const MODIFICATION_TIME_OFFSET: usize = 56;

pub(crate) const ATTRIBUTE_OFFSET: usize = 72;

pub(crate) const NAME_OFFSET: usize = 80;

pub(crate) const ALIGNMENT: usize = 8;

/// A file information record (UEFI 2.10, 13.5 `EFI_FILE_PROTOCOL.GetInfo()`, `EFI_FILE_INFO`): the
/// sizes, times, attributes and the name of a file.
///
/// | offset | bytes | field |
/// |---|---|---|
/// | 0 | 8 | size of the record, little-endian, as all numbers |
/// | 8 | 8 | size of the file |
/// | 16 | 8 | size that the file occupies on its volume |
/// | 24 | 16 | [`Time`] of creation |
/// | 40 | 16 | [`Time`] of the last access |
/// | 56 | 16 | [`Time`] of the last modification |
/// | 72 | 8 | [`FileAttribute`] |
/// | 80 | 2 a unit | name, with its NUL |
///
/// The size of the record is the length of all this, rounded up to a multiple of 8. A view: it
/// borrows the bytes that it was read from or written to, and what it returns lives as long as they
/// do. Two are equal if the stated sizes, all fields and the units of the names are.
///
/// # Examples
///
/// Firmware wrote a record to a buffer. Is the file a directory?
///
/// ```
/// pub fn is_directory_in(buffer: &[u8], written: usize) -> Option<bool> {
///     let info = FileInfo::from_uefi(buffer, written).ok()?;
///     Some(info.is_directory())
/// }
/// ```
#[derive(Clone, Copy)]
pub struct FileInfo<'a> {
    bytes: &'a [u8],
    pub ghost named: { EndsWithName file_name_offset bytes.now },
    pub ghost are_bytes: { AreBytes bytes.now },
}

impl<'a> FileInfo<'a> {
    ghost use Rattle.uefi_records.specs.file.Views.{file_fields_given, file_header_of, file_info_view};
    ghost use Rattle.uefi_records.specs.file.Views.{stated_size, file_fields_of, file_name_of};

    /// Reads the record in the first `written` bytes of the buffer, or in the whole buffer if it is
    /// shorter.
    ///
    /// The name ends with the first zero unit there. The size that the record states is not
    /// trusted.
    ///
    /// # Errors
    ///
    /// In this order:
    /// - [`BAD_BUFFER_SIZE`](uefi_base::Status::BAD_BUFFER_SIZE), with no data, if there are fewer
    ///   than 80 such bytes, or no unit from offset 80 on is zero.
    /// - [`BUFFER_TOO_SMALL`](uefi_base::Status::BUFFER_TOO_SMALL), with the size of the record of
    ///   that name, if the whole buffer is shorter.
    pub fn from_uefi(buffer: &'a [u8], written: usize) -> Result<FileInfo<'a>, Error<Option<usize>>>
        ensures verdict { FollowsVerdict file_name_of
            (file_info_verdict (take written buffer.now) (length buffer.now)) result }
        ensures size { IfOk result (λ info. stated_size info ≡ size_in buffer.now) }
        ensures fields { IfOk result (λ info. file_fields_of info ≡ file_fields buffer.now) }
    {
        let end = name_end(buffer, written, NAME_OFFSET, ALIGNMENT)?;
        Ok(FileInfo {
            bytes: &buffer[..end],
        })
    }

    /// Writes a record to the beginning of the storage, and returns a view of it.
    ///
    /// The stated size is the record's size, rounded up to a multiple of 8. The rounding bytes, and
    /// all that follows, stay as they were.
    ///
    /// # Errors
    ///
    /// [`FileInfoCreationError::InsufficientStorage`], with the record's size, exactly if the
    /// storage is shorter. Every byte then stays as it was.
    pub fn new(
        storage: &'a mut [u8],
        file_size: u64,
        physical_size: u64,
        create_time: Time,
        last_access_time: Time,
        modification_time: Time,
        attribute: FileAttribute,
        file_name: &CStr16,
    ) -> Result<FileInfo<'a>, FileInfoCreationError>
        ensures* after { sem 𝓛 (EndsAs storage.entry (λ after. MatchResult result
            (λ _. after ≡ put_prefix (file_info_bytes (file_fields_given file_size physical_size
            create_time last_access_time modification_time attribute)
            (text_units file_name.now)) storage.old)
            (λ _. after ≡ storage.old))) }
        ensures size { IfOk result (λ info. stated_size info
            ≡ file_info_size (length (text_units file_name.now))) }
        ensures fields { IfOk result (λ info. file_fields_of info
            ≡ file_fields_given file_size physical_size create_time last_access_time
            modification_time attribute) }
        ensures name { IfOk result (λ info. file_name_of info ≡ text_units file_name.now) }
        ensures fields_fit { OnOk result (FitFile (file_fields_given file_size physical_size
            create_time last_access_time modification_time attribute)) }
        ensures name_fits { OnOk result (FitName (text_units file_name.now)) }
        ensures short { IfErr result (λ error. error ≡ FileInfoCreationError.InsufficientStorage
            (file_info_size (length (text_units file_name.now)))) }
        ensures fits { IsOk result
            ↔ (file_info_size (length (text_units file_name.now)) ≤ length storage.old) }
    {
        let written = write_file_info(
            storage,
            file_size,
            physical_size,
            create_time,
            last_access_time,
            modification_time,
            attribute,
            file_name,
        );
        FileInfo::over(storage, written)
    }

    /// Returns the size that the record states.
    pub fn size(&self) -> u64
        ensures { result ≡ stated_size self.now }
    {
        u64_at(self.bytes, SIZE_OFFSET)
    }

    /// Returns the size of the file, in bytes.
    pub fn file_size(&self) -> u64
        ensures { result ≡ (file_fields_of self.now).file_size }
    {
        u64_at(self.bytes, FILE_SIZE_OFFSET)
    }

    /// Returns the size that the file occupies on its volume, in bytes.
    pub fn physical_size(&self) -> u64
        ensures { result ≡ (file_fields_of self.now).physical_size }
    {
        u64_at(self.bytes, PHYSICAL_SIZE_OFFSET)
    }

    /// Returns when the file was created: all sixteen bytes, whether or not they are valid.
    pub fn create_time(&self) -> Time
        ensures { time_of result ≡ (file_fields_of self.now).create_time }
    {
        Time::read(&self.bytes[CREATE_TIME_OFFSET..LAST_ACCESS_TIME_OFFSET])
    }

    /// Returns when the file was last accessed: all sixteen bytes, whether or not they are valid.
    pub fn last_access_time(&self) -> Time
        ensures { time_of result ≡ (file_fields_of self.now).last_access_time }
    {
        Time::read(&self.bytes[LAST_ACCESS_TIME_OFFSET..MODIFICATION_TIME_OFFSET])
    }

    /// Returns when the file was last modified: all sixteen bytes, whether or not they are valid.
    pub fn modification_time(&self) -> Time
        ensures { time_of result ≡ (file_fields_of self.now).modification_time }
    {
        Time::read(&self.bytes[MODIFICATION_TIME_OFFSET..ATTRIBUTE_OFFSET])
    }

    /// Returns the file's attributes: all bits, including those without a name.
    pub fn attribute(&self) -> FileAttribute
        ensures { attribute_bits result ≡ (file_fields_of self.now).attribute }
    {
        FileAttribute::from_bits_retain(u64_at(self.bytes, ATTRIBUTE_OFFSET))
    }

    /// Returns the units of the name: the last is zero, the NUL, and no other is.
    pub fn file_name(&self) -> UnalignedSlice<'a>
        ensures units { slice_units result ≡ file_name_of self.now }
        ensures name { FitName (slice_units result) }
    {
        name_at(self.bytes, NAME_OFFSET)
    }

    /// Returns whether the file is a directory.
    pub fn is_directory(&self) -> bool
        ensures { result ≡ has_bits (file_fields_of self.now).attribute directory_attribute }
    {
        self.attribute().contains(FileAttribute::DIRECTORY)
    }

    /// Returns whether the file is not a directory.
    pub fn is_regular_file(&self) -> bool
        ensures { result
            ≡ not (has_bits (file_fields_of self.now).attribute directory_attribute) }
    {
        !self.is_directory()
    }

    /// Returns the bytes of the stated size and the fields.
    #[tactic(auto, using(crate::proofs::file::FieldsBack::header_back))]
    fn header(&self) -> &'a [u8]
        ensures { result.now ≡ file_header_of self.now }
    {
        &self.bytes[..NAME_OFFSET]
    }

    /// Returns the view of the record that was written, if it was.
    fn over(
        bytes: &'a [u8],
        written: Result<usize, FileInfoCreationError>,
    ) -> Result<FileInfo<'a>, FileInfoCreationError>
        requires { IfOk written
            (λ end. (end ≤ length bytes.now) × EndsWithName file_name_offset (take end bytes.now)) }
        ensures seen { MatchResult written
            (λ end. IfOk result (λ info. file_info_view info ≡ take end bytes.now))
            (λ error. result ≡ Err error) }
        ensures ok { IsOk result ↔ IsOk written }
    {
        let end = written?;
        Ok(FileInfo {
            bytes: &bytes[..end],
        })
    }
}

impl PartialEq for FileInfo<'_> {
    ghost use Rattle.uefi_records.specs.file.Views.{file_info_key};

    ghost eq = { λ x y. pointwise nat_eq (file_info_key x) (file_info_key y) };

    ghost laws = { on_per file_info_key (partial_equiv_from_equiv nat_list_eq_equiv) };

    #[tactic(auto, using(crate::proofs::file::Equality::equal_if))]
    fn eq(&self, other: &Self) -> bool {
        self.header() == other.header() && self.file_name() == other.file_name()
    }
}

impl Eq for FileInfo<'_> {
    ghost use Rattle.uefi_records.specs.file.Views.{file_info_key};

    ghost laws = { on_equiv file_info_key nat_list_eq_equiv };
}

impl Align for FileInfo<'_> {
    ghost alignment = { file_info_alignment };

    fn alignment() -> usize
        ensures { result ≡ file_info_alignment }
    {
        ALIGNMENT
    }
}

impl IdentifiedBy for FileInfo<'_> {
    type Identity = FileInfoIdentity;
}

impl FileProtocolInfo for FileInfo<'_> {}
