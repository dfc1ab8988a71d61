//! What readers and writers of records share: the name at a record's end, the verdict on written
//! bytes, and the room that a writer needs.

ghost use Rattle.std.specs.Prelude.{◌≡◌, ◌↔◌, ◌+◌, ◌*◌, ◌<◌, ◌≤◌, ◌^◌, length, take, IsOk, IfOk, IfErr, MatchResult};
ghost use Rattle.uefi_base.specs.Views.{slice_units};
ghost use Rattle.uefi_records.specs.file.FileInfo.{file_info_alignment, file_name_offset};
ghost use Rattle.uefi_records.specs.file.Name.{FitName, record_end, record_size, round_up, units_from};
ghost use Rattle.uefi_records.specs.private.file.Kept.{EndsWithName};
ghost use Rattle.uefi_records.specs.file.Verdict.{verdict, accepted, Refuses};

use crate::file::creation_error::FileInfoCreationError;
use crate::file::first_zero::{UNIT_LENGTH, first_zero_unit};
use uefi_base::{Error, Status, UnalignedSlice};

/// Returns the units of the name from the offset on.
#[tactic(auto, using(crate::proofs::file::Names::FitName_from))]
pub(crate) fn name_at(bytes: &[u8], offset: usize) -> UnalignedSlice<'_>
    requires { EndsWithName offset bytes.now }
    ensures units { slice_units result ≡ units_from offset bytes.now }
    ensures name { FitName (slice_units result) }
{
    let (_, name) = bytes.split_at(offset);
    UnalignedSlice::new(name)
}

/// Returns the number, rounded up to a multiple of the alignment.
fn round_up(n: usize, alignment: usize) -> usize
    requires positive { 0 < alignment }
    requires room { n + alignment < 2 ^ 64 }
    ensures { result ≡ round_up n alignment }
{
    (n + (alignment - 1)) / alignment * alignment
}

/// Returns the end of the record in the first `written` bytes, whose name begins at the offset.
#[tactic(auto, using(crate::proofs::file::Judging::written_part))]
pub(crate) fn name_end(
    buffer: &[u8],
    written: usize,
    offset: usize,
    alignment: usize,
) -> Result<usize, Error<Option<usize>>>
    requires positive { 0 < alignment }
    requires small { alignment ≤ file_info_alignment }
    ensures { let seen = verdict offset alignment (take written buffer.now) (length buffer.now) in
        MatchResult result
        (λ end. (end ≤ length buffer.now) × EndsWithName offset (take end buffer.now)
        × (seen ≡ accepted (units_from offset (take end buffer.now))))
        (Refuses seen) }
{
    let written = &buffer[..written.min(buffer.len())];
    let Some(index) = first_zero_unit(&written[offset.min(written.len())..]) else {
        return Err(Error::new(Status::BAD_BUFFER_SIZE, None));
    };
    let end = offset + UNIT_LENGTH * (index + 1);
    let size = round_up(end, alignment);
    if buffer.len() < size {
        Err(Error::new(Status::BUFFER_TOO_SMALL, Some(size)))
    } else {
        Ok(end)
    }
}

/// Returns the end and the size of a record with a name of this many units, if a buffer of this
/// length has room for it.
pub(crate) fn room_for(
    units: usize,
    offset: usize,
    alignment: usize,
    room: usize,
) -> Result<(usize, usize), FileInfoCreationError>
    requires positive { 0 < alignment }
    requires small { alignment ≤ file_info_alignment }
    requires near { offset ≤ file_name_offset }
    requires short { units ≤ 2 ^ 31 }
    ensures end { IfOk result (λ ends. ends.0 ≡ record_end offset units) }
    ensures size { IfOk result (λ ends. ends.1 ≡ record_size offset alignment units) }
    ensures fails { IfErr result (λ error. error
        ≡ FileInfoCreationError.InsufficientStorage (record_size offset alignment units)) }
    ensures fits { IsOk result ↔ (record_size offset alignment units ≤ room) }
{
    let end = offset + UNIT_LENGTH * units;
    let size = round_up(end, alignment);
    if room < size {
        Err(FileInfoCreationError::InsufficientStorage(size))
    } else {
        Ok((end, size))
    }
}
