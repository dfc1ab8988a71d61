ghost use Rattle.std.specs.Prelude.{◌≡◌, ◌↔◌, ◌==◌, ◌+◌, ◌*◌, ◌%◌, ◌<◌, ◌≤◌, length, encode_utf8_all, string_bytes, filter, not, IsTrue, IsNone, IsSome, IfOk, IfSome, SomeIff};
ghost use Rattle.std.specs.Str.{chars};
ghost use Rattle.uefi_base.specs.declared.status.Status.TheVariants.{BUFFER_TOO_SMALL};
ghost use Rattle.uefi_base.specs.declared.text_error.FromSliceWithNulError.{FromSliceWithNulError};
ghost use Rattle.uefi_base.specs.Ucs2.{IsUcs2Text, MakeUcs2Text, characters_of};
ghost use Rattle.uefi_base.specs.Faults.{HasFault};
ghost use Rattle.uefi_base.specs.Buffer.{put_at};
ghost use Rattle.uefi_base.specs.LittleEndian.{u16_at, u32_bytes};
ghost use Rattle.uefi_base.specs.Unaligned.{units_of};
ghost use Rattle.uefi_base.specs.GuidText.{guid_text};
ghost use Rattle.uefi_base.specs.Views.{slice_units, units_left, error_status, error_data};

use std::alloc::{AllocError, Global};
use uefi_base::buffer::{put, put_units};
use uefi_base::laws::{units_by_place, units_read_back};
use uefi_base::little_endian::u32_at;
use uefi_base::{
    Align, CStr16, CString16, Error, FromSliceWithNulError, FromStrError, Guid, Identify, Status,
    UnalignedSlice, UnalignedSliceIter,
};

/// Returns whether `units` are text.
pub fn is_text(units: &[u16]) -> bool
    ensures { IsTrue result ↔ IsUcs2Text units.now }
{
    CStr16::from_u16_with_nul(units).is_ok()
}

/// Returns the error that `units` have, or `None` if they are text.
pub fn fault_of(units: &[u16]) -> Option<FromSliceWithNulError>
    ensures text { IsNone result ↔ IsUcs2Text units.now }
    ensures fault { (fault : FromSliceWithNulError) →
        (result ≡ Some fault) ↔ HasFault units.now fault }
{
    CStr16::from_u16_with_nul(units).err()
}

/// Returns the characters of `units`, or `None` if the units aren't text.
pub fn characters(alloc: Global, units: &[u16]) -> Result<Option<String>, AllocError>
    ensures accepted { IfOk result (λ found. IsSome found ↔ IsUcs2Text units.now) }
    ensures text { let expected = encode_utf8_all (characters_of units.now) in
        IfOk result (λ found. IfSome found (λ text. string_bytes text ≡ expected)) }
{
    let Ok(text) = CStr16::from_u16_with_nul(units) else {
        return Ok(None);
    };
    Ok(Some(text.to_string(alloc)?))
}

/// Makes text from characters and returns its characters, the same ones, or `None` if they can't be
/// text.
pub fn written_and_read(alloc: Global, text: &str) -> Result<Option<String>, AllocError>
    ensures accepted { IfOk result (λ read. IsSome read ↔ MakeUcs2Text (chars text.now)) }
    ensures same { IfOk result
        (λ read. IfSome read (λ back. string_bytes back ≡ text.now)) }
{
    let made = match CString16::from_str(alloc, text) {
        Ok(made) => made,
        Err(FromStrError::Memory) => return Err(AllocError),
        Err(_) => return Ok(None),
    };
    Ok(Some(made.as_cstr16().to_string(alloc)?))
}

/// Returns the units of `bytes`, or `None` if a last byte is left over.
pub fn units_in(alloc: Global, bytes: &[u8]) -> Result<Option<Vec<u16>>, AllocError>
    ensures accepted { IfOk result (λ found. IsSome found ↔ (length bytes.now % 2 ≡ 0)) }
    ensures units { IfOk result
        (λ found. IfSome found (λ units. units.items ≡ units_of bytes.now)) }
{
    if bytes.len() % 2 != 0 {
        return Ok(None);
    }
    let units = UnalignedSlice::new(bytes).iter().collect(alloc)?;
    Ok(Some(units))
}

/// Returns the units of a slice, by `collect`.
pub fn all_units(alloc: Global, slice: &UnalignedSlice<'_>) -> Result<Vec<u16>, AllocError>
    ensures { IfOk result (λ units. units.items ≡ slice_units slice.now) }
{
    slice.iter().collect(alloc)
}

/// Returns the number of units of a slice, by `count`.
pub fn unit_count(slice: &UnalignedSlice<'_>) -> usize
    ensures { result ≡ length (slice_units slice.now) }
{
    slice.iter().count()
}

/// Returns the number of units that an iterator hasn't returned yet, by `len` and as both bounds of
/// `size_hint`.
pub fn counts_left(iter: &UnalignedSliceIter<'_>) -> (usize, (usize, Option<usize>))
    ensures count { result.0 ≡ length (units_left iter.now) }
    ensures bounds { result.1 ≡ (length (units_left iter.now), Some (length (units_left iter.now))) }
{
    (iter.len(), iter.size_hint())
}

/// Returns the units that aren't zero, by `for`.
pub fn nonzero_units(alloc: Global, slice: &UnalignedSlice<'_>) -> Result<Vec<u16>, AllocError>
    ensures { IfOk result
        (λ units. units.items ≡ filter (λ unit. not (unit == 0)) (slice_units slice.now)) }
{
    let mut units = Vec::new(alloc);
    for unit in slice.iter() {
        if unit != 0 {
            units.push(unit)?;
        }
    }
    Ok(units)
}

/// Writes a number to a buffer at an offset and reads it back: the same number.
pub fn number_read_back(buffer: &mut [u8], offset: usize, number: u32) -> u32
    requires { offset + 4 ≤ length buffer.old }
    ensures read { result ≡ number }
    ensures written { buffer.new ≡ put_at offset (u32_bytes number) buffer.old }
{
    put(buffer, offset, &number.to_le_bytes());
    u32_at(buffer, offset)
}

/// Writes units to the beginning of a buffer and returns them as they stand there.
pub fn units_in_buffer<'a>(buffer: &'a mut [u8], units: &[u16]) -> UnalignedSlice<'a>
    requires { 2 * length units.now ≤ length buffer.old }
    ensures { slice_units result ≡ units.now }
{
    units_read_back();
    put_units(buffer, 0, units);
    UnalignedSlice::new(&buffer[..2 * units.len()])
}

/// Returns the unit at an index, the number at twice the index, or `None` if there is none or a
/// last byte is left over.
pub fn unit_in(bytes: &[u8], index: usize) -> Option<u16>
    ensures { SomeIff result ((length bytes.now % 2 ≡ 0) × (2 * index < length bytes.now))
        (u16_at bytes.now (2 * index)) }
{
    units_by_place();
    if bytes.len() % 2 != 0 {
        return None;
    }
    UnalignedSlice::new(bytes).get(index)
}

/// Returns the text of a GUID.
pub fn guid_label(alloc: Global, guid: &Guid) -> Result<String, AllocError>
    ensures { IfOk result (λ text. string_bytes text ≡ guid_text guid.now.0) }
{
    guid.to_string(alloc)
}

/// Returns whether two GUIDs are equal: whether their bytes are.
pub fn is_same_guid(guid: &Guid, other: &Guid) -> bool
    ensures { IsTrue result ↔ (guid.now.0 ≡ other.now.0) }
{
    guid == other
}

/// Returns the GUID of a type, by its constant.
pub fn guid_of<T: Identify>() -> Guid
    ensures { result ≡ T.GUID }
{
    T::GUID
}

/// Returns the same GUID, by the call.
pub fn identity_of<T: Identify>() -> Guid
    ensures { result ≡ T.GUID }
{
    T::identity()
}

/// Returns the alignment of a type.
pub fn alignment_of<T: Align>() -> usize
    ensures { result ≡ T.alignment }
{
    T::alignment()
}

/// Returns whether an error says that a buffer is too small.
pub fn is_too_small<D>(error: &Error<D>) -> bool
    ensures { IsTrue result ↔ (error_status error.now ≡ BUFFER_TOO_SMALL) }
{
    error.status() == Status::BUFFER_TOO_SMALL
}

/// Returns the size that an error holds as its data.
pub fn size_beside(error: &Error<Option<usize>>) -> Option<usize>
    ensures { result ≡ error_data error.now }
{
    *error.data()
}

/// Returns whether two errors are equal: whether their statuses and their data are.
pub fn is_same_error(error: &Error<Option<usize>>, other: &Error<Option<usize>>) -> bool
    ensures { IsTrue result ↔ (error.now ≡ other.now) }
{
    error == other
}
