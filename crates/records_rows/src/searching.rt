use std::alloc::Global;
use uefi_records::first_zero_unit;

/// Returns where the NUL of a label of this many units is found, and where it is once its last byte
/// is cut.
pub(crate) fn nul_of_label(alloc: Global, input: &str) -> Option<String> {
    let units = input.parse::<usize>().ok()?;
    let mut bytes = vec![in alloc; 0x61u8; units.saturating_mul(2)].ok()?;
    bytes.extend_from_slice(&[0, 0]).ok()?;
    let whole = first_zero_unit(bytes.as_slice());
    let _last = bytes.pop();
    let cut = first_zero_unit(bytes.as_slice());
    format!(in alloc; "[{whole:?}, {cut:?}]").ok()
}

/// Makes bytes units that are not zero though one of their bytes is, in turn the low and the high
/// one; but for the unit at the index, which is zero.
fn put_zero_at(bytes: &mut [u8], index: usize) {
    for (i, byte) in bytes.iter_mut().enumerate() {
        let is_zero = i / 2 == index || i % 4 == 0 || i % 4 == 3;
        *byte = if is_zero { 0 } else { 0x61 };
    }
}

/// Returns where the first zero unit of this many bytes is found, where there is one at an index.
pub(crate) fn zero_unit(alloc: Global, input: &str) -> Option<String> {
    let (length, index) = input.split_once(" ; ")?;
    let (length, index) = (length.parse::<usize>().ok()?, index.parse::<usize>().ok()?);
    let mut bytes = vec![in alloc; 0u8; length].ok()?;
    put_zero_at(bytes.as_mut_slice(), index);
    let found = first_zero_unit(bytes.as_slice());
    format!(in alloc; "{found:?}").ok()
}

/// Returns the index of the first zero unit, by a search one unit at a time.
fn one_by_one(bytes: &[u8]) -> Option<usize> {
    bytes
        .chunks_exact(2)
        .position(|unit| unit == [0, 0].as_slice())
}

/// Returns the first length of a prefix in which the first zero unit is not found where a search one
/// unit at a time finds it.
fn wrong_length(bytes: &[u8]) -> Option<usize> {
    (0..=bytes.len()).find(|length| {
        let (prefix, _) = bytes.split_at(*length);
        first_zero_unit(prefix) != one_by_one(prefix)
    })
}

/// Returns the first such length for this many bytes, with a zero unit at each index in turn.
pub(crate) fn zero_units(alloc: Global, input: &str) -> Option<String> {
    let length = input.parse::<usize>().ok()?;
    let mut bytes = vec![in alloc; 0u8; length].ok()?;
    let mut wrong = None;
    for index in 0..=length / 2 {
        put_zero_at(bytes.as_mut_slice(), index);
        wrong = wrong.or(wrong_length(bytes.as_slice()));
    }
    format!(in alloc; "{wrong:?}").ok()
}
