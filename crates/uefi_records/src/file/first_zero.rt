//! The search for the NUL of a name.

ghost use Rattle.std.specs.Prelude.{◌≡◌, ◌==◌, ◌≤◌, ◌+◌, ◌*◌, not, length, drop, IfSome};
ghost use Rattle.std.specs.List.{position_from, prefix_len};
ghost use Rattle.std.specs.Simd.Lanes.{chunk};
ghost use Rattle.uefi_base.specs.Unaligned.{units_of};
ghost use Rattle.uefi_records.specs.file.Name.{first_zero, record_end, unit_length};

use std::simd::prelude::*;
use uefi_base::UnalignedSlice;

/// The length of a unit, in bytes.
pub(crate) const UNIT_LENGTH: usize = 2;

/// How many units are compared at a time.
const LANES: usize = 16;

/// Returns the index of the first zero among the whole units of the bytes, or `None` if no unit is
/// zero.
///
/// A unit is two bytes, the low byte first; an odd last byte is in none.
pub fn first_zero_unit(bytes: &[u8]) -> Option<usize>
    ensures first { result ≡ first_zero (units_of bytes.now) }
    ensures within { IfSome result
        (λ index. record_end 0 (index + 1) ≤ length bytes.now) }
{
    let mut index = 0;
    while index + LANES <= bytes.len() / UNIT_LENGTH {
        let run = nonzero_run(bytes, UNIT_LENGTH * index);
        if run < LANES {
            return Some(index + run);
        }
        index += LANES;
    }
    first_zero_from(bytes, index)
}

/// Returns how many of the sixteen units from the offset on come before the first zero.
fn nonzero_run(bytes: &[u8], offset: usize) -> usize
    requires { offset + 32 ≤ length bytes.now }
    ensures { result
        ≡ prefix_len (λ unit. not (unit == 0)) (units_of (chunk offset 32 bytes.now)) }
{
    let units = u16x16::from_le_bytes(u8x32::from_slice(&bytes[offset..]));
    let zeros = units.simd_eq(u16x16::splat(0)).to_bitmask();
    (zeros.trailing_zeros() as usize).min(LANES)
}

/// Returns the index of the first zero among the units from `start` on, one unit at a time.
fn first_zero_from(bytes: &[u8], start: usize) -> Option<usize>
    requires { unit_length * start ≤ length bytes.now }
    ensures first { result ≡ position_from (λ unit. unit == 0) start
        (units_of (drop (unit_length * start) bytes.now)) }
    ensures within { IfSome result
        (λ index. record_end 0 (index + 1) ≤ length bytes.now) }
{
    let (_, rest) = bytes.split_at(UNIT_LENGTH * start);
    let index = UnalignedSlice::new(&rest[..rest.len() / UNIT_LENGTH * UNIT_LENGTH])
        .iter()
        .position(|unit| unit == 0)?;
    Some(start + index)
}
