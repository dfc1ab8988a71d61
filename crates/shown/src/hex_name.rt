//! Names of files and descriptions, displayed by their units.

ghost use Rattle.std.specs.Prelude.{◌≡◌, ◌≤◌, ◌-◌, ◌*◌, length, take, slice_range, flat_map, Some};
ghost use Rattle.std.specs.Fmt.{DisplaysOnOk};
ghost use Rattle.std.specs.Int.{w16, to_be_bytes};
ghost use Rattle.uefi_base.specs.Ucs2.{characters_of};
ghost use Rattle.uefi_base.specs.Views.{slice_units};
ghost use Rattle.shown.specs.HexName.{name_field, units_hex};

use crate::hex_text::write_hex;
use std::fmt;
use uefi_base::UnalignedSlice;

/// How many units of a name are written at a time.
const BLOCK_UNITS: usize = 32;

/// How many bytes these units have.
const BLOCK_BYTES: usize = 64;

/// A name with its NUL, displayed as a space and its characters, four hex digits each; as nothing
/// if it has none.
#[derive(Clone, Copy)]
pub struct HexName<'a>(pub UnalignedSlice<'a>);

impl fmt::Display for HexName<'_> {
    ghost output = { λ name. Some (name_field (characters_of (slice_units name.0))) };

    fn fmt<W: fmt::Write>(&self, f: &mut fmt::Formatter<W>) -> fmt::Result {
        let count = self.0.len().saturating_sub(1);
        if count == 0 {
            return Ok(());
        }
        f.write_str(" ")?;
        write_units(f, &self.0, count)
    }
}

/// Writes four hex digits for each of the first units, a block at a time.
fn write_units<W: fmt::Write>(
    f: &mut fmt::Formatter<W>,
    units: &UnalignedSlice<'_>,
    count: usize,
) -> fmt::Result
    requires { count ≤ length (slice_units units.now) }
    ensures { DisplaysOnOk W.write_str_gives f.old result
        (Some (units_hex (take count (slice_units units.now)))) f.new }
{
    let mut start = 0;
    while start < count {
        let end = start + BLOCK_UNITS.min(count - start);
        let mut room = [0; BLOCK_BYTES];
        let bytes = &mut room[..2 * (end - start)];
        fill_big_endian(bytes, units, start, end);
        write_hex(f, bytes)?;
        start = end;
    }
    Ok(())
}

/// Fills the bytes with the units from one index up to another, each with its high byte first.
fn fill_big_endian(bytes: &mut [u8], units: &UnalignedSlice<'_>, start: usize, end: usize)
    requires order { start ≤ end }
    requires within { end ≤ length (slice_units units.now) }
    requires room { length bytes.old ≡ 2 * (end - start) }
    ensures { bytes.new ≡ flat_map (to_be_bytes w16) (slice_range (slice_units units.now) start end) }
{
    for i in start..end {
        let [high, low] = units.get(i).unwrap_or(0).to_be_bytes();
        bytes[2 * (i - start)] = high;
        bytes[2 * (i - start) + 1] = low;
    }
}
