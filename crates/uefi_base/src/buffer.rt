//! Buffers: the bound on their length, and writing the parts of a record into one.
//!
//! A function that writes puts one part at an offset and leaves all other bytes unchanged. The
//! caller makes sure that the part fits, so that a writer compares the length of its buffer once
//! for all parts.

ghost use Rattle.std.specs.Prelude.{◌≡◌, ◌+◌, ◌*◌, ◌^◌, ◌≤◌, ◌<◌, length};
ghost use Rattle.uefi_base.specs.Buffer.{put_at};
ghost use Rattle.uefi_base.specs.Unaligned.{unit_bytes};

/// States that the length of a slice fits `usize`, so that what it holds can be counted, and does
/// nothing when it runs.
pub fn length_fits(bytes: &[u8])
    ensures { length bytes.now < 2 ^ 64 }
{
    let _length = bytes.len();
}

/// Copies `part` into `buffer` at `offset`, and leaves all other bytes unchanged. The caller makes
/// sure that the part fits, so that a writer compares the length of its buffer once for all parts.
pub fn put(buffer: &mut [u8], offset: usize, part: &[u8])
    requires { offset + length part.now ≤ length buffer.old }
    ensures { buffer.new ≡ put_at offset part.now buffer.old }
{
    let end = offset + part.len();
    buffer[offset..end].copy_from_slice(part);
}

/// Copies `units` into `buffer` at `offset`, two bytes each, little-endian.
#[tactic(auto, using(crate::proofs::UnitsPut::units_put))]
pub fn put_units(buffer: &mut [u8], offset: usize, units: &[u16])
    requires { offset + 2 * length units.now ≤ length buffer.old }
    ensures { buffer.new ≡ put_at offset (unit_bytes units.now) buffer.old }
{
    for (i, unit) in units.iter().enumerate() {
        put(buffer, offset + 2 * i, &unit.to_le_bytes());
    }
}
