ghost use Rattle.std.specs.Prelude.{◌≡◌, ◌↔◌, ◌+◌, ◌*◌, ◌<◌, ◌≤◌, length, slice_index, IsTrue};
ghost use Rattle.uefi_base.specs.Buffer.{put_at};
ghost use Rattle.uefi_base.specs.Unaligned.{unit_bytes};
ghost use Rattle.uefi_path.specs.private.Description.{IsDescription};

use uefi_base::buffer::put;
use uefi_base::{CStr16, UnalignedSlice};

/// The description of a load option that is to be written, with the NUL that ends it.
///
/// Each description that was read can be written again: it may have units that [`CStr16`] refuses,
/// such as half of a surrogate pair.
#[derive(Clone, Copy)]
pub enum LoadOptionDescription<'a> {
    /// Text.
    Text(CStr16<'a>),
    /// Any units, of which the last is zero and no other is, such as
    /// [`LoadOption::description`](crate::LoadOption::description) returns them.
    Units(UnalignedSlice<'a>),
}

impl<'a> LoadOptionDescription<'a> {
    ghost use Rattle.uefi_path.specs.LoadOptionParts.{description_units};

    /// Returns the number of units.
    pub(crate) fn len(&self) -> usize
        ensures { result ≡ length (description_units self.now) }
    {
        match self {
            LoadOptionDescription::Text(text) => text.as_u16_with_nul().len(),
            LoadOptionDescription::Units(units) => units.len(),
        }
    }

    /// Returns the unit at an index that is known to be in bounds.
    fn unit(&self, index: usize) -> u16
        requires { index < length (description_units self.now) }
        ensures { result ≡ slice_index (description_units self.now) index }
    {
        match self {
            LoadOptionDescription::Text(text) => text.as_u16_with_nul()[index],
            LoadOptionDescription::Units(units) => units.get(index).unwrap(),
        }
    }

    /// Returns whether the last unit is zero, and no other is.
    pub(crate) fn ends_with_only_nul(&self) -> bool
        ensures { IsTrue result ↔ IsDescription (description_units self.now) }
    {
        for i in 0..self.len() {
            if self.unit(i) == 0 {
                return i + 1 == self.len();
            }
        }
        false
    }

    /// Copies the units into `buffer` at `offset`, two bytes each, little-endian.
    #[tactic(auto, using(uefi_base::proofs::UnitsPut::units_put))]
    pub(crate) fn put(&self, buffer: &mut [u8], offset: usize)
        requires { offset + 2 * length (description_units self.now) ≤ length buffer.old }
        ensures { buffer.new ≡ put_at offset (unit_bytes (description_units self.now)) buffer.old }
    {
        for i in 0..self.len() {
            put(buffer, offset + 2 * i, &self.unit(i).to_le_bytes());
        }
    }
}
