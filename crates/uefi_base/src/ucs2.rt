ghost use Rattle.std.specs.Prelude.{◌↔◌, ◌<◌, IsTrue};
ghost use Rattle.std.specs.Option.{ForSome};
ghost use Rattle.uefi_base.specs.Ucs2.{IsSurrogate, IsCharacter};
ghost use Rattle.uefi_base.specs.private.Search.{TellsFault};

use crate::text_error::FromSliceWithNulError;

/// The largest number of units of a text, including its NUL.
pub(crate) const MAX_UNITS: usize = 1 << 31;

/// The last character that fits one unit.
pub(crate) const MAX_UNIT_CHARACTER: char = '\u{ffff}';

// The first and the last unit that are half of a surrogate pair of UTF-16.
const FIRST_SURROGATE: u16 = 0xd800;

const LAST_SURROGATE: u16 = 0xdfff;

/// Returns whether the unit is a character: neither a surrogate nor zero.
pub(crate) fn is_character(unit: u16) -> bool
    ensures { IsTrue result ↔ IsCharacter unit }
{
    unit != 0 && !is_surrogate(unit)
}

/// Returns whether the unit is half of a surrogate pair of UTF-16, which UCS-2 doesn't have.
fn is_surrogate(unit: u16) -> bool
    ensures { IsTrue result ↔ IsSurrogate unit }
{
    matches!(unit, FIRST_SURROGATE..=LAST_SURROGATE)
}

/// Returns the error for `count` units that aren't text, where `first` is the first unit that isn't
/// a character, with its index.
pub(crate) fn fault_of(count: usize, first: Option<(usize, u16)>) -> Option<FromSliceWithNulError>
    requires { ForSome first (λ found. found.0 < count) }
    ensures { TellsFault count first result }
{
    if count > MAX_UNITS {
        return Some(FromSliceWithNulError::TooLong);
    }
    let Some((index, unit)) = first else {
        return Some(FromSliceWithNulError::NotNulTerminated);
    };
    if is_surrogate(unit) {
        return Some(FromSliceWithNulError::InvalidChar(index));
    }
    if index + 1 < count {
        return Some(FromSliceWithNulError::InteriorNul(index));
    }
    None
}
