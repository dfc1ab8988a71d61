//! Texts for display, in which nothing is hidden.

ghost use Rattle.std.specs.Prelude.{◌≡◌, ◌==◌, length, Some};
ghost use Rattle.std.specs.Fmt.{DisplaysOnOk};
ghost use Rattle.uefi_base.specs.Utf16.{lossy_characters};
ghost use Rattle.uefi_base.specs.Views.{slice_units};
ghost use Rattle.uefi_path_text.specs.write.Partial.{escaped_byte, escaped_bytes, escaped_character, escaped_characters, whole_units};

use crate::text::arguments::HexByte;
use crate::text::file_name::is_control;
use crate::write::bytes::front;
use std::fmt;
use uefi_base::UnalignedSlice;

/// The bytes of a text: those that aren't printable characters of ASCII as `\x0A`.
#[derive(Clone, Copy)]
pub(crate) struct EscapedBytes<'a>(pub(crate) &'a [u8]);

impl fmt::Display for EscapedBytes<'_> {
    ghost output = { λ escaped. Some (escaped_bytes escaped.0.now) };

    fn fmt<W: fmt::Write>(&self, f: &mut fmt::Formatter<W>) -> fmt::Result {
        write_escaped_bytes(f, self.0)
    }
}

/// Writes them.
#[tactic(auto, unfolding(crate::specs::write::Partial::escaped_bytes))]
fn write_escaped_bytes<W: fmt::Write>(f: &mut fmt::Formatter<W>, bytes: &[u8]) -> fmt::Result
    ensures { DisplaysOnOk W.write_str_gives f.old result (Some (escaped_bytes bytes.now)) f.new }
{
    for byte in bytes {
        write!(f, "{}", EscapedByte(*byte))?;
    }
    Ok(())
}

/// A byte of such a text.
#[derive(Clone, Copy)]
struct EscapedByte(u8);

impl fmt::Display for EscapedByte {
    ghost output = { λ escaped. Some (escaped_byte escaped.0) };

    fn fmt<W: fmt::Write>(&self, f: &mut fmt::Formatter<W>) -> fmt::Result {
        let byte = self.0;
        if (0x20..0x7f).contains(&byte) {
            f.write_char(char::from(byte))
        } else {
            write!(f, "\\x{}", HexByte(byte))
        }
    }
}

/// The characters of units of two bytes, up to the first NUL or the end: control characters as
/// `\u{A}`.
#[derive(Clone, Copy)]
pub(crate) struct EscapedUnits<'a>(UnalignedSlice<'a>);

impl<'a> EscapedUnits<'a> {
    ghost use Rattle.uefi_path_text.specs.private.Escapes.{units_shown};

    /// Returns the whole units of the bytes.
    pub(crate) fn new(bytes: &'a [u8]) -> EscapedUnits<'a>
        ensures { units_shown result ≡ whole_units bytes.now }
    {
        EscapedUnits(UnalignedSlice::new(front(bytes, bytes.len() - bytes.len() % 2)))
    }

    /// Returns whether there is no character.
    pub(crate) fn is_empty(&self) -> bool
        ensures { result ≡ (length (lossy_characters (units_shown self.now)) == 0) }
    {
        self.0.chars_lossy().next().is_none()
    }
}

impl fmt::Display for EscapedUnits<'_> {
    ghost use Rattle.uefi_path_text.specs.private.Escapes.{escapes_shown};

    ghost output = { λ escaped. Some (escapes_shown escaped) };

    fn fmt<W: fmt::Write>(&self, f: &mut fmt::Formatter<W>) -> fmt::Result {
        write_escaped_units(f, self.0)
    }
}

/// Writes them.
fn write_escaped_units<W: fmt::Write>(
    f: &mut fmt::Formatter<W>,
    units: UnalignedSlice<'_>,
) -> fmt::Result
    ensures { DisplaysOnOk W.write_str_gives f.old result
        (Some (escaped_characters (lossy_characters (slice_units units.entry)))) f.new }
{
    for character in units.chars_lossy() {
        write!(f, "{}", EscapedCharacter(character))?;
    }
    Ok(())
}

/// A character of such a name.
#[derive(Clone, Copy)]
struct EscapedCharacter(char);

impl fmt::Display for EscapedCharacter {
    ghost output = { λ escaped. Some (escaped_character escaped.0) };

    fn fmt<W: fmt::Write>(&self, f: &mut fmt::Formatter<W>) -> fmt::Result {
        let character = self.0;
        if is_control(character) {
            let number = u32::from(character);
            write!(f, "\\u{{{number:X}}}")
        } else {
            f.write_char(character)
        }
    }
}
