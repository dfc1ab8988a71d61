//! How arguments of nodes are written.

ghost use Rattle.std.specs.Prelude.{◌≡◌, Some, IsTrue};
ghost use Rattle.std.specs.Fmt.{DisplaysOnOk};
ghost use Rattle.uefi_path_text.specs.text.Arguments.{hex_byte, hex_bytes, is_argument, is_argument_character};
ghost use Rattle.uefi_path_text.specs.text.SerialNumber.{is_serial_character};

use std::fmt;

/// Bytes, displayed as two upper case hex digits each.
#[derive(Clone, Copy)]
pub(crate) struct HexBytes<'a>(pub(crate) &'a [u8]);

impl fmt::Display for HexBytes<'_> {
    ghost output = { λ hex. Some (hex_bytes hex.0.now) };

    fn fmt<W: fmt::Write>(&self, f: &mut fmt::Formatter<W>) -> fmt::Result {
        write_hex(f, self.0)
    }
}

/// Writes two upper case hex digits for each byte.
#[tactic(auto, unfolding(crate::specs::text::Arguments::hex_bytes))]
fn write_hex<W: fmt::Write>(f: &mut fmt::Formatter<W>, bytes: &[u8]) -> fmt::Result
    ensures { DisplaysOnOk W.write_str_gives f.old result (Some (hex_bytes bytes.now)) f.new }
{
    for byte in bytes {
        write!(f, "{}", HexByte(*byte))?;
    }
    Ok(())
}

/// A byte, displayed as two upper case hex digits.
#[derive(Clone, Copy)]
pub(crate) struct HexByte(pub(crate) u8);

impl fmt::Display for HexByte {
    ghost output = { λ byte. Some (hex_byte byte.0) };

    #[tactic(auto, using(std::proofs::lemmas::Fmt::hex_byte))]
    fn fmt<W: fmt::Write>(&self, f: &mut fmt::Formatter<W>) -> fmt::Result {
        let byte = self.0;
        write!(f, "{byte:02X}")
    }
}

/// Returns whether bytes are a text that can be an argument: printable characters of ASCII, but
/// no parenthesis and no comma.
pub(crate) fn is_argument(text: &[u8]) -> bool
    ensures { result ≡ is_argument text.now }
{
    text.iter().all(|c| is_argument_character(*c))
}

/// Returns whether an argument may have a character.
pub(crate) fn is_argument_character(c: u8) -> bool
    ensures { result ≡ is_argument_character c }
{
    (0x20..0x7f).contains(&c) && c != b'(' && c != b')' && c != b','
}

/// Writes a text that can be an argument.
pub(crate) fn write_argument<W: fmt::Write>(f: &mut fmt::Formatter<W>, text: &[u8]) -> fmt::Result
    requires { IsTrue (is_argument text.now) }
    ensures { DisplaysOnOk W.write_str_gives f.old result (Some text.now) f.new }
{
    for c in text {
        f.write_char(char::from(*c))?;
    }
    Ok(())
}

/// Returns whether a text in quotes may have a character.
pub(crate) fn is_serial_character(c: u8) -> bool
    ensures { result ≡ is_serial_character c }
{
    is_argument_character(c) && c != b'"'
}
