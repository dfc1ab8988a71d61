//! Digits of a fixed shape, read.

ghost use Rattle.std.specs.Prelude.{◌≡◌, ◌≤◌, ◌<◌, length, IfErr, OnOk, OnErr, IsTrue, false};
ghost use Rattle.std.specs.Char.{digit_value};
ghost use Rattle.uefi_path_text.specs.parse.Values.{pattern, offsets, has_pattern, fits_mark, byte_of_digits, is_hex_digit};

use crate::form::shape::Shape;

impl Shape {
    /// Returns the pattern: `x` for a hex digit, and other characters as they are.
    fn pattern(self) -> &'static [u8]
        ensures { result.now ≡ pattern self }
    {
        match self {
            Shape::Guid => b"xxxxxxxx-xxxx-xxxx-xxxx-xxxxxxxxxxxx",
            Shape::Eui64 => b"xx-xx-xx-xx-xx-xx-xx-xx",
            Shape::Ieee1394 => b"xxxxxxxxxxxxxxxx",
            Shape::Address => b"xxxxxxxxxxxx",
        }
    }

    /// Returns the offsets of the digits of each byte.
    pub(crate) fn offsets(self) -> &'static [usize]
        ensures { result.now ≡ offsets self }
    {
        match self {
            Shape::Guid => &[6, 4, 2, 0, 11, 9, 16, 14, 19, 21, 24, 26, 28, 30, 32, 34],
            Shape::Eui64 => &[21, 18, 15, 12, 9, 6, 3, 0],
            Shape::Ieee1394 => &[14, 12, 10, 8, 6, 4, 2, 0],
            Shape::Address => &[0, 2, 4, 6, 8, 10],
        }
    }

    /// Returns whether a text has the shape.
    ///
    /// # Errors
    ///
    /// The offset of the first character that no text of the shape has there.
    pub(crate) fn check(self, text: &[u8]) -> Result<(), usize>
        ensures ok { OnOk result (IsTrue (has_pattern (pattern self) text.now)) }
        ensures err { OnErr result (has_pattern (pattern self) text.now ≡ false) }
        ensures offset { IfErr result (λ offset. offset ≤ length text.now) }
    {
        let marks = self.pattern();
        for (offset, c) in text.iter().enumerate() {
            if offset == marks.len() || !fits(marks[offset], *c) {
                return Err(offset);
            }
        }
        if text.len() == marks.len() {
            Ok(())
        } else {
            Err(text.len())
        }
    }
}

/// Returns whether a character is what a pattern has: a hex digit, or the same character.
fn fits(mark: u8, c: u8) -> bool
    ensures { result ≡ fits_mark mark c }
{
    if mark == b'x' {
        is_hex_digit(c)
    } else {
        c == mark
    }
}

/// Returns whether a character is a hex digit.
pub(crate) fn is_hex_digit(c: u8) -> bool
    ensures { result ≡ is_hex_digit c }
{
    c.is_ascii_hexdigit()
}

/// Returns the byte of two hex digits.
pub(crate) fn byte_of_digits(high: u8, low: u8) -> u8
    requires high { IsTrue (is_hex_digit high) }
    requires low { IsTrue (is_hex_digit low) }
    ensures { result ≡ byte_of_digits high low }
{
    16 * hex_value(high) + hex_value(low)
}

/// Returns the value of a hex digit.
fn hex_value(c: u8) -> u8
    requires { IsTrue (is_hex_digit c) }
    ensures value { result ≡ digit_value c }
    ensures small { result < 16 }
{
    match c {
        b'0'..=b'9' => c - b'0',
        b'A'..=b'F' => c - b'A' + 10,
        _ => c - b'a' + 10,
    }
}
