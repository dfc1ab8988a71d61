//! Bytes and numbers, displayed in lower case hex.

ghost use Rattle.std.specs.Prelude.{◌≡◌, ◌≤◌, ◌<◌, length, false, IsAscii, Some};
ghost use Rattle.std.specs.Fmt.{DisplaysOnOk, digit_glyph};
ghost use Rattle.uefi_base.specs.GuidText.{hex_byte};
ghost use Rattle.shown.specs.HexText.{gap_before, hex_of, hex_number};

use std::fmt;

/// The lower case hex digits.
const DIGITS: &[u8; 16] = b"0123456789abcdef";

/// How many bytes are written at a time.
const BLOCK: usize = 64;

/// How many digits a block has.
const BLOCK_DIGITS: usize = 128;

/// The most bytes that the text of a number has: `0x` and sixteen digits.
const NUMBER_LENGTH: usize = 18;

/// A byte, displayed as two lower case hex digits.
#[derive(Clone, Copy)]
pub struct HexByte(pub u8);

impl fmt::Display for HexByte {
    ghost output = { λ byte. Some (hex_byte byte.0) };

    fn fmt<W: fmt::Write>(&self, f: &mut fmt::Formatter<W>) -> fmt::Result {
        write_byte(f, self.0)
    }
}

/// Writes the two hex digits of a byte.
fn write_byte<W: fmt::Write>(f: &mut fmt::Formatter<W>, byte: u8) -> fmt::Result
    ensures { DisplaysOnOk W.write_str_gives f.old result (Some (hex_byte byte)) f.new }
{
    let digits = [hex_digit(byte / 16), hex_digit(byte % 16)];
    f.write_str(ascii(&digits))
}

/// Bytes, displayed as two lower case hex digits each.
#[derive(Clone, Copy)]
pub struct Hex<'a>(pub &'a [u8]);

impl fmt::Display for Hex<'_> {
    ghost output = { λ hex. Some (hex_of hex.0.now) };

    fn fmt<W: fmt::Write>(&self, f: &mut fmt::Formatter<W>) -> fmt::Result {
        write_hex(f, self.0)
    }
}

/// Writes two lower case hex digits for each byte, a block at a time.
///
/// # Errors
///
/// [`fmt::Error`] if a write to the formatter fails.
pub(crate) fn write_hex<W: fmt::Write>(f: &mut fmt::Formatter<W>, bytes: &[u8]) -> fmt::Result
    ensures { DisplaysOnOk W.write_str_gives f.old result (Some (hex_of bytes.now)) f.new }
{
    let mut rest = bytes;
    while rest.len() > BLOCK {
        let (block, after) = rest.split_at(BLOCK);
        write_block(f, block)?;
        rest = after;
    }
    write_block(f, rest)
}

/// Writes the digits of a block at once.
fn write_block<W: fmt::Write>(f: &mut fmt::Formatter<W>, block: &[u8]) -> fmt::Result
    requires { length block.now ≤ BLOCK }
    ensures { DisplaysOnOk W.write_str_gives f.old result (Some (hex_of block.now)) f.new }
{
    let mut room = [0; BLOCK_DIGITS];
    let digits = &mut room[..2 * block.len()];
    match hex::encode_to_slice(block, digits) {
        Ok(()) => f.write_str(ascii(digits)),
        Err(_) => unreachable!(),
    }
}

/// Returns a space if the bytes are at least one, and else nothing.
#[tactic(auto, unfolding(crate::specs::HexText::gap_before))]
pub fn gap_before(bytes: &[u8]) -> &'static str
    ensures { result.now ≡ gap_before bytes.now }
{
    match bytes {
        [] => "",
        [_, ..] => " ",
    }
}

/// A number, displayed as `0x` and lower case hex digits without leading zeros.
#[derive(Clone, Copy)]
pub struct HexNumber(pub u64);

impl fmt::Display for HexNumber {
    ghost output = { λ number. Some (hex_number number.0) };

    fn fmt<W: fmt::Write>(&self, f: &mut fmt::Formatter<W>) -> fmt::Result {
        write_number(f, self.0)
    }
}

/// Writes `0x` and the hex digits of a number, without leading zeros.
fn write_number<W: fmt::Write>(f: &mut fmt::Formatter<W>, number: u64) -> fmt::Result
    ensures { DisplaysOnOk W.write_str_gives f.old result (Some (hex_number number)) f.new }
{
    let mut text = [0; NUMBER_LENGTH];
    let (mut start, mut rest) = (NUMBER_LENGTH, number);
    while rest >= 16 {
        start -= 1;
        text[start] = hex_digit((rest % 16) as u8);
        rest /= 16;
    }
    text[start - 1] = hex_digit(rest as u8);
    text[start - 2] = b'x';
    text[start - 3] = b'0';
    f.write_str(ascii(&text[start - 3..]))
}

/// Returns the lower case hex digit of a value below sixteen.
#[tactic(auto, using(crate::proofs::HexBlocks::digit_by_index))]
fn hex_digit(value: u8) -> u8
    requires { value < 16 }
    ensures { result ≡ digit_glyph false value }
{
    DIGITS[usize::from(value)]
}

/// Returns ASCII bytes as text.
fn ascii(bytes: &[u8]) -> &str
    requires { IsAscii bytes.now }
    ensures { result.now ≡ bytes.now }
{
    // ASCII is UTF-8.
    unsafe { str::from_utf8_unchecked(bytes) }
}
