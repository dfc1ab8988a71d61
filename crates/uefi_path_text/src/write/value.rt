ghost use Rattle.std.specs.Prelude.{◌≡◌, ◌≤◌, ◌%◌, ◌==◌, ◌||◌, length, map, replicate, Some, None, IsTrue, MatchOption};
ghost use Rattle.std.specs.Fmt.{DisplaysOnOk};
ghost use Rattle.std.specs.Str.{bytes_eq};
ghost use Rattle.uefi_path_text.specs.text.SerialNumber.{is_serial_character};
ghost use Rattle.uefi_path_text.specs.private.Marks.{is_ascii};
ghost use Rattle.uefi_path_text.specs.form.Pieces.{pieces_text, piece_text};
ghost use Rattle.uefi_path_text.specs.text.Arguments.{ipv4_address};
ghost use Rattle.uefi_path_text.specs.text.EisaId.{eisa_id, eisa_letter};
ghost use Rattle.uefi_path_text.specs.write.Values.{number_text, reversed_hex, value_text, can_show, word_text, bay_text, word_for, writes_numbers, number_base, are_characters, unit_characters};
ghost use Rattle.uefi_path_text.specs.write.Fields.{value_size, bit_word};
ghost use Rattle.uefi_path_text.specs.write.Forms.{is_left_out};
ghost use Rattle.std.specs.List.{find, list_all};
ghost use Rattle.uefi_path_text.specs.private.WordViews.{word_view};
ghost use Rattle.uefi_path_text.specs.form.Words.{words};

use crate::form::argument::{Argument, Base};
use crate::form::shape::{Piece, ipv6_pieces};
use crate::form::words::Words;
use crate::text::arguments::{HexByte, HexBytes, is_argument, is_serial_character, write_argument};
use crate::write::bytes::{byte_at, number, text_size};
use std::fmt;

impl Argument {
    /// Returns how many of the bytes are the argument's value.
    pub(crate) fn value_size(self, rest: &[u8]) -> usize
        ensures { result ≡ value_size self rest.now }
    {
        match self {
            Argument::Number(size, _) | Argument::Word(_, size) => size.bytes(),
            Argument::BigEndian => 8,
            Argument::Digits(shape) => shape.size(),
            Argument::Bytes(_) | Argument::Quoted => rest.len(),
            Argument::Ipv4 | Argument::EisaId | Argument::PnpId => 4,
            Argument::Ipv4Server | Argument::Ipv6 => 16,
            Argument::EisaLetters | Argument::DriveBay => 2,
            Argument::HardwareAddress => { if byte_at(rest, 32) <= 1 { 6 } else { 32 } }
            Argument::Text(_) | Argument::Name(_) => text_size(rest),
        }
    }

    /// Returns whether the value has a text.
    pub(crate) fn can_show(self, value: &[u8]) -> bool
        ensures { result ≡ can_show self value.now }
    {
        match self {
            Argument::Number(size, _) => value.len() == size.bytes(),
            Argument::BigEndian => value.len() == 8,
            Argument::Word(words, size) => {
                value.len() == size.bytes()
                    && (words.writes_numbers() || words.word_for(number(value)).is_some())
            }
            Argument::Digits(shape) => value.len() == shape.size(),
            Argument::Bytes(most) => value.len() <= most,
            Argument::Ipv4 => value.len() == 4,
            Argument::Ipv6 => value.len() == 16,
            Argument::EisaId => value.len() == 4 && number(value) % 0x10000 < 0x8000,
            Argument::EisaLetters => value.len() == 2 && number(value) < 0x8000,
            Argument::DriveBay => value.len() == 2 && is_bay(number(value)),
            Argument::Text(most) => is_argument(value) && value.len() <= most,
            Argument::HardwareAddress => value.len() <= 32,
            Argument::Ipv4Server => value.len() == 16 && are_zeros(&value[4..]),
            Argument::PnpId => value.len() == 4 && number(value) % 0x10000 == 0x41d0,
            Argument::Name(most) => {
                is_argument(value) && value.len() <= most && !value.is_empty()
            }
            Argument::Quoted => are_characters(value),
        }
    }

    /// Returns whether the value is left out, if it is the last.
    pub(crate) fn is_left_out(self, value: &[u8]) -> bool
        ensures { result ≡ is_left_out self value.now }
    {
        matches!(self, Argument::Bytes(_)) && value.is_empty()
    }

    /// Writes the text of a value.
    pub(crate) fn write_value<W: fmt::Write>(
        self,
        f: &mut fmt::Formatter<W>,
        value: &[u8],
    ) -> fmt::Result
        requires { IsTrue (can_show self value.now) }
        ensures { DisplaysOnOk W.write_str_gives f.old result
            (Some (value_text self value.now)) f.new }
    {
        match self {
            Argument::Number(_, base) => write_number(f, base, value),
            Argument::BigEndian => write!(f, "0x{}", HexBytes(value)),
            Argument::Word(words, _) => write_word(f, words, value),
            Argument::Digits(shape) => write_pieces(f, shape.pieces(), value),
            Argument::Bytes(_) | Argument::HardwareAddress => { write!(f, "{}", HexBytes(value)) }
            Argument::Ipv4 | Argument::Ipv4Server => write_ipv4(f, value),
            Argument::Ipv6 => write_pieces(f, ipv6_pieces(), value),
            Argument::EisaId | Argument::PnpId => write_eisa(f, number(value) as u32),
            Argument::EisaLetters => write_number(f, Base::Hex, value),
            Argument::DriveBay => write_bay(f, number(value) as u16),
            Argument::Text(_) | Argument::Name(_) => write_argument(f, value),
            Argument::Quoted => {
                f.write_str("\"")?;
                write_characters(f, value)?;
                f.write_str("\"")
            }
        }
    }
}

/// Returns whether a number is what is known of a drive bay.
fn is_bay(info: u64) -> bool
    ensures { result ≡ ((info == 1) || (info % 0x100 == 2)) }
{
    info == 1 || info % 0x100 == 2
}

impl Words {
    /// Returns the first word for a number.
    pub(crate) fn word_for(self, number: u64) -> Option<&'static str>
        ensures { MatchOption result (word_for self number ≡ None)
            (λ word. word_for self number ≡ Some (word.now, number)) }
    {
        find_word(self.list(), number)
    }

    /// Returns the first number of a word that is a bit of this one, or 0.
    pub(crate) fn bit_word(self, number: u64) -> u64
        ensures { result ≡ bit_word number (words self) }
    {
        find_bit(self.list(), number)
    }

    /// Returns whether a number is written in the place of a word.
    fn writes_numbers(self) -> bool
        ensures { result ≡ writes_numbers self }
    {
        matches!(self, Words::Protocol | Words::Default | Words::BootDevice)
    }

    /// Returns how it is.
    fn number_base(self) -> Base
        ensures { result ≡ number_base self }
    {
        match self {
            Words::Default => Base::Decimal,
            _ => Base::Hex,
        }
    }
}

/// Returns the first of these words for a number.
fn find_word(words: &[(&'static str, u64)], number: u64) -> Option<&'static str>
    ensures { MatchOption result (find (λ word. word.1 == number) (map word_view words.now) ≡ None)
        (λ word. find (λ word. word.1 == number) (map word_view words.now) ≡ Some (word.now, number)) }
{
    let ((word, own), others) = words.split_first()?;
    if *own == number {
        Some(word)
    } else {
        find_word(others, number)
    }
}

/// Returns the first number of these words that is a bit of this one, or 0.
fn find_bit(words: &[(&'static str, u64)], number: u64) -> u64
    ensures { result ≡ bit_word number (map word_view words.now) }
{
    let Some(((_, own), others)) = words.split_first() else {
        return 0;
    };
    if *own != 0 && number / *own % 2 == 1 {
        *own
    } else {
        find_bit(others, number)
    }
}

/// Writes a number.
fn write_number<W: fmt::Write>(f: &mut fmt::Formatter<W>, base: Base, value: &[u8]) -> fmt::Result
    requires { length value.now ≤ 8 }
    ensures { DisplaysOnOk W.write_str_gives f.old result
        (Some (number_text base value.now)) f.new }
{
    match base {
        Base::Hex => {
            let number = number(value);
            write!(f, "0x{number:X}")
        }
        Base::LongHex => {
            f.write_str("0x")?;
            write_reversed(f, value)
        }
        Base::Decimal => write!(f, "{}", number(value)),
    }
}

/// Writes two hex digits for each byte, the last byte first.
fn write_reversed<W: fmt::Write>(f: &mut fmt::Formatter<W>, value: &[u8]) -> fmt::Result
    ensures { DisplaysOnOk W.write_str_gives f.old result
        (Some (reversed_hex value.now)) f.new }
{
    if let Some((first, others)) = value.split_first() {
        write_reversed(f, others)?;
        write!(f, "{}", HexByte(*first))?;
    }
    Ok(())
}

/// Writes the word of a number, or the number.
pub(crate) fn write_word<W: fmt::Write>(
    f: &mut fmt::Formatter<W>,
    words: Words,
    value: &[u8],
) -> fmt::Result
    requires { length value.now ≤ 8 }
    ensures { DisplaysOnOk W.write_str_gives f.old result (Some (word_text words value.now)) f.new }
{
    match words.word_for(number(value)) {
        Some(word) => f.write_str(word),
        None => write_number(f, words.number_base(), value),
    }
}

/// Writes the digits of bytes in the order of these pieces.
fn write_pieces<W: fmt::Write>(
    f: &mut fmt::Formatter<W>,
    pieces: &[Piece],
    value: &[u8],
) -> fmt::Result
    requires { IsTrue (list_all is_ascii pieces.now) }
    ensures { DisplaysOnOk W.write_str_gives f.old result
        (Some (pieces_text value.now pieces.now)) f.new }
{
    if let Some((piece, others)) = pieces.split_first() {
        write_piece(f, piece, value)?;
        write_pieces(f, others, value)?;
    }
    Ok(())
}

/// Writes a piece.
fn write_piece<W: fmt::Write>(f: &mut fmt::Formatter<W>, piece: &Piece, value: &[u8]) -> fmt::Result
    requires { IsTrue (is_ascii piece.now) }
    ensures { DisplaysOnOk W.write_str_gives f.old result (Some (piece_text value.now piece.now)) f.new }
{
    match piece {
        Piece::Digits(index) => write!(f, "{}", HexByte(byte_at(value, *index))),
        Piece::Mark(c) => f.write_char(char::from(*c)),
    }
}

/// Writes an IPv4 address.
#[tactic(auto, unfolding(crate::specs::text::Arguments::ipv4_address))]
pub(crate) fn write_ipv4<W: fmt::Write>(f: &mut fmt::Formatter<W>, value: &[u8]) -> fmt::Result
    requires { 4 ≤ length value.now }
    ensures { DisplaysOnOk W.write_str_gives f.old result (Some (ipv4_address value.now)) f.new }
{
    write!(f, "{}.{}.{}.{}", value[0], value[1], value[2], value[3])
}

/// Writes a compressed EISA identifier.
fn write_eisa<W: fmt::Write>(f: &mut fmt::Formatter<W>, id: u32) -> fmt::Result
    ensures { DisplaysOnOk W.write_str_gives f.old result (Some (eisa_id id)) f.new }
{
    f.write_char(eisa_letter(id / 0x400))?;
    f.write_char(eisa_letter(id / 0x20))?;
    f.write_char(eisa_letter(id))?;
    let product = ((id / 0x10000) as u16).to_be_bytes();
    write!(f, "{}", HexBytes(&product))
}

/// Returns the letter of the lowest five bits.
fn eisa_letter(bits: u32) -> char
    ensures { result ≡ eisa_letter bits }
{
    char::from(b'@' + (bits % 0x20) as u8)
}

/// Writes the number of a drive bay.
fn write_bay<W: fmt::Write>(f: &mut fmt::Formatter<W>, info: u16) -> fmt::Result
    ensures { DisplaysOnOk W.write_str_gives f.old result (Some (bay_text info)) f.new }
{
    if info == 1 {
        return f.write_str("0");
    }
    let bay = info / 0x100 + 1;
    write!(f, "0x{bay:X}")
}

/// Returns whether all 12 bytes are zero.
fn are_zeros(bytes: &[u8]) -> bool
    ensures { result ≡ bytes_eq bytes.now (replicate 12 0) }
{
    bytes == [0; 12].as_slice()
}

/// Returns whether bytes are units of two bytes that a text in quotes can have.
fn are_characters(units: &[u8]) -> bool
    ensures { result ≡ are_characters units.now }
{
    match units {
        [] => true,
        [_] => false,
        [low, high, others @ ..] => {
            *high == 0 && is_serial_character(*low) && are_characters(others)
        }
    }
}

/// Writes the characters of units of two bytes.
fn write_characters<W: fmt::Write>(f: &mut fmt::Formatter<W>, units: &[u8]) -> fmt::Result
    requires { IsTrue (are_characters units.now) }
    ensures { DisplaysOnOk W.write_str_gives f.old result
        (Some (unit_characters units.now)) f.new }
{
    if let [low, _, others @ ..] = units {
        f.write_char(char::from(*low))?;
        write_characters(f, others)?;
    }
    Ok(())
}
