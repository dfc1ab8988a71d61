//! Names and texts, displayed so that nothing in them is hidden.

ghost use Rattle.std.specs.Prelude.{◌≡◌, Some};
ghost use Rattle.std.specs.Fmt.{DisplaysOnOk};
ghost use Rattle.shown.specs.Name.{hex_escape, is_control, is_escaped, is_other_space, is_unseen, shown_byte, shown_character, shown_name, shown_name_bytes};

use std::fmt;

/// The name of a file, or a text, displayed on one line and so that nothing in it is hidden: each byte
/// of a character that doesn't print, and of a backslash, is `\x` and two hex digits.
///
/// | characters | what they are |
/// |---|---|
/// | U+0000 to U+001F, U+007F to U+009F | controls of ASCII and Latin-1 |
/// | U+2028, U+2029 | separators of lines and of paragraphs |
/// | U+061C, U+200E, U+200F, U+202A to U+202E, U+2066 to U+2069 | controls of the writing direction |
/// | U+00A0, U+1680, U+2000 to U+200A, U+202F, U+205F, U+3000 | spaces but U+0020 |
/// | U+00AD, U+034F, U+115F, U+1160, U+17B4, U+17B5, U+180B to U+180F, U+200B to U+200D, U+2060 to U+206F, U+3164, U+FE00 to U+FE0F, U+FEFF, U+FFA0, U+FFF0 to U+FFFB, U+1BCA0 to U+1BCA3, U+1D173 to U+1D17A, U+E0000 to U+E0FFF | those that aren't seen |
/// | U+E000 to U+F8FF, U+F0000 to U+10FFFF | those for private use |
#[derive(Clone, Copy)]
pub struct ShownName<'a>(pub &'a str);

impl fmt::Display for ShownName<'_> {
    ghost output = { λ name. Some (shown_name name.0.now) };

    fn fmt<W: fmt::Write>(&self, f: &mut fmt::Formatter<W>) -> fmt::Result {
        write_name(f, self.0)
    }
}

/// The bytes of a name that isn't UTF-8, displayed as [`ShownName`] displays a name: each byte but that
/// of a printed character of ASCII is `\x` and two hex digits, and so is that of a backslash.
#[derive(Clone, Copy)]
pub struct ShownBytes<'a>(pub &'a [u8]);

impl fmt::Display for ShownBytes<'_> {
    ghost output = { λ name. Some (shown_name_bytes name.0.now) };

    fn fmt<W: fmt::Write>(&self, f: &mut fmt::Formatter<W>) -> fmt::Result {
        write_bytes(f, self.0)
    }
}

/// Writes each byte of a name.
fn write_bytes<W: fmt::Write>(f: &mut fmt::Formatter<W>, bytes: &[u8]) -> fmt::Result
    ensures { DisplaysOnOk W.write_str_gives f.old result (Some (shown_name_bytes bytes.now)) f.new }
{
    for byte in bytes {
        write_byte(f, *byte)?;
    }
    Ok(())
}

/// Writes a byte of a name.
#[tactic(auto, unfolding(crate::specs::Name::shown_byte))]
fn write_byte<W: fmt::Write>(f: &mut fmt::Formatter<W>, byte: u8) -> fmt::Result
    ensures { DisplaysOnOk W.write_str_gives f.old result (Some (shown_byte byte)) f.new }
{
    if matches!(byte, b' '..=b'~') && byte != b'\\' {
        return f.write_char(char::from(byte));
    }
    write_escape(f, byte)
}

/// Writes each character of a name.
fn write_name<W: fmt::Write>(f: &mut fmt::Formatter<W>, name: &str) -> fmt::Result
    ensures { DisplaysOnOk W.write_str_gives f.old result (Some (shown_name name.now)) f.new }
{
    for character in name.chars() {
        write_character(f, character)?;
    }
    Ok(())
}

/// Writes a character of a name.
fn write_character<W: fmt::Write>(f: &mut fmt::Formatter<W>, character: char) -> fmt::Result
    ensures { DisplaysOnOk W.write_str_gives f.old result (Some (shown_character character)) f.new }
{
    if !is_escaped(character) {
        return f.write_char(character);
    }
    let mut room = [0; 4];
    for byte in character.encode_utf8(&mut room).as_bytes() {
        write_escape(f, *byte)?;
    }
    Ok(())
}

/// Writes a byte as `\x` and two hex digits.
fn write_escape<W: fmt::Write>(f: &mut fmt::Formatter<W>, byte: u8) -> fmt::Result
    ensures { DisplaysOnOk W.write_str_gives f.old result (Some (hex_escape byte)) f.new }
{
    write!(f, "\\x{byte:02x}")
}

/// Returns whether a character is written as hex digits: one that doesn't print, or a backslash.
fn is_escaped(character: char) -> bool
    ensures { result ≡ is_escaped character }
{
    is_control(character) || is_other_space(character) || is_unseen(character) || character == '\\'
}

/// Returns whether a character is a control: it isn't printed, and may change how others are.
#[tactic(auto, unfolding(crate::specs::Name::is_control))]
pub fn is_control(character: char) -> bool
    ensures { result ≡ is_control character }
{
    matches!(
        character,
        '\0'..='\x1f'
            | '\x7f'..='\u{9f}'
            | '\u{61c}'
            | '\u{200e}'..='\u{200f}'
            | '\u{2028}'..='\u{202e}'
            | '\u{2066}'..='\u{2069}'
    )
}

/// Returns whether a character is a space, but not U+0020 (Unicode, category `Zs`).
#[tactic(auto, unfolding(crate::specs::Name::is_other_space))]
fn is_other_space(character: char) -> bool
    ensures { result ≡ is_other_space character }
{
    matches!(
        character,
        '\u{a0}' | '\u{1680}' | '\u{2000}'..='\u{200a}' | '\u{202f}' | '\u{205f}' | '\u{3000}'
    )
}

/// Returns whether a character isn't seen (Unicode, property `Default_Ignorable_Code_Point`; U+FFF9
/// to U+FFFB) or is for private use (category `Co`).
#[tactic(auto, unfolding(crate::specs::Name::is_unseen))]
fn is_unseen(character: char) -> bool
    ensures { result ≡ is_unseen character }
{
    matches!(
        character,
        '\u{ad}'
            | '\u{34f}'
            | '\u{115f}'..='\u{1160}'
            | '\u{17b4}'..='\u{17b5}'
            | '\u{180b}'..='\u{180f}'
            | '\u{200b}'..='\u{200d}'
            | '\u{2060}'..='\u{206f}'
            | '\u{3164}'
            | '\u{e000}'..='\u{f8ff}'
            | '\u{fe00}'..='\u{fe0f}'
            | '\u{feff}'
            | '\u{ffa0}'
            | '\u{fff0}'..='\u{fffb}'
            | '\u{1bca0}'..='\u{1bca3}'
            | '\u{1d173}'..='\u{1d17a}'
            | '\u{e0000}'..='\u{10ffff}'
    )
}
