//! Texts in strings of JSON.

ghost use Rattle.std.specs.Prelude.{◌<◌, ◌^◌, Some};
ghost use Rattle.std.specs.Fmt.{DisplaysOnOk};
ghost use Rattle.boot_listing.specs.Json.{json_character, json_text, unicode_escape};

use shown::is_control;
use std::fmt;

/// The characters of a text, as a string of JSON has them between its quotes (RFC 8259, 7).
///
/// A quote and a backslash come behind a backslash. A control, which [`is_control`] names, is `\u` and
/// four hex digits. Any other character is written as it is.
#[derive(Clone, Copy)]
pub struct JsonText<'a>(pub &'a str);

impl fmt::Display for JsonText<'_> {
    ghost output = { λ text. Some (json_text text.0.now) };

    fn fmt<W: fmt::Write>(&self, f: &mut fmt::Formatter<W>) -> fmt::Result {
        write_text(f, self.0)
    }
}

/// Writes each character of a text.
fn write_text<W: fmt::Write>(f: &mut fmt::Formatter<W>, text: &str) -> fmt::Result
    ensures { DisplaysOnOk W.write_str_gives f.old result (Some (json_text text.now)) f.new }
{
    for character in text.chars() {
        write_character(f, character)?;
    }
    Ok(())
}

/// Writes a character of a text.
#[tactic(auto, unfolding(crate::specs::Json::json_character))]
fn write_character<W: fmt::Write>(f: &mut fmt::Formatter<W>, character: char) -> fmt::Result
    ensures { DisplaysOnOk W.write_str_gives f.old result (Some (json_character character)) f.new }
{
    if is_control(character) {
        return write_escape(f, u32::from(character));
    }
    if character == '"' || character == '\\' {
        return write!(f, "\\{character}");
    }
    f.write_char(character)
}

/// Writes `\u` and four hex digits.
fn write_escape<W: fmt::Write>(f: &mut fmt::Formatter<W>, character: u32) -> fmt::Result
    requires { character < 2 ^ 16 }
    ensures { DisplaysOnOk W.write_str_gives f.old result (Some (unicode_escape character)) f.new }
{
    let (high, low) = ((character / 256) as u8, (character % 256) as u8);
    write!(f, "\\u{high:02x}{low:02x}")
}
