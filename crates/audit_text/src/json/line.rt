ghost use Rattle.std.specs.Prelude.{◌≡◌, ◌<◌, ◌^◌, string_bytes, IfOk, OnOk};
ghost use Rattle.std.specs.List.{list_any};
ghost use Rattle.std.specs.Str.{chars};
ghost use Rattle.uefi_base.specs.Appending.{AppendsText};
ghost use Rattle.audit_text.specs.json.Json.{Json};
ghost use Rattle.audit_text.specs.private.JsonValues.{IsValueOf};
ghost use Rattle.audit_text.specs.json.Line.{escaped, json_line, line_character, line_of, unicode_escape};
ghost use Rattle.shown.specs.Name.{is_control};

use serde_json::Value;
use shown::{HexByte, is_control};
use std::alloc::{AllocError, Global};

/// Returns the text of a value on one line, without spaces and without a line's end: each control
/// character in it is `\u` and four hex digits.
pub(crate) fn line_of(alloc: Global, value: &Value) -> Result<String, AllocError>
    ensures { (json : Json) → IsValueOf json value.now
        → IfOk result (λ line. string_bytes line ≡ line_of json) }
{
    let text = value.to_string(alloc)?;
    escaped(alloc, text)
}

/// Appends the line of a value, and a line break.
pub(crate) fn push_line(text: &mut String, alloc: Global, value: &Value) -> Result<(), AllocError>
    ensures { (json : Json) → IsValueOf json value.now
        → OnOk result (AppendsText text.old text.new (json_line json)) }
{
    let line = line_of(alloc, value)?;
    writeln!(text, "{line}")
}

/// Returns whether a character is escaped.
fn is_escaped(character: char) -> bool
    ensures { result ≡ is_control character }
{
    is_control(character)
}

/// Returns whether a text has a control character.
fn has_control(text: &str) -> bool
    ensures { result ≡ list_any is_control (chars text.now) }
{
    text.chars().any(is_escaped)
}

/// Returns a text of JSON, in which controls are in strings alone, with these escaped.
fn escaped(alloc: Global, text: String) -> Result<String, AllocError>
    ensures { IfOk result (λ line. string_bytes line ≡ escaped (string_bytes text)) }
{
    if has_control(text.as_str()) {
        return each_escaped(alloc, text.as_str());
    }
    Ok(text)
}

/// Returns a text with each control escaped.
fn each_escaped(alloc: Global, text: &str) -> Result<String, AllocError>
    ensures { IfOk result (λ line. string_bytes line ≡ escaped text.now) }
{
    let mut line = String::new(alloc);
    for character in text.chars() {
        push_character(&mut line, character)?;
    }
    Ok(line)
}

/// Appends a character, or the escape of a control.
#[tactic(auto, unfolding(crate::specs::json::Line::line_character))]
fn push_character(line: &mut String, character: char) -> Result<(), AllocError>
    ensures { OnOk result (AppendsText line.old line.new (line_character character)) }
{
    if is_control(character) {
        return push_escape(line, u32::from(character));
    }
    line.push(character)
}

/// Appends `\u` and four hex digits.
fn push_escape(line: &mut String, character: u32) -> Result<(), AllocError>
    requires { character < 2 ^ 16 }
    ensures { OnOk result (AppendsText line.old line.new (unicode_escape character)) }
{
    let high = HexByte((character / 256) as u8);
    let low = HexByte((character % 256) as u8);
    write!(line, "\\u{high}{low}")
}
