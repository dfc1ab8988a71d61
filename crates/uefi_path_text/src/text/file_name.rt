//! A file's name, written.

ghost use Rattle.std.specs.Prelude.{◌≡◌, ◌==◌, ◌&&◌, Some, None, encode_utf8_all, if◌then◌else◌};
ghost use Rattle.std.specs.Char.Utf16.{has_unpaired_surrogate, is_high_surrogate, is_low_surrogate, surrogate_pair_char, lone_unit_char, utf16_lossy_chars};
ghost use Rattle.std.specs.Fmt.{DisplaysOnOk};
ghost use Rattle.std.specs.List.{list_all};
ghost use Rattle.std.specs.Option.{unwrap_or};
ghost use Rattle.std.specs.Iterator.{YieldsFirst, item_count};
ghost use Rattle.uefi_base.specs.Views.{slice_units};
ghost use Rattle.uefi_path.specs.Views.{node_of};
ghost use Rattle.uefi_path_text.specs.text.Arguments.{without_nul};
ghost use Rattle.uefi_path_text.specs.text.FileName.{is_nul_ended, is_name, is_name_character, is_control, is_node_character, reads_as_node, count_of, is_paired, name_text, file_name_text};
ghost use Rattle.uefi_path_text.specs.private.FileName.{name_units, characters_left};
ghost use Rattle.uefi_path_text.specs.private.Writing.{WritesForm};

use std::fmt;
use uefi_base::{UnalignedSlice, UnalignedSliceIter};
use uefi_path::{DevicePathNode, DeviceSubType, DeviceType};

/// Writes the name of the path of a file (UEFI 2.10, 10.3.5.4), without its NUL, or returns `None`
/// and writes nothing if the node is another, or its name has no text.
#[tactic(auto, unfolding(crate::specs::text::FileName::file_name_text))]
pub(crate) fn write_file_name<W: fmt::Write>(
    f: &mut fmt::Formatter<W>,
    node: &DevicePathNode<'_>,
) -> Option<fmt::Result>
    ensures { WritesForm W.write_str_gives f.old result
        (file_name_text (node_of node.now)) f.new }
{
    let data = node.data();
    if !is_file_path(node) || data.len() % 2 != 0 {
        return None;
    }
    let units = UnalignedSlice::new(data);
    if is_nul_ended(units) && is_paired(units) {
        write_units(f, units)
    } else {
        None
    }
}

/// Returns whether a node is the path of a file.
fn is_file_path(node: &DevicePathNode<'_>) -> bool
    ensures { result ≡ (((node_of node.now).device_type == 4) && ((node_of node.now).sub_type == 4)) }
{
    node.full_type() == (DeviceType::MEDIA, DeviceSubType::MEDIA_FILE_PATH)
}

/// Writes the characters of units before the last, or returns `None` and writes nothing if they
/// aren't a name.
#[tactic(auto, unfolding(crate::specs::text::FileName::name_text))]
fn write_units<W: fmt::Write>(
    f: &mut fmt::Formatter<W>,
    units: UnalignedSlice<'_>,
) -> Option<fmt::Result>
    ensures { WritesForm W.write_str_gives f.old result
        (name_text (without_nul (slice_units units.entry))) f.new }
{
    let name = NameCharacters::new(units);
    if has_unpaired_surrogate(name) || !is_name(name) {
        return None;
    }
    Some(write_name(f, name))
}

/// Returns whether the units are one or more, and then a NUL.
fn is_nul_ended(units: UnalignedSlice<'_>) -> bool
    ensures { result ≡ is_nul_ended (slice_units units.entry) }
{
    units.len() > 1 && units.get(units.len() - 1) == Some(0)
}

/// Returns whether as many parentheses open as close.
fn is_paired(units: UnalignedSlice<'_>) -> bool
    ensures { result ≡ is_paired (slice_units units.entry) }
{
    count_of(units, u16::from(b'(')) == count_of(units, u16::from(b')'))
}

/// Returns how many of the units are this one.
fn count_of(units: UnalignedSlice<'_>, wanted: u16) -> usize
    ensures { result ≡ count_of wanted (slice_units units.entry) }
{
    units.iter().filter(|unit| *unit == wanted).count()
}

/// Returns whether a surrogate has no partner.
fn has_unpaired_surrogate(mut name: NameCharacters<'_>) -> bool
    ensures { result ≡ has_unpaired_surrogate (name_units name.entry) }
{
    name.any(|character| character.is_none())
}

/// Returns whether the characters are a name that doesn't read as a node.
fn is_name(name: NameCharacters<'_>) -> bool
    ensures { result ≡ is_name (utf16_lossy_chars (name_units name.entry)) }
{
    has_name_characters(name) && !reads_as_node(name)
}

/// Returns whether a name may have all the characters.
fn has_name_characters(mut name: NameCharacters<'_>) -> bool
    ensures { result ≡ list_all is_name_character (utf16_lossy_chars (name_units name.entry)) }
{
    name.all(|character| is_name_character(or_replacement(character)))
}

/// Returns whether the characters read as a node with arguments.
fn reads_as_node(name: NameCharacters<'_>) -> bool
    ensures { result ≡ reads_as_node (utf16_lossy_chars (name_units name.entry)) }
{
    name.map(or_replacement)
        .find(|character| !is_node_character(*character))
        == Some('(')
}

/// Writes the characters.
fn write_name<W: fmt::Write>(f: &mut fmt::Formatter<W>, name: NameCharacters<'_>) -> fmt::Result
    ensures { DisplaysOnOk W.write_str_gives f.old result
        (Some (encode_utf8_all (utf16_lossy_chars (name_units name.entry)))) f.new }
{
    for character in name {
        f.write_char(or_replacement(character))?;
    }
    Ok(())
}

/// Returns whether a name may have the character.
pub(crate) fn is_name_character(character: char) -> bool
    ensures { result ≡ is_name_character character }
{
    !is_control(character) && character != '/' && character != ','
}

/// Returns whether the character is a control character of ASCII or Latin-1, a separator of lines
/// or paragraphs, or a control of the writing direction.
pub(crate) fn is_control(character: char) -> bool
    ensures { result ≡ is_control character }
{
    matches!(
        character,
        '\0'..='\u{1f}'
            | '\u{7f}'..='\u{9f}'
            | '\u{61c}'
            | '\u{200e}'..='\u{200f}'
            | '\u{2028}'..='\u{202e}'
            | '\u{2066}'..='\u{2069}'
    )
}

/// Returns whether a type of nodes may have the character in its name.
pub(crate) fn is_node_character(character: char) -> bool
    ensures { result ≡ is_node_character character }
{
    character.is_ascii_alphanumeric() || character == '-'
}

/// Returns the character, or U+FFFD in place of a surrogate.
fn or_replacement(character: Option<char>) -> char
    ensures { result ≡ unwrap_or character 0xfffd }
{
    character.unwrap_or(char::REPLACEMENT_CHARACTER)
}

/// The characters of a name in UTF-16, with `None` for a surrogate that has no partner.
#[derive(Clone, Copy)]
struct NameCharacters<'a> {
    /// The units that weren't read yet, with those after the name.
    units: UnalignedSliceIter<'a>,
    /// How many of them are of the name.
    count: usize,
}

impl<'a> NameCharacters<'a> {
    /// Returns the characters of the units before the last.
    fn new(units: UnalignedSlice<'a>) -> NameCharacters<'a>
        ensures { name_units result ≡ without_nul (slice_units units.entry) }
    {
        NameCharacters {
            units: units.iter(),
            count: units.len().saturating_sub(1),
        }
    }

    /// Takes the next unit.
    fn next_unit(&mut self) -> Option<u16>
        ensures { YieldsFirst name_units self.old result self.new }
    {
        if self.count == 0 {
            return None;
        }
        let unit = self.units.next()?;
        self.count -= 1;
        Some(unit)
    }
}

impl Iterator for NameCharacters<'_> {
    type Item = Option<char>;

    ghost next_gives = { YieldsFirst characters_left };

    ghost remaining = { item_count characters_left };

    fn next(&mut self) -> Option<Option<char>> {
        let first = self.next_unit()?;
        let mut after = *self;
        if let Some(second) = after.next_unit() {
            if let Some(character) = pair_character(first, second) {
                *self = after;
                return Some(Some(character));
            }
        }
        Some(lone_character(first))
    }
}

/// Returns the character of a unit that is in no pair, or `None` for a surrogate.
fn lone_character(unit: u16) -> Option<char>
    ensures { result ≡ lone_unit_char unit }
{
    char::from_u32(u32::from(unit))
}

/// Returns the character of a pair of surrogates, or `None` if the units aren't one.
fn pair_character(first: u16, second: u16) -> Option<char>
    ensures { result ≡ (if is_high_surrogate first && is_low_surrogate second
        then Some (surrogate_pair_char first second) else None) }
{
    let (high, low) = (0xd800..0xdc00, 0xdc00..0xe000);
    if !high.contains(&first) || !low.contains(&second) {
        return None;
    }
    let high = u32::from(first) - 0xd800;
    char::from_u32(0x1_0000 + high * 0x400 + (u32::from(second) - 0xdc00))
}
