//! A file's name, read.

ghost use Rattle.std.specs.Prelude.{◌≡◌, ◌≤◌, ◌<◌, ◌+◌, length, take, is_ok, IfErr, IfSome, IfNone, encode_utf8_all};
ghost use Rattle.std.specs.List.{list_all, prefix_len};
ghost use Rattle.std.specs.Str.{chars};
ghost use Rattle.uefi_base.specs.Buffer.{put_at};
ghost use Rattle.uefi_path_text.specs.text.FileName.{is_name_character};
ghost use Rattle.uefi_path_text.specs.parse.Nodes.{name_node};

use crate::parse::data::GREATEST_DATA;
use crate::text::file_name::is_name_character;
use uefi_base::buffer::{put, put_units};

/// The number of bytes of a unit.
const UNIT_LENGTH: usize = 2;

/// A file's name.
#[derive(Clone, Copy)]
pub(crate) struct FileName<'a> {
    /// The name, without the NUL that ends it in a node.
    name: &'a str,
}

impl<'a> FileName<'a> {
    ghost use Rattle.uefi_path_text.specs.private.FileNames.{file_name_node};

    /// Returns the name that a text is.
    pub(crate) fn new(name: &'a str) -> FileName<'a>
        ensures { file_name_node result ≡ name_node name.now }
    {
        FileName { name }
    }

    /// Returns the length of the data of the name's node, or `None` if no node has so many bytes.
    pub(crate) fn data_len(&self) -> Option<usize>
        ensures some { IfSome result (λ n. n ≡ length (file_name_node self.now).payload) }
        ensures few { IfSome result (λ n. n ≤ 0xfffb) }
        ensures none { IfNone result (0xfffb < length (file_name_node self.now).payload) }
    {
        data_len(self.name)
    }

    /// Writes the data of the name's node at an offset: the units of the characters, and a NUL.
    pub(crate) fn put_data(&self, buffer: &mut [u8], offset: usize)
        requires { offset + length (file_name_node self.now).payload ≤ length buffer.old }
        ensures { buffer.new ≡ put_at offset (file_name_node self.now).payload buffer.old }
    {
        put_data(buffer, offset, self.name);
    }
}

/// Returns the length of the data of a name's node, or `None` if no node has so many bytes.
pub(crate) fn data_len(name: &str) -> Option<usize>
    ensures some { IfSome result (λ n. n ≡ length (name_node name.now).payload) }
    ensures few { IfSome result (λ n. n ≤ 0xfffb) }
    ensures none { IfNone result (0xfffb < length (name_node name.now).payload) }
{
    let mut size = UNIT_LENGTH;
    for character in name.chars() {
        size += UNIT_LENGTH * character.len_utf16();
        if size > GREATEST_DATA {
            return None;
        }
    }
    Some(size)
}

/// Writes the data of a name's node at an offset: the units of the characters, and a NUL.
fn put_data(buffer: &mut [u8], offset: usize, name: &str)
    requires { offset + length (name_node name.now).payload ≤ length buffer.old }
    ensures { buffer.new ≡ put_at offset (name_node name.now).payload buffer.old }
{
    let mut end = offset;
    for character in name.chars() {
        let mut room = [0; 2];
        let units = character.encode_utf16(&mut room);
        put_units(buffer, end, units);
        end += UNIT_LENGTH * units.len();
    }
    put(buffer, end, &[0, 0]);
}

/// Checks that a name may have all characters of a text.
///
/// # Errors
///
/// The offset of the first character that a name may not have.
pub(crate) fn check_name(name: &str) -> Result<(), usize>
    ensures ok { is_ok result ≡ list_all is_name_character (chars name.now) }
    ensures first { IfErr result (λ offset. offset
        ≡ length (encode_utf8_all
        (take (prefix_len is_name_character (chars name.now)) (chars name.now)))) }
    ensures within { IfErr result (λ offset. offset < length name.now) }
{
    for (offset, character) in name.char_indices() {
        if !is_name_character(character) {
            return Err(offset);
        }
    }
    Ok(())
}

/// Returns the offset of the first character from which on a name's node is too long.
pub(crate) fn first_excess(name: &str) -> usize
    ensures { result ≤ length name.now }
{
    let mut size = UNIT_LENGTH;
    for (offset, character) in name.char_indices() {
        size += UNIT_LENGTH * character.len_utf16();
        if size > GREATEST_DATA {
            return offset;
        }
    }
    name.len()
}
