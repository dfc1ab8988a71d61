ghost use Rattle.std.specs.Prelude.{◌≡◌, ◌≤◌, ◌<◌, ◌+◌, ◌-◌, ◌++◌, ◌∷◌, ◌^◌, ◌==◌, length, false, true, IfOk, OnErr, IfErr, IfSome, IfNone, IsTrue, Some, None};
ghost use Rattle.std.specs.List.{list_all, before_first, position_or_len};
ghost use Rattle.uefi_path_text.specs.text.FileName.{is_node_character, reads_as_node};
ghost use Rattle.uefi_path_text.specs.parse.Nodes.{piece_node, call_node};
ghost use Rattle.uefi_path_text.specs.private.Places.{IsAt, IsFrom};
ghost use Rattle.uefi_path_text.specs.private.Pieces.{piece_at, up_to, is_mark, IsSplitAt};
ghost use Rattle.uefi_path_text.specs.private.TextNodes.{text_node};

use crate::parse::error::FromTextError;
use crate::parse::fault::{Fault, FaultKind};
use crate::parse::file_name::{FileName, check_name, data_len, first_excess};
use crate::parse::reading::{Reading, read_call};
use crate::parse::text_node::TextNode;

/// Reads the piece at the start of a text, which is at an offset: a call or a file's name. Returns
/// the node and what follows.
pub(crate) fn read_piece(text: &str, offset: usize) -> Result<(TextNode<'_>, &str), FromTextError>
    requires { offset + length text.now < 2 ^ 64 }
    ensures piece { IfOk result (λ taken. piece_node (piece_at text.now)
        ≡ Some (text_node taken.0)) }
    ensures split { IfOk result (λ taken. text.now ≡ piece_at text.now ++ taken.1.now) }
    ensures wrong { OnErr result (piece_node (piece_at text.now) ≡ None) }
    ensures place { IfErr result (IsFrom offset (length text.now)) }
{
    if !reads_as_node(text) {
        return read_name_piece(text, offset);
    }
    match split_at_mark(text, '(') {
        Some((name, after)) => read_call_piece(name, after, offset),
        None => unreachable!(),
    }
}

/// Returns whether a text begins with a name that a type of nodes may have, and a parenthesis.
fn reads_as_node(text: &str) -> bool
    ensures { result ≡ reads_as_node text.now }
{
    text.as_bytes().iter().find(|c| !is_node_byte(**c)) == Some(&b'(')
}

/// Returns whether a type of nodes may have the character in its name.
fn is_node_byte(c: u8) -> bool
    ensures { result ≡ is_node_character c }
{
    c.is_ascii_alphanumeric() || c == b'-'
}

/// Reads a call whose name is at an offset, and whose arguments begin after the parenthesis.
fn read_call_piece<'a>(
    name: &str,
    after: &'a str,
    offset: usize,
) -> Result<(TextNode<'a>, &'a str), FromTextError>
    requires few { offset + (length name.now + 1 + length after.now) < 2 ^ 64 }
    requires name { IsTrue (list_all is_node_character name.now) }
    ensures piece { IfOk result (λ taken.
        piece_node (piece_at (name.now ++ (0x28 ∷ after.now))) ≡ Some (text_node taken.0)) }
    ensures split { IfOk result (λ taken.
        name.now ++ (0x28 ∷ after.now) ≡ piece_at (name.now ++ (0x28 ∷ after.now)) ++ taken.1.now) }
    ensures wrong { OnErr result (piece_node (piece_at (name.now ++ (0x28 ∷ after.now))) ≡ None) }
    ensures place { IfErr result (IsFrom offset (length name.now + 1 + length after.now)) }
{
    let Some((arguments, rest)) = split_at_mark(after, ')') else {
        return Err(unclosed_error(name, after, offset));
    };
    match read_closed(name, arguments, offset) {
        Ok(node) => Ok((node, rest)),
        Err(error) => Err(error),
    }
}

/// Reads a call whose name is at an offset.
fn read_closed<'a>(
    name: &str,
    arguments: &'a str,
    offset: usize,
) -> Result<TextNode<'a>, FromTextError>
    requires { offset + (length name.now + 1 + length arguments.now) < 2 ^ 64 }
    ensures ok { IfOk result (λ node. call_node name.now arguments.now ≡ Some (text_node node)) }
    ensures err { OnErr result (call_node name.now arguments.now ≡ None) }
    ensures place { IfErr result (IsFrom offset (length name.now + 1 + length arguments.now)) }
{
    let opening = offset + name.len();
    match read_call(name.as_bytes(), arguments.as_bytes()) {
        Reading::Unknown => Err(unknown_error(name, offset)),
        Reading::Wrong(fault) => Err(error_at(fault, opening + 1)),
        Reading::Node(call) => Ok(TextNode::Call(call)),
    }
}

/// Returns the error of a call whose name is at an offset, and whose arguments no parenthesis
/// closes.
fn unclosed_error(name: &str, arguments: &str, offset: usize) -> FromTextError
    requires { offset + (length name.now + 1 + length arguments.now) < 2 ^ 64 }
    ensures { IsFrom offset (length name.now + 1 + length arguments.now) result }
{
    let opening = offset + name.len();
    let end = opening + 1 + arguments.len();
    match read_call(name.as_bytes(), arguments.as_bytes()) {
        Reading::Unknown => unknown_error(name, offset),
        Reading::Wrong(fault) => error_before(fault, opening + 1, end),
        Reading::Node(_) => FromTextError::Missing(end),
    }
}

/// Returns the error of arguments that begin at an offset, if their fault is before their end.
fn error_before(fault: Fault, start: usize, end: usize) -> FromTextError
    requires { start + fault.offset ≤ end }
    ensures { IsFrom start (end - start) result }
{
    if start + fault.offset < end {
        error_at(fault, start)
    } else {
        FromTextError::Missing(end)
    }
}

/// Returns the error of arguments that begin at an offset.
fn error_at(fault: Fault, start: usize) -> FromTextError
    requires { start + fault.offset < 2 ^ 64 }
    ensures { IsAt (start + fault.offset) result }
{
    let offset = start + fault.offset;
    match fault.kind {
        FaultKind::Argument => FromTextError::Argument(offset),
        FaultKind::Missing => FromTextError::Missing(offset),
        FaultKind::TooLong => FromTextError::TooLong(offset),
    }
}

/// Reads the name of a file at the start of a text, which is at an offset.
fn read_name_piece(text: &str, offset: usize) -> Result<(TextNode<'_>, &str), FromTextError>
    requires few { offset + length text.now < 2 ^ 64 }
    requires name { reads_as_node text.now ≡ false }
    ensures piece { IfOk result (λ taken. piece_node (piece_at text.now)
        ≡ Some (text_node taken.0)) }
    ensures split { IfOk result (λ taken. text.now ≡ piece_at text.now ++ taken.1.now) }
    ensures wrong { OnErr result (piece_node (piece_at text.now) ≡ None) }
    ensures place { IfErr result (IsFrom offset (length text.now)) }
{
    let (name, rest) = split_name(text);
    if name.is_empty() {
        return Err(FromTextError::Missing(offset));
    }
    if let Err(at) = check_name(name) {
        return Err(name_error(name, at, offset));
    }
    match data_len(name) {
        Some(_) => Ok((TextNode::FileName(FileName::new(name)), rest)),
        None => Err(FromTextError::TooLong(offset + first_excess(name))),
    }
}

/// Returns the error of a name that is at an offset and has a character that no name may have.
fn name_error(name: &str, at: usize, offset: usize) -> FromTextError
    requires few { offset + length name.now < 2 ^ 64 }
    requires within { at ≤ length name.now }
    ensures { IsFrom offset (length name.now) result }
{
    let excess = first_excess(name);
    if excess < at {
        FromTextError::TooLong(offset + excess)
    } else {
        FromTextError::Argument(offset + at)
    }
}

/// Returns the error of a name that is at an offset and before a parenthesis, and that no form has.
fn unknown_error(name: &str, offset: usize) -> FromTextError
    requires { offset + length name.now < 2 ^ 64 }
    ensures { IsFrom offset (length name.now) result }
{
    let excess = first_excess(name);
    if excess < name.len() {
        FromTextError::TooLong(offset + excess)
    } else {
        FromTextError::UnknownNode(offset + name.len())
    }
}

/// Splits a text before the first slash or comma.
fn split_name(text: &str) -> (&str, &str)
    ensures name { result.0.now ≡ up_to is_mark text.now }
    ensures split { text.now ≡ result.0.now ++ result.1.now }
{
    let name = before(text, first_mark(text));
    match text.strip_prefix(name) {
        Some(rest) => (name, rest),
        None => unreachable!(),
    }
}

/// Returns the first slash or comma of a text; a comma, if it has neither.
fn first_mark(text: &str) -> char
    ensures ascii { result < 128 }
    ensures first { before_first (λ c. c == result) text.now ≡ up_to is_mark text.now }
{
    if text.as_bytes().iter().find(|c| is_mark(**c)) == Some(&b'/') {
        '/'
    } else {
        ','
    }
}

/// Returns whether a name ends before the character.
fn is_mark(c: u8) -> bool
    ensures { result ≡ is_mark c }
{
    c == b'/' || c == b','
}

/// Returns a text up to a character.
fn before(text: &str, mark: char) -> &str
    requires { mark < 128 }
    ensures { result.now ≡ before_first (λ c. c == mark) text.now }
{
    match text.split_once(mark) {
        Some((front, _)) => front,
        None => text,
    }
}

/// Splits a text at a character; returns `None` if it hasn't one.
fn split_at_mark(text: &str, mark: char) -> Option<(&str, &str)>
    requires { mark < 128 }
    ensures some { IfSome result (λ parts. IsSplitAt mark text.now parts.0.now parts.1.now) }
    ensures none { IfNone result (position_or_len (λ c. c == mark) text.now ≡ length text.now) }
{
    text.split_once(mark)
}
