//! IPv6 addresses, read (RFC 4291, 2.2).

ghost use Rattle.std.specs.Prelude.{◌≡◌, ◌≤◌, ◌<◌, ◌+◌, ◌++◌, ◌^◌, ◌↔◌, ℕ, Bool, true, false, List, [], length, IfOk, OnOk, OnErr, IfErr, IfSome, IfNone, IsTrue, Some, None};
ghost use Rattle.std.specs.List.{list_all};
ghost use Rattle.uefi_path_text.specs.parse.Parts.{cut_at};
ghost use Rattle.uefi_path_text.specs.parse.Ipv4.{ipv4_bytes};
ghost use Rattle.uefi_path_text.specs.parse.Ipv6.{is_group, group_bytes, is_short, is_ipv4_end, followed, groups_in, side_in, gap_in, sixteen_bytes, with_gap, around, ipv6_in};
ghost use Rattle.uefi_path_text.specs.private.FromText.{rest_parts, rest_length, first_text};
ghost use Rattle.uefi_path_text.specs.private.Ipv6.{side_bytes, IsSide, IsNoSide};

use crate::parse::cut::cut;
use crate::parse::ipv4::read_ipv4;
use crate::parse::number::read_digits;
use crate::parse::shape::is_hex_digit;
use crate::write::bytes::byte_at;
use uefi_base::buffer::put;

/// The groups of an address that are on one side of a `::`, or all of them.
#[derive(Clone, Copy)]
struct Side {
    /// Their bytes, and zeros after them.
    bytes: [u8; 16],
    /// The number of their bytes.
    len: usize,
}

impl Side {
    /// Returns no groups.
    fn new() -> Side
        ensures side { IsSide result }
        ensures empty { result.len ≡ 0 }
    {
        Side {
            bytes: [0; 16],
            len: 0,
        }
    }

    /// Returns the groups with more bytes.
    fn with(self, more: &[u8]) -> Side
        requires side { IsSide self }
        requires room { self.len + length more.now ≤ 16 }
        ensures side { IsSide result }
        ensures bytes { side_bytes result ≡ side_bytes self ++ more.now }
        ensures len { result.len ≡ self.len + length more.now }
    {
        let mut bytes = self.bytes;
        put(&mut bytes, self.len, more);
        Side {
            bytes,
            len: self.len + more.len(),
        }
    }

    /// Returns the address with these groups before a `::` and others after it.
    fn around(self, back: Side) -> [u8; 16]
        requires front { IsSide self }
        requires back { IsSide back }
        requires room { self.len + back.len ≤ 16 }
        ensures { result ≡ with_gap (side_bytes self) (side_bytes back) }
    {
        let mut address = self.bytes;
        put(&mut address, 16 - back.len, &back.bytes[..back.len]);
        address
    }
}

/// Reads an IPv6 address: groups of four hex digits or fewer. One `::` can be in the place of groups
/// of zeros, and an IPv4 address in that of the last two groups.
///
/// # Errors
///
/// The offset of the first character that no address has there.
#[tactic(auto, unfolding(crate::specs::parse::Ipv6::ipv6_in))]
pub(crate) fn read_ipv6(text: &[u8]) -> Result<[u8; 16], usize>
    ensures ok { IfOk result (λ address. ipv6_in text.now ≡ Some address) }
    ensures err { OnErr result (ipv6_in text.now ≡ None) }
    ensures offset { IfErr result (λ offset. offset ≤ length text.now) }
{
    match find_gap(text) {
        Some(gap) => read_around(&text[..gap], &text[gap + 2..]),
        None => read_whole(text),
    }
}

/// Returns the offset of the first `::`.
fn find_gap(text: &[u8]) -> Option<usize>
    ensures gap { result ≡ gap_in text.now }
    ensures within { IfSome result (λ gap. gap + 2 ≤ length text.now) }
{
    for (offset, c) in text.iter().enumerate() {
        let next = byte_at(text, offset + 1);
        if *c == b':' && next == b':' {
            return Some(offset);
        }
    }
    None
}

/// Reads an address without a `::`.
fn read_whole(text: &[u8]) -> Result<[u8; 16], usize>
    ensures ok { IfOk result (λ address. sixteen_bytes (side_in true text.now) ≡ Some address) }
    ensures err { OnErr result (sixteen_bytes (side_in true text.now) ≡ None) }
    ensures offset { IfErr result (λ offset. offset ≤ length text.now) }
{
    match read_front(text) {
        Ok(side) if side.len == 16 => Ok(side.bytes),
        Ok(_) => Err(text.len()),
        Err(offset) => Err(offset),
    }
}

/// Reads an address by what is before its `::` and what is after it.
fn read_around(front: &[u8], back: &[u8]) -> Result<[u8; 16], usize>
    requires { length front.now + 2 + length back.now < 2 ^ 64 }
    ensures ok { IfOk result (λ address. around (side_in false front.now) (side_in true back.now)
        ≡ Some address) }
    ensures err { OnErr result (around (side_in false front.now) (side_in true back.now) ≡ None) }
    ensures offset { IfErr result (λ offset. offset ≤ length front.now + 2 + length back.now) }
{
    let before = match read_front(front) {
        Ok(side) if side.len <= 14 => side,
        Ok(_) => return Err(front.len()),
        Err(offset) => return Err(offset),
    };
    match read_side(back, 0, 14 - before.len) {
        Ok(after) => Ok(before.around(after)),
        Err(offset) => Err(front.len() + 2 + offset),
    }
}

/// Reads the groups that an address begins with, which are all or are before a `::`.
fn read_front(text: &[u8]) -> Result<Side, usize>
    ensures ok { IfOk result (λ side. side_in true text.now ≡ Some (side_bytes side)) }
    ensures groups { IfOk result (λ side. side.len < 16
        → side_in false text.now ≡ Some (side_bytes side)) }
    ensures side { IfOk result IsSide }
    ensures err { OnErr result (IsNoSide text.now 16 16) }
    ensures offset { IfErr result (λ offset. offset ≤ length text.now) }
{
    match (read_side(text, 16, 16), text) {
        (Err(_), [b':', ..]) => Err(1),
        (side, _) => side,
    }
}

/// Reads groups of at most `room` bytes. An IPv4 address can be the last two, if these then have at
/// least `least` bytes.
fn read_side(text: &[u8], least: usize, room: usize) -> Result<Side, usize>
    requires { room ≤ 16 }
    ensures ok { IfOk result (λ side. side_in true text.now ≡ Some (side_bytes side)) }
    ensures groups { IfOk result (λ side. side.len < least
        → side_in false text.now ≡ Some (side_bytes side)) }
    ensures side { IfOk result IsSide }
    ensures few { IfOk result (λ side. side.len ≤ room) }
    ensures err { OnErr result (IsNoSide text.now least room) }
    ensures offset { IfErr result (λ offset. offset ≤ length text.now) }
{
    let (side, rest) = read_groups(text, room);
    let Some(parts) = rest else {
        return Ok(side);
    };
    let start = text.len() - parts.len();
    if side.len + 2 > room {
        return Err(start.saturating_sub(1));
    }
    match read_last(parts, is_within(side.len + 4, least, room)) {
        Ok(address) => Ok(side.with(&address)),
        Err(offset) => Err(start + offset),
    }
}

/// Returns whether a number of bytes is between these.
fn is_within(len: usize, least: usize, most: usize) -> bool
    ensures { IsTrue result ↔ (least ≤ len) × (len ≤ most) }
{
    (least..=most).contains(&len)
}

/// Reads the groups that a text begins with, at most `room` bytes, and returns what follows them.
fn read_groups(text: &[u8], room: usize) -> (Side, Option<&[u8]>)
    requires { room ≤ 16 }
    ensures groups { (is_end : Bool) → side_in is_end text.now
        ≡ followed (side_bytes result.0) (groups_in is_end (rest_parts 0x3a result.1)) }
    ensures side { IsSide result.0 }
    ensures few { result.0.len ≤ room }
    ensures stops { IfSome result.1 (λ rest. result.0.len + 2 ≤ room
        → is_group (first_text (cut_at 0x3a rest.now)) ≡ false) }
    ensures within { rest_length result.1 ≤ length text.now + 1 }
{
    let mut side = Side::new();
    let mut rest = some_text(text);
    while let Some(parts) = rest {
        if side.len + 2 > room {
            return (side, rest);
        }
        let (part, others) = cut(parts, b':');
        let Some(group) = group_of(part) else {
            return (side, rest);
        };
        side = side.with(&group);
        rest = others;
    }
    (side, None)
}

/// Returns a text, if it isn't empty.
fn some_text(text: &[u8]) -> Option<&[u8]>
    ensures parts { (is_end : Bool) → side_in is_end text.now
        ≡ groups_in is_end (rest_parts 0x3a result) }
    ensures length { rest_length result ≤ length text.now + 1 }
{
    if text.is_empty() { None } else { Some(text) }
}

/// Reads a group: one to four hex digits.
fn group_of(part: &[u8]) -> Option<[u8; 2]>
    ensures some { IfSome result (λ bytes. bytes ≡ group_bytes part.now) }
    ensures group { IfSome result (λ bytes. IsTrue (is_group part.now)) }
    ensures none { IfNone result (is_group part.now ≡ false) }
{
    if part.len() > 4 {
        return None;
    }
    match read_digits(part, 16, 0xffff) {
        Ok(number) => Some((number as u16).to_be_bytes()),
        Err(_) => None,
    }
}

/// Reads an IPv4 address, if there can be one, where a text doesn't begin with a group.
fn read_last(text: &[u8], can_be_ipv4: bool) -> Result<[u8; 4], usize>
    requires { is_group (first_text (cut_at 0x3a text.now)) ≡ false }
    ensures ok { IfOk result (λ address. groups_in true (cut_at 0x3a text.now) ≡ Some address) }
    ensures allowed { OnOk result (can_be_ipv4 ≡ true) }
    ensures err { OnErr result (can_be_ipv4 ≡ true → groups_in true (cut_at 0x3a text.now) ≡ None) }
    ensures offset { IfErr result (λ offset. offset ≤ length text.now) }
{
    let (part, others) = cut(text, b':');
    let offset = group_len(part);
    if !can_be_ipv4 {
        return Err(offset);
    }
    match read_ipv4_end(part) {
        Ok(address) if others.is_none() => Ok(address),
        Ok(_) => Err(part.len()),
        Err(other) => Err(offset.max(other)),
    }
}

/// Returns how many characters a text begins with that a group can have.
fn group_len(part: &[u8]) -> usize
    ensures { result ≤ length part.now }
{
    part.iter()
        .take(4)
        .take_while(|c| is_hex_digit(**c))
        .count()
}

/// Reads an IPv4 address, each number of which has at most three digits.
fn read_ipv4_end(part: &[u8]) -> Result<[u8; 4], usize>
    ensures ok { OnOk result (IsTrue (is_ipv4_end part.now)) }
    ensures address { IfOk result (λ address. address ≡ ipv4_bytes part.now) }
    ensures err { OnErr result (is_ipv4_end part.now ≡ false) }
    ensures offset { IfErr result (λ offset. offset ≤ length part.now) }
{
    let Some(long) = find_long(part) else {
        return read_ipv4(part);
    };
    match read_ipv4(part) {
        Ok(_) => Err(long),
        Err(offset) => Err(long.min(offset)),
    }
}

/// Returns the offset of the first fourth character of a number of an IPv4 address.
fn find_long(text: &[u8]) -> Option<usize>
    ensures none { IfNone result (IsTrue (list_all is_short (cut_at 0x2e text.now))) }
    ensures some { IfSome result (λ offset. list_all is_short (cut_at 0x2e text.now) ≡ false) }
    ensures offset { IfSome result (λ offset. offset ≤ length text.now) }
{
    let mut rest = Some(text);
    while let Some(parts) = rest {
        let (number, others) = cut(parts, b'.');
        if number.len() > 3 {
            return Some(text.len() - parts.len() + 3);
        }
        rest = others;
    }
    None
}
