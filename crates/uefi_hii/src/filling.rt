//! Buffers filled with the bytes that a text spells in hex.

ghost use Rattle.std.specs.Prelude.{◌≡◌, ◌==◌, ◌∷◌, ◌≤◌, ◌<◌, ◌+◌, ◌*◌, true, length, drop, map, IfOk};
ghost use Rattle.std.specs.List.{list_all};
ghost use Rattle.std.specs.Simd.Lanes.{Each1};
ghost use Rattle.uefi_hii.specs.Hex.{hex, byte_of_one as one};
ghost use Rattle.uefi_hii.specs.private.Filling.{IsFilledTo, is_hex_digit, digits_per_byte};

use crate::hex::{HexBytes, byte_of_one, byte_of_two};
use std::alloc::{AllocError, Allocator};
use std::simd::prelude::*;

/// How many characters spell one byte.
const DIGITS_PER_BYTE: usize = 2;

/// How many bytes are made at a time.
const LANES: usize = 16;

/// Writes the bytes that a text spells in hex, those of
/// [`ConfigurationString::parse_bytes_from_hex`](crate::ConfigurationString::parse_bytes_from_hex),
/// to a buffer of as many bytes.
#[tactic(auto, using(crate::proofs::HexEnds::two_a_byte))]
pub fn fill_from_hex(text: &str, out: &mut [u8])
    requires { length out.old ≡ length (hex text.now) }
    ensures { out.new ≡ hex text.now }
{
    let text = text.as_bytes();
    let blocks = text.len() / (DIGITS_PER_BYTE * LANES);
    for block in 0..blocks {
        fill_block(text, out, LANES * block);
    }
    let end = out.len();
    fill_each(text, out, LANES * blocks, end);
}

/// Returns the bytes that a text spells in hex.
pub(crate) fn hex_bytes<A: Allocator>(alloc: A, text: &str) -> Result<Vec<u8, A>, AllocError>
    ensures { IfOk result (λ bytes. bytes.items ≡ hex text.now) }
{
    let mut bytes = vec![in alloc; 0; HexBytes::new(text).len()]?;
    fill_from_hex(text, &mut bytes);
    Ok(bytes)
}

/// Fills sixteen bytes from `start` on: in lanes if all their characters are digits.
fn fill_block(text: &[u8], out: &mut [u8], start: usize)
    requires text { digits_per_byte * start + 32 ≤ length text.now }
    requires room { start + 16 ≤ length out.old }
    requires so_far { IsFilledTo start text.now out.old }
    ensures { IsFilledTo (start + 16) text.now out.new }
{
    let first = u8x16::from_slice(&text[DIGITS_PER_BYTE * start..]);
    let second = u8x16::from_slice(&text[DIGITS_PER_BYTE * start + LANES..]);
    let (high, low) = first.deinterleave(second);
    if are_digits(high) && are_digits(low) {
        let bytes = digit_values(high) * u8x16::splat(16) + digit_values(low);
        bytes.copy_to_slice(&mut out[start..]);
    } else {
        fill_each(text, out, start, start + LANES);
    }
}

/// Returns whether each lane is a hex digit.
#[inline(always)]
fn are_digits(lanes: u8x16) -> bool
    requires count { length lanes ≡ 16 }
    requires bytes { Each1 (λ x. x < 256) lanes }
    ensures { result ≡ list_all is_hex_digit lanes }
{
    let number = lanes - u8x16::splat(b'0');
    let letter = (lanes | u8x16::splat(0x20)) - u8x16::splat(b'a');
    let wrong = number.simd_ge(u8x16::splat(10)) & letter.simd_ge(u8x16::splat(6));
    wrong.to_bitmask() == 0
}

/// Returns the values of hex digits, lane by lane.
#[inline(always)]
fn digit_values(digits: u8x16) -> u8x16
    requires count { length digits ≡ 16 }
    requires bytes { Each1 (λ x. x < 256) digits }
    requires digits { list_all is_hex_digit digits ≡ true }
    ensures { result ≡ map one digits }
{
    let number = digits - u8x16::splat(b'0');
    let letter = (digits | u8x16::splat(0x20)) - u8x16::splat(b'a' - 10);
    number.simd_lt(u8x16::splat(10)).select(number, letter)
}

/// Fills the bytes from `start` up to `end`, one at a time.
#[tactic(auto, using(crate::proofs::HexParts::filled_more, std::proofs::lemmas::List::take_more_set))]
fn fill_each(text: &[u8], out: &mut [u8], start: usize, end: usize)
    requires order { start ≤ end }
    requires text { digits_per_byte * end ≤ length text.now + 1 }
    requires room { end ≤ length out.old }
    requires so_far { IsFilledTo start text.now out.old }
    ensures { IsFilledTo end text.now out.new }
{
    for index in start..end {
        out[index] = byte_at(text, index);
    }
}

/// Returns the byte at an index.
#[tactic(auto, using(crate::proofs::HexParts::hex_two, crate::proofs::HexParts::hex_one))]
#[inline(always)]
fn byte_at(text: &[u8], index: usize) -> u8
    requires { digits_per_byte * index < length text.now }
    ensures { hex (drop (digits_per_byte * index) text.now)
        ≡ result ∷ hex (drop (digits_per_byte * (index + 1)) text.now) }
{
    let offset = DIGITS_PER_BYTE * index;
    if offset + 1 < text.len() {
        byte_of_two(text[offset], text[offset + 1])
    } else {
        byte_of_one(text[offset])
    }
}
