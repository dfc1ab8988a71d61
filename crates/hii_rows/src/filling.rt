use rows::hex_digits;
use std::alloc::Global;
use uefi_hii::{ConfigurationString, fill_from_hex};

/// Returns the bytes that a text fills a buffer with.
pub(crate) fn filled(alloc: Global, input: &str) -> Option<String> {
    let count = ConfigurationString::parse_bytes_from_hex(input).len();
    let mut bytes = vec![in alloc; 0; count].ok()?;
    fill_from_hex(input, &mut bytes);
    hex_digits(alloc, bytes.as_slice()).ok()
}

/// Digits of both cases, of which no two bytes next to each other are equal.
const DIGITS: [u8; 100] =
    *b"07eF6dE5cD4bC3aB29A18f07eF6dE5cD4bC3aB29A18f07eF6dE5cD4bC3aB29A18f07eF6dE5cD4bC3aB29A18f07eF6dE5cD4b";

/// Returns whether a text fills a buffer with the bytes that are read one by one.
fn fills_as_read(text: &str) -> bool {
    let mut buffer = [0u8; 50];
    let count = ConfigurationString::parse_bytes_from_hex(text).len();
    let Some(bytes) = buffer.get_mut(0..count) else {
        return false;
    };
    fill_from_hex(text, bytes);
    ConfigurationString::parse_bytes_from_hex(text).eq(bytes.iter().copied())
}

/// Returns whether that holds for a text of this many digits, with another character at the index,
/// if that is one of them.
fn is_like(length: usize, index: usize, other: u8) -> bool {
    let mut digits = DIGITS;
    if let Some(digit) = digits.get_mut(index) {
        *digit = other;
    }
    let Some(Ok(text)) = digits.get(..length).map(|it| str::from_utf8(it)) else {
        return false;
    };
    fills_as_read(text)
}

/// Returns the first index at which it doesn't hold for a text of this many digits.
fn unlike_index(length: usize, other: u8) -> Option<usize> {
    (0..=length).find(|index| !is_like(length, *index, other))
}

/// Returns the first length, of up to a hundred digits, for which it doesn't hold at an index, with
/// the character of the input there.
pub(crate) fn unlike(alloc: Global, input: &str) -> Option<String> {
    let other = input.as_bytes().first().copied()?;
    let length = (0..=DIGITS.len()).find(|length| unlike_index(*length, other).is_some());
    format!(in alloc; "{length:?}").ok()
}
