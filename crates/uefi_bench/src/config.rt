use std::alloc::{AllocError, Global};
use uefi_hii::{
    ConfigurationString, ConfigurationStringElement, ConfigurationStringIter,
    MultiConfigurationStringIter, fill_from_hex,
};

/// Returns the bytes as a text, or the empty text if they aren't UTF-8.
fn text_of(bytes: &[u8]) -> &str {
    str::from_utf8(bytes).unwrap_or("")
}

/// Cuts the text into pairs. The sum is over the lengths of their keys and values.
#[unsafe(no_mangle)]
pub extern "C" fn port_config_pairs(bytes: &[u8]) -> u64 {
    let mut sum = 0u64;
    for (key, value) in ConfigurationStringIter::new(text_of(bytes)) {
        sum = sum
            .wrapping_add(key.len() as u64)
            .wrapping_add(value.map_or(0, |value| value.len()) as u64);
    }
    sum
}

/// Reads all configurations of the text. The sum is over offset, width and first byte of each
/// element.
#[unsafe(no_mangle)]
pub extern "C" fn port_config(alloc: Global, bytes: &[u8]) -> u64 {
    text_sum(
        alloc,
        bytes,
        |element| element.offset.wrapping_add(element.width),
    )
}

/// Reads all configurations of the text. The sum is over length and first byte of each value.
#[unsafe(no_mangle)]
pub extern "C" fn port_config_value(alloc: Global, bytes: &[u8]) -> u64 {
    text_sum(alloc, bytes, |element| element.value.len() as u64)
}

/// Returns the sum over all configurations of the text: over the number and the first byte of each
/// element.
fn text_sum<F>(alloc: Global, bytes: &[u8], number: F) -> u64
where
    F: Fn(&ConfigurationStringElement) -> u64,
    requires { F.IsAlwaysCallable number }
{
    let mut sum = 0u64;
    for item in MultiConfigurationStringIter::new(alloc, text_of(bytes)) {
        if let Ok(configuration) = item {
            sum = sum.wrapping_add(element_sum(&configuration, &number));
        }
    }
    sum
}

/// Returns the sum over the number and the first byte of each element.
fn element_sum<F>(configuration: &ConfigurationString, number: &F) -> u64
where
    F: Fn(&ConfigurationStringElement) -> u64,
    requires { F.IsAlwaysCallable number.now }
{
    let mut sum = 0u64;
    for element in configuration.elements.as_slice() {
        sum = sum
            .wrapping_add(number(element))
            .wrapping_add(first_of(element.value.as_slice()));
    }
    sum
}

/// Fills memory with the bytes that the text spells in hex. The sum is over their number and the
/// first.
#[unsafe(no_mangle)]
pub extern "C" fn port_hex(alloc: Global, bytes: &[u8]) -> u64 {
    let text = text_of(bytes);
    let count = ConfigurationString::parse_bytes_from_hex(text).len();
    let filled: Result<Vec<u8>, AllocError> = vec![in alloc; 0; count];
    match filled {
        Ok(mut filled) => {
            fill_from_hex(text, &mut filled);
            (filled.len() as u64).wrapping_add(first_of(filled.as_slice()))
        }
        Err(_) => 0,
    }
}

/// Returns the first byte, or 0 if there is none.
fn first_of(bytes: &[u8]) -> u64 {
    bytes.first().map_or(0, |byte| u64::from(*byte))
}
