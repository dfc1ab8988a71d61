use hex::FromHexError;
use std::alloc::{AllocError, Global};
use std::fmt;
use test_support::bytes;

/// Answers a row whose input is bytes as hex: returns what `Debug` prints of what a function
/// returns for them, or `None` if memory ran out.
pub fn hex_row<T: fmt::Debug + Drop, F>(alloc: Global, input: &str, call: F) -> Option<String>
where
    F: Fn(&[u8]) -> T,
    requires { F.IsAlwaysCallable call }
{
    match bytes(alloc, input) {
        Ok(input) => {
            let found = call(input.as_slice());
            format!(in alloc; "{found:?}").ok()
        }
        Err(FromHexError::OutOfMemory) => None,
        Err(_) => format!(in alloc; "the input is no hex").ok(),
    }
}

/// Answers a row whose input is bytes as hex, ` ; ` and more bytes, as [`hex_row`] does.
pub fn hex_pair_row<T: fmt::Debug + Drop, F>(alloc: Global, input: &str, call: F) -> Option<String>
where
    F: Fn(&[u8], &[u8]) -> T,
    requires { F.IsAlwaysCallable call }
{
    let Some((one, other)) = input.split_once(" ; ") else {
        return format!(in alloc; "the input is no pair").ok();
    };
    match (bytes(alloc, one), bytes(alloc, other)) {
        (Ok(one), Ok(other)) => {
            let found = call(one.as_slice(), other.as_slice());
            format!(in alloc; "{found:?}").ok()
        }
        (Err(FromHexError::OutOfMemory), _) | (_, Err(FromHexError::OutOfMemory)) => None,
        _ => format!(in alloc; "the input is no hex").ok(),
    }
}

/// Returns a text in quotes, as `Debug` prints it.
///
/// # Errors
///
/// [`AllocError`] if an allocation fails.
pub fn quoted(alloc: Global, text: &str) -> Result<String, AllocError> {
    format!(in alloc; "{text:?}")
}

/// Returns bytes as `x"..."`, two hex digits a byte.
///
/// # Errors
///
/// [`AllocError`] if an allocation fails.
pub fn hex_digits(alloc: Global, bytes: &[u8]) -> Result<String, AllocError> {
    let mut text = String::new(alloc);
    text.push_str("x\"")?;
    for byte in bytes {
        write!(text, "{byte:02x}")?;
    }
    text.push('"')?;
    Ok(text)
}
