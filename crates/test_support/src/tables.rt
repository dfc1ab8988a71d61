use crate::bytes;
use crate::checks::{same, same_bytes, same_text};
use std::alloc::Global;
use std::fmt::Debug;
use std::test::Fail;

/// Checks what a function gives for the bytes of each row, which has them as hex.
///
/// # Errors
///
/// A failure that names the row and shows both values, at the first row where they differ; also if
/// a row isn't hex or an allocation fails.
pub fn each_reads<T, F>(alloc: Global, rows: &[(&str, T)], read: F) -> Result<(), Fail>
where
    T: PartialEq + Debug + Drop,
    F: Fn(&[u8]) -> T,
    requires { F.IsAlwaysCallable read }
{
    for (row, expected) in rows {
        let input = bytes(alloc, row)?;
        same(row, &read(input.as_slice()), expected)?;
    }
    Ok(())
}

/// Checks the bytes that a function makes of the bytes of each row, which has both as hex.
///
/// # Errors
///
/// A failure that names the row and shows both values, at the first row where they differ; the
/// failure of `make`; also if a row isn't hex or an allocation fails.
pub fn each_makes<F>(alloc: Global, rows: &[[&str; 2]], make: F) -> Result<(), Fail>
where
    F: Fn(Global, &[u8]) -> Result<Vec<u8>, Fail>,
    requires { F.IsAlwaysCallable make }
{
    for [row, expected] in rows {
        let input = bytes(alloc, row)?;
        let expected = bytes(alloc, expected)?;
        let made = make(alloc, input.as_slice())?;
        same_bytes(row, made.as_slice(), expected.as_slice())?;
    }
    Ok(())
}

/// Checks the text that a function gives for the bytes of each row, which has them as hex.
///
/// # Errors
///
/// A failure that names the row and shows both texts, at the first row where they differ; the
/// failure of `show`; also if a row isn't hex or an allocation fails.
pub fn each_shows<F>(alloc: Global, rows: &[[&str; 2]], show: F) -> Result<(), Fail>
where
    F: Fn(Global, &[u8]) -> Result<String, Fail>,
    requires { F.IsAlwaysCallable show }
{
    for [row, expected] in rows {
        let input = bytes(alloc, row)?;
        let text = show(alloc, input.as_slice())?;
        same_text(row, text.as_str(), expected)?;
    }
    Ok(())
}
