ghost use Rattle.std.specs.Prelude.{Some};
ghost use Rattle.uefi_path.specs.Texts.{error_text};

use std::error::Error;
use std::fmt;

/// The error for bytes that don't start with the header, the node or the path that was to be read.
#[derive(Clone, Copy, PartialEq, Eq, Debug)]
pub enum ByteConversionError {
    /// There are too few bytes, or a length that they state is below the length of a header or
    /// beyond their end.
    InvalidLength,
}

/// Writes `invalid length`.
impl fmt::Display for ByteConversionError {
    ghost output = { λ error. Some (error_text error) };

    fn fmt<W: fmt::Write>(&self, f: &mut fmt::Formatter<W>) -> fmt::Result {
        match self {
            ByteConversionError::InvalidLength => f.write_str("invalid length"),
        }
    }
}

impl Error for ByteConversionError {}
