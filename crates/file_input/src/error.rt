ghost use Rattle.std.specs.Prelude.{◌≡◌};
ghost use Rattle.file_input.specs.Texts.{error_text};

use std::alloc::AllocError;
use std::error::Error;
use std::{fmt, io};

/// Why an input wasn't read to its end.
#[derive(Clone, Copy, Debug)]
pub enum ReadError {
    /// An allocation failed.
    Memory,
    /// The file can't be opened, or a read failed, for this cause. An interrupted read is none: it
    /// is tried again.
    Io(io::Error),
    /// All reads that were allowed were made, and none found the end.
    TooManyReads,
}

/// Writes the cause, `out of memory`, or `too many reads`.
impl fmt::Display for ReadError {
    ghost output = { error_text };

    fn fmt<W: fmt::Write>(&self, f: &mut fmt::Formatter<W>) -> fmt::Result {
        match self {
            ReadError::Memory => f.write_str("out of memory"),
            ReadError::Io(error) => write!(f, "{error}"),
            ReadError::TooManyReads => f.write_str("too many reads"),
        }
    }
}

impl Error for ReadError {}

/// A failed allocation is [`ReadError::Memory`].
impl From<AllocError> for ReadError {
    ghost use Rattle.file_input.specs.declared.error.ReadError.TheVariants.{Memory};

    ghost from_gives = { λ _ error. error ≡ Memory };

    fn from(_error: AllocError) -> ReadError {
        ReadError::Memory
    }
}

/// A read that failed is [`ReadError::Io`].
impl From<io::Error> for ReadError {
    ghost use Rattle.file_input.specs.declared.error.ReadError.TheVariants.{Io};

    ghost from_gives = { λ cause error. error ≡ Io cause };

    fn from(cause: io::Error) -> ReadError {
        ReadError::Io(cause)
    }
}
