ghost use Rattle.std.specs.Prelude.{Some};
ghost use Rattle.uefi_records.specs.file.Texts.{creation_error_text};

use std::error::Error;
use std::fmt;

/// The error of a record that was not written.
#[derive(Clone, Copy, PartialEq, Eq, Debug)]
pub enum FileInfoCreationError {
    /// The storage is shorter than the record, whose size this is, in bytes.
    InsufficientStorage(usize),
}

/// The text `provided buffer was too small. need at least N bytes`, without a newline.
impl fmt::Display for FileInfoCreationError {
    ghost output = { λ error. Some (creation_error_text error) };

    fn fmt<W: fmt::Write>(&self, f: &mut fmt::Formatter<W>) -> fmt::Result {
        let FileInfoCreationError::InsufficientStorage(size) = self;
        write!(
            f,
            "provided buffer was too small. need at least {size} bytes"
        )
    }
}

impl Error for FileInfoCreationError {}
