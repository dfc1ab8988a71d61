ghost use Rattle.std.specs.Prelude.{◌≡◌, Some};
ghost use Rattle.uefi_path.specs.LoadOptionTexts.{load_option_error_text};

use crate::error::ByteConversionError;
use std::error::Error;
use std::fmt;

/// The error for bytes that are no load option.
#[derive(Clone, Copy, PartialEq, Eq, Debug)]
pub enum LoadOptionError {
    /// There are fewer than six bytes: the attributes or the length of the file path list are cut.
    TooShort,
    /// No unit from the sixth byte on is zero, so the description doesn't end.
    NotNulTerminated,
    /// The stated length of the file path list is beyond the end of the bytes.
    FilePathListTooLong,
    /// The file path list doesn't start with a device path.
    FilePath(ByteConversionError),
}

/// The error of the first path of the file path list.
impl From<ByteConversionError> for LoadOptionError {
    ghost use Rattle.uefi_path.specs.declared.load_option_error.LoadOptionError.TheVariants.{FilePath};

    ghost from_gives = { λ fault error. error ≡ FilePath fault };

    fn from(fault: ByteConversionError) -> LoadOptionError {
        LoadOptionError::FilePath(fault)
    }
}

/// Writes what is wrong with the bytes, such as `a description without a NUL`.
impl fmt::Display for LoadOptionError {
    ghost output = { λ error. Some (load_option_error_text error) };

    fn fmt<W: fmt::Write>(&self, f: &mut fmt::Formatter<W>) -> fmt::Result {
        match self {
            LoadOptionError::TooShort => f.write_str("fewer than 6 bytes"),
            LoadOptionError::NotNulTerminated => f.write_str("a description without a NUL"),
            LoadOptionError::FilePathListTooLong => {
                f.write_str("a file path list beyond the end of the bytes")
            }
            LoadOptionError::FilePath(fault) => write!(f, "the first file path: {fault}"),
        }
    }
}

impl Error for LoadOptionError {}
