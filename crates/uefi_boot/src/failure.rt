ghost use Rattle.std.specs.Prelude.{◌≡◌};
ghost use Rattle.uefi_boot.specs.Failures.{message_of, status_of};
ghost use Rattle.uefi_boot.specs.declared.failure.Failure.TheVariants.{Memory};

use file_input::ReadError;
use shown::ShownName;
use std::alloc::{AllocError, Global};
use std::{fmt, io};

/// Why the program didn't print what it was asked for.
#[derive(Drop)]
pub(crate) enum Failure {
    /// The words ask for nothing.
    OtherWords,
    /// The folder of this name couldn't be read, or one of the names in it.
    Folder(String, io::Error),
    /// The file of this name couldn't be read.
    File(String, ReadError),
    /// A write failed or accepted no bytes.
    Output(io::Error),
    /// An allocation failed.
    Memory,
}

impl From<AllocError> for Failure {
    ghost from_gives = { λ _ failure. failure ≡ Memory };

    fn from(_error: AllocError) -> Failure {
        Failure::Memory
    }
}

impl Failure {
    /// Returns that a file wasn't read.
    pub(crate) fn of_file(alloc: Global, name: &str, error: ReadError) -> Failure {
        match String::from_str(alloc, name) {
            Ok(name) => Failure::File(name, error),
            Err(_) => Failure::Memory,
        }
    }

    /// Returns that a folder wasn't read.
    pub(crate) fn of_folder(alloc: Global, name: &str, error: io::Error) -> Failure {
        match String::from_str(alloc, name) {
            Ok(name) => Failure::Folder(name, error),
            Err(_) => Failure::Memory,
        }
    }

    /// Returns the exit status.
    pub(crate) fn status(&self) -> u8
        ensures { result ≡ status_of self.now }
    {
        match self {
            Failure::OtherWords => 2,
            Failure::Folder(..) | Failure::File(..) | Failure::Output(_) | Failure::Memory => 3,
        }
    }
}

/// Writes what failed, and for which cause.
impl fmt::Display for Failure {
    ghost output = { message_of };

    fn fmt<W: fmt::Write>(&self, f: &mut fmt::Formatter<W>) -> fmt::Result {
        match self {
            Failure::OtherWords => {
                f.write_str("usage: uefi_boot list|option|text|path [--json] DIR|FILE|TEXT")
            }
            Failure::Folder(name, cause) => {
                let name = ShownName(name.as_str());
                write!(f, "uefi_boot: {name}: {cause}")
            }
            Failure::File(name, cause) => {
                let name = ShownName(name.as_str());
                write!(f, "uefi_boot: {name}: {cause}")
            }
            Failure::Output(cause) => write!(f, "uefi_boot: standard output: {cause}"),
            Failure::Memory => f.write_str("uefi_boot: memory"),
        }
    }
}
