ghost use Rattle.std.specs.Prelude.{◌≡◌};
ghost use Rattle.clap.specs.Words.{kind_of};
ghost use Rattle.uefi_audit.specs.declared.failure.Failure.TheVariants.{Memory};
ghost use Rattle.uefi_audit.specs.Ends.{code_of, exit_code, failure_code, failure_of, failure_text, is_told, worse};

use clap::error::ErrorKind;
use std::alloc::AllocError;
use std::{fmt, io};

/// Why the program stops before its end.
#[derive(Clone, Copy, Drop)]
pub(crate) enum Failure {
    /// The arguments ask for nothing that the program does, and it has said so.
    Arguments,
    /// They ask for help or the version, which was printed.
    Shown,
    /// A write failed or accepted no bytes, for this cause.
    Output(io::Error),
    /// An allocation failed.
    Memory,
}

impl From<AllocError> for Failure {
    ghost from_gives = { λ _ failure. failure ≡ Memory };

    fn from(_error: AllocError) -> Failure {
        Failure::Memory
    }
}

impl Failure {
    /// Returns the failure that an error of `clap` is, once its text is printed.
    pub(crate) fn of(error: &clap::Error) -> Failure
        ensures { result ≡ failure_of (kind_of error.now) }
    {
        match error.kind() {
            ErrorKind::OutOfMemory => Failure::Memory,
            ErrorKind::DisplayHelp | ErrorKind::DisplayVersion => Failure::Shown,
            _ => Failure::Arguments,
        }
    }

    /// Returns whether all was said where it came.
    pub(crate) fn is_told(self) -> bool
        ensures { result ≡ is_told self }
    {
        matches!(self, Failure::Arguments | Failure::Shown)
    }

    /// Returns the exit status.
    fn code(self) -> u8
        ensures { result ≡ failure_code self }
    {
        match self {
            Failure::Shown => 0,
            Failure::Arguments => 2,
            Failure::Output(_) | Failure::Memory => 3,
        }
    }
}

/// Writes what failed and, for output, the cause; nothing where all was said before.
impl fmt::Display for Failure {
    ghost output = { failure_text };

    fn fmt<W: fmt::Write>(&self, f: &mut fmt::Formatter<W>) -> fmt::Result {
        match self {
            Failure::Arguments | Failure::Shown => Ok(()),
            Failure::Output(cause) => write!(f, "standard output: {cause}"),
            Failure::Memory => f.write_str("memory"),
        }
    }
}

/// How the commands that ran have ended: the worst of what they met.
#[derive(Clone, Copy, PartialEq, Eq)]
pub(crate) enum Status {
    /// It is as asked.
    Well,
    /// PCRs or events differ, or an event doesn't match its data.
    Differs,
    /// A log can't be judged: it has trailing bytes, nothing was measured, or a PCR that was asked
    /// for is undetermined.
    Unjudged,
    /// A file wasn't read.
    Unread,
}

impl Status {
    /// Returns the worse one of two.
    pub(crate) fn and(self, other: Status) -> Status
        ensures { result ≡ worse self other }
    {
        match (self, other) {
            (Status::Unread, _) | (_, Status::Unread) => Status::Unread,
            (Status::Unjudged, _) | (_, Status::Unjudged) => Status::Unjudged,
            (Status::Differs, _) | (_, Status::Differs) => Status::Differs,
            (Status::Well, Status::Well) => Status::Well,
        }
    }

    /// Returns the exit status.
    fn code(self) -> u8
        ensures { result ≡ code_of self }
    {
        match self {
            Status::Well => 0,
            Status::Differs => 1,
            Status::Unread => 3,
            Status::Unjudged => 4,
        }
    }
}

/// Returns the exit status of a run that ended so.
pub(crate) fn exit_code(end: Result<Status, Failure>) -> u8
    ensures { result ≡ exit_code end }
{
    match end {
        Ok(status) => status.code(),
        Err(failure) => failure.code(),
    }
}
