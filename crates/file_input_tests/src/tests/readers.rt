//! Readers of which each read is known.

ghost use Rattle.std.specs.Io.{ReadsAtMost};

use file_input::ReadError;
use std::io::{self, ErrorKind, Read};

/// What one read gives: bytes, or an error of a kind.
#[derive(Clone, Copy, Debug)]
pub(crate) enum Step {
    /// These bytes.
    Gives(&'static [u8]),
    /// An error of this kind.
    Fails(ErrorKind),
}

impl Step {
    /// Does what a read with this buffer does.
    fn read(self, buf: &mut [u8]) -> io::Result<usize>
        ensures { ReadsAtMost result buf.new }
    {
        match self {
            Step::Gives(bytes) => {
                let count = bytes.len().min(buf.len());
                buf[..count].copy_from_slice(&bytes[..count]);
                Ok(count)
            }
            Step::Fails(kind) => Err(io::Error::from(kind)),
        }
    }
}

/// A reader that takes these steps, one a read, and then is at its end.
#[derive(Drop)]
pub(crate) struct Stepwise {
    pub(crate) steps: &'static [Step],
}

impl Read for Stepwise {
    fn read(&mut self, buf: &mut [u8]) -> io::Result<usize> {
        let Some((step, rest)) = self.steps.split_first() else {
            return Ok(0);
        };
        self.steps = rest;
        step.read(buf)
    }
}

/// A reader that takes the same step at each read, and counts its reads.
#[derive(Drop)]
pub(crate) struct Endless {
    pub(crate) step: Step,
    pub(crate) reads: u64,
}

impl Read for Endless {
    fn read(&mut self, buf: &mut [u8]) -> io::Result<usize> {
        self.reads = self.reads.saturating_add(1);
        self.step.read(buf)
    }
}

/// An error of `file_input`, with the kind of a cause alone.
#[derive(Clone, Copy, PartialEq, Debug)]
pub(crate) enum Fault {
    /// An allocation failed.
    Memory,
    /// A file wasn't opened, or a read failed.
    Io(ErrorKind),
    /// No read found the end.
    TooManyReads,
}

/// Returns what an error is.
pub(crate) fn fault_of(error: ReadError) -> Fault {
    match error {
        ReadError::Memory => Fault::Memory,
        ReadError::Io(cause) => Fault::Io(cause.kind()),
        ReadError::TooManyReads => Fault::TooManyReads,
    }
}
