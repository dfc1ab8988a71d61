ghost use Rattle.std.specs.Prelude.{◌≡◌, List, ℕ, IfOk, OnOk, OnErr, IfErr, IfSome, IsErrOf};
ghost use Rattle.std.specs.Io.KnownBytes.{IsAtEnd};
ghost use Rattle.file_input.specs.Reads.{AreGiven, AreWithin, IsNoInterruption};

use crate::error::ReadError;
use std::alloc::{Allocator, Global};
use std::fs;
use std::io::{ErrorKind, Read};
use std::rt::Files;

/// The most reads that the programs make of a file. As many whole parts are 256 TiB.
pub const MAX_READS: u64 = 1 << 32;

/// The path of standard input.
pub const STANDARD_INPUT: &str = "/dev/stdin";

/// The most bytes that one read takes.
pub const PART_LENGTH: usize = 1 << 16;

/// Returns the bytes that a reader gives up to its end.
///
/// A read takes at most [`PART_LENGTH`] bytes. An interrupted one is tried again, and counts as a
/// read. The last one finds the end.
///
/// # Errors
///
/// What was read is lost then.
///
/// - [`ReadError::Memory`] if an allocation fails.
/// - [`ReadError::Io`] if a read fails, unless it was interrupted.
/// - [`ReadError::TooManyReads`] if none of `max_reads` reads finds the end. More than
///   `(max_reads - 1) * PART_LENGTH` bytes are never read to their end.
pub fn read_to_end<A: Allocator, R: Read>(
    alloc: A,
    reader: &mut R,
    max_reads: u64,
) -> Result<Vec<u8, A>, ReadError>
    ensures whole { IfOk result
        (λ bytes. IfSome (R.remaining reader.old) (λ all. bytes.items ≡ all)) }
    ensures end { OnOk result (IsAtEnd (R.remaining reader.new)) }
    ensures within { IfOk result (λ bytes. AreWithin max_reads bytes.items) }
    ensures no_reads { max_reads ≡ 0 → IsErrOf result ReadError.TooManyReads }
    ensures retried { IfErr result IsNoInterruption }
    ensures lost { OnErr result ((bytes : List ℕ)
        × AreGiven max_reads (R.remaining reader.old) (R.remaining reader.new) bytes) }
{
    let mut bytes = Vec::new(alloc);
    let mut part = [0; PART_LENGTH];
    for _ in 0..max_reads {
        match reader.read(&mut part) {
            Ok(0) => return Ok(bytes),
            Ok(count) => bytes.extend_from_slice(&part[..count])?,
            Err(error) if error.kind() == ErrorKind::Interrupted => {}
            Err(error) => return Err(ReadError::Io(error)),
        }
    }
    Err(ReadError::TooManyReads)
}

/// Returns the bytes of the file at a path.
///
/// [`STANDARD_INPUT`] is read by its handle, since a pipe that another user made can't be opened
/// again by its name.
///
/// # Errors
///
/// Those of [`read_to_end`], and [`ReadError::Io`] if the file can't be opened.
pub fn read_file<R: Files + Input + AllocGlobal>(
    rt: &R,
    path: &str,
    max_reads: u64,
) -> Result<Vec<u8>, ReadError>
    ensures within { IfOk result (λ bytes. AreWithin max_reads bytes.items) }
{
    if path == STANDARD_INPUT {
        return read_to_end(rt.alloc(), &mut rt.reader(), max_reads);
    }
    let mut file = fs::open(rt, path)?;
    read_to_end(rt.alloc(), &mut file, max_reads)
}
