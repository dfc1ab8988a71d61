ghost use Rattle.std.specs.Prelude.{◌≡◌, ◌⊎◌, IsTrue};
ghost use Rattle.clap.specs.Words.{kind_of};
ghost use Rattle.uefi_audit.specs.Ends.{failure_of, is_output};

use crate::command_line::matches_of;
use crate::commands::perform;
use crate::failure::{Failure, Status, exit_code};
use crate::file_name::FileName;
use crate::request::request_of;
use std::env::FillError;
use std::io;
use std::process::ExitCode;
use std::rt::{Env, Files};

/// The longest argument that Linux passes, in bytes.
const LONGEST_ARGUMENT: usize = 131_072;

/// Returns the words of the arguments, of which the first is the program's name.
fn read_arguments<R: Env + AllocGlobal>(rt: &R) -> Result<Vec<String>, Failure> {
    let mut words = Vec::new(rt.alloc());
    let mut buffer = vec![in rt.alloc(); 0; LONGEST_ARGUMENT]?;
    for index in 0..usize::MAX {
        let length = match rt.arg(index, buffer.as_mut_slice()) {
            Ok(length) => length,
            Err(FillError::NotPresent) => break,
            Err(FillError::TooLong) => return Err(Failure::Memory),
        };
        let word = FileName::word_of(rt.alloc(), &buffer.as_slice()[..length])?;
        if words.push(word).is_err() {
            return Err(Failure::Memory);
        }
    }
    Ok(words)
}

/// Reads the arguments, and does what they ask for.
fn audit<R: Files + Env + Input + Print + Eprint + AllocGlobal>(rt: &R) -> Result<Status, Failure> {
    let arguments = read_arguments(rt)?;
    let matches = match matches_of(rt.alloc(), arguments.as_slice()) {
        Ok(matches) => matches,
        Err(error) => return Err(print_error(rt, &error)),
    };
    let Some((name, of)) = matches.subcommand() else {
        return Err(Failure::Arguments);
    };
    let Some((request, reading)) = request_of(name, of) else {
        let _ = eprintln!(rt; "uefi_audit: --last-entry takes a number or none");
        return Err(Failure::Arguments);
    };
    perform(rt, &request, reading)
}

/// Prints what `clap` says of the arguments, and returns why the program ends.
fn print_error<R: Print + Eprint>(rt: &R, error: &clap::Error) -> Failure
    ensures { (result ≡ failure_of (kind_of error.now)) ⊎ IsTrue (is_output result) }
{
    let failure = Failure::of(error);
    if matches!(failure, Failure::Memory) {
        return failure;
    }
    match error.print(rt) {
        Ok(()) => failure,
        Err(cause) => Failure::Output(cause),
    }
}

/// Runs the program, says on standard error why it failed, and returns its exit status.
pub(crate) fn start<R: Files + Env + Input + Print + Eprint + AllocGlobal>(rt: &R) -> ExitCode {
    let end = audit(rt);
    if let Err(failure) = &end {
        if !failure.is_told() {
            // If standard error is closed too, the exit status still tells.
            let _ = eprintln!(rt; "uefi_audit: {failure}");
        }
    }
    ExitCode::from(exit_code(end))
}
