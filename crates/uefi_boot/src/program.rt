use crate::failure::Failure;
use crate::folder::read_folder;
use boot_listing::Outcome;
use boot_listing::command::{Command, Request};
use boot_listing::list::folder_listing;
use boot_listing::option::push_load_option_listing;
use boot_listing::path::push_path_listing;
use boot_listing::text::push_path_text_listing;
use file_input::{MAX_READS, read_file};
use std::io::Write;
use std::process::ExitCode;
use std::rt::{Env, Files};
use std::{env, io};

/// The line that `--version` prints.
const VERSION_LINE: &str = "uefi_boot 0.1.0\n";

/// Returns the words after the program's name. If one isn't UTF-8, they ask for nothing.
fn read_words<R: Env + AllocGlobal>(rt: &R) -> Result<Vec<String>, Failure> {
    match env::args(rt) {
        Ok(args) => match args.skip(1).collect(rt.alloc()) {
            Ok(words) => Ok(words),
            Err(_) => Err(Failure::Memory),
        },
        Err(error) if error.kind() == io::ErrorKind::OutOfMemory => Err(Failure::Memory),
        Err(_) => Err(Failure::OtherWords),
    }
}

/// Returns the bytes of a file.
fn file_bytes<R: Files + Input + AllocGlobal>(rt: &R, path: &str) -> Result<Vec<u8>, Failure> {
    match read_file(rt, path, MAX_READS) {
        Ok(bytes) => Ok(bytes),
        Err(error) => Err(Failure::of_file(rt.alloc(), path, error)),
    }
}

/// Returns what is printed for a request.
fn listing<R: Files + Input + AllocGlobal + Clone + Drop>(
    rt: &R,
    request: &Request<'_>,
) -> Result<(String, Outcome), Failure> {
    let form = request.form;
    let mut text = String::new(rt.alloc());
    let outcome = match request.command {
        Command::List => {
            let files = read_folder(rt, request.operand)?;
            return Ok(folder_listing(rt.alloc(), form, files.as_slice())?);
        }
        Command::Option => {
            let bytes = file_bytes(rt, request.operand)?;
            push_load_option_listing(&mut text, rt.alloc(), form, bytes.as_slice())?
        }
        Command::Text => {
            let bytes = file_bytes(rt, request.operand)?;
            push_path_text_listing(&mut text, rt.alloc(), form, bytes.as_slice())?
        }
        Command::Path => push_path_listing(&mut text, rt.alloc(), form, request.operand)?,
    };
    Ok((text, outcome))
}

/// Returns whether the words ask for the version.
fn asks_version(words: &[String]) -> bool {
    matches!(words, [word] if word.as_str() == "--version")
}

/// Prints a text.
fn print_text<R: Print>(rt: &R, text: &str) -> Result<(), Failure> {
    match io::writer(rt).write_all(text.as_bytes()) {
        Ok(()) => Ok(()),
        Err(error) => Err(Failure::Output(error)),
    }
}

/// Judges the words, and prints what they ask for, or the version.
fn print_listing<R: Files + Env + Input + Print + AllocGlobal + Clone + Drop>(
    rt: &R,
) -> Result<Outcome, Failure> {
    let words = read_words(rt)?;
    if asks_version(words.as_slice()) {
        print_text(rt, VERSION_LINE)?;
        return Ok(Outcome::Listed);
    }
    let Some(request) = Request::from_words(words.as_slice()) else {
        return Err(Failure::OtherWords);
    };
    let (text, outcome) = listing(rt, &request)?;
    print_text(rt, text.as_str())?;
    Ok(outcome)
}

/// Runs the program, says on standard error why it failed, and returns its exit status.
pub(crate) fn start<R: Files + Env + Input + Print + Eprint + AllocGlobal + Clone + Drop>(
    rt: &R,
) -> ExitCode {
    match print_listing(rt) {
        Ok(Outcome::Listed) => ExitCode::SUCCESS,
        Ok(Outcome::Refused) => ExitCode::from(1),
        Err(failure) => {
            // If standard error is closed too, the exit status still tells.
            let _ = eprintln!(rt; "{failure}");
            ExitCode::from(failure.status())
        }
    }
}
