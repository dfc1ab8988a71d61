//! `uefi_boot COMMAND [--json] OPERAND` prints boot options, and device paths as text, in lines or in
//! JSON.
//!
//! [`program`] takes the words of the command line, which the library `boot_listing` judges, and has
//! the library `file_input` read the files. `boot_listing` makes the text in memory.
//!
//! What the libraries return and write is proved. [`program`] joins them with the files, the streams
//! and the exit status of the process, of which no contract can speak.
#![tactic(auto)]

use std::process::ExitCode;

mod failure;
mod folder;
mod program;

fn main(rt: HostRuntime) -> ExitCode {
    program::start(&rt)
}
