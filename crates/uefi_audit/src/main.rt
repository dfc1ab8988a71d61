//! `uefi_audit COMMAND ..` audits event logs of measured boot.
//!
//! A byte goes through it in this order. [`program`] takes the arguments, which [`command_line`]
//! matches by `clap`. [`request`] says what they ask for, and [`commands`] does it. [`input`] reads
//! the files, and [`log_file`] a log in one of them, once. [`events`], [`replay`], [`verification`],
//! [`quote_check`], [`comparison`] and [`checking`] compute what is asked for and render it as a
//! [`report`] in memory, by the libraries `uefi_audits` and `audit_text`. It is then written.
//!
//! The contracts say what the values that `clap` found ask for, and which exit status and which line
//! on standard error follow from how a run ended ([`failure`]). No contract can speak of what files
//! and streams give and take: `tests/audit` tries that.
#![tactic(auto)]

use std::process::ExitCode;

mod checking;
mod command_line;
mod commands;
mod comparison;
mod events;
mod failure;
mod file_name;
mod input;
mod log_file;
mod program;
mod quote;
mod quote_check;
mod replay;
mod replay_counts;
mod report;
mod request;
mod task;
mod verification;

fn main(rt: HostRuntime) -> ExitCode {
    program::start(&rt)
}
