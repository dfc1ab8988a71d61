//! The rows of the folder `data`, answered by the libraries `uefi_tcg` and `tcg_event`.
#![tactic(auto)]

use crate::answer::answer;
use rows::answered;
use std::process::ExitCode;
use std::test::Fail;

mod answer;
mod capabilities;
mod content;
mod gpt;
mod log_inputs;
mod logs;
mod names;
mod of_logs;
mod samples;
mod signatures;
mod sweeps;
mod texts;
mod v1_logs;
mod v2_headers;
mod v2_logs;
mod writers;

fn main(rt: HostRuntime) -> Result<ExitCode, Fail> {
    answered(
        &rt,
        |heap, call, input| answer(rt.alloc(), heap, call, input),
    )
}
