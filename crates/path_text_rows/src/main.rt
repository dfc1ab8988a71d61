//! The rows of the folder `data`, answered by the library `uefi_path_text`.
#![tactic(auto)]

use crate::answer::answer;
use rows::answered;
use std::process::ExitCode;
use std::test::Fail;

mod answer;
mod texts;

fn main(rt: HostRuntime) -> Result<ExitCode, Fail> {
    answered(
        &rt,
        |heap, call, input| answer(rt.alloc(), heap, call, input),
    )
}
