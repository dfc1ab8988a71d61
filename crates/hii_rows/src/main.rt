//! The rows of the folder `data`, answered by the library `uefi_hii`.
#![tactic(auto)]

use crate::answer::answer;
use rows::answered;
use std::process::ExitCode;
use std::test::Fail;

mod answer;
mod filling;
mod items;
mod values;

fn main(rt: HostRuntime) -> Result<ExitCode, Fail> {
    answered(
        &rt,
        |heap, call, input| answer(rt.alloc(), heap, call, input),
    )
}
