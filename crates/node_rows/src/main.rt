//! The rows of the folder `data`, answered by the library `uefi_node`.
#![tactic(auto)]

use crate::answer::answer;
use rows::answered;
use std::process::ExitCode;
use std::test::Fail;

mod answer;
mod flags;
mod messaging;
mod names;
mod nodes;
mod parts;

fn main(rt: HostRuntime) -> Result<ExitCode, Fail> {
    answered(&rt, |_heap, call, input| answer(rt.alloc(), call, input))
}
