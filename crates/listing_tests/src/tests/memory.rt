use crate::tests::runs::{RUNS, Run, input_of};
use std::alloc::{Allocator, Global};
use std::test::Fail;
use test_support::{holds, in_turn};
use uefi_listing::command::Command;
use uefi_listing::listing::{Outcome, listing};

/// Returns whether the listing of the bytes is the expected one, and its outcome; or `None` if
/// memory ran out.
fn listed<A: Allocator + Copy>(
    heap: A,
    (command, input): (&Command, &[u8]),
    expected: &str,
) -> Option<(bool, Outcome)> {
    let (text, outcome) = listing(heap, command, input).ok()?;
    Some((text.as_slice() == expected.as_bytes(), outcome))
}

/// Checks that the listing of a run is made, or a request for memory was refused.
fn lists_or_runs_out(alloc: Global, run: &Run) -> Result<(), Fail> {
    let (command, row, expected, outcome) = run;
    let input = input_of(alloc, run)?;
    let asked = (command, input.as_slice());
    let requests = in_turn(
        alloc,
        &(true, *outcome),
        |heap| listed(heap, asked, expected),
    )?;
    holds(row, requests > 0)
}

#[test]
fn a_listing_is_made_or_memory_was_refused(rt: HostRuntime) -> Result<(), Fail> {
    for run in &RUNS {
        lists_or_runs_out(rt.alloc(), run)?;
    }
    Ok(())
}
