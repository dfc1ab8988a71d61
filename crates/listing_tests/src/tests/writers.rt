use crate::tests::runs::{RUNS, Run, input_of};
use std::alloc::{Allocator, Global};
use std::io::{self, ErrorKind, Write};
use std::test::Fail;
use test_support::{bytes, holds, in_turn, same, same_bytes};
use uefi_listing::command::Command;
use uefi_listing::listing::Outcome;
use uefi_listing::run::{RunError, run};

/// What a call of [`Stubborn`] does once it has had enough.
#[derive(Clone, Copy)]
enum Then {
    Fails(ErrorKind),
    TakesNothing,
}

/// How a writer behaves: how many bytes it takes at most a call, how many calls it takes, and what
/// each later call does.
type Manner = (usize, usize, Then);

/// A writer that takes a few bytes a call, and only a few calls.
#[derive(Drop)]
struct Stubborn {
    taken: Vec<u8>,
    most: usize,
    calls: usize,
    then: Then,
    was_called: bool,
    has_stopped: bool,
}

impl Stubborn {
    fn new(alloc: Global, (most, calls, then): Manner) -> Stubborn {
        Stubborn {
            taken: Vec::new(alloc),
            most,
            calls,
            then,
            was_called: false,
            has_stopped: false,
        }
    }
}

impl Write for Stubborn {
    fn write(&mut self, buf: &[u8]) -> io::Result<usize> {
        self.was_called = true;
        if self.calls == 0 {
            self.has_stopped = true;
            return match self.then {
                Then::Fails(kind) => Err(io::Error::from(kind)),
                Then::TakesNothing => Ok(0),
            };
        }
        self.calls -= 1;
        let count = buf.len().min(self.most);
        self.taken.extend_from_slice(&buf[..count])?;
        Ok(count)
    }

    fn flush(&mut self) -> io::Result<()> {
        Ok(())
    }
}

/// Checks how a run over a writer ends, and what the writer accepted.
fn check_row(
    alloc: Global,
    manner: Manner,
    (ended, taken): (Result<Outcome, RunError>, &str),
) -> Result<(), Fail> {
    let row = "7fff 0600 aabb";
    let input = bytes(alloc, row)?;
    let mut out = Stubborn::new(alloc, manner);
    let ran = run(alloc, &Command::Path, input.as_slice(), &mut out);
    same(row, &ran, &ended)?;
    same_bytes(row, out.taken.as_slice(), taken.as_bytes())
}

const FAILS: Then = Then::Fails(ErrorKind::Other);

const INTERRUPTED: Then = Then::Fails(ErrorKind::Interrupted);

/// What a run returns, and what its writer accepted.
type Ended = (Result<Outcome, RunError>, &'static str);

const LISTED: Ended = (Ok(Outcome::Listed), "instance 6\npath 6\n");

const STOPPED: Ended = (Err(RunError::Output(6)), "instan");

const NOTHING: Ended = (Err(RunError::Output(0)), "");

/// How writers behave, and how a run over each ends.
const MANNERS: [(Manner, Ended); 7] = [
    ((1, 18, FAILS), LISTED),
    ((3, 2, FAILS), STOPPED),
    ((3, 2, INTERRUPTED), STOPPED),
    ((3, 2, Then::TakesNothing), STOPPED),
    ((3, 0, FAILS), NOTHING),
    ((3, 0, INTERRUPTED), NOTHING),
    ((3, 0, Then::TakesNothing), NOTHING),
];

#[test]
fn a_writer_gets_what_it_takes_of_the_listing(rt: HostRuntime) -> Result<(), Fail> {
    for &(manner, expected) in &MANNERS {
        check_row(rt.alloc(), manner, expected)?;
    }
    Ok(())
}

/// How a run ended: what it returned, how many bytes of the listing its writer accepted, if it was
/// given nothing else, and whether a call of the writer failed or accepted none.
type End = (Result<Outcome, RunError>, Option<usize>, bool);

/// Returns how a run over a writer has to end whose listing has this length and this outcome.
fn expected_end(length: usize, outcome: Outcome, (most, calls, _): Manner) -> End {
    let reach = most.saturating_mul(calls);
    if reach < length {
        (Err(RunError::Output(reach)), Some(reach), true)
    } else {
        (Ok(outcome), Some(length), false)
    }
}

/// Returns how a run over a writer ends; or `None` if memory ran out before the writer was called.
fn end_of<A: Allocator + Copy>(
    alloc: Global,
    heap: A,
    (command, input, listing): (&Command, &[u8], &[u8]),
    manner: Manner,
) -> Option<End> {
    let mut out = Stubborn::new(alloc, manner);
    let ran = run(heap, command, input, &mut out);
    if ran == Err(RunError::Memory) && !out.was_called {
        return None;
    }
    let taken = out.taken.as_slice();
    let count = if listing.starts_with(taken) {
        Some(taken.len())
    } else {
        None
    };
    Some((ran, count, out.has_stopped))
}

/// Checks the runs over writers that take up to this many bytes a call, and stop so at the first
/// call, at the second, and so on until none is left, with each request for memory refused in turn.
fn check_calls(
    alloc: Global,
    asked: (&Command, &[u8], &[u8]),
    outcome: Outcome,
    (most, then): (usize, Then),
) -> Result<(), Fail> {
    let length = asked.2.len();
    for calls in 0..=length {
        let manner = (most, calls, then);
        let expected = expected_end(length, outcome, manner);
        let requests = in_turn(alloc, &expected, |heap| end_of(alloc, heap, asked, manner))?;
        holds("a run takes memory", requests > 0)?;
        if expected.0.is_ok() {
            return Ok(());
        }
    }
    holds("the writer takes it all", false)
}

/// Checks the runs over writers that take up to this many bytes a call, and stop in each way.
fn check_stops(
    alloc: Global,
    asked: (&Command, &[u8], &[u8]),
    outcome: Outcome,
    most: usize,
) -> Result<(), Fail> {
    check_calls(alloc, asked, outcome, (most, Then::TakesNothing))?;
    check_calls(alloc, asked, outcome, (most, FAILS))?;
    check_calls(alloc, asked, outcome, (most, INTERRUPTED))
}

/// Checks a run over writers that take few bytes a call, and over those that take all at once.
fn check_run(alloc: Global, run: &Run) -> Result<(), Fail> {
    let (command, _, listing, outcome) = run;
    let input = input_of(alloc, run)?;
    let asked = (command, input.as_slice(), listing.as_bytes());
    for most in 1..=20 {
        check_stops(alloc, asked, *outcome, most)?;
    }
    check_stops(alloc, asked, *outcome, usize::MAX)
}

#[test]
fn output_comes_only_where_a_write_failed_or_took_nothing(rt: HostRuntime) -> Result<(), Fail> {
    for run in &RUNS {
        check_run(rt.alloc(), run)?;
    }
    Ok(())
}
