use crate::tests::readers::{Endless, Fault, Step, Stepwise, fault_of};
use file_input::{PART_LENGTH, ReadError, read_to_end};
use std::alloc::{Allocator, Global};
use std::io::{self, ErrorKind};
use std::test::Fail;
use test_support::{holds, same, same_text, takes_memory};

const INTERRUPTED: Step = Step::Fails(ErrorKind::Interrupted);

const FAILED: Step = Step::Fails(ErrorKind::Other);

/// The steps of a reader, how many reads are allowed, and the bytes that are read, or why none are.
const ROWS: [(&str, &[Step], u64, Result<&[u8], Fault>); 18] = [
    ("no bytes", &[], 1, Ok(b"")),
    ("no reads", &[], 0, Err(Fault::TooManyReads)),
    (
        "two parts",
        &[Step::Gives(b"ab"), Step::Gives(b"c")],
        3,
        Ok(b"abc"),
    ),
    (
        "two parts, and more reads than it takes",
        &[Step::Gives(b"ab"), Step::Gives(b"c")],
        4,
        Ok(b"abc"),
    ),
    (
        "two parts, and no read that finds the end",
        &[Step::Gives(b"ab"), Step::Gives(b"c")],
        2,
        Err(Fault::TooManyReads),
    ),
    (
        "two parts, and a read for one",
        &[Step::Gives(b"ab"), Step::Gives(b"c")],
        1,
        Err(Fault::TooManyReads),
    ),
    (
        "the end before another part",
        &[Step::Gives(b"ab"), Step::Gives(b""), Step::Gives(b"c")],
        9,
        Ok(b"ab"),
    ),
    (
        "interrupted before each part",
        &[
            INTERRUPTED,
            Step::Gives(b"ab"),
            INTERRUPTED,
            INTERRUPTED,
            Step::Gives(b"c"),
        ],
        6,
        Ok(b"abc"),
    ),
    (
        "interrupted reads count",
        &[
            INTERRUPTED,
            Step::Gives(b"ab"),
            INTERRUPTED,
            INTERRUPTED,
            Step::Gives(b"c"),
        ],
        5,
        Err(Fault::TooManyReads),
    ),
    (
        "interrupted before the end",
        &[Step::Gives(b"ab"), INTERRUPTED],
        3,
        Ok(b"ab"),
    ),
    (
        "interrupted at the last read",
        &[Step::Gives(b"ab"), INTERRUPTED],
        2,
        Err(Fault::TooManyReads),
    ),
    (
        "a fault at once",
        &[FAILED, Step::Gives(b"ab")],
        9,
        Err(Fault::Io(ErrorKind::Other)),
    ),
    (
        "a fault after a part",
        &[Step::Gives(b"ab"), INTERRUPTED, FAILED],
        9,
        Err(Fault::Io(ErrorKind::Other)),
    ),
    (
        "a fault at the last read",
        &[Step::Gives(b"ab"), FAILED],
        2,
        Err(Fault::Io(ErrorKind::Other)),
    ),
    (
        "a fault after the last read",
        &[Step::Gives(b"ab"), FAILED],
        1,
        Err(Fault::TooManyReads),
    ),
    (
        "a read that fails out of memory",
        &[Step::Fails(ErrorKind::OutOfMemory)],
        9,
        Err(Fault::Io(ErrorKind::OutOfMemory)),
    ),
    (
        "a read that would block",
        &[Step::Fails(ErrorKind::WouldBlock)],
        9,
        Err(Fault::Io(ErrorKind::WouldBlock)),
    ),
    (
        "a read that timed out",
        &[Step::Gives(b"ab"), Step::Fails(ErrorKind::TimedOut)],
        9,
        Err(Fault::Io(ErrorKind::TimedOut)),
    ),
];

#[test]
fn a_reader_is_read_to_its_end(rt: HostRuntime) -> Result<(), Fail> {
    for &(row, steps, max_reads, expected) in &ROWS {
        let found = read_to_end(rt.alloc(), &mut Stepwise { steps }, max_reads);
        match found {
            Ok(bytes) => same(row, &Ok(bytes.as_slice()), &expected)?,
            Err(error) => same(row, &Err(fault_of(error)), &expected)?,
        }
    }
    Ok(())
}

/// Checks that a reader whose reads all are this step is read as often as is allowed.
fn check_endless(alloc: Global, row: &str, step: Step, max_reads: u64) -> Result<(), Fail> {
    let mut reader = Endless { step, reads: 0 };
    let fault = read_to_end(alloc, &mut reader, max_reads)
        .err()
        .map(fault_of);
    same(row, &fault, &Some(Fault::TooManyReads))?;
    same(row, &reader.reads, &max_reads)
}

#[test]
fn an_input_without_end_is_read_up_to_the_limit(rt: HostRuntime) -> Result<(), Fail> {
    for max_reads in [0, 1, 2, 1000] {
        check_endless(rt.alloc(), "bytes", Step::Gives(b"a"), max_reads)?;
        check_endless(rt.alloc(), "interrupted", INTERRUPTED, max_reads)?;
    }
    Ok(())
}

/// Checks that so many bytes in memory are read by so many reads, and not by one fewer.
fn check_length(alloc: Global, length: usize, reads: u64) -> Result<(), Fail> {
    let bytes = vec![in alloc; 7; length]?;
    let found = read_to_end(alloc, &mut bytes.as_slice(), reads);
    let Ok(found) = found else {
        return holds("it is read", false);
    };
    holds("all bytes", found == bytes)?;
    let fault = read_to_end(alloc, &mut bytes.as_slice(), reads.saturating_sub(1))
        .err()
        .map(fault_of);
    same("one read fewer", &fault, &Some(Fault::TooManyReads))
}

#[test]
fn a_read_takes_a_part(rt: HostRuntime) -> Result<(), Fail> {
    let rows = [
        (0, 1),
        (1, 2),
        (PART_LENGTH - 1, 2),
        (PART_LENGTH, 2),
        (PART_LENGTH + 1, 3),
        (3 * PART_LENGTH, 4),
    ];
    for (length, reads) in rows {
        check_length(rt.alloc(), length, reads)?;
    }
    Ok(())
}

/// Returns whether the steps give the bytes, or `None` if memory ran out.
fn gives<A: Allocator>(alloc: A, steps: &'static [Step], expected: &[u8]) -> Option<bool> {
    match read_to_end(alloc, &mut Stepwise { steps }, 9) {
        Ok(bytes) => Some(bytes.as_slice() == expected),
        Err(ReadError::Memory) => None,
        Err(_) => Some(false),
    }
}

#[test]
fn a_failed_allocation_is_no_fault_of_the_file(rt: HostRuntime) -> Result<(), Fail> {
    const STEPS: &[Step] = &[
        INTERRUPTED,
        Step::Gives(b"the first part is in memory"),
        Step::Gives(b", and a second one, which is longer, needs more"),
    ];
    let whole = b"the first part is in memory, and a second one, which is longer, needs more";
    takes_memory(rt.alloc(), &true, |heap| gives(heap, STEPS, whole))
}

/// Checks the text of an error.
fn check_text(alloc: Global, error: ReadError, expected: &str) -> Result<(), Fail> {
    let text = format!(in alloc; "{error}")?;
    same_text("the text", text.as_str(), expected)
}

#[test]
fn an_error_displays_its_cause(rt: HostRuntime) -> Result<(), Fail> {
    let missing = io::Error::from_raw_os_error(2);
    check_text(
        rt.alloc(),
        ReadError::from(missing),
        "No such file or directory (os error 2)",
    )?;
    let ended = io::Error::from(ErrorKind::UnexpectedEof);
    check_text(rt.alloc(), ReadError::Io(ended), "unexpected end of file")?;
    check_text(rt.alloc(), ReadError::Memory, "out of memory")?;
    check_text(rt.alloc(), ReadError::TooManyReads, "too many reads")
}
