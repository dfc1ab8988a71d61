use crate::tests::readers::{Fault, fault_of};
use file_input::{MAX_READS, read_file};
use std::io::ErrorKind;
use std::test::Fail;
use test_support::same;

/// Paths, how many reads are allowed, and how many bytes are read, or why none are.
const PATHS: [(&str, u64, Result<usize, Fault>); 6] = [
    ("/dev/null", MAX_READS, Ok(0)),
    ("/dev/null", 1, Ok(0)),
    ("/dev/null", 0, Err(Fault::TooManyReads)),
    ("/dev/zero", 3, Err(Fault::TooManyReads)),
    ("/dev/null/x", 1, Err(Fault::Io(ErrorKind::NotADirectory))),
    ("/", 1, Err(Fault::Io(ErrorKind::IsADirectory))),
];

#[test]
fn a_file_is_read_to_its_end(rt: HostRuntime) -> Result<(), Fail> {
    for &(path, max_reads, expected) in &PATHS {
        let found = read_file(&rt, path, max_reads);
        let found = found.map(|bytes| bytes.len()).map_err(fault_of);
        same(path, &found, &expected)?;
    }
    Ok(())
}
