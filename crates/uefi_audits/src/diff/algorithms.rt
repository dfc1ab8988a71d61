ghost use Rattle.std.specs.Prelude.{◌≡◌, IfOk};
ghost use Rattle.pcr_replay.specs.ReadLogs.{header_in};
ghost use Rattle.uefi_audits.specs.diff.Algorithms.{algorithms_of, compared_algorithms, is_asked, is_compared};
ghost use Rattle.uefi_audits.specs.diff.Views.{numbers_of};

use crate::algorithms::each_algorithm;
use pcr_replay::{Bank, ReadLog};
use std::alloc::{AllocError, Global};
use uefi_tcg::AlgorithmId;

/// Returns the algorithms whose digests the events of both logs have, in the order of the old log's
/// header: a log of version 2 those of its header's table, one of version 1 SHA-1 alone. If a bank
/// is asked for, it is that of the bank alone.
///
/// # Errors
///
/// [`AllocError`] if an allocation fails.
pub fn compared_algorithms(
    alloc: Global,
    old: &ReadLog<'_>,
    new: &ReadLog<'_>,
    bank: Option<Bank>,
) -> Result<Vec<AlgorithmId>, AllocError>
    ensures { IfOk result (λ found. numbers_of found.items
        ≡ compared_algorithms bank (header_in old.now) (header_in new.now)) }
{
    let olds = algorithms_of(alloc, old)?;
    let news = algorithms_of(alloc, new)?;
    let mut found = Vec::new(alloc);
    for number in olds.as_slice() {
        if is_compared(bank, news.as_slice(), *number) {
            found.push(AlgorithmId(*number))?;
        }
    }
    Ok(found)
}

/// Returns whether the digests of an algorithm are compared: the new log has it, and it is asked for.
fn is_compared(bank: Option<Bank>, news: &[u16], number: u16) -> bool
    ensures { result ≡ is_compared bank news.now number }
{
    news.contains(&number) && is_asked(bank, number)
}

/// Returns whether an algorithm is asked for: it is that of the bank, or no bank is.
fn is_asked(bank: Option<Bank>, number: u16) -> bool
    ensures { result ≡ is_asked bank number }
{
    match bank {
        Some(bank) => bank.algorithm().0 == number,
        None => true,
    }
}

/// Returns the numbers of the algorithms whose digests the events of a log have.
fn algorithms_of(alloc: Global, read: &ReadLog<'_>) -> Result<Vec<u16>, AllocError>
    ensures { IfOk result (λ numbers. numbers.items ≡ algorithms_of (header_in read.now)) }
{
    match read.header() {
        Some(header) => each_algorithm(alloc, &header.algorithm_digest_sizes()),
        None => Vec::from_slice(alloc, &[AlgorithmId::SHA1.0]),
    }
}
