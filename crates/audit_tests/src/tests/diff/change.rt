use audit_text::text::push_change;
use pcr_replay::ReadLog;
use std::alloc::{AllocError, Global};
use std::test::Fail;
use test_support::{bytes, same_text};
use uefi_audits::diff::numbered_entries;
use uefi_tcg::{AlgorithmId, LastEntry, Log};

/// Two logs of one event each, and what changed between the events, where `uefi_audit diff` compares
/// them otherwise: variables of two names aren't paired, and digests of banks of one log aren't
/// compared.
struct Row {
    old: &'static str,
    new: &'static str,
    change: &'static str,
}

const ROWS: [Row; 2] = [
    // A variable of another name with the same value: the data differ.
    Row {
        old: "0700000001000080aaaaaaaaaaaaaaaaaaaaaaaaaaaaaaaaaaaaaaaa2300000061dfe4\
              8bca93d211aa0d00e098032b8c01000000000000000100000000000000610001",
        new: "0700000001000080aaaaaaaaaaaaaaaaaaaaaaaaaaaaaaaaaaaaaaaa2300000061dfe4\
              8bca93d211aa0d00e098032b8c01000000000000000100000000000000620001",
        change: "from byte 32: 610001 -> 620001",
    },
    // A digest more.
    Row {
        old: "0100000008000000aaaaaaaaaaaaaaaaaaaaaaaaaaaaaaaaaaaaaaaa00000000",
        new: "0000000003000000000000000000000000000000000000000000000025000000537065\
              63204944204576656e74303300000000000002000202000000040014000b0020000001\
              00000008000000020000000400aaaaaaaaaaaaaaaaaaaaaaaaaaaaaaaaaaaaaaaa0b00\
              cccccccccccccccccccccccccccccccccccccccccccccccccccccccccccccccc000000\
              00",
        change: "sha256 none -> ccccccccccccccccccccccccccccccccccccccccccccccccccccccc\
              ccccccccc",
    },
];

/// Returns what changed between the first events of two logs.
fn change_of(alloc: Global, old: &ReadLog<'_>, new: &ReadLog<'_>) -> Result<String, AllocError> {
    let algorithms = [AlgorithmId::SHA1, AlgorithmId::SHA256];
    let olds = numbered_entries(alloc, old)?;
    let news = numbered_entries(alloc, new)?;
    let mut text = String::new(alloc);
    if let (Some(old), Some(new)) = (olds.first(), news.first()) {
        push_change(&mut text, alloc, &algorithms, old, new)?;
    }
    Ok(text)
}

/// Checks a row.
fn check(alloc: Global, row: &Row) -> Result<(), Fail> {
    let old_bytes = bytes(alloc, row.old)?;
    let new_bytes = bytes(alloc, row.new)?;
    let old = ReadLog::new(alloc, Log::new(old_bytes.as_slice(), LastEntry::Unknown))?;
    let new = ReadLog::new(alloc, Log::new(new_bytes.as_slice(), LastEntry::Unknown))?;
    let change = change_of(alloc, &old, &new)?;
    same_text(row.new, change.as_str(), row.change)
}

#[test]
fn a_change_of_an_event_is_told_in_these_words(rt: HostRuntime) -> Result<(), Fail> {
    for row in &ROWS {
        check(rt.alloc(), row)?;
    }
    Ok(())
}
