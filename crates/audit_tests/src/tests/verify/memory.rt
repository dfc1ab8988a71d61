use audit_text::text::push_verdict;
use pcr_replay::ReadLog;
use std::alloc::Global;
use std::test::Fail;
use test_support::{Refusing, bytes, takes_memory};
use uefi_audits::verify::{HeldPcr, Verdict, held_in_text};
use uefi_tcg::{LastEntry, Log, LogEntry};

/// A log of version 1 that states no locality: an event of PCR 0, and one of PCR 1.
const LOG: &str = "00000000 08000000 aaaaaaaaaaaaaaaaaaaaaaaaaaaaaaaaaaaaaaaa 00000000 \
    01000000 08000000 bbbbbbbbbbbbbbbbbbbbbbbbbbbbbbbbbbbbbbbb 00000000";

/// PCRs that a TPM held: PCR 0 as it starts at locality 4, and PCR 1 that disagrees.
const HELD: &str = "  sha1:\n    0 : 0xdec09ba74376aa583c045541848be591f3452571\n    1 : 0\
    xaaaaaaaaaaaaaaaaaaaaaaaaaaaaaaaaaaaaaaaa\n";

/// Returns how many PCRs disagree, after their lines, if no request is refused.
fn disagreeing(
    heap: &Refusing<Global>,
    entries: &[LogEntry<'_>],
    held: &[HeldPcr],
) -> Option<usize> {
    let verdict = Verdict::new(heap, entries, held, None).ok()?;
    let mut text = String::new(heap);
    push_verdict(&mut text, heap, "a.log", held, &verdict).ok()?;
    Some(verdict.differing)
}

#[test]
fn a_verdict_runs_out_of_memory_at_each_request(rt: HostRuntime) -> Result<(), Fail> {
    let alloc = rt.alloc();
    let Ok(held) = held_in_text(alloc, HELD.as_bytes()) else {
        return Err(Fail::new("the held PCRs can't be read"));
    };
    let input = bytes(alloc, LOG)?;
    let read = ReadLog::new(alloc, Log::new(input.as_slice(), LastEntry::Unknown))?;
    let pcrs = held.pcrs.as_slice();
    takes_memory(alloc, &1, |heap| disagreeing(heap, read.entries(), pcrs))
}
