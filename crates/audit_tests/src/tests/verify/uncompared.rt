use audit_text::text::push_uncompared;
use pcr_replay::ReadLog;
use std::alloc::Global;
use std::test::Fail;
use test_support::{Refusing, bytes, takes_memory};
use uefi_audits::verify::{HeldPcr, held_in_text, named_pcrs, uncompared_pcrs};
use uefi_tcg::{LastEntry, Log};

/// PCR 1 of SHA-1.
const HELD: &str = "  sha1:\n    1 : 0xbbbbbbbbbbbbbbbbbbbbbbbbbbbbbbbbbbbbbbbb\n";

/// A log of PCR 1, 0, 23, 24, and 0 again, and of PCR 3 in an event that extends nothing.
const LOG: &str =
    "00000000030000000000000000000000000000000000000000000000210000005370656320494420 \
    4576656e7430330000000000000200020100000004001400000100000008000000010000000400aa \
    aaaaaaaaaaaaaaaaaaaaaaaaaaaaaaaaaaaaaa000000000000000008000000010000000400aaaaaa \
    aaaaaaaaaaaaaaaaaaaaaaaaaaaaaaaaaa000000001700000008000000010000000400aaaaaaaaaa \
    aaaaaaaaaaaaaaaaaaaaaaaaaaaaaa000000001800000008000000010000000400aaaaaaaaaaaaaa \
    aaaaaaaaaaaaaaaaaaaaaaaaaa000000000300000003000000010000000400000000000000000000 \
    0000000000000000000000000000000000000008000000010000000400aaaaaaaaaaaaaaaaaaaaaa \
    aaaaaaaaaaaaaaaaaa00000000";

/// Returns the held PCRs.
fn held(alloc: Global) -> Result<Vec<HeldPcr>, Fail> {
    match held_in_text(alloc, HELD.as_bytes()) {
        Ok(held) => Ok(held.pcrs),
        Err(_) => Err(Fail::new("the held PCRs can't be read")),
    }
}

/// Returns how many PCRs aren't compared, after their line, if no request is refused.
fn count(heap: &Refusing<Global>, read: &ReadLog<'_>, held: &[HeldPcr]) -> Option<usize> {
    let compared = named_pcrs(heap, held).ok()?;
    let pcrs = uncompared_pcrs(heap, read.entries(), compared.as_slice()).ok()?;
    let mut messages = String::new(heap);
    push_uncompared(&mut messages, "a log", pcrs.as_slice()).ok()?;
    Some(pcrs.len())
}

#[test]
fn they_run_out_of_memory_at_each_request(rt: HostRuntime) -> Result<(), Fail> {
    let alloc = rt.alloc();
    let input = bytes(alloc, LOG)?;
    let read = ReadLog::new(alloc, Log::new(input.as_slice(), LastEntry::Unknown))?;
    let held = held(alloc)?;
    takes_memory(alloc, &2, |heap| count(heap, &read, held.as_slice()))
}
