use crate::tests::replay::quotes::{SHA256_LOG, SHA384_PCR_14};
use audit_text::json::push_quote_json;
use audit_text::text::{push_no_digest, push_other_nonce, push_quote, push_quote_verdict};
use pcr_replay::{Bank, ReadLog};
use std::alloc::Global;
use std::test::Fail;
use test_support::{Refusing, bytes, holds, same_text, takes_memory};
use tpm_quote::Quote;
use uefi_audits::verify::{ComparedQuote, ReceivedQuote};
use uefi_tcg::{LastEntry, Log};

/// The quote of PCR 0 and 7 with another digest.
const OTHER_DIGEST: &str = "ff54434780180022000bde213066bcb2e45af5c1ef49eddb9df8b8141685d4d94a654f\
     703f33f24bde3600000000000000000614000000010000000001201910230016363600\
     000001000b038100000020bdfd4926ecd611ee6fa67ceac3045f32b8e9c5b3b5fbebcf\
     dbbaed1082f8ea53";

/// What is said of a quote `a.quote` of a bank of which the log `a.log` has no digest. `uefi_audit
/// verify` refuses it before.
const LINES: &str = "a.quote: hash sha256, no nonce, clock 1702 ms, safe, reset count \
    1, restart count 0\na.log: no event has a digest of the bank sha384\n";

/// The same in JSON.
const JSON_LINE: &str =
    "{\"agrees\":false,\"covered\":[{\"bank\":\"sha384\",\"pcrs\":[14]}],\"failed\
    \":[\"digest\"],\"locality\":0,\"log\":\"a.log\",\"not_covered\":[{\"bank\":\
    null,\"pcrs\":[0,7]}],\"quote\":{\"banks\":[{\"algorithm\":\"sha384\",\"pcrs\
    \":[14]}],\"clock\":{\"clock\":1702,\"reset_count\":1,\"restart_count\":0,\"\
    safe\":true},\"digest\":\"17b0761f87b081d5cf10757ccc89f12be355c70e2e29df288\
    b65b30710dcbcd1\",\"digest_agrees\":false,\"hash\":\"sha256\",\"leads_to\":null\
    ,\"nonce\":\"\",\"nonce_agrees\":null}}\n";

/// Returns a quote beside the log.
fn compared<'a>(alloc: Global, received: &ReceivedQuote<'a>) -> Result<ComparedQuote<'a>, Fail> {
    let log = bytes(alloc, SHA256_LOG)?;
    let read = ReadLog::new(alloc, Log::new(log.as_slice(), LastEntry::Unknown))?;
    Ok(ComparedQuote::new(alloc, read.entries(), received, &[], None)?)
}

#[test]
fn a_quote_of_a_bank_that_no_event_extends_has_no_digest(rt: HostRuntime) -> Result<(), Fail> {
    let alloc = rt.alloc();
    let message = bytes(alloc, SHA384_PCR_14)?;
    let received = ReceivedQuote {
        quote: Quote::try_from(message.as_slice())?,
        hash: Bank::Sha256,
        nonce: None,
    };
    let compared = compared(alloc, &received)?;
    let mut text = String::new(alloc);
    push_other_nonce(&mut text, alloc, "a.quote", &received)?;
    push_quote(&mut text, alloc, "a.quote", &received)?;
    push_quote_verdict(&mut text, alloc, "a.log", &compared.verdict)?;
    if let Err(why) = compared.verdict.digest {
        push_no_digest(&mut text, "a.log", why)?;
    }
    same_text("its lines", text.as_str(), LINES)?;
    let mut line = String::new(alloc);
    push_quote_json(&mut line, alloc, "a.log", &compared)?;
    same_text("its line of JSON", line.as_str(), JSON_LINE)
}

/// Returns how many PCRs a quote covers, after its lines, if no request is refused.
fn count(
    heap: &Refusing<Global>,
    read: &ReadLog<'_>,
    received: &ReceivedQuote<'_>,
) -> Option<usize> {
    let compared = ComparedQuote::new(heap, read.entries(), received, &[], None).ok()?;
    let mut text = String::new(heap);
    push_other_nonce(&mut text, heap, "a.quote", received).ok()?;
    push_quote(&mut text, heap, "a.quote", received).ok()?;
    push_quote_verdict(&mut text, heap, "a.log", &compared.verdict).ok()?;
    Some(compared.coverage.covered.len())
}

#[test]
fn a_quote_runs_out_of_memory_at_each_request(rt: HostRuntime) -> Result<(), Fail> {
    let alloc = rt.alloc();
    let (message, log) = (bytes(alloc, OTHER_DIGEST)?, bytes(alloc, SHA256_LOG)?);
    let read = ReadLog::new(alloc, Log::new(log.as_slice(), LastEntry::Unknown))?;
    let received = ReceivedQuote {
        quote: Quote::try_from(message.as_slice())?,
        hash: Bank::Sha256,
        nonce: Some(b"other"),
    };
    takes_memory(alloc, &2, |heap| count(heap, &read, &received))
}

/// The PCRs of a bank, and whether the quote of PCR 0 and 7 of SHA-256 covers them.
const COVERED: [(Bank, &[u32], bool); 7] = [
    (Bank::Sha256, &[0, 7], true),
    (Bank::Sha256, &[7], true),
    (Bank::Sha256, &[], true),
    (Bank::Sha256, &[0, 1, 7], false),
    (Bank::Sha256, &[16], false),
    (Bank::Sha256, &[24], false),
    (Bank::Sha1, &[0], false),
];

#[test]
fn a_quote_covers_the_pcrs_of_its_banks(rt: HostRuntime) -> Result<(), Fail> {
    let alloc = rt.alloc();
    let message = bytes(alloc, OTHER_DIGEST)?;
    let received = ReceivedQuote {
        quote: Quote::try_from(message.as_slice())?,
        hash: Bank::Sha256,
        nonce: None,
    };
    let compared = compared(alloc, &received)?;
    for (bank, pcrs, is_covered) in &COVERED {
        holds(
            "the quote",
            compared.verdict.covers(*bank, *pcrs) == *is_covered,
        )?;
    }
    holds("another digest", !compared.agrees())
}
