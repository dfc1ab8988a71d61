use audit_text::json::push_verdict_json;
use pcr_replay::ReadLog;
use std::test::Fail;
use test_support::{bytes, holds, same_text};
use uefi_audits::verify::ComparedPcrs;
use uefi_tcg::{LastEntry, Log};

/// A log of PCRs 0 and 1.
const LOG: &str = "0000000008000000aaaaaaaaaaaaaaaaaaaaaaaaaaaaaaaaaaaaaaaa00000000010000\
    0008000000bbbbbbbbbbbbbbbbbbbbbbbbbbbbbbbbbbbbbbbb00000000";

/// Its line where no PCR was held, which `uefi_audit verify` refuses before.
const LINE: &str = "{\"agrees\":false,\"count\":0,\"covered\":[],\"disagreeing\":[],\"failed\":[\
    \"coverage\"],\"locality\":0,\"log\":\"a.log\",\"not_covered\":[{\"bank\":\
    null,\"pcrs\":[0,1]}]}\n";

#[test]
fn a_log_agrees_with_no_pcrs_alone(rt: HostRuntime) -> Result<(), Fail> {
    let alloc = rt.alloc();
    let log = bytes(alloc, LOG)?;
    let read = ReadLog::new(alloc, Log::new(log.as_slice(), LastEntry::Unknown))?;
    let compared = ComparedPcrs::new(alloc, read.entries(), &[], &[], Some(0))?;
    let mut text = String::new(alloc);
    push_verdict_json(&mut text, alloc, "a.log", &compared)?;
    same_text("no PCR", text.as_str(), LINE)?;
    holds("the verdict", compared.verdict.is_agreement())?;
    holds("the coverage", !compared.agrees())
}
