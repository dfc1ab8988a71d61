use pcr_replay::{Fault, NoQuoteDigest, Undetermined};
use std::alloc::{AllocError, Global};
use std::error::Error;
use std::test::Fail;
use test_support::same_text;
use uefi_tcg::{AlgorithmId, PcrIndex};

/// Each fault, and its text.
const FAULTS: [(Fault, &str); 6] = [
    (Fault::NoDigest, "has no digest of the bank"),
    (Fault::TwoDigests, "has two digests of the bank or more"),
    (Fault::OtherLength, "has a digest of another length"),
    (
        Fault::UnknownLocality,
        "states a locality other than 0, 3 and 4",
    ),
    (
        Fault::OtherLocality,
        "states another locality than PCR 0 starts at",
    ),
    (
        Fault::LateLocality,
        "states the locality after PCR 0 was extended",
    ),
];

#[test]
fn a_fault_says_what_is_wrong_with_the_event(rt: HostRuntime) -> Result<(), Fail> {
    for (fault, expected) in &FAULTS {
        let shown = format!(in rt.alloc(); "{fault}")?;
        same_text(expected, shown.as_str(), expected)?;
    }
    Ok(())
}

/// Returns the text of an error.
fn text<E: Error>(alloc: Global, error: &E) -> Result<String, AllocError> {
    format!(in alloc; "{error}")
}

#[test]
fn an_error_says_what_is_wrong(rt: HostRuntime) -> Result<(), Fail> {
    let alloc = rt.alloc();
    let at = Undetermined {
        index: 3,
        offset: 675,
        fault: Fault::NoDigest,
    };
    let event = "event 3 at offset 675 has no digest of the bank";
    same_text("an event", text(alloc, &at)?.as_str(), event)?;
    let no_bank = NoQuoteDigest::NoBank(AlgorithmId::SHA256);
    same_text(
        "no bank",
        text(alloc, &no_bank)?.as_str(),
        "no bank of algorithm 0xb",
    )?;
    let undetermined = NoQuoteDigest::Undetermined(AlgorithmId::SHA256, PcrIndex(7), at);
    same_text(
        "a PCR",
        text(alloc, &undetermined)?.as_str(),
        "PCR 7 of algorithm 0xb is undetermined: event 3 at offset 675 has no digest of the bank",
    )
}
