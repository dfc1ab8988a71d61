use audit_text::text::push_missing;
use std::alloc::Global;
use std::test::Fail;
use test_support::{Refusing, takes_memory};
use uefi_audits::verify::{
    HeldPcr, PcrSelection, held_in_text, missing_pcrs, named_pcrs, selected_pcrs, selections_in,
};

/// The PCRs 0 and 1 of SHA-1, and PCR 0 of SHA-256.
const HELD: &str = "  sha1:\n    0 : 0xaaaaaaaaaaaaaaaaaaaaaaaaaaaaaaaaaaaaaaaa\n    1 : 0\
     xbbbbbbbbbbbbbbbbbbbbbbbbbbbbbbbbbbbbbbbb\n  sha256:\n    0 : 0xcccccc\
     cccccccccccccccccccccccccccccccccccccccccccccccccccccccccc\n";

/// Returns how many selections a text names, if no request is refused.
fn count_selections(heap: &Refusing<Global>, text: &str) -> Option<usize> {
    let selections = selections_in(heap, text.as_bytes()).ok()?;
    Some(selections?.len())
}

/// Returns how many PCRs are missing, after their lines, if no request is refused.
fn count_missing(
    heap: &Refusing<Global>,
    held: &[HeldPcr],
    selections: &[PcrSelection],
) -> Option<usize> {
    let stated = named_pcrs(heap, held).ok()?;
    let missing = missing_pcrs(heap, stated.as_slice(), selections).ok()?;
    let mut messages = String::new(heap);
    push_missing(&mut messages, "pcrs", missing.as_slice()).ok()?;
    Some(missing.len())
}

/// Returns how many PCRs are selected, if no request is refused.
fn count_selected(
    heap: &Refusing<Global>,
    held: &[HeldPcr],
    selections: &[PcrSelection],
) -> Option<usize> {
    Some(selected_pcrs(heap, held, selections).ok()?.len())
}

#[test]
fn a_selection_runs_out_of_memory_at_each_request(rt: HostRuntime) -> Result<(), Fail> {
    let alloc = rt.alloc();
    let Ok(held) = held_in_text(alloc, HELD.as_bytes()) else {
        return Err(Fail::new("the held PCRs can't be read"));
    };
    let pcrs = held.pcrs.as_slice();
    let Some(selections) = selections_in(alloc, b"1-2")? else {
        return Err(Fail::new("the selections can't be read"));
    };
    let selections = selections.as_slice();
    takes_memory(alloc, &3, |heap| count_missing(heap, pcrs, selections))?;
    takes_memory(alloc, &1, |heap| count_selected(heap, pcrs, selections))?;
    takes_memory(alloc, &2, |heap| count_selections(heap, "sha1:0+sha256:1"))
}
