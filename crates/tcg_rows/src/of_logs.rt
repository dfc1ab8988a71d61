use crate::capabilities::{
    algorithm_sets, format_sets, is_truncated, v1_capability, v1_capability_order,
    v1_version_order, v2_capability, v2_capability_order, v2_version_order,
};
use crate::log_inputs::{bytes_of, number};
use crate::{logs, sweeps, v1_logs, v2_headers, v2_logs, writers};
use rows::{hex_pair_row, hex_row};
use std::alloc::Global;
use test_support::Refusing;
use uefi_tcg::{LastEntry, Log};

/// Answers a row of a log of either version, or of a capability or of what is written.
pub(crate) fn of_logs(
    alloc: Global,
    heap: &Refusing<Global>,
    call: &str,
    input: &str,
) -> Option<String> {
    match call {
        "log" => logs::log(alloc, input),
        "is_padded" => logs::is_padded(alloc, input),
        "read" => logs::read(alloc, input),
        "read_rows" => logs::read_rows(alloc, input),
        "read_cuts" => logs::read_cuts(alloc, input),
        "entries" => logs::entries(alloc, input),
        "entries_before" => logs::entries_before(alloc, input),
        "equal_events" => logs::equal_events(alloc, input),
        "write_v1" => writers::write_v1(alloc, input),
        "box_v1" => writers::box_v1(alloc, heap, input),
        "equal_written" => writers::equal_written(alloc, heap, input),
        "write_v2" => writers::write_v2(alloc, input),
        "box_v2" => writers::box_v2(alloc, heap, input),
        "equal_inputs" => writers::equal_inputs(alloc, heap, input),
        _ => of_versions(alloc, call, input),
    }
}

/// Answers a row of a log of one version.
fn of_versions(alloc: Global, call: &str, input: &str) -> Option<String> {
    match call {
        "v1_log" => v1_logs::log(alloc, input),
        "v1_rest" => v1_logs::rest(alloc, input),
        "v1_step" => v1_logs::step(alloc, input),
        "v1_cuts" => sweeps::cuts_v1(alloc, input),
        "v1_steps" => sweeps::steps_v1(alloc, input),
        "v1_growth" => sweeps::growth_v1(alloc, input),
        "v2_log" => v2_logs::log(alloc, input),
        "v2_rests" => v2_logs::rests(alloc, input),
        "v2_step" => v2_logs::step(alloc, input),
        "v2_cuts" => sweeps::cuts_v2(alloc, input),
        "v2_last_entries" => sweeps::last_entries_v2(alloc, input),
        "v2_steps" => sweeps::steps_v2(alloc, input),
        "v2_growth" => sweeps::growth_v2(alloc, input),
        "digest" => v2_logs::digest(alloc, input),
        "digest_steps" => v2_logs::digest_steps(alloc, input),
        "pcr_counts" => v2_logs::pcr_counts(alloc, input),
        "log_header" => v2_headers::header(alloc, input),
        "header_sizes" => v2_headers::header_sizes(alloc, input),
        "table" => v2_headers::table(alloc, input),
        "table_sizes" => v2_headers::table_sizes(alloc, input),
        "first_digest" => v2_headers::first_digest(alloc, input),
        _ => of_capabilities(alloc, call, input),
    }
}

/// Answers a row of a capability, or of the flags in it.
fn of_capabilities(alloc: Global, call: &str, input: &str) -> Option<String> {
    match call {
        "v1_capability" => hex_row(alloc, input, v1_capability),
        "v1_capability_order" => hex_pair_row(alloc, input, v1_capability_order),
        "v1_version_order" => hex_pair_row(alloc, input, v1_version_order),
        "v2_capability" => hex_row(alloc, input, v2_capability),
        "v2_capability_order" => hex_pair_row(alloc, input, v2_capability_order),
        "v2_version_order" => hex_pair_row(alloc, input, v2_version_order),
        "algorithm_sets" => hex_row(alloc, input, algorithm_sets),
        "format_sets" => hex_row(alloc, input, format_sets),
        "is_truncated" => hex_row(alloc, input, is_truncated),
        _ => format!(in alloc; "there is no such call").ok(),
    }
}

/// Returns the event that has a name: of the log that the name begins with, the one with the index
/// that it ends with.
pub(crate) fn named_event(alloc: Global, name: &str) -> Option<String> {
    let Some((log, index)) = name.split_once("::") else {
        return format!(in alloc; "there is no such name").ok();
    };
    let bytes = bytes_of(alloc, log)?;
    let index = number(index)?;
    match Log::new(bytes.as_slice(), LastEntry::Unknown).header() {
        Some(_) => v2_logs::event_at(alloc, bytes.as_slice(), index),
        None => v1_logs::event_at(alloc, bytes.as_slice(), index),
    }
}
