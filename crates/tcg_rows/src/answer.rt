use crate::content::{blob, boot_order, described_blob, header, image, tagged_events, variable};
use crate::gpt::{gpt_header, gpt_table};
use crate::names::{algorithm, event_type, named, order, uintn_size};
use crate::of_logs::of_logs;
use crate::signatures::{owned_signature, signature_lists, signature_steps, signature_type};
use crate::texts::{crtm_version, event_text};
use rows::{hex_pair_row, hex_row};
use std::alloc::Global;
use test_support::Refusing;

/// Answers a row: its call, and its input.
pub(crate) fn answer(
    alloc: Global,
    heap: &Refusing<Global>,
    call: &str,
    input: &str,
) -> Option<String> {
    match call {
        "name" => named(alloc, input),
        "event_type" => hex_row(alloc, input, event_type),
        "algorithm" => hex_row(alloc, input, algorithm),
        "order" => hex_pair_row(alloc, input, order),
        "uintn_size" => hex_row(alloc, input, uintn_size),
        "event_text" => event_text(alloc, input),
        "crtm_version" => crtm_version(alloc, input),
        "blob" => hex_row(alloc, input, blob),
        "described_blob" => described_blob(alloc, input),
        "header" => hex_row(alloc, input, header),
        "tagged_events" => tagged_events(alloc, input),
        "variable" => variable(alloc, input),
        _ => of_tables(alloc, heap, call, input),
    }
}

/// Answers a row of an image, of numbers, of a partition table or of signatures.
fn of_tables(alloc: Global, heap: &Refusing<Global>, call: &str, input: &str) -> Option<String> {
    match call {
        "image" => image(alloc, input),
        "boot_order" => boot_order(alloc, input),
        "gpt_table" => gpt_table(alloc, input),
        "gpt_header" => gpt_header(alloc, input),
        "signature_lists" => signature_lists(alloc, input),
        "signature_steps" => signature_steps(alloc, input),
        "signature" => owned_signature(alloc, input),
        "signature_type" => signature_type(alloc, input),
        _ => of_logs(alloc, heap, call, input),
    }
}
