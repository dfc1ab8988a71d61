use crate::filling::{filled, unlike};
use crate::items::{first, items};
use crate::values::{ends, guid, key, next_pair_of, number, pairs, text};
use std::alloc::Global;
use test_support::{Refusing, bytes};

/// Answers a row: its call, and its input.
pub(crate) fn answer(
    alloc: Global,
    heap: &Refusing<Global>,
    call: &str,
    input: &str,
) -> Option<String> {
    match call {
        "items" => items(alloc, heap, input),
        "first" => first(alloc, heap, input),
        "number" => number(alloc, input),
        "text" => text(alloc, heap, input),
        "guid" => guid(alloc, input),
        "ends" => ends(alloc, input),
        "filled" => filled(alloc, input),
        "unlike" => unlike(alloc, input),
        "pairs" => pairs(alloc, input),
        "next_pair" => next_pair_of(alloc, input.as_bytes()),
        "next_pair_of_bytes" => next_pair_of(alloc, bytes(alloc, input).ok()?.as_slice()),
        "key" => key(alloc, input),
        _ => format!(in alloc; "there is no such call").ok(),
    }
}
