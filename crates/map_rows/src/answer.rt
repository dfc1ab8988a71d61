use crate::maps::{descriptor_at, is_sorted, map, steps};
use crate::names::{error_text, named};
use crate::resources::{
    changes, range_type, record, resource_steps, resources, resources_with_byte,
};
use crate::values::{
    attribute, default_descriptor, equal_descriptors, is_default_key, memory_type, sizes,
};
use crate::writing::{set, set_at, write_byte};
use rows::{hex_pair_row, hex_row};
use std::alloc::Global;
use test_support::Refusing;

/// Answers a row: its call, and its input.
pub(crate) fn answer(
    alloc: Global,
    heap: &Refusing<Global>,
    call: &str,
    input: &str,
) -> Option<String> {
    match call {
        "map" => map(alloc, heap, input),
        "descriptor_at" => descriptor_at(alloc, input),
        "steps" => steps(alloc, input),
        "is_sorted" => is_sorted(alloc, input),
        "set" => set(alloc, heap, input),
        "set_at" => set_at(alloc, input),
        "write_byte" => write_byte(alloc, heap, input),
        "resources" => resources(alloc, heap, input),
        "resources_with_byte" => resources_with_byte(alloc, heap, input),
        "changes" => changes(alloc, input),
        _ => of_values(alloc, call, input),
    }
}

/// Answers a row of a value, or of a part of a list.
fn of_values(alloc: Global, call: &str, input: &str) -> Option<String> {
    match call {
        "name" => named(alloc, input),
        "error_text" => error_text(alloc, input),
        "attribute" => hex_pair_row(alloc, input, attribute),
        "memory_type" => memory_type(alloc, input),
        "sizes" => sizes(alloc, input),
        "default_descriptor" => default_descriptor(alloc),
        "equal_descriptors" => hex_pair_row(alloc, input, equal_descriptors),
        "is_default_key" => is_default_key(alloc, input),
        "range_type" => hex_row(alloc, input, range_type),
        "record" => record(alloc, input),
        "resource_steps" => resource_steps(alloc, input),
        _ => format!(in alloc; "there is no such call").ok(),
    }
}
