use crate::errors::{equal_errors, error, error_text, status};
use crate::guids::{guid, guid_order, guid_text};
use crate::texts::{equal_texts, equal_until_nul, made, text};
use crate::units::{characters, numbers, units};
use rows::hex_row;
use std::alloc::Global;
use test_support::Refusing;

/// Answers a row: its call, and its input.
pub(crate) fn answer(
    alloc: Global,
    heap: &Refusing<Global>,
    call: &str,
    input: &str,
) -> Option<String> {
    match call {
        "units" => hex_row(alloc, input, units),
        "characters" => characters(alloc, input),
        "text" => text(alloc, heap, input),
        "made" => made(alloc, heap, input),
        "equal_until_nul" => equal_until_nul(alloc, input),
        "equal_texts" => equal_texts(alloc, input),
        _ => of_values(alloc, call, input),
    }
}

/// Answers a row of a value that is no text.
fn of_values(alloc: Global, call: &str, input: &str) -> Option<String> {
    match call {
        "numbers" => hex_row(alloc, input, numbers),
        "guid" => guid(alloc, input),
        "guid_text" => guid_text(alloc, input),
        "guid_order" => guid_order(alloc, input),
        "status" => status(alloc, input),
        "error" => error(alloc, input),
        "equal_errors" => equal_errors(alloc, input),
        "error_text" => error_text(alloc, input),
        _ => format!(in alloc; "there is no such call").ok(),
    }
}
