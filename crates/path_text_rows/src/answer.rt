use crate::texts::{
    into_nine_bytes, parsed, text, text_and_back, text_in_each_style, texts_of_parts,
};
use std::alloc::Global;
use test_support::Refusing;

/// Answers a row: its call, and its input.
pub(crate) fn answer(
    alloc: Global,
    heap: &Refusing<Global>,
    call: &str,
    input: &str,
) -> Option<String> {
    match call {
        "text" => text_and_back(alloc, heap, input),
        "text_in_each_style" => text_in_each_style(alloc, heap, input),
        "display" => text(alloc, input, true, false),
        "shortcuts" => text(alloc, input, false, true),
        "parts" => texts_of_parts(alloc, input),
        "parse" => parsed(alloc, heap, input),
        "into_nine_bytes" => into_nine_bytes(alloc, input),
        _ => format!(in alloc; "there is no such call").ok(),
    }
}
