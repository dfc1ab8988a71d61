use crate::appending::{
    append_instance, append_node, append_path, boxed, instance_to_boxed, path_to_boxed, pushed,
    rebuilt,
};
use crate::attributes::{attributes, named};
use crate::nodes::{
    equal_headers, equal_views, header, is_less, loaded_image, node, node_text, type_debug,
    type_name,
};
use crate::options::{option, option_description, option_error, option_parts};
use crate::paths::{first_path, path, path_error, path_nodes, path_parts, path_text};
use crate::samples::sample;
use crate::writing::{long_list, write_option, written_again};
use rows::{hex_pair_row, hex_row};
use std::alloc::Global;
use test_support::Refusing;

/// Answers a row: its call, and its input.
pub(crate) fn answer(
    alloc: Global,
    heap: &Refusing<Global>,
    call: &str,
    input: &str,
) -> Option<String> {
    match call {
        "path" => hex_row(alloc, sample(input), path),
        "path_parts" => path_parts(alloc, sample(input)),
        "path_nodes" => path_nodes(alloc, sample(input)),
        "path_text" => path_text(alloc, sample(input)),
        "path_error" => path_error(alloc, input),
        "first_path" => hex_row(alloc, sample(input), first_path),
        "append_path" => append_path(alloc, heap, input),
        "append_node" => append_node(alloc, heap, input),
        "append_instance" => append_instance(alloc, heap, input),
        "boxed" => boxed(alloc, heap, sample(input)),
        "path_to_boxed" => path_to_boxed(alloc, heap, sample(input)),
        "instance_to_boxed" => instance_to_boxed(alloc, heap, sample(input)),
        "rebuilt" => rebuilt(alloc, heap, sample(input)),
        "pushed" => pushed(alloc, heap, input),
        _ => of_nodes(alloc, heap, call, input),
    }
}

/// Answers a row of a node.
fn of_nodes(alloc: Global, heap: &Refusing<Global>, call: &str, input: &str) -> Option<String> {
    match call {
        "node" => node(alloc, input),
        "node_text" => node_text(alloc, input),
        "header" => hex_row(alloc, input, header),
        "equal_headers" => hex_pair_row(alloc, input, equal_headers),
        "equal_views" => hex_pair_row(alloc, input, equal_views),
        "loaded_image" => hex_row(alloc, input, loaded_image),
        "type_name" => hex_row(alloc, input, type_name),
        "type_debug" => type_debug(alloc, input),
        "is_less" => hex_pair_row(alloc, input, is_less),
        _ => of_options(alloc, heap, call, input),
    }
}

/// Answers a row of a load option.
fn of_options(alloc: Global, heap: &Refusing<Global>, call: &str, input: &str) -> Option<String> {
    match call {
        "option" => hex_row(alloc, sample(input), option),
        "option_parts" => option_parts(alloc, sample(input)),
        "option_description" => option_description(alloc, heap, sample(input)),
        "option_error" => option_error(alloc, input),
        "name" => named(alloc, input),
        "attributes" => hex_row(alloc, input, attributes),
        "written_again" => written_again(alloc, heap, sample(input)),
        "write_option" => write_option(alloc, input),
        "long_list" => long_list(alloc, input),
        _ => format!(in alloc; "there is no such call").ok(),
    }
}
