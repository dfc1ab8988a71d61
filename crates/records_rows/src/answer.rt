use crate::flags::{daylight, file_attribute, named};
use crate::reading::{
    equal_file_systems, equal_files, equal_labels, file, file_system, guid, label,
};
use crate::searching::{nul_of_label, zero_unit, zero_units};
use crate::times::{equal_times, invalid_time, new_time, time, time_bytes, time_error};
use crate::writing::{
    file_end, file_size, file_system_end, file_system_size, label_end, label_error, write_file,
    write_file_system, write_label,
};
use rows::{hex_pair_row, hex_row};
use std::alloc::Global;

/// Answers a row: its call, and its input. No call asks for memory.
pub(crate) fn answer(alloc: Global, call: &str, input: &str) -> Option<String> {
    match call {
        "name" => named(alloc, input),
        "file_attribute" => hex_row(alloc, input, file_attribute),
        "daylight" => hex_row(alloc, input, daylight),
        "time" => hex_row(alloc, input, time),
        "time_bytes" => time_bytes(alloc, input),
        "time_error" => time_error(alloc, input),
        "new_time" => new_time(alloc, input),
        "invalid_time" => invalid_time(alloc),
        "equal_times" => hex_pair_row(alloc, input, equal_times),
        _ => of_files(alloc, call, input),
    }
}

/// Answers a row of a record that is read.
fn of_files(alloc: Global, call: &str, input: &str) -> Option<String> {
    match call {
        "file" => file(alloc, input),
        "file_system" => file_system(alloc, input),
        "label" => label(alloc, input),
        "equal_files" => equal_files(alloc, input),
        "equal_file_systems" => equal_file_systems(alloc, input),
        "equal_labels" => hex_pair_row(alloc, input, equal_labels),
        "guid" => guid(alloc, input),
        "nul_of_label" => nul_of_label(alloc, input),
        "zero_unit" => zero_unit(alloc, input),
        "zero_units" => zero_units(alloc, input),
        _ => of_writers(alloc, call, input),
    }
}

/// Answers a row of a record that is written.
fn of_writers(alloc: Global, call: &str, input: &str) -> Option<String> {
    match call {
        "write_file" => write_file(alloc, input),
        "write_file_system" => write_file_system(alloc, input),
        "write_label" => write_label(alloc, input),
        "file_size" => file_size(alloc, input),
        "file_system_size" => file_system_size(alloc, input),
        "file_end" => file_end(alloc, input),
        "file_system_end" => file_system_end(alloc, input),
        "label_end" => label_end(alloc, input),
        "label_error" => label_error(alloc, input),
        _ => format!(in alloc; "there is no such call").ok(),
    }
}
