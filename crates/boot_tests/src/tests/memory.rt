use crate::tests::folders::{FOLDERS, Folder, files_of};
use crate::tests::runs::{OPTIONS, PATHS, Run, TEXTS};
use boot_listing::Outcome;
use boot_listing::command::Form;
use boot_listing::list::folder_listing;
use boot_listing::option::push_load_option_listing;
use boot_listing::path::push_path_listing;
use boot_listing::text::push_path_text_listing;
use boot_listing::variables::VariableFile;
use std::alloc::{Allocator, Global};
use std::test::Fail;
use test_support::{bytes, takes_memory};

/// Returns whether the listing of files is the expected one, and its outcome; or `None` if memory
/// ran out.
fn listed<A: Allocator + Copy>(
    heap: A,
    form: Form,
    files: &[VariableFile],
    expected: &str,
) -> Option<(bool, Outcome)> {
    let (text, outcome) = folder_listing(heap, form, files).ok()?;
    Some((text.as_str() == expected, outcome))
}

/// Checks that the listing of a folder is made, or a request for memory was refused.
fn check_folder(alloc: Global, (form, rows, expected, outcome): &Folder) -> Result<(), Fail> {
    let files = files_of(alloc, rows)?;
    takes_memory(
        alloc,
        &(true, *outcome),
        |heap| listed(heap, *form, files.as_slice(), expected),
    )
}

#[test]
fn a_folder_is_listed_or_memory_was_refused(rt: HostRuntime) -> Result<(), Fail> {
    for folder in &FOLDERS {
        check_folder(rt.alloc(), folder)?;
    }
    Ok(())
}

/// Returns whether the listing of a load option is the expected one, and its outcome; or `None` if
/// memory ran out.
fn option_listed<A: Allocator + Copy>(
    heap: A,
    form: Form,
    input: &[u8],
    expected: &str,
) -> Option<(bool, Outcome)> {
    let mut text = String::new(heap);
    let outcome = push_load_option_listing(&mut text, heap, form, input).ok()?;
    Some((text.as_str() == expected, outcome))
}

/// Checks that the listing of a load option is made, or a request for memory was refused.
fn check_option(alloc: Global, (form, row, expected, outcome): &Run) -> Result<(), Fail> {
    let input = bytes(alloc, row)?;
    takes_memory(
        alloc,
        &(true, *outcome),
        |heap| option_listed(heap, *form, input.as_slice(), expected),
    )
}

#[test]
fn an_option_is_listed_or_memory_was_refused(rt: HostRuntime) -> Result<(), Fail> {
    for run in &OPTIONS {
        check_option(rt.alloc(), run)?;
    }
    Ok(())
}

/// Returns whether the text of a path is the expected one, and its outcome; or `None` if memory ran
/// out.
fn text_listed<A: Allocator + Copy>(
    heap: A,
    form: Form,
    input: &[u8],
    expected: &str,
) -> Option<(bool, Outcome)> {
    let mut text = String::new(heap);
    let outcome = push_path_text_listing(&mut text, heap, form, input).ok()?;
    Some((text.as_str() == expected, outcome))
}

/// Checks that the text of a path is made, or a request for memory was refused.
fn check_text(alloc: Global, (form, row, expected, outcome): &Run) -> Result<(), Fail> {
    let input = bytes(alloc, row)?;
    takes_memory(
        alloc,
        &(true, *outcome),
        |heap| text_listed(heap, *form, input.as_slice(), expected),
    )
}

#[test]
fn a_path_is_a_text_or_memory_was_refused(rt: HostRuntime) -> Result<(), Fail> {
    for run in &PATHS {
        check_text(rt.alloc(), run)?;
    }
    Ok(())
}

/// Returns whether the line of a text of a path is the expected one, and its outcome; or `None` if
/// memory ran out.
fn path_listed<A: Allocator + Copy>(
    heap: A,
    form: Form,
    input: &str,
    expected: &str,
) -> Option<(bool, Outcome)> {
    let mut text = String::new(heap);
    let outcome = push_path_listing(&mut text, heap, form, input).ok()?;
    Some((text.as_str() == expected, outcome))
}

/// Checks that the line of a text of a path is made, or a request for memory was refused.
fn check_path(alloc: Global, (form, input, expected, outcome): &Run) -> Result<(), Fail> {
    takes_memory(
        alloc,
        &(true, *outcome),
        |heap| path_listed(heap, *form, input, expected),
    )
}

#[test]
fn a_text_is_a_path_or_memory_was_refused(rt: HostRuntime) -> Result<(), Fail> {
    for run in &TEXTS {
        check_path(rt.alloc(), run)?;
    }
    Ok(())
}
