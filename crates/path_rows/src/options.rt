use rows::{hex_digits, quoted};
use std::alloc::Global;
use test_support::{Refusing, bytes};
use uefi_path::{LoadOption, LoadOptionError};

/// Returns what is read of an option: the attributes, the number of units of the description, the
/// numbers of bytes of the first path, of the file path list and of the optional data.
pub(crate) fn option(input: &[u8]) -> Result<(u32, [usize; 4]), LoadOptionError> {
    let option = LoadOption::try_from(input)?;
    let sizes = [
        option.description().len(),
        option.file_path().as_bytes().len(),
        option.file_path_list().len(),
        option.optional_data().len(),
    ];
    Ok((option.attributes().bits(), sizes))
}

/// Returns the first path, the file path list and the optional data of an option.
pub(crate) fn option_parts(alloc: Global, input: &str) -> Option<String> {
    let input = bytes(alloc, input).ok()?;
    let option = LoadOption::try_from(input.as_slice()).ok()?;
    let path = hex_digits(alloc, option.file_path().as_bytes()).ok()?;
    let list = hex_digits(alloc, option.file_path_list()).ok()?;
    let optional_data = hex_digits(alloc, option.optional_data()).ok()?;
    format!(in alloc; "({path}, {list}, {optional_data})").ok()
}

/// Returns the description of an option.
pub(crate) fn option_description(
    alloc: Global,
    heap: &Refusing<Global>,
    input: &str,
) -> Option<String> {
    let input = bytes(alloc, input).ok()?;
    let option = LoadOption::try_from(input.as_slice()).ok()?;
    let text = option.description().to_cstring16(heap).ok()?;
    let characters = text.as_cstr16().to_string(alloc).ok()?;
    quoted(alloc, characters.as_str()).ok()
}

/// Returns what the error of bytes that are no option is displayed as.
pub(crate) fn option_error(alloc: Global, input: &str) -> Option<String> {
    let input = bytes(alloc, input).ok()?;
    let error = LoadOption::try_from(input.as_slice()).err()?;
    let text = format!(in alloc; "{error}").ok()?;
    quoted(alloc, text.as_str()).ok()
}
