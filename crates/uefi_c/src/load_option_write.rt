ghost use Rattle.std.specs.Prelude.{◌≡◌, ◌≢◌, ◌↔◌, ◌⊎◌, ◌<◌, ◌≤◌, ◌^◌, [], ◌∷◌, length};
ghost use Rattle.uefi_path.specs.LoadOptionParts.{ArePartsOfOption, IsOptionPut, parts_size};
ghost use Rattle.uefi_path.specs.Path.{HasPath};
ghost use Rattle.uefi_c.specs.LoadOptionWrite.{IsDescription, IsList, IsOptionWritten, option_size};
ghost use Rattle.uefi_c.specs.PathWrite.{IsNeeded};
ghost use Rattle.uefi_c.specs.Status.{IsOneOf, buffer_too_small, no_file_path, not_nul_terminated, ok, too_long};

use crate::load_option::UefiLoadOption;
use crate::status::{self, UefiStatus};
use uefi_base::{Status, UnalignedSlice};
use uefi_path::{
    DevicePath, LoadOptionAttributes, LoadOptionDescription, LoadOptionParts, write_load_option,
};

/// The most bytes that a file path list has: its length has to fit two.
const MOST_LIST_BYTES: usize = 0xffff;

/// Writes the load option with these parts to the beginning of the buffer, and sets `size` to its
/// length; the bytes after it stay as they were. `file_path` isn't read: it is the first of the list.
///
/// If it returns another status than success, all bytes stay as they were, and `size` is the length
/// that the buffer needs, or 0 if no option has the parts: the list begins with no path, it has more
/// than 65535 bytes, or the description isn't units of two bytes, of which the last alone is zero.
/// An option whose length is no `usize` is too long, too.
#[tactic(auto, using(crate::proofs::OptionSeen::option_written, crate::proofs::OptionSeen::same_size, crate::proofs::OptionSeen::refused))]
#[unsafe(no_mangle)]
pub extern "C" fn uefi_write_load_option(
    buffer: &mut [u8],
    option: &UefiLoadOption<'_>,
    size: &mut usize,
) -> UefiStatus
    ensures known { IsOneOf result
        (ok ∷ buffer_too_small ∷ no_file_path ∷ not_nul_terminated ∷ too_long ∷ []) }
    ensures no_file_path { (result ≡ no_file_path) ↔ ¬ HasPath option.now.file_path_list.now }
    ensures not_nul_terminated { (result ≡ not_nul_terminated)
        ↔ IsList option.now.file_path_list.now × ¬ IsDescription option.now.description.now }
    ensures too_long { (result ≡ too_long)
        → (2 ^ 16 ≤ length option.now.file_path_list.now) ⊎ (2 ^ 64 ≤ option_size option.now) }
    ensures written { result ≡ ok → IsOptionWritten option.now buffer.old buffer.new }
    ensures size { (result ≡ ok) ⊎ (result ≡ buffer_too_small)
        → IsNeeded (option_size option.now) (length buffer.old) size.new result }
    ensures no_size { result ≢ ok → result ≢ buffer_too_small → size.new ≡ 0 }
    ensures unchanged { result ≢ ok → buffer.new ≡ buffer.old }
{
    *size = 0;
    let (description, list) = (option.description, option.file_path_list);
    let optional_data = option.optional_data;
    let Ok(_) = DevicePath::try_from(list) else {
        return status::NO_FILE_PATH;
    };
    if list.len() > MOST_LIST_BYTES {
        return status::TOO_LONG;
    }
    let Some(units) = UnalignedSlice::try_new(description) else {
        return status::NOT_NUL_TERMINATED;
    };
    let parts = LoadOptionParts {
        attributes: LoadOptionAttributes::from_bits_retain(option.attributes),
        description: LoadOptionDescription::Units(units),
        file_path_list: list,
        optional_data,
    };
    let (status, needed) = write_parts(buffer, &parts);
    *size = needed;
    status
}

/// Writes the load option with these parts, whose file path list is one. Returns the status, and the
/// length that the buffer needs, or 0.
fn write_parts(buffer: &mut [u8], parts: &LoadOptionParts<'_>) -> (UefiStatus, usize)
    ensures known { IsOneOf result.0 (ok ∷ buffer_too_small ∷ not_nul_terminated ∷ too_long ∷ []) }
    ensures not_nul_terminated { (result.0 ≡ not_nul_terminated) ↔ ¬ ArePartsOfOption parts.now }
    ensures too_long { result.0 ≡ too_long → 2 ^ 64 ≤ parts_size parts.now }
    ensures written { result.0 ≡ ok → IsOptionPut parts.now buffer.old buffer.new }
    ensures size { (result.0 ≡ ok) ⊎ (result.0 ≡ buffer_too_small)
        → IsNeeded (parts_size parts.now) (length buffer.old) result.1 result.0 }
    ensures no_size { result.0 ≢ ok → result.0 ≢ buffer_too_small → result.1 ≡ 0 }
    ensures unchanged { result.0 ≢ ok → buffer.new ≡ buffer.old }
{
    let error = match write_load_option(buffer, parts) {
        Ok(length) => return (status::OK, length),
        Err(error) => error,
    };
    if error.status() == Status::INVALID_PARAMETER {
        return (status::NOT_NUL_TERMINATED, 0);
    }
    match *error.data() {
        Some(needed) => (status::BUFFER_TOO_SMALL, needed),
        None => (status::TOO_LONG, 0),
    }
}
