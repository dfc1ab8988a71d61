ghost use Rattle.std.specs.Prelude.{◌≡◌, ◌≢◌, ◌↔◌, ◌+◌, ◌≤◌, List, [], ◌∷◌, drop, length};
ghost use Rattle.uefi_base.specs.Unaligned.{unit_bytes};
ghost use Rattle.uefi_path.specs.LoadOption.{EncodesLoadOption, HasFault, file_path_list, load_option_bytes, with_nul};
ghost use Rattle.uefi_path.specs.Node.{Node, joined};
ghost use Rattle.uefi_path.specs.Path.{HasPath};
ghost use Rattle.uefi_path.specs.LoadOptionViews.{load_option_of};
ghost use Rattle.uefi_path.specs.declared.load_option_error.LoadOptionError.{LoadOptionError};
ghost use Rattle.uefi_c.specs.LoadOption.{IsSeenOf, status_of};
ghost use Rattle.uefi_c.specs.Path.{BeginsWithPath};
ghost use Rattle.uefi_c.specs.Status.{IsOneOf, ended, no_path, ok};

use crate::info::name_bytes;
use crate::status::{self, UefiStatus};
use uefi_path::{DevicePath, LoadOption, LoadOptionError};

/// The offset of the description.
const DESCRIPTION_OFFSET: usize = 6;

/// A load option.
#[derive(Clone, Copy)]
#[repr(C)]
pub struct UefiLoadOption<'a> {
    /// The bytes of the description: units of two bytes, little-endian, of which the last alone is
    /// zero.
    pub description: &'a [u8],
    /// The bytes of the device path that leads to the image.
    pub file_path: &'a [u8],
    /// The bytes of the file path list, which start with those of that path.
    pub file_path_list: &'a [u8],
    /// The data that the image is given.
    pub optional_data: &'a [u8],
    /// The attributes.
    pub attributes: u32,
}

/// Reads the load option that the bytes are.
///
/// If they are none, it returns why: there are fewer than six, no unit of the description is zero,
/// fewer bytes follow than the file path list is stated to have, or the list begins with no device
/// path.
#[unsafe(no_mangle)]
pub extern "C" fn uefi_load_option<'a>(bytes: &'a [u8], out: &mut UefiLoadOption<'a>) -> UefiStatus
    ensures option { result ≡ ok → IsSeenOf bytes.now out.new }
    ensures fault { result ≢ ok
        → (error : LoadOptionError) × (result ≡ status_of error) × HasFault bytes.now error }
    ensures none { result ≢ ok → ¬ EncodesLoadOption bytes.now }
    ensures unchanged { result ≢ ok → out.new ≡ out.old }
{
    match LoadOption::try_from(bytes) {
        Ok(option) => {
            *out = seen(bytes, &option);
            status::OK
        }
        Err(error) => status_of(&error),
    }
}

/// Finds the path at the offset of a file path list, and moves the offset to its end. Without one it
/// returns why: the list ends there, or no path begins there.
#[unsafe(no_mangle)]
pub extern "C" fn uefi_load_option_next_path<'a>(
    file_path_list: &'a [u8],
    offset: &mut usize,
    path: &mut &'a [u8],
) -> UefiStatus
    ensures known { IsOneOf result (ok ∷ ended ∷ no_path ∷ []) }
    ensures found { (result ≡ ok) ↔ HasPath (drop offset.old file_path_list.now) }
    ensures ended { (result ≡ ended) ↔ (length file_path_list.now ≤ offset.old) }
    ensures path { result ≡ ok → (nodes : List Node)
        → BeginsWithPath (drop offset.old file_path_list.now) nodes
        → path.new.now ≡ joined nodes }
    ensures offset { result ≡ ok → offset.new ≡ offset.old + length path.new.now }
    ensures offset_unchanged { result ≢ ok → offset.new ≡ offset.old }
    ensures path_unchanged { result ≢ ok → path.new ≡ path.old }
{
    if *offset >= file_path_list.len() {
        return status::END;
    }
    let (_, rest) = file_path_list.split_at(*offset);
    let Ok(found) = DevicePath::try_from(rest) else {
        return status::NO_PATH;
    };
    *path = found.as_bytes();
    *offset += found.as_bytes().len();
    status::OK
}

/// Returns the parts of the load option that the bytes are.
fn seen<'a>(bytes: &'a [u8], option: &LoadOption<'a>) -> UefiLoadOption<'a>
    requires { bytes.now ≡ load_option_bytes (load_option_of option.now) }
    ensures attributes { result.attributes ≡ (load_option_of option.now).attributes }
    ensures description { result.description.now
        ≡ unit_bytes (with_nul (load_option_of option.now).description) }
    ensures file_path { result.file_path.now ≡ joined (load_option_of option.now).file_path }
    ensures list { result.file_path_list.now ≡ file_path_list (load_option_of option.now) }
    ensures optional_data { result.optional_data.now ≡ (load_option_of option.now).optional_data }
{
    let units = option.description().len();
    UefiLoadOption {
        description: name_bytes(bytes, DESCRIPTION_OFFSET, units),
        file_path: option.file_path().as_bytes(),
        file_path_list: option.file_path_list(),
        optional_data: option.optional_data(),
        attributes: option.attributes().bits(),
    }
}

/// Returns the status of an error.
fn status_of(error: &LoadOptionError) -> UefiStatus
    ensures status { result ≡ status_of error.now }
    ensures fault { result ≢ ok }
{
    match error {
        LoadOptionError::TooShort => status::TOO_SHORT,
        LoadOptionError::NotNulTerminated => status::NOT_NUL_TERMINATED,
        LoadOptionError::FilePathListTooLong => status::FILE_PATH_LIST_TOO_LONG,
        LoadOptionError::FilePath(_) => status::NO_FILE_PATH,
    }
}
