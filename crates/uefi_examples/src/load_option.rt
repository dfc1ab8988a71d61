ghost use Rattle.std.specs.Prelude.{◌≡◌, ◌≤◌, length, IsTrue, OnSome};
ghost use Rattle.uefi_examples.specs.ActiveOption.{IsPutActive};

use uefi_path::laws::written_options;
use uefi_path::{LoadOption, LoadOptionAttributes, write_load_option};

/// Writes the load option that `bytes` are to a buffer, with the flag ACTIVE, and returns its
/// length; or `None` if they are no option, or the buffer is too short.
pub fn write_active(bytes: &[u8], buffer: &mut [u8]) -> Option<usize>
    ensures { OnSome result (IsPutActive bytes.now buffer.old buffer.new) }
{
    written_options();
    let Ok(option) = LoadOption::try_from(bytes) else {
        return None;
    };
    let mut parts = option.parts();
    parts.attributes.insert(LoadOptionAttributes::ACTIVE);
    let Ok(size) = write_load_option(buffer, &parts) else {
        return None;
    };
    Some(size)
}

/// Writes the load option that `bytes` are once more, and returns whether the same bytes were
/// written, if they are an option: always.
pub fn is_written_again(bytes: &[u8], buffer: &mut [u8]) -> bool
    requires { length bytes.now ≤ length buffer.old }
    ensures { IsTrue result }
{
    written_options();
    let Ok(option) = LoadOption::try_from(bytes) else {
        return true;
    };
    match write_load_option(buffer, &option.parts()) {
        Ok(size) => &buffer[..size] == bytes,
        Err(_) => false,
    }
}
