use std::alloc::Global;
use test_support::{Refusing, bytes};
use uefi_base::{Error, Status, UnalignedSlice};
use uefi_path::{
    LoadOption, LoadOptionAttributes, LoadOptionDescription, LoadOptionParts, write_load_option,
};

/// Returns whether the option that is written from the parts of another one has its bytes.
pub(crate) fn written_again(alloc: Global, heap: &Refusing<Global>, input: &str) -> Option<String> {
    let input = bytes(alloc, input).ok()?;
    let option = LoadOption::try_from(input.as_slice()).ok()?;
    match LoadOption::new_in_box(heap, &option.parts()) {
        Ok(boxed) => {
            let is_same = boxed.as_bytes() == input.as_slice();
            format!(in alloc; "Ok({is_same})").ok()
        }
        Err(error) if error == Error::new(Status::OUT_OF_RESOURCES, ()) => None,
        Err(error) => format!(in alloc; "Err({})", error.status()).ok(),
    }
}

/// Returns the parts of an active option of these units.
fn parts_of<'a>(
    units: UnalignedSlice<'a>,
    path: &'a [u8],
    optional_data: &'a [u8],
) -> LoadOptionParts<'a> {
    LoadOptionParts {
        attributes: LoadOptionAttributes::ACTIVE,
        description: LoadOptionDescription::Units(units),
        file_path_list: path,
        optional_data,
    }
}

/// Returns the length of the option that is written to a buffer, or its error, if the buffer then
/// stayed.
fn written(alloc: Global, buffer: &mut [u8], parts: &LoadOptionParts<'_>) -> Option<String> {
    match write_load_option(buffer, parts) {
        Ok(size) => format!(in alloc; "Ok({size})").ok(),
        Err(error) if buffer.iter().all(|byte| *byte == 0xff) => {
            format!(in alloc; "Err({}, {:?})", error.status(), error.data()).ok()
        }
        Err(_) => format!(in alloc; "the buffer changed").ok(),
    }
}

/// Writes an option with a byte of data: its description, its file path list, and the length of the
/// buffer.
pub(crate) fn write_option(alloc: Global, input: &str) -> Option<String> {
    let fields = input.split(" ; ").collect::<Vec<&str>>(alloc).ok()?;
    let [description, list, room] = fields.as_slice() else {
        return None;
    };
    let units = bytes(alloc, description).ok()?;
    let list = bytes(alloc, list).ok()?;
    let mut buffer = vec![in alloc; 0xffu8; room.parse::<usize>().ok()?].ok()?;
    let units = UnalignedSlice::try_new(units.as_slice())?;
    let parts = parts_of(units, list.as_slice(), &[0xdd]);
    written(alloc, buffer.as_mut_slice(), &parts)
}

/// Writes an option with a file path list of this length, and without a description.
pub(crate) fn long_list(alloc: Global, input: &str) -> Option<String> {
    let mut list = bytes(alloc, "7fff 0400").ok()?;
    list.resize(input.parse::<usize>().ok()?, 0).ok()?;
    let mut buffer = vec![in alloc; 0xffu8; 70000].ok()?;
    let units = UnalignedSlice::try_new(&[0, 0])?;
    let parts = parts_of(units, list.as_slice(), &[]);
    written(alloc, buffer.as_mut_slice(), &parts)
}
