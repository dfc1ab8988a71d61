use rows::{hex_digits, quoted};
use std::alloc::Global;
use test_support::{Refusing, bytes};
use uefi_path::DevicePath;
use uefi_path_text::{
    AllowShortcuts, DisplayOnly, FromTextError, from_text_in, instance_to_text, node_to_text,
    to_text, write_from_text,
};

/// Returns the text of the path that the bytes are.
fn shown(alloc: Global, input: &[u8], display_only: bool, shortcuts: bool) -> Option<String> {
    let Ok(path) = DevicePath::try_from(input) else {
        return format!(in alloc; "no path").ok();
    };
    let text = to_text(path, DisplayOnly(display_only), AllowShortcuts(shortcuts));
    format!(in alloc; "{text}").ok()
}

/// Returns the text of the path that the bytes are, in quotes.
pub(crate) fn text(
    alloc: Global,
    input: &str,
    display_only: bool,
    shortcuts: bool,
) -> Option<String> {
    let input = bytes(alloc, input).ok()?;
    let text = shown(alloc, input.as_slice(), display_only, shortcuts)?;
    quoted(alloc, text.as_str()).ok()
}

/// Returns the exact text of the path that the bytes are, if it is read as the path.
pub(crate) fn text_and_back(alloc: Global, heap: &Refusing<Global>, input: &str) -> Option<String> {
    let input = bytes(alloc, input).ok()?;
    let text = shown(alloc, input.as_slice(), false, false)?;
    match from_text_in(heap, text.as_str()) {
        Ok(path) if path.as_path().as_bytes() == input.as_slice() => {
            quoted(alloc, text.as_str()).ok()
        }
        Ok(_) => format!(in alloc; "{text}, which is read as another path").ok(),
        Err(FromTextError::Memory) => None,
        Err(error) => format!(in alloc; "{text}, which is not read: {error:?}").ok(),
    }
}

/// Returns the text of the path that the bytes are, if it is the same for display, and is read as
/// the path.
pub(crate) fn text_in_each_style(
    alloc: Global,
    heap: &Refusing<Global>,
    input: &str,
) -> Option<String> {
    let exact = text_and_back(alloc, heap, input)?;
    let for_display = text(alloc, input, true, false)?;
    if exact.as_str() == for_display.as_str() {
        return Some(exact);
    }
    format!(in alloc; "{exact}, and for display {for_display}").ok()
}

/// Returns the texts of the instances of a path, of its nodes and of its end node, each with a
/// semicolon after it but the last.
pub(crate) fn texts_of_parts(alloc: Global, input: &str) -> Option<String> {
    let input = bytes(alloc, input).ok()?;
    let path = DevicePath::try_from(input.as_slice()).ok()?;
    let (display_only, shortcuts) = (DisplayOnly(false), AllowShortcuts(false));
    let mut texts = String::new(alloc);
    for instance in path.instance_iter() {
        let text = instance_to_text(instance, display_only, shortcuts);
        write!(texts, "{text};").ok()?;
    }
    for node in path.node_iter() {
        let text = node_to_text(node, display_only, shortcuts);
        write!(texts, "{text};").ok()?;
    }
    let text = node_to_text(path.end_node(), display_only, shortcuts);
    write!(texts, "{text}").ok()?;
    quoted(alloc, texts.as_str()).ok()
}

/// Returns the error of reading a text into a buffer of nine bytes, if each of them stays.
pub(crate) fn into_nine_bytes(alloc: Global, input: &str) -> Option<String> {
    let mut buffer = [0xee; 9];
    let written = write_from_text(&mut buffer, input);
    if buffer != [0xee; 9] {
        return format!(in alloc; "the buffer is written to").ok();
    }
    format!(in alloc; "{written:?}").ok()
}

/// Returns the bytes of the path whose text this is, or why it is none, where both calls return
/// the same.
pub(crate) fn parsed(alloc: Global, heap: &Refusing<Global>, input: &str) -> Option<String> {
    let mut buffer = [0xee; 128];
    let written = write_from_text(&mut buffer, input);
    match from_text_in(heap, input) {
        Err(FromTextError::Memory) => None,
        Err(error) if written == Err(error) => format!(in alloc; "{error:?}").ok(),
        Ok(path) if written == Ok(path.as_path().as_bytes().len()) => {
            let path = path.as_path().as_bytes();
            if !buffer.starts_with(path) {
                return format!(in alloc; "another path in a buffer").ok();
            }
            hex_digits(alloc, path).ok()
        }
        _ => format!(in alloc; "another result in a buffer: {written:?}").ok(),
    }
}
