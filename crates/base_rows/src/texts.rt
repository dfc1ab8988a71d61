use rows::hex_digits;
use std::alloc::{Allocator, Global};
use test_support::{Refusing, bytes};
use uefi_base::{CStr16, CString16, FromStrError, UnalignedCStr16Error, UnalignedSlice};

/// Returns the units over bytes.
fn units_of(alloc: Global, slice: UnalignedSlice<'_>) -> Option<Vec<u16>> {
    slice.iter().collect::<Vec<u16>>(alloc).ok()
}

/// Returns the count of characters of a text, whether it has none, its units, and its characters.
/// They are the same displayed.
fn shown<A: Allocator>(alloc: Global, heap: A, text: CStr16<'_>) -> Option<String> {
    let characters = text.to_string(heap).ok()?;
    let displayed = format!(in alloc; "{text}").ok()?;
    if displayed.as_str() != characters.as_str() {
        return format!(in alloc; "another text is displayed: {displayed}").ok();
    }
    let (count, is_empty) = (text.num_chars(), text.is_empty());
    let units = text.as_u16_with_nul();
    let characters = hex_digits(alloc, characters.as_str().as_bytes()).ok()?;
    format!(in alloc; "({count}, {is_empty}, {units:?}, {characters})").ok()
}

/// Returns what a text of units has, or why they are none.
fn view(alloc: Global, heap: &Refusing<Global>, units: &[u16]) -> Option<String> {
    match CStr16::from_u16_with_nul(units) {
        Ok(text) => shown(alloc, heap, text),
        Err(error) => format!(in alloc; "{error:?}").ok(),
    }
}

/// Returns the same of a copy of units over bytes.
fn copied(alloc: Global, heap: &Refusing<Global>, slice: UnalignedSlice<'_>) -> Option<String> {
    match slice.to_cstring16(heap) {
        Ok(text) => shown(alloc, heap, text.as_cstr16()),
        Err(UnalignedCStr16Error::Memory) => None,
        Err(error) => format!(in alloc; "{error:?}").ok(),
    }
}

/// Returns what the text of units has, or why they are none: the same of a view, and of a copy of
/// the bytes.
pub(crate) fn text(alloc: Global, heap: &Refusing<Global>, input: &str) -> Option<String> {
    let input = bytes(alloc, input).ok()?;
    let slice = UnalignedSlice::try_new(input.as_slice())?;
    let copied = copied(alloc, heap, slice)?;
    let view = view(alloc, heap, units_of(alloc, slice)?.as_slice())?;
    if view != copied {
        return format!(in alloc; "{view}, and of a copy {copied}").ok();
    }
    Some(view)
}

/// Returns the units of a text that is made of characters in UTF-8, or why it isn't. A copy of the
/// text is equal, and it has the characters, also displayed.
pub(crate) fn made(alloc: Global, heap: &Refusing<Global>, input: &str) -> Option<String> {
    let input = bytes(alloc, input).ok()?;
    let characters = str::from_utf8(input.as_slice()).ok()?;
    let text = match CString16::from_str(heap, characters) {
        Ok(text) => text,
        Err(FromStrError::Memory) => return None,
        Err(error) => return format!(in alloc; "Err({error:?})").ok(),
    };
    let copy = text.clone().ok()?;
    let displayed = format!(in alloc; "{text}").ok()?;
    if copy != text || displayed.as_str() != characters {
        return format!(in alloc; "another text: {displayed}").ok();
    }
    let units = copy.as_u16_with_nul();
    format!(in alloc; "Ok({units:?})").ok()
}

/// Returns whether a text has the characters that another one has up to its first NUL, as owned text
/// and as a view. Both inputs are in UTF-8.
pub(crate) fn equal_until_nul(alloc: Global, input: &str) -> Option<String> {
    let (text, other) = input.split_once(" ; ")?;
    let (text, other) = (bytes(alloc, text).ok()?, bytes(alloc, other).ok()?);
    let text = CString16::from_str(alloc, str::from_utf8(text.as_slice()).ok()?).ok()?;
    let other = str::from_utf8(other.as_slice()).ok()?;
    let are_equal = [
        text.eq_str_until_nul(other),
        text.as_cstr16().eq_str_until_nul(other),
    ];
    format!(in alloc; "{are_equal:?}").ok()
}

/// Returns whether the texts of units over two inputs are equal: as owned texts, as views, and as
/// units over bytes.
pub(crate) fn equal_texts(alloc: Global, input: &str) -> Option<String> {
    let (one, other) = input.split_once(" ; ")?;
    let (one, other) = (bytes(alloc, one).ok()?, bytes(alloc, other).ok()?);
    let one = UnalignedSlice::try_new(one.as_slice())?;
    let other = UnalignedSlice::try_new(other.as_slice())?;
    let texts = (
        one.to_cstring16(alloc).ok()?,
        other.to_cstring16(alloc).ok()?,
    );
    let are_equal = [
        texts.0 == texts.1,
        texts.0.as_cstr16() == texts.1.as_cstr16(),
        one == other,
    ];
    format!(in alloc; "{are_equal:?}").ok()
}
