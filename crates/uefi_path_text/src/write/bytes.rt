ghost use Rattle.std.specs.Prelude.{◌≡◌, ◌≤◌, ◌<◌, ◌^◌, ◌==◌, length, take, drop, position, slice_index};
ghost use Rattle.std.specs.List.{position_or_len};
ghost use Rattle.uefi_path_text.specs.write.Values.{low_number};
ghost use Rattle.uefi_path_text.specs.private.Found.{IsAfter};

/// Returns the number in bytes, the lowest first.
pub(crate) fn number(bytes: &[u8]) -> u64
    requires { length bytes.now ≤ 8 }
    ensures value { result ≡ low_number bytes.now }
    ensures small { result < 256 ^ length bytes.now }
{
    match bytes.split_first() {
        None => 0,
        Some((first, others)) => u64::from(*first) + 256 * number(others),
    }
}

/// Returns the first elements, so many.
pub(crate) fn front<T>(bytes: &[T], count: usize) -> &[T]
    ensures { result.now ≡ take count bytes.now }
{
    if count < bytes.len() {
        &bytes[..count]
    } else {
        bytes
    }
}

/// Returns the elements after the first, so many.
pub(crate) fn after<T>(bytes: &[T], count: usize) -> &[T]
    ensures { result.now ≡ drop count bytes.now }
{
    if count < bytes.len() {
        &bytes[count..]
    } else {
        &[]
    }
}

/// Returns what follows these bytes, if a text begins with them.
pub(crate) fn after_front<'a>(text: &'a [u8], front: &[u8]) -> Option<&'a [u8]>
    ensures { IsAfter front.now text.now result }
{
    text.strip_prefix(front)
}

/// Returns how many bytes are before the first NUL.
pub(crate) fn text_size(bytes: &[u8]) -> usize
    ensures { result ≡ position_or_len (λ b. b == 0) bytes.now }
{
    match first_nul(bytes) {
        Some(index) => index,
        None => bytes.len(),
    }
}

/// Returns the index of the first NUL.
fn first_nul(bytes: &[u8]) -> Option<usize>
    ensures { result ≡ position (λ b. b == 0) bytes.now }
{
    bytes.iter().position(|b| *b == 0)
}

/// Returns the byte at an index, or 0 if there is none.
pub(crate) fn byte_at(bytes: &[u8], index: usize) -> u8
    ensures { result ≡ slice_index bytes.now index }
{
    if index < bytes.len() { bytes[index] } else { 0 }
}
