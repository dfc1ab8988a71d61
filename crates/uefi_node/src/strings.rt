//! Strings that end with a NUL each.

ghost use Rattle.std.specs.Prelude.{◌≡◌, ◌==◌, ◌++◌, ◌∷◌, position, IsTrue, IfSome, IfNone};
ghost use Rattle.uefi_node.specs.NulStrings.{is_without_nul};
ghost use Rattle.uefi_node.specs.private.Strings.{TakesStrings};

/// Returns whether no byte is a NUL.
pub(crate) fn is_without_nul(bytes: &[u8]) -> bool
    ensures { result ≡ is_without_nul bytes.now }
{
    bytes.iter().all(|byte| *byte != 0)
}

/// Returns the three strings that the bytes are, each with a NUL after it, or `None` if the bytes
/// aren't three strings.
pub(crate) fn three_strings(bytes: &[u8]) -> Option<(&[u8], &[u8], &[u8])>
    ensures { TakesStrings bytes.now result }
{
    let Some((first, after_first)) = split_string(bytes) else {
        return None;
    };
    let Some((second, after_second)) = split_string(after_first) else {
        return None;
    };
    let Some((third, rest)) = split_string(after_second) else {
        return None;
    };
    if !rest.is_empty() {
        return None;
    }
    Some((first, second, third))
}

/// Returns the bytes up to the first NUL, and those after it, or `None` if there is no NUL.
fn split_string(bytes: &[u8]) -> Option<(&[u8], &[u8])>
    ensures string { IfSome result (λ s. IsTrue (is_without_nul s.0.now)) }
    ensures split { IfSome result (λ s. bytes.now ≡ s.0.now ++ 0 ∷ s.1.now) }
    ensures none { IfNone result (IsTrue (is_without_nul bytes.now)) }
{
    let Some(nul) = find_nul(bytes) else {
        return None;
    };
    let (string, with_nul) = bytes.split_at(nul);
    let (_, rest) = with_nul.split_at(1);
    Some((string, rest))
}

/// Returns the offset of the first NUL, if there is one.
fn find_nul(bytes: &[u8]) -> Option<usize>
    ensures { result ≡ position (λ byte. byte == 0) bytes.now }
{
    bytes.iter().position(|byte| *byte == 0)
}
