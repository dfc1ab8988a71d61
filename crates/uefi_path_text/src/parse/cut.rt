ghost use Rattle.std.specs.Prelude.{◌≡◌, ◌≤◌, ◌+◌, ◌-◌, ◌<◌, length};
ghost use Rattle.uefi_path_text.specs.private.FromText.{IsCut, rest_parts, rest_length, first_text, other_texts};

/// Returns the part of a text before the first mark, and what follows the mark.
pub(crate) fn cut(text: &[u8], mark: u8) -> (&[u8], Option<&[u8]>)
    ensures { IsCut mark text.now result.0.now result.1 }
{
    match text.iter().position(|c| *c == mark) {
        Some(end) => (&text[..end], Some(&text[end + 1..])),
        None => (text, None),
    }
}

/// Returns the text of the first argument, and those of the others. If there is none, its text is
/// empty.
pub(crate) fn next_text(texts: Option<&[u8]>) -> (&[u8], Option<&[u8]>)
    ensures first { result.0.now ≡ first_text (rest_parts 0x2c texts.entry) }
    ensures others { rest_parts 0x2c result.1 ≡ other_texts (rest_parts 0x2c texts.entry) }
    ensures shorter { rest_length texts.entry ≡ 0
        → (length result.0.now ≡ 0) × (rest_length result.1 ≡ 0) }
    ensures split { 0 < rest_length texts.entry
        → rest_length texts.entry ≡ 1 + length result.0.now + rest_length result.1 }
{
    match texts {
        Some(texts) => cut(texts, b','),
        None => (&[], None),
    }
}

/// Returns the offset of the texts, which end at the offset `end`.
pub(crate) fn start_of(texts: Option<&[u8]>, end: usize) -> usize
    requires { rest_length texts ≤ end + 1 }
    ensures within { result ≤ end }
    ensures start { result + (rest_length texts.entry - 1) ≡ end }
{
    match texts {
        Some(texts) => end - texts.len(),
        None => end,
    }
}
