ghost use Rattle.std.specs.Prelude.{◌≡◌, ◌==◌, ◌^◌, ◌<◌, ◌≤◌, [], ◌∷◌, length, MatchOption, IfSome};
ghost use Rattle.std.specs.List.{before_first, after_first};
ghost use Rattle.std.specs.Iterator.{YieldsFirstBy, item_count};
ghost use Rattle.uefi_hii.specs.Pairs.{ampersand, pair_of, pairs};
ghost use Rattle.uefi_hii.specs.private.Finding.{parts_at};
ghost use Rattle.uefi_hii.specs.Views.{pair_view, pairs_left};

use crate::finding::index_of;
use std::iter::FusedIterator;
use uefi_base::buffer::length_fits;

/// The byte between two pairs.
const AMPERSAND: u8 = b'&';

/// The byte between a key and its value.
const EQUALS_SIGN: u8 = b'=';

/// The pairs of keys and values of a text, in order (UEFI 2.10, 35.2.1 "String Syntax").
///
/// The text is cut at each `&` into pieces, of which an empty last one is dropped. Each piece is
/// cut at its first `=` into a key and a value; a piece without `=` is a key with no value. Nothing
/// is decoded and nothing is refused: an empty piece is a pair with an empty key.
///
/// Keys and values are parts of the text and live as long as it does, not as the iterator. After
/// the last pair the iterator stays ended.
#[derive(Clone, Copy)]
pub struct ConfigurationStringIter<'a> {
    rest: &'a str,
}

impl<'a> ConfigurationStringIter<'a> {
    /// Returns the pairs of the text. A text of n bytes has at most n pairs.
    #[tactic(auto, using(crate::proofs::Pieces::few_pairs))]
    pub fn new(text: &'a str) -> ConfigurationStringIter<'a>
        ensures pairs { pairs_left result ≡ pairs text.now }
        ensures few { length (pairs_left result) ≤ length text.now }
        ensures countable { length (pairs_left result) < 2 ^ 64 }
    {
        length_fits(text.as_bytes());
        ConfigurationStringIter { rest: text }
    }
}

impl<'a> Iterator for ConfigurationStringIter<'a> {
    type Item = (&'a str, Option<&'a str>);

    ghost next_gives = { YieldsFirstBy pair_view pairs_left };

    ghost remaining = { item_count pairs_left };

    #[inline(always)]
    fn next(&mut self) -> Option<(&'a str, Option<&'a str>)> {
        let (pair, rest) = next_text_pair(self.rest)?;
        self.rest = rest;
        Some(pair)
    }
}

impl<'a> FusedIterator for ConfigurationStringIter<'a> {}

/// Returns the first pair of a text that is given as bytes, and the bytes after it: one step of
/// [`ConfigurationStringIter`], over any bytes. `None` if there are no bytes.
///
/// The pair is the bytes before the first `&`, or all bytes if there is none, cut at their first
/// `=`. The bytes after that `&` are left.
#[inline(always)]
pub fn next_pair(bytes: &[u8]) -> Option<((&[u8], Option<&[u8]>), &[u8])>
    ensures pair { IfSome result (λ cut. pair_view cut.0
        ≡ pair_of (before_first (λ byte. byte == ampersand) bytes.now)) }
    ensures rest { IfSome result (λ cut. cut.1.now
        ≡ after_first (λ byte. byte == ampersand) bytes.now) }
    ensures pairs { MatchOption result (pairs bytes.now ≡ [])
        (λ cut. pairs bytes.now ≡ pair_view cut.0 ∷ pairs cut.1.now) }
    ensures none { MatchOption result (bytes.now ≡ []) (λ cut. length cut.1.now < length bytes.now) }
{
    if bytes.is_empty() {
        return None;
    }
    let (piece, rest) = split_once(bytes, AMPERSAND);
    Some((split_once(piece, EQUALS_SIGN), rest.unwrap_or(&[])))
}

/// Returns the bytes before the first `byte`, and those after it if there is one.
#[inline(always)]
fn split_once(bytes: &[u8], byte: u8) -> (&[u8], Option<&[u8]>)
    ensures { pair_view result ≡ parts_at byte bytes.now }
{
    match index_of(bytes, byte) {
        Some(index) => (&bytes[..index], Some(&bytes[index + 1..])),
        None => (bytes, None),
    }
}

/// Returns the first pair of a text, and the text after it.
#[inline(always)]
fn next_text_pair(text: &str) -> Option<((&str, Option<&str>), &str)>
    ensures { MatchOption result (pairs text.now ≡ [])
        (λ cut. pairs text.now ≡ pair_view cut.0 ∷ pairs cut.1.now) }
{
    let ((key, value), rest) = next_pair(text.as_bytes())?;
    let value = match value {
        Some(value) => {
            let start = key.len() + 1;
            Some(&text[start..start + value.len()])
        }
        None => None,
    };
    Some((
        (&text[..key.len()], value),
        &text[text.len() - rest.len()..],
    ))
}
