//! Pairs of which the next is cut already, so that a reader can look at it before it takes it.

ghost use Rattle.std.specs.Prelude.{◌≡◌, ◌≢◌, ◌^◌, ◌<◌, ◌∷◌, [], ◌↔◌, IsTrue, MatchOption, length};
ghost use Rattle.std.specs.Bool.{MatchBool};
ghost use Rattle.uefi_hii.specs.Configuration.{IsSkipped};
ghost use Rattle.uefi_hii.specs.Cut.{first_pair};
ghost use Rattle.uefi_hii.specs.Pairs.{pairs};
ghost use Rattle.uefi_hii.specs.Slots.{IsKey};
ghost use Rattle.uefi_hii.specs.private.Taking.{StopsAt};
ghost use Rattle.uefi_hii.specs.Views.{pair_view, peeked_pairs};

use crate::keys;
use crate::pairs::ConfigurationStringIter;

/// The pairs of a text. The next is kept, so each is cut once, however often a reader looks at it.
#[derive(Clone, Copy)]
pub(crate) struct PeekedPairs<'a> {
    next: Option<(&'a str, Option<&'a str>)>,
    after: ConfigurationStringIter<'a>,
}

impl<'a> PeekedPairs<'a> {
    /// Returns the pairs of the text.
    #[tactic(auto, using(crate::proofs::NextKept::peeked_again))]
    pub(crate) fn new(text: &'a str) -> PeekedPairs<'a>
        ensures pairs { peeked_pairs result ≡ pairs text.now }
        ensures countable { length (peeked_pairs result) < 2 ^ 64 }
    {
        let mut after = ConfigurationStringIter::new(text);
        let next = after.next();
        PeekedPairs { next, after }
    }

    /// Returns whether no pair is left.
    pub(crate) fn is_empty(&self) -> bool
        ensures { MatchBool result (peeked_pairs self.now ≡ []) (peeked_pairs self.now ≢ []) }
    {
        self.next.is_none()
    }

    /// Returns whether the next pair has the key.
    pub(crate) fn is_at(&self, key: &str) -> bool
        ensures { IsTrue result ↔ IsKey key.now (first_pair (peeked_pairs self.now)) }
    {
        self.next.is_some_and(|(found, _)| found == key)
    }

    /// Takes the next pair.
    pub(crate) fn next(&mut self) -> Option<(&'a str, Option<&'a str>)>
        ensures { MatchOption result
            ((peeked_pairs self.old ≡ []) × (peeked_pairs self.new ≡ []))
            (λ taken. peeked_pairs self.old ≡ pair_view taken ∷ peeked_pairs self.new) }
    {
        let pair = self.next?;
        self.next = self.after.next();
        Some(pair)
    }

    /// Takes the next pair, if an element skips it.
    pub(crate) fn next_skipped(&mut self) -> Option<(&'a str, Option<&'a str>)>
        ensures { MatchOption result
            ((peeked_pairs self.new ≡ peeked_pairs self.old) × StopsAt (peeked_pairs self.old))
            (λ taken. (peeked_pairs self.old ≡ pair_view taken ∷ peeked_pairs self.new)
            × IsSkipped (pair_view taken)) }
    {
        if self.is_at(keys::OFFSET) || self.is_at(keys::GUID) {
            return None;
        }
        self.next()
    }
}
