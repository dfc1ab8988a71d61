ghost use Rattle.std.specs.Prelude.{◌≡◌, ◌^◌, ◌<◌, length, Some, IfSome, IsOk};
ghost use Rattle.std.specs.Iterator.{YieldsFirstBy, item_count, at_most, UpTo};
ghost use Rattle.std.specs.Iterator.SizeHint.{IsWithinCount};
ghost use Rattle.std.specs.Result.{result_map_both};
ghost use Rattle.tpm_quote.specs.PcrSelection.{HasSelections};
ghost use Rattle.tpm_quote.specs.private.Reading.{after_selections, selections_in, split_counted, split_selections};
ghost use Rattle.tpm_quote.specs.private.Selections.{HasSelections-prop};

use crate::big_endian::split_u32;
use crate::pcr_selection::PcrSelection;
use crate::quote_error::QuoteError;
use std::iter::{ExactSizeIterator, FusedIterator};

/// An iterator over the selections of a quote, in the quote's order.
///
/// Each selection lives as long as the source bytes. After the last selection the iterator returns
/// `None` forever. Its [`len`](ExactSizeIterator::len) and [`size_hint`](Iterator::size_hint) are
/// exact.
#[derive(Clone, Copy)]
pub struct PcrSelectionIter<'a> {
    rest: &'a [u8],
    count: u32,
    pub ghost fits: { count < 2 ^ 32 },
    pub ghost left: { HasSelections count rest.now } by { HasSelections-prop count rest.now },
}

impl<'a> PcrSelectionIter<'a> {
    ghost use Rattle.tpm_quote.specs.Views.{selections_left};

    /// Returns an iterator over the selections that follow their number, and the bytes after them.
    ///
    /// # Errors
    ///
    /// - [`TooShort`](QuoteError::TooShort) if the number or a selection isn't whole.
    /// - [`Selection`](QuoteError::Selection) if a selection isn't one of a PC.
    #[tactic(auto, using(crate::proofs::Selections::both_parts, crate::proofs::Selections::no_selections, crate::proofs::Selections::whole_selections), unfolding(crate::specs::private::Reading::split_counted))]
    pub(crate) fn split(bytes: &'a [u8]) -> Result<(PcrSelectionIter<'a>, &'a [u8]), QuoteError>
        ensures { result_map_both (λ split. (selections_left split.0, split.1.now)) (λ error. error) result
            ≡ split_counted bytes.now }
    {
        let (count, rest) = split_u32(bytes)?;
        let after = after_selections(rest, count)?;
        Ok((PcrSelectionIter::new(rest, count), after))
    }

    /// Returns an iterator over the selections that `rest` is known to begin with.
    #[tactic(auto, using(crate::proofs::SelectionsLeft::left_in))]
    pub(crate) fn new(rest: &'a [u8], count: u32) -> PcrSelectionIter<'a>
        requires { IsOk (split_selections count rest.now) }
        ensures { selections_left result ≡ selections_in count rest.now }
    {
        PcrSelectionIter { rest, count }
    }
}

impl<'a> Iterator for PcrSelectionIter<'a> {
    ghost use Rattle.tpm_quote.specs.Views.{selection_of, selections_left};

    type Item = PcrSelection<'a>;

    ghost next_gives = { YieldsFirstBy selection_of selections_left };

    ghost remaining = { item_count selections_left };

    #[tactic(auto, using(crate::proofs::SelectionsLeft::next_left, crate::proofs::SelectionsLeft::others_left, crate::proofs::SelectionsLeft::first_left, crate::proofs::SelectionsLeft::nothing_left))]
    fn next(&mut self) -> Option<PcrSelection<'a>> {
        if self.count == 0 {
            return None;
        }
        let Ok((selection, rest)) = PcrSelection::split(self.rest) else {
            return None;
        };
        *self = PcrSelectionIter::new(rest, self.count - 1);
        Some(selection)
    }

    /// Returns the count of selections that are left, as both bounds.
    fn size_hint(&self) -> (usize, Option<usize>)
        ensures lower { IsWithinCount result.0 (at_most (length (selections_left self.now))) }
        ensures upper { IfSome result.1 (UpTo (at_most (length (selections_left self.now)))) }
        ensures least { result.0 ≡ length (selections_left self.now) }
        ensures most { result.1 ≡ Some (length (selections_left self.now)) }
    {
        let length = self.len();
        (length, Some(length))
    }
}

impl<'a> ExactSizeIterator for PcrSelectionIter<'a> {
    /// Returns the count of selections that are left.
    fn len(&self) -> usize {
        self.count as usize
    }
}

impl<'a> FusedIterator for PcrSelectionIter<'a> {}

/// Returns the bytes after this many selections.
///
/// # Errors
///
/// The error of the first selection that the bytes don't have.
#[tactic(auto, using(crate::proofs::Selections::after_more, crate::proofs::Selections::after_zero))]
fn after_selections(bytes: &[u8], count: u32) -> Result<&[u8], QuoteError>
    ensures { result_map_both (λ rest. rest.now) (λ error. error) result
        ≡ after_selections count bytes.now }
{
    let mut rest = bytes;
    for _ in 0..count {
        let (_, after) = PcrSelection::split(rest)?;
        rest = after;
    }
    Ok(rest)
}
