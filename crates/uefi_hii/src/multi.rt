ghost use Rattle.std.specs.Prelude.{◌≡◌, ◌≢◌, ◌^◌, ◌<◌, List, Err, IfOk, length, map};
ghost use Rattle.std.specs.Bool.{MatchBool};
ghost use Rattle.std.specs.List.{All};
ghost use Rattle.std.specs.Iterator.{item_count};
ghost use Rattle.uefi_hii.specs.declared.error.ParseError.TheVariants.{Memory};
ghost use Rattle.uefi_hii.specs.Cut.{Part, Cut, results_of};
ghost use Rattle.uefi_hii.specs.Pairs.{pairs};
ghost use Rattle.uefi_hii.specs.Reading.{AreResults, YieldsGroup};
ghost use Rattle.uefi_hii.specs.Views.{result_of, uncut_pairs};

use crate::configuration::ConfigurationString;
use crate::error::ParseError;
use crate::peeked::PeekedPairs;
use crate::reading::read_group;
use std::alloc::{AllocError, Allocator, Global};

/// The configurations of a text, and its errors, in order: an item for each group of pairs.
///
/// A group is the pairs of one configuration, or the pairs up to the one that is wrong, or up to
/// the end of a text that ends too early. After an error the next group begins at the pair after
/// the wrong one. Every pair belongs to one group.
///
/// The iterator keeps the allocator and the rest of the text. It makes no list of pairs, and takes
/// memory only for the configurations that it gives. After the last group it stays ended, and so it
/// does after [`ParseError::Memory`]. That item may stand for a group that has an error of its own,
/// as [`ParseError`] says.
///
/// # Examples
///
/// An item is a configuration, an error of the text, or an allocation that failed:
///
/// ```
/// use std::alloc::{AllocError, Global};
/// use uefi_hii::{ConfigurationString, MultiConfigurationStringIter, ParseError};
///
/// /// Returns how many configurations and how many errors a text has.
/// pub fn item_counts(alloc: Global, text: &str) -> Result<(usize, usize), AllocError> {
///     let mut configurations = 0usize;
///     let mut errors = 0usize;
///     for item in MultiConfigurationStringIter::new(alloc, text) {
///         if is_configuration(item)? {
///             configurations += 1;
///         } else {
///             errors += 1;
///         }
///     }
///     Ok((configurations, errors))
/// }
///
/// /// Returns whether an item is a configuration, and no error of the text.
/// fn is_configuration(item: Result<ConfigurationString, ParseError>) -> Result<bool, AllocError> {
///     match item {
///         Ok(_) => Ok(true),
///         Err(ParseError::Memory) => Err(AllocError),
///         Err(_) => Ok(false),
///     }
/// }
/// ```
///
/// Both functions are proved in `crates/uefi_examples/src/configuration.rt`, which shows their
/// contracts.
#[derive(Drop)]
pub struct MultiConfigurationStringIter<'a, A: Allocator = Global> {
    alloc: A,
    pairs: PeekedPairs<'a>,
}

impl<'a, A: Allocator> MultiConfigurationStringIter<'a, A> {
    /// Returns the configurations of the text. This takes no memory.
    pub fn new(alloc: A, text: &'a str) -> MultiConfigurationStringIter<'a, A>
        ensures pairs { uncut_pairs result ≡ pairs text.now }
        ensures countable { length (uncut_pairs result) < 2 ^ 64 }
    {
        MultiConfigurationStringIter {
            alloc,
            pairs: PeekedPairs::new(text),
        }
    }
}

impl<'a, A: Allocator + Copy> Iterator for MultiConfigurationStringIter<'a, A> {
    type Item = Result<ConfigurationString<A>, ParseError>;

    ghost next_gives = { YieldsGroup };

    ghost remaining = { item_count uncut_pairs };

    fn next(&mut self) -> Option<Result<ConfigurationString<A>, ParseError>> {
        if self.pairs.is_empty() {
            return None;
        }
        let result = read_group(self.alloc, &mut self.pairs);
        if is_memory(&result) {
            self.pairs = PeekedPairs::new("");
        }
        Some(result)
    }
}

impl<'a, A: Allocator + Copy> std::iter::FusedIterator for MultiConfigurationStringIter<'a, A> {}

/// Returns all configurations of a text, and its errors, in order: an item for each group of pairs,
/// as [`MultiConfigurationStringIter`] gives them.
///
/// # Errors
///
/// [`AllocError`] if an allocation fails, whatever errors the text has. So no item is
/// [`ParseError::Memory`].
#[tactic(auto, using(crate::proofs::Wholes::cut_none))]
pub fn parse_all<A: Allocator + Copy>(
    alloc: A,
    text: &str,
) -> Result<Vec<Result<ConfigurationString<A>, ParseError>, A>, AllocError>
    ensures cut { IfOk result (λ all. AreResults text.now all.items) }
    ensures only { IfOk result (λ all. (parts : List Part) → Cut text.now parts
        → map result_of all.items ≡ results_of parts) }
    ensures no_memory { IfOk result (λ all. All (λ item. item ≢ Err Memory) all.items) }
{
    let mut all = Vec::new(alloc);
    let mut configurations = MultiConfigurationStringIter::new(alloc, text);
    while let Some(result) = configurations.next() {
        if is_memory(&result) {
            return Err(AllocError);
        }
        all.push(result)?;
    }
    Ok(all)
}

/// Returns whether an allocation failed.
fn is_memory<A: Allocator>(item: &Result<ConfigurationString<A>, ParseError>) -> bool
    ensures { MatchBool result (item.now ≡ Err Memory) (item.now ≢ Err Memory) }
{
    matches!(item, Err(ParseError::Memory))
}
