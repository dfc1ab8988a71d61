ghost use Rattle.std.specs.Prelude.{◌≡◌, ◌≢◌, ◌++◌, List, [], Ok, Err, Some, IfOk, IfErr, OnOk, MatchOption, is_ok, option_map, slice_get, slice_index_or, string_bytes, codes};
ghost use Rattle.std.specs.List.{All};
ghost use Rattle.uefi_hii.specs.declared.error.ConfigHdrSection.TheVariants.{Guid};
ghost use Rattle.uefi_hii.specs.declared.error.ParseError.TheVariants.{ConfigHdr, Memory};
ghost use Rattle.uefi_hii.specs.Configuration.{Configuration};
ghost use Rattle.uefi_hii.specs.Cut.{Part, Cut, first_pair, results_of};
ghost use Rattle.uefi_hii.specs.Laws.{EndsWithAmpersand, EndsWithElement};
ghost use Rattle.uefi_hii.specs.Pairs.{pairs};
ghost use Rattle.uefi_hii.specs.Reading.{AreResults};
ghost use Rattle.uefi_hii.specs.Slots.{IsKey};
ghost use Rattle.uefi_hii.specs.Views.{configuration_of};
ghost use Rattle.uefi_examples.specs.Configurations.{value_at, AreCounts, IsOnlyResult};

use std::alloc::{AllocError, Global};
use uefi_hii::laws::{one_cut, one_group};
use uefi_hii::{ConfigurationString, MultiConfigurationStringIter, ParseError};

/// Returns the bytes of the first element that has this offset and this width, if there is one.
pub fn value_of(configuration: &ConfigurationString, offset: u64, width: u64) -> Option<&[u8]>
    ensures { option_map (λ bytes. bytes.now) result
        ≡ value_at offset width (configuration_of configuration.now) }
{
    for element in configuration.elements.as_slice() {
        if element.offset == offset && element.width == width {
            return Some(element.value.as_slice());
        }
    }
    None
}

/// Returns the bytes of that element of the first configuration of a text. If the first group of
/// pairs is no configuration, it fails with that group's error; a text without pairs lacks the
/// GUID.
pub fn first_value(
    alloc: Global,
    text: &str,
    offset: u64,
    width: u64,
) -> Result<Option<Vec<u8>>, ParseError>
    ensures read { IfOk result (λ found. (parts : List Part) → Cut text.now parts
        → (first : Configuration) × (slice_get (results_of parts) 0 ≡ Some (Ok first))
        × (option_map (λ bytes. bytes.items) found ≡ value_at offset width first)) }
    ensures refused { IfErr result (λ error. error ≢ Memory
        → (parts : List Part) → Cut text.now parts
        → slice_index_or (results_of parts) 0 (Err (ConfigHdr Guid)) ≡ Err error) }
{
    let configuration = ConfigurationString::from_str(alloc, text)?;
    match value_of(&configuration, offset, width) {
        Some(bytes) => Ok(Some(Vec::from_slice(alloc, bytes)?)),
        None => Ok(None),
    }
}

/// Returns the first item of a text. It is the result of every group that the text's pairs begin
/// with, of which by the law `one_group` there is one.
pub fn first_item(alloc: Global, text: &str) -> Option<Result<ConfigurationString, ParseError>>
    ensures { MatchOption result (pairs text.now ≡ []) (IsOnlyResult (pairs text.now)) }
{
    one_group();
    MultiConfigurationStringIter::new(alloc, text).next()
}

/// Returns all items of a text, up to the end of the iterator. If none of them is `Memory`, they
/// are the results of the text's cut, in order.
pub fn all_items(
    alloc: Global,
    text: &str,
) -> Result<Vec<Result<ConfigurationString, ParseError>>, AllocError>
    ensures { IfOk result (λ all. All (λ item. item ≢ Err Memory) all.items
        → AreResults text.now all.items) }
{
    let mut all = Vec::new(alloc);
    for item in MultiConfigurationStringIter::new(alloc, text) {
        all.push(item)?;
    }
    Ok(all)
}

/// Returns how many configurations and how many errors a text has, by `for`: those of its cut.
pub fn item_counts(alloc: Global, text: &str) -> Result<(usize, usize), AllocError>
    ensures { IfOk result (λ counts. (parts : List Part) × Cut text.now parts
        × AreCounts counts (results_of parts)) }
{
    let mut configurations = 0usize;
    let mut errors = 0usize;
    for item in MultiConfigurationStringIter::new(alloc, text) {
        if is_configuration(item)? {
            configurations += 1;
        } else {
            errors += 1;
        }
    }
    Ok((configurations, errors))
}

/// Returns the same counts. By the law `one_cut` a text has no other cut, so they are those of
/// every list that is one.
pub fn counts_of_every_cut(alloc: Global, text: &str) -> Result<(usize, usize), AllocError>
    ensures { IfOk result (λ counts. (parts : List Part) → Cut text.now parts
        → AreCounts counts (results_of parts)) }
{
    one_cut();
    item_counts(alloc, text)
}

/// Returns whether an item is a configuration, and no error of the text.
fn is_configuration(item: Result<ConfigurationString, ParseError>) -> Result<bool, AllocError>
    ensures memory { OnOk result (item ≢ Err Memory) }
    ensures kind { IfOk result (λ found. found ≡ is_ok item) }
{
    match item {
        Ok(_) => Ok(true),
        Err(ParseError::Memory) => Err(AllocError),
        Err(_) => Ok(false),
    }
}

/// Joins two texts by an ampersand. The cut of the joined text is that of both, one after another,
/// where the law `one_cut` says so.
pub fn joined_texts(alloc: Global, text: &str, other: &str) -> Result<String, AllocError>
    ensures { IfOk result (λ joined. (parts others : List Part)
        → Cut text.now parts → Cut other.now others
        → ¬ EndsWithAmpersand text.now → EndsWithElement parts
        → IsKey (codes "GUID") (first_pair (pairs other.now))
        → Cut (string_bytes joined) (parts ++ others)) }
{
    one_cut();
    format!(in alloc; "{text}&{other}")
}
