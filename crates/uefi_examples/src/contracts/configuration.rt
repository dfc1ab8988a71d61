ghost use Rattle.std.specs.Prelude.{◌≡◌, ◌≢◌, ◌==◌, Err, IfErr, IfOk, List, Ok, Some, option_map, slice_get, slice_index_or};
ghost use Rattle.std.specs.List.{find};
ghost use Rattle.uefi_hii.specs.declared.error.ConfigHdrSection.TheVariants.{Guid};
ghost use Rattle.uefi_hii.specs.declared.error.ParseError.TheVariants.{ConfigHdr, Memory};
ghost use Rattle.uefi_hii.specs.Configuration.{Configuration};
ghost use Rattle.uefi_hii.specs.Cut.{Cut, Part, results_of};
ghost use Rattle.uefi_hii.specs.Views.{configuration_of};

use std::alloc::Global;
use uefi_hii::{ConfigurationString, ParseError};

/// Returns the value of a configuration at an offset: the bytes of the first element there.
pub fn value_at(configuration: &ConfigurationString, offset: u64) -> Option<&[u8]>
    ensures { option_map (λ value. value.now) result ≡ option_map (λ element. element.value)
        (find (λ element. element.offset == offset) (configuration_of configuration.now).elements) }
{
    for element in configuration.elements.as_slice() {
        if element.offset == offset {
            return Some(element.value.as_slice());
        }
    }
    None
}

/// Returns the value of the first configuration of a text at an offset.
pub fn first_value_at(alloc: Global, text: &str, offset: u64) -> Result<Option<Vec<u8>>, ParseError>
    ensures read { IfOk result (λ value. (parts : List Part) → Cut text.now parts
        → (first : Configuration) × (slice_get (results_of parts) 0 ≡ Some (Ok first))
        × (option_map (λ bytes. bytes.items) value ≡ option_map (λ element. element.value)
        (find (λ element. element.offset == offset) first.elements))) }
    ensures refused { IfErr result (λ error. error ≢ Memory
        → (parts : List Part) → Cut text.now parts
        → slice_index_or (results_of parts) 0 (Err (ConfigHdr Guid)) ≡ Err error) }
{
    let configuration = ConfigurationString::from_str(alloc, text)?;
    match value_at(&configuration, offset) {
        Some(value) => Ok(Some(Vec::from_slice(alloc, value)?)),
        None => Ok(None),
    }
}
