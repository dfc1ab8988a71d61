//! The readers of a group of pairs: a header, and then elements.

ghost use Rattle.std.specs.Prelude.{◌≡◌, ◌≢◌, [], IfOk, reverse};
ghost use Rattle.uefi_hii.specs.Hex.{hex};
ghost use Rattle.uefi_hii.specs.Reading.{TakesGroup};
ghost use Rattle.uefi_hii.specs.private.Taking.{TakesHeader, TakesElement};
ghost use Rattle.uefi_hii.specs.Views.{peeked_pairs};

use crate::configuration::{ConfigurationString, ConfigurationStringElement};
use crate::error::{ConfigHdrSection, ParseError};
use crate::filling::hex_bytes;
use crate::keys;
use crate::peeked::PeekedPairs;
use crate::taking::{
    take_alt_cfg_id, take_guid, take_name, take_number, take_nvconfig, take_path, take_value,
};
use std::alloc::{AllocError, Allocator};

/// Returns the configuration or the error of the group that the pairs begin with. What is left are
/// the pairs after the group.
pub(crate) fn read_group<A: Allocator + Copy>(
    alloc: A,
    pairs: &mut PeekedPairs<'_>,
) -> Result<ConfigurationString<A>, ParseError>
    requires { peeked_pairs pairs.old ≢ [] }
    ensures { TakesGroup (peeked_pairs pairs.old) result (peeked_pairs pairs.new) }
{
    let mut configuration = read_header(alloc, pairs)?;
    if pairs.is_empty() {
        return Ok(configuration);
    }
    loop {
        let element = read_element(alloc, pairs)?;
        if configuration.elements.push(element).is_err() {
            return Err(ParseError::Memory);
        }
        if !pairs.is_at(keys::OFFSET) {
            return Ok(configuration);
        }
    }
}

/// Returns the header that the pairs begin with, as a configuration without elements yet.
fn read_header<A: Allocator + Copy>(
    alloc: A,
    pairs: &mut PeekedPairs<'_>,
) -> Result<ConfigurationString<A>, ParseError>
    requires { peeked_pairs pairs.old ≢ [] }
    ensures { TakesHeader (peeked_pairs pairs.old) result (peeked_pairs pairs.new) }
{
    let Some(guid) = take_guid(pairs) else {
        return Err(ParseError::ConfigHdr(ConfigHdrSection::Guid));
    };
    let Some(name) = take_name(alloc, pairs)? else {
        return Err(ParseError::ConfigHdr(ConfigHdrSection::Name));
    };
    let Some(device_path) = take_path(alloc, pairs)? else {
        return Err(ParseError::ConfigHdr(ConfigHdrSection::Path));
    };
    let alt_cfg_id = take_alt_cfg_id(pairs)?;
    Ok(ConfigurationString {
        guid,
        name,
        device_path,
        alt_cfg_id,
        elements: Vec::new(alloc),
    })
}

/// Returns the element that the pairs begin with, with the pairs that it skips.
fn read_element<A: Allocator + Copy>(
    alloc: A,
    pairs: &mut PeekedPairs<'_>,
) -> Result<ConfigurationStringElement<A>, ParseError>
    ensures { TakesElement (peeked_pairs pairs.old) result (peeked_pairs pairs.new) }
{
    let Some(offset) = take_number(pairs, keys::OFFSET) else {
        return Err(ParseError::BlockName);
    };
    let Some(width) = take_number(pairs, keys::WIDTH) else {
        return Err(ParseError::BlockName);
    };
    let Some(text) = take_value(pairs, keys::VALUE) else {
        return Err(ParseError::BlockConfig);
    };
    let value = reversed_bytes(alloc, text)?;
    let nvconfig = take_nvconfig(alloc, pairs)?;
    Ok(ConfigurationStringElement {
        offset,
        width,
        value,
        nvconfig,
    })
}

/// Returns the bytes that a text spells, the last first.
fn reversed_bytes<A: Allocator>(alloc: A, text: &str) -> Result<Vec<u8, A>, AllocError>
    ensures { IfOk result (λ bytes. bytes.items ≡ reverse (hex text.now)) }
{
    let mut bytes = hex_bytes(alloc, text)?;
    bytes.reverse();
    Ok(bytes)
}
