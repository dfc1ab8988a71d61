//! Helpers of the readers: each takes the next pair, if it is the one that has to come.

ghost use Rattle.std.specs.Prelude.{◌≡◌, IfOk, OnErr, map, option_map, string_bytes};
ghost use Rattle.uefi_hii.specs.Configuration.{value_at, guid_in, name_in, number_in};
ghost use Rattle.uefi_hii.specs.private.Taking.{Takes, IsNamed, TakesPath, TakesAlt, Skips};
ghost use Rattle.uefi_hii.specs.Views.{nv_pair_of, pair_view, peeked_pairs};

use crate::configuration::{ConfigurationString, NvPair};
use crate::error::{ConfigHdrSection, ParseError};
use crate::filling::hex_bytes;
use crate::keys;
use crate::peeked::PeekedPairs;
use std::alloc::{AllocError, Allocator};
use uefi_base::Guid;
use uefi_path::BoxedDevicePath;

/// Returns the next pair's value, if it has the key and a value.
pub(crate) fn take_value<'a>(pairs: &mut PeekedPairs<'a>, key: &str) -> Option<&'a str>
    ensures { Takes (value_at key.now) (peeked_pairs pairs.old)
        (option_map (λ value. value.now) result) (peeked_pairs pairs.new) }
{
    let (found, value) = pairs.next()?;
    if found != key {
        return None;
    }
    value
}

/// Returns the number of the next pair, if it has the key and a number.
pub(crate) fn take_number(pairs: &mut PeekedPairs<'_>, key: &str) -> Option<u64>
    ensures { Takes (number_in key.now) (peeked_pairs pairs.old) result (peeked_pairs pairs.new) }
{
    ConfigurationString::parse_number_from_hex(take_value(pairs, key)?)
}

/// Returns the GUID of the next pair, if it is one.
pub(crate) fn take_guid(pairs: &mut PeekedPairs<'_>) -> Option<Guid>
    ensures { Takes guid_in (peeked_pairs pairs.old)
        (option_map (λ guid. guid.0) result) (peeked_pairs pairs.new) }
{
    ConfigurationString::parse_guid_from_hex(take_value(pairs, keys::GUID)?)
}

/// Returns the name of the next pair, if it is one.
pub(crate) fn take_name<A: Allocator + Copy>(
    alloc: A,
    pairs: &mut PeekedPairs<'_>,
) -> Result<Option<String<A>>, AllocError>
    ensures taken { IfOk result (λ taken. Takes name_in (peeked_pairs pairs.old)
        (option_map string_bytes taken) (peeked_pairs pairs.new)) }
    ensures named { OnErr result (IsNamed (peeked_pairs pairs.old)) }
{
    match take_value(pairs, keys::NAME) {
        Some(value) => ConfigurationString::parse_string_from_hex(alloc, value),
        None => Ok(None),
    }
}

/// Returns the path that the next pair's value begins with, if it does, whatever the key.
pub(crate) fn take_path<A: Allocator + Copy>(
    alloc: A,
    pairs: &mut PeekedPairs<'_>,
) -> Result<Option<BoxedDevicePath<A>>, AllocError>
    ensures { IfOk result (λ taken. TakesPath (peeked_pairs pairs.old) taken (peeked_pairs pairs.new)) }
{
    let Some((_, Some(value))) = pairs.next() else {
        return Ok(None);
    };
    let bytes = hex_bytes(alloc, value)?;
    Ok(BoxedDevicePath::try_from(bytes).ok())
}

/// Returns the identifier of an alternative configuration, if the next key is `ALTCFG`.
pub(crate) fn take_alt_cfg_id(pairs: &mut PeekedPairs<'_>) -> Result<Option<u16>, ParseError>
    ensures { TakesAlt (peeked_pairs pairs.old) result (peeked_pairs pairs.new) }
{
    if !pairs.is_at(keys::ALTCFG) {
        return Ok(None);
    }
    match take_number(pairs, keys::ALTCFG) {
        Some(number) => Ok(Some((number & 0xffff) as u16)),
        None => Err(ParseError::ConfigHdr(ConfigHdrSection::DescHdr)),
    }
}

/// Returns the pairs up to the next whose key is `OFFSET` or `GUID`, or to the end, in order.
pub(crate) fn take_nvconfig<A: Allocator + Copy>(
    alloc: A,
    pairs: &mut PeekedPairs<'_>,
) -> Result<Vec<NvPair<A>, A>, AllocError>
    ensures { IfOk result (λ nvconfig. Skips (peeked_pairs pairs.old)
        (map nv_pair_of nvconfig.items) (peeked_pairs pairs.new)) }
{
    let mut nvconfig = Vec::new(alloc);
    while let Some((key, value)) = pairs.next_skipped() {
        let pair = nv_pair(alloc, key, value)?;
        nvconfig.push(pair)?;
    }
    Ok(nvconfig)
}

/// Returns a pair that owns its key and its value.
fn nv_pair<A: Allocator + Copy>(
    alloc: A,
    key: &str,
    value: Option<&str>,
) -> Result<NvPair<A>, AllocError>
    ensures { IfOk result (λ pair. nv_pair_of pair ≡ pair_view (key.entry, value.entry)) }
{
    let key = String::from_str(alloc, key)?;
    let value = match value {
        Some(value) => Some(String::from_str(alloc, value)?),
        None => None,
    };
    Ok(NvPair { key, value })
}
