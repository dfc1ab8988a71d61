//! What `config` lists of bytes, and what it refuses.

ghost use Rattle.std.specs.Prelude.{◌≡◌, ◌≢◌, ◌<◌, ◌^◌, Err, flat_map, length, string_bytes, IfOk, OnOk};
ghost use Rattle.uefi_base.specs.Appending.{AppendsText};
ghost use Rattle.uefi_hii.specs.declared.error.ParseError.TheVariants.{Memory};
ghost use Rattle.uefi_hii.specs.Views.{configuration_of, element_of, nv_pair_of, result_of, uncut_pairs};
ghost use Rattle.uefi_listing.specs.private.Appending.{AppendsListing};
ghost use Rattle.uefi_listing.specs.Config.{AppendsConfigLines, ConfigListing, alt_line, configuration_lines, element_line, element_lines, fault_line, header_lines, item_lines, nv_line, section_name};

use crate::listing::Outcome;
use shown::{Hex, gap_before};
use std::alloc::{AllocError, Allocator};
use uefi_hii::{
    ConfigHdrSection, ConfigurationString, ConfigurationStringElement,
    MultiConfigurationStringIter, NvPair, ParseError,
};

/// Appends the lines of the configurations and faults that the iterator has left, and last
/// `items N`, their count.
///
/// A configuration has the lines `config GUID`, `  name NAME`, `  path N` with the length of its
/// path in bytes, and `  alt N` if it is an alternative one; then for each element
/// `  element OFFSET WIDTH VALUE`, the value in hex, and for each pair that it keeps
/// `  nv KEY=VALUE`, or `  nv KEY` for a pair without a value. A fault has the line `fault NAME`.
///
/// # Errors
///
/// [`AllocError`] if an allocation fails, here or in the iterator. The text may have grown then.
pub fn push_configurations<A: Allocator + Copy>(
    text: &mut String<A>,
    mut items: MultiConfigurationStringIter<'_, A>,
) -> Result<(), AllocError>
    ensures { OnOk result (AppendsConfigLines text.old text.new (uncut_pairs items.entry)) }
{
    let mut count = 0usize;
    while let Some(item) = items.next() {
        push_item(text, &item)?;
        // Each item has a line, so the items are no more than the text's bytes.
        length_fits(text);
        count += 1;
    }
    writeln!(text, "items {count}")?;
    Ok(())
}

/// States that the length of a text fits `usize`, which a proof knows once the length is read.
fn length_fits<A: Allocator>(text: &String<A>)
    ensures { length (string_bytes text.now) < 2 ^ 64 }
{
    let _length = text.len();
}

/// Appends the lines of a configuration, or the line of the fault.
fn push_item<A: Allocator>(
    text: &mut String<A>,
    item: &Result<ConfigurationString<A>, ParseError>,
) -> Result<(), AllocError>
    ensures memory { OnOk result (item.now ≢ Err Memory) }
    ensures lines { OnOk result
        (AppendsText text.old text.new (item_lines (result_of item.now))) }
{
    match item {
        Ok(configuration) => push_configuration(text, configuration),
        Err(ParseError::Memory) => Err(AllocError),
        Err(fault) => push_fault(text, *fault),
    }
}

/// Appends the lines of a configuration: its header, and its elements.
fn push_configuration<A: Allocator>(
    text: &mut String<A>,
    configuration: &ConfigurationString<A>,
) -> Result<(), AllocError>
    ensures { OnOk result (AppendsText text.old text.new
        (configuration_lines (configuration_of configuration.now))) }
{
    push_header(text, configuration)?;
    push_alt(text, configuration.alt_cfg_id)?;
    push_elements(text, configuration.elements.as_slice())?;
    Ok(())
}

/// Appends the lines of the GUID, the name and the path of a configuration.
fn push_header<A: Allocator>(
    text: &mut String<A>,
    configuration: &ConfigurationString<A>,
) -> Result<(), AllocError>
    ensures { let c = configuration_of configuration.now in
        OnOk result (AppendsText text.old text.new (header_lines c.guid c.name c.path)) }
{
    let (guid, name) = (configuration.guid, configuration.name.as_str());
    let length = configuration.device_path.as_path().as_bytes().len();
    writeln!(text, "config {guid}\n  name {name}\n  path {length}")
}

/// Appends the line of the identifier of an alternative configuration.
#[tactic(auto, unfolding(crate::specs::Config::alt_line))]
fn push_alt<A: Allocator>(text: &mut String<A>, alt_cfg_id: Option<u16>) -> Result<(), AllocError>
    ensures { OnOk result (AppendsText text.old text.new (alt_line alt_cfg_id)) }
{
    match alt_cfg_id {
        Some(id) => writeln!(text, "  alt {id}"),
        None => Ok(()),
    }
}

/// Appends the lines of each element.
fn push_elements<A: Allocator>(
    text: &mut String<A>,
    elements: &[ConfigurationStringElement<A>],
) -> Result<(), AllocError>
    ensures { OnOk result (AppendsText text.old text.new
        (flat_map (λ element. element_lines (element_of element)) elements.now)) }
{
    for element in elements {
        push_element(text, element)?;
    }
    Ok(())
}

/// Appends the lines of an element: its own, and a line for each pair that it keeps.
fn push_element<A: Allocator>(
    text: &mut String<A>,
    element: &ConfigurationStringElement<A>,
) -> Result<(), AllocError>
    ensures { OnOk result (AppendsText text.old text.new (element_lines (element_of element.now))) }
{
    push_element_line(text, element)?;
    push_nvconfig(text, element.nvconfig.as_slice())?;
    Ok(())
}

/// Appends the line of an element without its pairs.
#[tactic(auto, unfolding(crate::specs::Config::element_line))]
fn push_element_line<A: Allocator>(
    text: &mut String<A>,
    element: &ConfigurationStringElement<A>,
) -> Result<(), AllocError>
    ensures { OnOk result (AppendsText text.old text.new (element_line (element_of element.now))) }
{
    let (offset, width) = (element.offset, element.width);
    let (gap, value) = (
        gap_before(element.value.as_slice()),
        Hex(element.value.as_slice()),
    );
    writeln!(text, "  element {offset} {width}{gap}{value}")
}

/// Appends a line for each pair.
fn push_nvconfig<A: Allocator>(
    text: &mut String<A>,
    nvconfig: &[NvPair<A>],
) -> Result<(), AllocError>
    ensures { OnOk result (AppendsText text.old text.new
        (flat_map (λ pair. nv_line (nv_pair_of pair)) nvconfig.now)) }
{
    for pair in nvconfig {
        push_nv_pair(text, pair)?;
    }
    Ok(())
}

/// Appends the line of a pair: its key, and its value if it has one.
fn push_nv_pair<A: Allocator>(text: &mut String<A>, pair: &NvPair<A>) -> Result<(), AllocError>
    ensures { OnOk result (AppendsText text.old text.new (nv_line (nv_pair_of pair.now))) }
{
    let key = pair.key.as_str();
    match &pair.value {
        Some(value) => {
            let value = value.as_str();
            writeln!(text, "  nv {key}={value}")
        }
        None => writeln!(text, "  nv {key}"),
    }
}

/// Appends the line that names a fault. Running out of memory is none, and has no line.
#[tactic(auto, unfolding(crate::specs::Config::fault_line))]
fn push_fault<A: Allocator>(text: &mut String<A>, fault: ParseError) -> Result<(), AllocError>
    ensures { OnOk result (AppendsText text.old text.new (fault_line fault)) }
{
    let line = match fault {
        ParseError::ConfigHdr(part) => {
            let name = section_name(part);
            return writeln!(text, "fault ConfigHdr({name})");
        }
        ParseError::BlockName => "fault BlockName\n",
        ParseError::BlockConfig => "fault BlockConfig\n",
        ParseError::Memory => "",
    };
    text.push_str(line)
}

/// Returns the name of a part of a header.
fn section_name(part: ConfigHdrSection) -> &'static str
    ensures { result.now ≡ section_name part }
{
    match part {
        ConfigHdrSection::Guid => "Guid",
        ConfigHdrSection::Name => "Name",
        ConfigHdrSection::Path => "Path",
        ConfigHdrSection::DescHdr => "DescHdr",
    }
}

/// Appends the listing of the bytes as a configuration text. Its configurations are read one after
/// another, and none is kept once its lines are appended.
///
/// # Errors
///
/// [`AllocError`] if an allocation fails. The text may have grown then.
pub(crate) fn push_config_listing<A: Allocator + Copy>(
    text: &mut String<A>,
    alloc: A,
    bytes: &[u8],
) -> Result<Outcome, AllocError>
    ensures { IfOk result (AppendsListing (ConfigListing bytes.now) text.old text.new) }
{
    match str::from_utf8(bytes) {
        Ok(input) => {
            push_configurations(text, MultiConfigurationStringIter::new(alloc, input))?;
            Ok(Outcome::Listed)
        }
        Err(_) => {
            writeln!(text, "refused NotUtf8")?;
            Ok(Outcome::Refused)
        }
    }
}
