use rows::hex_digits;
use std::alloc::{AllocError, Allocator, Global};
use test_support::Refusing;
use uefi_hii::{
    ConfigurationString, ConfigurationStringElement, MultiConfigurationStringIter, ParseError,
    parse_all,
};

/// A header with the name A and a path of 4 bytes.
const SHORT_HEADER: &str = "GUID=16d6474bd6a852459d44ccad2e0f4cf9&NAME=0041&PATH=7fff0400";

/// The header of the configurations of a firmware's driver, with a path of 24 bytes.
const ISCSI_HEADER: &str = "GUID=16d6474bd6a852459d44ccad2e0f4cf9\
    &NAME=00490053004300530049005f0043004f004e00460049004700\
    5f004900460052005f004e00560044004100540041\
    &PATH=0104140016d6474bd6a852459d44ccad2e0f4cf97fff0400";

/// Returns the text of an input, in which `@` stands for the short header, `#` for the driver's, and
/// `$` for a line break.
fn text_of(alloc: Global, input: &str) -> Result<String, AllocError> {
    let text = input.replace(alloc, '@', SHORT_HEADER)?;
    let text = text.as_str().replace(alloc, '#', ISCSI_HEADER)?;
    text.as_str().replace(alloc, '$', "\n")
}

/// Appends an element: its offset, its width, its value, and the pairs that it keeps.
fn push_element<A: Allocator>(
    alloc: Global,
    text: &mut String,
    element: &ConfigurationStringElement<A>,
) -> Result<(), AllocError> {
    let value = hex_digits(alloc, element.value.as_slice())?;
    write!(text, " ({}, {}, {value}", element.offset, element.width)?;
    for pair in element.nvconfig.as_slice() {
        let value = pair.value.as_ref().map(|value| value.as_str());
        write!(text, ", {:?}: {value:?}", pair.key.as_str())?;
    }
    text.push(')')
}

/// Appends what a reader gives: a configuration's name, the length of its path, its identifier and
/// its elements, or an error.
fn push_item<A: Allocator>(
    alloc: Global,
    text: &mut String,
    item: &Result<ConfigurationString<A>, ParseError>,
) -> Result<(), AllocError> {
    let configuration = match item {
        Ok(configuration) => configuration,
        Err(error) => return write!(text, "[{error:?}]"),
    };
    let name = configuration.name.as_str();
    let length = configuration.device_path.as_path().as_bytes().len();
    write!(text, "[{name}, {length}, {:?}", configuration.alt_cfg_id)?;
    for element in configuration.elements.as_slice() {
        push_element(alloc, text, element)?;
    }
    text.push(']')
}

/// Returns the items that `parse_all` gives, or `None` if memory ran out.
fn all_items<A: Allocator + Copy>(alloc: Global, heap: A, text: &str) -> Option<String> {
    let mut items = String::new(alloc);
    for item in parse_all(heap, text).ok()?.as_slice() {
        push_item(alloc, &mut items, item).ok()?;
    }
    Some(items)
}

/// Returns the items that the iterator gives before memory runs out, and whether it did. After both
/// it stays ended.
fn iterated<A: Allocator + Copy>(alloc: Global, heap: A, text: &str) -> Option<(String, bool)> {
    let mut items = String::new(alloc);
    let mut left = MultiConfigurationStringIter::new(heap, text);
    let mut ran_out = false;
    while let Some(item) = left.next() {
        if let Err(ParseError::Memory) = &item {
            ran_out = true;
            break;
        }
        push_item(alloc, &mut items, &item).ok()?;
    }
    if left.next().is_some() || left.next().is_some() {
        items.push_str(" and the iterator goes on").ok()?;
    }
    Some((items, ran_out))
}

/// Returns the items of a text: the same by `parse_all` and by the iterator, of which those before
/// memory runs out are the first.
pub(crate) fn items(alloc: Global, heap: &Refusing<Global>, input: &str) -> Option<String> {
    let text = text_of(alloc, input).ok()?;
    let all = all_items(alloc, alloc, text.as_str())?;
    let (items, ran_out) = iterated(alloc, heap, text.as_str())?;
    let is_first = all.as_str().starts_with(items.as_str());
    if !is_first || !ran_out && items != all {
        return format!(in alloc; "{all}, and by the iterator {items}").ok();
    }
    if ran_out {
        return None;
    }
    all_items(alloc, heap, text.as_str())
}

/// Returns the GUID of the first configuration of a text, and the configuration, or the error.
pub(crate) fn first(alloc: Global, heap: &Refusing<Global>, input: &str) -> Option<String> {
    let text = text_of(alloc, input).ok()?;
    let first = ConfigurationString::from_str(heap, text.as_str());
    let mut item = String::new(alloc);
    match &first {
        Ok(configuration) => write!(item, "{} ", configuration.guid).ok()?,
        Err(ParseError::Memory) => return None,
        Err(_) => (),
    }
    push_item(alloc, &mut item, &first).ok()?;
    Some(item)
}
