use crate::tests::samples::text_of;
use std::alloc::{Allocator, Global};
use std::test::Fail;
use test_support::{Refusing, holds, in_turn, same, without_request};
use uefi_hii::{
    ConfigHdrSection, ConfigurationString, MultiConfigurationStringIter, ParseError, parse_all,
};

/// Returns how many elements a configuration has, or the error; or `None` if memory ran out.
fn length_of<A: Allocator>(
    item: &Result<ConfigurationString<A>, ParseError>,
) -> Option<Result<usize, ParseError>> {
    match item {
        Ok(configuration) => Some(Ok(configuration.elements.len())),
        Err(ParseError::Memory) => None,
        Err(error) => Some(Err(*error)),
    }
}

/// Returns that of the item that `from_str` gives.
fn first<A: Allocator + Copy>(heap: A, text: &str) -> Option<Result<usize, ParseError>> {
    length_of(&ConfigurationString::from_str(heap, text))
}

/// Returns that of the iterator's first item.
fn iterated<A: Allocator + Copy>(heap: A, text: &str) -> Option<Result<usize, ParseError>> {
    length_of(&MultiConfigurationStringIter::new(heap, text).next()?)
}

#[test]
fn a_wrong_guid_is_an_error_though_memory_is_refused(rt: HostRuntime) -> Result<(), Fail> {
    let error = Some(Err(ParseError::ConfigHdr(ConfigHdrSection::Guid)));
    for text in ["GUID=00", "X", "NAME=0041"] {
        without_request(rt.alloc(), &error, |heap| iterated(heap, text))?;
        without_request(rt.alloc(), &error, |heap| first(heap, text))?;
    }
    without_request(rt.alloc(), &error, |heap| first(heap, ""))
}

/// The pair that every configuration begins with.
const GUID_PAIR: &str = "GUID=16d6474bd6a852459d44ccad2e0f4cf9";

/// Pairs that are read, a pair after them that is missing or wrong for a slot whose value needs no
/// memory, and its error.
const WRONG_SLOTS: [(&str, &str, ParseError); 17] = [
    (
        GUID_PAIR,
        "&NAMES=0041",
        ParseError::ConfigHdr(ConfigHdrSection::Name),
    ),
    (
        GUID_PAIR,
        "&PATH=7fff0400",
        ParseError::ConfigHdr(ConfigHdrSection::Name),
    ),
    (
        "@",
        "&ALTCFG=112233",
        ParseError::ConfigHdr(ConfigHdrSection::DescHdr),
    ),
    (
        "@",
        "&ALTCFG",
        ParseError::ConfigHdr(ConfigHdrSection::DescHdr),
    ),
    ("@", "&WIDTH=01", ParseError::BlockName),
    ("@", "&OFFSET=112233", ParseError::BlockName),
    ("@&ALTCFG=0001", "&OFFSET", ParseError::BlockName),
    ("@&OFFSET=00", "&WIDTH=112233", ParseError::BlockName),
    ("@&OFFSET=00", "&VALUE=00", ParseError::BlockName),
    ("@&OFFSET=00", "", ParseError::BlockName),
    ("@&OFFSET=00&WIDTH=01", "", ParseError::BlockConfig),
    ("@&OFFSET=00&WIDTH=01", "&VALUE", ParseError::BlockConfig),
    ("@&OFFSET=00&WIDTH=01", "&x=1", ParseError::BlockConfig),
    // After an element, and after the pairs that it keeps.
    (
        "@&OFFSET=00&WIDTH=01&VALUE=1122",
        "&OFFSET=112233",
        ParseError::BlockName,
    ),
    (
        "@&OFFSET=00&WIDTH=01&VALUE=1122&x=1&y",
        "&OFFSET=00&WIDTH=112233",
        ParseError::BlockName,
    ),
    (
        "#&OFFSET=00&WIDTH=01&VALUE=1122&OFFSET=02&WIDTH=01&VALUE=33",
        "&OFFSET=04&WIDTH=01&VALUE",
        ParseError::BlockConfig,
    ),
    (
        "@&OFFSET=00&WIDTH=01&VALUE=1122",
        "&OFFSET=02&WIDTH=01",
        ParseError::BlockConfig,
    ),
];

/// Returns how many requests are granted, and none refused, where the first item of the text is
/// read.
fn requests_of(alloc: Global, text: &str) -> Result<u64, Fail> {
    let length = first(alloc, text).ok_or("memory")?;
    in_turn(alloc, &length, |heap| first(heap, text))
}

/// Checks that the error is the first item, where so many requests are granted and every later one
/// is refused.
fn check_error(alloc: Global, granted: u64, text: &str, error: ParseError) -> Result<(), Fail> {
    let error = Some(Err(error));
    let heap = Refusing::after(alloc, granted);
    same(text, &first(&heap, text), &error)?;
    holds("no request of from_str is refused", heap.is_waiting())?;
    let heap = Refusing::after(alloc, granted);
    same(text, &iterated(&heap, text), &error)?;
    holds("no request of the iterator is refused", heap.is_waiting())
}

/// Returns the error of the iterator's first item.
fn iterated_error<A: Allocator + Copy>(heap: A, text: &str) -> Option<ParseError> {
    MultiConfigurationStringIter::new(heap, text).next()?.err()
}

/// Checks that memory runs out in the first item, where each of so many requests in turn is the
/// first that is refused.
fn check_memory(alloc: Global, requests: u64, text: &str) -> Result<(), Fail> {
    let memory = Some(ParseError::Memory);
    for granted in 0..requests {
        let heap = Refusing::after(alloc, granted);
        same(
            text,
            &ConfigurationString::from_str(&heap, text).err(),
            &memory,
        )?;
        let heap = Refusing::after(alloc, granted);
        same(text, &iterated_error(&heap, text), &memory)?;
        let heap = Refusing::after(alloc, granted);
        holds(
            "parse_all runs out of memory",
            parse_all(&heap, text).is_err(),
        )?;
    }
    Ok(())
}

/// Checks a row: the error comes before the requests of later pairs, and after those of the pairs
/// before it.
fn check_wrong_slot(alloc: Global, row: &(&str, &str, ParseError)) -> Result<(), Fail> {
    let &(before, wrong, error) = row;
    let before = text_of(alloc, before)?;
    let requests = requests_of(alloc, before.as_str())?;
    let text = format!(in alloc; "{}{wrong}", before.as_str())?;
    check_error(alloc, requests, text.as_str(), error)?;
    check_memory(alloc, requests, text.as_str())
}

#[test]
fn an_error_comes_in_the_order_of_the_requests(rt: HostRuntime) -> Result<(), Fail> {
    for row in &WRONG_SLOTS {
        check_wrong_slot(rt.alloc(), row)?;
    }
    Ok(())
}

/// Returns whether the text in hex spells a name, or `None` if memory ran out.
fn is_name<A: Allocator + Copy>(alloc: A, text: &str) -> Option<bool> {
    let found = ConfigurationString::parse_string_from_hex(alloc, text).ok()?;
    Some(found.is_some())
}

/// What follows a good name where the path's pair is missing, or has no value.
const WITHOUT_PATH: [&str; 4] = ["", "&", "&PATH", "&&PATH=7fff0400"];

#[test]
fn a_missing_path_comes_after_the_requests_of_the_name(rt: HostRuntime) -> Result<(), Fail> {
    let alloc = rt.alloc();
    let requests = in_turn(alloc, &true, |heap| is_name(heap, "0041"))?;
    for after in &WITHOUT_PATH {
        let text = format!(in alloc; "{GUID_PAIR}&NAME=0041{after}")?;
        let error = ParseError::ConfigHdr(ConfigHdrSection::Path);
        check_error(alloc, requests, text.as_str(), error)?;
        check_memory(alloc, requests, text.as_str())?;
    }
    Ok(())
}

#[test]
fn a_wrong_key_for_the_name_is_an_error_though_memory_is_refused(
    rt: HostRuntime,
) -> Result<(), Fail> {
    let alloc = rt.alloc();
    let error = Some(Err(ParseError::ConfigHdr(ConfigHdrSection::Name)));
    for wrong in ["&NAMES=0041", "&name=0041", "&PATH=7fff0400", "&NAME", "&"] {
        let text = format!(in alloc; "{GUID_PAIR}{wrong}&PATH=7fff0400")?;
        without_request(alloc, &error, |heap| iterated(heap, text.as_str()))?;
        without_request(alloc, &error, |heap| first(heap, text.as_str()))?;
    }
    Ok(())
}

/// Checks that an iterator over the text is made without a request for memory.
fn check_made(alloc: Global, text: &str) -> Result<(), Fail> {
    without_request(alloc, &true, |heap| {
        let _items = MultiConfigurationStringIter::new(heap, text);
        true
    })
}

#[test]
fn an_iterator_is_made_without_memory(rt: HostRuntime) -> Result<(), Fail> {
    let alloc = rt.alloc();
    for row in ["", "GUID=00&@", "#&OFFSET=00&WIDTH=01&VALUE=1122&x=1&@"] {
        check_made(alloc, text_of(alloc, row)?.as_str())?;
    }
    without_request(
        alloc,
        &true,
        |heap| MultiConfigurationStringIter::new(heap, "").next().is_none(),
    )
}
