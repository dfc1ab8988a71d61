use std::alloc::{AllocError, Global};

/// A header with the name A and a path of 4 bytes.
const SHORT_HEADER: &str = "GUID=16d6474bd6a852459d44ccad2e0f4cf9&NAME=0041&PATH=7fff0400";

/// The header of the configurations of a firmware's driver, with a path of 24 bytes.
const ISCSI_HEADER: &str = "GUID=16d6474bd6a852459d44ccad2e0f4cf9\
    &NAME=00490053004300530049005f0043004f004e00460049004700\
    5f004900460052005f004e00560044004100540041\
    &PATH=0104140016d6474bd6a852459d44ccad2e0f4cf97fff0400";

/// Returns the text of a row, in which `@` stands for the short header, and `#` for the driver's.
pub(crate) fn text_of(alloc: Global, row: &str) -> Result<String, AllocError> {
    let text = row.replace(alloc, '@', SHORT_HEADER)?;
    text.as_str().replace(alloc, '#', ISCSI_HEADER)
}
