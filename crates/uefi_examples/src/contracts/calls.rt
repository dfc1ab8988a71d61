use super::configuration::first_value_at;
use super::file::file_size_in;
use super::map::region_at;
use super::path::goes_over_medium;
use super::pcr::events_of_pcr;
use super::resources::is_decoded;
use super::time::year_in;
use std::rt::Files;
use std::{fs, io};
use uefi_map::MemoryMapMeta;
use uefi_tcg::PcrIndex;

/// Prints the types of the events of a log that are of a PCR. The last event of the log may
/// start anywhere, so every whole event counts.
pub fn print_types<R: Files + Print + AllocGlobal>(rt: &R, file: &str, pcr: u32) -> io::Result<()> {
    let bytes = fs::read(rt, file)?;
    let pcr = PcrIndex(pcr);
    let events = events_of_pcr(rt.alloc(), bytes.as_slice(), bytes.len(), pcr)?;
    for event in events.iter() {
        println!(rt; "{}", event.event_type().0)?;
    }
    Ok(())
}

/// Prints whether the device path in a file goes over a medium.
pub fn print_medium<R: Files + Print + AllocGlobal>(rt: &R, file: &str) -> anyhow::Result<()> {
    let bytes = fs::read(rt, file)?;
    let found = goes_over_medium(bytes.as_slice())?;
    println!(rt; "{found}")?;
    Ok(())
}

/// Prints where the region of an address begins, in a memory map with descriptors of 48 bytes.
pub fn print_region<R: Files + Print + AllocGlobal>(
    rt: &R,
    file: &str,
    address: u64,
) -> anyhow::Result<()> {
    let bytes = fs::read(rt, file)?;
    let meta = MemoryMapMeta::of(bytes.len(), 48);
    if let Some(region) = region_at(bytes.as_slice(), meta, address) {
        println!(rt; "{} of type {}", region.phys_start, region.ty.0)?;
    }
    Ok(())
}

/// Prints whether a range of a PCI resource list has an address.
pub fn print_decoded<R: Files + Print + AllocGlobal>(
    rt: &R,
    file: &str,
    address: u64,
) -> anyhow::Result<()> {
    let bytes = fs::read(rt, file)?;
    let found = is_decoded(rt.alloc(), bytes.as_slice(), address)?;
    println!(rt; "{found}")?;
    Ok(())
}

/// Prints the year of a time.
pub fn print_year<R: Files + Print + AllocGlobal>(rt: &R, file: &str) -> anyhow::Result<()> {
    let bytes = fs::read(rt, file)?;
    let year = year_in(bytes.as_slice())?;
    println!(rt; "{year}")?;
    Ok(())
}

/// Prints the size that a file information record states, of which all bytes were written.
pub fn print_size<R: Files + Print + AllocGlobal>(rt: &R, file: &str) -> anyhow::Result<()> {
    let bytes = fs::read(rt, file)?;
    if let Some(size) = file_size_in(bytes.as_slice(), bytes.len()) {
        println!(rt; "{size}")?;
    }
    Ok(())
}

/// Prints the value at an offset of the first configuration of a text, the lowest byte first.
pub fn print_value<R: Files + Print + AllocGlobal>(
    rt: &R,
    file: &str,
    offset: u64,
) -> anyhow::Result<()> {
    let text = fs::read_to_string(rt, file)?;
    if let Some(value) = first_value_at(rt.alloc(), text.as_str(), offset)? {
        println!(rt; "{value:?}")?;
    }
    Ok(())
}
