//! What `map` lists of bytes, and what it refuses.

ghost use Rattle.std.specs.Prelude.{◌≡◌, flat_map, IfOk, OnOk};
ghost use Rattle.uefi_base.specs.Appending.{AppendsText};
ghost use Rattle.uefi_map.specs.memory.Map.{entries_of};
ghost use Rattle.uefi_map.specs.memory.Views.{ref_bytes, ref_meta};
ghost use Rattle.uefi_listing.specs.private.Appending.{AppendsListing};
ghost use Rattle.uefi_listing.specs.Map.{entry_line, yes_or_no, file_meta, AppendsMapLines, MapListing};

use crate::listing::Outcome;
use shown::HexNumber;
use std::alloc::{AllocError, Allocator};
use uefi_map::{MemoryDescriptor, MemoryMap, MemoryMapMeta, MemoryMapRef};

/// Appends the lines of a memory map: for each descriptor `entry TYPE PHYS VIRT PAGES ATTRIBUTES`,
/// type and page count in decimal, the others as `0x` and hex; `sorted yes` or `sorted no`, as the
/// descriptors are in the order of their addresses or not; last `entries N`, their count.
///
/// # Errors
///
/// [`AllocError`] if an allocation fails. The text may have grown then.
pub fn push_map<A: Allocator>(
    text: &mut String<A>,
    map: &MemoryMapRef<'_>,
) -> Result<(), AllocError>
    ensures { OnOk result
        (AppendsMapLines text.old text.new (ref_bytes map.now) (ref_meta map.now)) }
{
    push_entries(text, map)?;
    let (sorted, count) = (yes_or_no(map.is_sorted()), map.entries().len());
    writeln!(text, "sorted {sorted}\nentries {count}")?;
    Ok(())
}

/// Appends the lines of a map's entries.
fn push_entries<A: Allocator>(
    text: &mut String<A>,
    map: &MemoryMapRef<'_>,
) -> Result<(), AllocError>
    ensures { OnOk result (AppendsText text.old text.new
        (flat_map entry_line (entries_of (ref_bytes map.now) (ref_meta map.now)))) }
{
    for entry in map.entries() {
        push_entry(text, &entry)?;
    }
    Ok(())
}

/// Appends the line of an entry.
fn push_entry<A: Allocator>(
    text: &mut String<A>,
    entry: &MemoryDescriptor,
) -> Result<(), AllocError>
    ensures { OnOk result (AppendsText text.old text.new (entry_line entry.now)) }
{
    let (ty, pages) = (entry.ty.0, entry.page_count);
    let (start, virt_start) = (HexNumber(entry.phys_start), HexNumber(entry.virt_start));
    let attributes = HexNumber(entry.att.bits());
    writeln!(text, "entry {ty} {start} {virt_start} {pages} {attributes}")
}

/// Returns the word for a truth value.
fn yes_or_no(value: bool) -> &'static str
    ensures { result.now ≡ yes_or_no value }
{
    if value { "yes" } else { "no" }
}

/// Appends the listing of all the bytes as a memory map at this stride.
///
/// # Errors
///
/// [`AllocError`] if an allocation fails. The text may have grown then.
pub(crate) fn push_map_listing<A: Allocator>(
    text: &mut String<A>,
    bytes: &[u8],
    stride: usize,
) -> Result<Outcome, AllocError>
    ensures { IfOk result (AppendsListing (MapListing stride bytes.now) text.old text.new) }
{
    match MemoryMapRef::new(bytes, file_meta(bytes.len(), stride)) {
        Ok(map) => {
            push_map(text, &map)?;
            Ok(Outcome::Listed)
        }
        Err(_) => {
            writeln!(text, "refused InvalidSize")?;
            Ok(Outcome::Refused)
        }
    }
}

/// Returns the metadata of a file of this length as a memory map at this stride.
fn file_meta(map_size: usize, desc_size: usize) -> MemoryMapMeta
    ensures { result ≡ file_meta map_size desc_size }
{
    MemoryMapMeta {
        desc_version: MemoryDescriptor::VERSION,
        ..MemoryMapMeta::of(map_size, desc_size)
    }
}
