//! What `pci` lists of bytes, and what it refuses.

ghost use Rattle.std.specs.Prelude.{IfOk, OnOk, Some};
ghost use Rattle.uefi_base.specs.Appending.{AppendsText};
ghost use Rattle.uefi_map.specs.pci.Views.{resources_of};
ghost use Rattle.uefi_listing.specs.private.Appending.{AppendsListing};
ghost use Rattle.uefi_listing.specs.Pci.{kind_text, resource_line, resource_lines, fault_line, PciListing};

use crate::listing::Outcome;
use shown::HexNumber;
use std::alloc::{AllocError, Allocator};
use std::fmt;
use uefi_map::{QwordAddressSpaceDescriptor, ResourceError, ResourceList, ResourceRangeType};

/// Appends the lines of a list of PCI resources: for each range `resource KIND GENERAL SPECIFIC
/// GRANULARITY MIN MAX OFFSET LENGTH`, both flags in decimal, the numbers after them as `0x` and
/// hex; last `resources N`, the count of ranges.
///
/// KIND is `Memory`, `Io`, `Bus` or `Unknown(N)`.
///
/// # Errors
///
/// [`AllocError`] if an allocation fails. The text may have grown then.
pub fn push_resources<A: Allocator>(
    text: &mut String<A>,
    list: &ResourceList<'_>,
) -> Result<(), AllocError>
    ensures { OnOk result
        (AppendsText text.old text.new (resource_lines (resources_of list.now))) }
{
    for range in list.iter() {
        push_resource(text, &range)?;
    }
    let count = list.iter().len();
    writeln!(text, "resources {count}")
}

/// Appends the line of a range.
fn push_resource<A: Allocator>(
    text: &mut String<A>,
    range: &QwordAddressSpaceDescriptor,
) -> Result<(), AllocError>
    ensures { OnOk result (AppendsText text.old text.new (resource_line range.now)) }
{
    let kind = Kind(range.resource_range_type);
    let (general, specific) = (range.general_flags, range.type_specific_flags);
    let granularity = HexNumber(range.granularity);
    let (min, max) = (HexNumber(range.address_min), HexNumber(range.address_max));
    let offset = HexNumber(range.translation_offset);
    let length = HexNumber(range.address_length);
    writeln!(
        text,
        "resource {kind} {general} {specific} {granularity} {min} {max} {offset} {length}"
    )
}

/// The type of a range, displayed as its name, with its number if it has no name.
#[derive(Clone, Copy)]
struct Kind(ResourceRangeType);

#[tactic(auto, unfolding(crate::specs::Pci::kind_text))]
impl fmt::Display for Kind {
    ghost output = { λ kind. Some (kind_text kind.0) };

    fn fmt<W: fmt::Write>(&self, f: &mut fmt::Formatter<W>) -> fmt::Result {
        let name = match self.0 {
            ResourceRangeType::Memory => "Memory",
            ResourceRangeType::Io => "Io",
            ResourceRangeType::Bus => "Bus",
            ResourceRangeType::Unknown(number) => return write!(f, "Unknown({number})"),
        };
        f.write_str(name)
    }
}

/// Appends the listing of the PCI resources that the bytes begin with.
///
/// # Errors
///
/// [`AllocError`] if an allocation fails. The text may have grown then.
pub(crate) fn push_pci_listing<A: Allocator>(
    text: &mut String<A>,
    bytes: &[u8],
) -> Result<Outcome, AllocError>
    ensures { IfOk result (AppendsListing (PciListing bytes.now) text.old text.new) }
{
    match ResourceList::try_from(bytes) {
        Ok(list) => {
            push_resources(text, &list)?;
            Ok(Outcome::Listed)
        }
        Err(fault) => {
            push_fault(text, fault)?;
            Ok(Outcome::Refused)
        }
    }
}

/// Appends the line that names a fault. Running out of memory is none, and has no line.
fn push_fault<A: Allocator>(text: &mut String<A>, fault: ResourceError) -> Result<(), AllocError>
    ensures { OnOk result (AppendsText text.old text.new (fault_line fault)) }
{
    match fault {
        ResourceError::NoEndTag => writeln!(text, "refused NoEndTag"),
        ResourceError::CutRecord => writeln!(text, "refused CutRecord"),
        ResourceError::UnknownTag(tag) => writeln!(text, "refused UnknownTag({tag})"),
        ResourceError::Memory => Ok(()),
    }
}
