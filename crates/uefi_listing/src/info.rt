//! What `info` lists of bytes, and what it refuses.

ghost use Rattle.std.specs.Prelude.{IfOk, OnOk, Some};
ghost use Rattle.uefi_base.specs.Appending.{AppendsText};
ghost use Rattle.uefi_base.specs.Views.{error_data};
ghost use Rattle.uefi_records.specs.file.Views.{stated_size, file_fields_of, file_name_of};
ghost use Rattle.uefi_records.specs.time.Views.{time_of};
ghost use Rattle.uefi_listing.specs.private.Appending.{AppendsListing};
ghost use Rattle.uefi_listing.specs.Info.{info_lines, stamp_text, refused_info_line, InfoListing};

use crate::listing::Outcome;
use shown::{Hex, HexName, HexNumber};
use std::alloc::{AllocError, Allocator};
use std::fmt;
use uefi_base::Error;
use uefi_records::{FileInfo, Time};

/// Appends the lines of a file information record: `size`, `file` and `physical` with sizes in
/// bytes in decimal; `created`, `accessed` and `modified` with the sixteen bytes of a time in hex;
/// `attribute` with `0x` and the bits in hex; last `name` with four hex digits for each unit of the
/// name but the NUL that ends it.
///
/// # Errors
///
/// [`AllocError`] if an allocation fails. The text may have grown then.
pub fn push_info<A: Allocator>(text: &mut String<A>, info: &FileInfo<'_>) -> Result<(), AllocError>
    ensures { OnOk result (AppendsText text.old text.new
        (info_lines (stated_size info.now) (file_fields_of info.now) (file_name_of info.now))) }
{
    let (size, file, physical) = (info.size(), info.file_size(), info.physical_size());
    let (created, accessed) = (Stamp(info.create_time()), Stamp(info.last_access_time()));
    let modified = Stamp(info.modification_time());
    let attribute = HexNumber(info.attribute().bits());
    let name = HexName(info.file_name());
    writeln!(
        text,
        "size {size}\nfile {file}\nphysical {physical}\n\
         created {created}\naccessed {accessed}\nmodified {modified}\n\
         attribute {attribute}\nname{name}"
    )
}

/// A time, displayed as its sixteen bytes in hex.
#[derive(Clone, Copy)]
struct Stamp(Time);

#[tactic(auto, unfolding(crate::specs::Info::stamp_text))]
impl fmt::Display for Stamp {
    ghost output = { λ stamp. Some (stamp_text (time_of stamp.0)) };

    fn fmt<W: fmt::Write>(&self, f: &mut fmt::Formatter<W>) -> fmt::Result {
        let bytes = self.0.to_bytes();
        let bytes = Hex(&bytes);
        write!(f, "{bytes}")
    }
}

/// Appends the listing of the file information record in the first `written` bytes.
///
/// # Errors
///
/// [`AllocError`] if an allocation fails. The text may have grown then.
pub(crate) fn push_info_listing<A: Allocator>(
    text: &mut String<A>,
    bytes: &[u8],
    written: usize,
) -> Result<Outcome, AllocError>
    ensures { IfOk result (AppendsListing (InfoListing written bytes.now) text.old text.new) }
{
    match FileInfo::from_uefi(bytes, written) {
        Ok(info) => {
            push_info(text, &info)?;
            Ok(Outcome::Listed)
        }
        Err(error) => {
            push_refusal(text, &error)?;
            Ok(Outcome::Refused)
        }
    }
}

/// Appends the line of a refusal.
fn push_refusal<A: Allocator>(
    text: &mut String<A>,
    error: &Error<Option<usize>>,
) -> Result<(), AllocError>
    ensures { OnOk result
        (AppendsText text.old text.new (refused_info_line (error_data error.now))) }
{
    match *error.data() {
        Some(size) => writeln!(text, "refused BUFFER_TOO_SMALL({size})"),
        None => writeln!(text, "refused BAD_BUFFER_SIZE"),
    }
}
