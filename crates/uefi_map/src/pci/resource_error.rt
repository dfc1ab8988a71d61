ghost use Rattle.std.specs.Prelude.{◌≡◌, Some};
ghost use Rattle.uefi_map.specs.pci.Texts.{resource_error_text};
ghost use Rattle.uefi_map.specs.declared.pci.resource_error.ResourceError.TheVariants.{Memory};

use std::alloc::AllocError;
use std::error::Error;
use std::fmt;

/// The error of bytes that begin with no list of resources.
///
/// The first offset decides at which neither a whole record nor the end tag begins.
#[derive(Clone, Copy, PartialEq, Eq, Debug)]
pub enum ResourceError {
    /// The bytes end at that offset.
    NoEndTag,
    /// A record begins at that offset, and the bytes end before it does.
    CutRecord,
    /// This byte is at that offset. It is neither the tag of a record nor the end tag.
    UnknownTag(u8),
    /// An allocation failed. The bytes begin with a list.
    Memory,
}

/// Writes what is missing, or the byte that is no tag as a decimal number.
impl fmt::Display for ResourceError {
    ghost output = { λ error. Some (resource_error_text error) };

    fn fmt<W: fmt::Write>(&self, f: &mut fmt::Formatter<W>) -> fmt::Result {
        match self {
            ResourceError::NoEndTag => f.write_str("no end tag"),
            ResourceError::CutRecord => f.write_str("a record is cut off"),
            ResourceError::UnknownTag(tag) => write!(f, "unknown tag {tag}"),
            ResourceError::Memory => f.write_str("out of memory"),
        }
    }
}

impl Error for ResourceError {}

/// An allocation that fails is [`ResourceError::Memory`].
impl From<AllocError> for ResourceError {
    ghost from_gives = { λ _ error. error ≡ Memory };

    fn from(_error: AllocError) -> ResourceError {
        ResourceError::Memory
    }
}
