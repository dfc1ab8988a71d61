ghost use Rattle.std.specs.Prelude.{Some};
ghost use Rattle.uefi_map.specs.memory.Texts.{map_error_text};

use std::error::Error;
use std::fmt;

/// The error of bytes that are no memory map.
#[derive(Clone, Copy, Debug)]
pub enum MemoryMapError {
    /// The address of the bytes isn't a multiple of 8. No call returns it, since none sees an
    /// address.
    Misaligned,
    /// The sizes make no map of the bytes ([`MemoryMapMeta::is_map_within`](crate::MemoryMapMeta)).
    InvalidSize,
}

/// The name of the error.
impl fmt::Display for MemoryMapError {
    ghost output = { λ error. Some (map_error_text error) };

    fn fmt<W: fmt::Write>(&self, f: &mut fmt::Formatter<W>) -> fmt::Result {
        f.write_str(match self {
            MemoryMapError::Misaligned => "Misaligned",
            MemoryMapError::InvalidSize => "InvalidSize",
        })
    }
}

impl Error for MemoryMapError {}
