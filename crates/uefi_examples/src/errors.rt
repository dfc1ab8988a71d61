//! The libraries' errors in a function that returns `anyhow::Result`: each converts by `?`.

ghost use Rattle.std.specs.Prelude.{length, take, ℕ, List, ◌≡◌, IsOk};
ghost use Rattle.uefi_base.specs.Ucs2.{IsUcs2Text};
ghost use Rattle.uefi_map.specs.memory.Map.{IsMap};

use anyhow::Result;
use uefi_base::CStr16;
use uefi_map::{MemoryMapMeta, MemoryMapRef, ResourceList};
use uefi_path::DevicePath;
use uefi_records::{FileInfo, Time};

/// Reads a path, and a file information record of which `written` bytes were written.
///
/// # Errors
///
/// The text of the first error.
pub fn read_file(path: &[u8], record: &[u8], written: usize) -> Result<()> {
    DevicePath::try_from(path)?;
    let info = FileInfo::from_uefi(record, written)?;
    Time::try_from(info.create_time().to_bytes().as_slice())?;
    Ok(())
}

/// Tests that units are text.
///
/// # Errors
///
/// The text of the error that the units have.
pub fn check_text(units: &[u16]) -> Result<()>
    ensures { IsOk result → IsUcs2Text units.now }
{
    CStr16::from_u16_with_nul(units)?;
    Ok(())
}

/// Tests that bytes are a memory map at the stride, and others begin with a list of resources.
///
/// # Errors
///
/// The text of the first error.
pub fn check_map(map: &[u8], stride: usize, resources: &[u8]) -> Result<()> {
    MemoryMapRef::new(map, MemoryMapMeta::of(map.len(), stride))?;
    ResourceList::try_from(resources)?;
    Ok(())
}
