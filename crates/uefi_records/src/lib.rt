//! Times, and the records in which UEFI firmware describes files and file systems (UEFI 2.10, 8.3
//! and 13.5).
//!
//! - [`Time`]: sixteen bytes. Begin with [`Time::try_from`] or [`Time::new`].
//! - [`FileInfo`], [`FileSystemInfo`] and [`FileSystemVolumeLabel`]: views of records. Begin with
//!   [`FileInfo::from_uefi`] to read one, and with [`FileInfo::new`] to write one.
//! - [`Daylight`] and [`FileAttribute`]: sets of flags.
//!
//! The contracts promise for all bytes: a reader returns the time or the record in them, or the
//! error that they have; a writer changes the bytes of the record alone; what was written reads
//! back ([`laws`]). Nothing here allocates memory. `specs/` has the definitions, in the order of
//! its `Lib.antt`.
#![tactic(auto)]

pub use self::file::{
    FileInfo, FileInfoCreationError, FileProtocolInfo, FileSystemInfo, FileSystemVolumeLabel,
    first_zero_unit, write_file_info, write_file_system_info, write_file_system_volume_label,
};
pub use self::flags::{Daylight, FileAttribute};
pub use self::time::{Time, TimeByteConversionError, TimeError, TimeParams};

// A time, its parts and its errors.
mod time;

// Sets of flags.
mod flags;

// The records.
mod file;

// What holds of times and of all records.
pub mod laws;
