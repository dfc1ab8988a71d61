//! The nodes of UEFI device paths by their types, read and written (UEFI 2.10, 10.3.1 to 10.3.6).
//!
//! A node has a type, a subtype and data. Here each type of the standard is a struct with its
//! fields.
//!
//! Begin with [`DevicePathNodeExt::as_enum`], which returns a node of a path as the value of its
//! type, or with `TryFrom`, such as [`HardDrive::try_from`](media::HardDrive), for a type that is
//! known. Values are pushed to a `uefi_path::build::DevicePathBuilder`. Nothing allocates.
//!
//! The contracts speak of layouts: `specs/Layout.antt` defines what a layout is, and one definition
//! for each type, such as `hard_drive` in `specs/Media.antt`, has its fields in order.
#![tactic(auto)]

pub use self::error::NodeConversionError;
pub use self::node_enum::{DevicePathNodeEnum, DevicePathNodeExt};

pub mod acpi;
mod as_enum;
pub mod bios_boot_spec;
pub mod end;
mod error;
pub mod hardware;
pub mod laws;
pub mod media;
pub mod messaging;
mod node_enum;
mod read;
mod strings;
mod write;
