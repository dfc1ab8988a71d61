//! The GUIDs of the three records. Each is the constant of a type without a lifetime, from which the
//! record has it.

ghost use Rattle.uefi_records.specs.file.Identity.{file_info_guid, file_system_info_guid, volume_label_guid};

use uefi_base::{Guid, Identify};

/// The identity of a [`FileInfo`](crate::FileInfo).
pub struct FileInfoIdentity;

impl Identify for FileInfoIdentity {
    ghost GUID = { file_info_guid };

    const GUID: Guid = Guid([
        0x92, 0x6e, 0x57, 0x09, 0x3f, 0x6d, 0xd2, 0x11, 0x8e, 0x39, 0x00, 0xa0, 0xc9, 0x69, 0x72,
        0x3b,
    ]);
}

/// The identity of a [`FileSystemInfo`](crate::FileSystemInfo).
pub struct FileSystemInfoIdentity;

impl Identify for FileSystemInfoIdentity {
    ghost GUID = { file_system_info_guid };

    const GUID: Guid = Guid([
        0x93, 0x6e, 0x57, 0x09, 0x3f, 0x6d, 0xd2, 0x11, 0x8e, 0x39, 0x00, 0xa0, 0xc9, 0x69, 0x72,
        0x3b,
    ]);
}

/// The identity of a [`FileSystemVolumeLabel`](crate::FileSystemVolumeLabel).
pub struct FileSystemVolumeLabelIdentity;

impl Identify for FileSystemVolumeLabelIdentity {
    ghost GUID = { volume_label_guid };

    const GUID: Guid = Guid([
        0xd3, 0xd7, 0x47, 0xdb, 0x81, 0xfe, 0xd3, 0x11, 0x9a, 0x35, 0x00, 0x90, 0x27, 0x3f, 0xc1,
        0x4d,
    ]);
}
