ghost use Rattle.std.specs.Prelude.{◌≡◌};
ghost use Rattle.uefi_path.specs.Node.{IsEnd, IsEndEntire};
ghost use Rattle.uefi_path.specs.private.Encoding.{IsEncodingOfNodes, EncodesPath, EncodesInstance};
ghost use Rattle.uefi_path.specs.private.OnePath.{EncodesPath-prop, EncodesInstance-prop};
ghost use Rattle.uefi_path.specs.Reading.{ReadsPath};

use crate::error::ByteConversionError;
use crate::instance::DevicePathInstance;
use crate::path::DevicePath;
use crate::walk::{StopCondition, split_nodes};
use std::alloc::{Allocator, Global};

/// A device path that owns its bytes: the owned form of [`DevicePath`], made by
/// [`DevicePath::to_boxed`].
#[derive(Drop)]
pub struct BoxedDevicePath<A: Allocator = Global> {
    bytes: Vec<u8, A>,
    pub ghost nodes: { EncodesPath bytes.items } by { EncodesPath-prop bytes.items },
}

/// An instance of a device path that owns its bytes: the owned form of [`DevicePathInstance`], made
/// by [`DevicePathInstance::to_boxed`].
#[derive(Drop)]
pub struct BoxedDevicePathInstance<A: Allocator = Global> {
    bytes: Vec<u8, A>,
    pub ghost nodes: { EncodesInstance bytes.items } by { EncodesInstance-prop bytes.items },
}

impl<A: Allocator> BoxedDevicePath<A> {
    ghost use Rattle.uefi_path.specs.Views.{path_nodes, boxed_nodes};

    /// Returns the path that `bytes`, which are known to be a path, encode.
    pub(crate) fn new_unchecked(bytes: Vec<u8, A>) -> BoxedDevicePath<A>
        requires { EncodesPath bytes.items }
        ensures { IsEncodingOfNodes IsEndEntire bytes.items (boxed_nodes result) }
    {
        BoxedDevicePath { bytes }
    }

    /// Returns a view of the path that this box owns.
    #[tactic(auto, using(crate::specs::private::OnePath::same_nodes))]
    pub fn as_path(&self) -> DevicePath<'_>
        ensures { path_nodes result ≡ boxed_nodes self.now }
    {
        DevicePath::new_unchecked(self.bytes.as_slice())
    }
}

/// Keeps the path that the bytes start with, where they stand, and drops the bytes after it. This
/// takes no memory.
///
/// # Errors
///
/// [`ByteConversionError::InvalidLength`] if no prefix of the bytes is a path: exactly where
/// `DevicePath::try_from` fails.
impl<A: Allocator> TryFrom<Vec<u8, A>> for BoxedDevicePath<A> {
    ghost use Rattle.uefi_path.specs.Views.{boxed_nodes};

    type Error = ByteConversionError;

    ghost try_from_gives = { λ bytes read. ReadsPath boxed_nodes bytes.items read };

    fn try_from(mut bytes: Vec<u8, A>) -> Result<BoxedDevicePath<A>, ByteConversionError> {
        let (path, _) = split_nodes(bytes.as_slice(), StopCondition::EndEntireNode)?;
        let length = path.len();
        bytes.truncate(length);
        Ok(BoxedDevicePath::new_unchecked(bytes))
    }
}

impl<A: Allocator> BoxedDevicePathInstance<A> {
    ghost use Rattle.uefi_path.specs.Views.{instance_nodes, boxed_instance_nodes};

    /// Returns the instance that `bytes`, which are known to be an instance, encode.
    pub(crate) fn new_unchecked(bytes: Vec<u8, A>) -> BoxedDevicePathInstance<A>
        requires { EncodesInstance bytes.items }
        ensures { IsEncodingOfNodes IsEnd bytes.items (boxed_instance_nodes result) }
    {
        BoxedDevicePathInstance { bytes }
    }

    /// Returns a view of the instance that this box owns.
    #[tactic(auto, using(crate::specs::private::OnePath::same_nodes))]
    pub fn as_instance(&self) -> DevicePathInstance<'_>
        ensures { instance_nodes result ≡ boxed_instance_nodes self.now }
    {
        DevicePathInstance::new_unchecked(self.bytes.as_slice())
    }
}
