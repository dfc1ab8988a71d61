ghost use Rattle.std.specs.Prelude.{◌^◌, ◌<◌, length};
ghost use Rattle.std.specs.Iterator.{YieldsFirstBy, item_count};
ghost use Rattle.uefi_path.specs.private.Encoding.{IsEncodingOfInstances, EncodesInstances};
ghost use Rattle.uefi_path.specs.private.OnePath.{EncodesInstances-prop};

use crate::instance::DevicePathInstance;
use crate::walk::{StopCondition, split_nodes};
use std::iter::FusedIterator;
use uefi_base::buffer::length_fits;

/// An iterator over the instances of a path, in order.
///
/// Each instance lives as long as the source bytes, and may outlive the iterator. After the last
/// instance the iterator returns `None` forever.
#[derive(Clone, Copy)]
pub struct DevicePathInstanceIterator<'a> {
    rest: &'a [u8],
    pub ghost instances: { EncodesInstances rest.now } by { EncodesInstances-prop rest.now },
}

impl<'a> DevicePathInstanceIterator<'a> {
    /// Returns an iterator over the instances in `rest`.
    pub(crate) fn new(rest: &'a [u8]) -> DevicePathInstanceIterator<'a>
        requires { EncodesInstances rest.now }
        ensures instances { IsEncodingOfInstances rest.now result.instances.0 }
        ensures countable { length rest.now < 2 ^ 64 }
    {
        length_fits(rest);
        DevicePathInstanceIterator { rest }
    }
}

impl<'a> Iterator for DevicePathInstanceIterator<'a> {
    ghost use Rattle.uefi_path.specs.Views.{instance_nodes, instances_left};

    type Item = DevicePathInstance<'a>;

    ghost next_gives = { YieldsFirstBy instance_nodes instances_left };

    ghost remaining = { item_count instances_left };

    fn next(&mut self) -> Option<DevicePathInstance<'a>> {
        let (instance, after) = split_nodes(self.rest, StopCondition::AnyEndNode).ok()?;
        *self = DevicePathInstanceIterator::new(after);
        Some(DevicePathInstance::new_unchecked(instance))
    }
}

impl<'a> FusedIterator for DevicePathInstanceIterator<'a> {}
