ghost use Rattle.std.specs.Prelude.{◌^◌, ◌<◌, length};
ghost use Rattle.std.specs.Iterator.{YieldsFirstBy, item_count};
ghost use Rattle.uefi_path.specs.private.Stop.{Stops, Stops-prop};
ghost use Rattle.uefi_path.specs.private.Encoding.{IsEncodingOfNodes, EncodesNodes};
ghost use Rattle.uefi_path.specs.private.OnePath.{EncodesNodes-prop};

use crate::node::DevicePathNode;
use crate::walk::{StopCondition, split_node};
use std::iter::FusedIterator;
use uefi_base::buffer::length_fits;

/// An iterator over the nodes of a path or of an instance, in order, without the last one.
///
/// Each node lives as long as the source bytes, and may outlive the iterator. After the last node
/// the iterator returns `None` forever.
#[derive(Clone, Copy)]
pub struct DevicePathNodeIterator<'a> {
    rest: &'a [u8],
    stop: StopCondition,
    pub ghost nodes: { EncodesNodes (Stops stop) rest.now } by { EncodesNodes-prop (Stops stop) (Stops-prop stop) rest.now },
}

impl<'a> DevicePathNodeIterator<'a> {
    /// Returns an iterator over the nodes in `rest`, up to the one at which the walk stops.
    pub(crate) fn new(rest: &'a [u8], stop: StopCondition) -> DevicePathNodeIterator<'a>
        requires { EncodesNodes (Stops stop) rest.now }
        ensures nodes { IsEncodingOfNodes (Stops stop) rest.now result.nodes.0 }
        ensures countable { length rest.now < 2 ^ 64 }
    {
        length_fits(rest);
        DevicePathNodeIterator { rest, stop }
    }
}

impl<'a> Iterator for DevicePathNodeIterator<'a> {
    ghost use Rattle.uefi_path.specs.Views.{node_of, nodes_left};

    type Item = DevicePathNode<'a>;

    ghost next_gives = { YieldsFirstBy node_of nodes_left };

    ghost remaining = { item_count nodes_left };

    fn next(&mut self) -> Option<DevicePathNode<'a>> {
        let (node, after) = split_node(self.rest).ok()?;
        if self.stop.stops_at(&node) {
            return None;
        }
        *self = DevicePathNodeIterator::new(after, self.stop);
        Some(node)
    }
}

impl<'a> FusedIterator for DevicePathNodeIterator<'a> {}
