//! What `path` lists of bytes, and what it refuses.

ghost use Rattle.std.specs.Prelude.{IfOk, OnOk};
ghost use Rattle.uefi_base.specs.Appending.{AppendsText};
ghost use Rattle.uefi_path.specs.Views.{node_of, instance_nodes, path_nodes};
ghost use Rattle.uefi_listing.specs.private.Appending.{AppendsListing};
ghost use Rattle.uefi_listing.specs.Path.{node_line, instance_lines, AppendsPathLines, PathListing};

use crate::listing::Outcome;
use shown::{Hex, HexByte, gap_before};
use std::alloc::{AllocError, Allocator};
use uefi_path::{ByteConversionError, DevicePath, DevicePathInstance, DevicePathNode};

/// Appends the lines of a device path: for each instance `instance N`, its length in bytes, and a
/// line for each node but the one that ends it; last `path N`, the length of the path in bytes.
///
/// The line of a node has two spaces, its type and subtype in hex, and its data in hex if it has
/// any.
///
/// # Errors
///
/// [`AllocError`] if an allocation fails. The text may have grown then.
pub fn push_path<A: Allocator>(
    text: &mut String<A>,
    path: &DevicePath<'_>,
) -> Result<(), AllocError>
    ensures { OnOk result (AppendsPathLines text.old text.new (path_nodes path.now)) }
{
    for instance in path.instance_iter() {
        push_instance(text, &instance)?;
    }
    let length = path.as_bytes().len();
    writeln!(text, "path {length}")
}

/// Appends the lines of an instance: its length in bytes, and its nodes but the one that ends it.
#[tactic(auto, unfolding(crate::specs::Path::instance_lines))]
fn push_instance<A: Allocator>(
    text: &mut String<A>,
    instance: &DevicePathInstance<'_>,
) -> Result<(), AllocError>
    ensures { OnOk result
        (AppendsText text.old text.new (instance_lines (instance_nodes instance.now))) }
{
    let length = instance.as_bytes().len();
    writeln!(text, "instance {length}")?;
    for node in instance.node_iter() {
        push_node(text, &node)?;
    }
    Ok(())
}

/// Appends the line of a node: type and subtype, and its data if it has any.
fn push_node<A: Allocator>(
    text: &mut String<A>,
    node: &DevicePathNode<'_>,
) -> Result<(), AllocError>
    ensures { OnOk result (AppendsText text.old text.new (node_line (node_of node.now))) }
{
    let (device_type, sub_type) = node.full_type();
    let (device_type, sub_type) = (HexByte(device_type.0), HexByte(sub_type.0));
    let (gap, data) = (gap_before(node.data()), Hex(node.data()));
    writeln!(text, "  {device_type} {sub_type}{gap}{data}")
}

/// Appends the listing of the device path that is a prefix of the bytes.
///
/// # Errors
///
/// [`AllocError`] if an allocation fails. The text may have grown then.
pub(crate) fn push_path_listing<A: Allocator>(
    text: &mut String<A>,
    bytes: &[u8],
) -> Result<Outcome, AllocError>
    ensures { IfOk result (AppendsListing (PathListing bytes.now) text.old text.new) }
{
    match DevicePath::try_from(bytes) {
        Ok(path) => {
            push_path(text, &path)?;
            Ok(Outcome::Listed)
        }
        Err(ByteConversionError::InvalidLength) => {
            writeln!(text, "refused InvalidLength")?;
            Ok(Outcome::Refused)
        }
    }
}
