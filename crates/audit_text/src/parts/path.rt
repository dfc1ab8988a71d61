ghost use Rattle.std.specs.Prelude.{option_map};
ghost use Rattle.uefi_path.specs.Views.{node_of, path_nodes};
ghost use Rattle.tcg_event.specs.Views.{image_of};
ghost use Rattle.audit_text.specs.parts.Contents.{image_parts, node_parts, path_parts};
ghost use Rattle.audit_text.specs.private.PartViews.{AreParts};

use crate::parts::part::{Part, PartValue, PartsResult, joined};
use crate::words::path_text;
use std::alloc::Global;
use tcg_event::ImageLoadEvent;
use uefi_path::{DevicePath, DevicePathNode};

/// Returns the parts of an image: its numbers, its device path, and the bytes after that.
#[tactic(auto, unfolding(crate::specs::parts::Contents::image_parts))]
pub(crate) fn image_parts<'a>(
    alloc: Global,
    image: &ImageLoadEvent<'a>,
    path: &Option<DevicePath<'a>>,
) -> PartsResult<'a>
    ensures { AreParts result (image_parts (image_of image.now) (option_map path_nodes path.now)) }
{
    let linked = PartValue::Hexadecimal(image.link_time_address);
    let numbers = vec![in alloc;
        Part::new(
            "address",
            "  image at ",
            PartValue::Hexadecimal(image.location_in_memory)
        ),
        Part::new("length", ", ", PartValue::Decimal(image.length_in_memory)),
        Part::new("link_address", " bytes, linked for ", linked),
        Part::words("\n"),
    ]?;
    let path = match path {
        Some(path) => path_parts(alloc, path)?,
        None => vec![in alloc; Part::bytes("path", "  path", image.device_path)]?,
    };
    let mut parts = joined(numbers, path)?;
    parts.push(Part::rest(image.rest))?;
    Ok(parts)
}

/// Returns the parts of a device path: its nodes before the one that ends it, and its text.
#[tactic(auto, unfolding(crate::specs::parts::Contents::path_parts))]
pub(crate) fn path_parts<'a>(alloc: Global, path: &DevicePath<'a>) -> PartsResult<'a>
    ensures { AreParts result (path_parts (path_nodes path.now)) }
{
    let mut nodes = Vec::new(alloc);
    for node in path.node_iter() {
        nodes.push(PartValue::Object(node_parts(alloc, &node)?))?;
    }
    let text = path_text(*path).to_string(alloc)?;
    Ok(vec![in alloc;
        Part::in_json("path", PartValue::List(nodes)),
        Part::new("text", "  path ", PartValue::Plain(text)),
        Part::words("\n"),
    ]?)
}

/// Returns the parts of a node: its data, its subtype and its type.
#[tactic(auto, unfolding(crate::specs::parts::Contents::node_parts))]
fn node_parts<'a>(alloc: Global, node: &DevicePathNode<'a>) -> PartsResult<'a>
    ensures { AreParts result (node_parts (node_of node.now)) }
{
    let (device_type, sub_type) = node.full_type();
    Ok(vec![in alloc;
        Part::in_json("data", PartValue::Bytes(node.data())),
        Part::in_json("subtype", PartValue::Decimal(u64::from(sub_type.0))),
        Part::in_json("type", PartValue::Decimal(u64::from(device_type.0))),
    ]?)
}
