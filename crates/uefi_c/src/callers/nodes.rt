ghost use Rattle.std.specs.Prelude.{◌≡◌, List, IfOk, map};
ghost use Rattle.uefi_path.specs.Node.{Node, joined};
ghost use Rattle.uefi_path.specs.Path.{IsPath, IsInstance, all_but_last};
ghost use Rattle.uefi_c.specs.Path.{node_seen};

use crate::path::{UefiNode, uefi_path_next_node};
use crate::status;
use std::alloc::{AllocError, Allocator};

/// Collects the nodes of a path or of an instance, by a loop: all but the last, as the library's
/// `node_iter` of either gives them.
pub fn nodes_by_steps<'a, A: Allocator>(
    alloc: A,
    path: &'a [u8],
) -> Result<Vec<UefiNode<'a>, A>, AllocError>
    ensures path { IfOk result (λ views. (nodes : List Node) → IsPath nodes
        → path.now ≡ joined nodes → map node_seen views.items ≡ all_but_last nodes) }
    ensures instance { IfOk result (λ views. (nodes : List Node) → IsInstance nodes
        → path.now ≡ joined nodes → map node_seen views.items ≡ all_but_last nodes) }
{
    let mut views = Vec::new(alloc);
    let mut offset = 0;
    let mut node = UefiNode {
        data: &[],
        device_type: 0,
        sub_type: 0,
    };
    while uefi_path_next_node(path, &mut offset, &mut node) == status::OK {
        views.push(node)?;
    }
    Ok(views)
}
