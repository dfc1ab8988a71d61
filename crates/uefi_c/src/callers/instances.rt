ghost use Rattle.std.specs.Prelude.{◌≡◌, List, IfOk, map};
ghost use Rattle.uefi_path.specs.Node.{Node, joined};
ghost use Rattle.uefi_path.specs.Path.{IsPath, AreInstances};

use crate::path::uefi_path_next_instance;
use crate::status;
use std::alloc::{AllocError, Allocator};

/// Collects the instances of a path, by a loop: those that the library's `instance_iter` gives.
pub fn instances_by_steps<'a, A: Allocator>(
    alloc: A,
    path: &'a [u8],
) -> Result<Vec<&'a [u8], A>, AllocError>
    ensures { IfOk result (λ parts. (nodes : List Node) (instances : List (List Node))
        → path.now ≡ joined nodes → AreInstances instances nodes
        → map (λ part. part.now) parts.items ≡ map joined instances) }
{
    let mut parts = Vec::new(alloc);
    let mut offset = 0;
    let mut instance: &'a [u8] = &[];
    while uefi_path_next_instance(path, &mut offset, &mut instance) == status::OK {
        parts.push(instance)?;
    }
    Ok(parts)
}
