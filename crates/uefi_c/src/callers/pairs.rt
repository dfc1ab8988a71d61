ghost use Rattle.std.specs.Prelude.{◌≡◌, IfOk, map};
ghost use Rattle.uefi_hii.specs.Pairs.{pairs};
ghost use Rattle.uefi_c.specs.Config.{pair_seen};

use crate::config::{UefiPair, uefi_config_next_pair};
use crate::status;
use std::alloc::{AllocError, Allocator};

/// Collects the pairs of a configuration text, by a loop: those that the library's
/// `ConfigurationStringIter` gives.
pub fn pairs_by_steps<'a, A: Allocator>(
    alloc: A,
    text: &'a [u8],
) -> Result<Vec<UefiPair<'a>, A>, AllocError>
    ensures { IfOk result (λ views. map pair_seen views.items ≡ pairs text.now) }
{
    let mut views = Vec::new(alloc);
    let mut offset = 0;
    let mut pair = UefiPair {
        key: &[],
        value: &[],
        has_value: false,
    };
    while uefi_config_next_pair(text, &mut offset, &mut pair) == status::OK {
        views.push(pair)?;
    }
    Ok(views)
}
