ghost use Rattle.std.specs.Prelude.{ℕ, List, IfOk, map};
ghost use Rattle.tcg_event.specs.Tagged.{AreTagged};
ghost use Rattle.uefi_c.specs.EventData.{tagged_seen};

use crate::event_data::{UefiTaggedEvent, uefi_tagged_next};
use crate::status;
use std::alloc::{AllocError, Allocator};

/// Collects the tagged events in the data of an event, by a loop: those that the library's
/// `TaggedEvents` gives.
pub fn tagged_by_steps<'a, A: Allocator>(
    alloc: A,
    event_data: &'a [u8],
) -> Result<Vec<UefiTaggedEvent<'a>, A>, AllocError>
    ensures { IfOk result (λ views. (rest : List ℕ)
        × AreTagged event_data.now (map tagged_seen views.items) rest) }
{
    let mut views = Vec::new(alloc);
    let mut offset = 0;
    let mut tagged = UefiTaggedEvent { value: &[], id: 0 };
    while uefi_tagged_next(event_data, &mut offset, &mut tagged) == status::OK {
        views.push(tagged)?;
    }
    Ok(views)
}
