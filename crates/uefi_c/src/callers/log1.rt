ghost use Rattle.std.specs.Prelude.{IfOk, map};
ghost use Rattle.uefi_tcg.specs.v1.Log.{IsLog};
ghost use Rattle.uefi_c.specs.Log1.{event_seen};

use crate::log1::{UefiEvent1, uefi_log1_next};
use crate::status;
use std::alloc::{AllocError, Allocator};

/// Collects the events of a version 1 log, by a loop: the log, as the library's `iter` gives it.
pub fn log1_by_steps<'a, A: Allocator>(
    alloc: A,
    log: &'a [u8],
    last_entry: usize,
) -> Result<Vec<UefiEvent1<'a>, A>, AllocError>
    ensures { IfOk result (λ views. IsLog log.now last_entry (map event_seen views.items)) }
{
    let mut views = Vec::new(alloc);
    let mut offset = 0;
    let mut event = UefiEvent1 {
        event_data: &[],
        pcr_index: 0,
        event_type: 0,
        digest: [0; 20],
    };
    while uefi_log1_next(log, last_entry, &mut offset, &mut event) == status::OK {
        views.push(event)?;
    }
    Ok(views)
}
