ghost use Rattle.std.specs.Prelude.{IfOk, map};
ghost use Rattle.tcg_event.specs.Signature.{HasSize, signature_bytes};
ghost use Rattle.uefi_c.specs.Cursor.{AreItems};
ghost use Rattle.uefi_c.specs.Signatures.{signature_seen};

use crate::event_data::{UefiSignature, uefi_signature_next};
use crate::status;
use std::alloc::{AllocError, Allocator};

/// Collects the signatures of a size that the bytes begin with, by a loop.
pub fn signatures_by_steps<'a, A: Allocator>(
    alloc: A,
    signatures: &'a [u8],
    signature_size: u32,
) -> Result<Vec<UefiSignature<'a>, A>, AllocError>
    ensures { IfOk result (λ views. AreItems (HasSize signature_size) signature_bytes
        signatures.now (map signature_seen views.items)) }
{
    let mut views = Vec::new(alloc);
    let mut offset = 0;
    let mut signature = UefiSignature {
        value: &[],
        owner: [0; 16],
    };
    while uefi_signature_next(signatures, signature_size, &mut offset, &mut signature)
        == status::OK
    {
        views.push(signature)?;
    }
    Ok(views)
}
