ghost use Rattle.std.specs.Prelude.{◌≡◌, IfOk, map};
ghost use Rattle.tpm_quote.specs.Quote.{Quote};
ghost use Rattle.uefi_c.specs.Quote.{AreQuote, selection_given, selection_seen};

use crate::quote::{UefiPcrSelection, uefi_quote_next_selection};
use crate::status;
use std::alloc::{AllocError, Allocator};

/// Collects the selections of a quote, by a loop: those that the library's `PcrSelectionIter` gives.
pub fn selections_by_steps<A: Allocator>(
    alloc: A,
    message: &[u8],
) -> Result<Vec<UefiPcrSelection, A>, AllocError>
    ensures { IfOk result (λ views. (quote : Quote) → AreQuote message.now quote
        → map selection_seen views.items ≡ map selection_given quote.pcr_selections) }
{
    let mut views = Vec::new(alloc);
    let mut cursor = 0;
    let mut selection = UefiPcrSelection {
        pcrs: 0,
        algorithm: 0,
    };
    while uefi_quote_next_selection(message, &mut cursor, &mut selection) == status::OK {
        views.push(selection)?;
    }
    Ok(views)
}
