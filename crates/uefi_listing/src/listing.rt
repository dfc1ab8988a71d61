//! The listing of a command over bytes in memory.

ghost use Rattle.std.specs.Prelude.{IfOk};
ghost use Rattle.uefi_listing.specs.private.Appending.{AppendsListing};
ghost use Rattle.uefi_listing.specs.Listing.{Listing};

use crate::command::Command;
use crate::config::push_config_listing;
use crate::info::push_info_listing;
use crate::log1::push_log1_listing;
use crate::log2::push_log2_listing;
use crate::map::push_map_listing;
use crate::path::push_path_listing;
use crate::pci::push_pci_listing;
use crate::time::push_time_listing;
use std::alloc::{AllocError, Allocator};
use uefi_tcg::v2::Start;

/// Whether the bytes were what the command lists.
#[derive(Clone, Copy, PartialEq, Eq, Debug)]
pub enum Outcome {
    /// The listing has what the bytes hold.
    Listed,
    /// The listing is one line, which names the error that the bytes were refused with.
    Refused,
}

/// Makes the listing of the bytes in memory, and returns it with whether they were refused.
///
/// # Errors
///
/// [`AllocError`] if an allocation fails.
pub fn listing<A: Allocator + Copy>(
    alloc: A,
    command: &Command,
    bytes: &[u8],
) -> Result<(Vec<u8, A>, Outcome), AllocError>
    ensures { IfOk result (λ r. Listing command.now bytes.now r.0.items r.1) }
{
    let mut text = String::new(alloc);
    let outcome = push_listing(&mut text, alloc, command, bytes)?;
    Ok((text.into_bytes(), outcome))
}

/// Appends the listing of the bytes to a text.
#[tactic(auto, unfolding(crate::specs::Listing::Listing))]
fn push_listing<A: Allocator + Copy>(
    text: &mut String<A>,
    alloc: A,
    command: &Command,
    bytes: &[u8],
) -> Result<Outcome, AllocError>
    ensures { IfOk result (AppendsListing (Listing command.now bytes.now) text.old text.new) }
{
    match command {
        Command::Path => push_path_listing(text, bytes),
        Command::Log1(last) => push_log1_listing(text, bytes, *last),
        Command::Log2(last) => push_log2_listing(text, bytes, *last, Start::AfterHeader),
        Command::Log2After(last) => push_log2_listing(text, bytes, *last, Start::AfterEvent),
        Command::Config => push_config_listing(text, alloc, bytes),
        Command::Map(stride) => push_map_listing(text, bytes, *stride),
        Command::Pci => push_pci_listing(text, bytes),
        Command::Time => push_time_listing(text, bytes),
        Command::Info(written) => push_info_listing(text, bytes, *written),
    }
}
