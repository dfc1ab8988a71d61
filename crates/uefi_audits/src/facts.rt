//! What is known of a log before it is replayed.

ghost use Rattle.std.specs.Prelude.{◌≡◌, IfOk};
ghost use Rattle.uefi_audits.specs.Facts.{AreFactsOf};

use crate::algorithms::algorithms_in;
use crate::known_start::KnownStart;
use crate::trailing::Trailing;
use pcr_replay::ReadLog;
use std::alloc::{AllocError, Global};

/// What is known of a log before it is replayed.
#[derive(Drop)]
pub struct LogFacts {
    /// How PCR 0 starts.
    pub start: KnownStart,
    /// The algorithms in the table of its header, each once, in ascending order.
    pub algorithms: Vec<u16>,
    /// What follows its last event.
    pub trailing: Trailing,
}

impl LogFacts {
    /// Returns what is known of a log, with the locality that the caller states.
    ///
    /// # Errors
    ///
    /// [`AllocError`] if an allocation fails.
    pub fn of(
        alloc: Global,
        read: &ReadLog<'_>,
        locality: Option<u8>,
    ) -> Result<LogFacts, AllocError>
        ensures { IfOk result (AreFactsOf locality read.now) }
    {
        let algorithms = algorithms_in(alloc, read)?;
        Ok(LogFacts {
            start: KnownStart::of(read.entries(), locality),
            algorithms,
            trailing: Trailing::of(read),
        })
    }
}
