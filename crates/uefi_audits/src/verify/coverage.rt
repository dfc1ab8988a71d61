ghost use Rattle.std.specs.Prelude.{◌≡◌, map, IfOk};
ghost use Rattle.uefi_tcg.specs.LogViews.{entry_of};
ghost use Rattle.uefi_audits.specs.verify.Coverage.{covering, covering_of, is_whole};

use crate::verify::named::NamedPcr;
use crate::verify::uncompared::uncompared_pcrs;
use std::alloc::{AllocError, Allocator, Global};
use uefi_tcg::LogEntry;

/// Of which PCRs a verdict speaks, and of which it doesn't.
#[derive(Drop)]
pub struct Coverage<A: Allocator = Global> {
    /// The PCRs that are compared, or that a quote covers.
    pub covered: Vec<NamedPcr, A>,
    /// Those that are asked for, and aren't stated or covered.
    pub missing: Vec<NamedPcr, A>,
    /// Those that events extend, and that aren't covered in any bank.
    pub extended: Vec<u32, A>,
}

impl<A: Allocator + Copy> Coverage<A> {
    /// Returns of which PCRs a verdict on these events speaks, by those that are covered and those that
    /// are missing.
    ///
    /// # Errors
    ///
    /// [`AllocError`] if an allocation fails.
    pub fn new(
        alloc: A,
        entries: &[LogEntry<'_>],
        covered: Vec<NamedPcr, A>,
        missing: Vec<NamedPcr, A>,
    ) -> Result<Coverage<A>, AllocError>
        ensures { IfOk result (λ coverage. covering_of coverage
            ≡ covering (map entry_of entries.now) covered.items missing.items) }
    {
        let extended = uncompared_pcrs(alloc, entries, covered.as_slice())?;
        Ok(Coverage {
            covered,
            missing,
            extended,
        })
    }
}

impl<A: Allocator> Coverage<A> {
    /// Returns whether a PCR is covered, and none that is asked for is missing.
    pub fn is_whole(&self) -> bool
        ensures { result ≡ is_whole (covering_of self.now) }
    {
        !self.covered.is_empty() && self.missing.is_empty()
    }
}
