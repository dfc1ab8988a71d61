ghost use Rattle.std.specs.Prelude.{◌≡◌, ◌↔◌, IsTrue, map, IfOk};
ghost use Rattle.pcr_replay.specs.BankReplays.{bank_outcomes_of};
ghost use Rattle.uefi_tcg.specs.LogViews.{entry_of};
ghost use Rattle.uefi_audits.specs.KnownStart.{assumed_start};
ghost use Rattle.uefi_audits.specs.declared.known_start.KnownStart.{KnownStart};
ghost use Rattle.uefi_audits.specs.verify.Verdict.{compared, compared_at, comparison_of, is_agreement, nearer, verdict_of, AgreeAtOne};

use crate::known_start::KnownStart;
use crate::replay::{replay_banks, restart_banks};
use crate::verify::banks::held_banks;
use crate::verify::comparison::{differs, disagreeing, is_undetermined};
use crate::verify::held::HeldPcr;
use pcr_replay::BankPcrs;
use std::alloc::{AllocError, Allocator, Global};
use uefi_tcg::LogEntry;

/// Whether a log leads to the PCRs that a TPM held.
#[derive(Drop)]
pub struct Verdict<A: Allocator = Global> {
    /// How PCR 0 starts.
    pub start: KnownStart,
    /// What the log leads to in the banks of which a PCR is held.
    pub replays: Vec<BankPcrs, A>,
    /// How many PCRs held another value, or aren't among those that a TPM has.
    pub differing: usize,
    /// How many are undetermined after the log.
    pub undetermined: usize,
}

impl<A: Allocator + Copy> Verdict<A> {
    /// Returns the verdict on PCRs that a TPM held, after these events.
    ///
    /// PCR 0 starts at `locality`, or without one as the events say. If they say nothing, it starts at
    /// 0, 3 or 4: where the fewest PCRs disagree, and of several the first one.
    ///
    /// # Errors
    ///
    /// [`AllocError`] if an allocation fails.
    pub fn new(
        alloc: A,
        entries: &[LogEntry<'_>],
        held: &[HeldPcr],
        locality: Option<u8>,
    ) -> Result<Verdict<A>, AllocError>
        ensures verdict { IfOk result (λ verdict. comparison_of verdict
            ≡ verdict_of locality (map entry_of entries.now) held.now) }
        ensures agreement { IfOk result (λ verdict. IsTrue (is_agreement (comparison_of verdict))
            ↔ AgreeAtOne locality (map entry_of entries.now) held.now) }
    {
        let start = KnownStart::of(entries, locality);
        if start.is_stated {
            return Verdict::at(alloc, entries, held, start);
        }
        let at_0 = Verdict::at(alloc, entries, held, KnownStart::assumed(0))?;
        let at_3 = at_0.restarted(alloc, entries, held, KnownStart::assumed(3))?;
        let at_4 = at_0.restarted(alloc, entries, held, KnownStart::assumed(4))?;
        Ok(at_0.nearer(at_3, held).nearer(at_4, held))
    }

    /// Returns the verdict in a TPM that was started so.
    fn at(
        alloc: A,
        entries: &[LogEntry<'_>],
        held: &[HeldPcr],
        start: KnownStart,
    ) -> Result<Verdict<A>, AllocError>
        ensures { IfOk result (λ verdict. comparison_of verdict
            ≡ compared_at (map entry_of entries.now) held.now start) }
    {
        let banks = held_banks(alloc, held)?;
        let replays = replay_banks(alloc, entries, banks.as_slice(), &start.start)?;
        Ok(Verdict::of(held, replays, start))
    }

    /// Returns the verdict in a TPM that was started so, by that in one that was started otherwise:
    /// PCR 0 alone is replayed.
    fn restarted(
        &self,
        alloc: A,
        entries: &[LogEntry<'_>],
        held: &[HeldPcr],
        start: KnownStart,
    ) -> Result<Verdict<A>, AllocError>
        ensures { (other : KnownStart)
            → comparison_of self.now ≡ compared_at (map entry_of entries.now) held.now other
            → IfOk result (λ verdict. comparison_of verdict
            ≡ compared_at (map entry_of entries.now) held.now start) }
    {
        let replays = restart_banks(alloc, entries, self.replays.as_slice(), &start.start)?;
        Ok(Verdict::of(held, replays, start))
    }
}

impl<A: Allocator> Verdict<A> {
    /// Returns the verdict on PCRs that a TPM held, beside those that a log leads to.
    fn of(held: &[HeldPcr], replays: Vec<BankPcrs, A>, start: KnownStart) -> Verdict<A>
        ensures { comparison_of result
            ≡ compared held.now (map bank_outcomes_of replays.items) start }
    {
        let pcrs = replays.as_slice();
        let differing = held.iter().filter(|pcr| differs(pcr, pcrs)).count();
        let undetermined = held.iter().filter(|pcr| is_undetermined(pcr, pcrs)).count();
        Verdict {
            start,
            replays,
            differing,
            undetermined,
        }
    }

    /// Returns the one of two verdicts by which fewer PCRs disagree, and the first if as many do.
    fn nearer(self, other: Verdict<A>, held: &[HeldPcr]) -> Verdict<A>
        ensures { comparison_of result
            ≡ nearer held.now (comparison_of self) (comparison_of other) }
    {
        if disagreeing(held, other.replays.as_slice())
            < disagreeing(held, self.replays.as_slice())
        {
            return other;
        }
        self
    }

    /// Returns whether all PCRs agree: none differs, and none is undetermined.
    pub fn is_agreement(&self) -> bool
        ensures { result ≡ is_agreement (comparison_of self.now) }
    {
        self.differing == 0 && self.undetermined == 0
    }
}
