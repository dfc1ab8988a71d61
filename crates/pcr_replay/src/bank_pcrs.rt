ghost use Rattle.std.specs.Prelude.{◌≡◌, map};
ghost use Rattle.pcr_replay.specs.BankReplays.{bank_outcomes_of, has_undetermined, replayed};
ghost use Rattle.pcr_replay.specs.declared.start.Start.{Start};
ghost use Rattle.uefi_tcg.specs.LogViews.{entry_of};

use crate::bank::Bank;
use crate::entries::restarted;
use crate::pcrs::Pcrs;
use crate::start::Start;
use uefi_tcg::LogEntry;

/// What each PCR of a bank holds after the events of a log.
#[derive(Clone, Copy)]
pub struct BankPcrs {
    /// The bank.
    pub bank: Bank,
    /// What its PCRs hold.
    pub pcrs: Pcrs,
}

impl BankPcrs {
    /// Returns whether one of the PCRs is undetermined.
    pub fn has_undetermined(&self) -> bool
        ensures { result ≡ has_undetermined (bank_outcomes_of self.now) }
    {
        self.pcrs.outcomes().iter().any(|outcome| outcome.is_err())
    }

    /// Returns what these events leave in the PCRs of the bank in a TPM that was started so, by what
    /// they leave in one that was started otherwise: PCR 0 alone is replayed.
    pub fn restarted(&self, entries: &[LogEntry<'_>], start: &Start) -> BankPcrs
        ensures { (other : Start)
            → bank_outcomes_of self.now ≡ replayed other (map entry_of entries.now) self.now.bank
            → bank_outcomes_of result
            ≡ replayed start.now (map entry_of entries.now) self.now.bank }
    {
        BankPcrs {
            bank: self.bank,
            pcrs: restarted(&self.pcrs, entries, self.bank, start),
        }
    }
}
