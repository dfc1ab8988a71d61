ghost use Rattle.std.specs.Prelude.{◌≡◌, ◌<◌, ℕ, length, slice_get, slice_set};
ghost use Rattle.std.specs.Option.{option_map};
ghost use Rattle.pcr_replay.specs.BankReplays.{BankOutcomes, bank_outcomes_of};
ghost use Rattle.pcr_replay.specs.Replay.{pcr_count};
ghost use Rattle.pcr_replay.specs.Views.{outcome_of};

use crate::bank::Bank;
use crate::bank_pcrs::BankPcrs;
use crate::fault::Undetermined;
use crate::value::PcrValue;
use uefi_tcg::PcrIndex;

/// Memory that keeps what each PCR of a bank holds: a [`BankPcrs`], or memory of a caller's.
pub trait BankStore {
    /// The bank, and what each of its PCRs holds.
    ghost holds: { Self → BankOutcomes };

    /// What else is known of the memory of a PCR that was set.
    ghost is_set: { Self → ℕ → Type 0 };

    /// Returns the bank.
    fn bank(&self) -> Bank
        ensures { result ≡ (holds self.now).bank };

    /// Returns what a PCR holds, or the event by which it is undetermined; `None` for a PCR above
    /// 23.
    fn outcome(&self, pcr: PcrIndex) -> Option<Result<PcrValue, Undetermined>>
        ensures outcome { option_map outcome_of result
            ≡ slice_get (holds self.now).outcomes pcr.0 }
        ensures count { length (holds self.now).outcomes ≡ pcr_count };

    /// Sets the bank.
    fn set_bank(&mut self, bank: Bank)
        ensures bank { (holds self.new).bank ≡ bank }
        ensures outcomes { (holds self.new).outcomes ≡ (holds self.old).outcomes }
        ensures count { length (holds self.new).outcomes ≡ pcr_count }
        ensures still_set { (other : ℕ) → is_set self.old other → is_set self.new other };

    /// Sets what a PCR holds.
    fn set_outcome(&mut self, pcr: PcrIndex, outcome: Result<PcrValue, Undetermined>)
        requires { pcr.0 < pcr_count }
        ensures bank { (holds self.new).bank ≡ (holds self.old).bank }
        ensures outcome { (holds self.new).outcomes
            ≡ slice_set (holds self.old).outcomes pcr.0 (outcome_of outcome) }
        ensures set { is_set self.new pcr.0 }
        ensures still_set { (other : ℕ) → is_set self.old other → is_set self.new other };
}

impl BankStore for BankPcrs {
    ghost use Rattle.std.specs.Prelude.{⊤};

    ghost holds = { bank_outcomes_of };

    ghost is_set = { λ _ _. ⊤ };

    fn bank(&self) -> Bank {
        self.bank
    }

    fn outcome(&self, pcr: PcrIndex) -> Option<Result<PcrValue, Undetermined>> {
        self.pcrs.outcome(pcr).copied()
    }

    fn set_bank(&mut self, bank: Bank) {
        self.bank = bank;
    }

    fn set_outcome(&mut self, pcr: PcrIndex, outcome: Result<PcrValue, Undetermined>) {
        self.pcrs.set_outcome(pcr, outcome);
    }
}
