ghost use Rattle.std.specs.Prelude.{◌≡◌, map};
ghost use Rattle.std.specs.Option.{option_map};
ghost use Rattle.pcr_replay.specs.BankReplays.{bank_outcomes_of};
ghost use Rattle.pcr_replay.specs.Views.{outcome_of, outcomes_of};
ghost use Rattle.uefi_audits.specs.verify.Verdict.{agrees, differs, disagreeing, led_to, outcomes_in, undetermined};

use crate::verify::held::HeldPcr;
use pcr_replay::{Bank, BankPcrs, PcrValue, Pcrs, Undetermined};
use uefi_tcg::PcrIndex;

/// Returns how many PCRs don't hold what a log leads to.
pub(crate) fn disagreeing(held: &[HeldPcr], replays: &[BankPcrs]) -> usize
    ensures { result ≡ disagreeing held.now (map bank_outcomes_of replays.now) }
{
    held.iter().filter(|pcr| !agrees(pcr, replays)).count()
}

/// Returns whether a PCR holds another value than the log leads to, or there is no such PCR.
pub(crate) fn differs(held: &HeldPcr, replays: &[BankPcrs]) -> bool
    ensures { result ≡ differs (map bank_outcomes_of replays.now) held.now }
{
    !agrees(held, replays) && !is_undetermined(held, replays)
}

/// Returns whether a PCR holds what the log leads to.
#[tactic(auto, unfolding(crate::specs::verify::Verdict::agrees))]
pub fn agrees(held: &HeldPcr, replays: &[BankPcrs]) -> bool
    ensures { result ≡ agrees (map bank_outcomes_of replays.now) held.now }
{
    match led_to(held, replays) {
        Some(Ok(value)) => value.as_bytes() == held.value.as_bytes(),
        _ => false,
    }
}

/// Returns whether a PCR is undetermined after the log.
#[tactic(auto, unfolding(crate::specs::verify::Verdict::undetermined))]
pub(crate) fn is_undetermined(held: &HeldPcr, replays: &[BankPcrs]) -> bool
    ensures { result ≡ undetermined (map bank_outcomes_of replays.now) held.now }
{
    matches!(led_to(held, replays), Some(Err(_)))
}

/// Returns what the log leads to in a PCR that a TPM held; `None` if it isn't among those that were
/// replayed.
pub fn led_to<'a>(
    held: &HeldPcr,
    replays: &'a [BankPcrs],
) -> Option<&'a Result<PcrValue, Undetermined>>
    ensures { option_map (λ outcome. outcome_of outcome.now) result
        ≡ led_to (map bank_outcomes_of replays.now) held.now }
{
    pcrs_of(held.bank, replays)?.outcome(PcrIndex(held.pcr))
}

/// Returns the PCRs of a bank.
fn pcrs_of(bank: Bank, replays: &[BankPcrs]) -> Option<&Pcrs>
    ensures { option_map (λ pcrs. outcomes_of pcrs.now) result
        ≡ outcomes_in (map bank_outcomes_of replays.now) bank }
{
    for found in replays {
        if found.bank == bank {
            return Some(&found.pcrs);
        }
    }
    None
}
