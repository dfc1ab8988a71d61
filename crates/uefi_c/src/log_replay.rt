ghost use Rattle.std.specs.Prelude.{◌≡◌, ◌≢◌, ◌<◌, ℕ, [], ◌∷◌, map, slice_get, IfSome};
ghost use Rattle.pcr_replay.specs.Banks.{algorithm_of};
ghost use Rattle.pcr_replay.specs.Replay.{outcomes, pcr_count};
ghost use Rattle.pcr_replay.specs.declared.bank.Bank.{Bank};
ghost use Rattle.uefi_tcg.specs.Entries.{Contents};
ghost use Rattle.uefi_tcg.specs.Logs.{HasContents};
ghost use Rattle.uefi_c.specs.Log.{log_seen};
ghost use Rattle.uefi_c.specs.Replay.{IsPcr, outcome_seen, start_given};
ghost use Rattle.uefi_c.specs.Status.{IsOneOf, no_hash, ok};

use crate::log::UefiLog;
use crate::replay::{UefiPcr, replay_at};
use crate::status::{self, UefiStatus};
use crate::workspace::UefiWorkspace;
use pcr_replay::{Bank, PCR_COUNT};
use uefi_tcg::{AlgorithmId, LastEntry, Log};

/// Replays a log: writes what each of the 24 PCRs of a bank holds after all its events, however far
/// the log was read. Of the log's fields only the bytes and the last entry are used.
///
/// The bank is that of an algorithm's number; without a hash function for it the call says so. A
/// locality below 256 is that at which the TPM was started; else the log says it.
#[unsafe(no_mangle)]
pub extern "C" fn uefi_log_replay(
    log: &UefiLog<'_>,
    algorithm: u16,
    locality: u32,
    workspace: &mut UefiWorkspace,
    out: &mut [UefiPcr; PCR_COUNT],
) -> UefiStatus
    ensures pcrs { result ≡ ok → (bank : Bank) → algorithm_of bank ≡ algorithm
        → (contents : Contents) → HasContents (log_seen log.now) contents
        → map outcome_seen out.new
        ≡ outcomes bank (start_given locality contents.entries) contents.entries }
    ensures each { result ≡ ok → (pcr : ℕ) → pcr < pcr_count
        → IfSome (slice_get out.new pcr) IsPcr }
    ensures known { IsOneOf result (ok ∷ no_hash ∷ []) }
    ensures none { result ≡ no_hash → (bank : Bank) → algorithm_of bank ≡ algorithm → ⊥ }
    ensures unchanged { result ≢ ok → out.new ≡ out.old }
{
    let bytes = log.bytes;
    let Some(bank) = Bank::of(AlgorithmId(algorithm)) else {
        return status::NO_HASH;
    };
    let log = Log::new(bytes, LastEntry::At(log.last_entry));
    replay_at(&mut workspace.banks[0], &log, bank, locality);
    *out = workspace.banks[0].pcrs;
    status::OK
}
