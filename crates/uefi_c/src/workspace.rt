ghost use Rattle.std.specs.Prelude.{◌≡◌, slice_get, IfSome};
ghost use Rattle.pcr_replay.specs.Views.{outcome_of};
ghost use Rattle.uefi_c.specs.Replay.{IsPcr, fault_of, outcome_seen};
ghost use Rattle.uefi_c.specs.Workspace.{bank_seen};

use crate::replay::{ROOM, UefiPcr, seen};
use crate::status;
use pcr_replay::{Bank, BankStore, Fault, PCR_COUNT, PcrValue, Undetermined};
use std::mem::size_of;
use uefi_tcg::{AlgorithmId, PcrIndex};

/// How many banks can be replayed.
pub(crate) const BANK_COUNT: usize = 5;

/// How many bytes the header gives a workspace.
const WORKSPACE_SIZE: usize = 12288;

/// Memory in which a call replays a log, so that it takes little of the stack. Its contents have no
/// meaning before a call and after it.
#[derive(Clone, Copy)]
#[repr(C)]
pub struct UefiWorkspace {
    pub(crate) banks: [UefiBank; BANK_COUNT],
}

const _: () = prove!(size_of::<UefiWorkspace>() <= WORKSPACE_SIZE);

/// What the PCRs of a bank hold.
#[derive(Clone, Copy)]
#[repr(C)]
pub struct UefiBank {
    /// What each PCR holds.
    pub(crate) pcrs: [UefiPcr; PCR_COUNT],
    /// The algorithm of the bank.
    algorithm: u16,
}

impl BankStore for UefiBank {
    ghost holds = { bank_seen };

    ghost is_set = { λ held pcr. IfSome (slice_get held.pcrs pcr) IsPcr };

    fn bank(&self) -> Bank {
        match Bank::of(AlgorithmId(self.algorithm)) {
            Some(bank) => bank,
            None => Bank::Sha1,
        }
    }

    fn outcome(&self, pcr: PcrIndex) -> Option<Result<PcrValue, Undetermined>> {
        let held = self.pcrs.get(pcr.0 as usize)?;
        Some(outcome_in(held))
    }

    fn set_bank(&mut self, bank: Bank) {
        self.algorithm = bank.algorithm().0;
    }

    fn set_outcome(&mut self, pcr: PcrIndex, outcome: Result<PcrValue, Undetermined>) {
        self.pcrs[pcr.0 as usize] = seen(&outcome);
    }
}

/// Returns what a PCR holds.
fn outcome_in(held: &UefiPcr) -> Result<PcrValue, Undetermined>
    ensures { outcome_of result ≡ outcome_seen held.now }
{
    if held.status == status::OK {
        let size = held.size.min(ROOM);
        return Ok(PcrValue::new(&held.value[..size]));
    }
    Err(Undetermined {
        index: held.index,
        offset: held.offset,
        fault: fault_in(held),
    })
}

/// Returns why a PCR is undetermined.
fn fault_in(held: &UefiPcr) -> Fault
    ensures { result ≡ fault_of held.now.status }
{
    match held.status {
        status::NO_DIGEST => Fault::NoDigest,
        status::TWO_DIGESTS => Fault::TwoDigests,
        status::OTHER_LENGTH => Fault::OtherLength,
        status::UNKNOWN_LOCALITY => Fault::UnknownLocality,
        status::OTHER_LOCALITY => Fault::OtherLocality,
        _ => Fault::LateLocality,
    }
}
