//! The PCRs that an event log leads to, by bank: computed once, and printed, written as JSON or
//! compared.

ghost use Rattle.std.specs.Prelude.{◌≡◌, List, map, IfOk};
ghost use Rattle.pcr_replay.specs.BankReplays.{bank_outcomes_of, replayed};
ghost use Rattle.pcr_replay.specs.declared.bank.Bank.{Bank};
ghost use Rattle.pcr_replay.specs.declared.start.Start.{Start};
ghost use Rattle.uefi_tcg.specs.LogViews.{entry_of};
ghost use Rattle.uefi_audits.specs.Replay.{active_banks, asked};

use pcr_replay::entries::{is_active, replay};
use pcr_replay::{Bank, BankPcrs, Start};
use std::alloc::{AllocError, Allocator};
use uefi_tcg::LogEntry;

/// Returns the banks that are asked for: one, or without one each that is active in these events, in
/// the order of [`Bank::ALL`].
///
/// # Errors
///
/// [`AllocError`] if an allocation fails.
pub fn asked_banks<A: Allocator>(
    alloc: A,
    entries: &[LogEntry<'_>],
    bank: Option<Bank>,
) -> Result<Vec<Bank, A>, AllocError>
    ensures { IfOk result (λ banks. banks.items ≡ asked bank (map entry_of entries.now)) }
{
    match bank {
        Some(bank) => Vec::from_slice(alloc, &[bank]),
        None => active_banks(alloc, entries),
    }
}

/// Returns the banks that are active in these events.
fn active_banks<A: Allocator>(
    alloc: A,
    entries: &[LogEntry<'_>],
) -> Result<Vec<Bank, A>, AllocError>
    ensures { IfOk result (λ banks. banks.items ≡ active_banks (map entry_of entries.now)) }
{
    Bank::ALL
        .iter()
        .copied()
        .filter(|bank| is_active(entries, *bank))
        .collect(alloc)
}

/// Returns what these events leave in the PCRs of each of these banks, in a TPM that was started so.
///
/// # Errors
///
/// [`AllocError`] if an allocation fails.
pub fn replay_banks<A: Allocator>(
    alloc: A,
    entries: &[LogEntry<'_>],
    banks: &[Bank],
    start: &Start,
) -> Result<Vec<BankPcrs, A>, AllocError>
    ensures { IfOk result (λ found. map bank_outcomes_of found.items
        ≡ map (replayed start.now (map entry_of entries.now)) banks.now) }
{
    let mut found = Vec::new(alloc);
    for bank in banks {
        found.push(replay_bank(entries, *bank, start))?;
    }
    Ok(found)
}

/// Returns what the PCRs of banks hold in a TPM that was started so, by what they hold in one that was
/// started otherwise: PCR 0 alone is replayed.
///
/// # Errors
///
/// [`AllocError`] if an allocation fails.
pub(crate) fn restart_banks<A: Allocator>(
    alloc: A,
    entries: &[LogEntry<'_>],
    replays: &[BankPcrs],
    start: &Start,
) -> Result<Vec<BankPcrs, A>, AllocError>
    ensures { (other : Start) (banks : List Bank) → map bank_outcomes_of replays.now
        ≡ map (replayed other (map entry_of entries.now)) banks
        → IfOk result (λ found. map bank_outcomes_of found.items
        ≡ map (replayed start.now (map entry_of entries.now)) banks) }
{
    let mut found = Vec::new(alloc);
    for replay in replays {
        found.push(replay.restarted(entries, start))?;
    }
    Ok(found)
}

/// Returns what these events leave in the PCRs of a bank.
fn replay_bank(entries: &[LogEntry<'_>], bank: Bank, start: &Start) -> BankPcrs
    ensures { bank_outcomes_of result ≡ replayed start.now (map entry_of entries.now) bank }
{
    BankPcrs {
        bank,
        pcrs: replay(entries, bank, start),
    }
}
