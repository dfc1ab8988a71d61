//! What the events of a log lead to, with what is to be said of it.

ghost use Rattle.std.specs.Prelude.{◌≡◌, ◌||◌, IfOk, map};
ghost use Rattle.uefi_tcg.specs.LogViews.{entry_of};
ghost use Rattle.uefi_audits.specs.LogReplay.{IsReplayOf, banks_among, inactive_banks, is_undetermined, noted_banks, unsupported_among, unsupported_for};

use crate::facts::LogFacts;
use crate::ignored::{IgnoredEvent, ignored_events};
use crate::naming::bank_of;
use crate::replay::{asked_banks, replay_banks};
use pcr_replay::entries::is_active;
use pcr_replay::{Bank, BankPcrs};
use std::alloc::{AllocError, Global};
use uefi_tcg::{AlgorithmId, LogEntry};

/// What the events of a log lead to.
#[derive(Drop)]
pub struct LogReplay {
    /// The PCRs of the banks that were asked for.
    pub banks: Vec<BankPcrs>,
    /// The banks of which no event has a digest, among those in the table of the log's header; or the bank
    /// that was asked for, if no event has a digest of it.
    pub inactive: Vec<Bank>,
    /// The algorithms in the table whose banks can't be replayed; none, if one bank was asked for.
    pub unsupported: Vec<u16>,
    /// The events that have no effect and should have.
    pub ignored: Vec<IgnoredEvent>,
}

impl LogReplay {
    /// Returns what these events lead to in a bank, or in each that is active, by what is known of their
    /// log.
    ///
    /// # Errors
    ///
    /// [`AllocError`] if an allocation fails.
    pub fn of(
        alloc: Global,
        entries: &[LogEntry<'_>],
        facts: &LogFacts,
        bank: Option<Bank>,
    ) -> Result<LogReplay, AllocError>
        ensures { IfOk result (IsReplayOf facts.now bank (map entry_of entries.now)) }
    {
        let asked = asked_banks(alloc, entries, bank)?;
        let algorithms = facts.algorithms.as_slice();
        let noted = noted_banks(alloc, algorithms, bank)?;
        Ok(LogReplay {
            banks: replay_banks(alloc, entries, asked.as_slice(), &facts.start.start)?,
            inactive: inactive_banks(alloc, entries, noted.as_slice())?,
            unsupported: unsupported_for(alloc, algorithms, bank)?,
            ignored: ignored_events(alloc, entries)?,
        })
    }

    /// Returns whether no bank was replayed, or a PCR of one is undetermined.
    pub fn is_undetermined(&self) -> bool
        ensures { result ≡ is_undetermined self.now }
    {
        let banks = self.banks.as_slice();
        banks.is_empty() || banks.iter().any(|bank| bank.has_undetermined())
    }
}

/// Returns those of these banks of which no event has a digest.
///
/// # Errors
///
/// [`AllocError`] if an allocation fails.
pub fn inactive_banks(
    alloc: Global,
    entries: &[LogEntry<'_>],
    banks: &[Bank],
) -> Result<Vec<Bank>, AllocError>
    ensures { IfOk result
        (λ inactive. inactive.items ≡ inactive_banks (map entry_of entries.now) banks.now) }
{
    banks
        .iter()
        .copied()
        .filter(|bank| !is_active(entries, *bank))
        .collect(alloc)
}

/// Returns the banks that are looked at: the one that is asked for, or those of these algorithms.
#[tactic(auto, unfolding(crate::specs::LogReplay::noted_banks))]
fn noted_banks(
    alloc: Global,
    algorithms: &[u16],
    bank: Option<Bank>,
) -> Result<Vec<Bank>, AllocError>
    ensures { IfOk result (λ banks. banks.items ≡ noted_banks bank algorithms.now) }
{
    match bank {
        Some(bank) => Vec::from_slice(alloc, &[bank]),
        None => banks_among(alloc, algorithms),
    }
}

/// Returns the banks of these algorithms that can be replayed.
fn banks_among(alloc: Global, algorithms: &[u16]) -> Result<Vec<Bank>, AllocError>
    ensures { IfOk result (λ banks. banks.items ≡ banks_among algorithms.now) }
{
    Bank::ALL
        .iter()
        .copied()
        .filter(|bank| algorithms.contains(&bank.algorithm().0))
        .collect(alloc)
}

/// Returns the algorithms whose banks can't be replayed; none, if one bank is asked for.
#[tactic(auto, unfolding(crate::specs::LogReplay::unsupported_for))]
fn unsupported_for(
    alloc: Global,
    algorithms: &[u16],
    bank: Option<Bank>,
) -> Result<Vec<u16>, AllocError>
    ensures { IfOk result (λ unsupported. unsupported.items ≡ unsupported_for bank algorithms.now) }
{
    match bank {
        Some(_) => Ok(Vec::new(alloc)),
        None => unsupported_among(alloc, algorithms),
    }
}

/// Returns which of these algorithms have banks that can't be replayed.
fn unsupported_among(alloc: Global, algorithms: &[u16]) -> Result<Vec<u16>, AllocError>
    ensures { IfOk result (λ unsupported. unsupported.items ≡ unsupported_among algorithms.now) }
{
    algorithms
        .iter()
        .copied()
        .filter(|algorithm| bank_of(AlgorithmId(*algorithm)).is_none())
        .collect(alloc)
}
