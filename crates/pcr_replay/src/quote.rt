ghost use Rattle.std.specs.Prelude.{◌≡◌, map, option_map, slice_get, Err, MatchResult, Some};
ghost use Rattle.std.specs.Option.{option_and_then};
ghost use Rattle.std.specs.Result.{result_map_both};
ghost use Rattle.pcr_replay.specs.BankReplays.{bank_outcomes_of};
ghost use Rattle.pcr_replay.specs.Quotes.{is_quoted, outcomes_of_algorithm, pcrs_in, quote_digest, quoted_value, quoted_values};
ghost use Rattle.pcr_replay.specs.Texts.{no_quote_digest_text};
ghost use Rattle.pcr_replay.specs.Views.{outcome_of, value_of};
ghost use Rattle.pcr_replay.specs.private.Quoting.{TakesValues};
ghost use Rattle.tpm_quote.specs.Views.{quote_of, selection_of};

use crate::bank::Bank;
use crate::bank_pcrs::BankPcrs;
use crate::bank_store::BankStore;
use crate::fault::Undetermined;
use crate::hasher::Hasher;
use crate::value::PcrValue;
use std::error::Error;
use std::fmt;
use tpm_quote::{PcrSelection, Quote};
use uefi_tcg::{AlgorithmId, PcrIndex};

/// Why a log leads to no digest that a quote could have.
#[derive(Clone, Copy, PartialEq, Eq, Debug)]
pub enum NoQuoteDigest {
    /// A PCR is selected of this algorithm's bank, which isn't among the banks.
    NoBank(AlgorithmId),
    /// A PCR is selected that is undetermined.
    Undetermined(AlgorithmId, PcrIndex, Undetermined),
}

/// Writes why, such as `no bank of algorithm 0xb`.
impl fmt::Display for NoQuoteDigest {
    ghost output = { λ why. Some (no_quote_digest_text why) };

    fn fmt<W: fmt::Write>(&self, f: &mut fmt::Formatter<W>) -> fmt::Result {
        match self {
            NoQuoteDigest::NoBank(algorithm) => {
                write!(f, "no bank of algorithm 0x{:x}", algorithm.0)
            }
            NoQuoteDigest::Undetermined(algorithm, pcr, at) => {
                let (pcr, algorithm) = (pcr.0, algorithm.0);
                write!(
                    f,
                    "PCR {pcr} of algorithm 0x{algorithm:x} is undetermined: {at}"
                )
            }
        }
    }
}

impl Error for NoQuoteDigest {}

/// Returns the digest that a TPM whose PCRs hold this puts into a quote (TPM 2.0 Library, Part 2,
/// `TPMS_QUOTE_INFO`): the hash of the values of the selected PCRs, in the quote's order, and those
/// of a selection ascending. Of a quote that selects no PCR it is the hash of nothing, whatever the
/// PCRs hold.
///
/// # Errors
///
/// The first selected PCR that has no value decides.
///
/// - [`NoBank`](NoQuoteDigest::NoBank) if its bank isn't among these.
/// - [`Undetermined`](NoQuoteDigest::Undetermined) if it is undetermined.
pub fn quote_digest(
    hash: Bank,
    quote: &Quote<'_>,
    banks: &[BankPcrs],
) -> Result<PcrValue, NoQuoteDigest>
    ensures { result_map_both value_of (λ why. why) result
        ≡ quote_digest hash (map bank_outcomes_of banks.now) (quote_of quote.now) }
{
    quote_digest_in(hash, quote, banks)
}

/// Returns that digest, of PCRs that are kept in any memory.
///
/// # Errors
///
/// As [`quote_digest`].
pub fn quote_digest_in<B: BankStore>(
    hash: Bank,
    quote: &Quote<'_>,
    banks: &[B],
) -> Result<PcrValue, NoQuoteDigest>
    ensures { result_map_both value_of (λ why. why) result
        ≡ quote_digest hash (map B.holds banks.now) (quote_of quote.now) }
{
    let mut hasher = Hasher::new(hash);
    for selection in quote.pcr_selections() {
        take_selection(&mut hasher, &selection, banks)?;
    }
    Ok(hasher.finalize())
}

/// Returns whether a bank has a selection in a quote, which may select no PCR. That a quote covers the
/// PCRs that matter, in a bank that firmware extends, and that it has the nonce that it was asked for
/// with, is the caller's to ask: a digest that agrees says nothing of either.
pub fn is_quoted(quote: &Quote<'_>, bank: Bank) -> bool
    ensures { result ≡ is_quoted (quote_of quote.now) bank }
{
    quote
        .pcr_selections()
        .any(|selection| selection.algorithm() == bank.algorithm())
}

/// Hashes the values of the selected PCRs of a bank, ascending.
///
/// # Errors
///
/// As [`quote_digest`].
fn take_selection<B: BankStore>(
    hasher: &mut Hasher,
    selection: &PcrSelection<'_>,
    banks: &[B],
) -> Result<(), NoQuoteDigest>
    ensures { MatchResult result
        (λ done. TakesValues (map B.holds banks.now)
        (pcrs_in (selection_of selection.now)) hasher.old hasher.new)
        (λ why. quoted_values (map B.holds banks.now)
        (pcrs_in (selection_of selection.now)) ≡ Err why) }
{
    let algorithm = selection.algorithm();
    for pcr in selection.pcrs() {
        let value = quoted_value(banks, algorithm, pcr)?;
        hasher.update(value.as_bytes());
    }
    Ok(())
}

/// Returns the value of a PCR of an algorithm's bank.
///
/// # Errors
///
/// As [`quote_digest`].
#[tactic(auto, unfolding(crate::specs::Quotes::value_of_outcome))]
fn quoted_value<B: BankStore>(
    banks: &[B],
    algorithm: AlgorithmId,
    pcr: PcrIndex,
) -> Result<PcrValue, NoQuoteDigest>
    ensures { result_map_both value_of (λ why. why) result
        ≡ quoted_value (map B.holds banks.now) (algorithm.0, pcr.0) }
{
    match outcome_in(banks, algorithm, pcr) {
        Some(Ok(value)) => Ok(value),
        Some(Err(at)) => Err(NoQuoteDigest::Undetermined(algorithm, pcr, at)),
        None => Err(NoQuoteDigest::NoBank(algorithm)),
    }
}

/// Returns what a PCR of an algorithm's bank holds; `None` if the bank isn't among these, or has no
/// such PCR.
fn outcome_in<B: BankStore>(
    banks: &[B],
    algorithm: AlgorithmId,
    pcr: PcrIndex,
) -> Option<Result<PcrValue, Undetermined>>
    ensures { option_map outcome_of result
        ≡ option_and_then (λ outcomes. slice_get outcomes pcr.0)
        (outcomes_of_algorithm algorithm.0 (map B.holds banks.now)) }
{
    for found in banks {
        if found.bank().algorithm() == algorithm {
            return found.outcome(pcr);
        }
    }
    None
}
