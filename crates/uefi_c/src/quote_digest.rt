ghost use Rattle.std.specs.Prelude.{◌≡◌, ◌≤◌, ◌&&◌, Some, IfSome};
ghost use Rattle.std.specs.Result.{result_map_both};
ghost use Rattle.pcr_replay.specs.Quotes.{digest_at, is_quoted};
ghost use Rattle.pcr_replay.specs.Replay.{is_active};
ghost use Rattle.pcr_replay.specs.Views.{value_of};
ghost use Rattle.pcr_replay.specs.declared.bank.Bank.{Bank};
ghost use Rattle.tpm_quote.specs.Fault.{HasFault};
ghost use Rattle.tpm_quote.specs.Quote.{Quote as QuoteFields};
ghost use Rattle.tpm_quote.specs.Views.{quote_of};
ghost use Rattle.tpm_quote.specs.declared.quote_error.QuoteError.{QuoteError};
ghost use Rattle.uefi_tcg.specs.Entries.{Contents};
ghost use Rattle.uefi_tcg.specs.Logs.{HasContents};
ghost use Rattle.uefi_c.specs.Quote.{AreQuote, HasQuote, status_of};
ghost use Rattle.uefi_c.specs.QuoteDigest.{HasHash, IsDigestStatus, IsHash, digest_seen};
ghost use Rattle.uefi_c.specs.LastEntry.{log_given};
ghost use Rattle.uefi_c.specs.Replay.{start_given};
ghost use Rattle.uefi_c.specs.Status.{no_hash};

use crate::last_entry::log_of;
use crate::quote::status_of;
use crate::replay::{ROOM, start_of, status_of as fault_status};
use crate::status::{self, UefiStatus};
use crate::workspace::{BANK_COUNT, UefiWorkspace};
use pcr_replay::{
    Bank, NoQuoteDigest, PcrValue, Start, is_active, is_quoted, quote_digest_in, replay_into,
};
use tpm_quote::Quote;
use uefi_tcg::{AlgorithmId, Log};

/// The algorithm that says that the length of the quote's digest tells the hash function.
const OF_SIZE: u16 = 0;

/// The digest of the PCRs that a log leads to, or why there is none: of the first selected PCR that
/// has no value.
#[derive(Clone, Copy)]
#[repr(C)]
pub struct UefiQuoteDigest {
    /// The length of the digest in bytes; without meaning if there is none.
    pub size: usize,
    /// The index of the event in the log by which the PCR is undetermined; without meaning with
    /// another status.
    pub index: usize,
    /// The offset at which that event starts.
    pub offset: usize,
    /// Success with a digest, else why there is none.
    pub status: UefiStatus,
    /// The PCR; without meaning if its bank is missing.
    pub pcr_index: u32,
    /// The algorithm of its bank; without meaning with a digest.
    pub algorithm: u16,
    /// The digest, in the first bytes.
    pub value: [u8; ROOM],
}

/// Computes the digest of the PCRs that a log leads to: over the PCRs that the quote selects, in its
/// order. It returns its status.
///
/// The hash function is that of an algorithm's number, or for 0 that of the digest's length. Without
/// one, or without a quote, nothing is written, and the call returns why.
#[unsafe(no_mangle)]
pub extern "C" fn uefi_quote_digest(
    message: &[u8],
    hash: u16,
    log: &[u8],
    last_entry: usize,
    locality: u32,
    workspace: &mut UefiWorkspace,
    out: &mut UefiQuoteDigest,
) -> UefiStatus
    ensures digest { HasHash message.now hash → (quote : QuoteFields) → AreQuote message.now quote
        → (bank : Bank) → IsHash hash quote bank → (contents : Contents)
        → HasContents (log_given log.entry last_entry) contents → digest_seen out.new
        ≡ digest_at bank contents.entries quote (start_given locality contents.entries) }
    ensures status { HasHash message.now hash → result ≡ out.new.status }
    ensures known { HasHash message.now hash → IsDigestStatus result }
    ensures size { HasHash message.now hash → out.new.size ≤ 64 }
    ensures no_quote { (HasQuote message.now → ⊥) → (error : QuoteError)
        × (result ≡ status_of error) × HasFault message.now error }
    ensures no_hash { HasQuote message.now → (HasHash message.now hash → ⊥) → result ≡ no_hash }
    ensures unchanged { (HasHash message.now hash → ⊥) → out.new ≡ out.old }
{
    let quote = match Quote::try_from(message) {
        Ok(quote) => quote,
        Err(error) => return status_of(&error),
    };
    let Some(hash) = hash_of(hash, &quote) else {
        return status::NO_HASH;
    };
    let log = log_of(log, last_entry);
    let start = start_of(&log, locality);
    let found = seen(&digest_of(hash, &quote, &log, &start, workspace));
    *out = found;
    found.status
}

/// Returns the hash function of a quote's digest.
fn hash_of(algorithm: u16, quote: &Quote<'_>) -> Option<Bank>
    ensures hash { IfSome result (λ hash. IsHash algorithm (quote_of quote.now) hash) }
    ensures only { (hash : Bank) → IsHash algorithm (quote_of quote.now) hash → result ≡ Some hash }
{
    if algorithm == OF_SIZE {
        return Bank::of_size(quote.pcr_digest().len());
    }
    Bank::of(AlgorithmId(algorithm))
}

/// Returns the digest of the PCRs that a log leads to in a TPM that started so.
fn digest_of(
    hash: Bank,
    quote: &Quote<'_>,
    log: &Log<'_>,
    start: &Start,
    workspace: &mut UefiWorkspace,
) -> Result<PcrValue, NoQuoteDigest>
    ensures { (contents : Contents) → HasContents log.now contents
        → result_map_both value_of (λ why. why) result
        ≡ digest_at hash contents.entries (quote_of quote.now) start.now }
{
    let mut count = 0;
    for index in 0..BANK_COUNT {
        let bank = Bank::ALL[index];
        if is_compared(quote, log, bank) {
            replay_into(&mut workspace.banks[count], log, bank, start);
            count += 1;
        }
    }
    quote_digest_in(hash, quote, &workspace.banks[..count])
}

/// Returns whether a bank has a selection in a quote and is active in a log.
fn is_compared(quote: &Quote<'_>, log: &Log<'_>, bank: Bank) -> bool
    ensures { (contents : Contents) → HasContents log.now contents
        → result ≡ (is_quoted (quote_of quote.now) bank && is_active bank contents.entries) }
{
    is_quoted(quote, bank) && is_active(log, bank)
}

/// Returns a digest, or why there is none.
fn seen(digest: &Result<PcrValue, NoQuoteDigest>) -> UefiQuoteDigest
    ensures digest { digest_seen result ≡ result_map_both value_of (λ why. why) digest.now }
    ensures known { IsDigestStatus result.status }
    ensures size { result.size ≤ 64 }
{
    let mut value = [0; ROOM];
    let none = UefiQuoteDigest {
        size: 0,
        index: 0,
        offset: 0,
        status: status::OK,
        pcr_index: 0,
        algorithm: 0,
        value,
    };
    match digest {
        Ok(found) => {
            let bytes = found.as_bytes();
            value[..bytes.len()].copy_from_slice(bytes);
            UefiQuoteDigest {
                size: bytes.len(),
                value,
                ..none
            }
        }
        Err(NoQuoteDigest::NoBank(algorithm)) => UefiQuoteDigest {
            status: status::NO_BANK,
            algorithm: algorithm.0,
            ..none
        },
        Err(NoQuoteDigest::Undetermined(algorithm, pcr, at)) => UefiQuoteDigest {
            index: at.index,
            offset: at.offset,
            status: fault_status(at.fault),
            pcr_index: pcr.0,
            algorithm: algorithm.0,
            ..none
        },
    }
}
