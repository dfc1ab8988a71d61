ghost use Rattle.std.specs.Prelude.{◌≡◌, ◌≢◌, ◌+◌, ◌^◌, ◌<◌, IfSome, slice_get};
ghost use Rattle.std.specs.Option.{option_map};
ghost use Rattle.tpm_quote.specs.Fault.{HasFault};
ghost use Rattle.tpm_quote.specs.PcrSelection.{selected_pcrs};
ghost use Rattle.tpm_quote.specs.Quote.{Quote as QuoteFields};
ghost use Rattle.tpm_quote.specs.Views.{quote_of, selection_of};
ghost use Rattle.tpm_quote.specs.declared.quote_error.QuoteError.{QuoteError};
ghost use Rattle.uefi_c.specs.EventData.{given};
ghost use Rattle.uefi_c.specs.Quote.{AreQuote, HasFields, HasQuote, quote_seen, selection_given, selection_seen, set_of, status_of};
ghost use Rattle.uefi_c.specs.Status.{ended, ok};

use crate::status::{self, UefiStatus};
use tpm_quote::{PcrSelection, Quote, QuoteError};
use uefi_tcg::PcrIndex;

/// How many PCRs a PC has.
const PCR_COUNT: u32 = 24;

/// What a TPM signs when it quotes PCRs (TPM 2.0 Library, Part 2, `TPMS_ATTEST` with
/// `TPMS_QUOTE_INFO`), without the selections.
#[derive(Clone, Copy)]
#[repr(C)]
pub struct UefiQuote<'a> {
    /// The qualified name of the key that signs.
    pub qualified_signer: &'a [u8],
    /// The data that the caller of the TPM gave: the nonce.
    pub extra_data: &'a [u8],
    /// The digest of the values of the selected PCRs.
    pub pcr_digest: &'a [u8],
    /// The milliseconds that the clock counted.
    pub clock: u64,
    /// The version of the TPM's firmware.
    pub firmware_version: u64,
    /// How often the TPM was reset since it was last cleared.
    pub reset_count: u32,
    /// How often the TPM was restarted or resumed since it was last reset or cleared.
    pub restart_count: u32,
    /// Whether the TPM never reported a greater value of the clock.
    pub safe: bool,
}

/// The PCRs of one bank that a quote is over (TPM 2.0 Library, Part 2, `TPMS_PCR_SELECTION`).
#[derive(Clone, Copy)]
#[repr(C)]
pub struct UefiPcrSelection {
    /// The PCRs: bit n is PCR n.
    pub pcrs: u32,
    /// The hash algorithm of the bank.
    pub algorithm: u16,
}

/// Reads the quote that the bytes are, whole and alone. If they are none, it returns why: the first
/// fault, where they are read from the first to the last.
#[unsafe(no_mangle)]
pub extern "C" fn uefi_quote<'a>(message: &'a [u8], out: &mut UefiQuote<'a>) -> UefiStatus
    ensures quote { result ≡ ok → HasFields message.now out.new }
    ensures fault { result ≢ ok
        → (error : QuoteError) × (result ≡ status_of error) × HasFault message.now error }
    ensures none { result ≢ ok → HasQuote message.now → ⊥ }
    ensures unchanged { result ≢ ok → out.new ≡ out.old }
{
    match Quote::try_from(message) {
        Ok(quote) => {
            *out = seen(&quote);
            status::OK
        }
        Err(error) => status_of(&error),
    }
}

/// Reads the selection of this index, and moves the index to the next. It goes over all selections.
/// If the bytes are no quote, it returns why, as [`uefi_quote`].
#[unsafe(no_mangle)]
pub extern "C" fn uefi_quote_next_selection(
    message: &[u8],
    cursor: &mut usize,
    out: &mut UefiPcrSelection,
) -> UefiStatus
    ensures quote { result ≡ ok → HasQuote message.now }
    ensures selection { (quote : QuoteFields) → AreQuote message.now quote
        → given result (selection_seen out.new)
        ≡ option_map selection_given (slice_get quote.pcr_selections cursor.old) }
    ensures ended { result ≡ ended → HasQuote message.now }
    ensures fault { result ≢ ok → result ≢ ended
        → (error : QuoteError) × (result ≡ status_of error) × HasFault message.now error }
    ensures moves { result ≡ ok → cursor.new ≡ cursor.old + 1 }
    ensures few { result ≡ ok → cursor.old < 2 ^ 32 }
    ensures cursor_unchanged { result ≢ ok → cursor.new ≡ cursor.old }
    ensures out_unchanged { result ≢ ok → out.new ≡ out.old }
{
    let Some(selection) = selection_at(message, *cursor) else {
        return match Quote::try_from(message) {
            Ok(_quote) => status::END,
            Err(error) => status_of(&error),
        };
    };
    *out = UefiPcrSelection {
        pcrs: set_of(&selection),
        algorithm: selection.algorithm().0,
    };
    *cursor += 1;
    status::OK
}

/// Returns the fields of a quote.
fn seen<'a>(quote: &Quote<'a>) -> UefiQuote<'a>
    ensures { quote_seen result (quote_of quote.now).pcr_selections ≡ quote_of quote.now }
{
    let clock_info = quote.clock_info();
    UefiQuote {
        qualified_signer: quote.qualified_signer(),
        extra_data: quote.extra_data(),
        pcr_digest: quote.pcr_digest(),
        clock: clock_info.clock,
        firmware_version: quote.firmware_version(),
        reset_count: clock_info.reset_count,
        restart_count: clock_info.restart_count,
        safe: clock_info.safe,
    }
}

/// Returns the status of a fault.
pub(crate) fn status_of(error: &QuoteError) -> UefiStatus
    ensures status { result ≡ status_of error.now }
    ensures fault { result ≢ ok }
    ensures another { result ≢ ended }
{
    match error {
        QuoteError::NotGenerated => status::NOT_GENERATED,
        QuoteError::NotQuote(_) => status::NOT_QUOTE,
        QuoteError::Safe(_) => status::BAD_SAFE,
        QuoteError::Selection => status::BAD_SELECTION,
        QuoteError::TooShort => status::TOO_SHORT,
        QuoteError::LeftOver => status::LEFT_OVER,
    }
}

/// Returns the selection of an index in the quote that the bytes are.
fn selection_at(message: &[u8], index: usize) -> Option<PcrSelection<'_>>
    ensures quote { IfSome result (λ selection. HasQuote message.now) }
    ensures selection { (quote : QuoteFields) → AreQuote message.now quote
        → option_map selection_of result ≡ slice_get quote.pcr_selections index }
    ensures few { IfSome result (λ selection. index < 2 ^ 32) }
{
    let Ok(quote) = Quote::try_from(message) else {
        return None;
    };
    quote.pcr_selections().nth(index)
}

/// Returns the PCRs of a selection as a set.
fn set_of(selection: &PcrSelection<'_>) -> u32
    ensures { result ≡ set_of (selected_pcrs (selection_of selection.now)) }
{
    let mut set = 0;
    for pcr in 0..PCR_COUNT {
        if selection.contains(PcrIndex(pcr)) {
            set += 1 << pcr;
        }
    }
    set
}
