ghost use Rattle.std.specs.Prelude.{◌≡◌, ◌^◌, ◌<◌, length};
ghost use Rattle.std.specs.Result.{result_map_both};
ghost use Rattle.tpm_quote.specs.Reading.{ReadsQuote};
ghost use Rattle.tpm_quote.specs.private.Reading.{after_header, read_quote};

use crate::big_endian::{split_sized, split_u16, split_u32, split_u64};
use crate::clock_info::ClockInfo;
use crate::pcr_selection_iter::PcrSelectionIter;
use crate::quote_error::QuoteError;

/// What a structure begins with that a TPM made (`TPM_GENERATED_VALUE`).
const GENERATED_VALUE: u32 = 0xff54_4347;

/// The type of a quote (`TPM_ST_ATTEST_QUOTE`).
const ATTEST_QUOTE: u16 = 0x8018;

/// What a TPM signs when it quotes PCRs (TPM 2.0 Library, Part 2, `TPMS_ATTEST` with
/// `TPMS_QUOTE_INFO`). All numbers are big-endian.
///
/// | bytes | field |
/// |---|---|
/// | 4 | magic, `TPM_GENERATED_VALUE`: `ff544347` |
/// | 2 | type, `TPM_ST_ATTEST_QUOTE`: `8018` |
/// | 2, and that many | qualified name of the key that signs (`TPM2B_NAME`) |
/// | 2, and that many | extra data: the nonce (`TPM2B_DATA`) |
/// | 17 | clock ([`ClockInfo`]) |
/// | 8 | firmware version |
/// | 4 | number of selections |
/// | 3 and more each | selections ([`PcrSelection`](crate::PcrSelection)) |
/// | 2, and that many | digest of the selected PCRs (`TPM2B_DIGEST`) |
///
/// A view: it borrows the bytes that it was read from, and what it returns lives as long as they do.
#[derive(Clone, Copy)]
pub struct Quote<'a> {
    qualified_signer: &'a [u8],
    extra_data: &'a [u8],
    clock_info: ClockInfo,
    firmware_version: u64,
    pcr_selections: PcrSelectionIter<'a>,
    pcr_digest: &'a [u8],
}

impl<'a> Quote<'a> {
    ghost use Rattle.tpm_quote.specs.Views.{clock_info_of, quote_of, selections_left};

    /// Returns the quote that the bytes are, or their first fault.
    #[tactic(auto, unfolding(crate::specs::private::Reading::read_quote, crate::specs::private::Reading::split_body, crate::specs::private::Reading::alone))]
    fn read(bytes: &'a [u8]) -> Result<Quote<'a>, QuoteError>
        ensures { result_map_both quote_of (λ error. error) result ≡ read_quote bytes.now }
    {
        let rest = after_header(bytes)?;
        let (qualified_signer, rest) = split_sized(rest)?;
        let (extra_data, rest) = split_sized(rest)?;
        let (clock_info, rest) = ClockInfo::split(rest)?;
        let (firmware_version, rest) = split_u64(rest)?;
        let (pcr_selections, rest) = PcrSelectionIter::split(rest)?;
        let (pcr_digest, rest) = split_sized(rest)?;
        if !rest.is_empty() {
            return Err(QuoteError::LeftOver);
        }
        Ok(Quote {
            qualified_signer,
            extra_data,
            clock_info,
            firmware_version,
            pcr_selections,
            pcr_digest,
        })
    }

    /// Returns the qualified name of the key that signs (`TPM2B_NAME`), without its size.
    pub fn qualified_signer(&self) -> &'a [u8]
        ensures { result.now ≡ (quote_of self.now).qualified_signer }
    {
        self.qualified_signer
    }

    /// Returns the data that the caller of the TPM gave, without their size: the nonce.
    pub fn extra_data(&self) -> &'a [u8]
        ensures { result.now ≡ (quote_of self.now).extra_data }
    {
        self.extra_data
    }

    /// Returns the clock of the TPM.
    pub fn clock_info(&self) -> ClockInfo
        ensures { clock_info_of result ≡ (quote_of self.now).clock_info }
    {
        self.clock_info
    }

    /// Returns the version of the TPM's firmware. What the number means is the vendor's choice.
    pub fn firmware_version(&self) -> u64
        ensures { result ≡ (quote_of self.now).firmware_version }
    {
        self.firmware_version
    }

    /// Returns an iterator over the selections, in the quote's order. A bank may be in none, or in
    /// several.
    pub fn pcr_selections(&self) -> PcrSelectionIter<'a>
        ensures selections { selections_left result ≡ (quote_of self.now).pcr_selections }
        ensures countable { length (selections_left result) < 2 ^ 32 }
    {
        self.pcr_selections
    }

    /// Returns the digest of the values of the selected PCRs, without its size. The hash algorithm
    /// is that of the key's signature.
    pub fn pcr_digest(&self) -> &'a [u8]
        ensures { result.now ≡ (quote_of self.now).pcr_digest }
    {
        self.pcr_digest
    }
}

/// Reads the quote that the bytes are, whole and alone.
///
/// # Errors
///
/// Fails exactly if the bytes are no quote, with their first fault: bytes are read from the first
/// to the last, field by field, and a field is judged once it is whole.
///
/// - [`NotGenerated`](QuoteError::NotGenerated) if the first four bytes aren't the magic.
/// - [`NotQuote`](QuoteError::NotQuote) if the type after the magic isn't that of a quote.
/// - [`Safe`](QuoteError::Safe) if the last byte of the clock is neither 0 nor 1.
/// - [`Selection`](QuoteError::Selection) if a bitmap has more than four bytes, by the size before
///   it, or a PCR above 23 is selected.
/// - [`TooShort`](QuoteError::TooShort) if the bytes end within a field or before one.
/// - [`LeftOver`](QuoteError::LeftOver) if bytes follow the quote.
impl<'a> TryFrom<&'a [u8]> for Quote<'a> {
    ghost use Rattle.tpm_quote.specs.Views.{quote_of};

    type Error = QuoteError;

    ghost try_from_gives = { λ bytes read. ReadsQuote quote_of bytes.now read };

    fn try_from(bytes: &'a [u8]) -> Result<Quote<'a>, QuoteError> {
        Quote::read(bytes)
    }
}

/// Returns the bytes after the magic and the type.
///
/// # Errors
///
/// - [`TooShort`](QuoteError::TooShort) if one of the two isn't whole.
/// - [`NotGenerated`](QuoteError::NotGenerated), [`NotQuote`](QuoteError::NotQuote) if it is
///   another than a quote's.
#[tactic(auto, unfolding(crate::specs::private::Reading::after_header, crate::specs::private::Reading::after_magic, crate::specs::private::Reading::after_type))]
fn after_header(bytes: &[u8]) -> Result<&[u8], QuoteError>
    ensures { result_map_both (λ rest. rest.now) (λ error. error) result ≡ after_header bytes.now }
{
    let (magic, rest) = split_u32(bytes)?;
    if magic != GENERATED_VALUE {
        return Err(QuoteError::NotGenerated);
    }
    let (kind, rest) = split_u16(rest)?;
    if kind != ATTEST_QUOTE {
        return Err(QuoteError::NotQuote(kind));
    }
    Ok(rest)
}
