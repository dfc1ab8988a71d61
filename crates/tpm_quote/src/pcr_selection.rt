ghost use Rattle.std.specs.Prelude.{◌≡◌, ◌+◌, ◌<◌, ◌↔◌, IsTrue, slice_index, IfOk, length};
ghost use Rattle.std.specs.Result.{result_map_both};
ghost use Rattle.tpm_quote.specs.PcrSelection.{IsSelected, selected_pcrs};
ghost use Rattle.tpm_quote.specs.private.Reading.{split_bitmap, split_selection};

use crate::big_endian::{split_bytes, split_u8, split_u16};
use crate::quote_error::QuoteError;
use crate::selected_pcrs::SelectedPcrs;
use uefi_tcg::{AlgorithmId, PcrIndex};

/// The most bytes that a bitmap may have.
const LONGEST_BITMAP: u8 = 4;

/// The index of the byte that has PCR 24 to 31.
const BYTE_OF_PCR_24: usize = 3;

/// The PCRs of one bank that a quote is over (TPM 2.0 Library, Part 2, `TPMS_PCR_SELECTION`).
///
/// | offset | bytes | field |
/// |---|---|---|
/// | 0 | 2 | hash algorithm of the bank, big-endian |
/// | 2 | 1 | length of the bitmap in bytes, at most 4 |
/// | 3 | that length | bitmap: PCR n is bit n % 8 of byte n / 8, and none above 23 is selected |
///
/// A view: the bitmap lives as long as the bytes that it was read from.
#[derive(Clone, Copy)]
pub struct PcrSelection<'a> {
    algorithm: AlgorithmId,
    bitmap: &'a [u8],
}

impl<'a> PcrSelection<'a> {
    ghost use Rattle.tpm_quote.specs.Views.{selection_of, pcrs_left};

    /// Returns the selection that the bytes begin with, and the bytes after it.
    ///
    /// # Errors
    ///
    /// - [`TooShort`](QuoteError::TooShort) if a field isn't whole.
    /// - [`Selection`](QuoteError::Selection) if the bitmap has more than four bytes, by its size,
    ///   or a PCR above 23 is selected.
    #[tactic(auto, unfolding(crate::specs::private::Reading::split_selection))]
    pub(crate) fn split(bytes: &'a [u8]) -> Result<(PcrSelection<'a>, &'a [u8]), QuoteError>
        ensures { result_map_both (λ split. (selection_of split.0, split.1.now)) (λ error. error) result
            ≡ split_selection bytes.now }
    {
        let (algorithm, rest) = split_u16(bytes)?;
        let (bitmap, rest) = split_bitmap(rest)?;
        let algorithm = AlgorithmId(algorithm);
        Ok((PcrSelection { algorithm, bitmap }, rest))
    }

    /// Returns the hash algorithm of the bank.
    pub fn algorithm(&self) -> AlgorithmId
        ensures { result.0 ≡ (selection_of self.now).algorithm }
    {
        self.algorithm
    }

    /// Returns the bitmap: PCR n is bit n % 8 of byte n / 8.
    pub fn bitmap(&self) -> &'a [u8]
        ensures { result.now ≡ (selection_of self.now).bitmap }
    {
        self.bitmap
    }

    /// Returns whether the PCR is selected: no, if the bitmap ends before it.
    pub fn contains(&self, pcr: PcrIndex) -> bool
        ensures { IsTrue result ↔ IsSelected (selection_of self.now) pcr.0 }
    {
        let byte = byte_at(self.bitmap, (pcr.0 / 8) as usize);
        (byte >> (pcr.0 % 8)) & 1 == 1
    }

    /// Returns an iterator over the PCRs that are selected, ascending.
    pub fn pcrs(&self) -> SelectedPcrs<'a>
        ensures pcrs { pcrs_left result ≡ selected_pcrs (selection_of self.now) }
        ensures countable { length (pcrs_left result) < 25 }
    {
        SelectedPcrs::new(*self)
    }
}

/// Splits a bitmap off whose size, a number of one byte, is before it.
///
/// # Errors
///
/// - [`Selection`](QuoteError::Selection) if the size is above 4, or a PCR above 23 is selected: the
///   fourth byte has PCR 24 to 31.
/// - [`TooShort`](QuoteError::TooShort) if the size is missing, or a byte of the bitmap.
#[tactic(auto, unfolding(crate::specs::private::Reading::split_bitmap, crate::specs::private::Reading::split_size, crate::specs::private::Reading::split_bits))]
fn split_bitmap(bytes: &[u8]) -> Result<(&[u8], &[u8]), QuoteError>
    ensures { result_map_both (λ split. (split.0.now, split.1.now)) (λ error. error) result
        ≡ split_bitmap bytes.now }
{
    let (size, rest) = split_u8(bytes)?;
    if size > LONGEST_BITMAP {
        return Err(QuoteError::Selection);
    }
    let (bitmap, rest) = split_bytes(rest, size as usize)?;
    if byte_at(bitmap, BYTE_OF_PCR_24) > 0 {
        return Err(QuoteError::Selection);
    }
    Ok((bitmap, rest))
}

/// Returns the byte at the index, or 0 if the bytes end before it.
fn byte_at(bytes: &[u8], index: usize) -> u8
    ensures { result ≡ slice_index bytes.now index }
{
    match bytes.get(index) {
        Some(byte) => *byte,
        None => 0,
    }
}
