use crate::tests::samples::{CERTIFY, ECC_THREE_BANKS, RSA_ONE_BANK, RSA_TWO_BANKS};
use std::test::Fail;
use test_support::{bytes, each_reads, same};
use tpm_quote::{Quote, QuoteError};
use uefi_tcg::{AlgorithmId, PcrIndex};

/// Returns whether `message` is a quote with this nonce.
fn has_nonce(message: &[u8], nonce: &[u8]) -> Result<bool, QuoteError> {
    let quote = Quote::try_from(message)?;
    Ok(quote.extra_data() == nonce)
}

#[test]
fn a_nonce_is_compared(rt: HostRuntime) -> Result<(), Fail> {
    let nonce = bytes(rt.alloc(), "0123456789abcdef")?;
    let message = bytes(rt.alloc(), RSA_ONE_BANK)?;
    let found = has_nonce(message.as_slice(), nonce.as_slice());
    same("its own", &found, &Ok(true))?;
    let message = bytes(rt.alloc(), RSA_TWO_BANKS)?;
    let found = has_nonce(message.as_slice(), nonce.as_slice());
    same("another", &found, &Ok(false))?;
    let message = bytes(rt.alloc(), CERTIFY)?;
    let found = has_nonce(message.as_slice(), nonce.as_slice());
    same("no quote", &found, &Err(QuoteError::NotQuote(0x8017)))
}

/// Returns whether the bytes are a quote over PCR 7 of SHA-256.
fn is_over_pcr_7(message: &[u8]) -> bool {
    let Ok(quote) = Quote::try_from(message) else {
        return false;
    };
    for selection in quote.pcr_selections() {
        if selection.algorithm() == AlgorithmId::SHA256 && selection.contains(PcrIndex(7)) {
            return true;
        }
    }
    false
}

#[test]
fn a_pcr_is_sought_in_all_selections(rt: HostRuntime) -> Result<(), Fail> {
    let rows = [
        (RSA_ONE_BANK, true),
        (RSA_TWO_BANKS, true),
        (ECC_THREE_BANKS, false),
        (CERTIFY, false),
    ];
    each_reads(rt.alloc(), &rows, is_over_pcr_7)
}
