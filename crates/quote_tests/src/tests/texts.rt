use std::alloc::{AllocError, Global};
use std::test::Fail;
use test_support::same_text;
use tpm_quote::QuoteError;

/// Each error, and its text.
const TEXTS: [(QuoteError, &str); 6] = [
    (QuoteError::NotGenerated, "no TPM_GENERATED_VALUE"),
    (
        QuoteError::NotQuote(0x8017),
        "an attestation of type 0x8017",
    ),
    (QuoteError::Safe(2), "the byte `safe` is 2"),
    (
        QuoteError::Selection,
        "a selection of PCRs that a PC doesn't have",
    ),
    (QuoteError::TooShort, "too few bytes"),
    (QuoteError::LeftOver, "bytes after the quote"),
];

/// Returns the text of an error.
fn text(alloc: Global, error: QuoteError) -> Result<String, AllocError> {
    format!(in alloc; "{error}")
}

#[test]
fn an_error_says_what_is_wrong(rt: HostRuntime) -> Result<(), Fail> {
    for (error, expected) in &TEXTS {
        let shown = text(rt.alloc(), *error)?;
        same_text(expected, shown.as_str(), expected)?;
    }
    Ok(())
}
