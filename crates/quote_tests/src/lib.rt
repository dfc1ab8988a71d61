//! Tests of the library `tpm_quote` over its public names: quotes that a software TPM signed, what it
//! signs beside quotes, and bytes with each fault.
#![tactic(auto)]

#[cfg(test)]
mod tests;
