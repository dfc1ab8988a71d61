//! Tests of the library `uefi_hii` over its public names: in which order errors and requests for
//! memory come. Its rows are in `crates/hii_rows/data`.
#![tactic(auto)]

#[cfg(test)]
mod tests;
