//! Tests of the library `uefi_tcg` over its public names that are no rows: copies of iterators,
//! and alignments. The rows are in `crates/tcg_rows/data`.
#![tactic(auto)]

#[cfg(test)]
mod tests;
