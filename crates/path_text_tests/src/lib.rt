//! Tests of the library `uefi_path_text` over its public names that are no rows: what a buffer
//! holds, and allocations that fail. Its rows are in `crates/path_text_rows/data`.
#![tactic(auto)]

#[cfg(test)]
mod tests;
