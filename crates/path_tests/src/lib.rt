//! Tests of the library `uefi_path` over its public names that are no rows: views of what was
//! written, builders, and memory that runs out. Its rows are in `crates/path_rows/data`.
#![tactic(auto)]

#[cfg(test)]
mod tests;
