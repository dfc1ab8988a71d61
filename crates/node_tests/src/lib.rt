//! Tests of the library `uefi_node` over its public names that are no rows: values that no node
//! has, paths that are built, and allocations that fail. Its rows are in `crates/node_rows/data`.
#![tactic(auto)]

#[cfg(test)]
mod tests;
