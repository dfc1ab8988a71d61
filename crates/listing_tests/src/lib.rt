//! Tests of the library `uefi_listing` over its public names: outputs that fail, and allocations that
//! fail. What each command prints is in the tables of `tests/program/cases`.
#![tactic(auto)]

#[cfg(test)]
mod tests;
