//! Tests of the library `boot_listing` over its public names: what each function returns, and
//! allocations that fail. What each command prints is in the tables of `tests/boot/cases`.
#![tactic(auto)]

#[cfg(test)]
mod tests;
