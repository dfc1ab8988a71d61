//! Tests of the library `file_input` over its public names: what reads give, how many may be made,
//! and memory that runs out.
#![tactic(auto)]

#[cfg(test)]
mod tests;
