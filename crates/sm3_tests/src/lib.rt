//! Tests of the library `sm3` over its public names: the standard's examples, and digests that
//! OpenSSL computed.
#![tactic(auto)]

#[cfg(test)]
mod tests;
