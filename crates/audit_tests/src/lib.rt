//! Tests of the libraries `pcr_replay`, `uefi_audits` and `audit_text` over their public names: the
//! PCRs that logs lead to, the types of events, errors, allocations that fail, and what `uefi_audit`
//! doesn't print. What it prints is in the tables of `tests/audit/cases`.
#![tactic(auto)]

#[cfg(test)]
mod tests;
