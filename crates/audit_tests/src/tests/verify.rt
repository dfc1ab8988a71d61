//! Whether a log leads to the PCRs or the quote of a TPM.

mod json;
mod memory;
mod missing;
mod quotes;
mod uncompared;
mod verdict;
