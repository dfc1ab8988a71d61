//! The PCRs that a log leads to, how PCR 0 starts, and where a log ends.

mod banks;
mod logs;
mod machine_log;
pub(crate) mod quotes;
mod read_once;
mod starts;
mod texts;
