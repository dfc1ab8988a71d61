//! What an event log leads to, as the lines that the program `uefi_audit` prints.
//!
//! Begin with a value of `uefi_audits`, such as the PCRs that
//! [`replay_banks`](uefi_audits::replay::replay_banks) returns. [`push_banks`] appends them as
//! `tpm2_pcrread` of tpm2-tools prints PCRs, and [`push_verdict`] whether they are those that a TPM
//! held; [`push_quote_verdict`] says it of a TPM's quote, after [`push_other_nonce`] and
//! [`push_quote`]. [`push_differences`] appends how the events of two logs differ, [`push_change`] what changed
//! between an event of one and its counterpart in the other, [`push_event_blocks`] the events of one,
//! and [`push_check`] what was checked of them.
//!
//! The other calls append lines for standard error: [`push_header_fault`] why a log has no header,
//! [`push_judgement`] why it can't be judged and the bytes that follow its last event, [`push_start`] the locality that is assumed,
//! [`push_inactive`] and [`push_unsupported`] the banks that weren't replayed, [`push_undetermined`]
//! the events by which PCRs are undetermined, [`push_ignored`] those that have no effect and should
//! have, [`push_uncompared`] the PCRs that events extend and that weren't compared, and
//! [`push_missing`] those that are asked for and not stated, and [`push_no_digest`] and
//! [`push_no_pcr`] why a log can't be compared with a quote. Each line begins with the file's name, as
//! [`ShownName`](shown::ShownName) displays it.

pub use self::banks::{push_bank, push_banks};
pub use self::check::push_check;
pub use self::diff::{push_change, push_differences};
pub use self::events::{push_event_blocks, push_header_block};
pub use self::header_fault::push_header_fault;
pub use self::ignored::push_ignored;
pub use self::judgement::{push_judgement, push_many_algorithms};
pub use self::missing::push_missing;
pub use self::quote::{
    push_no_digest, push_no_pcr, push_other_nonce, push_quote, push_quote_verdict,
};
pub use self::start::push_start;
pub use self::trailing::push_trailing;
pub use self::uncompared::push_uncompared;
pub use self::undetermined::push_undetermined;
pub use self::unreplayed::{push_inactive, push_unsupported};
pub use self::verdict::push_verdict;

mod agreement;
mod banks;
mod check;
mod diff;
mod events;
mod header_fault;
mod ignored;
mod judgement;
mod missing;
mod out_of_place;
mod quote;
mod start;
mod trailing;
mod uncompared;
mod undetermined;
mod unreplayed;
mod verdict;
