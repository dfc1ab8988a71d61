ghost use Rattle.std.specs.Prelude.{◌≡◌, map, IfOk};
ghost use Rattle.uefi_tcg.specs.LogViews.{entry_of};
ghost use Rattle.uefi_audits.specs.verify.Compared.{judged_pcrs, judged_pcrs_of, judged_quote, judged_quote_of, pcrs_agree, quote_agrees};
ghost use Rattle.uefi_audits.specs.verify.Quote.{received_of};

use crate::verify::coverage::Coverage;
use crate::verify::covered::covered_pcrs;
use crate::verify::held::HeldPcr;
use crate::verify::missing::missing_pcrs;
use crate::verify::named::named_pcrs;
use crate::verify::quote::{QuoteVerdict, ReceivedQuote};
use crate::verify::selection::{PcrSelection, selected_pcrs};
use crate::verify::verdict::Verdict;
use std::alloc::{AllocError, Allocator, Global};
use uefi_tcg::LogEntry;

/// The PCRs of a TPM beside those that the events of a log lead to.
#[derive(Drop)]
pub struct ComparedPcrs<A: Allocator = Global> {
    /// The PCRs that are selected.
    pub held: Vec<HeldPcr, A>,
    /// The verdict on them.
    pub verdict: Verdict<A>,
    /// Of which PCRs it speaks.
    pub coverage: Coverage<A>,
}

impl<A: Allocator + Copy> ComparedPcrs<A> {
    /// Compares those of the stated PCRs that are selected with what these events lead to, as
    /// [`Verdict::new`].
    ///
    /// # Errors
    ///
    /// [`AllocError`] if an allocation fails.
    pub fn new(
        alloc: A,
        entries: &[LogEntry<'_>],
        stated: &[HeldPcr],
        selections: &[PcrSelection],
        locality: Option<u8>,
    ) -> Result<ComparedPcrs<A>, AllocError>
        ensures { IfOk result (λ compared. judged_pcrs_of compared
            ≡ judged_pcrs locality (map entry_of entries.now) stated.now selections.now) }
    {
        let held = selected_pcrs(alloc, stated, selections)?;
        let verdict = Verdict::new(alloc, entries, held.as_slice(), locality)?;
        let covered = named_pcrs(alloc, held.as_slice())?;
        let named = named_pcrs(alloc, stated)?;
        let missing = missing_pcrs(alloc, named.as_slice(), selections)?;
        let coverage = Coverage::new(alloc, entries, covered, missing)?;
        Ok(ComparedPcrs {
            held,
            verdict,
            coverage,
        })
    }
}

impl<A: Allocator> ComparedPcrs<A> {
    /// Returns whether all PCRs agree, and all that are asked for are among them.
    pub fn agrees(&self) -> bool
        ensures { result ≡ pcrs_agree (judged_pcrs_of self.now) }
    {
        self.verdict.is_agreement() && self.coverage.is_whole()
    }
}

/// A quote beside what the events of a log lead to.
#[derive(Drop)]
pub struct ComparedQuote<'a, A: Allocator = Global> {
    /// The verdict on it.
    pub verdict: QuoteVerdict<'a>,
    /// Of which PCRs it speaks.
    pub coverage: Coverage<A>,
}

impl<'a, A: Allocator + Copy> ComparedQuote<'a, A> {
    /// Compares a quote with what these events lead to, as [`QuoteVerdict::new`]. The selections say
    /// which PCRs it has to cover.
    ///
    /// # Errors
    ///
    /// [`AllocError`] if an allocation fails.
    pub fn new(
        alloc: A,
        entries: &[LogEntry<'_>],
        received: &ReceivedQuote<'a>,
        selections: &[PcrSelection],
        locality: Option<u8>,
    ) -> Result<ComparedQuote<'a, A>, AllocError>
        ensures { IfOk result (λ compared. judged_quote_of compared ≡ judged_quote locality
            (map entry_of entries.now) (received_of received.now) selections.now) }
    {
        let verdict = QuoteVerdict::new(alloc, entries, received, locality)?;
        let covered = covered_pcrs(alloc, &received.quote)?;
        let missing = missing_pcrs(alloc, covered.as_slice(), selections)?;
        let coverage = Coverage::new(alloc, entries, covered, missing)?;
        Ok(ComparedQuote { verdict, coverage })
    }
}

impl<A: Allocator> ComparedQuote<'_, A> {
    /// Returns whether the digests agree, the quote has its nonce, and all PCRs that are asked for are
    /// covered.
    pub fn agrees(&self) -> bool
        ensures { result ≡ quote_agrees (judged_quote_of self.now) }
    {
        self.verdict.agrees() && self.coverage.is_whole()
    }
}
