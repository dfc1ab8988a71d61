//! Laws of the definitions. Each function states a law that holds for all values, and does nothing
//! when it runs.

ghost use Rattle.tpm_quote.specs.Laws.{OneQuote, OneVerdict, PcrsOfSelection};
ghost use Rattle.tpm_quote.specs.rows.Quotes.{RowsHold};

/// States that bytes are at most one quote.
#[tactic(auto, using(crate::proofs::Verdicts::one_quote))]
pub fn one_quote()
    ensures { OneQuote }
{}

/// States that bytes which are a quote have no fault, that other bytes have one, and that no bytes
/// have two. So a reader that returns the quote or the fault of its bytes reads each quote, and
/// refuses nothing else.
#[tactic(auto, using(crate::proofs::Verdicts::one_verdict))]
pub fn one_verdict()
    ensures { OneVerdict }
{}

/// States that the PCRs of a selection are those that it selects, that they are below 24, and that
/// they ascend.
#[tactic(auto, using(crate::proofs::PcrLaws::pcrs_of_selection))]
pub fn pcrs_of_selection()
    ensures { PcrsOfSelection }
{}

/// States that the definitions hold on worked rows: the bytes of a quote, of a selection, and what
/// is selected.
#[tactic(auto, using(crate::proofs::Rows::rows_hold))]
pub fn worked_rows()
    ensures { RowsHold }
{}
