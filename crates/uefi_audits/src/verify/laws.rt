//! Laws of the definitions. Each holds of every value of them, and takes nothing to run.

ghost use Rattle.uefi_audits.specs.verify.Verdict.{AgreeByVerdict};

/// States that the verdict on PCRs, beside a replay of the banks of which a PCR is held, is
/// agreement exactly if each PCR holds what the log leads to.
pub fn agree_by_verdict()
    ensures { AgreeByVerdict }
{}
