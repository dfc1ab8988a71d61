ghost use Rattle.std.specs.Prelude.{OnOk};
ghost use Rattle.uefi_base.specs.Appending.{AppendsText};
ghost use Rattle.audit_text.specs.text.EventParts.{algorithm_text};

use crate::words::names::algorithm_name;
use std::alloc::AllocError;
use uefi_tcg::AlgorithmId;

/// Appends the name of an algorithm, or its number.
#[tactic(auto, unfolding(crate::specs::words::Types::name_or_number))]
pub(crate) fn push_algorithm(text: &mut String, algorithm: AlgorithmId) -> Result<(), AllocError>
    ensures { OnOk result (AppendsText text.old text.new (algorithm_text algorithm.0)) }
{
    match algorithm_name(algorithm) {
        Some(name) => text.push_str(name),
        None => {
            let number = algorithm.0;
            write!(text, "0x{number:x}")
        }
    }
}
