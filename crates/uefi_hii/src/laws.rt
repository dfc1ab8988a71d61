//! Laws of the definitions. Each holds of every value of them, and takes nothing to run.

ghost use Rattle.uefi_hii.specs.Laws.{OneGroup, OneCut};

/// States that all pairs, if there are any, begin with exactly one group, which has one result.
#[tactic(auto, using(crate::proofs::Cuts::one_group))]
pub fn one_group()
    ensures { OneGroup }
{}

/// States that all texts have exactly one cut. Two texts that `&` joins have the cuts of both, one
/// after another, where the first doesn't end with `&` and ends with a configuration that has an
/// element, and the second begins with the key `GUID`.
#[tactic(auto, using(crate::proofs::Joined::one_cut))]
pub fn one_cut()
    ensures { OneCut }
{}
