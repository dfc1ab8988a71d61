use std::test::Fail;
use test_support::same;
use uefi_base::Align;
use uefi_tcg::v1::PcrEvent;
use uefi_tcg::v2::PcrEventInputs;

#[test]
fn events_and_inputs_can_start_at_any_byte() -> Result<(), Fail> {
    let alignments = [PcrEvent::alignment(), PcrEventInputs::alignment()];
    same("alignments", &alignments, &[1, 1])
}
