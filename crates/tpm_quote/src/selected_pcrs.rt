ghost use Rattle.std.specs.Prelude.{◌≡◌, ◌≤◌, ◌<◌, length};
ghost use Rattle.std.specs.Iterator.{YieldsFirstBy, item_count};
ghost use Rattle.tpm_quote.specs.PcrSelection.{selected_pcrs};

use crate::pcr_selection::PcrSelection;
use std::iter::FusedIterator;
use uefi_tcg::PcrIndex;

/// How many PCRs a PC has.
const PCR_COUNT: u32 = 24;

/// An iterator over the PCRs that are selected, ascending.
///
/// After the last PCR the iterator returns `None` forever.
#[derive(Clone, Copy)]
pub struct SelectedPcrs<'a> {
    selection: PcrSelection<'a>,
    next: u32,
    pub ghost within: { next ≤ 24 },
}

impl<'a> SelectedPcrs<'a> {
    ghost use Rattle.tpm_quote.specs.Views.{selection_of, pcrs_left};

    /// Returns an iterator over the PCRs of the selection.
    #[tactic(auto, using(crate::proofs::Pcrs::few_pcrs))]
    pub(crate) fn new(selection: PcrSelection<'a>) -> SelectedPcrs<'a>
        ensures pcrs { pcrs_left result ≡ selected_pcrs (selection_of selection.entry) }
        ensures countable { length (pcrs_left result) < 25 }
    {
        SelectedPcrs { selection, next: 0 }
    }
}

impl<'a> Iterator for SelectedPcrs<'a> {
    ghost use Rattle.tpm_quote.specs.Views.{pcr_of, pcrs_left};

    type Item = PcrIndex;

    ghost next_gives = { YieldsFirstBy pcr_of pcrs_left };

    ghost remaining = { item_count pcrs_left };

    #[tactic(auto, using(crate::proofs::Pcrs::next_number, crate::proofs::Pcrs::no_number))]
    fn next(&mut self) -> Option<PcrIndex> {
        while self.next < PCR_COUNT {
            let pcr = PcrIndex(self.next);
            self.next += 1;
            if self.selection.contains(pcr) {
                return Some(pcr);
            }
        }
        None
    }
}

impl<'a> FusedIterator for SelectedPcrs<'a> {}
