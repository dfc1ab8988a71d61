//! Whether a log can be judged.

ghost use Rattle.std.specs.Prelude.{◌≡◌};
ghost use Rattle.uefi_audits.specs.Judgement.{is_read, judgement_of};

use crate::trailing::Trailing;
use pcr_replay::ReadLog;
use pcr_replay::entries::has_measured;

/// Whether a log can be judged.
#[derive(Clone, Copy, PartialEq, Eq, Debug)]
pub enum Judgement {
    /// It can be.
    Accepted,
    /// It has no event that extends a PCR.
    NothingMeasured,
    /// It has trailing bytes that are no padding, and these aren't allowed.
    LeftOver,
}

impl Judgement {
    /// Returns whether a log can be judged, by whether bytes other than padding may follow its last
    /// event.
    #[tactic(auto, unfolding(crate::specs::Judgement::judgement_of))]
    pub fn of(read: &ReadLog<'_>, allow_left_over: bool) -> Judgement
        ensures { result ≡ judgement_of allow_left_over read.now }
    {
        if !allow_left_over && Trailing::of(read).left_over > 0 {
            return Judgement::LeftOver;
        }
        if has_measured(read.entries()) {
            return Judgement::Accepted;
        }
        Judgement::NothingMeasured
    }

    /// Returns whether the log's events are read: they are all that it has.
    pub fn is_read(self) -> bool
        ensures { result ≡ is_read self }
    {
        self != Judgement::LeftOver
    }
}
