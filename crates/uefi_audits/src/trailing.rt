//! What follows the last event of a log.

ghost use Rattle.std.specs.Prelude.{◌≡◌};
ghost use Rattle.uefi_audits.specs.Trailing.{is_of_empty_log, trailing_of};

use pcr_replay::ReadLog;

/// How many bytes follow the last event of a log, and where they begin. They are padding, or they are
/// left over.
#[derive(Clone, Copy, PartialEq, Eq, Debug)]
pub struct Trailing {
    /// The offset at which the last event ends.
    pub offset: usize,
    /// How many bytes of padding follow it.
    pub padding: usize,
    /// How many other bytes do.
    pub left_over: usize,
}

impl Trailing {
    /// Returns what follows the last event of a log.
    pub fn of(read: &ReadLog<'_>) -> Trailing
        ensures { result ≡ trailing_of read.now }
    {
        Trailing {
            offset: read.end(),
            padding: read.padding().len(),
            left_over: read.left_over().len(),
        }
    }

    /// Returns whether the log is empty: it ends where it begins, and no byte follows.
    pub fn is_of_empty_log(&self) -> bool
        ensures { result ≡ is_of_empty_log self.now }
    {
        self.offset == 0 && self.padding == 0 && self.left_over == 0
    }
}
