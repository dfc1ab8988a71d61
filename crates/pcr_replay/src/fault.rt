ghost use Rattle.std.specs.Prelude.{Some};
ghost use Rattle.pcr_replay.specs.Texts.{fault_text, undetermined_text};

use std::error::Error;
use std::fmt;

/// Why a PCR is undetermined after an event.
#[derive(Clone, Copy, PartialEq, Eq, Debug, Drop)]
pub enum Fault {
    /// The event has no digest of the bank's algorithm.
    NoDigest,
    /// It has two digests of the bank's algorithm or more.
    TwoDigests,
    /// Its digest hasn't the length that the bank's digests have.
    OtherLength,
    /// It states a locality at which no TPM is started: not 0, 3 or 4.
    UnknownLocality,
    /// It states another locality than an event before it, or than the 4 of a hardware CRTM.
    OtherLocality,
    /// It states the locality after PCR 0 was extended, other than by a hardware CRTM.
    LateLocality,
}

/// Writes what is wrong with the event, such as `has no digest of the bank`.
impl fmt::Display for Fault {
    ghost output = { λ fault. Some (fault_text fault) };

    fn fmt<W: fmt::Write>(&self, f: &mut fmt::Formatter<W>) -> fmt::Result {
        f.write_str(match self {
            Fault::NoDigest => "has no digest of the bank",
            Fault::TwoDigests => "has two digests of the bank or more",
            Fault::OtherLength => "has a digest of another length",
            Fault::UnknownLocality => "states a locality other than 0, 3 and 4",
            Fault::OtherLocality => "states another locality than PCR 0 starts at",
            Fault::LateLocality => "states the locality after PCR 0 was extended",
        })
    }
}

/// The first event by which a PCR is undetermined.
#[derive(Clone, Copy, PartialEq, Eq, Debug, Drop)]
pub struct Undetermined {
    /// The event's index in the log: 0 for the first one.
    pub index: usize,
    /// The offset at which it starts.
    pub offset: usize,
    /// What is wrong with it.
    pub fault: Fault,
}

/// Writes the event and what is wrong with it, such as
/// `event 3 at offset 675 has no digest of the bank`.
impl fmt::Display for Undetermined {
    ghost output = { λ at. Some (undetermined_text at) };

    #[tactic(auto, unfolding(crate::specs::Texts::undetermined_text))]
    fn fmt<W: fmt::Write>(&self, f: &mut fmt::Formatter<W>) -> fmt::Result {
        let (index, offset, fault) = (self.index, self.offset, self.fault);
        write!(f, "event {index} at offset {offset} {fault}")
    }
}

impl Error for Undetermined {}
