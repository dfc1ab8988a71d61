ghost use Rattle.std.specs.Prelude.{◌≡◌, ◌↔◌, [], ◌∷◌, map, IfOk, IsTrue, MatchOption};
ghost use Rattle.std.specs.Slice.Iter.{iter_rest};
ghost use Rattle.uefi_tcg.specs.LogViews.{event_of};
ghost use Rattle.pcr_replay.specs.Replay.{digests_by};
ghost use Rattle.uefi_audits.specs.diff.Differences.{compared_event, digests_in};
ghost use Rattle.uefi_audits.specs.diff.Views.{numbers_of, parts_of};
ghost use Rattle.uefi_audits.specs.private.diff.Digests.{digests_of};

use std::alloc::{AllocError, Global};
use std::slice::Iter;
use uefi_tcg::{AlgorithmId, LogEvent};

/// A digest with its algorithm.
type EventDigest<'a> = (AlgorithmId, &'a [u8]);

/// Which parts of events are compared, beside their PCRs and their types.
#[derive(Clone, Copy)]
pub struct ComparedParts<'p> {
    /// The algorithms whose digests are.
    pub algorithms: &'p [AlgorithmId],
    /// Whether their data are. If not, events are paired by their digests too.
    pub with_data: bool,
}

/// Returns whether two events are the same, as far as these parts tell: they are of one PCR and one
/// type, have the same digests of each algorithm, in order, and the same data, if those are compared.
///
/// The digests of an event are read once, and kept for that time.
///
/// # Errors
///
/// [`AllocError`] if an allocation fails.
pub fn is_same_event(
    alloc: Global,
    parts: &ComparedParts<'_>,
    one: &LogEvent<'_>,
    other: &LogEvent<'_>,
) -> Result<bool, AllocError>
    ensures { IfOk result (λ same. IsTrue same
        ↔ (compared_event (parts_of parts.now) (event_of one.now)
        ≡ compared_event (parts_of parts.now) (event_of other.now))) }
{
    if !is_same_but_digests(parts.with_data, one, other) {
        return Ok(false);
    }
    let ones: Vec<EventDigest<'_>> = one.digests().collect(alloc)?;
    let others: Vec<EventDigest<'_>> = other.digests().collect(alloc)?;
    Ok(are_same_digests(parts.algorithms, ones.as_slice(), others.as_slice()))
}

/// Returns whether two events are of one PCR and one type, and have the same data, if those are
/// compared.
fn is_same_but_digests(with_data: bool, one: &LogEvent<'_>, other: &LogEvent<'_>) -> bool
    ensures { IsTrue result
        ↔ (compared_event (record { algorithms = []; with_data = with_data }) (event_of one.now)
        ≡ compared_event (record { algorithms = []; with_data = with_data }) (event_of other.now)) }
{
    one.pcr_index() == other.pcr_index()
        && one.event_type() == other.event_type()
        && (!with_data || one.event_data() == other.event_data())
}

/// Returns whether these digests have the same ones of each algorithm, in order.
fn are_same_digests(
    algorithms: &[AlgorithmId],
    ones: &[EventDigest<'_>],
    others: &[EventDigest<'_>],
) -> bool
    ensures { IsTrue result ↔ (map (digests_in (digests_of ones.now)) (numbers_of algorithms.now)
        ≡ map (digests_in (digests_of others.now)) (numbers_of algorithms.now)) }
{
    for algorithm in algorithms {
        if !has_same_digests(*algorithm, ones, others) {
            return false;
        }
    }
    true
}

/// Returns whether these digests have the same ones of an algorithm, in order.
fn has_same_digests(
    algorithm: AlgorithmId,
    ones: &[EventDigest<'_>],
    others: &[EventDigest<'_>],
) -> bool
    ensures { IsTrue result ↔ (digests_in (digests_of ones.now) algorithm.0
        ≡ digests_in (digests_of others.now) algorithm.0) }
{
    let mut ones_left = ones.iter();
    let mut others_left = others.iter();
    while let Some(digest) = next_digest(&mut ones_left, algorithm) {
        if next_digest(&mut others_left, algorithm) != Some(digest) {
            return false;
        }
    }
    next_digest(&mut others_left, algorithm).is_none()
}

/// Returns the next digest of an algorithm, and passes over those of others.
fn next_digest<'a>(
    digests: &mut Iter<'_, EventDigest<'a>>,
    algorithm: AlgorithmId,
) -> Option<&'a [u8]>
    ensures { MatchOption result (digests_by algorithm.0 (digests_of (iter_rest digests.old)) ≡ [])
        (λ digest. digests_by algorithm.0 (digests_of (iter_rest digests.old))
        ≡ digest.now ∷ digests_by algorithm.0 (digests_of (iter_rest digests.new))) }
{
    while let Some((id, digest)) = digests.next() {
        if *id == algorithm {
            return Some(*digest);
        }
    }
    None
}
