ghost use Rattle.std.specs.Prelude.{◌≡◌, refl, Some};
ghost use Rattle.uefi_tcg.specs.LogViews.{event_of};
ghost use Rattle.pcr_replay.specs.Replay.{digests_by};
ghost use Rattle.std.specs.Ordering.{eq_by_cmp};
ghost use Rattle.std.specs.Cmp.{eq_by_cmp_equiv, on_equiv, on_per, on_po, on_total, partial_equiv_from_equiv, po};
ghost use Rattle.uefi_audits.specs.diff.Counterparts.{first_or_none, key_cmp};
ghost use Rattle.uefi_audits.specs.diff.Views.{numbered_of};
ghost use Rattle.uefi_audits.specs.private.diff.Keys.{key_cmp_total, keyed, ranked_cmp, ranked_cmp_total, ranked_of};

use crate::diff::compared::ComparedParts;
use crate::diff::names::{EventName, name_in};
use crate::diff::pcr::NumberedEntry;
use std::cmp::Ordering;
use uefi_tcg::{AlgorithmId, LogEvent};

/// By what an event is sought among those of another log, beside its PCR and its type.
#[derive(Clone, Copy)]
pub(crate) enum KeyedBy {
    /// By its data.
    Data,
    /// By the name that its data have.
    Name,
    /// By its first digest of an algorithm.
    Digest(Option<AlgorithmId>),
}

impl KeyedBy {
    ghost use Rattle.uefi_audits.specs.diff.Differences.{first_key, second_key};
    ghost use Rattle.uefi_audits.specs.diff.Views.{parts_of};
    ghost use Rattle.uefi_audits.specs.private.diff.Keys.{key_by};

    /// Returns by what events are sought first, if these parts are compared.
    pub(crate) fn first(parts: &ComparedParts<'_>) -> KeyedBy
        ensures { key_by result ≡ first_key (parts_of parts.now) }
    {
        if parts.with_data {
            KeyedBy::Data
        } else {
            KeyedBy::Digest(parts.algorithms.first().copied())
        }
    }

    /// Returns by what those are sought that are left then.
    pub(crate) fn second(parts: &ComparedParts<'_>) -> KeyedBy
        ensures { key_by result ≡ second_key (parts_of parts.now) }
    {
        if parts.with_data {
            KeyedBy::Name
        } else {
            KeyedBy::first(parts)
        }
    }
}

/// What an event is sought by among those of another log.
#[derive(Clone, Copy)]
pub(crate) struct EventKey<'a> {
    pub(crate) pcr_index: u32,
    pub(crate) event_type: u32,
    pub(crate) namespace: &'a [u8],
    pub(crate) name: &'a [u8],
}

impl<'a> EventKey<'a> {
    ghost use Rattle.uefi_audits.specs.private.diff.Keys.{key_by};

    /// Returns the key of an event.
    pub(crate) fn new(found: &NumberedEntry<'a>, by: KeyedBy) -> EventKey<'a>
        ensures { keyed result ≡ key_by by (numbered_of found.now) }
    {
        let event = &found.entry.event;
        let name = match by {
            KeyedBy::Data => EventName::new(&[], event.event_data()),
            KeyedBy::Name => name_in(&found.content, event.event_data()),
            KeyedBy::Digest(Some(algorithm)) => EventName::new(&[], first_digest(algorithm, event)),
            KeyedBy::Digest(None) => EventName::new(&[], &[]),
        };
        EventKey {
            pcr_index: event.pcr_index().0,
            event_type: event.event_type().0,
            namespace: name.namespace,
            name: name.name,
        }
    }
}

/// Returns an event's first digest of an algorithm; nothing if it has none.
fn first_digest<'a>(algorithm: AlgorithmId, event: &LogEvent<'a>) -> &'a [u8]
    ensures { result.now ≡ first_or_none (digests_by algorithm.0 (event_of event.now).digests) }
{
    let mut digests = event.digests();
    while let Some((id, digest)) = digests.next() {
        if id == algorithm {
            return digest;
        }
    }
    &[]
}

impl<'a> PartialEq for EventKey<'a> {
    ghost eq = { λ x y. eq_by_cmp key_cmp (keyed x) (keyed y) };

    ghost laws = { on_per keyed (partial_equiv_from_equiv (eq_by_cmp_equiv key_cmp_total)) };

    fn eq(&self, other: &Self) -> bool {
        compare(self, other).is_eq()
    }
}

impl<'a> Eq for EventKey<'a> {
    ghost laws = { on_equiv keyed (eq_by_cmp_equiv key_cmp_total) };
}

impl<'a> PartialOrd for EventKey<'a> {
    ghost partial_cmp = { λ x y. Some (key_cmp (keyed x) (keyed y)) };

    ghost laws = { on_po keyed (po key_cmp_total (λ x y. refl)) };

    fn partial_cmp(&self, other: &Self) -> Option<Ordering> {
        Some(self.cmp(other))
    }
}

impl<'a> Ord for EventKey<'a> {
    ghost cmp = { λ x y. key_cmp (keyed x) (keyed y) };

    ghost total = { on_total keyed key_cmp_total };

    ghost matches_partial_cmp = { λ x y. refl };

    ghost matches_eq = { λ x y. refl };

    fn cmp(&self, other: &Self) -> Ordering {
        compare(self, other)
    }
}

/// Compares two keys: by PCR, type, namespace and name.
#[tactic(auto, unfolding(crate::specs::diff::Counterparts::key_cmp))]
fn compare(one: &EventKey<'_>, other: &EventKey<'_>) -> Ordering
    ensures { result ≡ key_cmp (keyed one.now) (keyed other.now) }
{
    let kinds = one.pcr_index.cmp(&other.pcr_index);
    let kinds = kinds.then(one.event_type.cmp(&other.event_type));
    let names = one.namespace.cmp(other.namespace);
    let names = names.then(one.name.cmp(other.name));
    kinds.then(names)
}

/// A key, and how many events before an event have it.
#[derive(Clone, Copy)]
pub(crate) struct RankedKey<'a> {
    pub(crate) key: EventKey<'a>,
    pub(crate) rank: usize,
}

impl<'a> PartialEq for RankedKey<'a> {
    ghost eq = { λ x y. eq_by_cmp ranked_cmp (ranked_of x) (ranked_of y) };

    ghost laws = { on_per ranked_of (partial_equiv_from_equiv (eq_by_cmp_equiv ranked_cmp_total)) };

    fn eq(&self, other: &Self) -> bool {
        compare_ranked(self, other).is_eq()
    }
}

impl<'a> Eq for RankedKey<'a> {
    ghost laws = { on_equiv ranked_of (eq_by_cmp_equiv ranked_cmp_total) };
}

impl<'a> PartialOrd for RankedKey<'a> {
    ghost partial_cmp = { λ x y. Some (ranked_cmp (ranked_of x) (ranked_of y)) };

    ghost laws = { on_po ranked_of (po ranked_cmp_total (λ x y. refl)) };

    fn partial_cmp(&self, other: &Self) -> Option<Ordering> {
        Some(self.cmp(other))
    }
}

impl<'a> Ord for RankedKey<'a> {
    ghost cmp = { λ x y. ranked_cmp (ranked_of x) (ranked_of y) };

    ghost total = { on_total ranked_of ranked_cmp_total };

    ghost matches_partial_cmp = { λ x y. refl };

    ghost matches_eq = { λ x y. refl };

    fn cmp(&self, other: &Self) -> Ordering {
        compare_ranked(self, other)
    }
}

/// Compares two keys with their ranks.
#[tactic(auto, unfolding(crate::specs::private::diff::Keys::ranked_cmp))]
fn compare_ranked(one: &RankedKey<'_>, other: &RankedKey<'_>) -> Ordering
    ensures { result ≡ ranked_cmp (ranked_of one.now) (ranked_of other.now) }
{
    compare(&one.key, &other.key).then(one.rank.cmp(&other.rank))
}
