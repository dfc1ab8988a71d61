ghost use Rattle.std.specs.Prelude.{◌≡◌, ◌≢◌, ◌<◌, ◌≤◌, ◌^◌, ◌↔◌, ◌==◌, List, [], ◌∷◌, ◌++◌, length, Some, Err, IfOk, IfErr, IfNone, IfSome, MatchResult};
ghost use Rattle.uefi_base.specs.Prefix.{IsPrefix};
ghost use Rattle.uefi_tcg.specs.Entries.{with_sha1};
ghost use Rattle.uefi_tcg.specs.v2.Digests.{digest_bytes};
ghost use Rattle.uefi_tcg.specs.v2.Event.{Digest, IsDigest};
ghost use Rattle.uefi_tcg.specs.v2.Reading.{rows_in};
ghost use Rattle.uefi_tcg.specs.v2.Views.{table_of};
ghost use Rattle.uefi_c.specs.EventDigest.{HasFirst, IsAnswer, IsNoDigest, IsNoFirst, IsNoSha1, first_digest};
ghost use Rattle.uefi_c.specs.Faults.{BeginsWithUnknown};
ghost use Rattle.uefi_c.specs.Log.{AreDigests};
ghost use Rattle.uefi_c.specs.LogSteps.{HasNoVersion};
ghost use Rattle.uefi_c.specs.Status.{IsOneOf, cut, no_digest, no_event, ok, too_many_algorithms, unknown_algorithm};

use crate::log::UefiEvent;
use crate::log2_fault::is_unknown;
use crate::status::{self, UefiStatus};
use uefi_tcg::AlgorithmId;
use uefi_tcg::v2::AlgorithmDigestSizes;

/// The length of a SHA-1 digest.
const SHA1_LENGTH: usize = 20;

/// Reads the first digest of an algorithm in an event: in version 1 that of SHA-1, which is the only
/// one.
///
/// If there is none, it returns why. With fields that no log gave, these may be the reasons too: the
/// bytes cut a digest, one is of an algorithm that has no row, there are 2^32 rows or more, or the
/// version is neither 1 nor 2.
#[unsafe(no_mangle)]
pub extern "C" fn uefi_event_digest<'a>(
    event: &UefiEvent<'a>,
    algorithm: u16,
    out: &mut &'a [u8],
) -> UefiStatus
    ensures digest { (digests : List Digest) → AreDigests event.now digests
        → IsAnswer result out.new.now (first_digest algorithm digests) }
    ensures known { IsOneOf result (ok ∷ no_digest ∷ cut ∷ unknown_algorithm ∷ too_many_algorithms
        ∷ no_event ∷ []) }
    ensures has_1 { result ≡ ok → event.now.version ≡ 1
        → (algorithm ≡ 4) × (out.new.now ≡ event.now.digests.now) }
    ensures has_2 { result ≡ ok → event.now.version ≡ 2
        → HasFirst algorithm (rows_in event.now.rows.now) event.now.digests.now out.new.now }
    ensures no_1 { result ≢ ok → event.now.version ≡ 1
        → IsNoSha1 algorithm event.now.digests.now result }
    ensures no_2 { result ≢ ok → event.now.version ≡ 2
        → IsNoDigest algorithm (rows_in event.now.rows.now) event.now.digests.now result }
    ensures version { (result ≡ no_event) ↔ HasNoVersion event.now.version }
    ensures unchanged { result ≢ ok → out.new ≡ out.old }
{
    let digests = event.digests;
    let rows = event.rows;
    match digest_in(digests, rows, event.version, algorithm) {
        Ok(digest) => {
            *out = digest;
            status::OK
        }
        Err(status) => status,
    }
}

/// Returns the digest of an algorithm in an event of this version, or the status that says why there
/// is none.
fn digest_in<'a>(
    digests: &'a [u8],
    rows: &[u8],
    version: u32,
    algorithm: u16,
) -> Result<&'a [u8], UefiStatus>
    ensures of_1 { version ≡ 1 → MatchResult result
        (λ digest. (algorithm ≡ 4) × (length digests.now ≡ 20) × (digest.now ≡ digests.now))
        (λ status. IsNoSha1 algorithm digests.now status) }
    ensures of_2 { version ≡ 2 → MatchResult result
        (λ digest. HasFirst algorithm (rows_in rows.now) digests.now digest.now)
        (λ status. IsNoDigest algorithm (rows_in rows.now) digests.now status) }
    ensures no_other { HasNoVersion version → result ≡ Err no_event }
    ensures only_other { IfErr result (λ status. status ≡ no_event → HasNoVersion version) }
{
    match version {
        1 => sha1_in(digests, algorithm),
        2 => first_in(digests, rows, algorithm),
        _ => Err(status::NO_EVENT),
    }
}

/// Returns the SHA-1 digest that the bytes are, if they are one, and the algorithm is SHA-1.
fn sha1_in(digest: &[u8], algorithm: u16) -> Result<&[u8], UefiStatus>
    ensures { MatchResult result
        (λ found. (algorithm ≡ 4) × (length digest.now ≡ 20) × (found.now ≡ digest.now))
        (λ status. IsNoSha1 algorithm digest.now status) }
{
    if digest.len() != SHA1_LENGTH {
        return Err(status::CUT);
    }
    if algorithm != AlgorithmId::SHA1.0 {
        return Err(status::NO_DIGEST);
    }
    Ok(digest)
}

/// Returns the first digest of an algorithm among those that the bytes encode under the table of
/// these rows.
fn first_in<'a>(digests: &'a [u8], rows: &[u8], algorithm: u16) -> Result<&'a [u8], UefiStatus>
    ensures { MatchResult result
        (λ digest. HasFirst algorithm (rows_in rows.now) digests.now digest.now)
        (λ status. IsNoDigest algorithm (rows_in rows.now) digests.now status) }
{
    match AlgorithmDigestSizes::from_rows(rows) {
        Some(sizes) => first_under(digests, &sizes, algorithm),
        None => Err(status::TOO_MANY_ALGORITHMS),
    }
}

/// Returns the first digest of an algorithm among those that the bytes encode under a table.
fn first_under<'a>(
    digests: &'a [u8],
    sizes: &AlgorithmDigestSizes<'_>,
    algorithm: u16,
) -> Result<&'a [u8], UefiStatus>
    ensures first { MatchResult result
        (λ digest. HasFirst algorithm (table_of sizes.now) digests.now digest.now)
        (λ status. IsNoFirst algorithm (table_of sizes.now) digests.now status) }
    ensures known { IfErr result
        (λ status. IsOneOf status (no_digest ∷ cut ∷ unknown_algorithm ∷ [])) }
{
    let mut rest = digests;
    while let Some(((id, digest), after)) = sizes.first_digest(rest) {
        if id.0 == algorithm {
            return Ok(digest);
        }
        rest = after;
    }
    Err(no_more(rest, sizes))
}

/// Returns why bytes begin with no digest under a table: there are none, or why they should begin
/// with one and don't.
fn no_more(bytes: &[u8], sizes: &AlgorithmDigestSizes<'_>) -> UefiStatus
    ensures known { IsOneOf result (no_digest ∷ cut ∷ unknown_algorithm ∷ []) }
    ensures ends { result ≡ no_digest → bytes.now ≡ [] }
    ensures unknown { result ≡ unknown_algorithm → BeginsWithUnknown (table_of sizes.now) bytes.now }
    ensures is_cut { result ≡ cut
        → (bytes.now ≢ []) × ¬ BeginsWithUnknown (table_of sizes.now) bytes.now }
{
    if bytes.is_empty() {
        return status::NO_DIGEST;
    }
    if is_unknown(bytes, sizes) {
        status::UNKNOWN_ALGORITHM
    } else {
        status::CUT
    }
}
