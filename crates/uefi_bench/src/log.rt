use uefi_tcg::{LastEntry, Log, v1, v2};

/// Reads the bytes as an event log of version 1 with this last entry. The sum is over PCR,
/// type, first byte of the digest and length of the data of each event.
#[unsafe(no_mangle)]
pub extern "C" fn port_log1(bytes: &[u8], last_entry: usize) -> u64 {
    let log = v1::EventLog::new(Some(bytes), Some(last_entry), false);
    let mut sum = 0u64;
    for event in log.iter() {
        let [first, ..] = event.digest();
        sum = sum
            .wrapping_add(u64::from(event.pcr_index().0))
            .wrapping_add(u64::from(event.event_type().0))
            .wrapping_add(u64::from(first))
            .wrapping_add(event.event_data().len() as u64);
    }
    sum
}

/// Reads the bytes as an event log of version 2 with this last entry. The sum is over PCR,
/// type and length of the data of each event and, if `digests` is 1, over [`digest_sum`].
#[unsafe(no_mangle)]
pub extern "C" fn port_log2(bytes: &[u8], last_entry: usize, digests: u32) -> u64 {
    let log = v2::EventLog::new(Some(bytes), Some(last_entry), false);
    let mut sum = 0u64;
    for event in log.iter() {
        sum = sum
            .wrapping_add(u64::from(event.pcr_index().0))
            .wrapping_add(u64::from(event.event_type().0))
            .wrapping_add(event.event_data().len() as u64);
        if digests == 1 {
            sum = sum.wrapping_add(digest_sum(event.digests()));
        }
    }
    sum
}

/// Returns the sum over the digests' algorithms and first bytes.
fn digest_sum(digests: v2::PcrEventDigests<'_>) -> u64 {
    let mut sum = 0u64;
    for (algorithm, digest) in digests {
        let first = digest.first().map_or(0, |byte| u64::from(*byte));
        sum = sum.wrapping_add(u64::from(algorithm.0)).wrapping_add(first);
    }
    sum
}

/// Reads the bytes as a whole event log, whose last entry is unknown. The sum is over PCR, type and
/// length of the data of each event.
#[unsafe(no_mangle)]
pub extern "C" fn port_log(bytes: &[u8]) -> u64 {
    let Ok(log) = Log::read(bytes, LastEntry::Unknown) else {
        return 0;
    };
    let mut sum = 0u64;
    for entry in log.entries() {
        sum = sum
            .wrapping_add(u64::from(entry.event.pcr_index().0))
            .wrapping_add(u64::from(entry.event.event_type().0))
            .wrapping_add(entry.event.event_data().len() as u64);
    }
    sum
}
