use uefi_records::Time;

/// The bytes of a time.
const TIME_LENGTH: usize = 16;

/// Reads each sixteen bytes as a time. The sum is over year, day and nanosecond of each that is
/// one.
#[unsafe(no_mangle)]
pub extern "C" fn port_times(bytes: &[u8]) -> u64 {
    let mut sum = 0u64;
    for part in bytes.chunks_exact(TIME_LENGTH) {
        if let Ok(time) = Time::try_from(part) {
            sum = sum
                .wrapping_add(u64::from(time.year()))
                .wrapping_add(u64::from(time.day()))
                .wrapping_add(u64::from(time.nanosecond()));
        }
    }
    sum
}
