ghost use Rattle.std.specs.Prelude.{◌≡◌, ◌≢◌, ◌↔◌, ◌<◌, length, [], ◌∷◌};
ghost use Rattle.uefi_records.specs.time.Faults.{IsValid, reading_faults, no_fault};
ghost use Rattle.uefi_records.specs.time.Fields.{TimeFields, StandsIn, time_bytes, time_length, without_pads};
ghost use Rattle.uefi_records.specs.time.Views.{time_of};
ghost use Rattle.uefi_c.specs.Time.{time_seen, faults_seen, HasTime, HasFaults};
ghost use Rattle.uefi_c.specs.Status.{bad_time, IsOneOf, ok, too_short};

use crate::status::{self, UefiStatus};
use uefi_records::{Daylight, Time, TimeByteConversionError, TimeError, TimeParams};

/// The zone of local time.
const UNSPECIFIED_ZONE: i16 = 0x07ff;

/// A date and a time of day.
#[derive(Clone, Copy)]
#[repr(C)]
pub struct UefiTime {
    /// The nanosecond of the second.
    pub nanosecond: u32,
    /// The year.
    pub year: u16,
    /// The zone in minutes from UTC, or 0x07ff for local time.
    pub zone: i16,
    /// The month, 1 for January.
    pub month: u8,
    /// The day of the month, 1 for the first.
    pub day: u8,
    /// The hour of the day.
    pub hour: u8,
    /// The minute of the hour.
    pub minute: u8,
    /// The second of the minute.
    pub second: u8,
    /// How daylight saving affects the time: bit 0, it does; bit 1, it is in effect.
    pub daylight: u8,
}

/// Which fields of a time are at fault.
#[derive(Clone, Copy)]
#[repr(C)]
pub struct UefiTimeFaults {
    /// The year isn't 1900 to 9999.
    pub year: bool,
    /// The month isn't 1 to 12.
    pub month: bool,
    /// The day isn't 1 to 31.
    pub day: bool,
    /// The hour is above 23.
    pub hour: bool,
    /// The minute is above 59.
    pub minute: bool,
    /// The second is above 59.
    pub second: bool,
    /// The nanosecond is above 999,999,999.
    pub nanosecond: bool,
    /// The zone is neither unspecified nor -1440 to 1440 minutes.
    pub zone: bool,
    /// Daylight has bits without a name. It is then alone at fault.
    pub daylight: bool,
}

/// No field is at fault.
const NO_FAULTS: UefiTimeFaults = UefiTimeFaults {
    year: false,
    month: false,
    day: false,
    hour: false,
    minute: false,
    second: false,
    nanosecond: false,
    zone: false,
    daylight: false,
};

/// Reads the time in the first sixteen bytes, if there are as many, and it has no fault.
#[unsafe(no_mangle)]
pub extern "C" fn uefi_time(bytes: &[u8], out: &mut UefiTime) -> UefiStatus
    ensures time { result ≡ ok → HasTime bytes.now (time_seen out.new) }
    ensures known { IsOneOf result (ok ∷ too_short ∷ bad_time ∷ []) }
    ensures short { result ≡ too_short → length bytes.now < time_length }
    ensures bad { result ≡ bad_time → (time : TimeFields) × HasFaults bytes.now time }
    ensures unchanged { result ≢ ok → out.new ≡ out.old }
{
    match Time::try_from(bytes) {
        Ok(time) => {
            *out = seen(&time);
            status::OK
        }
        Err(TimeByteConversionError::InvalidSize) => status::TOO_SHORT,
        Err(TimeByteConversionError::InvalidFields(_)) => status::BAD_TIME,
    }
}

/// Finds the fields at fault of the time in the first sixteen bytes, if there are as many: without a
/// fault none.
#[unsafe(no_mangle)]
pub extern "C" fn uefi_time_faults(bytes: &[u8], out: &mut UefiTimeFaults) -> UefiStatus
    ensures faults { result ≡ ok → (time : TimeFields) × StandsIn time bytes.now
        × (faults_seen out.new ≡ reading_faults time) }
    ensures known { IsOneOf result (ok ∷ too_short ∷ []) }
    ensures short { result ≡ too_short → length bytes.now < time_length }
    ensures unchanged { result ≢ ok → out.new ≡ out.old }
{
    match Time::try_from(bytes) {
        Ok(_time) => {
            *out = NO_FAULTS;
            status::OK
        }
        Err(TimeByteConversionError::InvalidSize) => status::TOO_SHORT,
        Err(TimeByteConversionError::InvalidFields(faults)) => {
            *out = seen_faults(&faults);
            status::OK
        }
    }
}

/// Writes the sixteen bytes of a time, if its fields are in their ranges. Any bits of daylight are.
#[unsafe(no_mangle)]
pub extern "C" fn uefi_write_time(bytes: &mut [u8; 16], time: &UefiTime) -> UefiStatus
    ensures valid { (result ≡ ok) ↔ IsValid (time_seen time.now) }
    ensures known { IsOneOf result (ok ∷ bad_time ∷ []) }
    ensures written { result ≡ ok → bytes.new ≡ time_bytes (time_seen time.now) }
    ensures unchanged { result ≢ ok → bytes.new ≡ bytes.old }
{
    let params = TimeParams {
        year: time.year,
        month: time.month,
        day: time.day,
        hour: time.hour,
        minute: time.minute,
        second: time.second,
        nanosecond: time.nanosecond,
        time_zone: Some(time.zone),
        daylight: Daylight::from_bits_retain(time.daylight),
    };
    let Ok(time) = Time::new(params) else {
        return status::BAD_TIME;
    };
    *bytes = time.to_bytes();
    status::OK
}

/// Returns the fields of a time, without its padding.
pub(crate) fn seen(time: &Time) -> UefiTime
    ensures { time_seen result ≡ without_pads (time_of time.now) }
{
    UefiTime {
        nanosecond: time.nanosecond(),
        year: time.year(),
        zone: time.time_zone().unwrap_or(UNSPECIFIED_ZONE),
        month: time.month(),
        day: time.day(),
        hour: time.hour(),
        minute: time.minute(),
        second: time.second(),
        daylight: time.daylight().bits(),
    }
}

/// Returns the sixteen bytes of a time, whatever its fields are, with zeros as padding.
#[tactic(auto, unfolding(uefi_records::specs::time::Fields::time_bytes))]
pub(crate) fn bytes_of(time: &UefiTime) -> [u8; 16]
    ensures { result ≡ time_bytes (time_seen time.now) }
{
    let time = *time;
    let [year_low, year_high] = time.year.to_le_bytes();
    let [nano_0, nano_1, nano_2, nano_3] = time.nanosecond.to_le_bytes();
    let [zone_low, zone_high] = time.zone.to_le_bytes();
    [
        year_low,
        year_high,
        time.month,
        time.day,
        time.hour,
        time.minute,
        time.second,
        0,
        nano_0,
        nano_1,
        nano_2,
        nano_3,
        zone_low,
        zone_high,
        time.daylight,
        0,
    ]
}

/// Returns the fields at fault.
fn seen_faults(faults: &TimeError) -> UefiTimeFaults
    ensures { faults_seen result ≡ faults.now }
{
    UefiTimeFaults {
        year: faults.year,
        month: faults.month,
        day: faults.day,
        hour: faults.hour,
        minute: faults.minute,
        second: faults.second,
        nanosecond: faults.nanosecond,
        zone: faults.timezone,
        daylight: faults.daylight,
    }
}
