ghost use Rattle.std.specs.Prelude.{◌≡◌, ◌≤◌, ◌↔◌, length, IsOk, IfOk, IfErr, nat_eq};
ghost use Rattle.std.specs.Cmp.{partial_equiv_from_equiv, on_per, on_equiv};
ghost use Rattle.std.specs.Cmp.Lexicographic.{pointwise, nat_list_eq_equiv};
ghost use Rattle.uefi_records.specs.time.Fields.{Fits, StandsIn, time_bytes, time_in, time_length, stated_zone, zero_time};
ghost use Rattle.uefi_records.specs.time.Faults.{IsValid, range_faults, is_zone_outside};
ghost use Rattle.uefi_records.specs.time.Views.{time_of, fields_of, bytes_of_time};
ghost use Rattle.uefi_records.specs.flags.Views.{daylight_bits};
ghost use Rattle.uefi_records.specs.time.Reading.{ReadsTime};

pub use self::error::{TimeByteConversionError, TimeError};
pub use self::params::TimeParams;
use crate::flags::Daylight;
use uefi_base::little_endian::{u16_at, u32_at};

mod error;
mod params;

/// The length of a time, in bytes.
const TIME_LENGTH: usize = 16;

// The offsets of the fields.
const YEAR_OFFSET: usize = 0;

const MONTH_OFFSET: usize = 2;

const DAY_OFFSET: usize = 3;

const HOUR_OFFSET: usize = 4;

const MINUTE_OFFSET: usize = 5;

const SECOND_OFFSET: usize = 6;

const FIRST_PAD_OFFSET: usize = 7;

const NANOSECOND_OFFSET: usize = 8;

const ZONE_OFFSET: usize = 12;

const DAYLIGHT_OFFSET: usize = 14;

const LAST_PAD_OFFSET: usize = 15;

/// The zone of local time, `EFI_UNSPECIFIED_TIMEZONE`.
const UNSPECIFIED_TIMEZONE: i16 = 0x07ff;

/// A date and a time of day (UEFI 2.10, 8.3 `GetTime()`, `EFI_TIME`).
///
/// | offset | bytes | field | range |
/// |---|---|---|---|
/// | 0 | 2 | year, little-endian | 1900 to 9999 |
/// | 2 | 1 | month | 1 to 12 |
/// | 3 | 1 | day | 1 to 31, in every month |
/// | 4 | 1 | hour | 0 to 23 |
/// | 5 | 1 | minute | 0 to 59 |
/// | 6 | 1 | second | 0 to 59 |
/// | 7 | 1 | padding | |
/// | 8 | 4 | nanosecond, little-endian | 0 to 999,999,999 |
/// | 12 | 2 | zone in minutes from UTC, signed, little-endian | -1440 to 1440, or 0x07ff: local time |
/// | 14 | 1 | [`Daylight`] | |
/// | 15 | 1 | padding | |
///
/// A value, whose fields may be outside their ranges: [`Time::is_valid`] says which are. Two times
/// are equal if all their sixteen bytes are. The fields lie in memory as in the table: the layout is
/// that of C.
///
/// # Examples
///
/// A time, written to its sixteen bytes and read again:
///
/// ```
/// pub fn read_back(time: &Time) -> Result<Time, TimeByteConversionError> {
///     let bytes = time.to_bytes();
///     Time::try_from(bytes.as_slice())
/// }
/// ```
#[derive(Clone, Copy, Debug)]
#[repr(C)]
pub struct Time {
    year: u16,
    month: u8,
    day: u8,
    hour: u8,
    minute: u8,
    second: u8,
    first_pad: u8,
    nanosecond: u32,
    zone: i16,
    daylight: Daylight,
    last_pad: u8,
}

const _: () = prove!(size_of::<Time>() == TIME_LENGTH);

impl Time {
    /// Makes the time with these fields, and zeros in its padding. A zone of `None` is stored as
    /// 0x07ff, so the zone 2047 reads back as `None`.
    ///
    /// # Errors
    ///
    /// The fields outside their ranges, if there are any. Daylight is never at fault here.
    pub fn new(params: TimeParams) -> Result<Time, TimeError>
        ensures accepted { IsOk result ↔ IsValid (fields_of params) }
        ensures made { IfOk result (λ time. time_of time ≡ fields_of params) }
        ensures faults { IfErr result (λ faults. faults ≡ range_faults (fields_of params)) }
    {
        let time = Time {
            year: params.year,
            month: params.month,
            day: params.day,
            hour: params.hour,
            minute: params.minute,
            second: params.second,
            first_pad: 0,
            nanosecond: params.nanosecond,
            zone: params.time_zone.unwrap_or(UNSPECIFIED_TIMEZONE),
            daylight: params.daylight,
            last_pad: 0,
        };
        time.is_valid()?;
        Ok(time)
    }

    /// Returns the time whose bytes are all zero. To firmware it means that a file's time is not to
    /// be changed (UEFI 2.10, 13.5 `EFI_FILE_PROTOCOL.SetInfo()`). Its year, month and day are
    /// outside their ranges.
    pub fn invalid() -> Time
        ensures { time_of result ≡ zero_time }
    {
        Time {
            year: 0,
            month: 0,
            day: 0,
            hour: 0,
            minute: 0,
            second: 0,
            first_pad: 0,
            nanosecond: 0,
            zone: 0,
            daylight: Daylight::empty(),
            last_pad: 0,
        }
    }

    /// Tests whether each field but daylight is within its range.
    ///
    /// # Errors
    ///
    /// The fields outside their ranges, if there are any. Daylight is never at fault here.
    pub fn is_valid(&self) -> Result<(), TimeError>
        ensures accepted { IsOk result ↔ IsValid (time_of self.now) }
        ensures faults { IfErr result (λ faults. faults ≡ range_faults (time_of self.now)) }
    {
        let faults = self.range_faults();
        if faults == TimeError::default() {
            Ok(())
        } else {
            Err(faults)
        }
    }

    /// Returns the fields outside their ranges. Daylight is never at fault here.
    fn range_faults(&self) -> TimeError
        ensures { result ≡ range_faults (time_of self.now) }
    {
        TimeError {
            year: !(1900..=9999).contains(&self.year),
            month: !(1..=12).contains(&self.month),
            day: !(1..=31).contains(&self.day),
            hour: !(0..=23).contains(&self.hour),
            minute: !(0..=59).contains(&self.minute),
            second: !(0..=59).contains(&self.second),
            nanosecond: !(0..=999_999_999).contains(&self.nanosecond),
            timezone: is_zone_outside(self.zone),
            daylight: false,
        }
    }

    /// Returns the year.
    pub fn year(&self) -> u16
        ensures { result ≡ (time_of self.now).year }
    {
        self.year
    }

    /// Returns the month, 1 for January.
    pub fn month(&self) -> u8
        ensures { result ≡ (time_of self.now).month }
    {
        self.month
    }

    /// Returns the day of the month, 1 for the first.
    pub fn day(&self) -> u8
        ensures { result ≡ (time_of self.now).day }
    {
        self.day
    }

    /// Returns the hour of the day.
    pub fn hour(&self) -> u8
        ensures { result ≡ (time_of self.now).hour }
    {
        self.hour
    }

    /// Returns the minute of the hour.
    pub fn minute(&self) -> u8
        ensures { result ≡ (time_of self.now).minute }
    {
        self.minute
    }

    /// Returns the second of the minute.
    pub fn second(&self) -> u8
        ensures { result ≡ (time_of self.now).second }
    {
        self.second
    }

    /// Returns the nanosecond of the second.
    pub fn nanosecond(&self) -> u32
        ensures { result ≡ (time_of self.now).nanosecond }
    {
        self.nanosecond
    }

    /// Returns the zone in minutes from UTC, or `None` for local time.
    pub fn time_zone(&self) -> Option<i16>
        ensures { result ≡ stated_zone (time_of self.now).zone }
    {
        (self.zone != UNSPECIFIED_TIMEZONE).then_some(self.zone)
    }

    /// Returns how daylight saving affects the time: all bits, including those without a name.
    pub fn daylight(&self) -> Daylight
        ensures { daylight_bits result ≡ (time_of self.now).daylight }
    {
        self.daylight
    }

    /// Returns the sixteen bytes of the time, with its padding.
    #[tactic(auto, unfolding(crate::specs::time::Fields::time_bytes))]
    pub fn to_bytes(&self) -> [u8; TIME_LENGTH]
        ensures bytes { result ≡ time_bytes (time_of self.now) }
        ensures fits { Fits (time_of self.now) }
    {
        let time = *self;
        let [year_low, year_high] = time.year.to_le_bytes();
        let [nano_0, nano_1, nano_2, nano_3] = time.nanosecond.to_le_bytes();
        let [zone_low, zone_high] = time.zone.to_le_bytes();
        [
            year_low,
            year_high,
            time.month,
            time.day,
            time.hour,
            time.minute,
            time.second,
            time.first_pad,
            nano_0,
            nano_1,
            nano_2,
            nano_3,
            zone_low,
            zone_high,
            time.daylight.bits(),
            time.last_pad,
        ]
    }

    /// Returns the time in the first sixteen bytes, whatever its fields are.
    pub(crate) fn read(bytes: &[u8]) -> Time
        requires { time_length ≤ length bytes.now }
        ensures fields { time_of result ≡ time_in bytes.now }
        ensures stands { StandsIn (time_of result) bytes.now }
    {
        Time {
            year: u16_at(bytes, YEAR_OFFSET),
            month: bytes[MONTH_OFFSET],
            day: bytes[DAY_OFFSET],
            hour: bytes[HOUR_OFFSET],
            minute: bytes[MINUTE_OFFSET],
            second: bytes[SECOND_OFFSET],
            first_pad: bytes[FIRST_PAD_OFFSET],
            nanosecond: u32_at(bytes, NANOSECOND_OFFSET),
            zone: u16_at(bytes, ZONE_OFFSET).cast_signed(),
            daylight: Daylight::from_bits_retain(bytes[DAYLIGHT_OFFSET]),
            last_pad: bytes[LAST_PAD_OFFSET],
        }
    }
}

/// Returns whether a zone is neither unspecified nor within a day of UTC.
fn is_zone_outside(zone: i16) -> bool
    ensures { result ≡ is_zone_outside zone }
{
    zone != UNSPECIFIED_TIMEZONE && !(-1440..=1440).contains(&zone)
}

/// Reads the time in the first sixteen bytes. What follows is ignored, and the padding becomes
/// zero.
///
/// # Errors
///
/// In this order:
/// - [`TimeByteConversionError::InvalidSize`], if there are fewer than sixteen bytes.
/// - [`TimeByteConversionError::InvalidFields`] with daylight alone, if daylight has a bit without
///   a name.
/// - [`TimeByteConversionError::InvalidFields`] with all fields outside their ranges, if there are
///   any.
impl TryFrom<&[u8]> for Time {
    type Error = TimeByteConversionError;

    ghost try_from_gives = { λ bytes read. ReadsTime time_of bytes.now read };

    fn try_from(bytes: &[u8]) -> Result<Time, TimeByteConversionError> {
        if bytes.len() < TIME_LENGTH {
            return Err(TimeByteConversionError::InvalidSize);
        }
        let time = Time::read(bytes);
        if Daylight::from_bits(time.daylight.bits()).is_none() {
            return Err(TimeByteConversionError::InvalidFields(TimeError {
                daylight: true,
                ..TimeError::default()
            }));
        }
        time.is_valid()
            .map_err(TimeByteConversionError::InvalidFields)?;
        Ok(Time {
            first_pad: 0,
            last_pad: 0,
            ..time
        })
    }
}

impl PartialEq for Time {
    ghost eq = { λ x y. pointwise nat_eq (bytes_of_time x) (bytes_of_time y) };

    ghost laws = { on_per bytes_of_time (partial_equiv_from_equiv nat_list_eq_equiv) };

    fn eq(&self, other: &Self) -> bool {
        self.to_bytes() == other.to_bytes()
    }
}

impl Eq for Time {
    ghost laws = { on_equiv bytes_of_time nat_list_eq_equiv };
}
