//! What `time` lists of bytes, and what it refuses.

ghost use Rattle.std.specs.Prelude.{IfOk, OnOk, Some};
ghost use Rattle.uefi_base.specs.Appending.{AppendsText};
ghost use Rattle.uefi_records.specs.time.Views.{time_of};
ghost use Rattle.uefi_listing.specs.private.Appending.{AppendsListing};
ghost use Rattle.uefi_listing.specs.Time.{date_text, clock_text, zone_text, time_line, TimeListing};

use crate::listing::Outcome;
use std::alloc::{AllocError, Allocator};
use std::fmt;
use uefi_records::{Time, TimeByteConversionError};

/// Appends the line of a time, `time YYYY-MM-DD HH:MM:SS.NNNNNNNNN ZONE DAYLIGHT`.
///
/// ZONE is the minutes from UTC in decimal, or `local`; DAYLIGHT the bits of the flag set in
/// decimal.
///
/// # Errors
///
/// [`AllocError`] if an allocation fails. The text may have grown then.
pub fn push_time<A: Allocator>(text: &mut String<A>, time: &Time) -> Result<(), AllocError>
    ensures { OnOk result (AppendsText text.old text.new (time_line (time_of time.now))) }
{
    let (date, clock, zone) = (Date(time), Clock(time), Zone(time));
    let daylight = time.daylight().bits();
    writeln!(text, "time {date} {clock} {zone} {daylight}")
}

/// The year, the month and the day of a time, displayed with leading zeros.
#[derive(Clone, Copy)]
struct Date<'a>(&'a Time);

impl fmt::Display for Date<'_> {
    ghost output = { λ date. Some (date_text (time_of date.0.now)) };

    fn fmt<W: fmt::Write>(&self, f: &mut fmt::Formatter<W>) -> fmt::Result {
        let (year, month, day) = (self.0.year(), self.0.month(), self.0.day());
        write!(f, "{year:04}-{month:02}-{day:02}")
    }
}

/// The hour, the minute, the second and the nanosecond of a time, displayed with leading zeros.
#[derive(Clone, Copy)]
struct Clock<'a>(&'a Time);

impl fmt::Display for Clock<'_> {
    ghost output = { λ clock. Some (clock_text (time_of clock.0.now)) };

    fn fmt<W: fmt::Write>(&self, f: &mut fmt::Formatter<W>) -> fmt::Result {
        let (hour, minute, second) = (self.0.hour(), self.0.minute(), self.0.second());
        let nanosecond = self.0.nanosecond();
        write!(f, "{hour:02}:{minute:02}:{second:02}.{nanosecond:09}")
    }
}

/// The zone of a time, displayed in minutes from UTC, or as `local` if it is unspecified.
#[derive(Clone, Copy)]
struct Zone<'a>(&'a Time);

#[tactic(auto, unfolding(crate::specs::Time::zone_text))]
impl fmt::Display for Zone<'_> {
    ghost output = { λ zone. Some (zone_text (time_of zone.0.now)) };

    fn fmt<W: fmt::Write>(&self, f: &mut fmt::Formatter<W>) -> fmt::Result {
        match self.0.time_zone() {
            None => write!(f, "local"),
            Some(zone) => write!(f, "{zone}"),
        }
    }
}

/// Appends the listing of the time in the first sixteen bytes.
///
/// # Errors
///
/// [`AllocError`] if an allocation fails. The text may have grown then.
pub(crate) fn push_time_listing<A: Allocator>(
    text: &mut String<A>,
    bytes: &[u8],
) -> Result<Outcome, AllocError>
    ensures { IfOk result (AppendsListing (TimeListing bytes.now) text.old text.new) }
{
    match Time::try_from(bytes) {
        Ok(time) => {
            push_time(text, &time)?;
            Ok(Outcome::Listed)
        }
        Err(TimeByteConversionError::InvalidSize) => {
            writeln!(text, "refused InvalidSize")?;
            Ok(Outcome::Refused)
        }
        Err(TimeByteConversionError::InvalidFields(_)) => {
            writeln!(text, "refused InvalidFields")?;
            Ok(Outcome::Refused)
        }
    }
}
