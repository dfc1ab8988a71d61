ghost use Rattle.std.specs.Prelude.{◌≡◌, ◌≤◌, ◌↔◌, string_bytes, true, IsTrue, IsOk, IfOk, IfErr};
ghost use Rattle.uefi_records.specs.time.Fields.{StandsIn, time_bytes, time_in, without_pads};
ghost use Rattle.uefi_base.specs.Flags.{has_bits};
ghost use Rattle.uefi_records.specs.time.Faults.{no_fault};
ghost use Rattle.uefi_records.specs.time.Reading.{RefusesTime};
ghost use Rattle.uefi_records.specs.time.Texts.{time_error_text};
ghost use Rattle.uefi_records.specs.time.Views.{time_of, bytes_of_time};
ghost use Rattle.uefi_records.specs.flags.Named.{directory_attribute};
ghost use Rattle.uefi_records.specs.flags.Views.{attribute_bits};

use std::alloc::{AllocError, Global};
use uefi_records::laws::{one_time, times_read_back};
use uefi_records::{Daylight, FileAttribute, Time, TimeByteConversionError, TimeError, TimeParams};

/// Writes a time and reads it again: the same time, with zeros in its padding.
#[tactic(auto, unfolding(uefi_records::specs::time::Fields::time_bytes))]
pub fn read_back(time: &Time) -> Result<Time, TimeByteConversionError>
    ensures same { IfOk result (λ again. time_of again ≡ without_pads (time_of time.now)) }
    ensures refused { IfErr result (RefusesTime (time_bytes (time_of time.now))) }
{
    let bytes = time.to_bytes();
    Time::try_from(bytes.as_slice())
}

/// Reads the time in bytes that are known to begin with those of a time: that time, with zeros in
/// the padding.
pub fn known_time(bytes: &[u8], time: &Time) -> Result<Time, TimeByteConversionError>
    requires { StandsIn (time_of time.now) bytes.now }
    ensures same { IfOk result (λ read. time_of read ≡ without_pads (time_of time.now)) }
    ensures refused { IfErr result (RefusesTime bytes.now) }
{
    one_time();
    Time::try_from(bytes)
}

/// Returns the time in the first sixteen bytes: each field at its offset, with zeros in the
/// padding.
pub fn first_time(bytes: &[u8]) -> Result<Time, TimeByteConversionError>
    ensures fields { IfOk result (λ time. time_of time ≡ without_pads (time_in bytes.now)) }
    ensures refused { IfErr result (RefusesTime bytes.now) }
{
    times_read_back();
    Time::try_from(bytes)
}

/// Returns the first noon of a year, local time.
pub fn first_noon(year: u16) -> Result<Time, TimeError>
    ensures made { IfOk result (λ time. (time_of time).year ≡ year) }
    ensures accepted { IsOk result ↔ ((1900 ≤ year) × (year ≤ 9999)) }
    ensures faults { IfErr result (λ faults. faults ≡ record no_fault { year = true }) }
{
    Time::new(TimeParams {
        year,
        month: 1,
        day: 1,
        hour: 12,
        minute: 0,
        second: 0,
        nanosecond: 0,
        time_zone: None,
        daylight: Daylight::empty(),
    })
}

/// Returns whether two times are equal: exactly where all their bytes are.
pub fn is_same_time(time: &Time, other: &Time) -> bool
    ensures { IsTrue result ↔ (bytes_of_time time.now ≡ bytes_of_time other.now) }
{
    time == other
}

/// Returns whether a file is a directory.
pub fn is_directory(attribute: FileAttribute) -> bool
    ensures { result ≡ has_bits (attribute_bits attribute) directory_attribute }
{
    attribute.contains(FileAttribute::DIRECTORY)
}

/// Returns whether a bit without a name makes no set of attributes: always.
pub fn unnamed() -> bool
    ensures { IsTrue result }
{
    FileAttribute::from_bits(0x08).is_none()
}

/// Returns the text of what is wrong with a time.
pub fn fault_text(alloc: Global, faults: &TimeError) -> Result<String, AllocError>
    ensures { IfOk result (λ text. string_bytes text ≡ time_error_text faults.now) }
{
    faults.to_string(alloc)
}
