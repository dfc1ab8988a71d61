ghost use Rattle.std.specs.Prelude.{◌≡◌, ◌≤◌, IfErr, IfOk, take};
ghost use Rattle.uefi_records.specs.time.Fields.{StandsIn, TimeFields};
ghost use Rattle.uefi_records.specs.time.Reading.{RefusesTime};

use uefi_records::{Time, TimeByteConversionError};

/// Returns the year of the time that the bytes begin with.
pub fn year_in(bytes: &[u8]) -> Result<u16, TimeByteConversionError>
    ensures year { IfOk result
        (λ year. (time : TimeFields) × StandsIn time bytes.now × (year ≡ time.year)) }
    ensures range { IfOk result (λ year. (1900 ≤ year) × (year ≤ 9999)) }
    ensures refused { IfErr result (RefusesTime bytes.now) }
{
    let time = Time::try_from(bytes)?;
    Ok(time.year())
}
