ghost use Rattle.std.specs.Prelude.{◌≡◌, length, IfErr, IfOk};
ghost use Rattle.uefi_tcg.specs.declared.log.LastEntry.TheVariants.{Unknown};
ghost use Rattle.uefi_tcg.specs.Entries.{Contents};
ghost use Rattle.uefi_tcg.specs.Logs.{HasContents};
ghost use Rattle.uefi_tcg.specs.WholeLogs.{IsFault, IsWhole, log_given};

use uefi_tcg::{LastEntry, Log, LogError};

/// Returns how many events a log has, if it is whole.
pub fn whole_count(bytes: &[u8]) -> Result<usize, LogError>
    ensures whole { IfOk result (λ count. IsWhole 256 (log_given bytes.entry Unknown)) }
    ensures fault { IfErr result (IsFault 256 (log_given bytes.entry Unknown)) }
    ensures count { IfOk result (λ count. (contents : Contents)
        × HasContents (log_given bytes.entry Unknown) contents
        × (count ≡ length contents.entries)) }
{
    let log = Log::read(bytes, LastEntry::Unknown)?;
    Ok(log.entries().count())
}
