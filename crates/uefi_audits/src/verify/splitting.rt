ghost use Rattle.std.specs.Prelude.{◌≡◌, ◌++◌, ◌∷◌, MatchOption};
ghost use Rattle.uefi_audits.specs.verify.Reading.{Lacks};

/// Returns the bytes before the first one of this value, and those after it; `None` if there is
/// none.
pub(crate) fn split_once(bytes: &[u8], value: u8) -> Option<(&[u8], &[u8])>
    ensures { MatchOption result (Lacks value bytes.now) (λ split. Lacks value split.0.now
        × (bytes.now ≡ split.0.now ++ value ∷ split.1.now)) }
{
    let at = bytes.iter().position(|byte| *byte == value)?;
    Some((&bytes[..at], &bytes[at + 1..]))
}
