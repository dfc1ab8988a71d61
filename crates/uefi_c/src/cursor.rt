ghost use Rattle.std.specs.Prelude.{◌≡◌, ◌+◌, ◌*◌, ◌%◌, ◌≤◌, [], take, drop, length, IfSome, IfNone};

/// Returns the bytes from the offset on, or `None` if it is past the end.
pub(crate) fn bytes_from(bytes: &[u8], offset: usize) -> Option<&[u8]>
    ensures rest { IfSome result (λ rest. rest.now ≡ drop offset bytes.now) }
    ensures within { IfSome result (λ rest. offset ≤ length bytes.now) }
    ensures past { IfNone result (drop offset bytes.now ≡ []) }
{
    let (_, rest) = bytes.split_at_checked(offset)?;
    Some(rest)
}

/// Returns the bytes of this many units of two bytes from the offset on, which are known to be
/// there.
pub(crate) fn units_at(bytes: &[u8], offset: usize, units: usize) -> &[u8]
    requires { offset + 2 * units ≤ length bytes.now }
    ensures bytes { result.now ≡ take (2 * units) (drop offset bytes.now) }
    ensures whole { length result.now % 2 ≡ 0 }
{
    let (_, rest) = bytes.split_at(offset);
    let (part, _) = rest.split_at(2 * units);
    part
}
