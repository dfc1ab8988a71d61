ghost use Rattle.std.specs.Prelude.{◌≡◌, ◌≤◌, ◌<◌, ◌+◌, ◌*◌, IfOk, OnErr, IfErr, IfSome, IfNone, Some, None, length, IsTrue};
ghost use Rattle.std.specs.Char.{is_digit, digit_value};
ghost use Rattle.std.specs.Str.Parse.{digits_value};
ghost use Rattle.uefi_path_text.specs.parse.Parts.{is_numeral, numeral};
ghost use Rattle.uefi_path_text.specs.parse.Values.{number_in, below};

/// Reads one digit or more as a number of at most `most`.
///
/// # Errors
///
/// The offset of the first character that no such number has there.
pub(crate) fn read_digits(text: &[u8], radix: u32, most: u64) -> Result<u64, usize>
    requires low { 2 ≤ radix }
    requires high { radix ≤ 36 }
    ensures ok { IfOk result (λ number. below (most + 1) (numeral radix text.now) ≡ Some number) }
    ensures err { OnErr result (below (most + 1) (numeral radix text.now) ≡ None) }
    ensures offset { IfErr result (λ offset. offset ≤ length text.now) }
{
    let mut number: u64 = 0;
    for (offset, c) in text.iter().enumerate() {
        let Some(next) = next_number(number, *c, radix, most) else {
            return Err(offset);
        };
        number = next;
    }
    if text.is_empty() {
        return Err(0);
    }
    Ok(number)
}

/// Reads a number of at most `most`: hex digits after `0x`, or decimal ones.
///
/// # Errors
///
/// The offset of the first character that no such number has there.
#[tactic(auto, unfolding(crate::specs::parse::Values::number_in))]
pub(crate) fn read_number(text: &[u8], most: u64) -> Result<u64, usize>
    ensures ok { IfOk result (λ number. below (most + 1) (number_in text.now) ≡ Some number) }
    ensures err { OnErr result (below (most + 1) (number_in text.now) ≡ None) }
    ensures offset { IfErr result (λ offset. offset ≤ length text.now) }
{
    match text {
        [b'0', b'x' | b'X', digits @ ..] => match read_digits(digits, 16, most) {
            Ok(number) => Ok(number),
            Err(offset) => Err(2 + offset),
        },
        _ => read_digits(text, 10, most),
    }
}

/// Returns the number with one more digit, if it is at most `most`.
fn next_number(number: u64, c: u8, radix: u32, most: u64) -> Option<u64>
    requires low { 2 ≤ radix }
    requires high { radix ≤ 36 }
    ensures digit { IfSome result (λ next. IsTrue (is_digit c radix)
        × (next ≡ number * radix + digit_value c)) }
    ensures few { IfSome result (λ next. next ≤ most) }
    ensures none { IfNone result (IsTrue (is_digit c radix)
        → most < number * radix + digit_value c) }
{
    let digit = char::from(c).to_digit(radix)?;
    let next = number
        .checked_mul(u64::from(radix))?
        .checked_add(u64::from(digit))?;
    if next <= most { Some(next) } else { None }
}
