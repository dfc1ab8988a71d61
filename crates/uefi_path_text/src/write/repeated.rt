ghost use Rattle.std.specs.Prelude.{◌≡◌, ◌<◌, Some, IsTrue};
ghost use Rattle.std.specs.Fmt.{DisplaysOnOk};
ghost use Rattle.uefi_path_text.specs.write.Forms.{repeated_count, are_values, are_repeated, texts_from, marked};

use crate::form::argument::Argument;
use crate::write::bytes::{after, front};
use std::fmt;

/// Returns how many values of an argument bytes have.
pub(crate) fn repeated_count(argument: Argument, rest: &[u8]) -> usize
    ensures { result ≡ repeated_count argument rest.now }
{
    let size = argument.value_size(rest);
    rest.len().checked_div(size).unwrap_or(0)
}

/// Returns whether bytes are so many values that have texts.
fn are_values(argument: Argument, count: usize, rest: &[u8]) -> bool
    ensures { result ≡ are_values argument count rest.now }
{
    if count == 0 {
        return rest.is_empty();
    }
    let size = argument.value_size(rest);
    argument.can_show(front(rest, size)) && are_values(argument, count - 1, after(rest, size))
}

/// Returns whether bytes are values that have texts, one or more.
pub(crate) fn are_repeated(argument: Argument, rest: &[u8]) -> bool
    ensures { result ≡ are_repeated argument rest.now }
{
    let count = repeated_count(argument, rest);
    count != 0 && are_values(argument, count, rest)
}

/// Writes so many values, with a mark before the first and commas between them, and the closing
/// parenthesis.
pub(crate) fn write_values<W: fmt::Write>(
    f: &mut fmt::Formatter<W>,
    argument: Argument,
    count: usize,
    rest: &[u8],
    mark: &str,
) -> fmt::Result
    requires { IsTrue (are_values argument count rest.now) }
    ensures { DisplaysOnOk W.write_str_gives f.old result
        (Some (marked mark.now (texts_from argument count rest.now))) f.new }
{
    if count == 0 {
        return f.write_str(")");
    }
    let size = argument.value_size(rest);
    f.write_str(mark)?;
    argument.write_value(f, front(rest, size))?;
    write_values(f, argument, count - 1, after(rest, size), ",")
}
