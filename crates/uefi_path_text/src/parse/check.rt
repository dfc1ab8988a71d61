//! The texts of arguments, checked.

ghost use Rattle.std.specs.Prelude.{◌≡◌, ◌≤◌, ◌+◌, ◌-◌, [], length, map, is_ok, is_some, IfOk, IfErr, OnErr, Some, None};
ghost use Rattle.uefi_path_text.specs.parse.Arguments.{text_or, value_in, values_in, listed_values};
ghost use Rattle.uefi_path_text.specs.form.NodeForm.{repeated};
ghost use Rattle.uefi_path_text.specs.private.FormViews.{parameter_of, arguments_of};
ghost use Rattle.uefi_path_text.specs.private.FromText.{value_bytes, IsValue, rest_parts, rest_length};

use crate::form::argument::Argument;
use crate::form::{Arguments, Parameter};
use crate::parse::cut::{cut, next_text, start_of};
use crate::parse::fault::{Fault, FaultKind};

impl Parameter {
    /// Returns the text of the argument, or the default if it is left out or empty.
    pub(crate) fn text_or_default<'a>(&self, text: &'a [u8]) -> &'a [u8]
        ensures { result.now ≡ text_or (parameter_of self.now).default text.now }
    {
        if text.is_empty() {
            self.default.as_bytes()
        } else {
            text
        }
    }

    /// Checks the text of the argument.
    fn check(&self, text: &[u8]) -> Result<(), Fault>
        ensures read { is_ok result ≡ is_some (value_in (parameter_of self.now) text.now) }
        ensures offset { IfErr result (λ fault. fault.offset ≤ length text.now) }
    {
        match self.argument.read(self.text_or_default(text)) {
            Ok(_) => Ok(()),
            Err(offset) => Err(self.argument.fault(text, offset.min(text.len()))),
        }
    }
}

/// Checks the texts of all arguments, which end at the offset `end`.
pub(crate) fn check(arguments: &Arguments, texts: Option<&[u8]>, end: usize) -> Result<(), Fault>
    requires { rest_length texts ≤ end + 1 }
    ensures read { is_ok result
        ≡ is_some (values_in (arguments_of arguments.now) (rest_parts 0x2c texts.entry)) }
    ensures offset { IfErr result (λ fault. fault.offset ≤ end) }
{
    match arguments {
        Arguments::Listed(parameters, _) => check_listed(parameters, texts, end),
        Arguments::Repeated(_, kind) => check_repeated(*kind, texts, end),
    }
}

/// Checks the texts of arguments that are listed.
fn check_listed(parameters: &[Parameter], texts: Option<&[u8]>, end: usize) -> Result<(), Fault>
    requires { rest_length texts ≤ end + 1 }
    ensures read { is_ok result
        ≡ is_some (listed_values (map parameter_of parameters.now) (rest_parts 0x2c texts.entry)) }
    ensures offset { IfErr result (λ fault. fault.offset ≤ end) }
{
    let start = start_of(texts, end);
    let Some((parameter, others)) = parameters.split_first() else {
        return match texts {
            None => Ok(()),
            Some(_) => Err(Fault {
                offset: start.saturating_sub(1),
                kind: FaultKind::Argument,
            }),
        };
    };
    let (text, rest) = next_text(texts);
    match parameter.check(text) {
        Ok(()) => check_listed(others, rest, end),
        Err(fault) => Err(fault.after(start)),
    }
}

/// Checks the texts of one or more arguments of a kind.
fn check_repeated(kind: Argument, texts: Option<&[u8]>, end: usize) -> Result<(), Fault>
    requires { rest_length texts ≤ end + 1 }
    ensures read { is_ok result
        ≡ is_some (values_in (repeated [] kind) (rest_parts 0x2c texts.entry)) }
    ensures offset { IfErr result (λ fault. fault.offset ≤ end) }
{
    let mut rest = texts;
    while let Some(parts) = rest {
        let (text, others) = cut(parts, b',');
        if let Err(offset) = kind.read(text) {
            return Err(kind.fault(text, offset).after(end - parts.len()));
        }
        rest = others;
    }
    match texts {
        Some(_) => Ok(()),
        None => Err(Fault {
            offset: end,
            kind: FaultKind::Missing,
        }),
    }
}
