ghost use Rattle.std.specs.Prelude.{◌≡◌, IsTrue, OnOk, IfErr, IfOk, string_bytes};
ghost use Rattle.std.specs.Io.KnownBytes.{Appends};
ghost use Rattle.uefi_audit.specs.Ends.{is_output};
ghost use Rattle.uefi_audit.specs.Printed.{unjudged_text};

use crate::failure::{Failure, Status};
use crate::request::Format;
use audit_text::json::{NotJudged, push_unjudged_json};
use std::alloc::{AllocError, Global};
use std::io::{self, Write};

/// What a command says of a log, or of two, and what follows from it.
#[derive(Drop)]
pub(crate) struct Report {
    /// What is printed.
    pub text: String,
    /// What standard error is told.
    pub messages: String,
    /// The status of the run, if nothing else is wrong.
    pub status: Status,
}

impl Report {
    ghost use Rattle.std.specs.Prelude.{◌≡◌, IfOk, string_bytes};
    ghost use Rattle.uefi_audit.specs.Printed.{one_after_other, printed_of, refused_as, unjudged, unjudged_as};

    /// Returns the report of what can't be judged: these messages, and nothing that is printed.
    pub(crate) fn unjudged(alloc: Global, messages: String) -> Report
        ensures { printed_of result ≡ unjudged (string_bytes messages) }
    {
        Report {
            text: String::new(alloc),
            messages,
            status: Status::Unjudged,
        }
    }

    /// Returns the report of a log that `verify` doesn't judge: these messages, and in JSON a line that
    /// says why.
    ///
    /// # Errors
    ///
    /// [`AllocError`] if an allocation fails.
    pub(crate) fn unjudged_as(
        alloc: Global,
        messages: String,
        name: &str,
        format: Format,
        why: NotJudged,
    ) -> Result<Report, AllocError>
        ensures { IfOk result (λ report. printed_of report
            ≡ unjudged_as format name.now why (string_bytes messages)) }
    {
        Ok(Report {
            text: unjudged_text(alloc, name, format, why)?,
            messages,
            status: Status::Unjudged,
        })
    }

    /// Returns this report of a log that wasn't read as `verify` prints it: in JSON with a line that says
    /// why.
    ///
    /// # Errors
    ///
    /// [`AllocError`] if an allocation fails.
    pub(crate) fn refused_as(
        self,
        alloc: Global,
        name: &str,
        format: Format,
    ) -> Result<Report, AllocError>
        ensures { IfOk result
            (λ report. printed_of report ≡ refused_as format name.now (printed_of self)) }
    {
        Ok(Report {
            text: unjudged_text(alloc, name, format, NotJudged::TooManyAlgorithms)?,
            messages: self.messages,
            status: self.status,
        })
    }

    /// Returns this report with what another one says after it. The worse status counts.
    ///
    /// # Errors
    ///
    /// [`AllocError`] if an allocation fails.
    pub(crate) fn and(self, other: &Report) -> Result<Report, AllocError>
        ensures { IfOk result
            (λ both. printed_of both ≡ one_after_other (printed_of self) (printed_of other.now)) }
    {
        let (mut text, mut messages) = (self.text, self.messages);
        text.push_str(other.text.as_str())?;
        messages.push_str(other.messages.as_str())?;
        Ok(Report {
            text,
            messages,
            status: self.status.and(other.status),
        })
    }

    /// Tells standard error, prints the text, and returns the status. If standard error is closed,
    /// the status still tells.
    pub(crate) fn print<R: Print + Eprint>(&self, rt: &R) -> Result<Status, Failure> {
        print_messages(rt, self.messages.as_str());
        print_text(&mut io::writer(rt), self.text.as_str())?;
        Ok(self.status)
    }
}

/// Returns what `verify` prints of a log that it doesn't judge: a line in JSON.
///
/// # Errors
///
/// [`AllocError`] if an allocation fails.
#[tactic(auto, unfolding(crate::specs::Printed::unjudged_text))]
pub(crate) fn unjudged_text(
    alloc: Global,
    name: &str,
    format: Format,
    why: NotJudged,
) -> Result<String, AllocError>
    ensures { IfOk result (λ text. string_bytes text ≡ unjudged_text format name.now why) }
{
    let mut text = String::new(alloc);
    match format {
        Format::Text => {}
        Format::Json => push_unjudged_json(&mut text, alloc, name, why)?,
    }
    Ok(text)
}

/// Writes messages to standard error, if there are any.
fn print_messages<R: Eprint>(rt: &R, messages: &str) {
    if !messages.is_empty() {
        let _ = eprint!(rt; "{messages}");
    }
}

/// Writes a text to its end.
fn print_text<W: Write>(out: &mut W, text: &str) -> Result<(), Failure>
    ensures whole { OnOk result (Appends (W.contents out.old) (W.contents out.new) text.now) }
    ensures output { IfErr result (λ failure. IsTrue (is_output failure)) }
{
    match out.write_all(text.as_bytes()) {
        Ok(()) => Ok(()),
        Err(cause) => Err(Failure::Output(cause)),
    }
}
