ghost use Rattle.std.specs.Prelude.{◌≡◌, string_bytes, IfOk, OnOk};
ghost use Rattle.uefi_base.specs.Appending.{AppendsText};
ghost use Rattle.pcr_replay.specs.ReadLogs.{entries_in};
ghost use Rattle.uefi_audits.specs.Judgement.{is_read, judgement_of};
ghost use Rattle.uefi_audits.specs.KnownStart.{known_start};
ghost use Rattle.uefi_audit.specs.Judged.{judged_status, judgement_messages, last_entry_lines};
ghost use Rattle.uefi_audit.specs.Opened.{IsOpened};

use crate::failure::Status;
use crate::report::Report;
use crate::request::Reading;
use audit_text::text::{push_header_fault, push_judgement, push_many_algorithms};
use pcr_replay::ReadLog;
use shown::ShownName;
use std::alloc::{AllocError, Global};
use uefi_audits::header_fault::header_fault;
use uefi_audits::judgement::Judgement;
use uefi_audits::known_start::KnownStart;
use uefi_audits::trailing::Trailing;
use uefi_tcg::{LastEntry, Log, LogError};

/// An event log that was read from a file: the name to print, and what was read.
#[derive(Drop)]
pub(crate) struct LogFile<'a> {
    /// The file's name, as the caller gave it.
    pub name: &'a str,
    /// The log.
    pub read: ReadLog<'a>,
    /// Why it isn't whole, if it isn't.
    pub fault: Option<LogError>,
}

impl LogFile<'_> {
    /// Returns whether the log's events are all that it has, so that they are replayed.
    pub(crate) fn is_replayed(&self, allow_left_over: bool) -> bool
        ensures { result ≡ is_read (judgement_of allow_left_over self.now.read) }
    {
        Judgement::of(&self.read, allow_left_over).is_read()
    }

    /// Returns whether the log or the caller states the locality at which the TPM was started.
    pub(crate) fn is_locality_stated(&self, locality: Option<u8>) -> bool
        ensures { result ≡ (known_start locality (entries_in self.now.read)).is_stated }
    {
        KnownStart::of(self.read.entries(), locality).is_stated
    }
}

/// A log that was read, or what is printed of one that wasn't.
#[derive(Drop)]
pub(crate) enum Opened<'a> {
    /// It was read.
    Read(LogFile<'a>),
    /// It wasn't: its header has more algorithms than are allowed.
    Refused(Report),
}

/// Reads the log of these bytes as it is asked for.
///
/// # Errors
///
/// [`AllocError`] if an allocation fails.
#[tactic(auto, unfolding(crate::specs::Opened::IsOpened))]
pub(crate) fn open_log<'a>(
    alloc: Global,
    name: &'a str,
    bytes: &'a [u8],
    reading: Reading,
) -> Result<Opened<'a>, AllocError>
    ensures { IfOk result (IsOpened name.entry bytes.entry reading) }
{
    let (last_entry, most) = (reading.last_entry, reading.max_rows);
    let whole = Log::read_with(bytes, last_entry, most as usize);
    if let Err(LogError::TooManyAlgorithms(rows)) = whole {
        let mut messages = String::new(alloc);
        push_many_algorithms(&mut messages, name, rows, most)?;
        return Ok(Opened::Refused(Report::unjudged(alloc, messages)));
    }
    let read = ReadLog::new(alloc, Log::new(bytes, last_entry))?;
    let fault = whole.err();
    Ok(Opened::Read(LogFile { name, read, fault }))
}

/// Returns whether a log can be judged, and the messages on that.
///
/// # Errors
///
/// [`AllocError`] if an allocation fails.
pub(crate) fn judge(
    alloc: Global,
    file: &LogFile<'_>,
    allow_left_over: bool,
) -> Result<(Judgement, String), AllocError>
    ensures judgement { IfOk result
        (λ judged. judged.0 ≡ judgement_of allow_left_over file.now.read) }
    ensures messages { IfOk result
        (λ judged. string_bytes judged.1 ≡ judgement_messages file.now judged.0) }
{
    let judgement = Judgement::of(&file.read, allow_left_over);
    let mut messages = String::new(alloc);
    push_header_fault(&mut messages, file.name, header_fault(&file.read))?;
    push_last_entry(&mut messages, file)?;
    push_judgement(
        &mut messages,
        file.name,
        judgement,
        &Trailing::of(&file.read),
    )?;
    Ok((judgement, messages))
}

/// Appends the line of a log in which no event starts at the last entry that is asked for.
#[tactic(auto, unfolding(crate::specs::Judged::last_entry_lines))]
fn push_last_entry(messages: &mut String, file: &LogFile<'_>) -> Result<(), AllocError>
    ensures { OnOk result (AppendsText messages.old messages.new
        (last_entry_lines file.now.name.now file.now.read.log.last_entry file.now.fault)) }
{
    let last_entry = file.read.log().last_entry;
    match (last_entry, file.fault) {
        (LastEntry::At(offset), Some(LogError::LeftOver { .. })) => {
            let name = ShownName(file.name);
            writeln!(
                messages,
                "{name}: no event starts at offset {offset} (--last-entry)"
            )
        }
        _ => Ok(()),
    }
}

/// Returns the status of a run over a log with this judgement, if nothing else is wrong.
pub(crate) fn judged_status(judgement: Judgement) -> Status
    ensures { result ≡ judged_status judgement }
{
    match judgement {
        Judgement::Accepted => Status::Well,
        _ => Status::Unjudged,
    }
}
