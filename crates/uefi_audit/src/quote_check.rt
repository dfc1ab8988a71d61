ghost use Rattle.std.specs.Prelude.{◌≡◌, string_bytes, IfOk};
ghost use Rattle.uefi_audits.specs.verify.Compared.{judged_pcrs_of, judged_quote_of};
ghost use Rattle.uefi_audit.specs.Opened.{IsVerdictOf};
ghost use Rattle.uefi_audit.specs.Printed.{printed_of};
ghost use Rattle.uefi_audit.specs.QuoteCheck.{QuoteIsMet, by_digest, checked_by_judgement, judged_on, lacking_quote, quote_checked, quote_printed, quote_status, quote_text, reason_of, registers_printed, unless_empty, with_registers};
ghost use Rattle.uefi_audit.specs.Verification.{judged_in};
ghost use Rattle.uefi_audit.specs.declared.failure.Status.TheVariants.{Well};

use crate::failure::Status;
use crate::log_file::{LogFile, Opened, judge};
use crate::replay::has_no_pcr;
use crate::report::Report;
use crate::request::{Format, Reading};
use crate::verification::{StatedPcrs, compare, lacking_report, status_of, verdict_text};
use audit_text::json::{NotJudged, push_quote_json};
use audit_text::text::{
    push_ignored, push_missing, push_no_digest, push_no_pcr, push_other_nonce, push_quote,
    push_quote_verdict, push_start, push_uncompared,
};
use pcr_replay::NoQuoteDigest;
use std::alloc::{AllocError, Global};
use uefi_audits::ignored::{IgnoredEvent, ignored_events};
use uefi_audits::judgement::Judgement;
use uefi_audits::verify::{ComparedPcrs, ComparedQuote, ReceivedQuote};

/// What `verify --quote` compares a log with, and how.
#[derive(Clone, Copy)]
pub(crate) struct QuoteCheck<'a> {
    /// The name of the quote's file.
    pub file: &'a str,
    /// The quote.
    pub received: ReceivedQuote<'a>,
    /// The PCRs that are compared as well, if there are any, and those that the quote has to cover.
    pub registers: StatedPcrs<'a>,
}

/// Returns what `verify --quote` prints of a log.
///
/// # Errors
///
/// [`AllocError`] if an allocation fails.
#[tactic(auto, unfolding(crate::specs::Opened::IsVerdictOf))]
pub(crate) fn quote_report(
    alloc: Global,
    log: Opened<'_>,
    reading: Reading,
    check: &QuoteCheck<'_>,
) -> Result<Report, AllocError>
    ensures { IfOk result (λ report. IsVerdictOf
        (λ file printed. printed ≡ quote_checked reading.allow_left_over file check.now)
        check.now.registers.format check.now.registers.log.now log.entry (printed_of report)) }
{
    let registers = &check.registers;
    match log {
        Opened::Refused(report) => report.refused_as(alloc, registers.log, registers.format),
        Opened::Read(file) => checked_report(alloc, &file, reading, check),
    }
}

/// Returns what is printed of whether a log leads to the digest of a quote. If all is well, it does, the
/// quote has its nonce, and it covers all that is asked for.
fn checked_report(
    alloc: Global,
    file: &LogFile<'_>,
    reading: Reading,
    check: &QuoteCheck<'_>,
) -> Result<Report, AllocError>
    ensures printed { IfOk result (λ report. printed_of report
        ≡ quote_checked reading.allow_left_over file.now check.now) }
    ensures met { IfOk result (λ report. report.status ≡ Well
        → QuoteIsMet file.now check.now) }
{
    let (judgement, messages) = judge(alloc, file, reading.allow_left_over)?;
    judged_report(alloc, judgement, messages, file, check)
}

/// Returns what is printed after these messages of a log with this judgement.
#[tactic(auto, unfolding(crate::specs::QuoteCheck::checked_by_judgement))]
fn judged_report(
    alloc: Global,
    judgement: Judgement,
    messages: String,
    file: &LogFile<'_>,
    check: &QuoteCheck<'_>,
) -> Result<Report, AllocError>
    ensures { IfOk result (λ report. printed_of report
        ≡ checked_by_judgement judgement (string_bytes messages) file.now check.now) }
{
    let (name, format) = (file.name, check.registers.format);
    match judgement {
        Judgement::Accepted => accepted_report(alloc, messages, file, check),
        Judgement::NothingMeasured => {
            Report::unjudged_as(alloc, messages, name, format, NotJudged::NothingMeasured)
        }
        Judgement::LeftOver => {
            Report::unjudged_as(alloc, messages, name, format, NotJudged::LeftOver)
        }
    }
}

/// Returns what is printed after these messages of a log that can be judged.
fn accepted_report(
    alloc: Global,
    messages: String,
    file: &LogFile<'_>,
    check: &QuoteCheck<'_>,
) -> Result<Report, AllocError>
    ensures { IfOk result (λ report. printed_of report
        ≡ by_digest (string_bytes messages) file.now check.now (judged_on file.now check.now)) }
{
    let registers = &check.registers;
    let compared = ComparedQuote::new(
        alloc,
        file.read.entries(),
        &check.received,
        registers.selections,
        registers.locality,
    )?;
    digest_report(alloc, messages, file, check, &compared)
}

/// Returns what is printed of a verdict after these messages, unless the log leads to no digest.
#[tactic(auto, unfolding(crate::specs::QuoteCheck::by_its_digest))]
fn digest_report(
    alloc: Global,
    messages: String,
    file: &LogFile<'_>,
    check: &QuoteCheck<'_>,
    compared: &ComparedQuote<'_>,
) -> Result<Report, AllocError>
    ensures { IfOk result (λ report. printed_of report ≡ by_digest
        (string_bytes messages) file.now check.now (judged_quote_of compared.now)) }
{
    let mut messages = messages;
    match compared.verdict.digest {
        Ok(_) => covered_report(alloc, messages, file, check, compared),
        Err(why) => {
            push_no_digest(&mut messages, file.name, why)?;
            let format = check.registers.format;
            Report::unjudged_as(alloc, messages, file.name, format, reason_of(why))
        }
    }
}

/// Returns why a log that leads to no digest isn't judged.
fn reason_of(why: NoQuoteDigest) -> NotJudged
    ensures { result ≡ reason_of why }
{
    match why {
        NoQuoteDigest::NoBank(_) => NotJudged::NoBank,
        NoQuoteDigest::Undetermined(..) => NotJudged::Undetermined,
    }
}

/// Returns what is printed of a verdict after these messages, unless the quote covers no PCR, or not
/// those that are asked for.
#[tactic(auto, unfolding(crate::specs::QuoteCheck::unless_empty))]
fn covered_report(
    alloc: Global,
    messages: String,
    file: &LogFile<'_>,
    check: &QuoteCheck<'_>,
    compared: &ComparedQuote<'_>,
) -> Result<Report, AllocError>
    ensures { IfOk result (λ report. printed_of report ≡ unless_empty
        (judged_quote_of compared.now).covering.covered (string_bytes messages) file.now check.now
        (judged_quote_of compared.now)) }
{
    let mut messages = messages;
    if compared.coverage.covered.is_empty() {
        push_no_pcr(&mut messages, check.file)?;
        let format = check.registers.format;
        return Report::unjudged_as(alloc, messages, file.name, format, NotJudged::NoPcr);
    }
    if !compared.coverage.missing.is_empty() {
        return lacking_quote(alloc, messages, file.name, check, compared);
    }
    let report = verdict_report(alloc, messages, file, check, compared)?;
    with_registers(alloc, file, check, report)
}

/// Returns what is printed after these messages of a quote that doesn't cover PCRs that are asked for.
#[tactic(auto, unfolding(crate::specs::QuoteCheck::lacking_text))]
fn lacking_quote(
    alloc: Global,
    messages: String,
    name: &str,
    check: &QuoteCheck<'_>,
    compared: &ComparedQuote<'_>,
) -> Result<Report, AllocError>
    ensures { IfOk result (λ report. printed_of report ≡ lacking_quote
        (string_bytes messages) name.now check.now (judged_quote_of compared.now)) }
{
    let mut messages = messages;
    push_missing(
        &mut messages,
        check.file,
        compared.coverage.missing.as_slice(),
    )?;
    let mut text = String::new(alloc);
    match check.registers.format {
        Format::Text => {}
        Format::Json => push_quote_json(&mut text, alloc, name, compared)?,
    }
    Ok(Report {
        text,
        messages,
        status: Status::Unjudged,
    })
}

/// Returns what is printed after these messages of the verdict on a quote.
fn verdict_report(
    alloc: Global,
    messages: String,
    file: &LogFile<'_>,
    check: &QuoteCheck<'_>,
    compared: &ComparedQuote<'_>,
) -> Result<Report, AllocError>
    ensures { IfOk result (λ report. printed_of report ≡ quote_printed (string_bytes messages)
        file.now check.now (judged_quote_of compared.now)) }
{
    let mut messages = messages;
    let ignored = ignored_events(alloc, file.read.entries())?;
    push_start(&mut messages, file.name, &compared.verdict.start)?;
    push_ignored(&mut messages, file.name, ignored.as_slice())?;
    push_uncompared(
        &mut messages,
        file.name,
        compared.coverage.extended.as_slice(),
    )?;
    Ok(Report {
        text: quote_text(alloc, file.name, check, compared)?,
        messages,
        status: quote_status(compared, ignored.as_slice()),
    })
}

/// Returns the verdict on a quote in a format.
#[tactic(auto, unfolding(crate::specs::QuoteCheck::quote_text))]
fn quote_text(
    alloc: Global,
    name: &str,
    check: &QuoteCheck<'_>,
    compared: &ComparedQuote<'_>,
) -> Result<String, AllocError>
    ensures { IfOk result (λ text. string_bytes text ≡ quote_text check.now.registers.format
        name.now check.now.file.now (judged_quote_of compared.now)) }
{
    let mut text = String::new(alloc);
    let received = &compared.verdict.received;
    match check.registers.format {
        Format::Text => {
            push_other_nonce(&mut text, alloc, check.file, received)?;
            push_quote(&mut text, alloc, check.file, received)?;
            push_quote_verdict(&mut text, alloc, name, &compared.verdict)?;
        }
        Format::Json => push_quote_json(&mut text, alloc, name, compared)?,
    }
    Ok(text)
}

/// Returns the status of a verdict on a quote: it differs if its digest or its nonce does, or one of
/// the events without effect should have extended a PCR that no TPM has.
fn quote_status(compared: &ComparedQuote<'_>, ignored: &[IgnoredEvent]) -> Status
    ensures { result ≡ quote_status (judged_quote_of compared.now) ignored.now }
{
    if has_no_pcr(ignored) || !compared.verdict.agrees() {
        return Status::Differs;
    }
    Status::Well
}

/// Returns the report on a quote, with what is printed of the PCRs that are compared as well.
#[tactic(auto, unfolding(crate::specs::QuoteCheck::with_registers))]
fn with_registers(
    alloc: Global,
    file: &LogFile<'_>,
    check: &QuoteCheck<'_>,
    quote: Report,
) -> Result<Report, AllocError>
    ensures { IfOk result (λ report. printed_of report ≡ with_registers
        check.now.registers.pcrs.now file.now check.now (printed_of quote)) }
{
    if check.registers.pcrs.is_empty() {
        return Ok(quote);
    }
    quote.and(&registers_report(alloc, file, &check.registers)?)
}

/// Returns what is printed of PCRs that are compared beside a quote.
fn registers_report(
    alloc: Global,
    file: &LogFile<'_>,
    stated: &StatedPcrs<'_>,
) -> Result<Report, AllocError>
    ensures { IfOk result (λ report. printed_of report
        ≡ registers_printed file.now stated.now (judged_in file.now stated.now)) }
{
    let compared = compare(alloc, file, stated)?;
    registers_verdict(alloc, file, stated, &compared)
}

/// Returns what is printed of the verdict on them, unless some that are asked for are missing: nothing
/// if they agree, since the verdict is the quote's.
#[tactic(auto, unfolding(crate::specs::QuoteCheck::registers_unless_missing))]
fn registers_verdict(
    alloc: Global,
    file: &LogFile<'_>,
    stated: &StatedPcrs<'_>,
    compared: &ComparedPcrs,
) -> Result<Report, AllocError>
    ensures { IfOk result (λ report. printed_of report
        ≡ registers_printed file.now stated.now (judged_pcrs_of compared.now)) }
{
    let messages = String::new(alloc);
    if !compared.coverage.missing.is_empty() {
        return lacking_report(alloc, messages, file.name, stated, compared);
    }
    let text = if compared.agrees() {
        String::new(alloc)
    } else {
        verdict_text(alloc, file.name, compared, stated.format)?
    };
    Ok(Report {
        text,
        messages,
        status: status_of(&compared.verdict, &[]),
    })
}
