use clap::{Arg, ArgAction, ArgMatches, Command, Error, value_parser};
use std::alloc::{AllocError, Global};
use uefi_audits::naming::BANK_NAMES;

/// The commands in the order of the help, each with what the help says of it.
const COMMANDS: [[&str; 2]; 5] = [
    [
        "events",
        "Prints the events of the logs, a JSON object a line",
    ],
    [
        "replay",
        "Prints the PCRs that the logs lead to, as tpm2_pcrread prints them",
    ],
    [
        "verify",
        "Compares the PCRs that a log leads to with those of a TPM",
    ],
    [
        "diff",
        "Prints how the events of two logs differ, PCR by PCR",
    ],
    [
        "check",
        "Prints which events don't match their digests, or are out of place",
    ],
];

/// Returns what `clap` makes of the words, of which the first is the program's name.
///
/// # Errors
///
/// What `clap` says of other words, the help or the version that they ask for, or
/// [`OutOfMemory`](clap::error::ErrorKind::OutOfMemory) if an allocation fails.
pub(crate) fn matches_of<'a>(alloc: Global, words: &'a [String]) -> Result<ArgMatches<'a>, Error> {
    let mut command = Command::new(alloc, "uefi_audit")
        .version("0.1.0")
        .about(
            "Audits event logs of measured boot: what a TPM's PCRs must be, from the log's bytes",
        )
        .subcommand_required(true)
        .arg_required_else_help(true);
    for [name, about] in COMMANDS {
        command = with_subcommand(alloc, command, name, about)?;
    }
    command.try_get_matches_from(words)
}

/// Adds the command of this name.
fn with_subcommand<'a>(
    alloc: Global,
    command: Command<'a>,
    name: &'a str,
    about: &'a str,
) -> Result<Command<'a>, AllocError> {
    let args = args_of(alloc, name)?;
    let added = Command::new(alloc, name).about(about).args(args)?;
    command.subcommand(added)
}

/// Returns the arguments of the command of this name.
fn args_of<'a>(alloc: Global, name: &str) -> Result<Vec<Arg<'a>>, AllocError> {
    match name {
        "events" => args_of_events(alloc),
        "replay" => args_of_replay(alloc),
        "verify" => args_of_verify(alloc),
        "diff" => args_of_diff(alloc),
        _ => args_of_check(alloc),
    }
}

fn args_of_events<'a>(alloc: Global) -> Result<Vec<Arg<'a>>, AllocError> {
    let args = vec![in alloc;
        logs(alloc),
        flag(
            alloc,
            "text",
            "Prints a block for each event that a person reads, not JSON"
        ),
        last_entry(alloc),
        allow_left_over(alloc),
        max_rows(alloc),
    ]?;
    Ok(args)
}

fn args_of_replay<'a>(alloc: Global) -> Result<Vec<Arg<'a>>, AllocError> {
    let args = vec![in alloc;
        logs(alloc),
        bank(alloc),
        locality(alloc),
        json(alloc),
        last_entry(alloc),
        allow_left_over(alloc),
        max_rows(alloc),
    ]?;
    Ok(args)
}

fn args_of_verify<'a>(alloc: Global) -> Result<Vec<Arg<'a>>, AllocError> {
    let args = vec![in alloc;
        file(
            alloc,
            "log",
            "LOG",
            "A file with an event log, - for standard input"
        ),
        registers(alloc)?,
        quote(alloc),
        nonce(alloc)?,
        any_nonce(alloc)?,
        quote_hash(alloc)?,
        pcrs(alloc)?,
        any_pcrs(alloc)?,
        locality(alloc),
        json(alloc),
        last_entry(alloc),
        allow_left_over(alloc),
        max_rows(alloc),
    ]?;
    Ok(args)
}

fn args_of_diff<'a>(alloc: Global) -> Result<Vec<Arg<'a>>, AllocError> {
    let args = vec![in alloc;
        file(
            alloc,
            "old",
            "OLD",
            "A file with an event log, - for standard input"
        ),
        file(
            alloc,
            "new",
            "NEW",
            "A file with the log to compare it with"
        ),
        option(
            alloc,
            "bank",
            "BANK",
            "Compares the digests of this bank alone, not those of all that both logs have"
        )
        .value_parser(BANK_NAMES.as_slice()),
        flag(
            alloc,
            "digests-only",
            "Pairs and compares events by their digests alone, not by data that no digest covers"
        ),
        json(alloc),
        last_entry(alloc),
        allow_left_over(alloc),
        max_rows(alloc),
    ]?;
    Ok(args)
}

fn args_of_check<'a>(alloc: Global) -> Result<Vec<Arg<'a>>, AllocError> {
    let args = vec![in alloc;
        logs(alloc),
        covered_pcrs(alloc)?,
        covering_quote(alloc),
        json(alloc),
        last_entry(alloc),
        allow_left_over(alloc),
        max_rows(alloc),
    ]?;
    Ok(args)
}

/// Returns the argument for the PCRs that are covered.
fn covered_pcrs<'a>(alloc: Global) -> Result<Arg<'a>, AllocError> {
    option(
        alloc,
        "pcrs",
        "PCRS",
        "Checks the events of these PCRs alone, such as sha256:0-7,14",
    )
    .conflicts_with("quote")
}

/// Returns the argument for the quote that covers PCRs.
fn covering_quote<'a>(alloc: Global) -> Arg<'a> {
    option(
        alloc,
        "quote",
        "FILE",
        "Checks the events of the PCRs alone that this quote covers",
    )
}

/// Returns the argument for the bank to replay.
fn bank<'a>(alloc: Global) -> Arg<'a> {
    option(alloc, "bank", "BANK", "Replays this bank alone").value_parser(BANK_NAMES.as_slice())
}

/// Returns the argument for the file or folder with a TPM's PCRs.
fn registers<'a>(alloc: Global) -> Result<Arg<'a>, AllocError> {
    option(
        alloc,
        "registers",
        "FILE",
        "What tpm2_pcrread printed, a TPM 1.2's file pcrs, or a folder with files such as pcr-sha256/0",
    )
    .required_unless_present("quote")
}

/// Returns the argument for the file with a quote.
fn quote<'a>(alloc: Global) -> Arg<'a> {
    option(
        alloc,
        "quote",
        "FILE",
        "What a TPM signed of its PCRs, as tpm2_quote -m writes it; its signature isn't verified",
    )
}

/// Returns the argument for the nonce of a quote.
fn nonce<'a>(alloc: Global) -> Result<Arg<'a>, AllocError> {
    option(
        alloc,
        "nonce",
        "HEX",
        "The nonce that the quote was asked for with",
    )
    .requires_arg("quote")?
    .conflicts_with("any-nonce")
}

/// Returns the flag for quotes with any nonce.
fn any_nonce<'a>(alloc: Global) -> Result<Arg<'a>, AllocError> {
    flag(
        alloc,
        "any-nonce",
        "Accepts any nonce, so also an old quote",
    )
    .requires_arg("quote")
}

/// Returns the argument for the hash function of a quote's digest.
fn quote_hash<'a>(alloc: Global) -> Result<Arg<'a>, AllocError> {
    option(
        alloc,
        "quote-hash",
        "ALG",
        "The hash function of the quote's digest; without it the digest's length says it",
    )
    .value_parser(BANK_NAMES.as_slice())
    .requires_arg("quote")
}

/// Returns the argument for the PCRs to compare.
fn pcrs<'a>(alloc: Global) -> Result<Arg<'a>, AllocError> {
    option(
        alloc,
        "pcrs",
        "PCRS",
        "Compares these PCRs alone, such as sha1:0-7+sha256:0-7,14; a quote has to cover them",
    )
    .conflicts_with("any-pcrs")
}

/// Returns the flag for quotes of any PCRs.
fn any_pcrs<'a>(alloc: Global) -> Result<Arg<'a>, AllocError> {
    flag(
        alloc,
        "any-pcrs",
        "Accepts a quote of any PCRs, so also of those that the machine can reset",
    )
    .requires_arg("quote")
}

/// Returns the flag for JSON.
fn json<'a>(alloc: Global) -> Arg<'a> {
    flag(alloc, "json", "Prints a JSON object a line")
}

/// Returns the argument for the most rows that the table in a header may have.
fn max_rows<'a>(alloc: Global) -> Arg<'a> {
    option(
        alloc,
        "max-rows",
        "N",
        "Reads logs whose header has up to N algorithms [default: 256]",
    )
    .value_parser(value_parser!(u32))
}

/// Returns the argument for the locality of PCR 0.
fn locality<'a>(alloc: Global) -> Arg<'a> {
    option(
        alloc,
        "locality",
        "N",
        "Starts PCR 0 at this locality, whatever the log states",
    )
    .value_parser(value_parser!(u8))
}

/// Returns the argument for a file that has to be named, and how the help shows it.
fn file<'a>(alloc: Global, id: &'a str, value_name: &'a str, help: &'a str) -> Arg<'a> {
    Arg::new(alloc, id)
        .value_name(value_name)
        .required(true)
        .help(help)
}

/// Returns the argument `--NAME VALUE`, and how the help shows it.
fn option<'a>(alloc: Global, name: &'a str, value_name: &'a str, help: &'a str) -> Arg<'a> {
    Arg::new(alloc, name)
        .long(name)
        .value_name(value_name)
        .help(help)
}

/// Returns the flag `--NAME`, and how the help shows it.
fn flag<'a>(alloc: Global, name: &'a str, help: &'a str) -> Arg<'a> {
    Arg::new(alloc, name)
        .long(name)
        .action(ArgAction::SetTrue)
        .help(help)
}

/// Returns the argument for logs, of which there may be many.
fn logs<'a>(alloc: Global) -> Arg<'a> {
    Arg::new(alloc, "logs")
        .value_name("LOG")
        .required(true)
        .num_args(1..)
        .action(ArgAction::Append)
        .help("Files with event logs, - for standard input")
}

/// Returns the argument for the offset at which the last event starts.
fn last_entry<'a>(alloc: Global) -> Arg<'a> {
    option(
        alloc,
        "last-entry",
        "N|none",
        "The offset at which the last event starts, none if the log is empty; without it the log ends where padding starts, or with its last whole event",
    )
}

/// Returns the flag for logs with bytes after their last event.
fn allow_left_over<'a>(alloc: Global) -> Arg<'a> {
    flag(
        alloc,
        "allow-left-over",
        "Accepts logs with bytes after their last event",
    )
}
