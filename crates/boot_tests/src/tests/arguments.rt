use boot_listing::command::{Command, Form, Request};
use std::alloc::Global;
use std::test::Fail;
use test_support::same;

/// The words after the program's name, with a space between them, and what they ask for: the
/// command's name, whether in JSON, and the operand.
const WORDS: [(&str, Option<(&str, bool, &str)>); 15] = [
    ("list efivars", Some(("list", false, "efivars"))),
    ("option Boot0000", Some(("option", false, "Boot0000"))),
    ("text boot.dp", Some(("text", false, "boot.dp"))),
    ("path Pci(0x1F,0x0)", Some(("path", false, "Pci(0x1F,0x0)"))),
    ("path path", Some(("path", false, "path"))),
    ("path ", Some(("path", false, ""))),
    ("list --json efivars", Some(("list", true, "efivars"))),
    ("path --json ", Some(("path", true, ""))),
    ("list", None),
    ("list -j efivars", None),
    ("list efivars efivars", None),
    ("List efivars", None),
    ("lists efivars", None),
    ("efivars list", None),
    (" efivars", None),
];

/// Returns the name of a command.
fn name_of(command: Command) -> &'static str {
    match command {
        Command::List => "list",
        Command::Option => "option",
        Command::Text => "text",
        Command::Path => "path",
    }
}

/// Checks what words ask for.
fn check_words(alloc: Global, row: &str, expected: Option<(&str, bool, &str)>) -> Result<(), Fail> {
    let mut words = Vec::new(alloc);
    for word in row.split(' ') {
        words.push(String::from_str(alloc, word)?)?;
    }
    let found = match Request::from_words(words.as_slice()) {
        Some(request) => Some((
            name_of(request.command),
            matches!(request.form, Form::Json),
            request.operand,
        )),
        None => None,
    };
    same(row, &found, &expected)
}

#[test]
fn words_ask_for_a_command_over_an_operand(rt: HostRuntime) -> Result<(), Fail> {
    for &(row, expected) in &WORDS {
        check_words(rt.alloc(), row, expected)?;
    }
    Ok(())
}

#[test]
fn no_words_ask_for_nothing() -> Result<(), Fail> {
    same("no words", &Request::from_words(&[]).is_none(), &true)
}
