//! The words of the command line.

ghost use Rattle.std.specs.Prelude.{◌≡◌, ◌≢◌, ◌↔◌, codes, map, string_bytes, IfNone, IfSome, IsTrue};
ghost use Rattle.boot_listing.specs.Arguments.{AskFor, AskForNothing, name_of};

/// What the program is asked for.
#[derive(Clone, Copy)]
pub enum Command {
    /// `list DIR`: the boot options of a folder of variables.
    List,
    /// `option FILE`: the boot option that the file is.
    Option,
    /// `text FILE`: the device path that is a prefix of the file, as text.
    Text,
    /// `path TEXT`: the bytes of the device path of this text.
    Path,
}

/// The form of what is printed.
#[derive(Clone, Copy)]
pub enum Form {
    /// Lines for a reader.
    Lines,
    /// `--json`: objects of JSON (RFC 8259), one a line.
    Json,
}

/// A command, the form of what it prints, and what it is over: DIR, FILE or TEXT.
#[derive(Clone, Copy)]
pub struct Request<'a> {
    /// The command.
    pub command: Command,
    /// The form.
    pub form: Form,
    /// DIR, FILE or TEXT.
    pub operand: &'a str,
}

impl<'a> Request<'a> {
    /// Returns what the words after the program's name ask for, or `None` if they ask for nothing.
    pub fn from_words(words: &'a [String]) -> Option<Request<'a>>
        ensures asked { IfSome result
            (λ r. AskFor r.command r.form r.operand.now (map string_bytes words.now)) }
        ensures other_words { IfNone result (AskForNothing (map string_bytes words.now)) }
    {
        match words {
            [name, operand] => Some(Request {
                command: command_named(name.as_str())?,
                form: Form::Lines,
                operand: operand.as_str(),
            }),
            [name, option, operand] if is_json(option.as_str()) => Some(Request {
                command: command_named(name.as_str())?,
                form: Form::Json,
                operand: operand.as_str(),
            }),
            _ => None,
        }
    }
}

/// Returns whether an option is `--json`.
fn is_json(option: &str) -> bool
    ensures { IsTrue result ↔ (option.now ≡ codes "--json") }
{
    option == "--json"
}

/// Returns the command of this name.
fn command_named(name: &str) -> Option<Command>
    ensures named { IfSome result (λ command. name.now ≡ name_of command) }
    ensures other_name { IfNone result ((command : Command) → name.now ≢ name_of command) }
{
    match name {
        "list" => Some(Command::List),
        "option" => Some(Command::Option),
        "text" => Some(Command::Text),
        "path" => Some(Command::Path),
        _ => None,
    }
}
