ghost use Rattle.std.specs.Prelude.{◌≡◌, IfOk, string_bytes};
ghost use Rattle.uefi_audit.specs.FileName.{IsNameOf, IsWordOf, text_of};

use shown::ShownBytes;
use std::alloc::{AllocError, Global};

/// What the word of an argument that isn't UTF-8 ends with: no argument of a process has this byte.
const NOT_UTF8: &str = "\0";

/// The name of a file, as an argument states it.
#[derive(Clone, Copy)]
pub(crate) enum FileName<'a> {
    /// Its text.
    Text(&'a str),
    /// How one is shown that isn't UTF-8. No file is opened by it.
    NotUtf8(&'a str),
}

impl<'a> FileName<'a> {
    /// Returns the word by which `clap` is given an argument, since it takes texts alone: the argument; of
    /// one that isn't UTF-8, how it is shown, and a mark.
    ///
    /// # Errors
    ///
    /// [`AllocError`] if an allocation fails.
    pub(crate) fn word_of(alloc: Global, argument: &[u8]) -> Result<String, AllocError>
        ensures { IfOk result (λ word. IsWordOf argument.now (string_bytes word)) }
    {
        match str::from_utf8(argument) {
            Ok(text) => String::from_str(alloc, text),
            Err(_) => {
                let name = ShownBytes(argument);
                format!(in alloc; "{name}{NOT_UTF8}")
            }
        }
    }

    /// Returns the name that a word is.
    pub(crate) fn of(word: &'a str) -> FileName<'a>
        ensures { IsNameOf word.now result }
    {
        match word.strip_suffix(NOT_UTF8) {
            Some(shown) => FileName::NotUtf8(shown),
            None => FileName::Text(word),
        }
    }

    /// Returns the name's text, or how it is shown if it has none.
    pub(crate) fn as_str(self) -> &'a str
        ensures { result.now ≡ text_of self.entry }
    {
        match self {
            FileName::Text(text) | FileName::NotUtf8(text) => text,
        }
    }
}
