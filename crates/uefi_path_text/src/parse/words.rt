//! The words that an argument can be, read.

ghost use Rattle.std.specs.Prelude.{◌≡◌, ◌≤◌, length, IfOk, OnErr, IfErr, Some, None};
ghost use Rattle.uefi_path_text.specs.form.Words.{are_numbers};
ghost use Rattle.uefi_path_text.specs.parse.Values.{word_number};

use crate::form::words::Words;

impl Words {
    /// Returns whether a number can be in the place of a word.
    pub(crate) fn are_numbers(self) -> bool
        ensures { result ≡ are_numbers self }
    {
        matches!(
            self,
            Words::Channel | Words::Drive | Words::Protocol | Words::Default | Words::BootDevice
        )
    }

    /// Returns the number of a word.
    ///
    /// # Errors
    ///
    /// The offset of the first character that no word has there.
    pub(crate) fn number(self, text: &[u8]) -> Result<u64, usize>
        ensures ok { IfOk result (λ number. word_number self text.now ≡ Some number) }
        ensures err { OnErr result (word_number self text.now ≡ None) }
        ensures offset { IfErr result (λ offset. offset ≤ length text.now) }
    {
        let mut farthest = 0;
        for (word, number) in self.list() {
            if word.as_bytes() == text {
                return Ok(*number);
            }
            farthest = farthest.max(common_length(word.as_bytes(), text));
        }
        Err(farthest)
    }
}

/// Returns how many bytes are the same at the start of both.
fn common_length(a: &[u8], b: &[u8]) -> usize
    ensures { result ≤ length b.now }
{
    a.iter().zip(b).take_while(|(x, y)| x == y).count()
}
