/// Whether the input was what the command lists.
#[derive(Clone, Copy, PartialEq, Eq, Debug)]
pub enum Outcome {
    /// The text has what the input holds.
    Listed,
    /// The text is one line, which names the error that the input was refused with.
    Refused,
}
