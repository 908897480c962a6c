//! What is told of an input, and how the input is written.

/// What is told of an input.
#[derive(Clone, Copy, Debug, PartialEq, Eq)]
pub enum Report {
    /// A line for each frame and each refusal, and their numbers.
    View,
    /// The number of frames, or the first refusal.
    Check,
}

/// How an input is written.
#[derive(Clone, Copy, Debug, PartialEq, Eq)]
pub enum Encoding {
    Octets,
    /// As hexadecimal digits, which `HexReader` reads.
    Hex,
}

/// What is told of an input, and how it is written: the words are `view` or `check`, and then `--hex` or none.
#[derive(Clone, Copy, Debug, PartialEq, Eq)]
pub struct Command {
    pub report: Report,
    pub encoding: Encoding,
}
