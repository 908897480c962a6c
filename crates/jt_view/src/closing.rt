//! How inputs close.

/// How an input closes.
#[derive(Clone, Copy, Debug, PartialEq, Eq)]
pub enum Closing {
    /// It was read to its end.
    Whole,
    /// It has more octets than may be read.
    TooLong,
    /// Its hexadecimal digits go wrong at this place, which counts the input's octets from 0.
    HexRefused(u64),
}
