//! Why a line of a script is not done.

/// Why a line of a script is not done.
#[derive(Debug, Drop, PartialEq, Eq)]
pub enum WorldError {
    /// No line of this number was opened.
    NoLine(u32),
    /// As many fixes as this limit are not accepted.
    Full(u64),
    /// Memory ran out.
    Memory,
}
