//! Why a line of a script is not done.

/// Why a line of a script of orders is not done.
#[derive(Clone, Copy, Debug, PartialEq, Eq)]
pub enum OrderWorldError {
    /// No line of this number was opened.
    NoLine(u32),
    /// As many orders as this limit were issued.
    Full(u64),
    /// Memory ran out.
    Memory,
}
