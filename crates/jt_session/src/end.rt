//! How a session goes on, and how it ended.

/// How a session ended (this project's own).
#[derive(Clone, Copy, Debug, PartialEq, Eq)]
pub enum End {
    /// The link said that it ended.
    Ended,
    /// The link failed.
    LinkFault,
    /// Three reads in a row gave nothing.
    Idle,
    /// 2^40 octets were taken.
    Spent,
    /// Another session, of this number, holds the phone.
    Fenced(u32),
    /// The keeper failed.
    StoreFault,
    /// The phone has as many rows as it may have, which is the number.
    ListFull(u64),
    /// Memory was wanted and refused.
    Memory,
}

/// Whether a session goes on (this project's own).
#[derive(Clone, Copy, Debug, PartialEq, Eq)]
pub enum Fed {
    /// It does.
    On,
    /// It ended so.
    Stop(End),
}
