//! What octets led to.

use jt_header::Header;
use jt_platform::Request;

/// What the octets that were taken led to (this project's own).
#[derive(Drop)]
pub enum Step {
    /// All of them were taken, and no request waits.
    More,
    /// The last of them completed a frame that asks this. The session goes on with the reply.
    Ask(Request),
    /// Memory was wanted and refused, which ended the session.
    Memory,
}

/// What a frame led to.
#[derive(Drop)]
pub(crate) enum Came {
    /// It asks nothing, and was answered.
    Quiet,
    /// It asks this. The header is that of the message that it brought.
    Asks(Header, Request),
    /// Memory was wanted and refused.
    Memory,
}
