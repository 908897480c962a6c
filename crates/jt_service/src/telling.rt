//! Who is told of sessions.

use jt_platform::Entry;
use jt_seats::{Away, Cut};
use jt_session::Report;
use jt_value::Phone;
use std::net::SocketAddr;

/// What is told of a session at its end (this project's own).
#[derive(Clone, Copy)]
pub struct Ended {
    pub report: Report,
    /// The other end's address, where it is known.
    pub peer: Option<SocketAddr>,
    /// The phone that was let in on it last, if one was.
    pub phone: Option<Phone>,
    /// Why the service ended it, if it did.
    pub cut: Option<Cut>,
    /// How many milliseconds passed since the link came.
    pub milliseconds: u64,
}

/// Is told what happens, one call at a time. Others wait meanwhile, so no call may wait for anything; `noted` and `let_in` are told
/// while the hub is held, so that every session waits. No contract says what becomes of it.
pub trait Tell: Drop {
    /// A link came, and is served under this number.
    fn began(&mut self, session: u32, peer: Option<SocketAddr>);

    /// The hub made this entry. It is told before the one that asked is answered.
    fn noted(&mut self, entry: &Entry);

    /// The phone was let in, in the session of this number.
    fn let_in(&mut self, session: u32, phone: &Phone);

    /// A session ended so.
    fn ended(&mut self, ended: &Ended);

    /// A link came, and was closed at once.
    fn turned_away(&mut self, peer: Option<SocketAddr>, why: Away);

    /// Descriptors or memory are short, so that no link can be accepted; it is tried again each second. It is told once, and again
    /// where a link came in between.
    fn short(&mut self);

    /// An accept failed.
    fn accept_failed(&mut self);

    /// Only so many threads could be made, fewer than links that may be served: no more than these are served at once. It is told
    /// once, before any link is accepted.
    fn few_threads(&mut self, count: u32);
}
