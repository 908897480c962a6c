//! What the program is run over, and what it gives back.

use jt_input::Status;
use jt_platform::Entry;
use jt_session::Report;
use jt_value::Seq;

/// What the program is run over: a source and a sink of octets, who gives links, a clock, and the stores.
#[derive(Drop)]
pub struct Outside<S, K, D, L, C, P, V> {
    pub source: S,
    pub sink: K,
    pub dial: D,
    pub listen: L,
    pub clock: C,
    pub keeper: P,
    pub vault: V,
}

/// How a run ended, and what it was run over, given back. The reports of sessions and the history of the hub are those of
/// `platform`, and empty after every other command.
#[derive(Drop)]
pub struct Ended<S, K, D, L, C, P, V> {
    pub status: Status,
    pub outside: Outside<S, K, D, L, C, P, V>,
    pub reports: Seq<Report>,
    pub history: Seq<Entry>,
}
