//! Runs that promise nothing, for callers that want what a run does and none of its contract.

use crate::alone::run_alone;
use crate::outside::{Ended, Outside};
use crate::top::run;
use jt_outside::{Clock, Dial, Listen, Sink, Source};
use jt_store::{Keeper, Vault};
use std::alloc::Global;
use std::sync::Wait;
use std::thread::Threads;

/// `run`, which it makes and whose contract it hides: a caller of `run` has the table of all commands among the facts of its own
/// proof.
pub fn run_bare<
    R: Threads + Wait + Sync,
    S: Source,
    K: Sink,
    D: Dial,
    L: Listen,
    C: Clock,
    P: Keeper + Send + Drop,
    V: Vault,
>(
    rt: &R,
    alloc: Global,
    words: &Vec<String>,
    outside: Outside<S, K, D, L, C, P, V>,
) -> Ended<S, K, D, L, C, P, V>
where
    L::Link: Send,
{
    run(rt, alloc, words, outside)
}

/// `run_alone`, which it makes and whose contract it hides.
pub fn run_alone_bare<R, S: Source, K: Sink, D: Dial, L, C: Clock, P: Keeper, V: Vault>(
    rt: &R,
    alloc: Global,
    words: &Vec<String>,
    outside: Outside<S, K, D, L, C, P, V>,
) -> Ended<S, K, D, L, C, P, V> {
    run_alone(rt, alloc, words, outside)
}
