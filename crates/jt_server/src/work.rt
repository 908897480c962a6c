//! What a thread does: it serves one link.

ghost use Rattle.std.specs.Prelude.{◌≡◌, ◌≤◌, ◌^◌, [], IsSomeAnd, option_map};
ghost use Rattle.jt_value.specs.declared.limits.TheConstants.{INPUT_LIMIT};
ghost use Rattle.jt_outside.specs.Link.{wire_of};
ghost use Rattle.jt_platform.specs.Hub.{opening_of};
ghost use Rattle.jt_session.specs.Hearing.{IsSamePass};
ghost use Rattle.jt_session.specs.Serving.{Serves};

use jt_outside::Link;
use jt_platform::Hub;
use jt_session::{Report, serve_link};
use jt_store::Keeper;
use jt_turn::{Pass, Turn};
use std::alloc::Global;
use std::snapshot::Snapshot;
use std::sync::Wait;
use std::thread::{Promise, PromisedHandle};

/// A link that was served, with the pass that served it.
#[derive(Drop)]
pub(crate) struct Work<K, P: Keeper> {
    pub(crate) link: K,
    pub(crate) pass: Pass<Hub<P>>,
    pub(crate) report: Report,
}

/// What a thread was given, of which its work is known.
#[derive(Drop)]
pub(crate) struct Given<K, P: Keeper> {
    pub(crate) link: Snapshot<K>,
    pub(crate) pass: Snapshot<Pass<Hub<P>>>,
}

impl<K: Link, P: Keeper> Promise<Work<K, P>> for Given<K, P> {
    ghost use Rattle.std.specs.Prelude.{◌^◌, option_map};
    ghost use Rattle.jt_outside.specs.Link.{wire_of};
    ghost use Rattle.jt_platform.specs.Hub.{opening_of};
    ghost use Rattle.jt_session.specs.Hearing.{IsSamePass};
    ghost use Rattle.jt_session.specs.Serving.{Serves};
    ghost use Rattle.jt_value.specs.declared.limits.TheConstants.{INPUT_LIMIT};

    ghost kept_by = { λ given work. Serves (option_map (λ o. opening_of (P.tables o.start) (P.limit o.start) o.fleet o.secret) given.pass.value.opening) INPUT_LIMIT given.pass.value work.pass (wire_of K.inbound K.written K.faults given.link.value) (wire_of K.inbound K.written K.faults work.link) work.report × IsSamePass given.pass.value work.pass };
}

/// A promise as clauses see it, so that it can be given for each try to start one thread.
#[derive(Drop)]
pub(crate) struct Pledge<G> {
    pub(crate) given: Snapshot<G>,
}

impl<T, G: Promise<T>> Promise<T> for Pledge<G> {
    ghost kept_by = { λ pledge result. G.kept_by pledge.given.value result };
}

/// A thread that serves a link, or what the caller itself did in its place.
pub(crate) type Job<K, P> = Result<PromisedHandle<Work<K, P>, Pledge<Given<K, P>>>, Work<K, P>>;

/// Serves a link, and hangs up before the thread ends: what the peer sends behind a session's end is read by nobody.
pub(crate) fn serve_one<R: Wait, K: Link, P: Keeper>(
    rt: &R,
    alloc: Global,
    turn: &Turn<Hub<P>>,
    pass: Pass<Hub<P>>,
    mut link: K,
) -> Work<K, P>
    requires turn { pass.turn ≡ turn.now }
    requires number { (1 ≤ pass.number) × IsSomeAnd pass.opening (λ o. pass.number ≤ o.reserved) }
    requires new { pass.mine ≡ [] }
    ensures serves { Serves (option_map (λ o.
        opening_of (P.tables o.start) (P.limit o.start) o.fleet o.secret) pass.opening) INPUT_LIMIT
        pass result.pass (wire_of K.inbound K.written K.faults link)
        (wire_of K.inbound K.written K.faults result.link) result.report }
    ensures same { IsSamePass pass result.pass }
{
    let (report, pass) = serve_link(rt, alloc, &mut link, turn, pass);
    link.hang_up();
    Work { link, pass, report }
}
