//! A session over a link.

ghost use Rattle.std.specs.Prelude.{◌≡◌, ◌≢◌, ◌≤◌, ◌<◌, ◌+◌, ◌*◌, ◌^◌, [], false, None, Some, IsSome, IsSomeAnd, length, option_map};
ghost use Rattle.jt_value.specs.declared.limits.TheConstants.{ANSWER_LIMIT};
ghost use Rattle.jt_value.specs.Octets.{AreOctets};
ghost use Rattle.jt_outside.specs.Link.{wire_of};
ghost use Rattle.jt_platform.specs.Hub.{opening_of};
ghost use Rattle.jt_session.specs.declared.end.End.TheVariants as ends;
ghost use Rattle.jt_session.specs.TurnLaw.{IsNew};
ghost use Rattle.jt_session.specs.Hearing.{IsSamePass};
ghost use Rattle.jt_session.specs.Serving.{AnswersRead, Converses, Serves, ServesUpTo, most_quiet};

use crate::counts::Counts;
use crate::end::{End, Fed};
use crate::hearing::hear;
use crate::report::Report;
use crate::session::Session;
use jt_outside::{Link, LinkGot, write_front};
use jt_platform::{Hub, Journal, Request};
use jt_store::Keeper;
use jt_stream::law_frames;
use jt_turn::{Pass, Turn};
use jt_value::limits::{INPUT_LIMIT, READ_LIMIT};
use jt_value::{Buffer, Memory};
use std::alloc::Global;
use std::sync::Wait;

/// After so many reads in a row that gave nothing a link is idle (this project's own).
const MOST_QUIETS: u64 = 3;

// How far a link was served.
#[derive(Clone, Copy)]
struct Course {
    read: u64,
    written: u64,
    end: End,
}

// Has the session hear the octets, and writes the answers. Answers how many octets were written, and why it ended, if it did.
fn answer<R: Wait, K: Link, P: Keeper, J: Journal>(
    rt: &R,
    alloc: Global,
    link: &mut K,
    turn: &Turn<Hub<P, J>>,
    pass: &mut Pass<Hub<P, J>>,
    session: &mut Session,
    octets: &[u8],
) -> (usize, Option<End>)
    requires turn { pass.old.turn ≡ turn.now }
    requires number { pass.old.number ≡ session.old.number }
    requires opening { IsSome pass.old.opening }
    requires waits { session.old.waiting ≡ None }
    requires on { session.old.over ≡ false }
    requires short { session.old.stream.place + length octets.now < 2 ^ 63 }
    ensures answers { AnswersRead (option_map (λ o.
        opening_of (P.tables o.start) (P.limit o.start) o.fleet o.secret) pass.old.opening)
        session.old session.new octets.now pass.old pass.new
        (wire_of K.inbound K.written K.faults link.old)
        (wire_of K.inbound K.written K.faults link.new) result.0 result.1 }
    ensures still { result.1 ≢ Some ends.LinkFault → K.faults link.new ≡ K.faults link.old }
    ensures same { IsSamePass pass.old pass.new }
    ensures on { result.1 ≡ None → session.new.over ≡ false }
    ensures waiting { session.new.waiting ≡ None }
    ensures place { session.new.stream.place ≤ session.old.stream.place + length octets.now }
    ensures short { result.0 ≤ ANSWER_LIMIT * length octets.now }
    ensures fit { AreOctets octets.now }
{
    let mut out = Buffer::new(alloc);
    let fed = hear(rt, session, turn, pass, octets, &mut out);
    let said = out.as_slice();
    let count = write_front(link, said);
    if count < said.len() {
        return (count, Some(End::LinkFault));
    }
    match fed {
        Fed::On => (count, None),
        Fed::Stop(end) => (count, Some(end)),
    }
}

// Reads the link and answers what was read before it reads again, until something ends it.
fn converse<R: Wait, K: Link, P: Keeper, J: Journal>(
    rt: &R,
    alloc: Global,
    link: &mut K,
    turn: &Turn<Hub<P, J>>,
    pass: &mut Pass<Hub<P, J>>,
    session: &mut Session,
    octets: u64,
) -> Course
    requires turn { pass.old.turn ≡ turn.now }
    requires number { pass.old.number ≡ session.old.number }
    requires opening { IsSome pass.old.opening }
    requires new { IsNew session.old }
    requires place { session.old.stream.place ≡ 0 }
    requires octets { (1 ≤ octets) × (octets ≤ INPUT_LIMIT) }
    ensures converses { Converses (option_map (λ o.
        opening_of (P.tables o.start) (P.limit o.start) o.fleet o.secret) pass.old.opening) octets
        session.old session.new pass.old pass.new (wire_of K.inbound K.written K.faults link.old)
        (wire_of K.inbound K.written K.faults link.new) result.read result.written result.end }
    ensures quiet { (K.inbound link.new).run ≤ (K.inbound link.old).run + most_quiet result.end }
    ensures still { result.end ≢ ends.LinkFault → K.faults link.new ≡ K.faults link.old }
    ensures same { IsSamePass pass.old pass.new }
    ensures waiting { session.new.waiting ≡ None }
{
    let mut room = [0u8; READ_LIMIT];
    let mut read = 0;
    let mut written = 0;
    let mut quiets = 0;
    while read < octets {
        let most = (octets - read).min(READ_LIMIT as u64) as usize;
        let piece = &mut room[..most];
        match link.read(piece) {
            LinkGot::Bytes(count) => {
                quiets = 0;
                read += count as u64;
                let (done, end) = answer(rt, alloc, link, turn, pass, session, &piece[..count]);
                written += done as u64;
                match end {
                    Some(end) => return Course { read, written, end },
                    None => {}
                }
            }
            LinkGot::Quiet => {
                quiets += 1;
                if quiets == MOST_QUIETS {
                    let end = End::Idle;
                    return Course { read, written, end };
                }
            }
            LinkGot::End => {
                let end = End::Ended;
                return Course { read, written, end };
            }
            LinkGot::Failed => {
                let end = End::LinkFault;
                return Course { read, written, end };
            }
        }
    }
    let end = End::Spent;
    Course { read, written, end }
}

// Has a new session of the pass's number serve the link, up to its Close.
fn serve_open<R: Wait, K: Link, P: Keeper, J: Journal>(
    rt: &R,
    alloc: Global,
    link: &mut K,
    turn: &Turn<Hub<P, J>>,
    pass: &mut Pass<Hub<P, J>>,
    octets: u64,
) -> Report
    requires turn { pass.old.turn ≡ turn.now }
    requires opening { IsSome pass.old.opening }
    requires octets { (1 ≤ octets) × (octets ≤ INPUT_LIMIT) }
    ensures serves { ServesUpTo (option_map (λ o.
        opening_of (P.tables o.start) (P.limit o.start) o.fleet o.secret) pass.old.opening) octets
        pass.old pass.new (wire_of K.inbound K.written K.faults link.old)
        (wire_of K.inbound K.written K.faults link.new) result }
    ensures quiet { (K.inbound link.new).run ≤ (K.inbound link.old).run + most_quiet result.end }
    ensures still { result.end ≢ ends.LinkFault → K.faults link.new ≡ K.faults link.old }
    ensures same { IsSamePass pass.old pass.new }
{
    law_frames();
    let number = pass.number();
    let Ok(mut session) = Session::new(alloc, number) else {
        return Report {
            session: number,
            read: 0,
            written: 0,
            frames: 0,
            refused: 0,
            dropped: 0,
            end: End::Memory,
        };
    };
    let course = converse(rt, alloc, link, turn, pass, &mut session, octets);
    let Course { read, written, end } = course;
    let Counts {
        frames,
        refused,
        dropped,
    } = session.counts();
    Report {
        session: number,
        read,
        written,
        frames,
        refused,
        dropped,
        end,
    }
}

/// Serves a link by a pass of a turn over a hub: it reads octets, asks the hub what they want, and writes the answers to the
/// octets of a read before it reads again; in the end it closes the session, which takes no memory. At most `octets` octets are
/// taken, from 1 to 2^40. The pass's number is from 1 to the hub's reserved one, and it made no entry yet.
pub fn serve_link_within<R: Wait, K: Link, P: Keeper, J: Journal>(
    rt: &R,
    alloc: Global,
    link: &mut K,
    turn: &Turn<Hub<P, J>>,
    mut pass: Pass<Hub<P, J>>,
    octets: u64,
) -> (Report, Pass<Hub<P, J>>)
    requires turn { pass.turn ≡ turn.now }
    requires number { (1 ≤ pass.number) × IsSomeAnd pass.opening (λ o. pass.number ≤ o.reserved) }
    requires new { pass.mine ≡ [] }
    requires octets { (1 ≤ octets) × (octets ≤ INPUT_LIMIT) }
    // What was taken, asked with the replies, and written, and why it ended.
    ensures serves { Serves (option_map (λ o.
        opening_of (P.tables o.start) (P.limit o.start) o.fleet o.secret) pass.opening) octets pass
        result.1 (wire_of K.inbound K.written K.faults link.old)
        (wire_of K.inbound K.written K.faults link.new) result.0 }
    // The third quiet read in a row ends it as Idle.
    ensures quiet { (K.inbound link.new).run ≤ (K.inbound link.old).run + most_quiet result.0.end }
    // Every other end, so Memory too, comes only where the link's count of faults stood still.
    ensures still { result.0.end ≢ ends.LinkFault → K.faults link.new ≡ K.faults link.old }
    ensures same { IsSamePass pass result.1 }
{
    let report = serve_open(rt, alloc, link, turn, &mut pass, octets);
    turn.act(rt, &mut pass, &Request::Close);
    (report, pass)
}

/// Serves a link as `serve_link_within` does, up to 2^40 octets.
pub fn serve_link<R: Wait, K: Link, P: Keeper, J: Journal>(
    rt: &R,
    alloc: Global,
    link: &mut K,
    turn: &Turn<Hub<P, J>>,
    pass: Pass<Hub<P, J>>,
) -> (Report, Pass<Hub<P, J>>)
    requires turn { pass.turn ≡ turn.now }
    requires number { (1 ≤ pass.number) × IsSomeAnd pass.opening (λ o. pass.number ≤ o.reserved) }
    requires new { pass.mine ≡ [] }
    ensures serves { Serves (option_map (λ o.
        opening_of (P.tables o.start) (P.limit o.start) o.fleet o.secret) pass.opening) INPUT_LIMIT
        pass result.1 (wire_of K.inbound K.written K.faults link.old)
        (wire_of K.inbound K.written K.faults link.new) result.0 }
    // The third quiet read in a row ends it as Idle.
    ensures quiet { (K.inbound link.new).run ≤ (K.inbound link.old).run + most_quiet result.0.end }
    // Every other end, so Memory too, comes only where the link's count of faults stood still.
    ensures still { result.0.end ≢ ends.LinkFault → K.faults link.new ≡ K.faults link.old }
    ensures same { IsSamePass pass result.1 }
{
    serve_link_within(rt, alloc, link, turn, pass, INPUT_LIMIT)
}
