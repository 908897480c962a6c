//! A session over a turn, by a pass of it.

ghost use Rattle.std.specs.Prelude.{◌≡◌, ◌≤◌, ◌<◌, ◌+◌, ◌*◌, ◌^◌, ◌↔◌, [], false, None, Some, IsSome, IsSomeAnd, length, option_map, take};
ghost use Rattle.jt_value.specs.declared.limits.TheConstants.{ANSWER_LIMIT, FRAME_LIMIT};
ghost use Rattle.jt_platform.specs.Hub.{opening_of};
ghost use Rattle.jt_session.specs.Talk.{asks};
ghost use Rattle.jt_session.specs.Hearing.{Hears, IsSamePass};

use crate::end::{End, Fed};
use crate::session::Session;
use crate::step::Step;
use jt_platform::{Hub, Journal, Request};
use jt_store::Keeper;
use jt_stream::law_front;
use jt_turn::{Pass, Turn};
use jt_value::Buffer;
use std::sync::Wait;

// Asks the hub what the frame that waits wants, and answers the frame.
fn ask<R: Wait, P: Keeper, J: Journal>(
    rt: &R,
    session: &mut Session,
    turn: &Turn<Hub<P, J>>,
    pass: &mut Pass<Hub<P, J>>,
    request: Request,
    out: &mut Buffer<u8>,
) -> Fed
    requires turn { pass.old.turn ≡ turn.now }
    requires number { pass.old.number ≡ session.old.number }
    requires opening { IsSome pass.old.opening }
    requires waits { IsSomeAnd session.old.waiting (λ item.
        asks session.old.state item ≡ Some request) }
    requires on { session.old.over ≡ false }
    requires room { FRAME_LIMIT ≤ out.old.spare }
    ensures hears { Hears (option_map (λ o.
        opening_of (P.tables o.start) (P.limit o.start) o.fleet o.secret) pass.old.opening)
        session.old session.new [] pass.old pass.new out.old.items out.new.items result }
    ensures same { IsSamePass pass.old pass.new }
    ensures on { (result ≡ Fed.On) ↔ (session.new.over ≡ false) }
    ensures waiting { session.new.waiting ≡ None }
    ensures place { session.new.stream.place ≡ session.old.stream.place }
    ensures short { length out.new.items ≤ length out.old.items + FRAME_LIMIT }
{
    let reply = turn.act(rt, pass, &request);
    session.reply(&reply, out)
}

// Takes octets up to the first frame that asks something, or all, and asks the hub.
fn hear_some<R: Wait, P: Keeper, J: Journal>(
    rt: &R,
    session: &mut Session,
    turn: &Turn<Hub<P, J>>,
    pass: &mut Pass<Hub<P, J>>,
    octets: &[u8],
    out: &mut Buffer<u8>,
) -> (usize, Fed)
    requires turn { pass.old.turn ≡ turn.now }
    requires number { pass.old.number ≡ session.old.number }
    requires opening { IsSome pass.old.opening }
    requires waits { session.old.waiting ≡ None }
    requires on { session.old.over ≡ false }
    requires short { session.old.stream.place + length octets.now < 2 ^ 63 }
    ensures taken { result.0 ≤ length octets.now }
    ensures some { 0 < length octets.now → 0 < result.0 }
    ensures hears { Hears (option_map (λ o.
        opening_of (P.tables o.start) (P.limit o.start) o.fleet o.secret) pass.old.opening)
        session.old session.new (take result.0 octets.now) pass.old pass.new
        out.old.items out.new.items result.1 }
    ensures same { IsSamePass pass.old pass.new }
    ensures on { (result.1 ≡ Fed.On) ↔ (session.new.over ≡ false) }
    ensures waiting { session.new.waiting ≡ None }
    ensures place { session.new.stream.place ≡ session.old.stream.place + result.0 }
    ensures short { length out.new.items
        ≤ length out.old.items + FRAME_LIMIT * result.0 + FRAME_LIMIT }
{
    let (count, step) = session.take(octets, out);
    match step {
        Step::More => (count, Fed::On),
        Step::Ask(request) => (count, ask(rt, session, turn, pass, request, out)),
        Step::Memory => (count, Fed::Stop(End::Memory)),
    }
}

/// Takes the octets and asks the turn's hub what they want, one request after the other, and puts the answers behind `out`.
/// `On` where all octets were taken, and `Stop` with what ended the session; octets behind that item have no effect.
pub(crate) fn hear<R: Wait, P: Keeper, J: Journal>(
    rt: &R,
    session: &mut Session,
    turn: &Turn<Hub<P, J>>,
    pass: &mut Pass<Hub<P, J>>,
    octets: &[u8],
    out: &mut Buffer<u8>,
) -> Fed
    requires turn { pass.old.turn ≡ turn.now }
    requires number { pass.old.number ≡ session.old.number }
    requires opening { IsSome pass.old.opening }
    requires waits { session.old.waiting ≡ None }
    requires on { session.old.over ≡ false }
    requires short { session.old.stream.place + length octets.now < 2 ^ 63 }
    ensures hears { Hears (option_map (λ o.
        opening_of (P.tables o.start) (P.limit o.start) o.fleet o.secret) pass.old.opening)
        session.old session.new octets.now pass.old pass.new out.old.items out.new.items result }
    ensures same { IsSamePass pass.old pass.new }
    ensures on { (result ≡ Fed.On) ↔ (session.new.over ≡ false) }
    ensures waiting { session.new.waiting ≡ None }
    ensures place { session.new.stream.place ≤ session.old.stream.place + length octets.now }
    ensures short { length out.new.items ≤ length out.old.items + ANSWER_LIMIT * length octets.now }
{
    law_front();
    let mut taken = 0;
    while taken < octets.len() {
        let (count, fed) = hear_some(rt, session, turn, pass, &octets[taken..], out);
        taken += count;
        match fed {
            Fed::On => {}
            Fed::Stop(end) => return Fed::Stop(end),
        }
    }
    Fed::On
}
