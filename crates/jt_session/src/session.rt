//! A session: items in, requests and answers out.

ghost use Rattle.std.specs.Prelude.{◌≡◌, ◌≤◌, ◌<◌, ◌+◌, ◌*◌, ◌^◌, ◌↔◌, [], false, Some, None, IfOk, IfSome, IsSome, length, take};
ghost use Rattle.jt_value.specs.declared.limits.TheConstants.{FRAME_LIMIT};
ghost use Rattle.jt_escape.specs.Splitter.{StandsFor};
ghost use Rattle.jt_session.specs.Talk.{start};
ghost use Rattle.jt_session.specs.Replies.{HasRoomFor};
ghost use Rattle.jt_session.specs.Sessions as sessions;
ghost use Rattle.jt_session.specs.Sessions.{HasRoom, IsRepliedTo, LedTo, TakesUnasked, counts};
ghost use Rattle.jt_session.specs.Steps.{GoesOn};
ghost use Rattle.jt_session.specs.Waiting.{ends_by};

use crate::counts::Counts;
use crate::end::{End, Fed};
use crate::kept::Kept;
use crate::reading::read_item;
use crate::step::{Came, Step};
use jt_header::Header;
use jt_platform::Reply;
use jt_stream::Stream;
use jt_value::{Buffer, Memory};
use std::alloc::Global;
use std::marker::Model;
use std::snapshot::Snapshot;

/// A connection's session of the platform: it reads a terminal's frames, asks for what they want, and answers them.
#[derive(Drop)]
pub struct Session {
    alloc: Global,
    number: u32,
    stream: Stream,
    kept: Kept,
    // The header of the message whose request waits. Its frame is the stream's last one.
    waiting: Option<Header>,
    // For contracts alone and in no octets: what was kept before the frame whose request waits.
    before: Snapshot<Kept>,
    over: bool,
}

impl Model for Session {
    ghost use Rattle.std.specs.Coded.{codes};
    ghost use Rattle.jt_subpacket.specs.Stored.{partial_code};
    ghost use Rattle.jt_session.specs.Sessions.{Seen};
    ghost use Rattle.jt_session.specs.Waiting.{AreFew, Waits, state_of, waiting_of};

    ghost Value = { Seen };

    ghost coded = { Prim.hlevel (codes, partial_code) };

    ghost view = { λ s. record { number = s.number; stream = s.stream.splitter; state = state_of s.waiting s.kept s.before.value; waiting = waiting_of s.waiting s.stream.splitter.content; over = s.over } };

    ghost invariant = { λ s. Waits s.waiting s.kept s.before.value s.stream.splitter.content × AreFew s.kept s.stream.splitter.place };
}

fn fed_by(reply: &Reply) -> Fed
    ensures { result ≡ sessions.feed_end reply.now }
{
    match reply {
        Reply::Fenced(other) => Fed::Stop(End::Fenced(*other)),
        Reply::ListFull(limit) => Fed::Stop(End::ListFull(*limit)),
        Reply::StoreFault => Fed::Stop(End::StoreFault),
        Reply::Memory => Fed::Stop(End::Memory),
        _ => Fed::On,
    }
}

fn ends(reply: &Reply) -> bool
    ensures { result ≡ ends_by reply.now }
{
    matches!(
        reply,
        Reply::Fenced(_) | Reply::ListFull(_) | Reply::StoreFault | Reply::Memory
    )
}

impl Session {
    /// A session of this number, which has read nothing. Memory never comes, since none is taken.
    pub fn new(alloc: Global, number: u32) -> Result<Session, Memory>
        ensures number { IfOk result (λ session. session.number ≡ number) }
        ensures state { IfOk result (λ session. session.state ≡ start) }
        ensures stream { IfOk result (λ session. StandsFor session.stream []) }
        ensures place { IfOk result (λ session. session.stream.place ≡ 0) }
        ensures waiting { IfOk result (λ session. session.waiting ≡ None) }
        ensures over { IfOk result (λ session. session.over ≡ false) }
    {
        let kept = Kept::new(alloc);
        let before = Snapshot::of(&kept);
        Ok(Session {
            alloc,
            number,
            stream: Stream::new(),
            kept,
            waiting: None,
            before,
            over: false,
        })
    }

    /// The number that the session was begun with.
    pub fn number(&self) -> u32
        ensures { result ≡ self.now.number }
    {
        self.number
    }

    /// What was counted among the items that the session went through. No request waits.
    pub fn counts(&self) -> Counts
        requires { self.now.waiting ≡ None }
        ensures { (result.frames, result.refused, result.dropped) ≡ counts self.now.state }
    {
        let Kept {
            frames,
            refused,
            dropped,
            ..
        } = &self.kept;
        Counts {
            frames: *frames,
            refused: *refused,
            dropped: *dropped,
        }
    }

    // Takes octets up to the first that completes an item, or all.
    fn next(&mut self, octets: &[u8], out: &mut Buffer<u8>) -> (usize, Step)
        requires waits { self.old.waiting ≡ None }
        requires on { self.old.over ≡ false }
        requires some { 0 < length octets.now }
        requires short { self.old.stream.place + length octets.now < 2 ^ 63 }
        ensures taken { result.0 ≤ length octets.now }
        ensures some { 0 < result.0 }
        ensures place { self.new.stream.place ≡ self.old.stream.place + result.0 }
        ensures goes { GoesOn self.old self.new (take result.0 octets.now)
            out.old.items out.new.items }
        ensures led { LedTo self.new result.1 }
        ensures room { HasRoom out.new.spare result.1 }
        ensures bound { length out.new.items ≤ length out.old.items + FRAME_LIMIT }
    {
        self.before = Snapshot::of(&self.kept);
        let (count, came) = read_item(self.alloc, &mut self.stream, &mut self.kept, octets, out);
        match came {
            Came::Quiet => (count, Step::More),
            Came::Asks(header, request) => {
                self.waiting = Some(header);
                (count, Step::Ask(request))
            }
            Came::Memory => {
                self.over = true;
                (count, Step::Memory)
            }
        }
    }

    /// Takes octets up to the first frame that asks something, or all, and puts the answers to the items before it behind `out`.
    /// Answers how many were taken, and what they led to: `More` exactly where all were taken and no request waits; `Ask` with
    /// the request that waits, for whose answer `out` then has room; or `Memory`, which ends the session. The octets taken so far
    /// and these are together fewer than 2^63.
    pub fn take(&mut self, octets: &[u8], out: &mut Buffer<u8>) -> (usize, Step)
        requires waits { self.old.waiting ≡ None }
        requires on { self.old.over ≡ false }
        requires short { self.old.stream.place + length octets.now < 2 ^ 63 }
        ensures taken { result.0 ≤ length octets.now }
        ensures some { 0 < length octets.now → 0 < result.0 }
        ensures more { result.1 ≡ Step.More → result.0 ≡ length octets.now }
        ensures place { self.new.stream.place ≡ self.old.stream.place + result.0 }
        // What was taken, asked of the items before and written.
        ensures turns { TakesUnasked self.old self.new (take result.0 octets.now)
            out.old.items out.new.items }
        ensures led { LedTo self.new result.1 }
        ensures room { HasRoom out.new.spare result.1 }
        ensures bound { length out.new.items ≤ length out.old.items + FRAME_LIMIT * result.0 }
    {
        let mut taken = 0;
        while taken < octets.len() {
            let (count, step) = self.next(&octets[taken..], out);
            taken += count;
            match step {
                Step::More => {}
                Step::Ask(request) => return (taken, Step::Ask(request)),
                Step::Memory => return (taken, Step::Memory),
            }
        }
        (taken, Step::More)
    }

    /// Answers the frame whose request waits, by the reply to the request, and puts the answer behind `out`. It takes no memory.
    /// `On`, or `Stop` with the reply that ended the session: Fenced, which is answered first, or ListFull, StoreFault or Memory,
    /// which are answered with nothing.
    pub fn reply(&mut self, reply: &Reply, out: &mut Buffer<u8>) -> Fed
        requires waits { IsSome self.old.waiting }
        requires on { self.old.over ≡ false }
        requires room { FRAME_LIMIT ≤ out.old.spare }
        requires code { HasRoomFor reply.now }
        ensures fed { result ≡ sessions.feed_end reply.now }
        ensures turn { IfSome self.old.waiting
            (IsRepliedTo self.old self.new reply.now out.old.items out.new.items) }
        ensures on { (result ≡ Fed.On) ↔ (self.new.over ≡ false) }
        ensures waiting { self.new.waiting ≡ None }
        ensures place { self.new.stream.place ≡ self.old.stream.place }
        ensures bound { length out.new.items ≤ length out.old.items + FRAME_LIMIT }
    {
        let Some(header) = self.waiting else {
            unreachable!();
        };
        self.waiting = None;
        self.kept.answer(&header, reply, out);
        self.over = ends(reply);
        fed_by(reply)
    }
}
