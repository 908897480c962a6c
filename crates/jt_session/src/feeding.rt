//! A session over a hub.

ghost use Rattle.std.specs.Prelude.{◌≡◌, ◌≤◌, ◌<◌, ◌+◌, ◌^◌, ◌↔◌, ℕ, [], ◌∷◌, ◌++◌, false, None, Some, IsSomeAnd, length, take};
ghost use Rattle.jt_value.specs.declared.limits.TheConstants.{FRAME_LIMIT};
ghost use Rattle.jt_platform.specs.History.{newest, closed};
ghost use Rattle.jt_platform.specs.Hub.{HasReason, IsOwed, opening_of};
ghost use Rattle.jt_platform.specs.declared.request.Request.TheVariants as request;
ghost use Rattle.jt_platform.specs.declared.request.Reply.TheVariants as reply;
ghost use Rattle.jt_session.specs.Talk.{asks};
ghost use Rattle.jt_session.specs.Sessions.{Feeds, HasFedReason};

use crate::end::{End, Fed};
use crate::session::Session;
use crate::step::Step;
use jt_platform::{Hub, Request};
use jt_store::Keeper;
use jt_stream::law_front;
use jt_value::Buffer;

impl Session {
    // Asks the hub what the frame that waits wants, and answers the frame.
    fn ask<P: Keeper>(&mut self, hub: &mut Hub<P>, request: Request, out: &mut Buffer<u8>) -> Fed
        requires waits { IsSomeAnd self.old.waiting (λ item.
            asks self.old.state item ≡ Some request) }
        requires on { self.old.over ≡ false }
        requires room { FRAME_LIMIT ≤ out.old.spare }
        ensures feeds { Feeds self.old self.new [] (opening_of (P.tables hub.old.start)
            (P.limit hub.old.start) hub.old.fleet hub.old.secret)
            (newest hub.old.history) (newest hub.new.history) out.old.items out.new.items result }
        ensures on { (result ≡ Fed.On) ↔ (self.new.over ≡ false) }
        ensures waiting { self.new.waiting ≡ None }
        ensures place { self.new.stream.place ≡ self.old.stream.place }
        ensures opening { (hub.new.start ≡ hub.old.start) × (hub.new.fleet ≡ hub.old.fleet)
            × (hub.new.secret ≡ hub.old.secret) × (hub.new.reserved ≡ hub.old.reserved) }
        ensures closed { (session : ℕ) →
            closed (newest hub.new.history) session ≡ closed (newest hub.old.history) session }
        ensures reason { HasFedReason (P.faults hub.old.keeper) (P.faults hub.new.keeper)
            (P.may_fail hub.old.keeper) (P.may_fail hub.new.keeper) result }
    {
        let reply = hub.act(self.number(), &request);
        self.reply(&reply, out)
    }

    // Takes octets up to the first frame that asks something, or all, and asks the hub.
    fn feed_some<P: Keeper>(
        &mut self,
        hub: &mut Hub<P>,
        octets: &[u8],
        out: &mut Buffer<u8>,
    ) -> (usize, Fed)
        requires waits { self.old.waiting ≡ None }
        requires on { self.old.over ≡ false }
        requires short { self.old.stream.place + length octets.now < 2 ^ 63 }
        ensures taken { result.0 ≤ length octets.now }
        ensures some { 0 < length octets.now → 0 < result.0 }
        ensures feeds { Feeds self.old self.new (take result.0 octets.now)
            (opening_of (P.tables hub.old.start) (P.limit hub.old.start) hub.old.fleet
            hub.old.secret)
            (newest hub.old.history) (newest hub.new.history) out.old.items out.new.items result.1 }
        ensures on { (result.1 ≡ Fed.On) ↔ (self.new.over ≡ false) }
        ensures waiting { self.new.waiting ≡ None }
        ensures place { self.new.stream.place ≡ self.old.stream.place + result.0 }
        ensures opening { (hub.new.start ≡ hub.old.start) × (hub.new.fleet ≡ hub.old.fleet)
            × (hub.new.secret ≡ hub.old.secret) × (hub.new.reserved ≡ hub.old.reserved) }
        ensures closed { (session : ℕ) →
            closed (newest hub.new.history) session ≡ closed (newest hub.old.history) session }
        ensures reason { HasFedReason (P.faults hub.old.keeper) (P.faults hub.new.keeper)
            (P.may_fail hub.old.keeper) (P.may_fail hub.new.keeper) result.1 }
    {
        let (count, step) = self.take(octets, out);
        match step {
            Step::More => (count, Fed::On),
            Step::Ask(request) => (count, self.ask(hub, request, out)),
            Step::Memory => (count, Fed::Stop(End::Memory)),
        }
    }

    /// Takes the octets and asks the hub what they want, one request after the other, and puts the answers behind `out`. `On`
    /// where all octets were taken, and `Stop` with what ended the session; octets behind that item have no effect. The hub has no
    /// Close of the session. The octets taken so far and these are together fewer than 2^63.
    ///
    /// It ends by StoreFault only where the keeper's count of faults rose in the call.
    pub fn feed<P: Keeper>(&mut self, hub: &mut Hub<P>, octets: &[u8], out: &mut Buffer<u8>) -> Fed
        requires waits { self.old.waiting ≡ None }
        requires on { self.old.over ≡ false }
        requires short { self.old.stream.place + length octets.now < 2 ^ 63 }
        requires unclosed { closed (newest hub.old.history) self.old.number ≡ false }
        // What was read, asked with the replies, which the history allows, and written; and how it ended.
        ensures feeds { Feeds self.old self.new octets.now (opening_of (P.tables hub.old.start)
            (P.limit hub.old.start) hub.old.fleet hub.old.secret)
            (newest hub.old.history) (newest hub.new.history) out.old.items out.new.items result }
        ensures on { (result ≡ Fed.On) ↔ (self.new.over ≡ false) }
        ensures waiting { self.new.waiting ≡ None }
        ensures place { self.new.stream.place ≤ self.old.stream.place + length octets.now }
        ensures opening { (hub.new.start ≡ hub.old.start) × (hub.new.fleet ≡ hub.old.fleet)
            × (hub.new.secret ≡ hub.old.secret) × (hub.new.reserved ≡ hub.old.reserved) }
        ensures closed { (session : ℕ) →
            closed (newest hub.new.history) session ≡ closed (newest hub.old.history) session }
        ensures reason { HasFedReason (P.faults hub.old.keeper) (P.faults hub.new.keeper)
            (P.may_fail hub.old.keeper) (P.may_fail hub.new.keeper) result }
    {
        law_front();
        let mut taken = 0;
        while taken < octets.len() {
            let (count, fed) = self.feed_some(hub, &octets[taken..], out);
            taken += count;
            match fed {
                Fed::On => {}
                Fed::Stop(end) => return Fed::Stop(end),
            }
        }
        Fed::On
    }

    /// Makes the Close entry of the session, whose number is within the hub's reserved one, and which has none yet. It takes no
    /// memory, and is Accepted.
    pub fn close<P: Keeper>(&mut self, hub: &mut Hub<P>)
        requires { IsOwed hub.old.history hub.old.reserved self.old.number }
        ensures same { self.new ≡ self.old }
        ensures entry { hub.new.history ≡ hub.old.history
            ++ record { session = self.old.number; request = request.Close; reply = reply.Accepted }
            ∷ [] }
        ensures opening { (hub.new.start ≡ hub.old.start) × (hub.new.fleet ≡ hub.old.fleet)
            × (hub.new.secret ≡ hub.old.secret) × (hub.new.reserved ≡ hub.old.reserved) }
        ensures reason { HasReason (P.faults hub.old.keeper) (P.faults hub.new.keeper)
            (P.may_fail hub.old.keeper) (P.may_fail hub.new.keeper) reply.Accepted }
    {
        hub.act(self.number(), &Request::Close);
    }
}
