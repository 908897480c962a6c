//! The hub as a desk that many sessions share by turns.

use crate::hub::Hub;
use crate::journal::Journal;
use crate::request::{Fleet, Reply, Request};
use jt_store::Keeper;
use jt_turn::Desk;
use jt_value::Octets;

/// What no request changes of a hub. Contracts speak of it; no value of it is made.
pub struct HubOpening<P> {
    /// The keeper as it was when the hub was made.
    pub start: P,
    /// The vehicles and terminals that may register.
    pub fleet: Fleet,
    /// What the codes are made of.
    pub secret: Octets,
    /// Up to which session the memory for a Close is there.
    pub reserved: u32,
}

// The opening is `Some` for each hub.
impl<P: Keeper, J: Journal> Desk for Hub<P, J> {
    ghost use Rattle.std.specs.Prelude.{Some, None, IfSome, map};
    ghost use Rattle.jt_platform.specs.Allowed.{makes_entry};
    ghost use Rattle.jt_platform.specs.Hub.{opening_of};
    ghost use Rattle.jt_platform.specs.Desks.{as_ask, Gives};

    type Ask = Request;

    type Answer = Reply;

    type Opening = Option<HubOpening<P>>;

    ghost opening = { λ hub. Some (record { start = hub.start; fleet = hub.fleet; secret = hub.secret; reserved = hub.reserved }) };

    ghost blank = { None };

    ghost history = { λ hub. map as_ask hub.history };

    ghost faults = { λ hub. P.faults hub.keeper };

    ghost gives = { λ opening found before now session request reply. IfSome opening (λ o. Gives (opening_of (P.tables o.start) (P.limit o.start) o.fleet o.secret) o.reserved found before now session request reply) };

    ghost enters = { λ reply. makes_entry reply };

    fn act(&mut self, session: u32, ask: &Request) -> Reply {
        Hub::act(self, session, ask)
    }
}
