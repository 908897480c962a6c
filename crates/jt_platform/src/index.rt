//! The tables of a history: who holds each phone, which sessions are live for which phones, which are closed.

ghost use Rattle.std.specs.Prelude.{◌≡◌, [], OnOk, IsOk, IsSome};
ghost use Rattle.jt_value.specs.Sameness.{key_of};
ghost use Rattle.jt_platform.specs.Index.{Indexed, empty, holder_in, live_in, closed_in, HasClose, holder_place, live_place, IsReady, Keeps, Notes, LetsIn, LetsOut, Closes, Marks};

use crate::flags::Flags;
use crate::lookup::Lookup;
use crate::request::{Reply, Request};
use jt_store::Digits;
use jt_value::{Memory, Phone};
use std::alloc::Global;
use std::marker::Model;

// Each request looks up or sets a few places, so it costs the logarithm of how many there are.
#[derive(Drop)]
pub(crate) struct Index {
    holders: Lookup<Digits, Option<u32>>,
    lives: Lookup<(u32, Digits), bool>,
    closes: Flags,
}

impl Model for Index {
    ghost use Rattle.jt_platform.specs.Index.{Indexed};

    ghost Value = { Indexed };

    ghost view = { λ x. record { holders = x.holders; lives = x.lives; closes = x.closes } };
}

fn digits(phone: &Phone) -> Digits
    ensures { result ≡ key_of phone.now }
{
    Digits::of(&phone.digits)
}

impl Index {
    pub(crate) fn new(alloc: Global) -> Index
        ensures { result ≡ empty }
    {
        Index {
            holders: Lookup::new(alloc),
            lives: Lookup::new(alloc),
            closes: Flags::new(alloc),
        }
    }

    pub(crate) fn holder(&self, phone: &Phone) -> Option<u32>
        ensures { result ≡ holder_in self.now (key_of phone.now) }
    {
        match self.holders.get(&digits(phone)) {
            Some(holder) => *holder,
            None => None,
        }
    }

    pub(crate) fn is_live(&self, phone: &Phone, session: u32) -> bool
        ensures { result ≡ live_in self.now (key_of phone.now) session }
    {
        match self.lives.get(&(session, digits(phone))) {
            Some(live) => *live,
            None => false,
        }
    }

    pub(crate) fn is_closed(&self, session: u32) -> bool
        ensures { result ≡ closed_in self.now session }
    {
        self.closes.has(session)
    }

    // Makes the place for a Close of the session.
    pub(crate) fn place_close(&mut self, session: u32) -> Result<(), Memory>
        ensures made { OnOk result (HasClose self.new session) }
        ensures keeps { Keeps self.old self.new }
    {
        self.closes.place(session)
    }

    // Makes the places for what an entry of this request changes.
    pub(crate) fn place(&mut self, session: u32, request: &Request) -> Result<(), Memory>
        ensures made { OnOk result (IsReady self.new session request.now) }
        ensures keeps { Keeps self.old self.new }
    {
        match request {
            Request::Auth { phone, code: _ } => self.place_auth(session, phone),
            Request::Close => self.closes.place(session),
            _ => Ok(()),
        }
    }

    fn place_auth(&mut self, session: u32, phone: &Phone) -> Result<(), Memory>
        ensures holder { OnOk result (IsSome (holder_place self.new (key_of phone.now))) }
        ensures live { OnOk result (IsSome (live_place self.new (key_of phone.now) session)) }
        ensures keeps { Keeps self.old self.new }
    {
        self.holders.place(digits(phone), None)?;
        self.lives.place((session, digits(phone)), false)
    }

    // Tells of an entry, whose places are made.
    pub(crate) fn note(&mut self, session: u32, request: &Request, reply: &Reply)
        requires { IsReady self.old session request.now }
        ensures { Notes self.old self.new session request.now reply.now }
    {
        match (request, reply) {
            (Request::Auth { phone, code: _ }, Reply::Accepted) => self.let_in(session, phone),
            (Request::Auth { phone, code: _ }, _) => self.forget_unused(session, phone),
            (Request::Deregister { phone }, Reply::Accepted) => self.let_out(session, phone),
            (Request::Close, _) => self.close(session),
            _ => {}
        }
    }

    // Lets the places go that were made for an entry of this request, and that tell nothing.
    pub(crate) fn let_go(&mut self, session: u32, request: &Request)
        ensures { Keeps self.old self.new }
    {
        if let Request::Auth { phone, code: _ } = request {
            self.forget_unused(session, phone);
        }
    }

    // The session is live for the phone now, and holds it, if it was not live before.
    fn let_in(&mut self, session: u32, phone: &Phone)
        requires holder { IsSome (holder_place self.old (key_of phone.now)) }
        requires live { IsSome (live_place self.old (key_of phone.now) session) }
        ensures { LetsIn self.old self.new session (key_of phone.now) }
    {
        let was = self.is_live(phone, session);
        let Ok(()) = self.lives.set((session, digits(phone)), true) else {
            unreachable!();
        };
        if !was {
            let Ok(()) = self.holders.set(digits(phone), Some(session)) else {
                unreachable!();
            };
        }
    }

    // The session is live for the phone no more.
    fn let_out(&mut self, session: u32, phone: &Phone)
        ensures { LetsOut self.old self.new session (key_of phone.now) }
    {
        self.lives.forget(&(session, digits(phone)));
    }

    // Lets the places go that were made for an authentication and that tell nothing.
    fn forget_unused(&mut self, session: u32, phone: &Phone)
        ensures { Keeps self.old self.new }
    {
        self.forget_live(session, phone);
        self.forget_holder(phone);
    }

    fn forget_live(&mut self, session: u32, phone: &Phone)
        ensures { Keeps self.old self.new }
    {
        if !self.is_live(phone, session) {
            self.lives.forget(&(session, digits(phone)));
        }
    }

    fn forget_holder(&mut self, phone: &Phone)
        ensures { Keeps self.old self.new }
    {
        if self.holder(phone).is_none() {
            self.holders.forget(&digits(phone));
        }
    }

    // The session is closed now. Of the phones that it was live for nothing is kept.
    fn close(&mut self, session: u32)
        requires { HasClose self.old session }
        ensures { Closes self.old self.new session }
    {
        self.mark(session);
        self.lives.forget_number(session);
    }

    fn mark(&mut self, session: u32)
        requires { HasClose self.old session }
        ensures { Marks self.old self.new session }
    {
        self.closes.mark(session);
    }
}
