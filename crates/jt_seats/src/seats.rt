//! The places of all links.

ghost use Rattle.std.specs.Prelude.{◌≡◌, ◌≤◌, ◌<◌, ◌-◌, ◌^◌, false, true, not, None, Some, [], All, IfOk, IfErr, IfSome, IsTrue, OnErr, OnOk, length, map, position, replicate, slice_get, slice_set};
ghost use Rattle.std.specs.Option.{option_map};
ghost use Rattle.jt_value.specs.Sameness.{key_of};
ghost use Rattle.jt_seats.specs.Seats.{IsOldest, Refuses, Replaces, away, count, dismissed, free, is_crowded, is_fair, is_let_in, is_of, is_session, is_stranger, is_strangers, let_in_at, named, older, seat_at, taken};
ghost use Rattle.jt_seats.specs.Verdicts.{verdict};

use crate::cut::{Away, Cut};
use crate::limits::Limits;
use crate::seat::Seat;
use jt_value::{Memory, Phone};
use std::alloc::Global;
use std::marker::Model;

// How long a stranger's link has been there at least before a newer one takes its place, in milliseconds (this project's own).
const STRANGER_STAY: u64 = 1_000;

const FREE: Seat = Seat {
    is_taken: false,
    session: 0,
    since: 0,
    address: 0,
    phone: None,
    cut: None,
};

/// How many links are served, and on how many of them somebody was let in.
#[derive(Clone, Copy, Debug, PartialEq, Eq)]
pub struct Counts {
    pub open: u32,
    pub let_in: u32,
}

/// The places of all links.
#[derive(Drop)]
pub struct Seats {
    seats: Vec<Seat>,
}

impl Model for Seats {
    ghost use Rattle.std.specs.Prelude.{◌≤◌, ◌-◌, ◌^◌, List, All, IsTrue, length};
    ghost use Rattle.jt_seats.specs.Seats.{is_fair};
    ghost use Rattle.jt_seats.specs.declared.seat.Seat.{Seat};

    ghost Value = { List Seat };

    ghost view = { λ s. s.seats.items };

    ghost invariant = { λ s. (length s.seats.items ≤ 2 ^ 32 - 1)
        × All (λ seat. IsTrue (is_fair seat)) s.seats.items };
}

// Whether it is an end of the rules for strangers.
fn is_strangers(cut: Option<Cut>) -> bool
    ensures { result ≡ is_strangers cut }
{
    matches!(
        cut,
        Some(Cut::StrangerTime | Cut::StrangerOctets | Cut::Replaced)
    )
}

// The older one of the oldest one so far and the one in a place, of those that go on.
fn older(oldest: Option<(usize, u64)>, place: usize, seat: &Seat) -> Option<(usize, u64)>
    ensures { result ≡ older oldest place seat.now }
{
    if !seat.goes_on() {
        return oldest;
    }
    match oldest {
        Some((_, first)) if first <= seat.since => oldest,
        _ => Some((place, seat.since)),
    }
}

fn place_of_oldest(oldest: Option<(usize, u64)>) -> Option<usize>
    ensures { result ≡ option_map (λ x. x.0) oldest }
{
    match oldest {
        Some((place, _)) => Some(place),
        None => None,
    }
}

impl Seats {
    /// No place so far.
    pub fn new(alloc: Global) -> Seats
        ensures { result ≡ [] }
    {
        Seats {
            seats: Vec::new(alloc),
        }
    }

    /// Makes so many free places, in place of those that were. After an error there is none.
    pub fn open(&mut self, count: u32) -> Result<(), Memory>
        ensures opened { OnOk result (self.new ≡ replicate count free) }
        ensures none { OnErr result (self.new ≡ []) }
    {
        self.seats.clear();
        self.seats.resize(count as usize, FREE)?;
        Ok(())
    }

    /// The place of this number.
    pub fn get(&self, place: usize) -> Option<Seat>
        ensures { result ≡ slice_get self.now place }
    {
        self.seats.get(place).copied()
    }

    // How many places there are.
    fn len(&self) -> usize
        ensures { result ≡ length self.now }
    {
        self.seats.len()
    }

    // The place of this number; a free one where there is none.
    #[tactic(auto, using(crate::proofs::Counting::fair_at))]
    fn at(&self, place: usize) -> Seat
        ensures at { result ≡ seat_at place self.now }
        ensures fair { IsTrue (is_fair result) }
    {
        match self.seats.get(place) {
            Some(seat) => *seat,
            None => FREE,
        }
    }

    // Sets the place of this number, where there is one.
    #[tactic(auto, using(crate::proofs::Counting::fair_set, crate::proofs::Counting::set_beyond))]
    fn set(&mut self, place: usize, seat: Seat)
        requires fair { IsTrue (is_fair seat) }
        ensures { self.new ≡ slice_set self.old place seat }
    {
        if place < self.seats.len() {
            self.seats[place] = seat;
        }
    }

    // A place that no link has.
    #[tactic(auto, using(crate::proofs::Counting::free_found))]
    fn free_place(&self) -> Option<usize>
        ensures first { result ≡ position (λ seat. not seat.is_taken) self.now }
        ensures free { IfSome result (λ place. (place < length self.now)
            × ((seat_at place self.now).is_taken ≡ false)) }
    {
        self.seats.iter().position(|seat| !seat.is_taken)
    }

    // On how many links nobody was let in yet.
    fn strangers(&self) -> usize
        ensures { result ≡ count is_stranger self.now }
    {
        self.seats.iter().filter(|seat| seat.is_stranger()).count()
    }

    // How many links are served.
    fn taken(&self) -> usize
        ensures count { result ≡ count (λ seat. seat.is_taken) self.now }
        ensures places { result ≤ length self.now }
        ensures fits { result ≤ 2 ^ 32 - 1 }
    {
        self.seats.iter().filter(|seat| seat.has_link()).count()
    }

    // On how many of them somebody was let in.
    fn let_in_count(&self) -> usize
        ensures count { result ≡ count is_let_in self.now }
        ensures fits { result ≤ 2 ^ 32 - 1 }
    {
        self.seats.iter().filter(|seat| seat.is_let_in()).count()
    }

    // On how many links of the address nobody was let in yet.
    fn strangers_of(&self, address: u128) -> usize
        ensures { result ≡ count (is_of address) self.now }
    {
        self.seats.iter().filter(|seat| seat.is_of(address)).count()
    }

    // Whether the address has as many strangers' links as it may have.
    fn is_crowded(&self, address: u128, limits: &Limits) -> bool
        ensures { result ≡ is_crowded limits.now address self.now }
    {
        if address == 0 {
            return false;
        }
        match limits.strangers_of_address {
            Some(most) => self.strangers_of(address) >= most as usize,
            None => false,
        }
    }

    // The place of the oldest link on which nobody was let in yet, and which goes on.
    #[tactic(auto, using(crate::proofs::Oldest::oldest_begins, crate::proofs::Oldest::oldest_more, crate::proofs::Oldest::oldest_ends))]
    fn oldest_stranger(&self) -> Option<usize>
        ensures { IsOldest self.now result }
    {
        let mut oldest: Option<(usize, u64)> = None;
        for place in 0..self.len() {
            oldest = older(oldest, place, &self.at(place));
        }
        place_of_oldest(oldest)
    }

    // Ends the oldest stranger's link, where it has been there for long enough.
    #[tactic(auto, using(crate::proofs::Counting::strangers_same))]
    fn replace_oldest(&mut self, now: u64)
        ensures replaces { Replaces now self.old self.new }
        ensures places { length self.new ≡ length self.old }
        ensures strangers { count is_stranger self.new ≡ count is_stranger self.old }
    {
        let Some(place) = self.oldest_stranger() else {
            return;
        };
        let seat = self.at(place);
        if now.saturating_sub(seat.since) >= STRANGER_STAY {
            let cut = Some(Cut::Replaced);
            self.set(place, Seat { cut, ..seat });
        }
    }

    /// A place for a link that comes now, in milliseconds, from the address of this number, by these limits. Where it gets none for want
    /// of places, it may end an older link on which nobody was let in, so that the next one finds a place.
    #[tactic(auto, using(crate::proofs::Counting::strangers_one_more))]
    pub fn admit(&mut self, now: u64, address: u128, limits: &Limits) -> Result<usize, Away>
        ensures may { OnOk result (away limits.now address self.old ≡ None) }
        ensures place { IfOk result (λ place. (place < length self.old)
            × ((seat_at place self.old).is_taken ≡ false)
            × (self.new ≡ slice_set self.old place (taken now address))) }
        ensures why { IfErr result (λ why. away limits.now address self.old ≡ Some why) }
        ensures refuses { IfErr result (λ why. Refuses why now self.old self.new) }
        ensures places { length self.new ≡ length self.old }
        // At most so many links on which nobody was let in.
        ensures strangers { count is_stranger self.old ≤ limits.now.strangers →
            count is_stranger self.new ≤ limits.now.strangers }
    {
        if self.is_crowded(address, limits) {
            return Err(Away::Address);
        }
        let Some(place) = self.free_place() else {
            self.replace_oldest(now);
            return Err(Away::Full);
        };
        if self.strangers() >= limits.strangers as usize {
            self.replace_oldest(now);
            return Err(Away::Strangers);
        }
        let seat = Seat {
            is_taken: true,
            since: now,
            address,
            ..FREE
        };
        self.set(place, seat);
        Ok(place)
    }

    /// The link in this place has a session of this number.
    #[tactic(auto, using(crate::proofs::Counting::strangers_same))]
    pub fn name(&mut self, place: usize, session: u32)
        ensures named { self.new
            ≡ slice_set self.old place (named session (seat_at place self.old)) }
        ensures places { length self.new ≡ length self.old }
        ensures strangers { count is_stranger self.new ≡ count is_stranger self.old }
    {
        let seat = self.at(place);
        self.set(place, Seat { session, ..seat });
    }

    /// The place is free again.
    #[tactic(auto, using(crate::proofs::Counting::strangers_fewer_free))]
    pub fn leave(&mut self, place: usize)
        ensures free { self.new ≡ slice_set self.old place free }
        ensures places { length self.new ≡ length self.old }
        ensures strangers { count is_stranger self.new ≤ count is_stranger self.old }
    {
        self.set(place, FREE);
    }

    // The place of the link that has the session of this number.
    fn place_of(&self, session: u32) -> Option<usize>
        ensures { result ≡ position (is_session session) self.now }
    {
        self.seats.iter().position(|seat| seat.is_session(session))
    }

    /// The phone was let in, in the session of this number, which no rule for strangers ends any more.
    #[tactic(auto, using(crate::proofs::Counting::strangers_fewer))]
    pub fn let_in(&mut self, session: u32, phone: Phone)
        ensures let_in { self.new
            ≡ let_in_at phone self.old (position (is_session session) self.old) }
        ensures places { length self.new ≡ length self.old }
        ensures strangers { count is_stranger self.new ≤ count is_stranger self.old }
    {
        let Some(place) = self.place_of(session) else {
            return;
        };
        let seat = self.at(place);
        let cut = if is_strangers(seat.cut) {
            None
        } else {
            seat.cut
        };
        let phone = Some(phone);
        self.set(place, Seat { phone, cut, ..seat });
    }

    /// Ends the links on which the phone was let in.
    #[tactic(auto, using(crate::proofs::Counting::fair_one, crate::proofs::Counting::strangers_dismissed, crate::proofs::Counting::dismissed_more, crate::proofs::Counting::dismissed_all))]
    pub fn dismiss(&mut self, phone: &Phone)
        ensures dismissed { self.new ≡ map (dismissed (key_of phone.now)) self.old }
        ensures places { length self.new ≡ length self.old }
        ensures strangers { count is_stranger self.new ≡ count is_stranger self.old }
    {
        for place in 0..self.len() {
            let seat = self.at(place);
            self.set(place, seat.dismissed(phone));
        }
    }

    /// How many links are served, and on how many of them somebody was let in.
    pub fn counts(&self) -> Counts
        ensures open { result.open ≡ count (λ seat. seat.is_taken) self.now }
        ensures let_in { result.let_in ≡ count is_let_in self.now }
        // No more than there are places.
        ensures places { result.open ≤ length self.now }
    {
        let open = self.taken();
        let let_in = self.let_in_count();
        Counts {
            open: open as u32,
            let_in: let_in as u32,
        }
    }

    /// Why the link in this place is to end now, in milliseconds, which sent so many octets, in a service that ends for a reason of its
    /// own, or goes on.
    pub fn verdict(
        &self,
        place: usize,
        end: Option<Cut>,
        octets: u64,
        now: u64,
        limits: &Limits,
    ) -> Option<Cut>
        ensures verdict { result ≡ verdict limits.now end octets now (slice_get self.now place) }
        // No rule for strangers ends a link on which somebody was let in.
        ensures let_in { end ≡ None → is_let_in (seat_at place self.now) ≡ true →
            is_strangers result ≡ false }
    {
        if end.is_some() {
            return end;
        }
        self.seats.get(place)?.verdict(limits, octets, now)
    }
}
