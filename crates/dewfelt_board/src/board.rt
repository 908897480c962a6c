//! The board.

use crate::changes::Changes;
use crate::counters::{Counters, RegistrationResult, UnitReply, add, raise};
use crate::cursor::Cursor;
use crate::ending::Ending;
use crate::fixes::{Found, last_fix};
use crate::name::Name;
use crate::order::Order;
use crate::sessions::{EndedSession, OpenSession, Sessions};
use crate::stranger::{Stranger, number_of};
use crate::strangers::Strangers;
use crate::vehicle::{LastEnd, Vehicle};
use jt_platform::{Entry, Reply, Request};
use jt_register::Register;
use jt_service::Ended;
use jt_store::Digits;
use jt_value::Phone;
use std::alloc::{AllocError, Global};
use std::collections::BTreeMap;
use std::net::{IpAddr, SocketAddr};

/// What a service shows, in memory: an entry for each registered phone, at most 100 terminals that were turned away, the sessions
/// that go on, and at most 1,000 that ended. Moments are in seconds since 1970.
///
/// A call that memory is refused for leaves out what it was told, and counts it as lost.
#[derive(Drop)]
pub struct Board {
    run: u32,
    // Sessions of the hubs before, whose numbers come before those of the present one.
    before: u32,
    vehicles: BTreeMap<Digits, Vehicle>,
    order: Order,
    strangers: Strangers,
    sessions: Sessions,
    counters: Counters,
}

// A terminal's id without the zeros that fill it up.
fn trimmed(id: &[u8]) -> &[u8] {
    let mut rest = id;
    while let Some((last, front)) = rest.split_last() {
        if *last != 0 {
            return rest;
        }
        rest = front;
    }
    rest
}

fn address_of(peer: Option<SocketAddr>) -> Option<IpAddr> {
    match peer {
        Some(peer) => Some(peer.ip()),
        None => None,
    }
}

impl Board {
    /// Nothing so far. The number of the run stands in its cursors, so that a cursor of another run is told from them.
    pub fn new(alloc: Global, run: u32) -> Result<Board, AllocError> {
        Ok(Board {
            run,
            before: 0,
            vehicles: BTreeMap::new(alloc),
            order: Order::new(alloc),
            strangers: Strangers::new(alloc)?,
            sessions: Sessions::new(alloc)?,
            counters: Counters::new(),
        })
    }

    // The number that a session of the present hub is shown by.
    fn number_of(&self, session: u32) -> u32 {
        self.before.saturating_add(session)
    }

    /// A hub is gone, and the next one begins, behind so many sessions. No session goes on.
    pub fn begin_anew(&mut self, before: u32) {
        self.before = before;
        self.sessions.clear();
        for _ in 0..self.vehicles.len() {
            match self.a_linked_one() {
                Some(digits) => self.unlink(&digits),
                None => return,
            }
        }
    }

    // The digits of a vehicle whose session goes on.
    fn a_linked_one(&self) -> Option<[u8; 10]> {
        for vehicle in self.vehicles.values() {
            if vehicle.session.is_some() {
                let digits = vehicle.digits;
                return Some(digits);
            }
        }
        None
    }

    // The session of a vehicle goes on no more.
    fn unlink(&mut self, digits: &[u8; 10]) {
        if let Some(vehicle) = self.vehicles.get_mut(&Digits::of(digits)) {
            vehicle.session = None;
        }
        self.touch(digits);
    }

    // The vehicle of these digits changed.
    fn touch(&mut self, digits: &[u8; 10]) {
        let Some(vehicle) = self.vehicles.get_mut(&Digits::of(digits)) else {
            return;
        };
        match self.order.renew(*digits) {
            Some(number) => vehicle.changed = number,
            None => raise(&mut self.counters.lost),
        }
    }

    // Puts the names of a phone that is registered. False means that memory was refused.
    fn name(&mut self, digits: [u8; 10], plate: &[u8], terminal: &[u8]) -> bool {
        let plate = Name::of(plate);
        let terminal = Name::of(terminal);
        let key = Digits::of(&digits);
        if let Some(vehicle) = self.vehicles.get_mut(&key) {
            vehicle.plate = plate;
            vehicle.terminal = terminal;
            return true;
        }
        let vehicle = Vehicle::new(digits, plate, terminal);
        self.vehicles.insert(key, vehicle).is_ok()
    }

    // Whether the phone is shown with this plate and this terminal id.
    fn is_named(&self, digits: &[u8; 10], plate: &[u8], terminal: &[u8]) -> bool {
        match self.vehicles.get(&Digits::of(digits)) {
            Some(vehicle) => vehicle.plate.is(plate) && vehicle.terminal.is(terminal),
            None => false,
        }
    }

    /// The phone is registered with this plate and this terminal id.
    pub fn seat(&mut self, phone: &Phone, plate: &[u8], terminal: &[u8]) {
        let terminal = trimmed(terminal);
        self.strangers.forget(&phone.digits);
        if self.is_named(&phone.digits, plate, terminal) {
            return;
        }
        if !self.name(phone.digits, plate, terminal) {
            raise(&mut self.counters.lost);
            return;
        }
        self.touch(&phone.digits);
    }

    /// Whether the phone's registration stays where the terminal gives it up.
    pub fn bind(&mut self, phone: &Phone, stays: bool) {
        if let Some(vehicle) = self.vehicles.get_mut(&Digits::of(&phone.digits)) {
            vehicle.stays = stays;
        }
    }

    /// The phone is registered no longer.
    pub fn unseat(&mut self, phone: &Phone) {
        if self.vehicles.remove(&Digits::of(&phone.digits)).is_some() {
            self.order.leave(&phone.digits);
        }
    }

    /// The number of the phone's last row, where it is shown.
    pub fn last_of(&self, phone: &Phone) -> Option<u64> {
        self.vehicles.get(&Digits::of(&phone.digits))?.last
    }

    /// The phone's last row has this number, id and body. A phone that is not registered is not shown.
    pub fn row(&mut self, phone: &Phone, number: u64, id: u16, body: &[u8]) {
        self.take_row(phone, number, last_fix(number, id, body));
    }

    fn take_row(&mut self, phone: &Phone, number: u64, found: Option<Found>) {
        let Some(vehicle) = self.vehicles.get_mut(&Digits::of(&phone.digits)) else {
            return;
        };
        vehicle.last = Some(number);
        if let Some(found) = found {
            vehicle.fix = Some(found.fix);
        }
        self.touch(&phone.digits);
    }

    // The phone was heard on a session, which is let in.
    fn hear(&mut self, session: u32, phone: &Phone, now: u64) {
        self.sessions.hear(session, now);
        if let Some(vehicle) = self.vehicles.get_mut(&Digits::of(&phone.digits)) {
            vehicle.heard = Some(now);
            vehicle.edition = Some(phone.edition);
        }
    }

    /// A link came, and is served under this number.
    pub fn began(&mut self, session: u32, peer: Option<SocketAddr>, now: u64) {
        raise(&mut self.counters.began);
        let session = self.number_of(session);
        if !self.sessions.begin(session, peer, now) {
            raise(&mut self.counters.lost);
        }
    }

    fn note_register(
        &mut self,
        session: u32,
        phone: &Phone,
        register: &Register,
        reply: &Reply,
        now: u64,
    ) {
        let plate = register.plate.as_slice();
        let terminal = register.terminal.as_slice();
        match reply {
            Reply::Registered(_) => {
                self.counters
                    .count_registration(RegistrationResult::Registered);
                self.seat(phone, plate, terminal);
            }
            Reply::Denied(number) => {
                self.counters
                    .count_registration(RegistrationResult::denied(*number));
                self.turn_away(session, phone, register, *number, now);
            }
            _ => self.counters.count_registration(RegistrationResult::Closed),
        }
    }

    // A terminal's registration was denied.
    fn turn_away(
        &mut self,
        session: u32,
        phone: &Phone,
        register: &Register,
        denied: u8,
        now: u64,
    ) {
        let peer = match self.sessions.get(session) {
            Some(open) => address_of(open.peer),
            None => None,
        };
        self.strangers.put(Stranger {
            digits: phone.digits,
            plate: Name::of(register.plate.as_slice()),
            terminal: Name::of(trimmed(register.terminal.as_slice())),
            tried: 1,
            denied,
            first: now,
            last: now,
            peer,
            address: number_of(peer),
        });
    }

    fn note_unit(
        &mut self,
        session: u32,
        phone: &Phone,
        id: u16,
        body: &[u8],
        reply: &Reply,
        now: u64,
    ) {
        match reply {
            Reply::Stored(number) => {
                self.counters.count_unit(UnitReply::Stored);
                self.store(session, phone, *number, id, body, now);
            }
            Reply::Renumbered(number) => {
                self.counters.count_unit(UnitReply::Renumbered);
                self.store(session, phone, *number, id, body, now);
            }
            Reply::Repeat(_) => {
                self.counters.count_unit(UnitReply::Repeat);
                self.hear(session, phone, now);
            }
            Reply::Fenced(_) => self.counters.count_unit(UnitReply::Fenced),
            _ => self.counters.count_unit(UnitReply::NotLive),
        }
    }

    // A unit stands in a new row.
    fn store(&mut self, session: u32, phone: &Phone, number: u64, id: u16, body: &[u8], now: u64) {
        self.hear(session, phone, now);
        let found = last_fix(number, id, body);
        if let Some(found) = found {
            add(&mut self.counters.fixes, found.count as u64);
        }
        self.take_row(phone, number, found);
    }

    fn note_deregister(&mut self, session: u32, phone: &Phone, now: u64) {
        self.hear(session, phone, now);
        match self.vehicles.get(&Digits::of(&phone.digits)) {
            Some(vehicle) if !vehicle.stays => self.unseat(phone),
            _ => {}
        }
    }

    /// The hub made this entry, so that what it says is stored.
    pub fn noted(&mut self, entry: &Entry, now: u64) {
        let session = self.number_of(entry.session);
        match (&entry.request, &entry.reply) {
            (Request::Register { phone, register }, reply) => {
                self.note_register(session, phone, register, reply, now);
            }
            (
                Request::Unit {
                    phone,
                    serial: _,
                    id,
                    body,
                },
                reply,
            ) => self.note_unit(session, phone, *id, body.as_slice(), reply, now),
            (Request::Auth { phone, code: _ }, Reply::Accepted) => self.hear(session, phone, now),
            (Request::Auth { .. }, _) => raise(&mut self.counters.denied),
            (Request::Deregister { phone }, Reply::Accepted) => {
                self.note_deregister(session, phone, now);
            }
            (Request::Other { phone, id: _ }, Reply::Accepted) => self.hear(session, phone, now),
            _ => {}
        }
    }

    /// The phone was let in, in the session of this number.
    pub fn let_in(&mut self, session: u32, phone: &Phone) {
        raise(&mut self.counters.let_in);
        let session = self.number_of(session);
        self.sessions.let_in(session, phone.digits);
        if let Some(vehicle) = self.vehicles.get_mut(&Digits::of(&phone.digits)) {
            vehicle.session = Some(session);
        }
        self.touch(&phone.digits);
    }

    // The session of a phone ended; another one may hold the phone meanwhile.
    fn end_link(&mut self, session: u32, phone: &Phone, ending: Ending, now: u64) {
        let Some(vehicle) = self.vehicles.get_mut(&Digits::of(&phone.digits)) else {
            return;
        };
        if vehicle.session != Some(session) {
            return;
        }
        vehicle.session = None;
        vehicle.end = Some(LastEnd { ending, at: now });
        self.touch(&phone.digits);
    }

    fn keep_ended(&mut self, open: Option<OpenSession>, phone: &Phone, ended: &Ended, now: u64) {
        let since = now.saturating_sub(ended.milliseconds / 1_000);
        self.sessions.keep(EndedSession {
            peer: ended.peer,
            digits: phone.digits,
            since,
            heard: match open {
                Some(open) => open.heard,
                None => since,
            },
            at: now,
            ending: Ending::of(ended.cut, ended.report.end),
            report: ended.report,
        });
    }

    /// A session ended so.
    pub fn ended(&mut self, ended: &Ended, now: u64) {
        let ending = Ending::of(ended.cut, ended.report.end);
        self.counters.count_end(ending);
        add(&mut self.counters.read, ended.report.read);
        add(&mut self.counters.written, ended.report.written);
        add(&mut self.counters.frames, ended.report.frames);
        add(&mut self.counters.refused, ended.report.refused);
        add(&mut self.counters.dropped, ended.report.dropped);
        let session = self.number_of(ended.report.session);
        let open = self.sessions.take(session);
        if let Some(phone) = &ended.phone {
            self.end_link(session, phone, ending, now);
            self.keep_ended(open, phone, ended, now);
        }
    }

    /// A link came, and was closed at once.
    pub fn turned_away(&mut self) {
        raise(&mut self.counters.away);
    }

    /// An accept failed.
    pub fn accept_failed(&mut self) {
        raise(&mut self.counters.accepts_failed);
    }

    /// The number of the run.
    pub fn run(&self) -> u32 {
        self.run
    }

    /// How many vehicles there are.
    pub fn count(&self) -> usize {
        self.vehicles.len()
    }

    /// The sessions.
    pub fn sessions(&self) -> &Sessions {
        &self.sessions
    }

    /// The terminals that were turned away.
    pub fn strangers(&self) -> &Strangers {
        &self.strangers
    }

    /// What was counted.
    pub fn counters(&self) -> Counters {
        self.counters
    }

    /// The vehicle of these digits.
    pub fn vehicle(&self, digits: &[u8; 10]) -> Option<Vehicle> {
        self.vehicles.get(&Digits::of(digits)).copied()
    }

    /// At most so many vehicles behind a phone, in the order of their digits; from the first one on where there is no phone.
    pub fn vehicles_behind(
        &self,
        alloc: Global,
        after: Option<[u8; 10]>,
        limit: usize,
    ) -> Result<Vec<Vehicle>, AllocError> {
        let mut list = Vec::new(alloc);
        for vehicle in self.vehicles.values() {
            let is_behind = match after {
                Some(after) => after < vehicle.digits,
                None => true,
            };
            if is_behind && list.len() < limit {
                list.push(*vehicle)?;
            }
        }
        Ok(list)
    }

    /// The vehicles that changed behind a cursor, at most so many, each as it is now; the first ones of all where there is no cursor,
    /// or one of another run.
    pub fn changes(
        &self,
        alloc: Global,
        since: Option<(u32, Cursor)>,
        limit: usize,
    ) -> Result<Changes, AllocError> {
        let cursor = match since {
            Some((run, cursor)) if run == self.run => Some(cursor),
            _ => None,
        };
        let page = self.order.page(alloc, cursor, limit)?;
        let mut vehicles = Vec::with_capacity(alloc, page.changes.len())?;
        for change in &page.changes {
            if let Some(vehicle) = self.vehicles.get(&Digits::of(&change.digits)) {
                vehicles.push(*vehicle)?;
            }
        }
        Ok(Changes {
            vehicles,
            run: self.run,
            cursor: page.cursor,
            is_full: page.is_full,
            is_more: page.is_more,
            strangers: self.strangers.as_slice().len(),
        })
    }
}
