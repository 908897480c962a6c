//! What is told of a service, as lines.

use crate::naming::{away_word, denied_word, digits_before, end_word, phone_digits, service_word};
use crate::seen::Seen;
use dewfelt_board::{Board, Teller};
use dewfelt_commands::phone_text;
use dewfelt_log::{Line, Outbox, Rate};
use jt_platform::{Entry, Reply, Request};
use jt_register::Register;
use jt_service::{Away, Counts, Ended, ServiceEnd, Tell};
use jt_session::Report;
use jt_value::Phone;
use std::alloc::{AllocError, Global};
use std::collections::BTreeMap;
use std::io;
use std::net::SocketAddr;
use std::sync::{Arc, Mutex, Wait};
use std::time::Clock;

// What was counted since the start.
#[derive(Clone, Copy)]
struct Tally {
    began: u64,
    ended: u64,
    let_in: u64,
    away: u64,
    stored: u64,
    repeats: u64,
    renumbered: u64,
    frames: u64,
    failed: u64,
}

const NOTHING: Tally = Tally {
    began: 0,
    ended: 0,
    let_in: 0,
    away: 0,
    stored: 0,
    repeats: 0,
    renumbered: 0,
    frames: 0,
    failed: 0,
};

/// What is told of a service: lines that wait to be written, counts, and a board, where there is one. Of events that anybody can
/// cause, and of those by which somebody is let in again on a session, ten a second have a line.
#[derive(Drop)]
pub struct Told<R> {
    rt: R,
    alloc: Global,
    outbox: Outbox,
    strangers: Rate,
    tally: Tally,
    // Sessions of the hubs before, whose numbers come before those of the present one; and the greatest number of that so far.
    before: u64,
    last: u32,
    seen: Seen,
    // How many units were stored for each session that goes on, where there are any.
    stored: BTreeMap<u32, u64>,
    end: Option<ServiceEnd>,
    // Who tells the board, where there is one.
    teller: Option<Teller<R>>,
}

fn put_phone(line: &mut Line, phone: &Phone) {
    let digits = phone_digits(phone);
    line.octets("phone", &digits[digits_before(phone)..]);
}

fn put_peer(line: &mut Line, peer: Option<SocketAddr>) {
    if let Some(peer) = peer {
        line.address("peer", peer);
    }
}

fn put_report(line: &mut Line, report: &Report) {
    line.number("frames", report.frames);
    line.number("refused", report.refused);
    line.number("dropped", report.dropped);
    line.number("read", report.read);
    line.number("written", report.written);
}

// A session's end, under the number that lines have for it.
fn put_session(line: &mut Line, number: u64, ended: &Ended, stored: u64) {
    line.number("session", number);
    put_peer(line, ended.peer);
    if let Some(phone) = &ended.phone {
        put_phone(line, phone);
    }
    line.text("end", end_word(ended.cut, ended.report.end));
    put_report(line, &ended.report);
    line.number("stored", stored);
    line.number("seconds", ended.milliseconds / 1_000);
}

fn put_register(line: &mut Line, number: u64, phone: &Phone, register: &Register, reply: &Reply) {
    line.number("session", number);
    put_phone(line, phone);
    line.foreign("plate", register.plate.as_slice());
    line.foreign("terminal", trimmed(register.terminal.as_slice()));
    match reply {
        Reply::Registered(_) => line.text("result", "registered"),
        Reply::Denied(number) => line.text("result", denied_word(*number)),
        _ => line.text("result", "closed"),
    }
}

// A terminal's id without the zeros that fill it up.
fn trimmed(id: &[u8]) -> &[u8] {
    let mut rest = id;
    while let Some((last, front)) = rest.split_last() {
        if *last != 0 {
            return rest;
        }
        rest = front;
    }
    rest
}

impl<R: Wait + Clock + Drop> Told<R> {
    /// Nothing is told so far. The moments of lines are those of the runtime's clock.
    pub fn new(alloc: Global, rt: R) -> Result<Told<R>, AllocError> {
        Ok(Told {
            rt,
            alloc,
            outbox: Outbox::new(alloc)?,
            strangers: Rate::new(),
            tally: NOTHING,
            before: 0,
            last: 0,
            seen: Seen::new(alloc)?,
            stored: BTreeMap::new(alloc),
            end: None,
            teller: None,
        })
    }

    /// Has a board told of all that is told, where there is one. Its sessions have the numbers of lines.
    pub fn tell_board(&mut self, board: Option<Arc<Mutex<Board>>>) -> Result<(), AllocError>
    where
        R: Clone,
    {
        if let Some(board) = board {
            let rt = self.rt.clone()?;
            self.teller = Some(Teller::new(rt, board));
        }
        Ok(())
    }

    /// Where memory for lines comes from.
    pub fn alloc(&self) -> Global {
        self.alloc
    }

    // Seconds since 1970; 0 where the clock can't be read.
    fn seconds(&self) -> u64 {
        match self.rt.since_1970() {
            Ok(since) => since.as_secs(),
            Err(_) => 0,
        }
    }

    /// A line of an event now.
    pub fn line(&self, event: &str) -> Line {
        Line::new(self.alloc, self.seconds(), event)
    }

    /// Puts a line to those that wait.
    pub fn put(&mut self, line: Line) {
        self.outbox.put(line);
    }

    /// Puts a line of an event with one word more.
    pub fn say(&mut self, event: &str, key: &str, value: &str) {
        let mut line = self.line(event);
        line.text(key, value);
        self.put(line);
    }

    /// Puts a line of a phone that is registered no more, since a command asked for that.
    pub fn say_forgot(&mut self, phone: &Phone) {
        if let Ok(digits) = phone_text(self.alloc, phone) {
            self.say("forgot", "phone", digits.as_str());
        }
    }

    /// Puts a line of a fault, with what the system says of it.
    pub fn say_error(&mut self, what: &str, error: &io::Error) {
        if let Ok(text) = format!(in self.alloc; "{error}") {
            self.say("fault", what, text.as_str());
        }
    }

    /// Takes the lines that wait, for an empty room.
    pub fn take(&mut self, empty: Vec<u8>) -> Vec<u8> {
        self.outbox.take(empty)
    }

    /// Takes the lines that wait, for an empty room. The line of counts goes into that, where it has room.
    pub fn take_and_count(&mut self, empty: Vec<u8>, now: Counts) -> Vec<u8> {
        let lines = self.take(empty);
        self.count(now);
        lines
    }

    /// Takes the lines that wait, for an empty room. The line of counts and that of the end go into that.
    pub fn take_and_end(&mut self, empty: Vec<u8>, now: Counts) -> Vec<u8> {
        let lines = self.take_and_count(empty, now);
        if let Some(end) = self.end {
            self.say("end", "why", service_word(end));
        }
        lines
    }

    /// The service ended so. The line of it is the last one, so it waits for `take_and_end`.
    pub fn end_with(&mut self, end: ServiceEnd) {
        self.end = Some(end);
    }

    fn count(&mut self, now: Counts) {
        let mut line = self.line("counts");
        line.number("open", now.open as u64);
        line.number("in", now.let_in as u64);
        self.put_tally(&mut line);
        self.put(line);
    }

    fn put_tally(&mut self, line: &mut Line) {
        let tally = self.tally;
        line.number("links", tally.began);
        line.number("ended", tally.ended);
        line.number("let_in", tally.let_in);
        line.number("away", tally.away);
        put_units(line, &tally);
        line.number("accepts_failed", tally.failed);
        line.number("lines_left_out", self.strangers.take_left_out());
        line.number("lines_lost", self.outbox.take_lost());
    }

    // A line of an event that anybody can cause, where it may have one.
    fn stranger_line(&mut self, event: &str) -> Option<Line> {
        let seconds = self.seconds();
        if self.strangers.allows(seconds) {
            return Some(Line::new(self.alloc, seconds, event));
        }
        None
    }

    // The number that lines have for a session: hub after hub they go on.
    fn number_of(&self, session: u32) -> u64 {
        self.before.saturating_add(session as u64)
    }

    /// A hub is gone, and the next one begins: its sessions have numbers behind those that were.
    pub fn begin_anew(&mut self) {
        self.before = self.number_of(self.last);
        self.last = 0;
        self.seen.clear();
        self.stored.clear();
        if let Some(teller) = &mut self.teller {
            teller.begin_anew(self.before);
        }
    }

    fn note_register(&mut self, session: u32, phone: &Phone, register: &Register, reply: &Reply) {
        let number = self.number_of(session);
        if let Some(mut line) = self.stranger_line("register") {
            put_register(&mut line, number, phone, register, reply);
            self.put(line);
        }
    }

    fn note_phone(&mut self, event: &str, session: u32, phone: &Phone) {
        let number = self.number_of(session);
        if let Some(mut line) = self.stranger_line(event) {
            line.number("session", number);
            put_phone(&mut line, phone);
            self.put(line);
        }
    }

    // One more unit was stored for a session. Where memory is refused for its count, the line of its end tells fewer.
    fn count_stored(&mut self, session: u32) {
        let before = self.stored.get(&session).copied().unwrap_or(0);
        let _ = self.stored.insert(session, before.saturating_add(1));
    }

    fn note_unit(&mut self, session: u32, reply: &Reply) {
        match reply {
            Reply::Stored(_) => {
                self.tally.stored = self.tally.stored.saturating_add(1);
                self.count_stored(session);
            }
            Reply::Repeat(_) => self.tally.repeats = self.tally.repeats.saturating_add(1),
            Reply::Renumbered(_) => {
                self.tally.renumbered = self.tally.renumbered.saturating_add(1);
                self.count_stored(session);
            }
            _ => {}
        }
    }
}

fn put_units(line: &mut Line, tally: &Tally) {
    line.number("frames", tally.frames);
    line.number("stored", tally.stored);
    line.number("repeats", tally.repeats);
    line.number("renumbered", tally.renumbered);
}

impl<R: Wait + Clock + Drop> Tell for Told<R> {
    fn began(&mut self, session: u32, peer: Option<SocketAddr>) {
        if let Some(teller) = &mut self.teller {
            teller.began(session, peer);
        }
        self.last = self.last.max(session);
        self.tally.began = self.tally.began.saturating_add(1);
    }

    fn noted(&mut self, entry: &Entry) {
        if let Some(teller) = &mut self.teller {
            teller.noted(entry);
        }
        match &entry.request {
            Request::Register { phone, register } => {
                self.note_register(entry.session, phone, register, &entry.reply);
            }
            Request::Auth { phone, code: _ } => {
                if let Reply::Denied(_) = &entry.reply {
                    self.note_phone("denied", entry.session, phone);
                }
            }
            Request::Deregister { phone } => {
                if let Reply::Accepted = &entry.reply {
                    self.note_phone("deregister", entry.session, phone);
                }
            }
            Request::Unit { .. } => self.note_unit(entry.session, &entry.reply),
            Request::Other { .. } | Request::Close => {}
        }
    }

    fn let_in(&mut self, session: u32, phone: &Phone) {
        if let Some(teller) = &mut self.teller {
            teller.let_in(session, phone);
        }
        self.tally.let_in = self.tally.let_in.saturating_add(1);
        if self.seen.mark(session) {
            self.note_phone("let_in", session, phone);
            return;
        }
        let mut line = self.line("let_in");
        line.number("session", self.number_of(session));
        put_phone(&mut line, phone);
        self.put(line);
    }

    fn ended(&mut self, ended: &Ended) {
        if let Some(teller) = &mut self.teller {
            teller.ended(ended);
        }
        self.tally.ended = self.tally.ended.saturating_add(1);
        self.tally.frames = self.tally.frames.saturating_add(ended.report.frames);
        let stored = self.stored.remove(&ended.report.session).unwrap_or(0);
        let line = if ended.phone.is_some() {
            Some(self.line("session"))
        } else {
            self.stranger_line("session")
        };
        if let Some(mut line) = line {
            put_session(
                &mut line,
                self.number_of(ended.report.session),
                ended,
                stored,
            );
            self.put(line);
        }
    }

    fn turned_away(&mut self, peer: Option<SocketAddr>, why: Away) {
        if let Some(teller) = &mut self.teller {
            teller.turned_away(peer, why);
        }
        self.tally.away = self.tally.away.saturating_add(1);
        if let Some(mut line) = self.stranger_line("away") {
            put_peer(&mut line, peer);
            line.text("why", away_word(why));
            self.put(line);
        }
    }

    fn short(&mut self) {
        self.say("short", "of", "descriptors-or-memory");
    }

    fn accept_failed(&mut self) {
        if let Some(teller) = &mut self.teller {
            teller.accept_failed();
        }
        self.tally.failed = self.tally.failed.saturating_add(1);
        if let Some(line) = self.stranger_line("accept_failed") {
            self.put(line);
        }
    }

    fn few_threads(&mut self, count: u32) {
        let mut line = self.line("threads");
        line.number("links", count as u64);
        self.put(line);
    }
}
