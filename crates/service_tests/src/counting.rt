//! What a service tells, counted.

use jt_platform::{Entry, Reply};
use jt_service::{Away, Cut, Ended, Tell};
use jt_session::End;
use jt_value::Phone;
use std::net::SocketAddr;

/// How often each was told.
#[derive(Clone, Copy, Drop, Debug, PartialEq, Eq)]
pub struct Counting {
    /// Sessions that began, and the sum of their numbers.
    pub began: u64,
    pub numbers: u64,
    /// Sessions that ended, and the sum of their numbers.
    pub ended: u64,
    pub ended_numbers: u64,
    /// Of these, sessions with a phone, and sessions by why the service ended them.
    pub phones: u64,
    pub stopped: u64,
    pub stranger_time: u64,
    pub stranger_octets: u64,
    pub replaced: u64,
    pub dismissed: u64,
    pub renewed: u64,
    pub store_failed: u64,
    /// Those that the service ended and whose report says otherwise than that the link failed.
    pub odd: u64,
    /// Octets that were read and written.
    pub read: u64,
    pub written: u64,
    pub let_in: u64,
    pub stored: u64,
    pub idle: u64,
    /// Sessions that ended by a store fault.
    pub faults: u64,
    /// Links that were closed at once, by why.
    pub full: u64,
    pub crowded: u64,
    pub of_address: u64,
    pub failed: u64,
}

/// Nothing was told.
pub const NOTHING: Counting = Counting {
    began: 0,
    numbers: 0,
    ended: 0,
    ended_numbers: 0,
    phones: 0,
    stopped: 0,
    stranger_time: 0,
    stranger_octets: 0,
    replaced: 0,
    dismissed: 0,
    renewed: 0,
    store_failed: 0,
    odd: 0,
    read: 0,
    written: 0,
    let_in: 0,
    stored: 0,
    idle: 0,
    faults: 0,
    full: 0,
    crowded: 0,
    of_address: 0,
    failed: 0,
};

fn raise(count: &mut u64) {
    *count = count.saturating_add(1);
}

impl Counting {
    fn count_cut(&mut self, cut: Cut) {
        match cut {
            Cut::Stopped => raise(&mut self.stopped),
            Cut::StrangerTime => raise(&mut self.stranger_time),
            Cut::StrangerOctets => raise(&mut self.stranger_octets),
            Cut::Replaced => raise(&mut self.replaced),
            Cut::Dismissed => raise(&mut self.dismissed),
            Cut::Renewed => raise(&mut self.renewed),
            Cut::StoreFailed => raise(&mut self.store_failed),
        }
    }
}

impl Tell for Counting {
    fn began(&mut self, session: u32, _peer: Option<SocketAddr>) {
        raise(&mut self.began);
        self.numbers = self.numbers.saturating_add(u64::from(session));
    }

    fn noted(&mut self, entry: &Entry) {
        if matches!(&entry.reply, Reply::Stored(_)) {
            raise(&mut self.stored);
        }
    }

    fn let_in(&mut self, _session: u32, _phone: &Phone) {
        raise(&mut self.let_in);
    }

    fn ended(&mut self, ended: &Ended) {
        raise(&mut self.ended);
        let session = u64::from(ended.report.session);
        self.ended_numbers = self.ended_numbers.saturating_add(session);
        self.read = self.read.saturating_add(ended.report.read);
        self.written = self.written.saturating_add(ended.report.written);
        if ended.phone.is_some() {
            raise(&mut self.phones);
        }
        if ended.report.end == End::Idle {
            raise(&mut self.idle);
        }
        if ended.report.end == End::StoreFault {
            raise(&mut self.faults);
        }
        if let Some(cut) = ended.cut {
            self.count_cut(cut);
            if ended.report.end != End::LinkFault {
                raise(&mut self.odd);
            }
        }
    }

    fn turned_away(&mut self, _peer: Option<SocketAddr>, why: Away) {
        match why {
            Away::Full => raise(&mut self.full),
            Away::Strangers => raise(&mut self.crowded),
            Away::Address => raise(&mut self.of_address),
            Away::Memory => {}
        }
    }

    fn short(&mut self) {}

    fn accept_failed(&mut self) {
        raise(&mut self.failed);
    }

    fn few_threads(&mut self, _count: u32) {}
}
