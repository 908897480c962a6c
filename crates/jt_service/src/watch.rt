//! What the threads of a service share, and what its caller may ask of it meanwhile.

use crate::service_end::ServiceEnd;
use crate::telling::Tell;
use jt_platform::{Entry, Reply, Request};
use jt_seats::{Away, Counts, Cut, Limits, Seats, address_number};
use jt_value::{Memory, Phone};
use std::alloc::Global;
use std::net::SocketAddr;
use std::sync::atomic::{AtomicBool, Ordering};
use std::sync::{Arc, Mutex, Wait};
use std::time::Clock;

/// What a service and its caller share while it runs: who is told, which links are served, and whether they are to end.
#[derive(Drop)]
pub struct Watch<T> {
    // The service is to end for good.
    stops: Arc<AtomicBool>,
    // All links are to end.
    ends: Arc<AtomicBool>,
    // The service is to end, and may begin anew: it was asked to.
    renews: AtomicBool,
    // The same, since the store failed.
    failed: AtomicBool,
    seats: Mutex<Seats>,
    told: Mutex<T>,
}

/// The present moment in milliseconds, from an arbitrary start on; 0 where the clock can't be read.
pub(crate) fn moment<R: Clock>(rt: &R) -> u64 {
    match rt.monotonic() {
        Ok(since) => u64::try_from(since.as_millis()).unwrap_or(u64::MAX),
        Err(_) => 0,
    }
}

impl<T: Tell> Watch<T> {
    /// Nothing is served yet. The service ends once the first flag is set, by `stop` or by any other who has it; one that is set
    /// already lets no link in. The second is set while all links are to end, for who makes links that look at it.
    pub fn new(alloc: Global, told: T, stops: Arc<AtomicBool>, ends: Arc<AtomicBool>) -> Watch<T> {
        Watch {
            stops,
            ends,
            renews: AtomicBool::new(false),
            failed: AtomicBool::new(false),
            seats: Mutex::new(Seats::new(alloc)),
            told: Mutex::new(told),
        }
    }

    /// Who is told. While it is held, who has something to tell waits, also the hub.
    pub fn told(&self) -> &Mutex<T> {
        &self.told
    }

    /// Who was told.
    pub fn into_told(self) -> T {
        let Watch {
            stops: _,
            ends: _,
            renews: _,
            failed: _,
            seats: _,
            told,
        } = self;
        told.into_inner()
    }

    /// Has the service end: no link is accepted, and those that are served end at their next read or write. A call of the hub is
    /// done first.
    pub fn stop(&self) {
        self.stops.store(true, Ordering::SeqCst);
        self.ends.store(true, Ordering::SeqCst);
    }

    /// Has the service end likewise, so that it may begin anew.
    pub fn renew(&self) {
        self.renews.store(true, Ordering::SeqCst);
        self.ends.store(true, Ordering::SeqCst);
    }

    /// Whether the service is to end.
    pub fn is_stopped(&self) -> bool {
        self.stops.load(Ordering::SeqCst)
    }

    /// Ends the links on which the phone was let in, at their next read or write.
    pub fn dismiss<R: Wait>(&self, rt: &R, phone: &Phone) {
        self.seats.lock(rt).dismiss(phone);
    }

    /// How many links are served now.
    pub fn counts<R: Wait>(&self, rt: &R) -> Counts {
        self.seats.lock(rt).counts()
    }

    // The store failed: the service is to end, and may begin anew.
    pub(crate) fn fail(&self) {
        self.failed.store(true, Ordering::SeqCst);
        self.ends.store(true, Ordering::SeqCst);
    }

    // Why the service is to end, if it is.
    pub(crate) fn ending(&self) -> Option<ServiceEnd> {
        if self.is_stopped() {
            return Some(ServiceEnd::Stopped);
        }
        if self.failed.load(Ordering::SeqCst) {
            return Some(ServiceEnd::StoreFailed);
        }
        if self.renews.load(Ordering::SeqCst) {
            return Some(ServiceEnd::Renewed);
        }
        None
    }

    // No link is accepted any more, for this reason: those that are served are to end.
    pub(crate) fn end_with(&self, end: ServiceEnd) {
        match end {
            ServiceEnd::StoreFailed => self.fail(),
            ServiceEnd::Renewed | ServiceEnd::NumbersSpent => self.renew(),
            _ => self.stop(),
        }
    }

    // No link is served any more: what was asked of this run alone is done.
    pub(crate) fn go_on(&self) {
        self.failed.store(false, Ordering::SeqCst);
        self.renews.store(false, Ordering::SeqCst);
        self.ends.store(false, Ordering::SeqCst);
    }

    // Makes places for so many links.
    pub(crate) fn open<R: Wait>(&self, rt: &R, count: u32) -> Result<(), Memory> {
        self.seats.lock(rt).open(count)
    }

    // A place for a link that comes now.
    pub(crate) fn admit<R: Wait>(
        &self,
        rt: &R,
        now: u64,
        peer: Option<SocketAddr>,
        limits: &Limits,
    ) -> Result<usize, Away> {
        let address = address_number(match peer {
            Some(peer) => Some(peer.ip()),
            None => None,
        });
        self.seats.lock(rt).admit(now, address, limits)
    }

    pub(crate) fn name<R: Wait>(&self, rt: &R, place: usize, session: u32) {
        self.seats.lock(rt).name(place, session);
    }

    pub(crate) fn leave<R: Wait>(&self, rt: &R, place: usize) {
        self.seats.lock(rt).leave(place);
    }

    // The phone that was let in on the link in this place.
    pub(crate) fn phone<R: Wait>(&self, rt: &R, place: usize) -> Option<Phone> {
        self.seats.lock(rt).get(place)?.phone
    }

    // Sees an entry as the hub makes it.
    pub(crate) fn note<R: Wait>(&self, rt: &R, entry: &Entry) {
        match (&entry.request, &entry.reply) {
            (Request::Auth { phone, code: _ }, Reply::Accepted) => {
                self.seats.lock(rt).let_in(entry.session, *phone);
                let mut told = self.told.lock(rt);
                told.noted(entry);
                told.let_in(entry.session, phone);
            }
            _ => self.told.lock(rt).noted(entry),
        }
    }

    // Why the link in this place is to end, which sent so many octets.
    pub(crate) fn verdict<R: Wait + Clock>(
        &self,
        rt: &R,
        place: usize,
        octets: u64,
        limits: &Limits,
    ) -> Option<Cut> {
        let end = match self.ending() {
            Some(end) => Some(end.cut()),
            None => None,
        };
        let now = moment(rt);
        self.seats.lock(rt).verdict(place, end, octets, now, limits)
    }
}
