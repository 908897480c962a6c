//! A link in memory, for tests.

ghost use Rattle.std.specs.Prelude.{◌≡◌, ◌≤◌, ◌<◌, ◌-◌, [], Some, min, take, drop, replicate, length, IfOk};
ghost use Rattle.jt_outside.specs.Sink.{TakesOctets, WriteHasCause};
ghost use Rattle.jt_outside.specs.Link.{Reads, ReadHasCause};
ghost use Rattle.jt_outside.specs.ScriptLink.{inbound_of, given_by, ReadsInOrder, WritesInOrder};
ghost use Rattle.jt_outside.specs.ScriptLink.{giving as first_giving};
ghost use Rattle.jt_outside.specs.ScriptLink as giving;

use crate::link::{Link, LinkGot};
use crate::{Put, Sink};
use jt_value::{Memory, Octets, Seq};
use std::alloc::Global;
use std::marker::Model;

// What reads give.
#[derive(Clone, Copy)]
pub(crate) enum Kind {
    // The octets of the list.
    Octets,
    // This octet for ever.
    Endless(u8),
    // Nothing, quietly.
    Quiet,
}

/// A link that gives the octets of a list, as many as are left and fit at each read, or one octet for ever, or nothing, quietly;
/// and keeps the octets it is given, as many as there is room for at each write. It fails exactly the calls whose numbers are
/// listed, reads and writes counted together, writes into a full room, and reads where it gave one octet 2^64 - 1 times.
#[derive(Drop)]
pub struct ScriptLink {
    kind: Kind,
    octets: Vec<u8>,
    // How many octets it gave.
    at: usize,
    quiets: u64,
    run: u64,
    written: Vec<u8>,
    room: usize,
    failing: Vec<u64>,
    calls: u64,
    faults: u64,
}

impl Model for ScriptLink {
    ghost use Rattle.std.specs.Prelude.{◌≡◌, ◌≤◌, ◌-◌, ◌^◌, vec_len, vec_capacity};
    ghost use Rattle.jt_outside.specs.declared.script_link.Kind.TheVariants as kinds;
    ghost use Rattle.jt_outside.specs.ScriptLink.{LinkState, giving, given_by};

    ghost Value = { LinkState };

    ghost view = { λ s. record { gives = giving s.kind s.at s.octets.items; taken = given_by s.kind s.at s.octets.items; quiets = s.quiets; run = s.run; written = s.written.items; room = s.room; failing = s.failing.items; calls = s.calls; faults = s.faults } };

    ghost invariant = { λ s. (s.kind ≡ kinds.Octets → s.at ≤ vec_len s.octets) × (s.quiets ≤ 2 ^ 64 - 1) × (s.run ≤ 2 ^ 64 - 1) × (vec_len s.written ≤ s.room) × (s.room ≤ vec_capacity s.written) × (s.faults ≤ 2 ^ 64 - 1) };
}

impl ScriptLink {
    /// A link of these octets, which takes `room` octets in all, whose memory it takes now; Memory where it gets none.
    /// `failing` has the numbers of the calls that fail, counted from 1; the number stays at 2^64 - 1 once it is there.
    pub fn new(
        alloc: Global,
        octets: Octets,
        room: u64,
        failing: Seq<u64>,
    ) -> Result<ScriptLink, Memory>
        ensures { IfOk result (λ link. link ≡ record {
          gives = giving.Octets octets;
          taken = [];
          quiets = 0;
          run = 0;
          written = [];
          room = room;
          failing = failing;
          calls = 0;
          faults = 0;
        }) }
    {
        ScriptLink::of(alloc, Kind::Octets, octets, room, failing)
    }

    /// A link that gives this octet for ever, and takes `room` octets in all, whose memory it takes now; Memory where it gets none.
    pub fn endless(alloc: Global, octet: u8, room: u64) -> Result<ScriptLink, Memory>
        ensures { IfOk result (λ link. link ≡ record {
          gives = giving.Endless octet;
          taken = [];
          quiets = 0;
          run = 0;
          written = [];
          room = room;
          failing = [];
          calls = 0;
          faults = 0;
        }) }
    {
        let kind = Kind::Endless(octet);
        ScriptLink::of(alloc, kind, Seq::new(alloc), room, Seq::new(alloc))
    }

    /// A link that is quiet at each read, and takes `room` octets in all, whose memory it takes now; Memory where it gets none.
    pub fn quiet(alloc: Global, room: u64) -> Result<ScriptLink, Memory>
        ensures { IfOk result (λ link. link ≡ record {
          gives = giving.Nothing;
          taken = [];
          quiets = 0;
          run = 0;
          written = [];
          room = room;
          failing = [];
          calls = 0;
          faults = 0;
        }) }
    {
        ScriptLink::of(alloc, Kind::Quiet, Seq::new(alloc), room, Seq::new(alloc))
    }

    // A link of this kind, which was never read or written.
    fn of(
        alloc: Global,
        kind: Kind,
        octets: Octets,
        room: u64,
        failing: Seq<u64>,
    ) -> Result<ScriptLink, Memory>
        ensures { IfOk result (λ link. link ≡ record {
          gives = first_giving kind 0 octets;
          taken = given_by kind 0 octets;
          quiets = 0;
          run = 0;
          written = [];
          room = room;
          failing = failing;
          calls = 0;
          faults = 0;
        }) }
    {
        let room = room as usize;
        Ok(ScriptLink {
            kind,
            octets: octets.into_vec(),
            at: 0,
            quiets: 0,
            run: 0,
            written: Vec::with_capacity(alloc, room)?,
            room,
            failing: failing.into_vec(),
            calls: 0,
            faults: 0,
        })
    }

    /// The octets that were written to it, in order.
    pub fn written(&self) -> &[u8]
        ensures { result.now ≡ self.now.written }
    {
        &self.written
    }
}

// Copies the octets from a place on to the buffer's front, as many as there are and fit. Answers how many.
fn copy_from(octets: &[u8], at: usize, buf: &mut [u8]) -> usize
    requires { at ≤ length octets.now }
    ensures count { result ≡ min (length octets.now - at) (length buf.old) }
    ensures octets { take result buf.new ≡ take result (drop at octets.now) }
    ensures length { length buf.new ≡ length buf.old }
{
    let count = (octets.len() - at).min(buf.len());
    buf[..count].copy_from_slice(&octets[at..at + count]);
    count
}

// Fills the buffer's front with the octet, as often as it fits and may still be given. Answers how often.
fn fill_with(octet: u8, left: usize, buf: &mut [u8]) -> usize
    ensures count { result ≡ min left (length buf.old) }
    ensures octets { take result buf.new ≡ replicate result octet }
    ensures length { length buf.new ≡ length buf.old }
{
    let count = left.min(buf.len());
    buf[..count].fill(octet);
    count
}

impl Sink for ScriptLink {
    ghost written = { λ link. Some link.written };

    ghost faults = { λ link. link.faults };

    ghost inbound = { λ link. inbound_of link };

    fn write(&mut self, buf: &[u8]) -> Put
        requires { 0 < length buf.now }
        ensures octets { TakesOctets (Some self.old.written) (Some self.new.written)
            result buf.now }
        ensures cause { WriteHasCause self.old.faults self.new.faults result }
        ensures inbound { inbound_of self.new ≡ inbound_of self.old }
        ensures in_order { WritesInOrder self.old self.new result buf.now }
    {
        self.calls = self.calls.saturating_add(1);
        let room = self.room - self.written.len();
        if room == 0 || self.failing.contains(&self.calls) {
            self.faults = self.faults.saturating_add(1);
            return Put::Failed;
        }
        let count = room.min(buf.len());
        match self.written.extend_from_slice(&buf[..count]) {
            Ok(()) => Put::Count(count),
            Err(_) => unreachable!(),
        }
    }
}

impl Link for ScriptLink {
    fn read(&mut self, buf: &mut [u8]) -> LinkGot
        requires { 0 < length buf.old }
        ensures octets { Reads (inbound_of self.old) (inbound_of self.new) result buf.new }
        ensures cause { ReadHasCause self.old.faults self.new.faults
            (inbound_of self.old) (inbound_of self.new) result }
        ensures written { Some self.new.written ≡ Some self.old.written }
        ensures in_order { ReadsInOrder self.old self.new result buf.new }
    {
        self.calls = self.calls.saturating_add(1);
        if self.failing.contains(&self.calls) {
            self.faults = self.faults.saturating_add(1);
            return LinkGot::Failed;
        }
        match self.kind {
            Kind::Octets => {
                let count = copy_from(&self.octets, self.at, buf);
                if count == 0 {
                    return LinkGot::End;
                }
                self.at += count;
                self.run = 0;
                LinkGot::Bytes(count)
            }
            Kind::Endless(octet) => {
                let count = fill_with(octet, usize::MAX - self.at, buf);
                if count == 0 {
                    self.faults = self.faults.saturating_add(1);
                    return LinkGot::Failed;
                }
                self.at += count;
                self.run = 0;
                LinkGot::Bytes(count)
            }
            Kind::Quiet => {
                self.quiets = self.quiets.saturating_add(1);
                self.run = self.run.saturating_add(1);
                LinkGot::Quiet
            }
        }
    }
}
