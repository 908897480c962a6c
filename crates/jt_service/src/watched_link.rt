//! A link that a service may end.

ghost use Rattle.std.specs.Prelude.{◌≡◌, ◌<◌, None, length};
ghost use Rattle.jt_outside.specs.Sink.{TakesOctets, WriteHasCause};
ghost use Rattle.jt_outside.specs.Link.{Reads, ReadHasCause, wire_of};
ghost use Rattle.jt_service.specs.Watched.{watched, HeardSo};

use jt_outside::{Link, LinkGot, Put, Sink};
use jt_seats::Cut;
use std::marker::Model;

// What a write tells the warden, so that what came in one read is answered, however long it was.
const UNCOUNTED: u64 = 0;

// So many octets a read asks for at most: a session answers all that came in one before it looks again whether it is to end, and each
// unit among them waits for the disk (this project's own).
const PIECE: usize = 64;

/// Says why a link is to end.
pub trait Warden {
    /// Why a link that gave so many octets is to end now, if it is.
    fn verdict(&mut self, octets: u64) -> Option<Cut>;
}

// What a link was heard to give while its warden let it go on.
#[derive(Clone, Copy)]
pub(crate) enum Heard {
    // So many octets.
    Bytes(usize),
    // Nothing, so many times in a row.
    Quiet,
    // That no octet is left.
    End,
    // A failure.
    Failed,
    // The warden had a verdict.
    Over(Cut),
}

// Reads the link once, for so many octets at most.
#[tactic(auto, using(crate::proofs::Waiting::reads_front))]
fn read_piece<K: Link>(link: &mut K, buf: &mut [u8]) -> LinkGot
    requires { 0 < length buf.old }
    ensures octets { Reads (K.inbound link.old) (K.inbound link.new) result buf.new }
    ensures written { K.written link.new ≡ K.written link.old }
{
    let most = buf.len().min(PIECE);
    link.read(&mut buf[..most])
}

// Reads the link until it gives anything, so many times at most, and asks the warden before each time.
#[tactic(auto, using(crate::proofs::Waiting::kept_gives, crate::proofs::Waiting::kept_none, crate::proofs::Waiting::none_given))]
fn listen<K: Link, W: Warden>(
    link: &mut K,
    warden: &mut W,
    rounds: u64,
    octets: u64,
    buf: &mut [u8],
) -> Heard
    requires { 0 < length buf.old }
    ensures octets { HeardSo (K.inbound link.old) (K.inbound link.new) result buf.new }
    ensures written { K.written link.new ≡ K.written link.old }
{
    for _ in 0..rounds {
        if let Some(cut) = warden.verdict(octets) {
            return Heard::Over(cut);
        }
        match read_piece(link, buf) {
            LinkGot::Bytes(count) => return Heard::Bytes(count),
            LinkGot::Quiet => {}
            LinkGot::End => return Heard::End,
            LinkGot::Failed => return Heard::Failed,
        }
    }
    Heard::Quiet
}

/// A link that is asked for octets, and given some, only while its warden lets it go on: where the warden has a verdict the read or
/// write fails. The octets that it gave are judged at reads alone. Its own link is to be quiet each second; this one is quiet where
/// that was so many times in a row.
#[derive(Drop)]
pub struct WatchedLink<K: Link + Drop, W: Warden + Drop> {
    link: K,
    warden: W,
    rounds: u64,
    octets: u64,
    quiets: u64,
    run: u64,
    faults: u64,
    cut: Option<Cut>,
}

impl<K: Link + Drop, W: Warden + Drop> Model for WatchedLink<K, W> {
    ghost use Rattle.std.specs.Prelude.{◌≡◌, ◌≤◌, ◌-◌, ◌^◌, None};
    ghost use Rattle.jt_service.specs.Watched.{Watched};

    ghost Value = { Watched };

    ghost view = { λ w. record {
      inbound = record {
        left = (K.inbound w.link).left;
        taken = (K.inbound w.link).taken;
        quiets = w.quiets;
        run = w.run;
      };
      written = K.written w.link;
      faults = w.faults;
      cut = w.cut;
    } };

    ghost invariant = { λ w. (w.faults ≤ 2 ^ 64 - 1) × (w.quiets ≤ 2 ^ 64 - 1)
        × (w.run ≤ 2 ^ 64 - 1) × (w.faults ≡ 0 → w.cut ≡ None) };
}

impl<K: Link + Drop, W: Warden + Drop> WatchedLink<K, W> {
    /// A link of which nothing was counted so far, which is quiet where its own link was quiet so many times in a row, and at least
    /// once.
    pub fn new(link: K, warden: W, rounds: u64) -> WatchedLink<K, W>
        ensures { result ≡ watched (wire_of K.inbound K.written K.faults link) }
    {
        WatchedLink {
            link,
            warden,
            rounds: rounds.max(1),
            octets: 0,
            quiets: 0,
            run: 0,
            faults: 0,
            cut: None,
        }
    }

    /// Why the warden ended it, if it did. It did only where the link's count of faults rose.
    pub fn cut(&self) -> Option<Cut>
        ensures cut { result ≡ self.now.cut }
        ensures cause { self.now.faults ≡ 0 → result ≡ None }
    {
        self.cut
    }
}

impl<K: Link + Drop, W: Warden + Drop> Sink for WatchedLink<K, W> {
    ghost written = { λ link. link.written };

    ghost faults = { λ link. link.faults };

    ghost inbound = { λ link. link.inbound };

    fn write(&mut self, buf: &[u8]) -> Put
        requires { 0 < length buf.now }
        ensures octets { TakesOctets self.old.written self.new.written result buf.now }
        ensures cause { WriteHasCause self.old.faults self.new.faults result }
        ensures inbound { self.new.inbound ≡ self.old.inbound }
    {
        if let Some(cut) = self.warden.verdict(UNCOUNTED) {
            self.faults = self.faults.saturating_add(1);
            self.cut = Some(cut);
            return Put::Failed;
        }
        match self.link.write(buf) {
            Put::Count(count) => Put::Count(count),
            Put::Failed => {
                self.faults = self.faults.saturating_add(1);
                Put::Failed
            }
        }
    }
}

impl<K: Link + Drop, W: Warden + Drop> Link for WatchedLink<K, W> {
    fn read(&mut self, buf: &mut [u8]) -> LinkGot
        requires { 0 < length buf.old }
        ensures octets { Reads self.old.inbound self.new.inbound result buf.new }
        ensures cause { ReadHasCause self.old.faults self.new.faults self.old.inbound
            self.new.inbound result }
        ensures written { self.new.written ≡ self.old.written }
    {
        match listen(
            &mut self.link,
            &mut self.warden,
            self.rounds,
            self.octets,
            buf,
        ) {
            Heard::Bytes(count) => {
                self.octets = self.octets.saturating_add(count as u64);
                self.run = 0;
                LinkGot::Bytes(count)
            }
            Heard::Quiet => {
                self.quiets = self.quiets.saturating_add(1);
                self.run = self.run.saturating_add(1);
                LinkGot::Quiet
            }
            Heard::End => LinkGot::End,
            Heard::Failed => {
                self.faults = self.faults.saturating_add(1);
                LinkGot::Failed
            }
            Heard::Over(cut) => {
                self.faults = self.faults.saturating_add(1);
                self.cut = Some(cut);
                LinkGot::Failed
            }
        }
    }

    fn hang_up(&mut self) {
        self.link.hang_up();
    }
}
