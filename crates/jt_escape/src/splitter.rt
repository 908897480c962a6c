//! Contents and refusals of a stream that comes octet by octet, or in pieces.

ghost use Rattle.std.specs.Prelude.{◌≡◌, ◌⊎◌, ◌<◌, ◌≤◌, ◌+◌, ◌-◌, ◌^◌, [], ◌∷◌, List, ℕ, length, take, slice_index, slice_range, IsTrue, IfSome};
ghost use Rattle.jt_value.specs.declared.refusal.Refusal.{Refusal};
ghost use Rattle.jt_escape.specs.declared.splitter.Mode.TheVariants.{Outside, Straying, Inside, Escaping, Skipping};
ghost use Rattle.jt_escape.specs.Span.{Ends, HasNoFlag, IsContent, refusal_at};
ghost use Rattle.jt_escape.specs.Scan.{State, opening, passing, passing_all, keeping, keeping_all, gathering, standing, lending, after_in, after, events_in, events_of, end_in, IsPlain, Runs, RunsInPlace, StandsAtFront};
ghost use Rattle.jt_escape.specs.Splitter.{StandsFor, Continues, Takes, TakesInPlace, IsSilent, IsSilentInPlace, split_events, lent, split_events_in_place};

use crate::framing::{ESCAPE, ESCAPE_CODE, FLAG, FLAG_CODE};
use arrayvec::ArrayVec;
use jt_value::limits::CONTENT_LIMIT;
use jt_value::{Refusal, Why};
use memchr::{memchr, memchr2};
use std::hint::select_unpredictable;
use std::marker::Model;

// Escapes with fewer octets than this between them are near one another: a search takes about as long as so many octets.
const NEAR: usize = 8;

// The bits by which an escaped octet differs from its code.
const CODED: u8 = 0x7C;

/// Where in its stream a splitter stands.
#[derive(Clone, Copy, Debug, PartialEq, Eq)]
pub enum Mode {
    /// Outside all frames.
    Outside,
    /// Outside all frames, in a run of octets that was refused.
    Straying,
    /// Inside a frame.
    Inside,
    /// Inside a frame, with an escape begun.
    Escaping,
    /// In a refused frame, up to the next flag.
    Skipping,
}

/// What an octet completes.
#[derive(Clone, Copy, Debug, PartialEq, Eq)]
pub enum Split {
    /// Nothing yet.
    More,
    /// A content, which `content` gives, and `content_in` after `take_in_place`. `opened` gives its place.
    Content,
    /// A refusal, at its place in the stream and with `inside` 0: `Stray`, `EmptyFrame`, `BadEscape` or `TooLong`.
    Refused(Refusal),
}

/// Cuts a stream into contents and refusals. The rules are this project's own, over the standard's frames. Places count
/// the stream's octets from 0.
///
/// Between two flags stands a content of 1 to 1,045 octets. A run of octets outside all frames is refused once, at the
/// first of them. Of two flags with nothing between them the first is refused, and the second opens a frame. A wrong octet
/// after an escape, and an octet of content past 1,045, is refused at its place. What follows is skipped up to the next
/// flag, which opens no frame; a flag after an escape is itself that flag.
#[derive(Drop)]
pub struct Splitter {
    mode: Mode,
    content: ArrayVec<u8, CONTENT_LIMIT>,
    place: u64,
    opened: u64,
}

impl Model for Splitter {
    ghost use Rattle.std.specs.Prelude.{◌≡◌, ◌<◌, length};
    ghost use Rattle.jt_escape.specs.declared.splitter.Mode.TheVariants.{Escaping};
    ghost use Rattle.jt_escape.specs.Scan.{State};
    ghost use Rattle.jt_value.specs.declared.limits.TheConstants.{CONTENT_LIMIT};

    ghost Value = { State };

    ghost view = { λ splitter. record {
      mode = splitter.mode;
      content = splitter.content.items;
      place = splitter.place;
      opened = splitter.opened;
    } };

    ghost invariant = { λ splitter. splitter.mode ≡ Escaping → length splitter.content.items < CONTENT_LIMIT };
}

fn refused(why: Why, at: u64) -> Split
    ensures { result ≡ Split.Refused (refusal_at why at) }
{
    Split::Refused(Refusal { at, inside: 0, why })
}

// How many octets stand before the first flag.
fn flagless_len(octets: &[u8]) -> usize
    ensures within { result ≤ length octets.now }
    ensures none { HasNoFlag (take result octets.now) }
{
    memchr(FLAG, octets).unwrap_or(octets.len())
}

// How many octets stand before the first flag or escape.
fn plain_len(octets: &[u8]) -> usize
    ensures within { result ≤ length octets.now }
    ensures plain { IsPlain (take result octets.now) }
{
    memchr2(FLAG, ESCAPE, octets).unwrap_or(octets.len())
}

// The octet that an escape with this code stands for.
#[inline(always)]
fn unescaped(code: u8) -> Option<u8>
    ensures { IfSome result (λ octet.
        ((code ≡ 0x01) × (octet ≡ 0x7D)) ⊎ ((code ≡ 0x02) × (octet ≡ 0x7E))) }
{
    match code {
        ESCAPE_CODE => Some(ESCAPE),
        FLAG_CODE => Some(FLAG),
        _ => None,
    }
}

// The octet of content that stands at the front of two, and how many of them it takes: None where a flag or a wrong escape
// stands there. No branch depends on whether it is an escape, since nothing foretells that.
#[inline(always)]
fn front(octet: u8, code: u8) -> Option<(usize, u8)>
    ensures { IfSome result (λ found. StandsAtFront octet code found.0 found.1) }
{
    let escapes = octet == ESCAPE;
    let wrong = escapes & (code != ESCAPE_CODE) & (code != FLAG_CODE);
    if (octet == FLAG) | wrong {
        return None;
    }
    let count = select_unpredictable(escapes, 2, 1);
    Some((count, select_unpredictable(escapes, code ^ CODED, octet)))
}

// How many octets stand behind the opening flag before the next flag or escape. The search goes no further than the longest
// content.
#[inline(always)]
fn plain_front(piece: &[u8]) -> usize
    requires { 0 < length piece.now }
    ensures short { result ≤ CONTENT_LIMIT }
    ensures within { result + 1 ≤ length piece.now }
    ensures plain { IsPlain (slice_range piece.now 1 (result + 1)) }
{
    plain_len(&piece[1..piece.len().min(CONTENT_LIMIT + 1)])
}

// Whether a flag stands behind so many octets of content.
#[inline(always)]
fn is_closed(piece: &[u8], count: usize) -> bool
    requires { count + 1 ≤ length piece.now }
    ensures { IsTrue result →
        (0 < count) × (count + 2 ≤ length piece.now) × (slice_index piece.now (count + 1) ≡ 0x7E) }
{
    count > 0 && count + 1 < piece.len() && piece[count + 1] == FLAG
}

impl Splitter {
    /// A splitter at the beginning of a stream.
    pub fn new() -> Splitter
        ensures stream { StandsFor result [] }
        ensures in_place { Continues result [] }
        ensures place { result.place ≡ 0 }
    {
        Splitter {
            mode: Mode::Outside,
            content: ArrayVec::new(),
            place: 0,
            opened: 0,
        }
    }

    #[inline(always)]
    fn open(&mut self)
        requires { self.old.place < 2 ^ 63 }
        ensures { self.new ≡ opening self.old }
    {
        self.mode = Mode::Inside;
        self.content.clear();
        self.opened = self.place;
        self.place += 1;
    }

    fn pass(&mut self, mode: Mode)
        requires place { self.old.place < 2 ^ 63 }
        requires room { mode ≡ Escaping → length self.old.content < CONTENT_LIMIT }
        ensures { self.new ≡ passing self.old mode }
    {
        self.mode = mode;
        self.place += 1;
    }

    fn keep(&mut self, octet: u8)
        requires place { self.old.place < 2 ^ 63 }
        requires room { length self.old.content < CONTENT_LIMIT }
        ensures { self.new ≡ keeping self.old octet }
    {
        self.mode = Mode::Inside;
        self.content.push(octet);
        self.place += 1;
    }

    #[inline(always)]
    fn take_inside(&mut self, octet: u8) -> Split
        requires { self.old.place < 2 ^ 63 }
        ensures next { self.new ≡ after_in Inside self.old octet }
        ensures told { split_events result self.new ≡ events_in Inside self.old octet }
    {
        let at = self.place;
        if octet == FLAG {
            if self.content.is_empty() {
                let opened = self.opened;
                self.open();
                refused(Why::EmptyFrame, opened)
            } else {
                self.pass(Mode::Outside);
                Split::Content
            }
        } else if self.content.is_full() {
            self.pass(Mode::Skipping);
            refused(Why::TooLong, at)
        } else if octet == ESCAPE {
            self.pass(Mode::Escaping);
            Split::More
        } else {
            self.keep(octet);
            Split::More
        }
    }

    #[inline(always)]
    fn take_escaped(&mut self, octet: u8) -> Split
        requires place { self.old.place < 2 ^ 63 }
        requires mode { self.old.mode ≡ Escaping }
        ensures next { self.new ≡ after_in Escaping self.old octet }
        ensures told { split_events result self.new ≡ events_in Escaping self.old octet }
    {
        let at = self.place;
        match octet {
            ESCAPE_CODE => {
                self.keep(ESCAPE);
                Split::More
            }
            FLAG_CODE => {
                self.keep(FLAG);
                Split::More
            }
            FLAG => {
                self.pass(Mode::Outside);
                refused(Why::BadEscape, at)
            }
            _ => {
                self.pass(Mode::Skipping);
                refused(Why::BadEscape, at)
            }
        }
    }

    #[inline(always)]
    fn take_outside(&mut self, octet: u8) -> Split
        requires { self.old.place < 2 ^ 63 }
        ensures next { self.new ≡ after_in Outside self.old octet }
        ensures told { split_events result self.new ≡ events_in Outside self.old octet }
    {
        let at = self.place;
        if octet == FLAG {
            self.open();
            Split::More
        } else {
            self.pass(Mode::Straying);
            refused(Why::Stray, at)
        }
    }

    #[inline(always)]
    #[tactic(auto, unfolding(crate::specs::Scan::after, crate::specs::Scan::events_of))]
    fn step(&mut self, octet: u8) -> Split
        requires { self.old.place < 2 ^ 63 }
        ensures next { self.new ≡ after self.old octet }
        ensures told { split_events result self.new ≡ events_of self.old octet }
    {
        match self.mode {
            Mode::Outside => self.take_outside(octet),
            Mode::Straying => {
                if octet == FLAG {
                    self.open();
                } else {
                    self.pass(Mode::Straying);
                }
                Split::More
            }
            Mode::Inside => self.take_inside(octet),
            Mode::Escaping => self.take_escaped(octet),
            Mode::Skipping => {
                self.pass(if octet == FLAG {
                    Mode::Outside
                } else {
                    Mode::Skipping
                });
                Split::More
            }
        }
    }

    // Keeps content octets that stand for themselves.
    #[inline(always)]
    fn keep_all(&mut self, octets: &[u8])
        requires place { self.old.place + length octets.now < 2 ^ 63 }
        requires room { length self.old.content + length octets.now ≤ CONTENT_LIMIT }
        ensures { self.new ≡ keeping_all self.old octets.now }
    {
        self.content.try_extend_from_slice(octets).unwrap();
        self.mode = Mode::Inside;
        self.place += octets.len() as u64;
    }

    fn pass_all(&mut self, octets: &[u8])
        requires { self.old.place + length octets.now < 2 ^ 63 }
        ensures { self.new ≡ passing_all self.old octets.now }
    {
        self.place += octets.len() as u64;
    }

    // Keeps content octets up to the first flag or escape, as far as there is room.
    #[inline(always)]
    fn keep_run(&mut self, octets: &[u8]) -> usize
        requires place { self.old.place + length octets.now < 2 ^ 63 }
        requires mode { self.old.mode ≡ Inside }
        ensures within { result ≤ length octets.now }
        ensures place { self.new.place ≡ self.old.place + result }
        ensures mode { self.new.mode ≡ Inside }
        ensures runs { Runs self.old self.new (take result octets.now) [] }
    {
        let room = self.content.remaining_capacity();
        let run = plain_len(&octets[..octets.len().min(room)]);
        self.keep_all(&octets[..run]);
        run
    }

    // Puts a content octet behind those that are kept.
    #[inline(always)]
    fn gather(&mut self, octet: u8)
        requires mode { self.old.mode ≡ Inside }
        requires room { length self.old.content < CONTENT_LIMIT }
        ensures { self.new ≡ gathering self.old octet }
    {
        self.content.push(octet);
    }

    // Gathers the octet that an escape at the front stands for, where both of its octets are there and it is a right one: how
    // many octets it takes. The place is not moved.
    #[inline(always)]
    fn gather_escape(&mut self, octets: &[u8]) -> usize
        requires mode { self.old.mode ≡ Inside }
        requires room { length self.old.content < CONTENT_LIMIT }
        requires some { 0 < length octets.now }
        requires escape { slice_index octets.now 0 ≡ 0x7D }
        ensures within { result ≤ length octets.now }
        ensures mode { self.new.mode ≡ Inside }
        ensures place { self.new.place ≡ self.old.place }
        ensures runs { (place : ℕ) → Runs (standing self.old place)
            (standing self.new (place + result)) (take result octets.now) [] }
    {
        if octets.len() == 1 {
            return 0;
        }
        match unescaped(octets[1]) {
            None => 0,
            Some(octet) => {
                self.gather(octet);
                2
            }
        }
    }

    // Gathers content octets one by one, as long as escapes stand near one another: how many octets they take. The place is
    // not moved. Where escapes stand so, a search for each takes longer. Both octets that may be the next are read before it
    // is known which is, so that no step waits for a read; so the last one or two are left to those that call.
    #[inline(always)]
    fn gather_near(&mut self, octets: &[u8]) -> usize
        requires mode { self.old.mode ≡ Inside }
        requires room { length self.old.content + length octets.now ≤ CONTENT_LIMIT }
        ensures within { result ≤ length octets.now }
        ensures mode { self.new.mode ≡ Inside }
        ensures place { self.new.place ≡ self.old.place }
        ensures runs { Runs self.old (standing self.new (self.old.place + result))
            (take result octets.now) [] }
    {
        if octets.is_empty() {
            return 0;
        }
        let mut first = octets[0];
        let mut taken = 0;
        let mut left = NEAR;
        while taken + 2 < octets.len() && left > 0 {
            let (second, third) = (octets[taken + 1], octets[taken + 2]);
            match front(first, second) {
                None => return taken,
                Some((count, octet)) => {
                    self.gather(octet);
                    first = select_unpredictable(count == 1, second, third);
                    left = select_unpredictable(count == 1, left - 1, NEAR);
                    taken += count;
                }
            }
        }
        taken
    }

    // Keeps content octets as long as escapes stand near one another: how many octets were taken.
    fn keep_near(&mut self, octets: &[u8]) -> usize
        requires place { self.old.place + length octets.now < 2 ^ 63 }
        requires mode { self.old.mode ≡ Inside }
        ensures within { result ≤ length octets.now }
        ensures place { self.new.place ≡ self.old.place + result }
        ensures mode { self.new.mode ≡ Inside }
        ensures runs { Runs self.old self.new (take result octets.now) [] }
    {
        let room = self.content.remaining_capacity();
        let taken = self.gather_near(&octets[..octets.len().min(room)]);
        self.place += taken as u64;
        taken
    }

    // Keeps the octet that an escape at the front stands for, where it is whole and a right one: how many octets were taken.
    #[inline(always)]
    fn keep_escape(&mut self, octets: &[u8]) -> usize
        requires place { self.old.place + length octets.now < 2 ^ 63 }
        requires mode { self.old.mode ≡ Inside }
        requires some { 0 < length octets.now }
        requires escape { slice_index octets.now 0 ≡ 0x7D }
        ensures within { result ≤ length octets.now }
        ensures place { self.new.place ≡ self.old.place + result }
        ensures mode { self.new.mode ≡ Inside }
        ensures runs { Runs self.old self.new (take result octets.now) [] }
    {
        if self.content.is_full() {
            return 0;
        }
        let taken = self.gather_escape(octets);
        self.place += taken as u64;
        taken
    }

    // Keeps a run of content octets, and what follows a short one as long as escapes stand near one another: how many octets
    // were taken.
    #[inline(always)]
    fn keep_plain(&mut self, octets: &[u8]) -> usize
        requires place { self.old.place + length octets.now < 2 ^ 63 }
        requires mode { self.old.mode ≡ Inside }
        ensures within { result ≤ length octets.now }
        ensures place { self.new.place ≡ self.old.place + result }
        ensures mode { self.new.mode ≡ Inside }
        ensures runs { Runs self.old self.new (take result octets.now) [] }
    {
        let run = self.keep_run(octets);
        if run >= NEAR {
            return run;
        }
        run + self.keep_near(&octets[run..])
    }

    // Keeps the next octets of a content, if they are such and there is room: how many were taken.
    #[inline(always)]
    fn keep_next(&mut self, octets: &[u8]) -> usize
        requires place { self.old.place + length octets.now < 2 ^ 63 }
        requires mode { self.old.mode ≡ Inside }
        requires some { 0 < length octets.now }
        ensures within { result ≤ length octets.now }
        ensures place { self.new.place ≡ self.old.place + result }
        ensures mode { self.new.mode ≡ Inside }
        ensures runs { Runs self.old self.new (take result octets.now) [] }
    {
        match octets[0] {
            FLAG => 0,
            ESCAPE => self.keep_escape(octets),
            _ => self.keep_plain(octets),
        }
    }

    // Keeps content octets up to the flag, or to the first that are none or find no room: how many were taken.
    #[inline(always)]
    fn keep_content(&mut self, octets: &[u8]) -> usize
        requires place { self.old.place + length octets.now < 2 ^ 63 }
        requires mode { self.old.mode ≡ Inside }
        ensures within { result ≤ length octets.now }
        ensures place { self.new.place ≡ self.old.place + result }
        ensures runs { Runs self.old self.new (take result octets.now) [] }
    {
        let mut taken = 0;
        while taken < octets.len() {
            let count = self.keep_next(&octets[taken..]);
            if count == 0 {
                return taken;
            }
            taken += count;
        }
        taken
    }

    // Passes over octets up to the first flag.
    fn pass_run(&mut self, octets: &[u8]) -> usize
        requires place { self.old.place + length octets.now < 2 ^ 63 }
        requires mode { (self.old.mode ≡ Straying) ⊎ (self.old.mode ≡ Skipping) }
        ensures within { result ≤ length octets.now }
        ensures place { self.new.place ≡ self.old.place + result }
        ensures runs { Runs self.old self.new (take result octets.now) [] }
    {
        let run = flagless_len(octets);
        self.pass_all(&octets[..run]);
        run
    }

    // Takes the octet behind a run of so many that was taken, if there is one.
    #[inline(always)]
    fn take_behind(&mut self, octets: &[u8], run: usize) -> (usize, Split)
        requires run { run ≤ length octets.now }
        requires place { self.old.place + (length octets.now - run) < 2 ^ 63 }
        ensures some { 0 < length octets.now → 0 < result.0 }
        ensures within { (run ≤ result.0) × (result.0 ≤ length octets.now) }
        ensures place { self.new.place + run ≡ self.old.place + result.0 }
        ensures runs { (before : State) → Runs before self.old (take run octets.now) []
            → Runs before self.new (take result.0 octets.now) (split_events result.1 self.new) }
        ensures content { result.1 ≡ Split.Content → 0 < length self.new.content }
    {
        if run == octets.len() {
            return (run, Split::More);
        }
        let split = self.step(octets[run]);
        (run + 1, split)
    }

    // Takes octets of a content, and the one behind them, or all.
    #[inline(always)]
    fn take_content(&mut self, octets: &[u8]) -> (usize, Split)
        requires some { 0 < length octets.now }
        requires place { self.old.place + length octets.now < 2 ^ 63 }
        requires mode { self.old.mode ≡ Inside }
        ensures some { 0 < result.0 }
        ensures within { result.0 ≤ length octets.now }
        ensures place { self.new.place ≡ self.old.place + result.0 }
        ensures runs { Runs self.old self.new (take result.0 octets.now)
            (split_events result.1 self.new) }
        ensures content { result.1 ≡ Split.Content → 0 < length self.new.content }
    {
        let run = self.keep_content(octets);
        self.take_behind(octets, run)
    }

    // Takes octets that are in no frame up to the next flag, and it, or all.
    #[inline(always)]
    fn take_passed(&mut self, octets: &[u8]) -> (usize, Split)
        requires some { 0 < length octets.now }
        requires place { self.old.place + length octets.now < 2 ^ 63 }
        requires mode { (self.old.mode ≡ Straying) ⊎ (self.old.mode ≡ Skipping) }
        ensures some { 0 < result.0 }
        ensures within { result.0 ≤ length octets.now }
        ensures place { self.new.place ≡ self.old.place + result.0 }
        ensures runs { Runs self.old self.new (take result.0 octets.now)
            (split_events result.1 self.new) }
        ensures content { result.1 ≡ Split.Content → 0 < length self.new.content }
    {
        let run = self.pass_run(octets);
        self.take_behind(octets, run)
    }

    // Takes octets up to the first that brings an event, or some of them.
    #[inline(always)]
    fn take_some(&mut self, octets: &[u8]) -> (usize, Split)
        requires some { 0 < length octets.now }
        requires place { self.old.place + length octets.now < 2 ^ 63 }
        ensures some { 0 < result.0 }
        ensures within { result.0 ≤ length octets.now }
        ensures place { self.new.place ≡ self.old.place + result.0 }
        ensures runs { Runs self.old self.new (take result.0 octets.now)
            (split_events result.1 self.new) }
        ensures content { result.1 ≡ Split.Content → 0 < length self.new.content }
    {
        match self.mode {
            Mode::Inside => self.take_content(octets),
            Mode::Straying | Mode::Skipping => self.take_passed(octets),
            Mode::Outside | Mode::Escaping => self.take_behind(octets, 0),
        }
    }

    fn take_all(&mut self, piece: &[u8]) -> (usize, Split)
        requires { self.old.place + length piece.now < 2 ^ 63 }
        ensures within { result.0 ≤ length piece.now }
        ensures some { 0 < length piece.now → 0 < result.0 }
        ensures place { self.new.place ≡ self.old.place + result.0 }
        ensures runs { Runs self.old self.new (take result.0 piece.now)
            (split_events result.1 self.new) }
        ensures more { result.1 ≡ Split.More → result.0 ≡ length piece.now }
        ensures content { result.1 ≡ Split.Content → 0 < length self.new.content }
    {
        let mut taken = 0;
        while taken < piece.len() {
            let (count, split) = self.take_some(&piece[taken..]);
            taken += count;
            match split {
                Split::More => {}
                Split::Content | Split::Refused(_) => return (taken, split),
            }
        }
        (taken, Split::More)
    }

    /// Takes the stream's next octets, up to the first that completes something: how many were taken, and what they
    /// complete, or `More` where all were taken and complete nothing. This is what `push` does octet by octet. The octets
    /// taken so far and the piece are together fewer than 2^63.
    pub fn take(&mut self, piece: &[u8]) -> (usize, Split)
        requires { self.old.place + length piece.now < 2 ^ 63 }
        ensures taken { result.0 ≤ length piece.now }
        ensures some { 0 < length piece.now → 0 < result.0 }
        ensures place { self.new.place ≡ self.old.place + result.0 }
        ensures events { Takes self.old self.new (take result.0 piece.now)
            (split_events result.1 self.new) }
        // The same also holds after `take_in_place`.
        ensures in_place { TakesInPlace self.old self.new (take result.0 piece.now)
            (split_events result.1 self.new) }
        ensures more { result.1 ≡ Split.More → result.0 ≡ length piece.now }
        // No octet past the first that completes something is taken.
        ensures first { (count : ℕ) → count < result.0 → IsSilent self.old (take count piece.now) }
        ensures first_in_place { (count : ℕ) → count < result.0 →
            IsSilentInPlace self.old (take count piece.now) }
        ensures content { result.1 ≡ Split.Content → 0 < length self.new.content }
    {
        self.take_all(piece)
    }

    // Takes a frame whose content of so many octets stays where it stands.
    #[inline(always)]
    fn lend(&mut self, count: usize)
        requires place { self.old.place + (count + 2) < 2 ^ 63 }
        ensures { self.new ≡ lending self.old count }
    {
        self.mode = Mode::Outside;
        let place = self.place;
        self.opened = place;
        self.place = place + count as u64 + 2;
        if !self.content.is_empty() {
            self.content.clear();
        }
    }

    // Whether a frame opens with the first octet.
    #[inline(always)]
    fn opens(&self, piece: &[u8]) -> bool
        ensures some { IsTrue result → (0 < length piece.now) × (slice_index piece.now 0 ≡ 0x7E) }
        ensures mode { IsTrue result → (self.now.mode ≡ Outside) ⊎ (self.now.mode ≡ Straying) }
    {
        matches!(self.mode, Mode::Outside | Mode::Straying) && !piece.is_empty() && piece[0] == FLAG
    }

    // Takes what is left of a piece, of which so many octets were taken, up to the first octet that brings an event, or all,
    // and keeps each content.
    #[inline(never)]
    fn take_kept(&mut self, piece: &[u8], taken: usize) -> (usize, Split)
        requires taken { taken ≤ length piece.now }
        requires place { self.old.place + (length piece.now - taken) < 2 ^ 63 }
        ensures within { (taken ≤ result.0) × (result.0 ≤ length piece.now) }
        ensures some { taken < length piece.now → taken < result.0 }
        ensures place { self.new.place + taken ≡ self.old.place + result.0 }
        ensures runs { (before : State) → Runs before self.old (take taken piece.now) [] →
            RunsInPlace before self.new (take result.0 piece.now)
            (split_events_in_place result.1 self.new (take result.0 piece.now)) }
        ensures more { result.1 ≡ Split.More → result.0 ≡ length piece.now }
        ensures content { result.1 ≡ Split.Content →
            IsContent (lent self.new (take result.0 piece.now)) }
    {
        let (count, split) = self.take_all(&piece[taken..]);
        // The place of a content has no more room, which callers could not know.
        prove!(self.content.len() <= CONTENT_LIMIT);
        (taken + count, split)
    }

    // Takes the opening flag and so many octets of content behind it, and then what follows, and keeps each content.
    #[inline(always)]
    fn take_begun(&mut self, piece: &[u8], count: usize) -> (usize, Split)
        requires place { self.old.place + length piece.now < 2 ^ 63 }
        requires mode { (self.old.mode ≡ Outside) ⊎ (self.old.mode ≡ Straying) }
        requires short { count ≤ CONTENT_LIMIT }
        requires within { count + 1 ≤ length piece.now }
        requires flag { slice_index piece.now 0 ≡ 0x7E }
        requires plain { IsPlain (slice_range piece.now 1 (count + 1)) }
        ensures within { (0 < result.0) × (result.0 ≤ length piece.now) }
        ensures place { self.new.place ≡ self.old.place + result.0 }
        ensures runs { RunsInPlace self.old self.new (take result.0 piece.now)
            (split_events_in_place result.1 self.new (take result.0 piece.now)) }
        ensures more { result.1 ≡ Split.More → result.0 ≡ length piece.now }
        ensures content { result.1 ≡ Split.Content →
            IsContent (lent self.new (take result.0 piece.now)) }
    {
        self.open();
        self.keep_all(&piece[1..count + 1]);
        self.take_kept(piece, count + 1)
    }

    // Takes a frame that opens with the first octet, or what there is of it up to the first octet that brings an event. Its
    // content stays where it stands if it is whole and has no escapes.
    #[inline(always)]
    fn take_frame(&mut self, piece: &[u8]) -> (usize, Split)
        requires place { self.old.place + length piece.now < 2 ^ 63 }
        requires mode { (self.old.mode ≡ Outside) ⊎ (self.old.mode ≡ Straying) }
        requires some { 0 < length piece.now }
        requires flag { slice_index piece.now 0 ≡ 0x7E }
        ensures within { (0 < result.0) × (result.0 ≤ length piece.now) }
        ensures place { self.new.place ≡ self.old.place + result.0 }
        ensures runs { RunsInPlace self.old self.new (take result.0 piece.now)
            (split_events_in_place result.1 self.new (take result.0 piece.now)) }
        ensures more { result.1 ≡ Split.More → result.0 ≡ length piece.now }
        ensures content { result.1 ≡ Split.Content →
            IsContent (lent self.new (take result.0 piece.now)) }
    {
        let count = plain_front(piece);
        if !is_closed(piece, count) {
            return self.take_begun(piece, count);
        }
        self.lend(count);
        (count + 2, Split::Content)
    }

    /// Takes the stream's next octets as `take` does, and `content_in` then gives the content. Where the piece begins, outside
    /// all frames, with a frame that is whole and without escapes, its content stays in the piece and is not copied. The
    /// octets taken so far and the piece are together fewer than 2^63.
    #[inline(always)]
    pub fn take_in_place(&mut self, piece: &[u8]) -> (usize, Split)
        requires { self.old.place + length piece.now < 2 ^ 63 }
        ensures taken { result.0 ≤ length piece.now }
        ensures some { 0 < length piece.now → 0 < result.0 }
        ensures place { self.new.place ≡ self.old.place + result.0 }
        ensures events { TakesInPlace self.old self.new (take result.0 piece.now)
            (split_events_in_place result.1 self.new (take result.0 piece.now)) }
        ensures more { result.1 ≡ Split.More → result.0 ≡ length piece.now }
        // No octet past the first that completes something is taken.
        ensures first { (count : ℕ) → count < result.0 →
            IsSilentInPlace self.old (take count piece.now) }
        ensures content { result.1 ≡ Split.Content →
            IsContent (lent self.new (take result.0 piece.now)) }
    {
        if self.opens(piece) {
            return self.take_frame(piece);
        }
        self.take_kept(piece, 0)
    }

    /// The content that the last `take_in_place` completed, `taken` being the octets that it took. It stands in the piece or
    /// in the splitter.
    #[inline(always)]
    pub fn content_in<'a>(&'a self, taken: &'a [u8]) -> &'a [u8]
        ensures { result.now ≡ lent self.now taken.now }
    {
        if self.content.is_empty() && 2 <= taken.len() {
            &taken[1..taken.len() - 1]
        } else {
            self.content.as_slice()
        }
    }

    /// Takes the stream's next octet. Fewer than 2^63 octets may have been taken.
    pub fn push(&mut self, octet: u8) -> Split
        requires { self.old.place < 2 ^ 63 }
        ensures place { self.new.place ≡ self.old.place + 1 }
        ensures events { Takes self.old self.new (octet ∷ []) (split_events result self.new) }
        // The same also holds after `take_in_place`.
        ensures in_place { TakesInPlace self.old self.new (octet ∷ [])
            (split_events result self.new) }
        ensures content { result ≡ Split.Content → 0 < length self.new.content }
    {
        self.step(octet)
    }

    /// The last whole content that `push` or `take` completed, until the next call that takes octets.
    pub fn content(&self) -> &[u8]
        ensures octets { result.now ≡ self.now.content }
        ensures length { length result.now ≤ CONTENT_LIMIT }
    {
        self.content.as_slice()
    }

    /// The place of the opening flag of the last whole content, until the next call that takes octets.
    pub fn opened(&self) -> u64
        ensures { result ≡ self.now.opened }
    {
        self.opened
    }

    fn end(&self) -> Option<Refusal>
        ensures { result ≡ end_in self.now.mode self.now.place }
    {
        match self.mode {
            Mode::Inside | Mode::Escaping => Some(Refusal {
                at: self.place,
                inside: 0,
                why: Why::Truncated,
            }),
            Mode::Outside | Mode::Straying | Mode::Skipping => None,
        }
    }

    /// Judges the stream's end: `Truncated` at the stream's length where it ends inside a frame.
    pub fn finish(&self) -> Option<Refusal>
        ensures end { (stream : List ℕ) → StandsFor self.now stream → Ends stream result }
        // The same also holds after `take_in_place`.
        ensures in_place { (stream : List ℕ) → Continues self.now stream → Ends stream result }
    {
        self.end()
    }
}
