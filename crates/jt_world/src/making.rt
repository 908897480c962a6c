//! A script that is made, line by line, and its rehearsal, of which the last line alone is printed.

ghost use Rattle.std.specs.Prelude.{◌≡◌, ◌≢◌, ◌≤◌, ◌<◌, ◌+◌, ◌^◌, ◌⊎◌, [], List, ℕ, string_bytes, true, IfOk, OnOk};
ghost use Rattle.jt_value.specs.Counts.{Rose};
ghost use Rattle.jt_input.specs.Text.{is_within};
ghost use Rattle.jt_world.specs.Made.{down_line, end_lines, fix_line, make_lines, newest_after, round_end as end_of_round, round_lines, rounds_from, up_line};
ghost use Rattle.jt_world.specs.Making.{Begins, Ends, Hears, IsRefused, Says, SaysAll, Writes};
ghost use Rattle.jt_world.specs.Rehearsing.{Makes};

use crate::laws::law_world;
use crate::rehearsing::Rehearsed;
use crate::world::World;
use jt_event_lines::push_world_totals;
use jt_input::{Heard, LINE_LIMIT, LINES_LIMIT, push_bad_line};
use jt_outside::{Sink, write_all};
use jt_value::Memory;
use jt_value::limits::FIX_LIMIT;
use std::alloc::{AllocError, Global};
use std::fmt::Write;

// How a round of the script ends.
#[derive(Clone, Copy)]
pub(crate) enum RoundEnd {
    // The line of communication stays.
    Same,
    // A new line of communication is opened.
    Open,
    // The terminal starts anew, and a new line of communication is opened.
    RestartTerminal,
    // The platform starts anew, and a new line of communication is opened.
    RestartPlatform,
}

// How far the script came.
#[derive(Clone, Copy)]
pub(crate) enum Course {
    GoesOn,
    Ended(Rehearsed),
    OutOfMemory,
}

// A world to which lines are said, one after another.
#[derive(Drop)]
pub(crate) struct Making {
    world: World,
    // The line that is said.
    line: String,
    // What is printed of it.
    text: String,
    // Its number.
    number: u64,
    course: Course,
}

fn is_within(number: u64, line: &[u8]) -> bool
    ensures is { result ≡ is_within number line.now }
    ensures few { result ≡ true → number ≤ 10000000 }
{
    number <= LINES_LIMIT && line.len() <= LINE_LIMIT
}

fn round_end(k: u32) -> RoundEnd
    ensures { result ≡ end_of_round k }
{
    if k % 97 == 96 {
        return RoundEnd::RestartPlatform;
    }
    if k % 31 == 30 {
        return RoundEnd::Open;
    }
    if k % 13 == 12 {
        return RoundEnd::RestartTerminal;
    }
    RoundEnd::Same
}

impl Making {
    fn new(alloc: Global) -> Result<Making, Memory>
        ensures { IfOk result Begins }
    {
        Ok(Making {
            world: World::new(alloc)?,
            line: String::new(alloc),
            text: String::new(alloc),
            number: 1,
            course: Course::GoesOn,
        })
    }

    // The script ended as the line is bad.
    fn refuse(&mut self) -> Course
        ensures same { (self.new.world ≡ self.old.world) × (self.new.number ≡ self.old.number) }
        ensures refused { IsRefused result self.old.number (string_bytes self.new.text) }
    {
        self.text.clear();
        match push_bad_line(&mut self.text, self.number) {
            Ok(()) => Course::Ended(Rehearsed::BadLine(self.number)),
            Err(_) => Course::OutOfMemory,
        }
    }

    // Hears the line.
    fn hear(&mut self, alloc: Global) -> Course
        ensures { Hears self.old self.new result }
    {
        self.text.clear();
        if !is_within(self.number, self.line.as_bytes()) {
            return self.refuse();
        }
        match self
            .world
            .hear_line(alloc, self.line.as_bytes(), &mut self.text)
        {
            Ok(Heard::Next) => {
                self.number += 1;
                Course::GoesOn
            }
            Ok(Heard::Bad) => self.refuse(),
            Ok(Heard::Settled(_)) => Course::Ended(Rehearsed::Full(FIX_LIMIT)),
            Err(_) => Course::OutOfMemory,
        }
    }

    // Says the line that was written, unless the script ended before it.
    fn say(&mut self, alloc: Global, written: Result<(), AllocError>)
        ensures { (line : List ℕ) → OnOk written (string_bytes self.old.line ≡ line) →
            Says self.old self.new line }
    {
        match self.course {
            Course::GoesOn => {
                self.course = match written {
                    Ok(()) => self.hear(alloc),
                    Err(_) => Course::OutOfMemory,
                };
            }
            Course::Ended(_) | Course::OutOfMemory => {}
        }
    }

    // Says these words.
    fn say_words(&mut self, alloc: Global, words: &str)
        ensures { Says self.old self.new words.now }
    {
        self.line.clear();
        let written = self.line.push_str(words);
        self.say(alloc, written);
    }

    fn fix(&mut self, alloc: Global, k: u32)
        ensures { Says self.old self.new (fix_line k) }
    {
        self.line.clear();
        let written = write!(self.line, "fix {k}");
        self.say(alloc, written);
    }

    fn up(&mut self, alloc: Global, newest: u64, k: u32)
        ensures { Says self.old self.new (up_line newest k) }
    {
        let count = u64::from(k) * 7 % 61;
        self.line.clear();
        let written = write!(self.line, "up {newest} {count}");
        self.say(alloc, written);
    }

    fn down(&mut self, alloc: Global, k: u32)
        ensures { Says self.old self.new (down_line k) }
    {
        let count = u64::from(k) * 5 % 43;
        self.line.clear();
        let written = write!(self.line, "down {count}");
        self.say(alloc, written);
    }

    // The last lines of a round. The number of the newest line of communication.
    fn end_round(&mut self, alloc: Global, end: RoundEnd, newest: u64) -> u64
        requires { newest < 2 ^ 63 }
        ensures says { SaysAll self.old self.new (end_lines end) }
        ensures newest { result ≡ newest_after end newest }
        ensures small { result ≤ newest + 1 }
    {
        match end {
            RoundEnd::Same => newest,
            RoundEnd::Open => {
                self.say_words(alloc, "open");
                newest + 1
            }
            RoundEnd::RestartTerminal => {
                self.say_words(alloc, "restart terminal");
                self.say_words(alloc, "open");
                newest + 1
            }
            RoundEnd::RestartPlatform => {
                self.say_words(alloc, "restart platform");
                self.say_words(alloc, "open");
                newest + 1
            }
        }
    }

    // One round. The number of the newest line of communication.
    fn round(&mut self, alloc: Global, k: u32, newest: u64) -> u64
        requires { newest ≤ k + 1 }
        ensures says { SaysAll self.old self.new (round_lines k newest) }
        ensures newest { result ≡ newest_after (end_of_round k) newest }
        ensures small { result ≤ newest + 1 }
    {
        self.fix(alloc, k);
        self.say_words(alloc, "tick 1000");
        self.up(alloc, newest, k);
        self.down(alloc, k);
        self.end_round(alloc, round_end(k), newest)
    }

    // So many rounds.
    fn rounds(&mut self, alloc: Global, count: u32)
        ensures { SaysAll self.old self.new (rounds_from 0 count 1) }
    {
        let mut newest = 1;
        for k in 0..count {
            newest = self.round(alloc, k, newest);
        }
    }

    // The whole script.
    fn play(&mut self, alloc: Global, count: u32)
        ensures { SaysAll self.old self.new (make_lines count) }
    {
        self.say_words(alloc, "open");
        self.rounds(alloc, count);
        self.say_words(alloc, "open");
        self.say_words(alloc, "run");
    }

    // Leaves the last line of the text that is printed of the script, and how it ended.
    fn finish(&mut self) -> Result<Rehearsed, Memory>
        ensures { IfOk result (λ ended. Ends self.old self.new ended) }
    {
        match self.course {
            Course::GoesOn => {
                self.text.clear();
                push_world_totals(&mut self.text, self.world.totals())?;
                Ok(Rehearsed::Done)
            }
            Course::Ended(ended) => Ok(ended),
            Course::OutOfMemory => Err(Memory),
        }
    }
}

// Writes the last line of a rehearsal that ended.
fn write<K: Sink>(sink: &mut K, text: &[u8], ended: Rehearsed) -> Rehearsed
    ensures writes { Writes ended result (K.written sink.old) (K.written sink.new) text.now }
    ensures write_fault { result ≢ ended → Rose (K.faults sink.old) (K.faults sink.new) }
    ensures still { result ≢ Rehearsed.WriteFault → K.faults sink.new ≡ K.faults sink.old }
    ensures result { (result ≡ ended) ⊎ (result ≡ Rehearsed.WriteFault) }
{
    if write_all(sink, text) {
        ended
    } else {
        Rehearsed::WriteFault
    }
}

impl Making {
    // Plays the whole script, and writes the last line.
    fn write_last<K: Sink>(&mut self, alloc: Global, sink: &mut K, count: u32) -> Rehearsed
        requires { Begins self.old }
        ensures makes { Makes count (K.written sink.old) (K.written sink.new) result }
        ensures write_fault { result ≡ Rehearsed.WriteFault →
            Rose (K.faults sink.old) (K.faults sink.new) }
        ensures still { result ≢ Rehearsed.WriteFault → K.faults sink.new ≡ K.faults sink.old }
        ensures no_read_fault { result ≢ Rehearsed.ReadFault }
    {
        law_world();
        self.play(alloc, count);
        match self.finish() {
            Ok(ended) => write(sink, self.text.as_bytes(), ended),
            Err(Memory) => Rehearsed::Memory,
        }
    }
}

/// Makes a script of so many rounds, rehearses it, and writes the last line of what is printed of
/// it alone.
pub fn make<K: Sink>(alloc: Global, sink: &mut K, count: u32) -> Rehearsed
    ensures makes { Makes count (K.written sink.old) (K.written sink.new) result }
    ensures write_fault { result ≡ Rehearsed.WriteFault →
        Rose (K.faults sink.old) (K.faults sink.new) }
    ensures write_still { result ≢ Rehearsed.WriteFault →
        K.faults sink.new ≡ K.faults sink.old }
    ensures no_read_fault { result ≢ Rehearsed.ReadFault }
{
    let Ok(mut making) = Making::new(alloc) else {
        return Rehearsed::Memory;
    };
    let ended = making.write_last(alloc, sink, count);
    drop(making);
    ended
}
