//! The world as it hears the lines of a script.

ghost use Rattle.std.specs.Prelude.{string_bytes, IfOk};
ghost use Rattle.jt_script.specs.EventLines.{says};
ghost use Rattle.jt_script.specs.declared.reading.EventLine.TheVariants.{Event};
ghost use Rattle.jt_world.specs.Hearing.{Does, MayHear, beyond_is_bad, outcome};

use crate::world::World;
use jt_event_lines::{push_entry_lines, push_world_totals};
use jt_input::{EarlyEnd, Heard, Hearer, Status};
use jt_play::{WorldError, WorldEvent};
use jt_script::{EventLine, event_line};
use jt_terminal_rule::law_rule;
use jt_value::Memory;
use std::alloc::Global;

impl World {
    // Does what an event asks, and puts a line for each entry that it made. It is bad where it
    // names a line of communication that was not opened.
    fn perform(
        &mut self,
        alloc: Global,
        event: WorldEvent,
        text: &mut String,
    ) -> Result<Heard, Memory>
        ensures does { MayHear self.old → IfOk result (λ heard. Does heard self.old self.new
            (Event event) (string_bytes text.old) (string_bytes text.new)) }
        ensures may { MayHear self.old → IfOk result (λ _. MayHear self.new) }
    {
        match self.step(alloc, event) {
            Ok(entries) => {
                push_entry_lines(text, entries.as_slice())?;
                Ok(Heard::Next)
            }
            Err(WorldError::NoLine(_)) => Ok(Heard::Bad),
            Err(WorldError::Full(limit)) => {
                EarlyEnd::VaultFull(limit).push(text)?;
                Ok(Heard::Settled(Status::StoreFault))
            }
            Err(WorldError::Memory) => Err(Memory),
        }
    }

    /// Does what a line within the limits says, and puts what is printed of it.
    pub(crate) fn hear_line(
        &mut self,
        alloc: Global,
        line: &[u8],
        text: &mut String,
    ) -> Result<Heard, Memory>
        ensures does { MayHear self.old → IfOk result (λ heard. Does heard self.old self.new
            (says line.now) (string_bytes text.old) (string_bytes text.new)) }
        ensures may { MayHear self.old → IfOk result (λ _. MayHear self.new) }
    {
        match event_line(alloc, line)? {
            EventLine::Passed => Ok(Heard::Next),
            EventLine::Event(event) => self.perform(alloc, event, text),
            EventLine::Bad => Ok(Heard::Bad),
        }
    }
}

impl Hearer for World {
    ghost outcome = { outcome };

    ghost can_hear = { MayHear };

    fn hear(
        &mut self,
        alloc: Global,
        _number: u64,
        line: &[u8],
        text: &mut String,
    ) -> Result<Heard, Memory> {
        law_rule();
        self.hear_line(alloc, line, text)
    }

    fn close(&mut self, _alloc: Global, text: &mut String) -> Result<Status, Memory> {
        push_world_totals(text, self.totals())?;
        Ok(Status::Done)
    }

    ghost beyond = { λ s number line more e. beyond_is_bad s number line more e };
}
