//! The world of orders as it hears the lines of a script.

ghost use Rattle.std.specs.Prelude.{◌≡◌, ◌++◌, drop, length, string_bytes, IfOk};
ghost use Rattle.jt_order_octets.specs.Reaching.{Reached};
ghost use Rattle.jt_order_play.specs.Scripts.{OrderScene};
ghost use Rattle.jt_order_command.specs.Beyond.{beyond_is_bad};
ghost use Rattle.jt_order_command.specs.Hearing.{Does, Refuses, Steps};
ghost use Rattle.jt_order_command.specs.Lines.{order_says};
ghost use Rattle.jt_order_command.specs.Script.{first_scene, outcome_of};
ghost use Rattle.jt_order_command.specs.Texts.{orders_text};
ghost use Rattle.jt_order_command.specs.declared.reading.OrderLine.TheVariants.{Event};
ghost use Rattle.jt_input.specs.declared.hearer.Heard.TheVariants as heard;

use crate::reading::{OrderLine, order_line};
use crate::texts::{push_behind, push_full, push_totals};
use jt_input::{Heard, Hearer, Status};
use jt_order_play::{OrderEvent, OrderWorld, OrderWorldError};
use jt_value::Memory;
use jt_world::{fleet, identity, secret};
use std::alloc::Global;
use std::marker::Model;

/// A world of orders that a script plays.
#[derive(Drop)]
pub struct OrderPlayer {
    world: OrderWorld,
}

impl Model for OrderPlayer {
    ghost use Rattle.std.specs.Coded.{codes};
    ghost use Rattle.jt_subpacket.specs.Stored.{partial_code};
    ghost use Rattle.jt_params.specs.contracts.table.ParamTable as params;
    ghost use Rattle.jt_regions.specs.contracts.region_table.RegionTable as regions;
    ghost use Rattle.jt_order_play.specs.Scripts.{OrderScene};

    ghost Value = { OrderScene };

    ghost coded = { Prim.hlevel (codes, partial_code, params.the_row.coded, regions.the_row.coded) };

    ghost view = { λ player. player.world };
}

// Puts what is printed of an event that was not done. A line is bad that names a line of communication that was not opened.
fn refuse(error: OrderWorldError, text: &mut String) -> Result<Heard, Memory>
    ensures { Refuses error result (string_bytes text.old) (string_bytes text.new) }
{
    match error {
        OrderWorldError::NoLine(_) => Ok(Heard::Bad),
        OrderWorldError::Full(limit) => {
            push_full(text, limit)?;
            Ok(Heard::Settled(Status::StoreFault))
        }
        OrderWorldError::Memory => Err(Memory),
    }
}

impl OrderPlayer {
    /// Before the first line. Memory comes where memory ran out.
    pub fn new(alloc: Global) -> Result<OrderPlayer, Memory>
        ensures is { IfOk result (λ player. player ≡ first_scene) }
        ensures reached { IfOk result (λ player. Reached player.play.world) }
    {
        let identity = identity(alloc)?;
        let fleet = fleet(alloc)?;
        let secret = secret(alloc)?;
        Ok(OrderPlayer {
            world: OrderWorld::new(alloc, identity, fleet, secret)?,
        })
    }

    // An event.
    fn step(&mut self, alloc: Global, event: OrderEvent) -> Result<(), OrderWorldError>
        ensures reached { Reached self.old.play.world → Reached self.new.play.world }
        ensures steps { Steps self.old event self.new result }
    {
        self.world.step(alloc, event)
    }

    // Puts what happened to orders since so many were performed and so many answered.
    fn tell(&self, text: &mut String, performed: usize, answered: usize) -> Result<Heard, Memory>
        ensures next { IfOk result (λ h. h ≡ heard.Next) }
        ensures text { IfOk result (λ h. string_bytes text.new ≡ string_bytes text.old
            ++ orders_text performed answered (drop answered self.now.play.world.log)
            (drop answered self.now.play.world.results)) }
    {
        let world = &self.world;
        push_behind(
            text,
            world.performed(),
            world.results(),
            performed,
            answered,
        )?;
        Ok(Heard::Next)
    }

    // How many orders were performed.
    fn performed(&self) -> usize
        ensures { result ≡ length self.now.play.world.log }
    {
        self.world.performed().len()
    }

    // How many orders were answered.
    fn answered(&self) -> usize
        ensures { result ≡ length self.now.play.world.results }
    {
        self.world.results().len()
    }

    // Does what an event asks, and puts what is printed of it. It is bad where it names a line of communication that was not opened.
    fn perform(
        &mut self,
        alloc: Global,
        event: OrderEvent,
        text: &mut String,
    ) -> Result<Heard, Memory>
        ensures does { IfOk result (λ heard. Does heard self.old self.new
            (Event event) (string_bytes text.old) (string_bytes text.new)) }
        ensures reached { Reached self.old.play.world → Reached self.new.play.world }
    {
        let performed = self.performed();
        let answered = self.answered();
        match self.step(alloc, event) {
            Ok(()) => self.tell(text, performed, answered),
            Err(error) => refuse(error, text),
        }
    }

    // Does what a line within the limits says, and puts what is printed of it.
    fn hear_line(&mut self, alloc: Global, line: &[u8], text: &mut String) -> Result<Heard, Memory>
        ensures does { IfOk result (λ heard. Does heard self.old self.new
            (order_says line.now) (string_bytes text.old) (string_bytes text.new)) }
        ensures reached { Reached self.old.play.world → Reached self.new.play.world }
    {
        match order_line(alloc, line)? {
            OrderLine::Passed => Ok(Heard::Next),
            OrderLine::Event(event) => self.perform(alloc, event, text),
            OrderLine::Bad => Ok(Heard::Bad),
        }
    }
}

impl Hearer for OrderPlayer {
    ghost outcome = { outcome_of };

    ghost can_hear = { λ s. Reached s.play.world };

    fn hear(
        &mut self,
        alloc: Global,
        _number: u64,
        line: &[u8],
        text: &mut String,
    ) -> Result<Heard, Memory> {
        self.hear_line(alloc, line, text)
    }

    fn close(&mut self, _alloc: Global, text: &mut String) -> Result<Status, Memory> {
        push_totals(text, self.world.totals())?;
        Ok(Status::Done)
    }

    ghost beyond = { λ s number line more e. beyond_is_bad s number line more e };
}
