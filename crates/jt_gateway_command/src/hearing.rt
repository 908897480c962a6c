//! A gateway as it hears the lines of a script.

ghost use Rattle.std.specs.Prelude.{◌≡◌, ◌≢◌, string_bytes, Err, IfOk};
ghost use Rattle.jt_gateway.specs.Gateway.{IsGateway, MayAsk, first_gateway};
ghost use Rattle.jt_gateway_command.specs.Beyond.{beyond_is_bad};
ghost use Rattle.jt_play.specs.Scripts.{totals_of};
ghost use Rattle.jt_play.specs.declared.error.WorldError.TheVariants as refused;
ghost use Rattle.jt_gateway_command.specs.Hearing.{Does, Refuses, Steps};
ghost use Rattle.jt_gateway_command.specs.Lines.{gateway_says};
ghost use Rattle.jt_gateway_command.specs.Script.{outcome_of};
ghost use Rattle.jt_gateway_command.specs.declared.reading.GatewayLine.TheVariants.{Event};

use crate::reading::{GatewayLine, gateway_line};
use crate::texts::{is_pump, push_end, push_event, world_name};
use jt_gateway::{Gateway, GatewayEvent};
use jt_input::{EarlyEnd, Heard, Hearer, Status};
use jt_platform::Entry;
use jt_value::{Memory, Seq};
use jt_world::WorldError;
use std::alloc::Global;
use std::marker::Model;

/// A gateway that a script plays.
#[derive(Drop)]
pub struct GatewayPlayer {
    gateway: Gateway,
}

impl Model for GatewayPlayer {
    ghost use Rattle.std.specs.Coded.{codes};
    ghost use Rattle.jt_subpacket.specs.Stored.{partial_code};
    ghost use Rattle.jt_params.specs.contracts.table.ParamTable as params;
    ghost use Rattle.jt_regions.specs.contracts.region_table.RegionTable as regions;
    ghost use Rattle.jt_gateway.specs.Gateway.{GatewayScene};

    ghost Value = { GatewayScene };

    ghost coded = { Prim.hlevel (codes, partial_code, params.the_row.coded, regions.the_row.coded) };

    ghost view = { λ player. player.gateway };
}

// Puts what is printed of an event that was not done. A line is bad that names a line of communication that was not opened.
fn refuse(error: WorldError, text: &mut String) -> Result<Heard, Memory>
    ensures { Refuses error result (string_bytes text.old) (string_bytes text.new) }
{
    match error {
        WorldError::NoLine(_) => Ok(Heard::Bad),
        WorldError::Full(limit) => {
            EarlyEnd::VaultFull(limit).push(text)?;
            Ok(Heard::Settled(Status::StoreFault))
        }
        WorldError::Memory => Err(Memory),
    }
}

impl GatewayPlayer {
    /// Before the first line. Memory comes where memory ran out.
    pub fn new(alloc: Global) -> Result<GatewayPlayer, Memory>
        ensures is { IfOk result (λ player. player ≡ first_gateway) }
        ensures gateway { IfOk result IsGateway }
    {
        Ok(GatewayPlayer {
            gateway: Gateway::new(alloc)?,
        })
    }

    // How many fixes world b recorded, at most 2^64 - 1.
    fn recorded(&self) -> u64
        ensures { result ≡ (totals_of self.now.b.play).recorded }
    {
        self.gateway.b().recorded()
    }

    // An event, and the entries that it made.
    fn step(&mut self, alloc: Global, event: GatewayEvent) -> Result<Seq<Entry>, WorldError>
        requires { MayAsk event }
        ensures gateway { IsGateway self.old → result ≢ Err refused.Memory → IsGateway self.new }
        ensures steps { IsGateway self.old → Steps self.old event self.new result }
    {
        self.gateway.step(alloc, event)
    }

    // Does what an event asks, and puts what is printed of it. It is bad where it names a line of communication that was not opened.
    fn perform(
        &mut self,
        alloc: Global,
        event: GatewayEvent,
        text: &mut String,
    ) -> Result<Heard, Memory>
        requires { MayAsk event }
        ensures does { IsGateway self.old → IfOk result (λ heard. Does heard self.old self.new
            (Event event) (string_bytes text.old) (string_bytes text.new)) }
        ensures gateway { IsGateway self.old → IfOk result (λ _. IsGateway self.new) }
    {
        let name = world_name(&event);
        let pumps = is_pump(&event);
        let before = self.recorded();
        let entries = match self.step(alloc, event) {
            Ok(entries) => entries,
            Err(error) => return refuse(error, text),
        };
        let count = self.recorded().saturating_sub(before);
        push_event(text, name, pumps, count, entries.as_slice())?;
        Ok(Heard::Next)
    }

    // Does what a line within the limits says, and puts what is printed of it.
    fn hear_line(&mut self, alloc: Global, line: &[u8], text: &mut String) -> Result<Heard, Memory>
        ensures does { IsGateway self.old → IfOk result (λ heard. Does heard self.old self.new
            (gateway_says line.now) (string_bytes text.old) (string_bytes text.new)) }
        ensures gateway { IsGateway self.old → IfOk result (λ _. IsGateway self.new) }
    {
        match gateway_line(alloc, line)? {
            GatewayLine::Passed => Ok(Heard::Next),
            GatewayLine::Event(event) => self.perform(alloc, event, text),
            GatewayLine::Bad => Ok(Heard::Bad),
        }
    }
}

impl Hearer for GatewayPlayer {
    ghost outcome = { outcome_of };

    ghost can_hear = { IsGateway };

    fn hear(
        &mut self,
        alloc: Global,
        _number: u64,
        line: &[u8],
        text: &mut String,
    ) -> Result<Heard, Memory> {
        self.hear_line(alloc, line, text)
    }

    fn close(&mut self, _alloc: Global, text: &mut String) -> Result<Status, Memory> {
        let middle = self.gateway.a().totals();
        let upstream = self.gateway.b().totals();
        push_end(text, middle.recorded, middle.stored, upstream.stored)?;
        Ok(Status::Done)
    }

    ghost beyond = { λ g number line more e. beyond_is_bad g number line more e };
}
