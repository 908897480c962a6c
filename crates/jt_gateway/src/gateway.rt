//! The gateway: two worlds, of which one passes on to the other what it stored.

ghost use Rattle.std.specs.Prelude.{◌≡◌, ◌≢◌, ◌↔◌, ◌⊎◌, ℕ, [], true, false, length, take, Err, IfOk, OnOk};
ghost use Rattle.jt_value.specs.declared.limits.TheConstants.{FIX_LIMIT};
ghost use Rattle.jt_value.specs.declared.phone.Edition.TheVariants.{E2019};
ghost use Rattle.jt_octets.specs.Reaching.{Leads};
ghost use Rattle.jt_play.specs.Laws.{RecordsAtMost};
ghost use Rattle.jt_play.specs.declared.error.WorldError.TheVariants as refused;
ghost use Rattle.jt_script.specs.declared.world_event.WorldEvent.TheVariants as line;
ghost use Rattle.jt_gateway.specs.Steps.{GatewayLeads};
ghost use Rattle.jt_gateway.specs.Pumping.{EndsAlike, IsBegun, IsUpstream, PumpsMost, RecordsFirst, RecordsMost, RecordsOne, RestartsMiddle, Stepped};
ghost use Rattle.jt_gateway.specs.Gateway.{HasNoLine, IsGateway, IsOf2019, MayAsk, entries_of, first_gateway, first_scene, gateway_after_line, gateway_at_full, gateway_full, scene_after, worlds_of};

use crate::event::GatewayEvent;
use jt_platform::Entry;
use jt_position::Fix;
use jt_script::WorldEvent;
use jt_terminal_rule::law_rule;
use jt_value::{Edition, Memory, Seq};
use jt_world::{World, WorldError};
use std::alloc::Global;
use std::marker::Model;

/// A terminal that reports to an operator's platform, in world a, and the operator that reports on what it stored to an authority's
/// platform, as the terminal of world b.
#[derive(Drop)]
pub struct Gateway {
    a: World,
    b: World,
}

impl Model for Gateway {
    ghost use Rattle.std.specs.Coded.{codes};
    ghost use Rattle.jt_subpacket.specs.Stored.{partial_code};
    ghost use Rattle.jt_params.specs.contracts.table.ParamTable as params;
    ghost use Rattle.jt_regions.specs.contracts.region_table.RegionTable as regions;
    ghost use Rattle.jt_gateway.specs.Pumping.{PumpsMost, RecordsMost, RecordsOne};
    ghost use Rattle.jt_gateway.specs.Gateway.{GatewayScene, IsOf2019};

    ghost Value = { GatewayScene };

    ghost coded = { Prim.hlevel (codes, partial_code, params.the_row.coded, regions.the_row.coded) };

    ghost view = { λ g. record { a = g.a; b = g.b } };

    ghost invariant = { λ g. IsOf2019 g.b };
}

// What a line is answered, without its entries.
fn without_entries(answered: Result<Seq<Entry>, WorldError>) -> Result<(), WorldError>
    ensures { EndsAlike answered result }
{
    match answered {
        Ok(_) => Ok(()),
        Err(error) => Err(error),
    }
}

// What a line that makes no entry is answered.
fn with_no_entry(alloc: Global, done: Result<(), WorldError>) -> Result<Seq<Entry>, WorldError>
    ensures alike { EndsAlike done result }
    ensures none { IfOk result (λ entries. entries ≡ []) }
{
    match done {
        Ok(()) => Ok(Seq::new(alloc)),
        Err(error) => Err(error),
    }
}

// A fix is recorded.
fn record(alloc: Global, world: &mut World, fix: &Fix) -> Result<(), WorldError>
    ensures records { RecordsOne world.old world.new fix.now result }
    ensures recorded { RecordsAtMost (line.Raw fix.now) world.old.play.world.terminal.recorded
        world.new.play.world.terminal.recorded }
    ensures edition { IsOf2019 world.old → IsOf2019 world.new }
    ensures leads { Leads world.old.play.world world.new.play.world }
{
    match fix.clone() {
        Ok(fix) => without_entries(world.step(alloc, WorldEvent::Raw(fix))),
        Err(_) => Err(WorldError::Memory),
    }
}

// These fixes are recorded, as many as there is room for.
fn record_all(alloc: Global, world: &mut World, fixes: &[Fix]) -> Result<(), WorldError>
    ensures records { RecordsMost world.old world.new fixes.now result }
    ensures first { RecordsFirst world.old.play.world.terminal.recorded
        world.new.play.world.terminal.recorded fixes.now }
    ensures edition { IsOf2019 world.old → IsOf2019 world.new }
    ensures leads { Leads world.old.play.world world.new.play.world }
{
    for fix in fixes {
        match record(alloc, world, fix) {
            Ok(()) => {}
            Err(error) => return Err(error),
        }
    }
    Ok(())
}

// The terminal of a world in which nothing has happened starts anew as one of 2019.
fn begin_upstream(alloc: Global, world: &mut World) -> Result<(), Memory>
    requires begun { IsBegun world.old }
    requires first { world.old ≡ first_scene }
    ensures is { OnOk result (world.new ≡ scene_after first_scene (line.RestartAs E2019)) }
    ensures upstream { OnOk result (IsUpstream world.new) }
{
    law_rule();
    match without_entries(world.step(alloc, WorldEvent::RestartAs(Edition::E2019))) {
        Ok(()) => Ok(()),
        Err(_) => Err(Memory),
    }
}

// The world of a rehearsal before all lines.
fn first_world(alloc: Global) -> Result<World, Memory>
    ensures is { IfOk result (λ world. world ≡ first_scene) }
    ensures begun { IfOk result IsBegun }
{
    World::new(alloc)
}

// A world in which nothing has happened, as the one in which the operator reports to the authority.
fn turned_upstream(alloc: Global, world: World) -> Result<World, Memory>
    requires begun { IsBegun world }
    requires first { world ≡ first_scene }
    ensures is { IfOk result (λ world. world ≡ scene_after first_scene (line.RestartAs E2019)) }
    ensures upstream { IfOk result IsUpstream }
{
    let mut world = world;
    match begin_upstream(alloc, &mut world) {
        Ok(()) => Ok(world),
        Err(Memory) => {
            drop(world);
            Err(Memory)
        }
    }
}

// The world in which the operator reports to the authority, as it begins.
fn upstream_world(alloc: Global) -> Result<World, Memory>
    ensures is { IfOk result (λ world. world ≡ scene_after first_scene (line.RestartAs E2019)) }
    ensures upstream { IfOk result IsUpstream }
{
    match first_world(alloc) {
        Ok(world) => turned_upstream(alloc, world),
        Err(Memory) => Err(Memory),
    }
}

// The gateway that begins with this world a.
fn gateway_of(alloc: Global, a: World) -> Result<Gateway, Memory>
    requires begun { IsBegun a }
    requires first { a ≡ first_scene }
    ensures is { IfOk result (λ gateway. gateway ≡ first_gateway) }
    ensures gateway { IfOk result IsGateway }
{
    match upstream_world(alloc) {
        Ok(b) => Ok(Gateway { a, b }),
        Err(Memory) => {
            drop(a);
            Err(Memory)
        }
    }
}

impl Gateway {
    /// The gateway in which nothing has happened: world a is that of a rehearsal before all lines, and world b is it after
    /// `restart terminal 2019`. Memory comes where memory ran out.
    pub fn new(alloc: Global) -> Result<Gateway, Memory>
        ensures is { IfOk result (λ gateway. gateway ≡ first_gateway) }
        ensures gateway { IfOk result IsGateway }
    {
        match first_world(alloc) {
            Ok(a) => gateway_of(alloc, a),
            Err(Memory) => Err(Memory),
        }
    }

    /// The world in which the terminal reports to the operator.
    pub fn a(&self) -> &World
        ensures { result.now ≡ self.now.a }
    {
        &self.a
    }

    /// The world in which the operator reports to the authority. Its terminal is one of 2019.
    pub fn b(&self) -> &World
        ensures is { result.now ≡ self.now.b }
        ensures edition { result.now.play.world.terminal.phone.edition ≡ E2019 }
    {
        &self.b
    }

    // The fixes that are to be passed on are recorded, as many as there is room for.
    fn pump(&mut self, alloc: Global) -> Result<(), WorldError>
        ensures pumps { PumpsMost self.old self.new result }
        ensures leads { GatewayLeads (worlds_of self.old) (worlds_of self.new) }
        ensures edition { self.new.b.play.world.terminal.phone.edition ≡ E2019 }
        ensures a { self.new.a ≡ self.old.a }
        ensures b { Leads self.old.b.play.world self.new.b.play.world }
    {
        let mark = self.b.recorded();
        if mark == u64::MAX {
            return Err(WorldError::Memory);
        }
        match self.a.fixes_behind(alloc, mark) {
            Ok(fixes) => record_all(alloc, &mut self.b, fixes.as_slice()),
            Err(Memory) => Err(WorldError::Memory),
        }
    }

    // The operator starts anew: its platform, and then its terminal.
    fn restart_middle(&mut self, alloc: Global) -> Result<(), WorldError>
        ensures restarts { RestartsMiddle self.old self.new result }
        ensures leads { GatewayLeads (worlds_of self.old) (worlds_of self.new) }
        ensures edition { self.new.b.play.world.terminal.phone.edition ≡ E2019 }
        ensures a { Leads self.old.a.play.world self.new.a.play.world }
        ensures b { Leads self.old.b.play.world self.new.b.play.world }
    {
        match without_entries(self.a.step(alloc, WorldEvent::RestartPlatform)) {
            Ok(()) => without_entries(self.b.step(alloc, WorldEvent::RestartTerminal)),
            Err(error) => Err(error),
        }
    }

    // A line of a script, and the entries that it made.
    fn act(&mut self, alloc: Global, event: GatewayEvent) -> Result<Seq<Entry>, WorldError>
        requires { MayAsk event }
        ensures { Stepped self.old event self.new result }
    {
        law_rule();
        match event {
            GatewayEvent::A(event) => self.a.step(alloc, event),
            GatewayEvent::B(event) => self.b.step(alloc, event),
            GatewayEvent::Pump => with_no_entry(alloc, self.pump(alloc)),
            GatewayEvent::RestartMiddle => with_no_entry(alloc, self.restart_middle(alloc)),
        }
    }

    /// A line of a script, and the entries that it made, in order: of the world that it names; a pump and a restart make none. An
    /// event of world b is no Fix, Raw or RestartAs. After each answer the gateway is one to which steps of the gateway's world lead, so
    /// that its fixes were passed on as `law_gateway` says, and the terminal of world b is one of 2019. If lines alone led to the gateway
    /// before, they lead to it after each answer but Memory, and after Ok it is the one that the line defines.
    ///
    /// NoLine comes exactly where the line of communication that is named was not opened; the gateway is then as before. Where as many
    /// fixes as the limit are not accepted and one is to be recorded, the answer is Full, which comes only there, or Memory; at Full the
    /// gateway is as before, but that a pump recorded as many as there was room for. Memory comes where memory ran out, or where as many
    /// lines were opened or fixes recorded as have a number; the line was then done in part.
    pub fn step(&mut self, alloc: Global, event: GatewayEvent) -> Result<Seq<Entry>, WorldError>
        requires { MayAsk event }
        ensures leads { GatewayLeads (worlds_of self.old) (worlds_of self.new) }
        ensures gateway { IsGateway self.old → result ≢ Err refused.Memory → IsGateway self.new }
        ensures ok { IsGateway self.old →
            OnOk result (self.new ≡ gateway_after_line self.old event) }
        ensures full { (limit : ℕ) → result ≡ Err (refused.Full limit) →
            (limit ≡ FIX_LIMIT) × (gateway_full self.old event ≡ true)
            × (self.new ≡ gateway_at_full self.old event) }
        ensures at_full { gateway_full self.old event ≡ true →
            (result ≡ Err (refused.Full FIX_LIMIT)) ⊎ (result ≡ Err refused.Memory) }
        ensures room { OnOk result (gateway_full self.old event ≡ false) }
        ensures no_line { (number : ℕ) →
            (result ≡ Err (refused.NoLine number)) ↔ HasNoLine self.old event number }
        ensures same { (number : ℕ) → result ≡ Err (refused.NoLine number) →
            self.new ≡ self.old }
        ensures entries { IfOk result (λ entries. entries ≡ entries_of self.old self.new event) }
        ensures edition { self.new.b.play.world.terminal.phone.edition ≡ E2019 }
        ensures a { Leads self.old.a.play.world self.new.a.play.world }
        ensures b { Leads self.old.b.play.world self.new.b.play.world }
    {
        self.act(alloc, event)
    }
}
