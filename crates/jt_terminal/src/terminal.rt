//! A terminal over a vault.

ghost use Rattle.std.specs.Prelude.{ℕ, [], ◌+◌, ◌≡◌, ◌≤◌, ◌<◌, ◌^◌, ◌↔◌, false, Bool, IfErr, IfOk, IsErrOf, IsOk, IsTrue, None, OnErr, OnOk, Some, length};
ghost use Rattle.std.specs.Option.{option_to_list};
ghost use Rattle.jt_store.specs.Tables.{HasCause, IsSteady, WhereKnown};
ghost use Rattle.jt_value.specs.Counts.{Rose};
ghost use Rattle.jt_store.specs.Vaults.{Held, Notes, Records, accepted_count};
ghost use Rattle.jt_terminal_rule.specs.Machines.{is_up};
ghost use Rattle.jt_terminal_rule.specs.Messages.{AreSettings};
ghost use Rattle.jt_terminal_rule.specs.Rule as rule;
ghost use Rattle.jt_terminal.specs.Feeding.{HasFedFront, WasCut, scene};
ghost use Rattle.jt_terminal_steps.specs.AfterError.{AreSameParams, AreSameTables, CutLists, lists_of, sets_params};
ghost use Rattle.jt_terminal_steps.specs.Running.{CountsAsVault, CutShort, IsDone, IsDown, IsEvent, IsRefused, IsSame, IsSound, IsStarted, Outside, Ran, TerminalValue, holds_after, time_after};
ghost use Rattle.jt_terminal_steps.specs.declared.error.TerminalError.TheVariants.{Store};
ghost use Rattle.jt_terminal_rule.specs.declared.state.Event.TheVariants.{Lost, Tick};
ghost use Rattle.jt_terminal_rule.specs.declared.state.GiveUp.TheVariants.{TimedOut};
ghost use Rattle.jt_terminal_rule.specs.Tables.{set_params};
ghost use Rattle.jt_terminal_rule.specs.Waits.{IsLate, IsTimed};
ghost use Rattle.std.specs.FinMap.{empty};

use crate::actions::Actions;
use crate::feeding::hear;
use crate::loading::{look_at_fixes, look_at_serials};
use crate::telling::told_by;
use jt_params::ParamTable;
use jt_position::Fix;
use jt_regions::RegionTable;
use jt_store::{Loaded, StoreError, Unit, Vault};
use jt_stream::Stream;
use jt_subpacket::Assembler;
use jt_terminal_answers::first_params;
use jt_terminal_rule::{
    Event, GiveUp, Phase, Queue, Settings, State, Timing, Wait, Window, lose, on_open,
};
use jt_terminal_steps::{TerminalError, on_beat, on_message, on_tick};
use jt_value::{Memory, Octets, Seq};
use std::alloc::Global;
use std::marker::Model;

// The state of a terminal that starts with what its vault loaded, the parameters of its settings, and a window for its units.
fn started(
    alloc: Global,
    settings: Settings,
    loaded: Loaded,
    params: ParamTable,
    mut window: Window<Unit>,
) -> State
    requires { params ≡ set_params (rule.first_params settings) empty }
    ensures state { result ≡ rule.start_state settings loaded }
    ensures small { (result.mark < 65536) × (result.next < 65536) × (result.recorded < 2 ^ 64)
        × (result.accepted < 2 ^ 64) }
{
    let Loaded {
        fixes,
        units,
        mark,
        next,
        code,
        recorded,
        accepted,
    } = loaded;
    window.fill(units);
    let timing = Timing {
        heartbeat: settings.heartbeat,
        answer: settings.answer,
        repeats: settings.repeats,
    };
    State {
        settings,
        phase: Phase::Down,
        time: 0,
        timing,
        params,
        regions: RegionTable::new(alloc),
        last: None,
        wait: Wait {
            since: 0,
            last: 0,
            sendings: 0,
            first: 0,
            repeats: 0,
        },
        said: 0,
        units: window,
        sent: 0,
        waiting: Queue::from_seq(fixes),
        mark,
        next,
        code,
        recorded,
        accepted,
    }
}

// How many units stand before the one whose acceptance this event tells, if it tells one.
fn told(state: &State, event: &Event) -> Option<u64>
    ensures { result ≡ rule.named_place state.now (rule.response event.now) }
{
    match event {
        Event::Received(_, message) => told_by(state, message),
        _ => None,
    }
}

// The same as a list. It takes memory where there is one.
fn told_list(alloc: Global, state: &State, event: &Event) -> Result<Seq<u64>, Memory>
    ensures list { IfOk result (λ list.
        list ≡ option_to_list (rule.named_place state.now (rule.response event.now))) }
    ensures memory { OnErr result (time_after state.now event.now ≡ state.now.time) }
    ensures lost { event.now ≡ Lost → IsOk result }
{
    match told(state, event) {
        Some(older) => {
            let mut list = Seq::new(alloc);
            list.push(older)?;
            Ok(list)
        }
        None => Ok(Seq::new(alloc)),
    }
}

// The rule at an event.
fn run_rule<V: Vault>(
    alloc: Global,
    vault: &mut V,
    state: &mut State,
    out: &mut Seq<Octets>,
    event: &Event,
) -> Result<Option<GiveUp>, TerminalError>
    requires event { IsEvent state.old event.now }
    requires sound { IsSound (V.holds vault.old) state.old }
    ensures ok { IfOk result (λ end. Ran state.old.settings (rule.rule state.old event.now)
        state.new (V.holds vault.old) (V.holds vault.new) out.old out.new end) }
    ensures err { OnErr result
        (CutShort (rule.rule state.old event.now).steps (V.holds vault.old) (V.holds vault.new)) }
    ensures sound { IsSound (V.holds vault.new) state.new }
    ensures settings { state.new.settings ≡ state.old.settings }
    ensures time { state.new.time ≡ time_after state.old event.now }
    ensures last { state.new.last ≡ state.old.last }
    ensures params { sets_params event.now ≡ false → AreSameParams state.old state.new }
    ensures tables { OnErr result (AreSameTables state.old state.new) }
    ensures lists { OnErr result
        (CutLists (rule.rule state.old event.now).steps (lists_of state.old) (lists_of state.new)) }
    ensures lost { event.now ≡ Lost → IsOk result }
    ensures outside { Outside (V.faults vault.old) (V.faults vault.new) (V.limit vault.old)
        (V.limit vault.new) (V.may_fail vault.old) (V.may_fail vault.new) result }
{
    match event {
        Event::Opened => {
            on_open(alloc, state, out)?;
            Ok(None)
        }
        Event::Received(header, message) => {
            on_message(alloc, vault, state, out, header, message)
        }
        Event::Tick(now) => {
            state.time = *now;
            on_tick(alloc, vault, state, out)
        }
        Event::Lost => {
            lose(state);
            Ok(None)
        }
        Event::Beat => {
            on_beat(alloc, vault, state, out)?;
            Ok(None)
        }
    }
}

// After an error no line is in use.
fn down_after(state: &mut State, error: TerminalError) -> TerminalError
    ensures state { state.new ≡ rule.down state.old }
    ensures error { result ≡ error }
{
    lose(state);
    error
}

// What a terminal does at an event: the rule, and after an error no line.
fn act<V: Vault>(
    alloc: Global,
    vault: &mut V,
    state: &mut State,
    event: &Event,
) -> Result<Actions, TerminalError>
    requires event { IsEvent state.old event.now }
    requires sound { IsSound (V.holds vault.old) state.old }
    requires timed { IsTimed state.old }
    ensures state { OnOk result (state.new ≡ (rule.rule state.old event.now).state) }
    ensures vault { OnOk result (V.holds vault.new
        ≡ holds_after (rule.rule state.old event.now).steps (V.holds vault.old)) }
    ensures frames { IfOk result (λ actions.
        actions.frames ≡ rule.sends state.old.settings (rule.rule state.old event.now).steps) }
    ensures end { IfOk result (λ actions. actions.end ≡ (rule.rule state.old event.now).end) }
    ensures told { IfOk result (λ actions.
        actions.told ≡ option_to_list (rule.named_place state.old (rule.response event.now))) }
    ensures late { (now since at : ℕ) → event.now ≡ Tick now → IfOk result (λ actions.
        actions.end ≡ Some (TimedOut since at) → IsLate state.old now since at) }
    ensures cut { OnErr result
        (CutShort (rule.rule state.old event.now).steps (V.holds vault.old) (V.holds vault.new)) }
    ensures down { OnErr result (IsDown state.new) }
    ensures sound { IsSound (V.holds vault.new) state.new }
    ensures timed { IsTimed state.new }
    ensures settings { state.new.settings ≡ state.old.settings }
    ensures time { state.new.time ≡ time_after state.old event.now }
    ensures last { state.new.last ≡ state.old.last }
    ensures params { sets_params event.now ≡ false → AreSameParams state.old state.new }
    ensures tables { OnErr result (AreSameTables state.old state.new) }
    ensures lists { OnErr result
        (CutLists (rule.rule state.old event.now).steps (lists_of state.old) (lists_of state.new)) }
    ensures lost { event.now ≡ Lost → IsOk result }
    ensures outside { Outside (V.faults vault.old) (V.faults vault.new) (V.limit vault.old)
        (V.limit vault.new) (V.may_fail vault.old) (V.may_fail vault.new) result }
{
    let list = match told_list(alloc, state, event) {
        Ok(list) => list,
        Err(Memory) => return Err(down_after(state, TerminalError::Memory)),
    };
    let mut frames = Seq::new(alloc);
    match run_rule(alloc, vault, state, &mut frames, event) {
        Ok(end) => Ok(Actions {
            frames,
            end,
            told: list,
        }),
        Err(error) => Err(down_after(state, error)),
    }
}

// What a terminal does at octets of its line: what it hears, and after an error no line.
fn act_on_line<V: Vault>(
    alloc: Global,
    vault: &mut V,
    state: &mut State,
    assembler: &mut Assembler,
    stream: &mut Stream,
    octets: &[u8],
) -> Result<Actions, TerminalError>
    requires short { stream.old.splitter.place + length octets.now < 2 ^ 63 }
    requires sound { IsSound (V.holds vault.old) state.old }
    requires timed { IsTimed state.old }
    ensures ok { IfOk result (λ actions.
        HasFedFront (scene stream.old.splitter assembler.old state.old (V.holds vault.old) [] [])
        (scene stream.new.splitter assembler.new state.new (V.holds vault.new) actions.frames
        actions.told) octets.now actions.end) }
    ensures place { stream.new.splitter.place ≤ stream.old.splitter.place + length octets.now }
    ensures err { OnErr result
        (WasCut (scene stream.old.splitter assembler.old state.old (V.holds vault.old) [] [])
        stream.new.splitter state.new (V.holds vault.new) octets.now) }
    ensures unmoved { OnErr result (IsDown state.old → state.new ≡ state.old) }
    ensures down { OnErr result (IsDown state.new) }
    ensures sound { IsSound (V.holds vault.new) state.new }
    ensures timed { IsTimed state.new }
    ensures same { IsSame state.old state.new }
    ensures outside { Outside (V.faults vault.old) (V.faults vault.new) (V.limit vault.old)
        (V.limit vault.new) (V.may_fail vault.old) (V.may_fail vault.new) result }
{
    let mut frames = Seq::new(alloc);
    let mut told = Seq::new(alloc);
    match hear(
        alloc,
        vault,
        state,
        &mut frames,
        &mut told,
        assembler,
        stream,
        octets,
    ) {
        Ok(end) => Ok(Actions { frames, end, told }),
        Err(trouble) => Err(down_after(state, trouble)),
    }
}

// Whether no unit and no fix is left.
fn is_done(state: &State) -> bool
    ensures { IsTrue result ↔ IsDone state.now }
{
    state.units.is_empty() && state.waiting.is_empty()
}

// Whether a line is in use.
fn is_in_use(state: &State) -> bool
    ensures { result ≡ is_up state.now.phase }
{
    match state.phase {
        Phase::Down => false,
        Phase::Registering(_) | Phase::Authenticating(_) | Phase::Live(_) => true,
    }
}

/// A terminal over a vault. Contracts see its vault and its state.
#[derive(Drop)]
pub struct Terminal<V: Vault> {
    vault: V,
    state: State,
}

impl<V: Vault> Model for Terminal<V> {
    ghost use Rattle.std.specs.Coded.{codes};
    ghost use Rattle.jt_params.specs.contracts.table.ParamTable as params;
    ghost use Rattle.jt_regions.specs.contracts.region_table.RegionTable as regions;
    ghost use Rattle.jt_terminal_rule.specs.Waits.{IsTimed};
    ghost use Rattle.jt_terminal_steps.specs.Running.{IsSound, TerminalValue};

    ghost Value = { TerminalValue V };

    ghost coded = { Prim.hlevel (codes, params.the_row.coded, regions.the_row.coded) };

    ghost view = { λ terminal. record { vault = terminal.vault; state = terminal.state } };

    ghost invariant = { λ terminal. IsSound (V.holds terminal.vault) terminal.state × IsTimed terminal.state };
}

impl<V: Vault> Terminal<V> {
    /// A terminal without a line over what its vault loads. The settings are good: the phone has a digit in each half octet,
    /// the registration has octets in the phone's edition and a plate of at most 255 octets, and there is a tail in 2019
    /// alone. The ring for the units in flight is made before the vault is read. An Err has the vault, as before, and why the
    /// terminal does not start: Memory also where the ring cannot be made; Full never comes.
    pub fn start(
        alloc: Global,
        mut vault: V,
        settings: Settings,
    ) -> Result<Terminal<V>, (V, StoreError)>
        requires { AreSettings settings }
        ensures ok { IfOk result (λ terminal. IsStarted settings (V.holds vault) terminal.state
            × (V.holds terminal.vault ≡ V.holds vault) × (V.limit terminal.vault ≡ V.limit vault)
            × (V.faults terminal.vault ≡ V.faults vault)
            × (V.may_fail vault ≡ false → V.may_fail terminal.vault ≡ false)) }
        ensures err { IfErr result (λ refused. (V.holds refused.0 ≡ V.holds vault)
            × (V.limit refused.0 ≡ V.limit vault) × IsRefused (V.faults vault) (V.faults refused.0)
            (V.may_fail vault) (V.may_fail refused.0) refused.1) }
    {
        let params = match first_params(alloc, &settings) {
            Ok(params) => params,
            Err(Memory) => return Err((vault, StoreError::Memory)),
        };
        let window = match Window::new(alloc) {
            Ok(window) => window,
            Err(Memory) => return Err((vault, StoreError::Memory)),
        };
        match vault.load(alloc) {
            Ok(loaded) => {
                look_at_fixes(loaded.fixes.as_slice());
                look_at_serials(loaded.units.as_slice());
                let state = started(alloc, settings, loaded, params, window);
                Ok(Terminal { vault, state })
            }
            Err(error) => Err((vault, error)),
        }
    }

    /// Starts anew in place, without a line, over what the vault loads and with these settings. After an error the terminal is as
    /// before; Full never comes.
    pub fn restart(&mut self, alloc: Global, settings: Settings) -> Result<(), StoreError>
        requires { AreSettings settings }
        ensures ok { OnOk result (IsStarted settings (V.holds self.old.vault) self.new.state) }
        ensures err { OnErr result (self.new.state ≡ self.old.state) }
        ensures holds { V.holds self.new.vault ≡ V.holds self.old.vault }
        ensures sound { OnOk result (IsSound (V.holds self.new.vault) self.new.state) }
        ensures limit { V.limit self.new.vault ≡ V.limit self.old.vault }
        ensures faults { OnOk result (V.faults self.new.vault ≡ V.faults self.old.vault) }
        ensures steady { OnOk result
            (V.may_fail self.old.vault ≡ false → V.may_fail self.new.vault ≡ false) }
        ensures refused { IfErr result
            (IsRefused (V.faults self.old.vault) (V.faults self.new.vault)
            (V.may_fail self.old.vault) (V.may_fail self.new.vault)) }
    {
        let params = first_params(alloc, &settings)?;
        let window = Window::new(alloc)?;
        let loaded = self.vault.load(alloc)?;
        look_at_fixes(loaded.fixes.as_slice());
        look_at_serials(loaded.units.as_slice());
        self.state = started(alloc, settings, loaded, params, window);
        Ok(())
    }

    /// Records a fix behind the others. Full comes exactly where as many fixes as the vault's limit are not accepted, and has
    /// the limit. After each error the terminal is as before, and its vault holds what it held.
    pub fn note_fix(&mut self, alloc: Global, fix: &Fix) -> Result<(), StoreError>
        ensures ok { OnOk result (self.new.state ≡ rule.with_fix self.old.state fix.now) }
        ensures err { OnErr result (self.new.state ≡ self.old.state) }
        ensures vault { Records (V.limit self.old.vault) fix.now
            (V.holds self.old.vault) (V.holds self.new.vault) result }
        ensures limit { V.limit self.new.vault ≡ V.limit self.old.vault }
        ensures cause { HasCause (V.faults self.old.vault) (V.faults self.new.vault) result }
        ensures steady { IsSteady (V.may_fail self.old.vault) (V.may_fail self.new.vault) result }
    {
        let copy = fix.clone()?;
        let last = fix.clone()?;
        let _octets = fix.as_slice();
        self.state.waiting.push(copy)?;
        match self.vault.note_fix(alloc, fix) {
            Ok(()) => {
                self.state.recorded = self.state.recorded.saturating_add(1);
                self.state.last = Some(last);
                Ok(())
            }
            Err(error) => {
                let _fix = self.state.waiting.pop_back();
                Err(error)
            }
        }
    }

    /// Does what the rule does at an event: the state, the vault and the actions are the rule's. A message fits its header's
    /// edition and has its id, and a moment is not before an earlier one.
    ///
    /// Store comes only where the vault's count of faults rose in this call. After an error the vault holds what some first
    /// changes of the event make of it, and the terminal has no line and agrees with its vault: units, fixes, serials and code
    /// are what some first steps of the event make of them, and times, parameters and regions are as before. The last fix stays at
    /// each event. At Lost there is no error.
    pub fn event(&mut self, alloc: Global, event: Event) -> Result<Actions, TerminalError>
        requires { IsEvent self.old.state event }
        ensures state { OnOk result (self.new.state ≡ (rule.rule self.old.state event).state) }
        ensures vault { OnOk result (V.holds self.new.vault
            ≡ holds_after (rule.rule self.old.state event).steps (V.holds self.old.vault)) }
        ensures frames { IfOk result (λ actions. actions.frames
            ≡ rule.sends self.old.state.settings (rule.rule self.old.state event).steps) }
        ensures end { IfOk result (λ actions. actions.end ≡ (rule.rule self.old.state event).end) }
        // A line is given up for want of an answer only once all waits have passed since the first sending.
        ensures late { (now since at : ℕ) → event ≡ Tick now → IfOk result (λ actions.
            actions.end ≡ Some (TimedOut since at) → IsLate self.old.state now since at) }
        ensures told { IfOk result (λ actions.
            actions.told ≡ option_to_list (rule.named_place self.old.state (rule.response event))) }
        ensures cut { OnErr result (CutShort (rule.rule self.old.state event).steps
            (V.holds self.old.vault) (V.holds self.new.vault)) }
        ensures down { OnErr result (IsDown self.new.state) }
        ensures sound { IsSound (V.holds self.new.vault) self.new.state }
        ensures settings { self.new.state.settings ≡ self.old.state.settings }
        ensures time { self.new.state.time ≡ time_after self.old.state event }
        ensures last { self.new.state.last ≡ self.old.state.last }
        // A 0x8103 alone changes times and parameters.
        ensures params { sets_params event ≡ false → AreSameParams self.old.state self.new.state }
        ensures tables { OnErr result (AreSameTables self.old.state self.new.state) }
        ensures lists { OnErr result (CutLists (rule.rule self.old.state event).steps
            (lists_of self.old.state) (lists_of self.new.state)) }
        ensures lost { event ≡ Lost → IsOk result }
        ensures outside { Outside (V.faults self.old.vault) (V.faults self.new.vault)
            (V.limit self.old.vault) (V.limit self.new.vault)
            (V.may_fail self.old.vault) (V.may_fail self.new.vault) result }
    {
        act(alloc, &mut self.vault, &mut self.state, &event)
    }

    // Does what the messages of octets of its line ask.
    pub(crate) fn hear(
        &mut self,
        alloc: Global,
        assembler: &mut Assembler,
        stream: &mut Stream,
        octets: &[u8],
    ) -> Result<Actions, TerminalError>
        requires { stream.old.splitter.place + length octets.now < 2 ^ 63 }
        ensures ok { IfOk result (λ actions.
            HasFedFront (scene stream.old.splitter assembler.old self.old.state
            (V.holds self.old.vault) [] [])
            (scene stream.new.splitter assembler.new self.new.state (V.holds self.new.vault)
            actions.frames actions.told) octets.now actions.end) }
        ensures place { stream.new.splitter.place ≤ stream.old.splitter.place + length octets.now }
        ensures err { OnErr result (WasCut (scene stream.old.splitter assembler.old self.old.state
            (V.holds self.old.vault) [] [])
            stream.new.splitter self.new.state (V.holds self.new.vault) octets.now) }
        ensures unmoved { OnErr result (IsDown self.old.state → self.new.state ≡ self.old.state) }
        ensures down { OnErr result (IsDown self.new.state) }
        ensures sound { IsSound (V.holds self.new.vault) self.new.state }
        ensures same { IsSame self.old.state self.new.state }
        ensures outside { Outside (V.faults self.old.vault) (V.faults self.new.vault)
            (V.limit self.old.vault) (V.limit self.new.vault)
            (V.may_fail self.old.vault) (V.may_fail self.new.vault) result }
    {
        act_on_line(
            alloc,
            &mut self.vault,
            &mut self.state,
            assembler,
            stream,
            octets,
        )
    }

    /// Whether every recorded fix is accepted.
    pub fn done(&self) -> bool
        ensures done { IsTrue result ↔ IsDone self.now.state }
        ensures told { WhereKnown (V.holds self.now.vault) (λ held.
            IsTrue result ↔ (accepted_count held ≡ length held.recorded)) }
    {
        is_done(&self.state)
    }

    /// How many fixes were recorded and how many of them are accepted. Each count stays at 2^64 - 1.
    pub fn counts(&self) -> (u64, u64)
        ensures counts { (result.0 ≡ self.now.state.recorded)
            × (result.1 ≡ self.now.state.accepted) }
        ensures told { WhereKnown (V.holds self.now.vault) (λ held.
            CountsAsVault held self.now.state) }
    {
        let _state = &self.state;
        (self.state.recorded, self.state.accepted)
    }

    /// Whether a line is in use.
    pub fn is_up(&self) -> bool
        ensures { result ≡ is_up self.now.state.phase }
    {
        is_in_use(&self.state)
    }

    /// The vault, which is lent.
    pub fn vault(&self) -> &V
        ensures { result.now ≡ self.now.vault }
    {
        let _state = &self.state;
        &self.vault
    }

    /// The vault, with no memory taken.
    pub fn into_vault(self) -> V
        ensures { result ≡ self.vault }
    {
        let Terminal { vault, state: _ } = self;
        vault
    }
}
