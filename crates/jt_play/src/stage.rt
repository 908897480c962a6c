//! The parts of the world that run, and what a line of a script does to them.

ghost use Rattle.std.specs.Prelude.{◌≡◌, ◌+◌, ◌-◌, ◌<◌, ◌≤◌, ◌^◌, ◌++◌, ◌⊎◌, [], ◌∷◌, length, set, true, false, ℕ, Err, is_none, not, IfErr, IfOk, IfSome, IsSome, OnErr, OnOk, Some};
ghost use Rattle.std.specs.List.{flat_map};
ghost use Rattle.jt_play.specs.Holding.{FullWhere, TakesNext, is_short, ReadsNext, is_no_line, noted_at, phone_in, recorded_in, tally_of, IsMoment, HasMoreRoom, IsNewHub, IsNewTerminal, IsNoOpening, first_line, shut_lines, wrote_last};
ghost use Rattle.jt_play.specs.Laws.{HasFix, RecordsAtMost, first_play};
ghost use Rattle.jt_play.specs.Scripts.{IsPlayed, Names, TakesEdition, TakesPhone, at_most_u64, edition_by, settings_in};
ghost use Rattle.jt_play.specs.Playing.{beats, behind, begins, closes, cuts, finds_full, goes_on, goes_up, is_opened, loses, meets, moves, names_no_line, opens, play_after, reads, reads_down, reads_more, reads_one, records, round, RunsTo, starts_again, takes, takes_octet, takes_up, ticks};
ghost use Rattle.jt_platform.specs.Laws.{AreOf};
ghost use Rattle.jt_terminal_rule.specs.Messages.{AreSettings};
ghost use Rattle.jt_terminal_rule.specs.Rule.{first_params, response};
ghost use Rattle.jt_terminal_rule.specs.Tables.{set_params};
ghost use Rattle.jt_params.specs.Tables.{HasOctets};
ghost use Rattle.jt_platform.specs.History.{rows_after};
ghost use Rattle.jt_position.specs.Fixes.{IsFix};
ghost use Rattle.jt_store.specs.Vaults.{accepted_count};
ghost use Rattle.std.specs.FinMap.{empty};
ghost use Rattle.jt_terminal_rule.specs.declared.state.Event.TheVariants.{Opened, Tick};
ghost use Rattle.jt_value.specs.Sameness.{key_of};
ghost use Rattle.jt_terminal_steps.specs.Running.{IsEvent, IsSound};
ghost use Rattle.jt_value.specs.declared.limits.TheConstants.{FIX_LIMIT, ROW_LIMIT};
ghost use Rattle.jt_play.specs.declared.error.WorldError.TheVariants as refused;
ghost use Rattle.jt_script.specs.declared.world_event.WorldEvent.TheVariants as asked;
ghost use Rattle.jt_octets.specs.Reaching.{Leads, Reached};
ghost use Rattle.jt_octets.specs.Steps.{RestartPlatform, after};
ghost use Rattle.jt_octets.specs.World.{line_at};

use crate::error::WorldError;
use crate::identity::Identity;
use crate::laws::law_asked;
use crate::line::Line;
use crate::tally::{Tally, tally_all, tally_entries};
use jt_header::law_of_contents;
use jt_platform::{Entry, Fleet, Hub, law_answers, law_histories};
use jt_position::Fix;
use jt_script::WorldEvent;
use jt_session::{End, Fed};
use jt_store::{MemKeeper, MemVault, Row, StoreError};
use jt_stream::{law_frames, law_front, law_one_octet};
use jt_terminal::{Terminal, TerminalLine};
use jt_terminal_answers::first_params;
use jt_terminal_rule::{Event, Settings, law_rule};
use jt_value::limits::{FIX_LIMIT, ROW_LIMIT};
use jt_value::{Edition, Memory, Octets, Phone, Seq};
use std::alloc::Global;
use std::marker::Model;

// A unit whose acceptance the terminal was told: how many units were accepted then, and how many of the others stand before it.
#[derive(Clone, Copy)]
pub(crate) struct Told {
    accepted: usize,
    older: u64,
}

// No more lines have a number.
const MOST_LINES: usize = 0xffff_ffff;

// The clock stands still there.
const LAST_MOMENT: u64 = 0x8000_0000_0000_0000;

// One terminal over a vault in memory, one hub over a keeper in memory, and the lines between them.
#[derive(Drop)]
pub(crate) struct Stage {
    terminal: Terminal<MemVault>,
    hub: Hub<MemKeeper>,
    lines: Vec<Line>,
    ears: TerminalLine,
    // Whether they stand for what the terminal read of the newest line.
    hears: bool,
    // The histories of the hubs before this one.
    past: Vec<Seq<Entry>>,
    told: Vec<Told>,
    clock: u64,
}

impl Model for Stage {
    ghost use Rattle.std.specs.Coded.{codes};
    ghost use Rattle.jt_subpacket.specs.Stored.{partial_code};
    ghost use Rattle.jt_params.specs.contracts.table.ParamTable as params;
    ghost use Rattle.jt_regions.specs.contracts.region_table.RegionTable as regions;
    ghost use Rattle.jt_play.specs.Holding.{Hears, IsClock, IsRunning, lines_in, past_of, play_of, taken_on, told_of};
    ghost use Rattle.jt_play.specs.Playing.{Play};

    ghost Value = { Play };

    ghost coded = { Prim.hlevel (codes, partial_code, params.the_row.coded, regions.the_row.coded) };

    ghost view = { λ w. play_of w.terminal w.hub w.lines.items (past_of w.past.items) (told_of w.told.items) w.clock };

    ghost invariant = { λ w. IsRunning w.terminal w.hub w.lines.items × Hears w.hears w.ears (taken_on (lines_in w.lines.items)) × IsClock w.terminal w.clock };
}

// The octets of frames, one after another.
fn joined(alloc: Global, frames: &[Octets]) -> Result<Vec<u8>, Memory>
    ensures { IfOk result (λ all. all.items ≡ flat_map (λ frame. frame) frames.now) }
{
    let mut all = Vec::new(alloc);
    for frame in frames {
        all.extend_from_slice(frame.as_slice())?;
    }
    Ok(all)
}

// The newest line is written these octets, where there is one.
fn write_last(lines: &mut Vec<Line>, octets: &[u8]) -> Result<(), Memory>
    ensures ok { OnOk result (lines.new.items ≡ wrote_last lines.old.items octets.now) }
    ensures err { OnErr result (lines.new.items ≡ lines.old.items) }
{
    if lines.is_empty() {
        return Ok(());
    }
    let last = lines.len() - 1;
    lines[last].write(octets)
}

// Frames go up the newest line: whether there was room.
fn send(alloc: Global, lines: &mut Vec<Line>, frames: &[Octets]) -> bool
    ensures sent { result ≡ true →
        lines.new.items ≡ wrote_last lines.old.items (flat_map (λ frame. frame) frames.now) }
    ensures unsent { result ≡ false → lines.new.items ≡ lines.old.items }
{
    match joined(alloc, frames) {
        Ok(octets) => write_last(lines, octets.as_slice()).is_ok(),
        Err(_) => false,
    }
}

// The platform's ends of all lines are gone.
fn shut_all(lines: &mut Vec<Line>)
    ensures { lines.new.items ≡ shut_lines lines.old.items }
{
    let count = lines.len();
    let mut place = 0;
    while place < count {
        lines[place].shut();
        place += 1;
    }
}

// Makes a place for a history behind those that are kept.
fn make_place(alloc: Global, past: &mut Vec<Seq<Entry>>) -> Result<usize, Memory>
    ensures ok { IfOk result (λ place. (place ≡ length past.old.items)
        × (past.new.items ≡ past.old.items ++ [] ∷ [])) }
    ensures err { OnErr result (past.new.items ≡ past.old.items) }
{
    let place = past.len();
    past.push(Seq::new(alloc))?;
    Ok(place)
}

// A history stands in a place.
fn keep_history(past: &mut Vec<Seq<Entry>>, place: usize, history: Seq<Entry>)
    requires { place < length past.old.items }
    ensures { past.new.items ≡ set past.old.items place history }
{
    past[place] = history;
}

// Whether a session ended for want of memory, or for a fault of the keeper.
fn is_short(fed: Fed) -> bool
    ensures { result ≡ is_short fed }
{
    matches!(fed, Fed::Stop(End::StoreFault | End::Memory))
}

// The same entries again.
fn copies(alloc: Global, entries: &[Entry]) -> Result<Seq<Entry>, Memory>
    ensures { IfOk result (λ copies. copies ≡ entries.now) }
{
    let mut all = Seq::new(alloc);
    for entry in entries {
        let copy = entry.copy(alloc)?;
        all.push(copy)?;
    }
    Ok(all)
}

// So many octets, or as many as there are.
fn count_or_all(count: Option<u32>) -> u64
    ensures { IfSome count (λ some. result ≡ some) }
{
    match count {
        Some(count) => u64::from(count),
        None => u64::MAX,
    }
}

// A line is opened behind the others, and the hub has room for its Close: whether all was done.
fn add_line(alloc: Global, hub: &mut Hub<MemKeeper>, lines: &mut Vec<Line>) -> bool
    ensures room { HasMoreRoom hub.old hub.new }
    ensures added { result ≡ true → (lines.new.items
        ≡ lines.old.items ++ first_line (length lines.old.items + 1) ∷ [])
        × (length lines.old.items + 1 ≤ hub.new.reserved) }
    ensures unadded { result ≡ false → lines.new.items ≡ lines.old.items }
{
    if lines.len() >= MOST_LINES {
        return false;
    }
    let number = lines.len() as u32 + 1;
    if hub.reserve(number).is_err() {
        return false;
    }
    match Line::new(alloc, number) {
        Ok(line) => lines.push(line).is_ok(),
        Err(_) => false,
    }
}

// The unit in this place was told with so many before it, or none was.
fn note_told(told: &mut Vec<Told>, place: usize, accepted: usize, places: &[u64])
    requires { place < length told.old.items }
    ensures { told.new.items ≡ noted_at told.old.items place accepted places.now }
{
    match places.first() {
        Some(older) => {
            told[place] = Told {
                accepted,
                older: *older,
            };
        }
        None => told.truncate(place),
    }
}

// A hub without entries over an empty keeper.
fn new_hub(alloc: Global, fleet: Fleet, secret: Octets) -> Result<Hub<MemKeeper>, Memory>
    ensures { IfOk result (λ hub. IsNewHub fleet secret hub) }
{
    let keeper = MemKeeper::new(alloc, ROW_LIMIT, Seq::new(alloc));
    match Hub::start(alloc, keeper, fleet, secret) {
        Ok(hub) => Ok(hub),
        Err(_) => Err(Memory),
    }
}

// The parameters that a terminal begins with have octets. The start of a terminal does not say so.
fn look_at_params(alloc: Global, settings: &Settings) -> Result<(), Memory>
    ensures { IfOk result (λ done. HasOctets (set_params (first_params settings.now) empty)) }
{
    let _params = first_params(alloc, settings)?;
    Ok(())
}

// A terminal without a line over an empty vault.
fn new_terminal(alloc: Global, settings: Settings) -> Result<Terminal<MemVault>, Memory>
    requires { AreSettings settings }
    ensures new { IfOk result (λ terminal. IsNewTerminal settings terminal) }
    ensures sound { IfOk result (λ terminal. IsSound (Some terminal.vault.held) terminal.state) }
{
    law_rule();
    look_at_params(alloc, &settings)?;
    let vault = MemVault::new(alloc, FIX_LIMIT, Seq::new(alloc));
    match Terminal::start(alloc, vault, settings) {
        Ok(terminal) => Ok(terminal),
        Err(_) => Err(Memory),
    }
}

impl Stage {
    /// The world in which nothing has happened: this terminal in its edition of 2013, without a line over an empty vault that takes
    /// 100,000 fixes, and a hub of this fleet and this secret over an empty keeper of at most 1,000,000,000 rows for a phone. Memory
    /// comes where memory ran out. The settings of 2013 are good; that they begin is this project's rule.
    pub(crate) fn new(
        alloc: Global,
        identity: &Identity,
        fleet: Fleet,
        secret: Octets,
    ) -> Result<Stage, Memory>
        requires good { AreSettings identity.now.e2013 }
        ensures new { IfOk result (λ stage. stage ≡ first_play identity.now.e2013 (record {
          fleet = fleet;
          secret = secret;
          limit = ROW_LIMIT;
        })) }
        ensures reached { IfOk result (λ stage. Reached stage.world) }
    {
        let settings = identity.settings(alloc, Edition::E2013)?;
        let terminal = new_terminal(alloc, settings)?;
        let hub = new_hub(alloc, fleet, secret)?;
        Ok(Stage {
            terminal,
            hub,
            lines: Vec::new(alloc),
            ears: TerminalLine::new(alloc),
            hears: false,
            past: Vec::new(alloc),
            told: Vec::new(alloc),
            clock: 0,
        })
    }

    // The terminal meets an event that brings no response and opens no line: whether it was done whole.
    fn act(&mut self, alloc: Global, event: Event) -> bool
        requires event { IsEvent self.old.state event }
        requires silent { response event ≡ None }
        requires other { IsNoOpening event }
        requires moment { IsMoment self.old.clock event }
        ensures leads { Leads self.old.world self.new.world }
        ensures recorded { recorded_in self.new ≡ recorded_in self.old }
        ensures phone { phone_in self.new ≡ phone_in self.old }
        ensures whole { result ≡ true → self.new ≡ meets self.old event }
    {
        law_rule();
        match self.terminal.event(alloc, event) {
            Ok(actions) => {
                if send(alloc, &mut self.lines, actions.frames.as_slice()) {
                    return true;
                }
                let _lost = self.terminal.event(alloc, Event::Lost);
                false
            }
            Err(_) => false,
        }
    }

    // A fix is recorded behind the others.
    fn record(&mut self, alloc: Global, fix: &Fix) -> Result<(), StoreError>
        ensures leads { Leads self.old.world self.new.world }
        ensures ok { OnOk result (self.new ≡ records self.old fix.now) }
        ensures err { OnErr result (self.new ≡ self.old) }
        ensures full { FullWhere self.old.held result }
        ensures fix { IsFix fix.now }
    {
        law_rule();
        let _octets = fix.as_slice();
        self.terminal.note_fix(alloc, fix)
    }

    // The line in use is lost, where there is one.
    fn lose(&mut self, alloc: Global) -> bool
        ensures leads { Leads self.old.world self.new.world }
        ensures recorded { recorded_in self.new ≡ recorded_in self.old }
        ensures phone { phone_in self.new ≡ phone_in self.old }
        ensures whole { result ≡ true → self.new ≡ loses self.old }
    {
        if self.terminal.is_up() {
            self.act(alloc, Event::Lost)
        } else {
            true
        }
    }

    // The clock goes up, and the terminal is told.
    fn tick(&mut self, alloc: Global, by: u32) -> bool
        ensures leads { Leads self.old.world self.new.world }
        ensures recorded { recorded_in self.new ≡ recorded_in self.old }
        ensures phone { phone_in self.new ≡ phone_in self.old }
        ensures whole { result ≡ true → self.new ≡ ticks self.old by }
    {
        let more = u64::from(by);
        self.clock = if LAST_MOMENT - self.clock <= more {
            LAST_MOMENT
        } else {
            self.clock + more
        };
        self.act(alloc, Event::Tick(self.clock))
    }

    // The terminal is told the moment.
    fn tell(&mut self, alloc: Global) -> bool
        ensures leads { Leads self.old.world self.new.world }
        ensures recorded { recorded_in self.new ≡ recorded_in self.old }
        ensures phone { phone_in self.new ≡ phone_in self.old }
        ensures whole { result ≡ true → self.new ≡ meets self.old (Tick self.old.clock) }
    {
        self.act(alloc, Event::Tick(self.clock))
    }

    // The terminal beats so many times.
    fn beat(&mut self, alloc: Global, count: u32) -> bool
        ensures leads { Leads self.old.world self.new.world }
        ensures recorded { recorded_in self.new ≡ recorded_in self.old }
        ensures phone { phone_in self.new ≡ phone_in self.old }
        ensures whole { result ≡ true → self.new ≡ beats count self.old }
    {
        let mut left = count;
        while left > 0 {
            if !self.act(alloc, Event::Beat) {
                return false;
            }
            left -= 1;
        }
        true
    }

    // The platform's end of a line is closed, if it is open.
    fn cut(&mut self, place: usize)
        requires opened { place < length self.old.world.lines }
        ensures leads { Leads self.old.world self.new.world }
        ensures recorded { recorded_in self.new ≡ recorded_in self.old }
        ensures phone { phone_in self.new ≡ phone_in self.old }
        ensures whole { self.new ≡ record self.old { world = cuts self.old.world place } }
        ensures count { length self.new.world.lines ≡ length self.old.world.lines }
    {
        if self.lines[place].is_open() {
            self.lines[place].cut(&mut self.hub);
        }
    }

    // The session of a line takes one octet.
    fn take_up(&mut self, place: usize) -> Fed
        requires opened { place < length self.old.world.lines }
        requires is_open { (line_at self.old.world.lines place).is_open ≡ true }
        requires going { IsSome (line_at self.old.world.lines place).session }
        requires left { (line_at self.old.world.lines place).up.taken
            < length (line_at self.old.world.lines place).up.octets }
        requires reached { ∥ Reached self.old.world ∥₁ }
        ensures leads { Leads self.old.world self.new.world }
        ensures recorded { recorded_in self.new ≡ recorded_in self.old }
        ensures phone { phone_in self.new ≡ phone_in self.old }
        ensures whole { is_short result ≡ false → self.new ≡ record self.old {
          world = takes_octet self.old.world place (line_at self.old.world.lines place).session;
        } }
        ensures is_open { (line_at self.new.world.lines place).is_open ≡ true }
        ensures count { length self.new.world.lines ≡ length self.old.world.lines }
    {
        law_asked();
        law_answers();
        law_histories();
        self.lines[place].take(&mut self.hub)
    }

    // The platform's end of a line, which is open, is closed where its session ended by itself.
    fn close(&mut self, place: usize)
        requires opened { place < length self.old.world.lines }
        requires is_open { (line_at self.old.world.lines place).is_open ≡ true }
        ensures leads { Leads self.old.world self.new.world }
        ensures recorded { recorded_in self.new ≡ recorded_in self.old }
        ensures phone { phone_in self.new ≡ phone_in self.old }
        ensures whole { self.new ≡ record self.old { world = closes place self.old.world } }
        ensures count { length self.new.world.lines ≡ length self.old.world.lines }
    {
        if self.lines[place].is_over() {
            self.cut(place);
        }
    }

    // Whether the session of a line takes an octet more.
    fn takes_more(&self, place: usize) -> bool
        requires opened { place < length self.now.world.lines }
        ensures { result ≡ goes_on (line_at self.now.world.lines place) }
    {
        self.lines[place].may_take()
    }

    // The session of a line takes one octet, if one is left and it goes on, and where it ended by itself its end is closed: whether it
    // took one. Memory where it ended for want of memory.
    fn take_next(&mut self, place: usize) -> Result<bool, Memory>
        requires opened { place < length self.old.world.lines }
        requires reached { ∥ Reached self.old.world ∥₁ }
        ensures leads { Leads self.old.world self.new.world }
        ensures recorded { recorded_in self.new ≡ recorded_in self.old }
        ensures phone { phone_in self.new ≡ phone_in self.old }
        ensures whole { TakesNext self.old self.new place result }
        ensures count { length self.new.world.lines ≡ length self.old.world.lines }
    {
        if !self.takes_more(place) {
            return Ok(false);
        }
        let fed = self.take_up(place);
        self.close(place);
        if is_short(fed) {
            return Err(Memory);
        }
        Ok(true)
    }

    // The session of a line takes so many octets, or those that are left where they are fewer: whether all was done.
    fn take_many(&mut self, place: usize, most: u64) -> bool
        requires opened { place < length self.old.world.lines }
        requires reached { ∥ Reached self.old.world ∥₁ }
        ensures leads { Leads self.old.world self.new.world }
        ensures recorded { recorded_in self.new ≡ recorded_in self.old }
        ensures phone { phone_in self.new ≡ phone_in self.old }
        ensures whole { result ≡ true →
            self.new ≡ record self.old { world = takes most self.old.world place } }
        ensures count { length self.new.world.lines ≡ length self.old.world.lines }
    {
        let mut left = most;
        while left > 0 {
            match self.take_next(place) {
                Ok(true) => left -= 1,
                Ok(false) => return true,
                Err(_) => return false,
            }
        }
        true
    }

    // The session of a line takes so many octets, or all where there is no count: whether all was done.
    fn up(&mut self, place: usize, count: Option<u32>) -> bool
        requires opened { place < length self.old.world.lines }
        requires reached { ∥ Reached self.old.world ∥₁ }
        ensures leads { Leads self.old.world self.new.world }
        ensures recorded { recorded_in self.new ≡ recorded_in self.old }
        ensures phone { phone_in self.new ≡ phone_in self.old }
        ensures whole { result ≡ true → self.new ≡ takes_up self.old place count }
    {
        let most = count_or_all(count);
        if !self.take_many(place, most) {
            return false;
        }
        match count {
            Some(_) => true,
            None => !self.takes_more(place),
        }
    }

    // Whether an octet may move on the line in use.
    fn moves(&self) -> bool
        ensures { result ≡ moves self.now }
    {
        if !self.terminal.is_up() {
            return false;
        }
        let count = self.lines.len();
        if count == 0 {
            return false;
        }
        self.lines[count - 1].moves()
    }

    // All octets up the newest line, if there is one: whether all was done.
    fn up_newest(&mut self) -> bool
        requires reached { ∥ Reached self.old.world ∥₁ }
        ensures leads { Leads self.old.world self.new.world }
        ensures recorded { recorded_in self.new ≡ recorded_in self.old }
        ensures phone { phone_in self.new ≡ phone_in self.old }
        ensures whole { result ≡ true → self.new ≡ goes_up self.old }
    {
        let count = self.lines.len();
        if count > 0 {
            return self.up(count - 1, None);
        }
        true
    }

    // All octets up the line in use, and then all down: whether all was done.
    fn round(&mut self, alloc: Global) -> bool
        requires reached { ∥ Reached self.old.world ∥₁ }
        ensures leads { Leads self.old.world self.new.world }
        ensures recorded { recorded_in self.new ≡ recorded_in self.old }
        ensures phone { phone_in self.new ≡ phone_in self.old }
        ensures whole { result ≡ true → self.new ≡ round self.old }
    {
        if !self.up_newest() {
            return false;
        }
        self.down(alloc, None)
    }

    // The terminal is told the moment, and then octets move until none is left to move: whether all was done. Each round moves an
    // octet, and no memory holds as many as there may be rounds.
    fn run(&mut self, alloc: Global) -> bool
        requires reached { ∥ Reached self.old.world ∥₁ }
        ensures leads { Leads self.old.world self.new.world }
        ensures recorded { recorded_in self.new ≡ recorded_in self.old }
        ensures phone { phone_in self.new ≡ phone_in self.old }
        ensures whole { result ≡ true → RunsTo self.old self.new }
    {
        if !self.tell(alloc) {
            return false;
        }
        let mut left = u64::MAX;
        while self.moves() {
            if left == 0 {
                return false;
            }
            if !self.round(alloc) {
                return false;
            }
            left -= 1;
        }
        true
    }

    // The terminal starts anew with these settings. The line in use is no more.
    fn begin(&mut self, alloc: Global, settings: Settings) -> Result<(), StoreError>
        requires good { AreSettings settings }
        requires own { key_of settings.phone ≡ key_of self.old.world.terminal.phone }
        ensures leads { Leads self.old.world self.new.world }
        ensures recorded { recorded_in self.new ≡ recorded_in self.old }
        ensures ok { OnOk result (self.new ≡ begins self.old settings) }
        ensures err { OnErr result (self.new ≡ self.old) }
    {
        law_rule();
        self.terminal.restart(alloc, settings)
    }

    // The terminal starts anew in this edition, and is told the moment: whether all was done.
    fn restart_in(
        &mut self,
        alloc: Global,
        identity: &Identity,
        edition: &mut Edition,
        next: Edition,
    ) -> bool
        requires good { (e : Edition) → AreSettings (settings_in identity.now e) }
        requires own { (e : Edition) → key_of (settings_in identity.now e).phone
            ≡ key_of self.old.world.terminal.phone }
        ensures leads { Leads self.old.world self.new.world }
        ensures recorded { recorded_in self.new ≡ recorded_in self.old }
        ensures phone { (phone_in self.new ≡ phone_in self.old)
            ⊎ (phone_in self.new ≡ (settings_in identity.now next).phone) }
        ensures whole { result ≡ true →
            self.new ≡ starts_again self.old (settings_in identity.now next) }
        ensures edition { result ≡ true → edition.new ≡ next }
        ensures present { (edition.new ≡ edition.old) ⊎ (edition.new ≡ next) }
    {
        let Ok(settings) = identity.settings(alloc, next) else {
            return false;
        };
        match self.begin(alloc, settings) {
            Ok(()) => {
                *edition = next;
                self.tell(alloc)
            }
            Err(_) => false,
        }
    }

    // A new line is opened: whether all was done.
    fn open_next(&mut self, alloc: Global) -> bool
        ensures leads { Leads self.old.world self.new.world }
        ensures recorded { recorded_in self.new ≡ recorded_in self.old }
        ensures phone { phone_in self.new ≡ phone_in self.old }
        ensures whole { result ≡ true → self.new ≡ meets self.old Opened }
    {
        law_rule();
        if !add_line(alloc, &mut self.hub, &mut self.lines) {
            return false;
        }
        self.ears = TerminalLine::new(alloc);
        self.hears = true;
        match self.terminal.event(alloc, Event::Opened) {
            Ok(actions) => {
                if send(alloc, &mut self.lines, actions.frames.as_slice()) {
                    return true;
                }
                let _lost = self.terminal.event(alloc, Event::Lost);
                false
            }
            Err(_) => false,
        }
    }

    // The line in use is lost, and a new one is opened: whether all was done.
    fn open(&mut self, alloc: Global) -> bool
        ensures leads { Leads self.old.world self.new.world }
        ensures recorded { recorded_in self.new ≡ recorded_in self.old }
        ensures phone { phone_in self.new ≡ phone_in self.old }
        ensures whole { result ≡ true → self.new ≡ opens self.old }
    {
        if !self.lose(alloc) {
            return false;
        }
        self.open_next(alloc)
    }

    // Whether an octet is left for the terminal on the line in use.
    fn reads_more(&self) -> bool
        ensures { result ≡ reads_more self.now }
    {
        if !self.terminal.is_up() {
            return false;
        }
        let count = self.lines.len();
        if count == 0 {
            return false;
        }
        self.lines[count - 1].has_down()
    }

    // The terminal reads one octet of the line in use, if one is left: whether it did. Memory where that was cut short.
    fn read_next(&mut self, alloc: Global) -> Result<bool, Memory>
        ensures leads { Leads self.old.world self.new.world }
        ensures recorded { recorded_in self.new ≡ recorded_in self.old }
        ensures phone { phone_in self.new ≡ phone_in self.old }
        ensures whole { ReadsNext self.old self.new result }
    {
        if !self.reads_more() {
            return Ok(false);
        }
        let count = self.lines.len();
        if count == 0 {
            return Err(Memory);
        }
        if !self.lines[count - 1].may_read() {
            return Err(Memory);
        }
        self.read_at(alloc, count - 1)?;
        Ok(true)
    }

    // The terminal reads one octet of the newest line, which is in this place. Memory where that was cut short.
    fn read_at(&mut self, alloc: Global, place: usize) -> Result<(), Memory>
        requires last { length self.old.world.lines ≡ place + 1 }
        requires in_use { self.old.world.terminal.using ≡ true }
        requires left { (line_at self.old.world.lines place).down.taken
            < length (line_at self.old.world.lines place).down.octets }
        requires short { (line_at self.old.world.lines place).down.taken + 1 < 2 ^ 63 }
        ensures leads { Leads self.old.world self.new.world }
        ensures recorded { recorded_in self.new ≡ recorded_in self.old }
        ensures phone { phone_in self.new ≡ phone_in self.old }
        ensures whole { OnOk result (self.new ≡ reads_one self.old) }
    {
        law_rule();
        law_of_contents();
        law_front();
        law_one_octet();
        law_frames();
        if !self.hears {
            return Err(Memory);
        }
        let count = self.told.len();
        let accepted = self.terminal.vault().accepted();
        self.told.push(Told { accepted, older: 0 })?;
        let octet = self.lines[place].next();
        match self.ears.feed(alloc, &mut self.terminal, &[octet]) {
            Ok(actions) => {
                self.lines[place].pass();
                self.hears = actions.end.is_none();
                note_told(&mut self.told, count, accepted, actions.told.as_slice());
                if send(alloc, &mut self.lines, actions.frames.as_slice()) {
                    return Ok(());
                }
                let _lost = self.terminal.event(alloc, Event::Lost);
                Err(Memory)
            }
            Err(_) => {
                self.hears = false;
                if self.terminal.vault().accepted() == accepted {
                    self.told.truncate(count);
                } else {
                    self.lines[place].pass();
                }
                Err(Memory)
            }
        }
    }

    // The terminal reads so many octets of the line in use, or those that are left where they are fewer: whether all was done.
    fn read_many(&mut self, alloc: Global, most: u64) -> bool
        ensures leads { Leads self.old.world self.new.world }
        ensures recorded { recorded_in self.new ≡ recorded_in self.old }
        ensures phone { phone_in self.new ≡ phone_in self.old }
        ensures whole { result ≡ true → self.new ≡ reads most self.old }
    {
        let mut left = most;
        while left > 0 {
            match self.read_next(alloc) {
                Ok(true) => left -= 1,
                Ok(false) => return true,
                Err(_) => return false,
            }
        }
        true
    }

    // The terminal reads so many octets of the line in use, or all where there is no count: whether all was done.
    fn down(&mut self, alloc: Global, count: Option<u32>) -> bool
        ensures leads { Leads self.old.world self.new.world }
        ensures recorded { recorded_in self.new ≡ recorded_in self.old }
        ensures phone { phone_in self.new ≡ phone_in self.old }
        ensures whole { result ≡ true → self.new ≡ reads_down self.old count }
    {
        let most = count_or_all(count);
        if !self.read_many(alloc, most) {
            return false;
        }
        match count {
            Some(_) => true,
            None => !self.reads_more(),
        }
    }

    // All ends at the platform are gone, and a new hub begins over the keeper.
    fn restart_platform(&mut self, alloc: Global) -> Result<(), Memory>
        requires own { AreOf (key_of self.old.world.terminal.phone) self.old.world.history }
        ensures leads { Leads self.old.world self.new.world }
        ensures recorded { recorded_in self.new ≡ recorded_in self.old }
        ensures phone { phone_in self.new ≡ phone_in self.old }
        ensures ok { OnOk result (self.new
            ≡ record self.old { world = after self.old.world RestartPlatform }) }
        ensures err { OnErr result (self.new ≡ self.old) }
    {
        law_histories();
        match make_place(alloc, &mut self.past) {
            Ok(place) => {
                shut_all(&mut self.lines);
                keep_history(&mut self.past, place, self.hub.restart());
                Ok(())
            }
            Err(Memory) => Err(Memory),
        }
    }

    // How many entries the present hub has.
    pub(crate) fn entry_count(&self) -> usize
        ensures { result ≡ length self.now.world.history }
    {
        self.hub.history().len()
    }

    // The entries of the present hub behind so many.
    pub(crate) fn entries_behind(&self, alloc: Global, mark: usize) -> Result<Seq<Entry>, Memory>
        ensures { IfOk result (λ entries. entries ≡ behind mark self.now.world.history) }
    {
        let all = self.hub.history();
        if mark >= all.len() {
            return Ok(Seq::new(alloc));
        }
        copies(alloc, &all[mark..])
    }

    /// How many fixes were recorded, and how many of them are accepted.
    pub(crate) fn counts(&self) -> (u64, u64)
        ensures counts { (result.0 ≡ at_most_u64 (length self.now.held.recorded))
            × (result.1 ≡ at_most_u64 (accepted_count self.now.held)) }
        ensures held { self.now.held.recorded ≡ recorded_in self.now }
    {
        self.terminal.counts()
    }

    /// The rows that the entries of all hubs added for a phone, and the fixes in them. Each entry is looked at once, and nothing is
    /// copied.
    pub(crate) fn tally(&self, phone: &Phone) -> Tally
        ensures { result ≡ tally_of (rows_after (key_of phone.now) []
            (self.now.world.history ++ self.now.world.past)) }
    {
        let past = tally_all(self.past.as_slice(), phone);
        past.plus(tally_entries(self.hub.history(), phone))
    }

    /// The rows that the hub's keeper has of the terminal's phone, which has these digits, the oldest first.
    pub(crate) fn rows(&self, phone: &Phone) -> &[Row]
        requires own { AreOf (key_of self.now.world.terminal.phone) self.now.world.history }
        requires same { key_of phone.now ≡ key_of self.now.world.terminal.phone }
        ensures { result.now ≡ self.now.world.keeper.rows }
    {
        law_histories();
        let _entries = self.hub.history();
        self.hub.keeper().rows(phone)
    }

    // The place of a line that was opened.
    fn place_of(&self, line: u32) -> Option<usize>
        ensures opened { IfSome result (λ place. place < length self.now.world.lines) }
        ensures place { IfSome result (λ place. place ≡ line - 1) }
        ensures none { is_none result ≡ not (is_opened self.now.world line) }
    {
        let count = self.lines.len();
        let number = line as usize;
        if number == 0 || count < number {
            return None;
        }
        Some(number - 1)
    }

    // A line of a script; false comes where the event was cut short. The settings of both editions have the digits of the terminal's
    // phone.
    pub(crate) fn step(
        &mut self,
        alloc: Global,
        event: WorldEvent,
        identity: &Identity,
        edition: &mut Edition,
    ) -> Result<bool, WorldError>
        requires good { (e : Edition) → AreSettings (settings_in identity.now e) }
        requires same { (e : Edition) → key_of (settings_in identity.now e).phone
            ≡ key_of self.old.world.terminal.phone }
        requires own { AreOf (key_of self.old.world.terminal.phone) self.old.world.history }
        requires reached { ∥ Reached self.old.world ∥₁ }
        ensures leads { Leads self.old.world self.new.world }
        ensures recorded { RecordsAtMost event (recorded_in self.old) (recorded_in self.new) }
        ensures phone { TakesPhone identity.now edition.old event (phone_in self.old)
            (phone_in self.new) }
        ensures ok { IsPlayed identity.now edition.old self.old event → result ≡ Ok true →
            self.new ≡ play_after (settings_in identity.now) self.old event }
        ensures ran { event ≡ asked.Run → result ≡ Ok true → RunsTo self.old self.new }
        ensures same { IfErr result (λ error. self.new ≡ self.old) }
        ensures edition { IfErr result (λ error. edition.new ≡ edition.old) }
        ensures next { result ≡ Ok true → edition.new ≡ edition_by edition.old event }
        ensures present { TakesEdition event edition.old edition.new }
        ensures fix { result ≡ Ok true → HasFix event }
        ensures no_line { is_no_line result ≡ names_no_line self.old.world event }
        ensures number { (line : ℕ) → result ≡ Err (refused.NoLine line) → Names event line }
        ensures full { (limit : ℕ) → result ≡ Err (refused.Full limit) →
            (limit ≡ FIX_LIMIT) × (finds_full FIX_LIMIT self.old event ≡ true) }
        ensures room { IfOk result (λ done. finds_full FIX_LIMIT self.old event ≡ false) }
    {
        match event {
            WorldEvent::Fix(latitude) => match Fix::at(alloc, latitude) {
                Ok(fix) => match self.record(alloc, &fix) {
                    Ok(()) => Ok(true),
                    Err(StoreError::Full(limit)) => Err(WorldError::Full(limit)),
                    Err(_) => Err(WorldError::Memory),
                },
                Err(Memory) => Err(WorldError::Memory),
            },
            WorldEvent::Raw(fix) => match self.record(alloc, &fix) {
                Ok(()) => Ok(true),
                Err(StoreError::Full(limit)) => Err(WorldError::Full(limit)),
                Err(_) => Err(WorldError::Memory),
            },
            WorldEvent::Up { line, count } => match self.place_of(line) {
                Some(place) => Ok(self.up(place, count)),
                None => Err(WorldError::NoLine(line)),
            },
            WorldEvent::Down(count) => Ok(self.down(alloc, count)),
            WorldEvent::Cut(line) => match self.place_of(line) {
                Some(place) => {
                    self.cut(place);
                    Ok(true)
                }
                None => Err(WorldError::NoLine(line)),
            },
            WorldEvent::Tick(by) => Ok(self.tick(alloc, by)),
            WorldEvent::Beat(count) => Ok(self.beat(alloc, count)),
            WorldEvent::Lost => Ok(self.lose(alloc)),
            WorldEvent::Open => Ok(self.open(alloc)),
            WorldEvent::RestartPlatform => Ok(self.restart_platform(alloc).is_ok()),
            WorldEvent::RestartTerminal => {
                let present = *edition;
                Ok(self.restart_in(alloc, identity, edition, present))
            }
            WorldEvent::RestartAs(next) => Ok(self.restart_in(alloc, identity, edition, next)),
            WorldEvent::Run => Ok(self.run(alloc)),
        }
    }
}
