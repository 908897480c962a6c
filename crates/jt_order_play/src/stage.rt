//! The parts of the world of orders that run, and what a line of a script does to them.

ghost use Rattle.std.specs.Prelude.{◌≡◌, ◌+◌, ◌-◌, ◌<◌, ◌≤◌, ◌^◌, ◌++◌, [], ◌∷◌, length, set, true, false, ℕ, Err, Ok, None, ◌↔◌, is_none, not, IfErr, IfOk, IfSome, IsSome, OnErr, OnOk, Some};
ghost use Rattle.std.specs.List.{flat_map};
ghost use Rattle.jt_value.specs.Sameness.{key_of};
ghost use Rattle.jt_value.specs.declared.limits.TheConstants.{FIX_LIMIT, ROW_LIMIT};
ghost use Rattle.jt_platform.specs.Laws.{AreOf};
ghost use Rattle.jt_terminal_rule.specs.Messages.{AreSettings};
ghost use Rattle.jt_terminal_rule.specs.Rule.{first_params, response};
ghost use Rattle.jt_terminal_rule.specs.Tables.{set_params};
ghost use Rattle.jt_params.specs.Tables.{HasOctets};
ghost use Rattle.std.specs.FinMap.{empty};
ghost use Rattle.jt_terminal_rule.specs.declared.state.Event.TheVariants.{Opened, Tick};
ghost use Rattle.jt_terminal_steps.specs.Running.{IsEvent, IsSound};
ghost use Rattle.jt_order.specs.declared.book.TheConstants.{ORDER_LIMIT};
ghost use Rattle.jt_octets.specs.World.{line_at};
ghost use Rattle.jt_play.specs.Holding.{HasMoreRoom, IsMoment, IsNewHub, IsNewTerminal, IsNoOpening};
ghost use Rattle.jt_order_terminal.specs.Terminals.{IsNoMessage};
ghost use Rattle.jt_order_play.specs.Scripts.{Names, first_play};
ghost use Rattle.jt_order_octets.specs.Reaching.{Leads, Reached};
ghost use Rattle.jt_order_octets.specs.Steps.{Issues, RestartPlatform, after};
ghost use Rattle.jt_order_play.specs.Playing.{ComesTo, RunsTo, begins, closes, cuts, finds_full, goes_on, goes_up, is_opened, issues, loses, meets, moves, names_no_line, offers_all, offers_at, opens, reads, reads_down, reads_more, reads_one, round, starts_again, takes, takes_octet, takes_up, ticks, with_world};
ghost use Rattle.jt_order_play.specs.Holding.{IsNewOrderTerminal, ReadingLaws, ReadsNext, TakesNext, first_order_line, is_no_line, noted_at, shut_order_lines, wrote_last};
ghost use Rattle.jt_order_play.specs.declared.error.OrderWorldError.TheVariants as refused;

use crate::error::OrderWorldError;
use crate::event::OrderEvent;
use crate::line::Line;
use jt_header::law_of_contents;
use jt_order::{MemBook, MemLog, Order, OrderBook, Performed};
use jt_order_octets::law_order_world;
use jt_order_terminal::OrderTerminal;
use jt_order_turns::law_turns;
use jt_platform::{Entry, Fleet, Hub, law_answers, law_histories};
use jt_play::Identity;
use jt_store::{MemKeeper, MemVault, StoreError};
use jt_stream::{law_front, law_items, law_one_list, law_one_octet};
use jt_subpacket::law_of_packets;
use jt_terminal::Terminal;
use jt_terminal_answers::first_params;
use jt_terminal_rule::{Event, Settings, law_rule};
use jt_value::limits::{FIX_LIMIT, ROW_LIMIT};
use jt_value::{Edition, Memory, Octets, Seq};
use std::alloc::Global;
use std::marker::Model;

// A unit whose acceptance the terminal was told: how many units were accepted then, and how many of the others stand before it.
#[derive(Clone, Copy)]
pub(crate) struct Told {
    accepted: usize,
    older: u64,
}

// No more lines have a number.
const MOST_LINES: usize = 0xffff_ffff;

// The clock stands still there.
const LAST_MOMENT: u64 = 0x8000_0000_0000_0000;

// One order terminal over a vault and a log in memory, one hub over a keeper in memory, a book in memory, and the lines.
#[derive(Drop)]
pub(crate) struct Stage {
    terminal: OrderTerminal<MemVault, MemLog>,
    // Whether its stream stands for what it read of the newest line.
    hears: bool,
    hub: Hub<MemKeeper>,
    book: MemBook,
    // How many orders were issued.
    issued: u64,
    lines: Vec<Line>,
    // The histories of the hubs before this one.
    past: Vec<Seq<Entry>>,
    told: Vec<Told>,
    clock: u64,
}

impl Model for Stage {
    ghost use Rattle.std.specs.Coded.{codes};
    ghost use Rattle.jt_subpacket.specs.Stored.{partial_code};
    ghost use Rattle.jt_params.specs.contracts.table.ParamTable as params;
    ghost use Rattle.jt_regions.specs.contracts.region_table.RegionTable as regions;
    ghost use Rattle.jt_play.specs.Holding.{past_of};
    ghost use Rattle.jt_order_play.specs.Holding.{IsStage, order_play_of, told_places};
    ghost use Rattle.jt_order_play.specs.Playing.{OrderPlay};

    ghost Value = { OrderPlay };

    ghost coded = { Prim.hlevel (codes, partial_code, params.the_row.coded, regions.the_row.coded) };

    ghost view = { λ w. order_play_of w.terminal w.hub w.book.book w.lines.items (past_of w.past.items) (told_places w.told.items) w.clock };

    ghost invariant = { λ w. IsStage w.terminal w.hears w.hub w.book.book w.issued w.lines.items w.clock };
}

// The octets of frames, one after another.
fn joined(alloc: Global, frames: &[Octets]) -> Result<Vec<u8>, Memory>
    ensures { IfOk result (λ all. all.items ≡ flat_map (λ frame. frame) frames.now) }
{
    let mut all = Vec::new(alloc);
    for frame in frames {
        all.extend_from_slice(frame.as_slice())?;
    }
    Ok(all)
}

// The newest line is written these octets, where there is one.
fn write_last(lines: &mut Vec<Line>, octets: &[u8]) -> Result<(), Memory>
    ensures ok { OnOk result (lines.new.items ≡ wrote_last lines.old.items octets.now) }
    ensures err { OnErr result (lines.new.items ≡ lines.old.items) }
{
    if lines.is_empty() {
        return Ok(());
    }
    let last = lines.len() - 1;
    lines[last].write(octets)
}

// Frames go up the newest line: whether there was room.
fn send(alloc: Global, lines: &mut Vec<Line>, frames: &[Octets]) -> bool
    ensures sent { result ≡ true →
        lines.new.items ≡ wrote_last lines.old.items (flat_map (λ frame. frame) frames.now) }
    ensures unsent { result ≡ false → lines.new.items ≡ lines.old.items }
{
    match joined(alloc, frames) {
        Ok(octets) => write_last(lines, octets.as_slice()).is_ok(),
        Err(_) => false,
    }
}

// The platform's ends of all lines are gone.
fn shut_all(lines: &mut Vec<Line>)
    ensures { lines.new.items ≡ shut_order_lines lines.old.items }
{
    let count = lines.len();
    let mut place = 0;
    while place < count {
        lines[place].shut();
        place += 1;
    }
}

// Makes a place for a history behind those that are kept.
fn make_place(alloc: Global, past: &mut Vec<Seq<Entry>>) -> Result<usize, Memory>
    ensures ok { IfOk result (λ place. (place ≡ length past.old.items)
        × (past.new.items ≡ past.old.items ++ [] ∷ [])) }
    ensures err { OnErr result (past.new.items ≡ past.old.items) }
{
    let place = past.len();
    past.push(Seq::new(alloc))?;
    Ok(place)
}

// A history stands in a place.
fn keep_history(past: &mut Vec<Seq<Entry>>, place: usize, history: Seq<Entry>)
    requires { place < length past.old.items }
    ensures { past.new.items ≡ set past.old.items place history }
{
    past[place] = history;
}

// So many octets, or as many as there are.
fn count_or_all(count: Option<u32>) -> u64
    ensures { IfSome count (λ some. result ≡ some) }
{
    match count {
        Some(count) => u64::from(count),
        None => u64::MAX,
    }
}

// A line is opened behind the others, and the hub has room for its Close: whether all was done.
fn add_line(alloc: Global, hub: &mut Hub<MemKeeper>, lines: &mut Vec<Line>) -> bool
    ensures room { HasMoreRoom hub.old hub.new }
    ensures added { result ≡ true → (lines.new.items
        ≡ lines.old.items ++ first_order_line (length lines.old.items + 1) ∷ [])
        × (length lines.old.items + 1 ≤ hub.new.reserved) }
    ensures unadded { result ≡ false → lines.new.items ≡ lines.old.items }
{
    if lines.len() >= MOST_LINES {
        return false;
    }
    let number = lines.len() as u32 + 1;
    if hub.reserve(number).is_err() {
        return false;
    }
    match Line::new(alloc, number) {
        Ok(line) => lines.push(line).is_ok(),
        Err(_) => false,
    }
}

// The unit in this place was told with so many before it, or none was.
fn note_told(told: &mut Vec<Told>, place: usize, accepted: usize, places: &[u64])
    requires { place < length told.old.items }
    ensures { told.new.items ≡ noted_at told.old.items place accepted places.now }
{
    match places.first() {
        Some(older) => {
            told[place] = Told {
                accepted,
                older: *older,
            };
        }
        None => told.truncate(place),
    }
}

// A hub without entries over an empty keeper.
fn new_hub(alloc: Global, fleet: Fleet, secret: Octets) -> Result<Hub<MemKeeper>, Memory>
    ensures { IfOk result (λ hub. IsNewHub fleet secret hub) }
{
    let keeper = MemKeeper::new(alloc, ROW_LIMIT, Seq::new(alloc));
    match Hub::start(alloc, keeper, fleet, secret) {
        Ok(hub) => Ok(hub),
        Err(_) => Err(Memory),
    }
}

// The parameters that a terminal begins with have octets. The start of a terminal does not say so.
fn look_at_params(alloc: Global, settings: &Settings) -> Result<(), Memory>
    ensures { IfOk result (λ done. HasOctets (set_params (first_params settings.now) empty)) }
{
    let _params = first_params(alloc, settings)?;
    Ok(())
}

// A terminal without a line over an empty vault.
fn new_terminal(alloc: Global, settings: Settings) -> Result<Terminal<MemVault>, Memory>
    requires { AreSettings settings }
    ensures new { IfOk result (λ terminal. IsNewTerminal settings terminal) }
    ensures sound { IfOk result (λ terminal. IsSound (Some terminal.vault.held) terminal.state) }
{
    law_rule();
    look_at_params(alloc, &settings)?;
    let vault = MemVault::new(alloc, FIX_LIMIT, Seq::new(alloc));
    match Terminal::start(alloc, vault, settings) {
        Ok(terminal) => Ok(terminal),
        Err(_) => Err(Memory),
    }
}

// An order terminal over an empty vault and an empty log.
fn new_order_terminal(
    alloc: Global,
    settings: Settings,
) -> Result<OrderTerminal<MemVault, MemLog>, Memory>
    requires { AreSettings settings }
    ensures new { IfOk result (λ terminal. IsNewOrderTerminal settings terminal) }
    ensures sound { IfOk result (λ terminal.
        IsSound (Some terminal.terminal.vault.held) terminal.terminal.state) }
{
    let terminal = new_terminal(alloc, settings)?;
    match OrderTerminal::start(alloc, terminal, MemLog::new(alloc, Seq::new(alloc))) {
        Ok(terminal) => Ok(terminal),
        Err(_) => Err(Memory),
    }
}

// What reading an octet rests on.
fn law_reading()
    ensures { ReadingLaws }
{
    law_rule();
    law_of_contents();
    law_front();
    law_one_octet();
    jt_stream::law_frames();
    law_one_list();
    law_items();
    jt_order_turns::law_frames();
    law_turns();
    law_order_world();
}

impl Stage {
    /// The world in which nothing has happened: this terminal, without a line over an empty vault and an empty log, and a hub of
    /// this fleet and this secret over an empty keeper, with an empty book. Memory comes where memory ran out.
    pub(crate) fn new(
        alloc: Global,
        settings: Settings,
        fleet: Fleet,
        secret: Octets,
    ) -> Result<Stage, Memory>
        requires good { AreSettings settings }
        ensures new { IfOk result (λ stage. stage ≡ first_play settings (record {
          fleet = fleet;
          secret = secret;
          limit = ROW_LIMIT;
        })) }
        ensures reached { IfOk result (λ stage. Reached stage.world) }
    {
        let terminal = new_order_terminal(alloc, settings)?;
        let hub = new_hub(alloc, fleet, secret)?;
        Ok(Stage {
            terminal,
            hears: false,
            hub,
            book: MemBook::new(alloc, Seq::new(alloc)),
            issued: 0,
            lines: Vec::new(alloc),
            past: Vec::new(alloc),
            told: Vec::new(alloc),
            clock: 0,
        })
    }

    /// How many orders were issued.
    pub(crate) fn issued(&self) -> u64
        ensures { result ≡ length self.now.world.issued }
    {
        self.issued
    }

    /// The orders that were performed, with their results.
    pub(crate) fn performed(&self) -> &[Performed]
        ensures { result.now ≡ self.now.world.log }
    {
        self.terminal.log().performed()
    }

    /// The results of the orders that were answered.
    pub(crate) fn results(&self) -> &[u8]
        ensures { result.now ≡ self.now.world.results }
    {
        self.book.results()
    }

    // The terminal meets an event that brings no response and opens no line: whether it was done whole.
    fn act(&mut self, alloc: Global, event: Event) -> bool
        requires event { IsEvent self.old.state event }
        requires no_message { IsNoMessage event }
        requires silent { response event ≡ None }
        requires other { IsNoOpening event }
        requires moment { IsMoment self.old.clock event }
        ensures leads { Leads self.old.world self.new.world }
        ensures whole { result ≡ true → self.new ≡ meets self.old event }
    {
        law_rule();
        match self.terminal.event(event) {
            Ok(actions) => {
                if send(alloc, &mut self.lines, actions.frames.as_slice()) {
                    return true;
                }
                let _lost = self.terminal.event(Event::Lost);
                false
            }
            Err(_) => false,
        }
    }

    // The line in use is lost, where there is one.
    fn lose(&mut self, alloc: Global) -> bool
        ensures leads { Leads self.old.world self.new.world }
        ensures whole { result ≡ true → self.new ≡ loses self.old }
    {
        if self.terminal.is_up() {
            self.act(alloc, Event::Lost)
        } else {
            true
        }
    }

    // The clock goes up, and the terminal is told.
    fn tick(&mut self, alloc: Global, by: u32) -> bool
        ensures leads { Leads self.old.world self.new.world }
        ensures whole { result ≡ true → self.new ≡ ticks self.old by }
    {
        let more = u64::from(by);
        self.clock = if LAST_MOMENT - self.clock <= more {
            LAST_MOMENT
        } else {
            self.clock + more
        };
        self.act(alloc, Event::Tick(self.clock))
    }

    // The terminal is told the moment.
    fn tell(&mut self, alloc: Global) -> bool
        ensures leads { Leads self.old.world self.new.world }
        ensures whole { result ≡ true → self.new ≡ meets self.old (Tick self.old.clock) }
    {
        self.act(alloc, Event::Tick(self.clock))
    }

    // The order is put at the end of the book.
    fn put_order(&mut self, alloc: Global, order: &Order) -> Result<(), OrderWorldError>
        ensures leads { Leads self.old.world self.new.world }
        ensures ok { OnOk result
            (self.new ≡ with_world self.old (after self.old.world (Issues order.now))) }
        ensures err { OnErr result (self.new ≡ self.old) }
        ensures no_line { is_no_line result ≡ false }
        ensures full { (limit : ℕ) → result ≡ Err (refused.Full limit) →
            (limit ≡ ORDER_LIMIT) × (length self.old.world.issued ≡ ORDER_LIMIT) }
        ensures room { OnOk result (length self.old.world.issued < ORDER_LIMIT) }
    {
        let _body = order.body();
        match self.book.issue(alloc, order) {
            Ok(number) => {
                self.issued = number + 1;
                Ok(())
            }
            Err(StoreError::Full(limit)) => Err(OrderWorldError::Full(limit)),
            Err(_) => Err(OrderWorldError::Memory),
        }
    }

    // The session of a line sends the oldest order that is not answered, if it is to: whether that was done.
    fn offer_at(&mut self, place: usize) -> bool
        requires opened { place < length self.old.world.base.lines }
        ensures leads { Leads self.old.world self.new.world }
        ensures whole { result ≡ true →
            self.new ≡ with_world self.old (offers_at place self.old.world) }
        ensures count { length self.new.world.base.lines ≡ length self.old.world.base.lines }
    {
        if !self.lines[place].is_open() {
            return true;
        }
        self.lines[place].offer(&self.hub, &mut self.book)
    }

    // Each session whose end is open sends the oldest order that is not answered, if it is to: whether all was done.
    fn offer_all(&mut self) -> bool
        ensures leads { Leads self.old.world self.new.world }
        ensures whole { result ≡ true →
            self.new ≡ with_world self.old (offers_all self.old.world) }
    {
        let count = self.lines.len();
        let mut place = 0;
        while place < count {
            if !self.offer_at(place) {
                return false;
            }
            place += 1;
        }
        true
    }

    // An order is issued, and each session offers: whether all of that was done.
    fn issue(&mut self, alloc: Global, order: &Order) -> Result<bool, OrderWorldError>
        ensures leads { Leads self.old.world self.new.world }
        ensures whole { result ≡ Ok true →
            self.new ≡ with_world self.old (issues self.old.world order.now) }
        ensures err { IfErr result (λ error. self.new ≡ self.old) }
        ensures no_line { is_no_line result ≡ false }
        ensures full { (limit : ℕ) → result ≡ Err (refused.Full limit) →
            (limit ≡ ORDER_LIMIT) × (length self.old.world.issued ≡ ORDER_LIMIT) }
        ensures room { IfOk result (λ done. length self.old.world.issued < ORDER_LIMIT) }
    {
        match self.put_order(alloc, order) {
            Ok(()) => Ok(self.offer_all()),
            Err(error) => Err(error),
        }
    }

    // The platform's end of a line is closed, if it is open.
    fn cut(&mut self, place: usize)
        requires opened { place < length self.old.world.base.lines }
        ensures leads { Leads self.old.world self.new.world }
        ensures whole { self.new ≡ with_world self.old (cuts self.old.world place) }
        ensures count { length self.new.world.base.lines ≡ length self.old.world.base.lines }
    {
        if self.lines[place].is_open() {
            self.lines[place].cut(&mut self.hub);
        }
    }

    // The session of a line takes one octet, and offers: whether all was done.
    fn take_up(&mut self, place: usize) -> bool
        requires opened { place < length self.old.world.base.lines }
        requires is_open { (line_at self.old.world.base.lines place).is_open ≡ true }
        requires going { IsSome (line_at self.old.world.base.lines place).session }
        requires left { (line_at self.old.world.base.lines place).up.taken
            < length (line_at self.old.world.base.lines place).up.octets }
        requires reached { ∥ Reached self.old.world ∥₁ }
        ensures leads { Leads self.old.world self.new.world }
        ensures whole { result ≡ true → self.new ≡ with_world self.old
            (takes_octet self.old.world place (line_at self.old.world.base.lines place).session) }
        ensures is_open { (line_at self.new.world.base.lines place).is_open ≡ true }
        ensures count { length self.new.world.base.lines ≡ length self.old.world.base.lines }
    {
        law_answers();
        law_histories();
        law_of_packets();
        law_order_world();
        self.lines[place].take(&mut self.hub, &mut self.book)
    }

    // The platform's end of a line, which is open, is closed where its session ended by itself.
    fn close(&mut self, place: usize)
        requires opened { place < length self.old.world.base.lines }
        requires is_open { (line_at self.old.world.base.lines place).is_open ≡ true }
        ensures leads { Leads self.old.world self.new.world }
        ensures whole { self.new ≡ with_world self.old (closes place self.old.world) }
        ensures count { length self.new.world.base.lines ≡ length self.old.world.base.lines }
    {
        if self.lines[place].is_over() {
            self.cut(place);
        }
    }

    // Whether the session of a line takes an octet more.
    fn takes_more(&self, place: usize) -> bool
        requires opened { place < length self.now.world.base.lines }
        ensures { result ≡ goes_on (line_at self.now.world.base.lines place) }
    {
        self.lines[place].may_take()
    }

    // The session of a line takes one octet, if one is left and it goes on, and where it ended by itself its end is closed: whether it
    // took one. Memory where that was cut short.
    fn take_next(&mut self, place: usize) -> Result<bool, Memory>
        requires opened { place < length self.old.world.base.lines }
        requires reached { ∥ Reached self.old.world ∥₁ }
        ensures leads { Leads self.old.world self.new.world }
        ensures whole { TakesNext self.old self.new place result }
        ensures count { length self.new.world.base.lines ≡ length self.old.world.base.lines }
    {
        if !self.takes_more(place) {
            return Ok(false);
        }
        let done = self.take_up(place);
        self.close(place);
        if !done {
            return Err(Memory);
        }
        Ok(true)
    }

    // The session of a line takes so many octets, or those that are left where they are fewer: whether all was done.
    fn take_many(&mut self, place: usize, most: u64) -> bool
        requires opened { place < length self.old.world.base.lines }
        requires reached { ∥ Reached self.old.world ∥₁ }
        ensures leads { Leads self.old.world self.new.world }
        ensures whole { result ≡ true →
            self.new ≡ with_world self.old (takes most self.old.world place) }
        ensures count { length self.new.world.base.lines ≡ length self.old.world.base.lines }
    {
        let mut left = most;
        while left > 0 {
            match self.take_next(place) {
                Ok(true) => left -= 1,
                Ok(false) => return true,
                Err(_) => return false,
            }
        }
        true
    }

    // The session of a line takes so many octets, or all where there is no count: whether all was done.
    fn up(&mut self, place: usize, count: Option<u32>) -> bool
        requires opened { place < length self.old.world.base.lines }
        requires reached { ∥ Reached self.old.world ∥₁ }
        ensures leads { Leads self.old.world self.new.world }
        ensures whole { result ≡ true → self.new ≡ takes_up self.old place count }
    {
        let most = count_or_all(count);
        if !self.take_many(place, most) {
            return false;
        }
        match count {
            Some(_) => true,
            None => !self.takes_more(place),
        }
    }

    // Whether an octet may move on the line in use.
    fn moves(&self) -> bool
        ensures { result ≡ moves self.now }
    {
        if !self.terminal.is_up() {
            return false;
        }
        let count = self.lines.len();
        if count == 0 {
            return false;
        }
        self.lines[count - 1].moves()
    }

    // All octets up the newest line, if there is one: whether all was done.
    fn up_newest(&mut self) -> bool
        requires reached { ∥ Reached self.old.world ∥₁ }
        ensures leads { Leads self.old.world self.new.world }
        ensures whole { result ≡ true → self.new ≡ goes_up self.old }
    {
        let count = self.lines.len();
        if count > 0 {
            return self.up(count - 1, None);
        }
        true
    }

    // All octets up the line in use, and then all down: whether all was done.
    fn round(&mut self, alloc: Global) -> bool
        requires reached { ∥ Reached self.old.world ∥₁ }
        ensures leads { Leads self.old.world self.new.world }
        ensures whole { result ≡ true → self.new ≡ round self.old }
    {
        if !self.up_newest() {
            return false;
        }
        self.down(alloc, None)
    }

    // The terminal is told the moment, and then octets move until none is left to move: whether all was done. No memory holds as many
    // octets as there may be rounds; that each round moves one is not proved.
    fn run(&mut self, alloc: Global) -> bool
        requires reached { ∥ Reached self.old.world ∥₁ }
        ensures leads { Leads self.old.world self.new.world }
        ensures whole { result ≡ true → RunsTo self.old self.new }
    {
        if !self.tell(alloc) {
            return false;
        }
        let mut left = u64::MAX;
        while self.moves() {
            if left == 0 {
                return false;
            }
            if !self.round(alloc) {
                return false;
            }
            left -= 1;
        }
        true
    }

    // The terminal starts anew with these settings. The line in use is no more.
    fn begin(&mut self, settings: Settings) -> Result<(), StoreError>
        requires good { AreSettings settings }
        requires own { key_of settings.phone ≡ key_of self.old.world.base.terminal.phone }
        ensures leads { Leads self.old.world self.new.world }
        ensures ok { OnOk result (self.new ≡ begins self.old settings) }
        ensures err { OnErr result (self.new ≡ self.old) }
    {
        law_rule();
        match self.terminal.restart(settings) {
            Ok(()) => {
                // Its stream is a new one, which stands for nothing that was read.
                self.hears = false;
                Ok(())
            }
            Err(error) => Err(error),
        }
    }

    // The terminal starts anew, and is told the moment: whether all was done.
    fn restart_terminal(&mut self, alloc: Global, identity: &Identity) -> bool
        requires good { AreSettings identity.now.e2013 }
        requires own { key_of identity.now.e2013.phone
            ≡ key_of self.old.world.base.terminal.phone }
        ensures leads { Leads self.old.world self.new.world }
        ensures whole { result ≡ true →
            self.new ≡ starts_again self.old identity.now.e2013 }
    {
        let Ok(settings) = identity.settings(alloc, Edition::E2013) else {
            return false;
        };
        match self.begin(settings) {
            Ok(()) => self.tell(alloc),
            Err(_) => false,
        }
    }

    // A new line is opened: whether all was done.
    fn open_next(&mut self, alloc: Global) -> bool
        ensures leads { Leads self.old.world self.new.world }
        ensures whole { result ≡ true → self.new ≡ meets self.old Opened }
    {
        law_rule();
        if !add_line(alloc, &mut self.hub, &mut self.lines) {
            return false;
        }
        self.hears = true;
        match self.terminal.event(Event::Opened) {
            Ok(actions) => {
                if send(alloc, &mut self.lines, actions.frames.as_slice()) {
                    return true;
                }
                let _lost = self.terminal.event(Event::Lost);
                false
            }
            Err(_) => false,
        }
    }

    // The line in use is lost, and a new one is opened: whether all was done.
    fn open(&mut self, alloc: Global) -> bool
        ensures leads { Leads self.old.world self.new.world }
        ensures whole { result ≡ true → self.new ≡ opens self.old }
    {
        if !self.lose(alloc) {
            return false;
        }
        self.open_next(alloc)
    }

    // Whether an octet is left for the terminal on the line in use.
    fn reads_more(&self) -> bool
        ensures { result ≡ reads_more self.now }
    {
        if !self.terminal.is_up() {
            return false;
        }
        let count = self.lines.len();
        if count == 0 {
            return false;
        }
        self.lines[count - 1].has_down()
    }

    // The terminal reads one octet of the line in use, if one is left: whether it did. Memory where that was cut short.
    fn read_next(&mut self, alloc: Global) -> Result<bool, Memory>
        requires reached { ∥ Reached self.old.world ∥₁ }
        ensures leads { Leads self.old.world self.new.world }
        ensures whole { ReadsNext self.old self.new result }
    {
        if !self.reads_more() {
            return Ok(false);
        }
        let count = self.lines.len();
        if count == 0 {
            return Err(Memory);
        }
        if !self.lines[count - 1].may_read() {
            return Err(Memory);
        }
        self.read_at(alloc, count - 1)?;
        Ok(true)
    }

    // The terminal reads one octet of the newest line, which is in this place. Memory where that was cut short. Where vault and log then
    // hold what they held, the octet was not read.
    fn read_at(&mut self, alloc: Global, place: usize) -> Result<(), Memory>
        requires last { length self.old.world.base.lines ≡ place + 1 }
        requires in_use { self.old.world.base.terminal.using ≡ true }
        requires left { (line_at self.old.world.base.lines place).down.taken
            < length (line_at self.old.world.base.lines place).down.octets }
        requires short { (line_at self.old.world.base.lines place).down.taken + 1 < 2 ^ 63 }
        requires reached { ∥ Reached self.old.world ∥₁ }
        ensures leads { Leads self.old.world self.new.world }
        ensures whole { OnOk result (self.new ≡ reads_one self.old) }
    {
        law_reading();
        if !self.hears {
            return Err(Memory);
        }
        let count = self.told.len();
        let accepted = self.terminal.vault().accepted();
        let performed = self.terminal.log().performed().len();
        self.told.push(Told { accepted, older: 0 })?;
        let octet = self.lines[place].next();
        match self.terminal.feed(&[octet]) {
            Ok(actions) => {
                self.lines[place].pass();
                self.hears = actions.end.is_none();
                note_told(&mut self.told, count, accepted, actions.told.as_slice());
                if send(alloc, &mut self.lines, actions.frames.as_slice()) {
                    return Ok(());
                }
                let _lost = self.terminal.event(Event::Lost);
                Err(Memory)
            }
            Err(_) => {
                self.hears = false;
                if self.terminal.vault().accepted() != accepted {
                    self.lines[place].pass();
                    return Err(Memory);
                }
                self.told.truncate(count);
                if self.terminal.log().performed().len() != performed {
                    self.lines[place].pass();
                    return Err(Memory);
                }
                Err(Memory)
            }
        }
    }

    // The terminal reads so many octets of the line in use, or those that are left where they are fewer: whether all was done.
    fn read_many(&mut self, alloc: Global, most: u64) -> bool
        requires reached { ∥ Reached self.old.world ∥₁ }
        ensures leads { Leads self.old.world self.new.world }
        ensures whole { result ≡ true → self.new ≡ reads most self.old }
    {
        let mut left = most;
        while left > 0 {
            match self.read_next(alloc) {
                Ok(true) => left -= 1,
                Ok(false) => return true,
                Err(_) => return false,
            }
        }
        true
    }

    // The terminal reads so many octets of the line in use, or all where there is no count: whether all was done.
    fn down(&mut self, alloc: Global, count: Option<u32>) -> bool
        requires reached { ∥ Reached self.old.world ∥₁ }
        ensures leads { Leads self.old.world self.new.world }
        ensures whole { result ≡ true → self.new ≡ reads_down self.old count }
    {
        let most = count_or_all(count);
        if !self.read_many(alloc, most) {
            return false;
        }
        match count {
            Some(_) => true,
            None => !self.reads_more(),
        }
    }

    // All ends at the platform are gone, and a new hub begins over the keeper.
    fn restart_platform(&mut self, alloc: Global) -> Result<(), Memory>
        requires own { AreOf (key_of self.old.world.base.terminal.phone)
            self.old.world.base.history }
        ensures leads { Leads self.old.world self.new.world }
        ensures ok { OnOk result (self.new
            ≡ with_world self.old (after self.old.world RestartPlatform)) }
        ensures err { OnErr result (self.new ≡ self.old) }
    {
        law_histories();
        match make_place(alloc, &mut self.past) {
            Ok(place) => {
                shut_all(&mut self.lines);
                keep_history(&mut self.past, place, self.hub.restart());
                Ok(())
            }
            Err(Memory) => Err(Memory),
        }
    }

    // The place of a line that was opened.
    fn place_of(&self, line: u32) -> Option<usize>
        ensures opened { IfSome result (λ place. place < length self.now.world.base.lines) }
        ensures place { IfSome result (λ place. place ≡ line - 1) }
        ensures none { is_none result ≡ not (is_opened self.now.world line) }
    {
        let count = self.lines.len();
        let number = line as usize;
        if number == 0 || count < number {
            return None;
        }
        Some(number - 1)
    }

    /// A line of a script; false comes where it was cut short. The identity's settings of 2013 are good, and of a phone with the
    /// terminal's digits.
    pub(crate) fn step(
        &mut self,
        alloc: Global,
        event: OrderEvent,
        identity: &Identity,
    ) -> Result<bool, OrderWorldError>
        requires good { AreSettings identity.now.e2013 }
        requires same { key_of identity.now.e2013.phone
            ≡ key_of self.old.world.base.terminal.phone }
        requires own { AreOf (key_of self.old.world.base.terminal.phone)
            self.old.world.base.history }
        requires reached { ∥ Reached self.old.world ∥₁ }
        ensures leads { Leads self.old.world self.new.world }
        ensures ok { result ≡ Ok true → ComesTo identity.now.e2013 self.old event self.new }
        ensures same { IfErr result (λ error. self.new ≡ self.old) }
        ensures no_line { is_no_line result ≡ names_no_line self.old.world event }
        ensures number { (line : ℕ) → result ≡ Err (refused.NoLine line) → Names event line }
        ensures full { (limit : ℕ) → result ≡ Err (refused.Full limit) →
            (limit ≡ ORDER_LIMIT) × (finds_full self.old.world event ≡ true) }
        ensures room { IfOk result (λ done. finds_full self.old.world event ≡ false) }
    {
        match event {
            OrderEvent::Issue(order) => self.issue(alloc, &order),
            OrderEvent::Open => Ok(self.open(alloc)),
            OrderEvent::Up { line, count } => match self.place_of(line) {
                Some(place) => Ok(self.up(place, count)),
                None => Err(OrderWorldError::NoLine(line)),
            },
            OrderEvent::Down(count) => Ok(self.down(alloc, count)),
            OrderEvent::Tick(by) => Ok(self.tick(alloc, by)),
            OrderEvent::Run => Ok(self.run(alloc)),
            OrderEvent::Cut(line) => match self.place_of(line) {
                Some(place) => {
                    self.cut(place);
                    Ok(true)
                }
                None => Err(OrderWorldError::NoLine(line)),
            },
            OrderEvent::Lost => Ok(self.lose(alloc)),
            OrderEvent::RestartTerminal => Ok(self.restart_terminal(alloc, identity)),
            OrderEvent::RestartPlatform => Ok(self.restart_platform(alloc).is_ok()),
        }
    }
}
