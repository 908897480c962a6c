//! The turn: who comes to the desk, and what each caller then knows.

ghost use Rattle.std.specs.Prelude.{◌≡◌, ◌≢◌, ◌≤◌, ◌<◌, ◌+◌, ◌++◌, ◌%◌, ◌^◌, ◌==◌, if◌then◌else◌, ℕ, [], ◌∷◌, max, Some, IfOk, IfErr, OnOk, OnErr, IfSome, true, false};
ghost use Rattle.jt_turn.specs.Histories.{entries_of, entry_if, longer, HasEach, IsNoneOf};
ghost use Rattle.jt_turn.specs.Seats.{Waits, Took, Acts};
ghost use Rattle.jt_turn.specs.Rules.{taking, HasActed, Meets};
ghost use Rattle.jt_turn.specs.declared.known.Known.{Known};
ghost use mathlib.Core.List.{IsPrefix};

use crate::desk::Desk;
use crate::known::Known;
use crate::pass::Pass;
use crate::steps::{Draw, Gives, Learn, Look, Number, Publish, Same, TakesIn, TurnRule};
use atomic_table::{Refused, Seat, Table};
use jt_value::Memory;
use std::alloc::{AllocFailed, Global};
use std::hint::spin_loop;
use std::marker::{Brand, Model};
use std::snapshot::Snapshot;
use std::sync::Wait;

/// The word of the table with the next ticket.
const TICKET: usize = 0;

/// The word with the ticket that is served.
const SERVING: usize = 1;

/// The word of the lock that lets callers in to the tickets one at a time, whoever finds it free. It lies apart from the other
/// two, so that callers who look at it do not slow the one who acts.
const LOCK: usize = 8;

/// So many words that the lock has some behind it.
const WORDS: usize = 16;

/// What the lock says where nobody has it.
const FREE: u64 = 0;

/// Somebody has it, and need wake nobody: who still sleeps is looked after by one who was woken.
const TAKEN: u64 = 1;

/// Somebody has it, and others may sleep, of whom one is to be woken.
const CONTENDED: u64 = 2;

/// The slot with the desk.
const DESK: usize = 0;

/// How often a caller looks at the lock before it sleeps, each time that it comes or is woken.
const MOST_LOOKS: u32 = 200;

/// One desk that many callers share, each by a pass of its own. They come to it one at a time, and which of those that wait
/// comes next is not said.
#[derive(Drop)]
pub struct Turn<D: Desk> {
    table: Table<
        Option<D>,
        Option<Known<D::Ask, D::Answer, D::Opening>>,
        Snapshot<D>,
        TurnRule<D>,
        Global,
    >,
}

impl<D: Desk> Model for Turn<D> {
    ghost use Rattle.std.specs.Prelude.{◌≡◌};
    ghost use Rattle.jt_turn.specs.Passes.{TurnId};

    ghost Value = { TurnId };

    ghost view = { λ turn. turn.table.shared.table_id };

    ghost invariant = { λ turn. (turn.table.shared.table_id.words ≡ 16) × (turn.table.shared.table_id.slots ≡ 1) };
}

impl<D: Desk> Turn<D> {
    /// A turn over a desk whose history is empty, and its first pass, of number 0. Memory gives the desk back.
    pub fn begin(alloc: Global, desk: D) -> Result<(Turn<D>, Pass<D>), (D, Memory)>
        requires { D.history desk ≡ [] }
        ensures ok { IfOk result (λ begun. begun.1 ≡ record {
          turn = begun.0;
          number = 0;
          opening = D.opening desk;
          base = D.faults desk;
          seen = [];
          mine = [];
          faults = D.faults desk;
          found = [];
          found_faults = 0;
          failed = 0;
          ended = [];
          lent = 0;
          given = 0;
        }) }
        ensures err { IfErr result (λ refused. refused.0 ≡ desk) }
    {
        let start = Snapshot::of(&desk);
        let mut slots = Vec::new(alloc);
        match slots.push(Some(desk)) {
            Ok(()) => {}
            Err(failed) => {
                let AllocFailed { value } = failed;
                slots.destroy_empty();
                match value {
                    Some(desk) => return Err((desk, Memory)),
                    None => unreachable!(),
                }
            }
        }
        match Table::new(alloc, &[0; WORDS], slots, &start) {
            Ok((table, seat)) => Ok((Turn { table }, Pass { seat, number: 0 })),
            Err(refused) => {
                let Refused { mut slots } = refused;
                match slots.pop() {
                    Some(Some(desk)) => {
                        slots.destroy_empty();
                        Err((desk, Memory))
                    }
                    _ => unreachable!(),
                }
            }
        }
    }

    /// Gives a pass of a number that is above every number given before. It has seen what the giver, the pass of number 0, has.
    /// Memory never comes: a pass takes none. Where it would, the giver is as before.
    pub fn split(&self, pass: &mut Pass<D>, number: u32) -> Result<Pass<D>, Memory>
        requires turn { pass.old.turn ≡ self.now }
        requires root { pass.old.number ≡ 0 }
        requires above { pass.old.given < number }
        ensures ok { IfOk result (λ new. new ≡ record pass.old {
          number = number;
          mine = [];
          found = [];
          found_faults = 0;
          failed = 0;
          ended = [];
          lent = 0;
          given = 0;
        }) }
        ensures giver { OnOk result
            (pass.new ≡ record pass.old { lent = pass.old.lent + 1; given = number }) }
        ensures err { OnErr result (pass.new ≡ pass.old) }
    {
        Ok(self.split_as::<Brand>(pass, number))
    }

    fn split_as<N: Number>(&self, pass: &mut Pass<D>, number: u32) -> Pass<D>
        requires picked { number ≡ N.number }
        requires turn { pass.old.turn ≡ self.now }
        requires root { pass.old.number ≡ 0 }
        requires above { pass.old.given < number }
        ensures given { result ≡ record pass.old {
          number = number;
          mine = [];
          found = [];
          found_faults = 0;
          failed = 0;
          ended = [];
          lent = 0;
          given = 0;
        } }
        ensures giver { pass.new ≡ record pass.old { lent = pass.old.lent + 1; given = number } }
    {
        Pass {
            seat: self.table.shared.split_seat::<Gives<N>>(&mut pass.seat),
            number,
        }
    }

    /// The desk acts once, for the session of the pass's number. It may wait for other callers, and one that comes later may act
    /// before it.
    pub fn act<R: Wait>(&self, rt: &R, pass: &mut Pass<D>, ask: &D::Ask) -> D::Answer
        requires turn { pass.old.turn ≡ self.now }
        ensures found { IsPrefix pass.old.seen pass.new.found }
        ensures found_mine { entries_of pass.old.number pass.new.found ≡ pass.old.mine }
        ensures found_faults { pass.old.faults ≤ pass.new.found_faults }
        ensures answer { D.gives pass.old.opening pass.new.found pass.new.found_faults
            pass.new.faults pass.old.number ask.now result }
        ensures seen { pass.new.seen
            ≡ pass.new.found ++ entry_if (D.enters result) pass.old.number ask.now result }
        ensures mine { pass.new.mine
            ≡ pass.old.mine ++ entry_if (D.enters result) pass.old.number ask.now result }
        ensures faults { pass.new.found_faults ≤ pass.new.faults }
        ensures failed { pass.new.failed
            ≡ pass.old.failed + (if pass.new.faults == pass.new.found_faults then 0 else 1) }
        ensures stays { (pass.new.turn ≡ pass.old.turn) × (pass.new.number ≡ pass.old.number)
            × (pass.new.opening ≡ pass.old.opening) × (pass.new.base ≡ pass.old.base)
            × (pass.new.ended ≡ pass.old.ended) × (pass.new.lent ≡ pass.old.lent)
            × (pass.new.given ≡ pass.old.given) }
    {
        self.lock(rt, &mut pass.seat);
        let ticket = self.draw(&mut pass.seat);
        self.wait(rt, &mut pass.seat, ticket);
        let answer = self.serve(&mut pass.seat, pass.number, ask);
        self.unlock(&mut pass.seat);
        answer
    }

    /// Joins another pass into the one of number 0, which has then seen what either had. It takes no memory.
    pub fn join(&self, pass: &mut Pass<D>, other: Pass<D>)
        requires turn { (pass.old.turn ≡ self.now) × (other.turn ≡ self.now) }
        requires root { pass.old.number ≡ 0 }
        ensures seen { pass.new.seen ≡ longer pass.old.seen other.seen }
        ensures begins { IsPrefix pass.old.seen pass.new.seen × IsPrefix other.seen pass.new.seen }
        ensures ended { pass.new.ended
            ≡ pass.old.ended ++ record { number = other.number; mine = other.mine } ∷ [] }
        ensures failed { pass.new.failed ≡ pass.old.failed + other.failed }
        ensures faults { pass.new.faults ≡ max pass.old.faults other.faults }
        ensures lent { pass.old.lent ≡ pass.new.lent + 1 }
        ensures stays { (pass.new.turn ≡ pass.old.turn) × (pass.new.number ≡ pass.old.number)
            × (pass.new.mine ≡ pass.old.mine) × (pass.new.opening ≡ pass.old.opening)
            × (pass.new.base ≡ pass.old.base) × (pass.new.given ≡ pass.old.given) }
    {
        let Pass { seat, number: _ } = other;
        self.table.shared.join_seat::<TakesIn>(&mut pass.seat, seat);
        self.table.shared.load::<Learn<D>>(&mut pass.seat, TICKET);
    }

    /// Gives the desk back, once every pass was joined into the one of number 0. It takes no memory.
    pub fn close(self, pass: Pass<D>) -> D
        requires turn { pass.turn ≡ self }
        requires root { pass.number ≡ 0 }
        requires joined { pass.lent ≡ 0 }
        ensures opening { D.opening result ≡ pass.opening }
        ensures seen { IsPrefix pass.seen (D.history result) }
        ensures mine { entries_of pass.number (D.history result) ≡ pass.mine }
        ensures ended { HasEach (D.history result) pass.ended }
        ensures others { (n : ℕ) → n ≢ pass.number → IsNoneOf n pass.ended →
            entries_of n (D.history result) ≡ [] }
        ensures faults { pass.base + pass.failed ≤ D.faults result }
        ensures count { pass.faults ≤ D.faults result }
    {
        let Turn { table } = self;
        let Pass { seat, number: _ } = pass;
        let mut closed = table.close_with(seat);
        let slot = closed.take(DESK);
        closed.free();
        match slot {
            Some(desk) => desk,
            None => unreachable!(),
        }
    }

    // Takes the lock. It looks some times whether it is free, and then sleeps until the one who has it leaves; and so on.
    fn lock<R: Wait>(
        &self,
        rt: &R,
        seat: &mut Seat<Option<D>, Option<Known<D::Ask, D::Answer, D::Opening>>>,
    )
        requires table { seat.old.table_id ≡ self.now }
        requires idle { (k : Known D.Ask D.Answer D.Opening) × (seat.old.me ≡ (Some k, [])) }
        ensures table { seat.new.table_id ≡ seat.old.table_id }
        ensures same { seat.new.me ≡ seat.old.me }
    {
        let mut taken = TAKEN;
        for _ in rt.forever() {
            if self.take_soon(seat, taken) || self.swap_lock(seat, CONTENDED) == FREE {
                return;
            }
            self.table.shared.park(rt, LOCK, CONTENDED as u32);
            // Others may sleep too, and are woken one by one.
            taken = CONTENDED;
        }
        unreachable!()
    }

    // Takes the lock, with this word in it, where it is found free within some looks. Tells whether it was taken.
    fn take_soon(
        &self,
        seat: &mut Seat<Option<D>, Option<Known<D::Ask, D::Answer, D::Opening>>>,
        mut taken: u64,
    ) -> bool
        requires table { seat.old.table_id ≡ self.now }
        requires idle { (k : Known D.Ask D.Answer D.Opening) × (seat.old.me ≡ (Some k, [])) }
        ensures table { seat.new.table_id ≡ seat.old.table_id }
        ensures same { seat.new.me ≡ seat.old.me }
    {
        for _ in 0..MOST_LOOKS {
            match self.table.shared.peek(LOCK) {
                FREE => {
                    if self.take_lock(seat, taken) {
                        return true;
                    }
                }
                // Whoever takes it next goes on waking.
                CONTENDED => taken = CONTENDED,
                _ => {}
            }
            spin_loop();
        }
        false
    }

    // Has the lock say this where it is free, and tells whether it was.
    fn take_lock(
        &self,
        seat: &mut Seat<Option<D>, Option<Known<D::Ask, D::Answer, D::Opening>>>,
        taken: u64,
    ) -> bool
        requires table { seat.old.table_id ≡ self.now }
        requires idle { (k : Known D.Ask D.Answer D.Opening) × (seat.old.me ≡ (Some k, [])) }
        ensures table { seat.new.table_id ≡ seat.old.table_id }
        ensures same { seat.new.me ≡ seat.old.me }
    {
        let found = self
            .table
            .shared
            .compare_exchange::<Same<D>>(seat, LOCK, FREE, taken);
        found == FREE
    }

    // Puts this into the lock, and tells what it said.
    fn swap_lock(
        &self,
        seat: &mut Seat<Option<D>, Option<Known<D::Ask, D::Answer, D::Opening>>>,
        new: u64,
    ) -> u64
        requires table { seat.old.table_id ≡ self.now }
        requires idle { (k : Known D.Ask D.Answer D.Opening) × (seat.old.me ≡ (Some k, [])) }
        ensures table { seat.new.table_id ≡ seat.old.table_id }
        ensures same { seat.new.me ≡ seat.old.me }
    {
        self.table.shared.swap::<Same<D>>(seat, LOCK, new)
    }

    // Leaves the lock, and wakes one of those that sleep at it, where it says that there may be any.
    fn unlock(&self, seat: &mut Seat<Option<D>, Option<Known<D::Ask, D::Answer, D::Opening>>>)
        requires table { seat.old.table_id ≡ self.now }
        requires idle { (k : Known D.Ask D.Answer D.Opening) × (seat.old.me ≡ (Some k, [])) }
        ensures table { seat.new.table_id ≡ seat.old.table_id }
        ensures same { seat.new.me ≡ seat.old.me }
    {
        if self.swap_lock(seat, FREE) == CONTENDED {
            self.table.shared.wake_one(LOCK);
        }
    }

    fn draw(&self, seat: &mut Seat<Option<D>, Option<Known<D::Ask, D::Answer, D::Opening>>>) -> u64
        requires table { seat.old.table_id ≡ self.now }
        requires idle { (k : Known D.Ask D.Answer D.Opening) × (seat.old.me ≡ (Some k, []))
            × (k.waits ≡ false) × (k.turn ≡ false) }
        ensures table { seat.new.table_id ≡ seat.old.table_id }
        ensures drawn { IfSome seat.old.me.0 (λ k. (t : ℕ) × (t % 2 ^ 64 ≡ result)
            × (seat.new.me ≡ (Some (record k { waits = true; ticket = t }), []))) }
    {
        self.table.shared.fetch_add::<Draw<D>>(seat, TICKET, 1)
    }

    // Looks until the ticket is served. All callers come by the lock, so the first look finds it; that rests on reading alone.
    fn wait<R: Wait>(
        &self,
        rt: &R,
        seat: &mut Seat<Option<D>, Option<Known<D::Ask, D::Answer, D::Opening>>>,
        ticket: u64,
    )
        requires table { seat.old.table_id ≡ self.now }
        requires waits { Waits ticket seat.old.me }
        ensures table { seat.new.table_id ≡ seat.old.table_id }
        ensures took { Took D.history D.faults D.opening seat.old.me seat.new.me }
    {
        for _ in rt.forever() {
            let served = self.look(seat, ticket);
            if served == ticket {
                return;
            }
            spin_loop();
        }
        unreachable!()
    }

    // The ticket that is served. Where it is this one, the seat has the desk.
    fn look(
        &self,
        seat: &mut Seat<Option<D>, Option<Known<D::Ask, D::Answer, D::Opening>>>,
        ticket: u64,
    ) -> u64
        requires table { seat.old.table_id ≡ self.now }
        requires waits { Waits ticket seat.old.me }
        ensures table { seat.new.table_id ≡ seat.old.table_id }
        ensures took { result ≡ ticket → Took D.history D.faults D.opening seat.old.me seat.new.me }
        ensures waits { result ≢ ticket → seat.new.me ≡ seat.old.me }
    {
        self.table.shared.load::<Look<D>>(seat, SERVING)
    }

    // Has the desk act, and serves the next ticket.
    fn serve(
        &self,
        seat: &mut Seat<Option<D>, Option<Known<D::Ask, D::Answer, D::Opening>>>,
        number: u32,
        ask: &D::Ask,
    ) -> D::Answer
        requires table { seat.old.table_id ≡ self.now }
        requires turn { (k : Known D.Ask D.Answer D.Opening) × (d : D)
            × (seat.old.me ≡ (Some (taking D.history D.faults D.opening d k), (0, Some d) ∷ []))
            × Meets D.history D.faults D.opening k d × (k.number ≡ number) }
        ensures table { seat.new.table_id ≡ seat.old.table_id }
        ensures acted { (k : Known D.Ask D.Answer D.Opening) (d : D) →
            seat.old.me ≡ (Some (taking D.history D.faults D.opening d k), (0, Some d) ∷ []) →
            Meets D.history D.faults D.opening k d → (after : Known D.Ask D.Answer D.Opening)
            × (seat.new.me ≡ (Some after, [])) × (after.waits ≡ false) × (after.turn ≡ false)
            × Acts D.gives D.enters k ask.now result after }
    {
        let answer = self.act_in_place(seat, number, ask);
        self.table.shared.fetch_add::<Publish<D>>(seat, SERVING, 1);
        answer
    }

    // The desk acts that the seat has.
    fn act_in_place(
        &self,
        seat: &mut Seat<Option<D>, Option<Known<D::Ask, D::Answer, D::Opening>>>,
        number: u32,
        ask: &D::Ask,
    ) -> D::Answer
        requires table { seat.old.table_id ≡ self.now }
        requires desk { (d : D) × (seat.old.me.1 ≡ (0, Some d) ∷ []) }
        ensures table { seat.new.table_id ≡ seat.old.table_id }
        ensures view { seat.new.me.0 ≡ seat.old.me.0 }
        ensures acted { (d : D) → seat.old.me.1 ≡ (0, Some d) ∷ [] →
            (after : D) × (seat.new.me.1 ≡ (0, Some after) ∷ [])
            × HasActed D.history D.faults D.opening D.gives D.enters number ask.now result d after }
    {
        match seat.slot_mut(&self.table.shared, DESK) {
            Some(desk) => desk.act(number, ask),
            None => unreachable!(),
        }
    }
}

fn may_move<T: Send + Drop>(_value: T) {}

fn may_share<T: Sync>(_value: &T) {}

/// Compiles only because a turn may be shared between threads, and a pass moved, where the desk may move.
pub fn crosses<D: Desk + Send + Drop>(turn: &Turn<D>, pass: Pass<D>) {
    may_share(turn);
    may_move(pass);
}
