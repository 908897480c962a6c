//! The world of orders that a script plays: what a line of it does.

ghost use Rattle.std.specs.Prelude.{◌≡◌, ◌≢◌, ◌↔◌, ◌⊎◌, length, true, false, ℕ, Err, Ok, IfOk, OnOk};
ghost use Rattle.jt_terminal_rule.specs.Messages.{AreSettings};
ghost use Rattle.jt_value.specs.declared.limits.TheConstants.{ROW_LIMIT};
ghost use Rattle.jt_order.specs.declared.book.TheConstants.{ORDER_LIMIT};
ghost use Rattle.jt_order_octets.specs.Reaching.{Leads, Reached};
ghost use Rattle.jt_order_play.specs.Playing.{ComesTo, finds_full, is_opened};
ghost use Rattle.jt_order_play.specs.Scripts.{Names, first_play, totals_of};
ghost use Rattle.jt_order_play.specs.declared.error.OrderWorldError.{OrderWorldError};
ghost use Rattle.jt_order_play.specs.declared.error.OrderWorldError.TheVariants as refused;

use crate::error::OrderWorldError;
use crate::event::OrderEvent;
use crate::stage::Stage;
use jt_order::Performed;
use jt_order_octets::law_order_world;
use jt_platform::Fleet;
use jt_play::Identity;
use jt_value::{Edition, Memory, Octets};
use std::alloc::Global;
use std::marker::Model;

/// How far a world of orders came.
#[derive(Clone, Copy, Debug, PartialEq, Eq)]
pub struct OrderTotals {
    /// How many orders were issued.
    pub issued: u64,
    /// How many of them were performed.
    pub performed: u64,
    /// How many of those were answered.
    pub answered: u64,
}

/// One order terminal over a vault and a log in memory, one hub over a keeper in memory, a book in memory, and the lines between
/// them, as a script plays them.
#[derive(Drop)]
pub struct OrderWorld {
    stage: Stage,
    identity: Identity,
}

impl Model for OrderWorld {
    ghost use Rattle.std.specs.Coded.{codes};
    ghost use Rattle.jt_subpacket.specs.Stored.{partial_code};
    ghost use Rattle.jt_params.specs.contracts.table.ParamTable as params;
    ghost use Rattle.jt_regions.specs.contracts.region_table.RegionTable as regions;
    ghost use Rattle.jt_order_play.specs.Scripts.{IsOrderScene, OrderScene};

    ghost Value = { OrderScene };

    ghost coded = { Prim.hlevel (codes, partial_code, params.the_row.coded, regions.the_row.coded) };

    ghost view = { λ w. record { play = w.stage; identity = w.identity } };

    ghost invariant = { λ w. IsOrderScene w.stage w.identity };
}

// What a line answers: one that was cut short wanted memory.
fn answer(done: Result<bool, OrderWorldError>) -> Result<(), OrderWorldError>
    ensures done { OnOk result (done ≡ Ok true) }
    ensures no_line { (line : ℕ) →
        (result ≡ Err (refused.NoLine line)) ↔ (done ≡ Err (refused.NoLine line)) }
    ensures full { (limit : ℕ) →
        (result ≡ Err (refused.Full limit)) ↔ (done ≡ Err (refused.Full limit)) }
{
    match done {
        Ok(true) => Ok(()),
        Ok(false) => Err(OrderWorldError::Memory),
        Err(error) => Err(error),
    }
}

impl OrderWorld {
    /// The world in which nothing has happened: this terminal in its edition of 2013, without a line over an empty vault and an empty
    /// log, a hub of this fleet and this secret over an empty keeper of at most 1,000,000,000 rows for a phone, and an empty book. The
    /// settings of 2013 are good. Memory comes where memory ran out.
    pub fn new(
        alloc: Global,
        identity: Identity,
        fleet: Fleet,
        secret: Octets,
    ) -> Result<OrderWorld, Memory>
        requires { AreSettings identity.e2013 }
        ensures new { IfOk result (λ world. world.play ≡ first_play identity.e2013 (record {
          fleet = fleet;
          secret = secret;
          limit = ROW_LIMIT;
        })) }
        ensures identity { IfOk result (λ world. world.identity ≡ identity) }
        ensures reached { IfOk result (λ world. Reached world.play.world) }
    {
        let settings = identity.settings(alloc, Edition::E2013)?;
        let stage = Stage::new(alloc, settings, fleet, secret)?;
        Ok(OrderWorld { stage, identity })
    }

    /// A line of a script. After each answer the world is one to which steps lead. After Ok it is the one that the line defines.
    ///
    /// NoLine comes exactly where the line that is named was not opened. Where as many orders as the limit were issued and one is to
    /// be, the answer is Full, which comes only there, or Memory. Where the answer is NoLine or Full the world is as before. Memory comes where memory ran
    /// out, where as many lines were opened as have a number, or where an octet would move yet behind 2^64 - 1 rounds; of the world it is
    /// then said alone that steps lead to it.
    pub fn step(&mut self, alloc: Global, event: OrderEvent) -> Result<(), OrderWorldError>
        ensures leads { Leads self.old.play.world self.new.play.world }
        ensures identity { self.new.identity ≡ self.old.identity }
        ensures ok { OnOk result
            (ComesTo self.old.identity.e2013 self.old.play event self.new.play) }
        ensures no_line { (line : ℕ) → (result ≡ Err (refused.NoLine line))
            ↔ (Names event line × (is_opened self.old.play.world line ≡ false)) }
        ensures full { (limit : ℕ) → result ≡ Err (refused.Full limit) →
            (limit ≡ ORDER_LIMIT) × (finds_full self.old.play.world event ≡ true) }
        ensures at_full { finds_full self.old.play.world event ≡ true →
            (result ≡ Err (refused.Full ORDER_LIMIT)) ⊎ (result ≡ Err refused.Memory) }
        ensures room { OnOk result (finds_full self.old.play.world event ≡ false) }
        ensures same { (error : OrderWorldError) → result ≡ Err error → error ≢ refused.Memory →
            self.new ≡ self.old }
    {
        law_order_world();
        let done = self.stage.step(alloc, event, &self.identity);
        answer(done)
    }

    /// The orders that were performed, with their results, in order.
    pub fn performed(&self) -> &[Performed]
        ensures { result.now ≡ self.now.play.world.log }
    {
        self.stage.performed()
    }

    /// The results of the orders that were answered, in order.
    pub fn results(&self) -> &[u8]
        ensures { result.now ≡ self.now.play.world.results }
    {
        self.stage.results()
    }

    /// How far the world came.
    pub fn totals(&self) -> OrderTotals
        ensures { result ≡ totals_of self.now.play.world }
    {
        OrderTotals {
            issued: self.stage.issued(),
            performed: self.performed().len() as u64,
            answered: self.results().len() as u64,
        }
    }
}
