//! What an order terminal keeps of its log.

ghost use Rattle.std.specs.Prelude.{◌≡◌, Some, IfOk, OnErr, OnOk};
ghost use Rattle.jt_value.specs.declared.phone.Edition.{Edition};
ghost use Rattle.jt_codec.specs.Bodies.{Fits};
ghost use Rattle.jt_terminal_answers.specs.Performing.{message_outcome};
ghost use Rattle.jt_order.specs.Rules.{ruling_by};
ghost use Rattle.jt_obeying.specs.Orders.{last_performed, no_tables, tables_behind, tables_of as tables_behind_all};
ghost use Rattle.jt_obeying.specs.Performing.{terminal_performing};
ghost use Rattle.jt_order_terminal.specs.Ledgers.{IsLedgerOf};
ghost use Rattle.jt_order_terminal.specs.Terminals as terminals;

use jt_codec::{Message, law_of_bodies, read_body};
use jt_order::{Order, Performed, Ruling, rule};
use jt_params::ParamTable;
use jt_regions::RegionTable;
use jt_terminal_answers::perform;
use jt_value::results::SUCCESS;
use jt_value::{CodecError, Edition, Memory};
use std::alloc::Global;
use std::marker::Model;

/// The tables that orders change.
#[derive(Drop)]
pub(crate) struct Tables {
    params: ParamTable,
    regions: RegionTable,
}

impl Model for Tables {
    ghost use Rattle.std.specs.Coded.{codes};
    ghost use Rattle.jt_params.specs.contracts.table.ParamTable as param_rows;
    ghost use Rattle.jt_regions.specs.contracts.region_table.RegionTable as region_rows;
    ghost use Rattle.jt_terminal_answers.specs.Performing.{HeldTables};

    ghost Value = { HeldTables };

    ghost coded = { Prim.hlevel (codes, param_rows.the_row.coded, region_rows.the_row.coded) };

    ghost view = { λ t. record { params = t.params; regions = t.regions } };
}

impl Tables {
    fn new(alloc: Global) -> Tables
        ensures { result ≡ no_tables }
    {
        Tables {
            params: ParamTable::new(alloc),
            regions: RegionTable::new(alloc),
        }
    }

    // The same tables again.
    fn copy(&self) -> Result<Tables, Memory>
        ensures { IfOk result (λ copy. copy ≡ self.now) }
    {
        Ok(Tables {
            params: self.params.copy()?,
            regions: self.regions.copy()?,
        })
    }

    // Performs a message. After want of memory the tables are as before.
    fn perform(&mut self, alloc: Global, message: &Message) -> Result<u8, Memory>
        requires { (edition : Edition) × Fits edition message.now }
        ensures ok { IfOk result (λ outcome.
            (outcome, self.new) ≡ message_outcome self.old message.now) }
        ensures err { OnErr result (self.new ≡ self.old) }
    {
        perform(alloc, &mut self.params, &mut self.regions, message)
    }

    // Performs a message of which the result is known.
    fn perform_known(&mut self, alloc: Global, message: Message) -> Result<(), Memory>
        requires { (edition : Edition) × Fits edition message }
        ensures { OnOk result (self.new ≡ (message_outcome self.old message).1) }
    {
        self.perform(alloc, &message)?;
        Ok(())
    }

    // Performs an order once more that had result 0. It leaves in either edition what it leaves in that of 2013.
    fn perform_again(&mut self, alloc: Global, order: &Order) -> Result<(), Memory>
        ensures { OnOk result (self.new ≡ terminal_performing.leaves self.old order.now) }
    {
        law_of_bodies();
        match read_body(alloc, Edition::E2013, order.id(), order.body()) {
            Ok(message) => self.perform_known(alloc, message),
            Err(CodecError::Refused(_)) => Ok(()),
            Err(CodecError::Memory) => Err(Memory),
        }
    }

    // An order of the log was performed, with its result.
    fn follow(&mut self, alloc: Global, one: &Performed) -> Result<(), Memory>
        ensures { OnOk result (self.new ≡ tables_behind terminal_performing self.old one.now) }
    {
        if one.result == SUCCESS {
            self.perform_again(alloc, &one.order)?;
        }
        Ok(())
    }
}

/// What an order terminal keeps of the orders that it performed.
#[derive(Drop)]
pub(crate) struct Ledger {
    // How many they are, or above 2^64 - 1 a number with the same serial.
    count: u64,
    last: Option<Performed>,
    tables: Tables,
}

// The number behind this one, or one with the same serial.
fn next(count: u64) -> u64
    ensures { result ≡ terminals.next count }
{
    if count == u64::MAX { 65_536 } else { count + 1 }
}

// The tables that performed orders leave.
#[tactic(auto, using(crate::proofs::Committing::tables_more))]
fn tables_of(alloc: Global, performed: &[Performed]) -> Result<Tables, Memory>
    ensures { IfOk result (λ tables.
        tables ≡ tables_behind_all terminal_performing no_tables performed.now) }
{
    let mut tables = Tables::new(alloc);
    for one in performed {
        tables.follow(alloc, one)?;
    }
    Ok(tables)
}

fn last_of(performed: &[Performed]) -> Result<Option<Performed>, Memory>
    ensures { IfOk result (λ last. last ≡ last_performed performed.now) }
{
    match performed.last() {
        Some(last) => Ok(Some(last.clone()?)),
        None => Ok(None),
    }
}

impl Model for Ledger {
    ghost use Rattle.std.specs.Coded.{codes};
    ghost use Rattle.jt_params.specs.contracts.table.ParamTable as param_rows;
    ghost use Rattle.jt_regions.specs.contracts.region_table.RegionTable as region_rows;
    ghost use Rattle.jt_order_terminal.specs.Ledgers.{Ledger as Kept};

    ghost Value = { Kept };

    ghost coded = { Prim.hlevel (codes, param_rows.the_row.coded, region_rows.the_row.coded) };

    ghost view = { λ l. record { count = l.count; last = l.last; tables = l.tables } };
}

impl Ledger {
    /// The ledger of the orders that a log has.
    pub(crate) fn of(alloc: Global, performed: &[Performed]) -> Result<Ledger, Memory>
        ensures { IfOk result (λ ledger. IsLedgerOf performed.now ledger) }
    {
        let tables = tables_of(alloc, performed)?;
        let last = last_of(performed)?;
        Ok(Ledger {
            count: performed.len() as u64,
            last,
            tables,
        })
    }

    /// What the three rules make of an order of this serial.
    pub(crate) fn ruling(&self, serial: u16, id: u16, body: &[u8]) -> Ruling
        ensures { result ≡ ruling_by self.now.count self.now.last serial
            (record { id = id; body = body.now }) }
    {
        rule(self.count, &self.last, serial, id, body)
    }

    /// The result of a message, and the tables that it leaves. The ledger stays.
    pub(crate) fn outcome(&self, alloc: Global, message: &Message) -> Result<(u8, Tables), Memory>
        requires { (edition : Edition) × Fits edition message.now }
        ensures { IfOk result (λ found.
            (found.0, found.1) ≡ message_outcome self.now.tables message.now) }
    {
        let mut tables = self.tables.copy()?;
        let outcome = tables.perform(alloc, message)?;
        Ok((outcome, tables))
    }

    /// An order was performed, with this result, and left these tables. It takes no memory.
    pub(crate) fn note(&mut self, order: Order, outcome: u8, tables: Tables)
        ensures { self.new ≡ record {
          count = terminals.next self.old.count;
          last = Some (record { order = order; result = outcome });
          tables = tables;
        } }
    {
        self.count = next(self.count);
        self.last = Some(Performed {
            order,
            result: outcome,
        });
        self.tables = tables;
    }
}
