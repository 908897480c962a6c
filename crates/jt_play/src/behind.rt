//! The fixes of rows, behind so many.

ghost use Rattle.std.specs.Prelude.{◌≡◌, ◌∷◌, [], drop, IfOk, OnOk};
ghost use Rattle.std.specs.List.{AllByRecursion};
ghost use Rattle.jt_position.specs.Fixes.{fixes_of};
ghost use Rattle.jt_relay.specs.Relaying.{IsPosition};
ghost use Rattle.jt_store.specs.Units.{fixes_in};
ghost use Rattle.jt_play.specs.Behind.{HasShortFixes, IsShort, went_by};

use crate::tally::fix_count;
use jt_position::{Fix, FixError, law_positions};
use jt_relay::fixes_in;
use jt_store::Row;
use jt_value::{Memory, Octets, Seq};
use std::alloc::Global;

/// So many fixes are still to be passed over, and these were taken behind them.
#[derive(Drop)]
pub(crate) struct Behind {
    pub(crate) left: u64,
    pub(crate) fixes: Seq<Fix>,
}

impl Behind {
    // A fix goes by.
    #[tactic(auto, using(crate::proofs::Going::by_over, crate::proofs::Going::by_taken))]
    fn add(&mut self, alloc: Global, octets: &[u8]) -> Result<(), Memory>
        requires position { IsPosition octets.now }
        requires short { IsShort octets.now }
        ensures { OnOk result (self.new ≡ went_by self.old (octets.now ∷ [])) }
    {
        if self.left > 0 {
            self.left -= 1;
            return Ok(());
        }
        law_positions();
        match Fix::read(alloc, octets) {
            Ok(fix) => self.fixes.push(fix),
            Err(FixError::Memory) => Err(Memory),
            Err(FixError::Long(_)) => unreachable!(),
            Err(FixError::Refused(_)) => unreachable!(),
        }
    }

    // Fixes go by.
    #[tactic(auto, using(crate::proofs::Going::by_none, crate::proofs::Going::by_one))]
    fn add_each(&mut self, alloc: Global, fixes: &[Octets]) -> Result<(), Memory>
        requires positions { AllByRecursion IsPosition fixes.now }
        requires short { AllByRecursion IsShort fixes.now }
        ensures { OnOk result (self.new ≡ went_by self.old fixes.now) }
    {
        for octets in fixes {
            self.add(alloc, octets.as_slice())?;
        }
        Ok(())
    }

    // The fixes of a row go by. They are not read where all of them are passed over.
    #[tactic(auto, using(crate::proofs::Going::by_passed))]
    fn add_row(&mut self, alloc: Global, row: &Row) -> Result<(), Memory>
        requires { HasShortFixes row.now }
        ensures { OnOk result (self.new ≡ went_by self.old (fixes_of (row.now.id, row.now.body))) }
    {
        let count = u64::from(fix_count(row.id, row.body.as_slice()));
        if count <= self.left {
            self.left -= count;
            return Ok(());
        }
        let fixes = fixes_in(alloc, row)?;
        self.add_each(alloc, fixes.as_slice())
    }

    // The fixes of rows go by.
    #[tactic(auto, using(crate::proofs::Going::by_none))]
    fn add_rows(&mut self, alloc: Global, rows: &[Row]) -> Result<(), Memory>
        requires { AllByRecursion HasShortFixes rows.now }
        ensures { OnOk result (self.new ≡ went_by self.old (fixes_in rows.now)) }
    {
        for row in rows {
            self.add_row(alloc, row)?;
        }
        Ok(())
    }
}

/// The fixes of rows behind so many, in order. Each is short enough for one packet.
pub(crate) fn fixes_behind(alloc: Global, rows: &[Row], mark: u64) -> Result<Seq<Fix>, Memory>
    requires { AllByRecursion HasShortFixes rows.now }
    ensures { IfOk result (λ fixes. fixes ≡ drop mark (fixes_in rows.now)) }
{
    let mut behind = Behind {
        left: mark,
        fixes: Seq::new(alloc),
    };
    behind.add_rows(alloc, rows)?;
    let Behind { left: _, fixes } = behind;
    Ok(fixes)
}
