//! What a caller shows to act.

ghost use Rattle.std.specs.Prelude.{◌≡◌};

use crate::desk::Desk;
use crate::known::Known;
use atomic_table::Seat;
use std::marker::Model;

/// The right to act at a turn's desk under one number. It takes four octets. Contracts see it as what its holder knows of the
/// desk's history.
#[derive(Drop)]
pub struct Pass<D: Desk> {
    pub(crate) seat: Seat<Option<D>, Option<Known<D::Ask, D::Answer, D::Opening>>>,
    pub(crate) number: u32,
}

impl<D: Desk> Model for Pass<D> {
    ghost use Rattle.jt_turn.specs.Passes.{PassState};
    ghost use Rattle.jt_turn.specs.Seats.{told, PassOk};

    ghost Value = { PassState D.Ask D.Answer D.Opening };

    ghost view = { λ pass. told D.blank pass.seat.table_id pass.seat.me.0 };

    ghost invariant = { λ pass. PassOk pass.number pass.seat.me };
}

impl<D: Desk> Pass<D> {
    /// The number under which it acts.
    pub fn number(&self) -> u32
        ensures { result ≡ self.now.number }
    {
        self.number
    }
}
