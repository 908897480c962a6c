//! What an order terminal has to say.

ghost use Rattle.std.specs.Prelude.{◌≡◌, ◌++◌, [], IfOk, OnOk};

use jt_terminal::{Actions, GiveUp};
use jt_value::{Buffer, Memory, Octets, Seq};
use std::alloc::Global;
use std::marker::Model;

/// What is to be sent so far, and the acceptances that were told.
#[derive(Drop)]
pub(crate) struct Said {
    pub(crate) frames: Buffer<Octets>,
    told: Buffer<u64>,
}

// Puts frames behind the others.
fn put_frames(out: &mut Buffer<Octets>, frames: Seq<Octets>) -> Result<(), Memory>
    ensures { OnOk result (out.new.items ≡ out.old.items ++ frames) }
{
    for frame in frames.into_vec() {
        out.push(frame)?;
    }
    Ok(())
}

// Puts the places of accepted units behind the others.
fn put_places(out: &mut Buffer<u64>, places: &[u64]) -> Result<(), Memory>
    ensures { OnOk result (out.new.items ≡ out.old.items ++ places.now) }
{
    for place in places {
        out.push(*place)?;
    }
    Ok(())
}

impl Model for Said {
    ghost use Rattle.jt_order_terminal.specs.Feeding.{Sayings};

    ghost Value = { Sayings };

    ghost view = { λ s. record { frames = s.frames.items; told = s.told.items } };
}

impl Said {
    /// Nothing yet.
    pub(crate) fn new(alloc: Global) -> Said
        ensures { result ≡ record { frames = []; told = [] } }
    {
        Said {
            frames: Buffer::new(alloc),
            told: Buffer::new(alloc),
        }
    }

    /// All of it as actions.
    pub(crate) fn into_actions(self, end: Option<GiveUp>) -> Actions
        ensures frames { result.frames ≡ self.frames }
        ensures told { result.told ≡ self.told }
        ensures end { result.end ≡ end }
    {
        let Said { frames, told } = self;
        Actions {
            frames: frames.into_seq(),
            end,
            told: told.into_seq(),
        }
    }

    /// Puts what the wrapped terminal does behind the others, and answers why it gives the line up, if it does.
    pub(crate) fn take(&mut self, actions: Actions) -> Result<Option<GiveUp>, Memory>
        ensures frames { OnOk result (self.new.frames ≡ self.old.frames ++ actions.frames) }
        ensures told { OnOk result (self.new.told ≡ self.old.told ++ actions.told) }
        ensures end { IfOk result (λ end. end ≡ actions.end) }
    {
        let Actions { frames, end, told } = actions;
        put_frames(&mut self.frames, frames)?;
        put_places(&mut self.told, told.as_slice())?;
        Ok(end)
    }
}
