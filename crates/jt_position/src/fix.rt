//! Fixes: the positions that a terminal records.

ghost use Rattle.std.specs.Prelude.{◌≡◌, IfOk};
ghost use Rattle.jt_position.specs.Fixes.{IsFix, FixAnswer, FixesAre, position_at};
ghost use Rattle.jt_position.specs.Positions.{position};

use crate::fixed::Fixed;
use crate::position::{Position, write_position};
use crate::position_view::view_position;
use jt_value::limits::BODY_LIMIT;
use jt_value::{Memory, Octets, Refusal, Seq};
use std::alloc::{AllocError, Global};
use std::marker::Model;

/// The octets of a position, at most 1,023.
#[derive(Drop)]
pub struct Fix {
    octets: Octets,
}

impl Model for Fix {
    ghost use Rattle.std.specs.Prelude.{ℕ, List, ◌≤◌, length, IsTrue};
    ghost use Rattle.jt_value.specs.declared.limits.TheConstants.{BODY_LIMIT};
    ghost use Rattle.jt_value.specs.Octets.{AreOctets};
    ghost use Rattle.jt_position.specs.Views.{is_position};

    ghost Value = { List ℕ };

    ghost view = { λ fix. fix.octets };

    ghost invariant = { λ fix. (length fix.octets ≤ BODY_LIMIT) × AreOctets fix.octets × IsTrue (is_position fix.octets) };
}

/// Why octets are no fix.
#[derive(Clone, Copy, Debug, PartialEq, Eq)]
pub enum FixError {
    /// More than 1,023 octets, and how many.
    Long(u64),
    /// At most 1,023 octets that are no position, and the reason.
    Refused(Refusal),
    /// Memory was wanted and refused.
    Memory,
}

impl From<Refusal> for FixError {
    ghost use Rattle.jt_position.specs.declared.fix.FixError.TheVariants.{Refused};

    ghost from_gives = { λ refusal error. error ≡ Refused refusal };

    fn from(refusal: Refusal) -> FixError {
        FixError::Refused(refusal)
    }
}

impl From<AllocError> for FixError {
    ghost use Rattle.jt_position.specs.declared.fix.FixError.TheVariants.{Memory};

    ghost from_gives = { λ _ error. error ≡ Memory };

    fn from(_error: AllocError) -> FixError {
        FixError::Memory
    }
}

impl Fix {
    /// Takes octets that are a position. Long comes exactly where there are more than 1,023, then Refused where they are no
    /// position.
    pub fn read(alloc: Global, octets: &[u8]) -> Result<Fix, FixError>
        ensures { FixAnswer octets.now result }
    {
        if octets.len() > BODY_LIMIT {
            return Err(FixError::Long(octets.len() as u64));
        }
        view_position(octets)?;
        Ok(Fix {
            octets: Octets::from_vec(Vec::from_slice(alloc, octets)?),
        })
    }

    /// The 28 octets of a position at a latitude, in millionths of a degree: on the meridian of 113 degrees east, at rest, at
    /// 2024-01-01 00:00:00, with the status bits of a running engine and of a position that was found.
    pub fn at(alloc: Global, lat: u32) -> Result<Fix, Memory>
        ensures { IfOk result (λ fix. fix ≡ position.spell (position_at lat)) }
    {
        let fixed = Fixed {
            alarm: 0,
            status: 3,
            lat,
            lon: 113_000_000,
            altitude: 0,
            speed: 0,
            direction: 0,
            time: [0x24, 0x01, 0x01, 0x00, 0x00, 0x00],
        };
        let position = Position {
            fixed,
            items: Seq::new(alloc),
        };
        Ok(Fix {
            octets: write_position(alloc, &position)?,
        })
    }

    /// The octets of the position.
    pub fn as_slice(&self) -> &[u8]
        ensures octets { result.now ≡ self.now }
        ensures fix { IsFix self.now }
    {
        self.octets.as_slice()
    }
}

impl Clone for Fix {
    ghost is_clone = { λ fix clone. clone ≡ fix };

    fn clone(&self) -> Result<Fix, AllocError> {
        Ok(Fix {
            octets: self.octets.clone()?,
        })
    }
}

/// The law of fixes: which octets are the fixes of a message, and that those of messages in a row follow one another.
pub fn law_fixes()
    ensures { FixesAre }
{}
