//! Batches as they stand in the octets.

ghost use Rattle.std.specs.Prelude.{◌≡◌, length, MatchResult};
ghost use Rattle.jt_value.specs.Octets.{AreOctets};
ghost use Rattle.jt_layout.specs.Layout.{Fills};
ghost use Rattle.jt_layout.specs.Reading.{Finds};
ghost use Rattle.jt_position.specs.Positions.{batch};

use crate::position_view::PositionView;
use jt_layout::Reader;
use jt_value::Refusal;
use std::marker::Model;

/// The positions of a batch, one after the other, read in place and with no memory.
#[derive(Drop)]
pub struct Positions<'a> {
    reader: Reader<'a>,
    left: u16,
}

impl<'a> Model for Positions<'a> {
    ghost use Rattle.std.specs.Prelude.{List, IsTrue};
    ghost use Rattle.jt_value.specs.Octets.{AreOctets};
    ghost use Rattle.jt_position.specs.declared.position.Position.{Position};
    ghost use Rattle.jt_position.specs.BatchViews.{positions_from, reads_positions};

    ghost Value = { List Position };

    ghost view = { λ positions. positions_from positions.left positions.reader.octets positions.reader.place };

    ghost invariant = { λ positions. IsTrue (reads_positions positions.left positions.reader.octets positions.reader.place)
        × AreOctets positions.reader.octets };
}

impl<'a> Positions<'a> {
    ghost use Rattle.jt_layout.specs.Layout.{sized, times, word};
    ghost use Rattle.jt_position.specs.Positions.{position};

    /// How many positions are left.
    #[inline(always)]
    pub fn left(&self) -> u16
        ensures { result ≡ length self.now }
    {
        self.left
    }

    // The next so many positions, each behind its length, or the first reason against one.
    fn of(reader: &mut Reader<'a>, count: u16) -> Result<Positions<'a>, Refusal>
        requires { AreOctets reader.old.octets }
        ensures value { Finds (λ positions. (positions, reader.new.place)) result
            ((times count (sized word position)).read reader.old.octets reader.old.place) }
        ensures octets { reader.new.octets ≡ reader.old.octets }
    {
        let start = reader.ahead();
        for _ in 0..count {
            PositionView::read_sized(reader)?;
        }
        Ok(Positions {
            reader: start,
            left: count,
        })
    }
}

impl<'a> Iterator for Positions<'a> {
    ghost use Rattle.std.specs.Iterator.{YieldsFirstBy, item_count};
    ghost use Rattle.jt_position.specs.BatchViews.{position_in_view};

    type Item = PositionView<'a>;

    ghost next_gives = { YieldsFirstBy position_in_view (λ left. left) };

    ghost remaining = { item_count (λ left. left) };

    fn next(&mut self) -> Option<PositionView<'a>> {
        if self.left == 0 {
            return None;
        }
        self.left -= 1;
        PositionView::read_sized(&mut self.reader).ok()
    }
}

/// A batch whose positions are read in place: the fields of `Batch`, with no memory.
#[derive(Drop)]
pub struct BatchView<'a> {
    pub kind: u8,
    pub fixes: Positions<'a>,
}

#[tactic(auto, unfolding(crate::specs::Positions::batch))]
fn view_in(octets: &[u8]) -> Result<BatchView<'_>, Refusal>
    ensures { Finds (λ view. record { kind = view.kind; fixes = view.fixes }) result
        (batch.read octets.now 0) }
{
    let mut reader = Reader::new(octets);
    let count = reader.word()?;
    let kind = reader.byte()?;
    let fixes = Positions::of(&mut reader, count)?;
    reader.end()?;
    Ok(BatchView { kind, fixes })
}

/// Reads a batch's body in place: the kind and the positions that `read_batch` gives, raw values being the slices of the
/// octets where they stand. Refusals are those of `read_batch`.
pub fn view_batch(octets: &[u8]) -> Result<BatchView<'_>, Refusal>
    ensures batch { MatchResult result
        (λ view. Fills batch octets.now 0 (record { kind = view.kind; fixes = view.fixes }))
        (λ refusal. batch.Refuses octets.now 0 refusal) }
{
    view_in(octets)
}
