//! Positions and their items as they stand in the octets.

ghost use Rattle.std.specs.Prelude.{◌≡◌, ◌<◌, ◌^◌, length, MatchResult};
ghost use Rattle.jt_value.specs.Octets.{AreOctets};
ghost use Rattle.jt_layout.specs.Layout.{Fills, sized, word};
ghost use Rattle.jt_layout.specs.Reading.{Finds};
ghost use Rattle.jt_position.specs.Positions.{position};

use crate::fixed::Fixed;
use crate::item_view::ItemView;
use jt_layout::Reader;
use jt_value::Refusal;
use std::marker::Model;

/// The items of a position, one after the other, read in place and with no memory.
#[derive(Drop)]
pub struct Items<'a> {
    reader: Reader<'a>,
}

impl<'a> Model for Items<'a> {
    ghost use Rattle.std.specs.Prelude.{◌≡◌, List, IsTrue, is_ok};
    ghost use Rattle.jt_value.specs.Octets.{AreOctets};
    ghost use Rattle.jt_position.specs.declared.item.Item.{Item};
    ghost use Rattle.jt_position.specs.Views.{items_from, reads_from};

    ghost Value = { List Item };

    ghost view = { λ items. items_from items.reader.octets items.reader.place };

    ghost invariant = { λ items. IsTrue (reads_from items.reader.octets items.reader.place) × AreOctets items.reader.octets };
}

impl<'a> Items<'a> {
    ghost use Rattle.std.specs.List.{flat_map};
    ghost use Rattle.jt_layout.specs.Layout.{to_the_end};
    ghost use Rattle.jt_position.specs.Positions.{item};

    // How many octets the items have.
    #[inline(always)]
    fn size(&self) -> usize
        ensures size { result ≡ length (flat_map item.spell self.now) }
        ensures within { result < 2 ^ 63 }
    {
        self.reader.left()
    }

    // All items from the reader's place up to the end, or the first reason against one.
    #[inline(always)]
    fn of(reader: &Reader<'a>) -> Result<Items<'a>, Refusal>
        requires { AreOctets reader.now.octets }
        ensures { Finds (λ items. items) result
            ((to_the_end item).read reader.now.octets reader.now.place) }
    {
        let mut ahead = reader.ahead();
        while !ahead.is_at_end() {
            ItemView::read(&mut ahead)?;
        }
        Ok(Items {
            reader: reader.ahead(),
        })
    }
}

impl<'a> Iterator for Items<'a> {
    ghost use Rattle.std.specs.Iterator.{YieldsFirstBy, item_count};
    ghost use Rattle.jt_position.specs.Views.{item_in_view};

    type Item = ItemView<'a>;

    ghost next_gives = { YieldsFirstBy item_in_view (λ left. left) };

    ghost remaining = { item_count (λ left. left) };

    #[inline(always)]
    fn next(&mut self) -> Option<ItemView<'a>> {
        if self.reader.is_at_end() {
            return None;
        }
        ItemView::read(&mut self.reader).ok()
    }
}

/// A position whose items are read in place: the fields of `Position`, with no memory.
#[derive(Drop)]
pub struct PositionView<'a> {
    pub fixed: Fixed,
    pub items: Items<'a>,
}

impl<'a> PositionView<'a> {
    ghost use Rattle.jt_position.specs.Positions.{position};

    /// How many octets the position has.
    #[inline(always)]
    #[tactic(auto, unfolding(crate::specs::Positions::position))]
    pub fn size(&self) -> usize
        ensures { result
            ≡ length (position.spell (record { fixed = self.now.fixed; items = self.now.items })) }
    {
        // It says that the fixed fields have 28.
        self.fixed.fits();
        28 + self.items.size()
    }

    // Reads a position from where the reader stands up to its end.
    #[inline(always)]
    #[tactic(auto, unfolding(crate::specs::Positions::position))]
    fn read_from(mut reader: Reader<'a>) -> Result<PositionView<'a>, Refusal>
        requires { AreOctets reader.octets }
        ensures { Finds (λ view. record { fixed = view.fixed; items = view.items }) result
            (position.read reader.entry.octets reader.entry.place) }
    {
        let fixed = Fixed::read(&mut reader)?;
        let items = Items::of(&reader)?;
        Ok(PositionView { fixed, items })
    }

    // Reads a position that stands behind its length, as in a batch.
    #[inline(always)]
    pub(crate) fn read_sized(reader: &mut Reader<'a>) -> Result<PositionView<'a>, Refusal>
        requires { AreOctets reader.old.octets }
        ensures value { Finds (λ view.
            (record { fixed = view.fixed; items = view.items }, reader.new.place))
            result ((sized word position).read reader.old.octets reader.old.place) }
        ensures octets { reader.new.octets ≡ reader.old.octets }
    {
        let count = reader.word()?;
        let inner = reader.within(count as usize)?;
        PositionView::read_from(inner)
    }
}

/// Reads a position report's body in place: the fixed fields and the items that `read_position` gives, raw values being the
/// slices of the octets where they stand. An error is Truncated at the first field that passes the end.
#[inline(always)]
pub fn view_position(octets: &[u8]) -> Result<PositionView<'_>, Refusal>
    ensures position { MatchResult result
        (λ view. Fills position octets.now 0 (record { fixed = view.fixed; items = view.items }))
        (λ refusal. position.Refuses octets.now 0 refusal) }
{
    PositionView::read_from(Reader::new(octets))
}
