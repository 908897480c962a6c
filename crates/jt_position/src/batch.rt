//! Batches of positions.

ghost use Rattle.std.specs.Prelude.{◌≡◌, ◌↔◌, IsTrue, IfOk};
ghost use Rattle.jt_layout.specs.Answer.{Answers, IsOneToOne};
ghost use Rattle.jt_layout.specs.Reading.{Gives};
ghost use Rattle.jt_position.specs.Positions as layouts;
ghost use Rattle.jt_position.specs.Views.{RawStandsInBatch};

use crate::position::Position;
use jt_layout::{Element, Reader, Writer, all_fit};
use jt_value::{CodecError, Memory, Octets, Seq};
use std::alloc::Global;

/// Positions that are reported together (the standard's message body of a batch of positions).
#[derive(Drop)]
pub struct Batch {
    /// 0 for ordinary reports, 1 for those of a blind area. Every octet is accepted.
    pub kind: u8,
    /// The positions, read, and not as a `Fix` holds them: at most 65,535, each of at most 65,535 octets.
    pub fixes: Seq<Position>,
}

impl Batch {
    ghost use Rattle.jt_position.specs.Positions.{batch};

    /// Whether the batch has octets: at most 65,535 fixes, each of which has octets, and at most 65,535 of them.
    #[tactic(auto, unfolding(crate::specs::Positions::batch, jt_layout::specs::Layout::number))]
    pub fn fits(&self) -> bool
        ensures { IsTrue result ↔ batch.Fits self.now }
    {
        let _kind = self.kind;
        self.fixes.len() < 65_536 && all_fit(self.fixes.as_slice())
    }
}

// In a batch a position stands behind its length.
impl Element for Position {
    ghost use Rattle.jt_layout.specs.Layout.{sized, word};
    ghost use Rattle.jt_position.specs.Positions.{position};

    ghost layout = { sized word position };

    #[tactic(auto, unfolding(jt_layout::specs::Layout::number))]
    fn fits_in_list(&self) -> bool {
        self.fits() && self.is_short()
    }

    fn read(alloc: Global, reader: &mut Reader<'_>) -> Result<Position, CodecError> {
        let count = reader.word()?;
        let mut inner = reader.within(count as usize)?;
        Position::read_from(alloc, &mut inner)
    }

    #[tactic(auto, using(std::proofs::Common::append_assoc), unfolding(jt_layout::specs::Layout::number))]
    fn write(&self, alloc: Global, writer: &mut Writer) -> Result<(), Memory> {
        let mut body = Writer::new(alloc);
        self.write_to(alloc, &mut body)?;
        let body = body.finish();
        writer.word(body.len() as u16)?;
        writer.octets(body.as_slice())
    }
}

#[tactic(auto, unfolding(crate::specs::Positions::batch))]
fn batch_in(alloc: Global, octets: &[u8]) -> Result<Batch, CodecError>
    ensures { Gives (λ batch. batch) result (layouts.batch.read octets.now 0) }
{
    let mut reader = Reader::new(octets);
    let count = reader.word()?;
    let kind = reader.byte()?;
    let fixes = reader.list(alloc, count as usize)?;
    reader.end()?;
    Ok(Batch { kind, fixes })
}

/// Reads a batch's body. A position whose length passes the body's end is Truncated at the position's first octet, any
/// other field that passes its position's end at the field; Trailing is where octets are left after the last position.
pub fn read_batch(alloc: Global, octets: &[u8]) -> Result<Batch, CodecError>
    ensures { Answers layouts.batch octets.now result }
{
    batch_in(alloc, octets)
}

/// The body of a batch of which the table has octets.
#[tactic(auto, using(std::proofs::Common::append_assoc), unfolding(crate::specs::Positions::batch, jt_layout::specs::Layout::number))]
pub fn write_batch(alloc: Global, batch: &Batch) -> Result<Octets, Memory>
    requires { layouts.batch.Fits batch.now }
    ensures { IfOk result (λ octets. octets ≡ layouts.batch.spell batch.now) }
{
    let mut writer = Writer::new(alloc);
    writer.word(batch.fixes.len() as u16)?;
    writer.byte(batch.kind)?;
    writer.list(alloc, batch.fixes.as_slice())?;
    Ok(writer.finish())
}

/// The law of batches: octets have exactly one batch or exactly one reason, and raw values stand at their places.
pub fn law_batches()
    ensures one_to_one { IsOneToOne layouts.batch }
    ensures places { RawStandsInBatch }
{}
