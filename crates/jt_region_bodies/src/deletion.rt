//! Deletions.

ghost use Rattle.std.specs.Prelude.{◌≡◌, ◌↔◌, ◌++◌, IsTrue, IfOk};
ghost use Rattle.jt_layout.specs.Answer.{Answers, IsOneToOne};
ghost use Rattle.jt_layout.specs.Reading.{Gives, Judges};
ghost use Rattle.jt_region_bodies.specs.Regions as layouts;

use jt_layout::{Reader, Writer, all_fit};
use jt_value::{CodecError, Memory, Octets, Seq};
use std::alloc::Global;

/// Regions of one kind are deleted (the standard's message bodies of the deletion of regions and routes).
#[derive(Drop)]
pub struct Deletion {
    /// At most 255. No ids stand for all regions of the kind.
    pub ids: Seq<u32>,
}

impl Deletion {
    ghost use Rattle.jt_region_bodies.specs.Regions.{deletion};

    /// Whether the deletion has octets: at most 255 ids.
    #[tactic(auto, unfolding(crate::specs::Regions::deletion))]
    pub fn fits(&self) -> bool
        ensures { IsTrue result ↔ deletion.Fits self.now }
    {
        ids_fit(&self.ids)
    }
}

/// Whether ids have octets as a deletion: at most 255.
#[tactic(auto, unfolding(crate::specs::Regions::deletion, jt_layout::specs::Layout::number))]
pub fn ids_fit(ids: &Seq<u32>) -> bool
    ensures { IsTrue result ↔ layouts.deletion.Fits (record { ids = ids.now }) }
{
    ids.len() < 256 && all_fit(ids.as_slice())
}

#[tactic(auto, unfolding(crate::specs::Regions::deletion))]
fn deletion_in(alloc: Global, octets: &[u8]) -> Result<Deletion, CodecError>
    ensures { Gives (λ deletion. deletion) result (layouts.deletion.read octets.now 0) }
{
    let mut reader = Reader::new(octets);
    let count = reader.byte()?;
    let ids = reader.list(alloc, count as usize)?;
    reader.end()?;
    Ok(Deletion { ids })
}

/// Reads a deletion's body. Refused is Truncated at the first field that passes the end, or Trailing where octets are left
/// behind the last id.
pub fn read_deletion(alloc: Global, octets: &[u8]) -> Result<Deletion, CodecError>
    ensures { Answers layouts.deletion octets.now result }
{
    deletion_in(alloc, octets)
}

/// Judges a deletion's body: the refusal is that of `read_deletion`, and no list is made.
#[tactic(auto, unfolding(crate::specs::Regions::deletion))]
pub fn judge_deletion(alloc: Global, octets: &[u8]) -> Result<(), CodecError>
    ensures { Judges result (layouts.deletion.read octets.now 0) }
{
    let mut reader = Reader::new(octets);
    let count = reader.byte()?;
    reader.pass::<u32>(alloc, count as usize)?;
    Ok(reader.end()?)
}

/// The body of a deletion of at most 255 ids.
#[tactic(auto, unfolding(crate::specs::Regions::deletion))]
pub fn write_deletion(alloc: Global, deletion: &Deletion) -> Result<Octets, Memory>
    requires { layouts.deletion.Fits deletion.now }
    ensures { IfOk result (λ octets. octets ≡ layouts.deletion.spell deletion.now) }
{
    write_ids(alloc, &deletion.ids)
}

/// The body of the deletion of these ids, of which there are at most 255.
#[tactic(auto, using(std::proofs::Common::append_assoc), unfolding(crate::specs::Regions::deletion, jt_layout::specs::Layout::number))]
pub fn write_ids(alloc: Global, ids: &Seq<u32>) -> Result<Octets, Memory>
    requires { layouts.deletion.Fits (record { ids = ids.now }) }
    ensures { IfOk result (λ octets. octets ≡ layouts.deletion.spell (record { ids = ids.now })) }
{
    let mut writer = Writer::new(alloc);
    writer.byte(ids.len() as u8)?;
    writer.list(alloc, ids.as_slice())?;
    Ok(writer.finish())
}

/// The law of deletions: octets have exactly one deletion or exactly one reason.
pub fn law_deletions()
    ensures { IsOneToOne layouts.deletion }
{}
