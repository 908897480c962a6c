//! Parameters and their kinds.

ghost use Rattle.std.specs.Prelude.{◌≡◌, ◌<◌, ◌^◌, ◌↔◌, length, IsTrue, IfOk, OnOk};
ghost use Rattle.std.specs.Int.{w16, w32, from_be_bytes};
ghost use Rattle.jt_params.specs.Params.{kind, valued, value_octets, IsShort, ValueFits};
ghost use Rattle.jt_params.specs.declared.param.ParamValue.TheVariants as values;

use jt_layout::{Element, Reader, Writer, octets_fit};
use jt_value::{CodecError, Memory, Octets};
use std::alloc::{AllocError, Global};

/// A parameter of a terminal (the standard's parameter item).
#[derive(Drop)]
pub struct Param {
    /// Every number is accepted.
    pub id: u32,
    pub value: ParamValue,
}

/// The value of a parameter, at most 255 octets. It is typed exactly where its length is that of its id's kind (this
/// project's rule).
#[derive(Drop)]
pub enum ParamValue {
    /// One octet.
    Byte(u8),
    /// Two octets.
    Word(u16),
    /// Four octets.
    Dword(u32),
    /// The octets of a text, which is not converted.
    Text(Octets),
    /// Octets under an id of this kind, or of another length than its kind has.
    Raw(Octets),
}

/// The kind under which an id's value is typed. For the ids that this project types it is the standard's, in the edition of
/// 2013. Every other id is raw, whatever the standard says of it, and both editions have the same table (this project's
/// choice).
#[derive(Clone, Copy, Debug, PartialEq, Eq)]
pub enum Kind {
    /// One octet.
    Byte,
    /// Two octets.
    Word,
    /// Four octets.
    Dword,
    /// At most 255 octets.
    Text,
    /// At most 255 octets: the kind of each id that is not typed.
    Raw,
}

/// The kind of an id, for every id.
#[tactic(auto, unfolding(crate::specs::Params::kind))]
pub fn kind_of(id: u32) -> Kind
    ensures { result ≡ kind id }
{
    match id {
        0x0001 | 0x0002 | 0x0003 | 0x0018 | 0x0029 | 0x0055 | 0x0080 => Kind::Dword,
        0x0081 | 0x0082 => Kind::Word,
        0x0084 => Kind::Byte,
        0x0013 | 0x0083 => Kind::Text,
        _ => Kind::Raw,
    }
}

// A clone is the same parameter.
impl Clone for Param {
    ghost use Rattle.std.specs.Prelude.{◌≡◌};

    ghost is_clone = { λ param copied. copied ≡ param };

    fn clone(&self) -> Result<Param, AllocError> {
        Ok(Param {
            id: self.id,
            value: self.value.clone()?,
        })
    }
}

// A clone is the same value.
impl Clone for ParamValue {
    ghost use Rattle.std.specs.Prelude.{◌≡◌};

    ghost is_clone = { λ value copied. copied ≡ value };

    fn clone(&self) -> Result<ParamValue, AllocError> {
        Ok(match self {
            ParamValue::Byte(number) => ParamValue::Byte(*number),
            ParamValue::Word(number) => ParamValue::Word(*number),
            ParamValue::Dword(number) => ParamValue::Dword(*number),
            ParamValue::Text(octets) => ParamValue::Text(octets.clone()?),
            ParamValue::Raw(octets) => ParamValue::Raw(octets.clone()?),
        })
    }
}

impl ParamValue {
    // The value of these octets under an id of this kind.
    #[tactic(auto, unfolding(crate::specs::Params::valued))]
    fn of(alloc: Global, kind: Kind, octets: &[u8]) -> Result<ParamValue, Memory>
        ensures { IfOk result (λ value. value ≡ valued kind octets.now) }
    {
        Ok(match (kind, octets.len()) {
            (Kind::Byte, 1) => ParamValue::Byte(octets[0]),
            (Kind::Word, 2) => ParamValue::Word(u16::from_be_bytes([octets[0], octets[1]])),
            (Kind::Dword, 4) => ParamValue::Dword(u32::from_be_bytes([
                octets[0], octets[1], octets[2], octets[3],
            ])),
            (Kind::Text, _) => ParamValue::Text(Octets::from_vec(Vec::from_slice(alloc, octets)?)),
            _ => ParamValue::Raw(Octets::from_vec(Vec::from_slice(alloc, octets)?)),
        })
    }

    // Whether the value has octets under an id of this kind.
    #[tactic(auto, unfolding(crate::specs::Params::ValueFits, crate::specs::Params::valued))]
    fn fits(&self, kind: Kind) -> bool
        ensures { IsTrue result ↔ ValueFits kind self.now }
    {
        // Numbers that are read are known to fit their fields.
        match self {
            ParamValue::Byte(number) => {
                let _number = *number;
                kind == Kind::Byte
            }
            ParamValue::Word(number) => {
                let _number = *number;
                kind == Kind::Word
            }
            ParamValue::Dword(number) => {
                let _number = *number;
                kind == Kind::Dword
            }
            ParamValue::Text(text) => kind == Kind::Text && is_short(text.as_slice()),
            ParamValue::Raw(octets) => is_short(octets.as_slice())
                && stays_raw(kind, octets.as_slice()),
        }
    }

    // The number of octets.
    #[tactic(auto, unfolding(crate::specs::Params::value_octets))]
    fn size(&self) -> usize
        ensures { result ≡ length (value_octets self.now) }
    {
        match self {
            ParamValue::Byte(_) => 1,
            ParamValue::Word(_) => 2,
            ParamValue::Dword(_) => 4,
            ParamValue::Text(octets) | ParamValue::Raw(octets) => octets.len(),
        }
    }
}

// Whether a value may have these octets.
fn is_short(octets: &[u8]) -> bool
    ensures { IsTrue result ↔ IsShort octets.now }
{
    octets_fit(octets, octets.len()) && octets.len() < 256
}

// Whether no value under this kind is typed that has so many octets.
#[tactic(auto, unfolding(crate::specs::Params::valued))]
fn stays_raw(kind: Kind, octets: &[u8]) -> bool
    ensures { IsTrue result ↔ (valued kind octets.now ≡ values.Raw octets.now) }
{
    match kind {
        Kind::Byte => octets.len() != 1,
        Kind::Word => octets.len() != 2,
        Kind::Dword => octets.len() != 4,
        Kind::Text => false,
        Kind::Raw => true,
    }
}

impl Element for Param {
    ghost use Rattle.jt_params.specs.Params.{param};

    ghost layout = { param };

    #[tactic(auto, unfolding(crate::specs::Params::param, crate::specs::Params::ParamFits))]
    fn fits_in_list(&self) -> bool {
        // A number that is read is known to fit its field.
        let id = self.id;
        self.value.fits(kind_of(id))
    }

    #[tactic(auto, unfolding(crate::specs::Params::param))]
    fn read(alloc: Global, reader: &mut Reader<'_>) -> Result<Param, CodecError> {
        let id = reader.dword()?;
        let count = reader.byte()?;
        let octets = reader.slice(count as usize)?;
        let value = ParamValue::of(alloc, kind_of(id), octets)?;
        Ok(Param { id, value })
    }

    #[tactic(auto, using(std::proofs::Common::append_assoc), unfolding(crate::specs::Params::param, crate::specs::Params::ParamFits, crate::specs::Params::ValueFits, crate::specs::Params::value_octets, jt_layout::specs::Layout::octets_of, jt_layout::specs::Layout::number))]
    fn write(&self, _alloc: Global, writer: &mut Writer) -> Result<(), Memory> {
        writer.dword(self.id)?;
        writer.byte(self.value.size() as u8)?;
        match &self.value {
            ParamValue::Byte(number) => writer.byte(*number),
            ParamValue::Word(number) => writer.word(*number),
            ParamValue::Dword(number) => writer.dword(*number),
            ParamValue::Text(octets) | ParamValue::Raw(octets) => writer.octets(octets.as_slice()),
        }
    }
}
