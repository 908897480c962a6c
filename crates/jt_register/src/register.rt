//! Registrations of terminals.

ghost use Rattle.std.specs.Prelude.{◌≡◌, ◌↔◌, ◌++◌, IsTrue, IfOk};
ghost use Rattle.jt_value.specs.declared.phone.Edition.{Edition};
ghost use Rattle.jt_layout.specs.Answer.{Answers, IsOneToOne};
ghost use Rattle.jt_layout.specs.Reading.{Gives};
ghost use Rattle.jt_register.specs.Registration as layouts;

use jt_layout::{Reader, Writer, octets_fit};
use jt_value::{CodecError, Edition, Memory, Octets};
use std::alloc::Global;

// How many octets the ids in a registration have.
#[derive(Clone, Copy)]
struct IdLengths {
    maker: usize,
    model: usize,
    terminal: usize,
}

const LENGTHS_2013: IdLengths = IdLengths {
    maker: 5,
    model: 20,
    terminal: 7,
};

const LENGTHS_2019: IdLengths = IdLengths {
    maker: 11,
    model: 30,
    terminal: 30,
};

fn lengths_in(edition: Edition) -> IdLengths
    ensures { result ≡ record {
      maker = layouts.maker_len edition;
      model = layouts.model_len edition;
      terminal = layouts.terminal_len edition;
    } }
{
    match edition {
        Edition::E2013 => LENGTHS_2013,
        Edition::E2019 => LENGTHS_2019,
    }
}

/// A terminal asks to be registered with a vehicle (the standard's message body of a registration in 2013, and this
/// project's profile of it in 2019).
#[derive(Drop)]
pub struct Register {
    /// The code of the province. Every number is accepted.
    pub province: u16,
    /// The code of the city. Every number is accepted.
    pub city: u16,
    /// The maker's id: 5 octets in 2013, 11 in 2019.
    pub maker: Octets,
    /// The terminal's model: 20 octets in 2013, 30 in 2019, with the zeros that fill it up.
    pub model: Octets,
    /// The terminal's own id: 7 octets in 2013, 30 in 2019, with the zeros that fill it up.
    pub terminal: Octets,
    /// The colour of the plate. Every octet is accepted.
    pub colour: u8,
    /// The plate, all octets up to the body's end.
    pub plate: Octets,
}

impl Register {
    /// Whether the edition has octets for the registration: the maker, the model and the terminal have its lengths.
    #[tactic(auto, unfolding(crate::specs::Registration::register, jt_layout::specs::Layout::number, jt_layout::specs::Layout::octets_of, jt_layout::specs::Layout::rest))]
    pub fn fits(&self, edition: Edition) -> bool
        ensures { IsTrue result ↔ (layouts.register edition).Fits self.now }
    {
        // Numbers that are read are known to fit their fields.
        let Register {
            province,
            city,
            maker,
            model,
            terminal,
            colour,
            plate,
        } = self;
        let (_province, _city, _colour) = (*province, *city, *colour);
        let lengths = lengths_in(edition);
        octets_fit(plate.as_slice(), plate.len())
            && octets_fit(maker.as_slice(), lengths.maker)
            && octets_fit(model.as_slice(), lengths.model)
            && octets_fit(terminal.as_slice(), lengths.terminal)
    }
}

#[tactic(auto, unfolding(crate::specs::Registration::register))]
fn register_in(alloc: Global, edition: Edition, octets: &[u8]) -> Result<Register, CodecError>
    ensures { Gives (λ register. register) result ((layouts.register edition).read octets.now 0) }
{
    let lengths = lengths_in(edition);
    let mut reader = Reader::new(octets);
    let province = reader.word()?;
    let city = reader.word()?;
    let maker = reader.octets(alloc, lengths.maker)?;
    let model = reader.octets(alloc, lengths.model)?;
    let terminal = reader.octets(alloc, lengths.terminal)?;
    let colour = reader.byte()?;
    let plate = reader.rest(alloc)?;
    Ok(Register {
        province,
        city,
        maker,
        model,
        terminal,
        colour,
        plate,
    })
}

/// Reads a registration's body of this edition. Refused is Truncated at the first field that passes the end.
pub fn read_register(alloc: Global, edition: Edition, octets: &[u8]) -> Result<Register, CodecError>
    ensures { Answers (layouts.register edition) octets.now result }
{
    register_in(alloc, edition, octets)
}

/// The body of a registration that fits the edition.
#[tactic(auto, using(std::proofs::Common::append_assoc), unfolding(crate::specs::Registration::register, jt_layout::specs::Layout::octets_of, jt_layout::specs::Layout::rest))]
pub fn write_register(
    alloc: Global,
    edition: Edition,
    register: &Register,
) -> Result<Octets, Memory>
    requires { (layouts.register edition).Fits register.now }
    ensures { IfOk result (λ octets. octets ≡ (layouts.register edition).spell register.now) }
{
    let mut writer = Writer::new(alloc);
    writer.word(register.province)?;
    writer.word(register.city)?;
    writer.octets(register.maker.as_slice())?;
    writer.octets(register.model.as_slice())?;
    writer.octets(register.terminal.as_slice())?;
    writer.byte(register.colour)?;
    writer.octets(register.plate.as_slice())?;
    Ok(writer.finish())
}

/// The law of registrations: in each edition, octets have exactly one registration or exactly one reason.
pub fn law_registrations()
    ensures { (edition : Edition) → IsOneToOne (layouts.register edition) }
{}
