//! Authentications of terminals.

ghost use Rattle.std.specs.Prelude.{◌≡◌, ◌↔◌, ◌++◌, IsTrue, IfOk, OnOk};
ghost use Rattle.jt_value.specs.declared.phone.Edition.{Edition};
ghost use Rattle.jt_layout.specs.Answer.{Answers, IsOneToOne};
ghost use Rattle.jt_layout.specs.Reading.{Finds, Gives};
ghost use Rattle.jt_register.specs.Registration as layouts;

use jt_layout::{Reader, Writer, octets_fit};
use jt_value::{CodecError, Edition, Memory, Octets, Refusal};
use std::alloc::Global;

const IMEI_LEN: usize = 15;

const SOFTWARE_LEN: usize = 20;

/// What an authentication has behind its code in 2019 alone.
#[derive(Clone, Copy, Debug, PartialEq, Eq)]
pub struct AuthTail {
    /// The id of the terminal's mobile equipment.
    pub imei: [u8; 15],
    /// The version of the terminal's software.
    pub software: [u8; 20],
}

impl AuthTail {
    // Every value fits.
    #[tactic(auto, unfolding(crate::specs::Registration::auth_tail, jt_layout::specs::Layout::octets_of))]
    fn fits(&self) -> bool
        ensures { IsTrue result × layouts.auth_tail.Fits self.now }
    {
        octets_fit(&self.imei, IMEI_LEN) && octets_fit(&self.software, SOFTWARE_LEN)
    }

    #[tactic(auto, unfolding(crate::specs::Registration::auth_tail))]
    fn read(reader: &mut Reader<'_>) -> Result<AuthTail, Refusal>
        ensures value { Finds (λ tail. (tail, reader.new.place)) result
            (layouts.auth_tail.read reader.old.octets reader.old.place) }
        ensures octets { reader.new.octets ≡ reader.old.octets }
    {
        let mut imei = [0; IMEI_LEN];
        imei.copy_from_slice(reader.slice(IMEI_LEN)?);
        let mut software = [0; SOFTWARE_LEN];
        software.copy_from_slice(reader.slice(SOFTWARE_LEN)?);
        Ok(AuthTail { imei, software })
    }

    #[tactic(auto, using(std::proofs::Common::append_assoc), unfolding(crate::specs::Registration::auth_tail, jt_layout::specs::Layout::octets_of))]
    fn write(&self, writer: &mut Writer) -> Result<(), Memory>
        ensures { OnOk result (writer.new ≡ writer.old ++ layouts.auth_tail.spell self.now) }
    {
        writer.octets(&self.imei)?;
        writer.octets(&self.software)
    }
}

/// A terminal authenticates itself (the standard's message body of an authentication in 2013, and this project's profile of it
/// in 2019).
#[derive(Drop)]
pub struct Auth {
    /// The code of the reply to its registration: in 2013 all octets of the body, in 2019 at most 255.
    pub code: Octets,
    /// None in 2013, Some in 2019.
    pub tail: Option<AuthTail>,
}

impl Auth {
    /// Whether the edition has octets for the authentication: in 2013 exactly where it has no tail, in 2019 exactly where it
    /// has one and its code is at most 255 octets long.
    #[tactic(auto, unfolding(crate::specs::Registration::auth_2013, crate::specs::Registration::auth_2019, jt_layout::specs::Layout::rest, jt_layout::specs::Layout::number, jt_layout::specs::Layout::octets_of))]
    pub fn fits(&self, edition: Edition) -> bool
        ensures { IsTrue result ↔ (layouts.auth edition).Fits self.now }
    {
        let code = octets_fit(self.code.as_slice(), self.code.len());
        match (edition, &self.tail) {
            (Edition::E2013, None) => code,
            (Edition::E2019, Some(tail)) => code && tail.fits() && self.code.len() < 256,
            _ => false,
        }
    }
}

#[tactic(auto, unfolding(crate::specs::Registration::auth_2013))]
fn code_alone_in(alloc: Global, octets: &[u8]) -> Result<Auth, CodecError>
    ensures { Gives (λ auth. auth) result (layouts.auth_2013.read octets.now 0) }
{
    let code = Reader::new(octets).rest(alloc)?;
    Ok(Auth { code, tail: None })
}

#[tactic(auto, unfolding(crate::specs::Registration::auth_2019))]
fn code_and_tail_in(alloc: Global, octets: &[u8]) -> Result<Auth, CodecError>
    ensures { Gives (λ auth. auth) result (layouts.auth_2019.read octets.now 0) }
{
    let mut reader = Reader::new(octets);
    let len = reader.byte()?;
    let code = reader.octets(alloc, len as usize)?;
    let tail = AuthTail::read(&mut reader)?;
    reader.end()?;
    let tail = Some(tail);
    Ok(Auth { code, tail })
}

fn auth_in(alloc: Global, edition: Edition, octets: &[u8]) -> Result<Auth, CodecError>
    ensures { Gives (λ auth. auth) result ((layouts.auth edition).read octets.now 0) }
{
    match edition {
        Edition::E2013 => code_alone_in(alloc, octets),
        Edition::E2019 => code_and_tail_in(alloc, octets),
    }
}

/// Reads an authentication's body of this edition. In 2013 no octets are refused. In 2019 Refused is Truncated at the first
/// field that passes the end, or Trailing at the first octet behind the software's version.
pub fn read_auth(alloc: Global, edition: Edition, octets: &[u8]) -> Result<Auth, CodecError>
    ensures { Answers (layouts.auth edition) octets.now result }
{
    auth_in(alloc, edition, octets)
}

#[tactic(auto, using(std::proofs::Common::append_assoc), unfolding(crate::specs::Registration::auth_2019, jt_layout::specs::Layout::number, jt_layout::specs::Layout::octets_of))]
fn write_code_and_tail(alloc: Global, auth: &Auth) -> Result<Octets, Memory>
    requires { layouts.auth_2019.Fits auth.now }
    ensures { IfOk result (λ octets. octets ≡ layouts.auth_2019.spell auth.now) }
{
    let mut writer = Writer::new(alloc);
    writer.byte(auth.code.len() as u8)?;
    writer.octets(auth.code.as_slice())?;
    if let Some(tail) = &auth.tail {
        tail.write(&mut writer)?;
    }
    Ok(writer.finish())
}

/// The body of an authentication that fits the edition.
#[tactic(auto, using(crate::proofs::RegistrationLaws::spell_auth))]
pub fn write_auth(alloc: Global, edition: Edition, auth: &Auth) -> Result<Octets, Memory>
    requires { (layouts.auth edition).Fits auth.now }
    ensures { IfOk result (λ octets. octets ≡ (layouts.auth edition).spell auth.now) }
{
    match edition {
        Edition::E2013 => auth.code.copy(alloc),
        Edition::E2019 => write_code_and_tail(alloc, auth),
    }
}

/// The law of authentications: in each edition, octets have exactly one authentication or exactly one reason.
pub fn law_auths()
    ensures { (edition : Edition) → IsOneToOne (layouts.auth edition) }
{}
