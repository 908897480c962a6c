//! Replies to registrations.

ghost use Rattle.std.specs.Prelude.{◌≡◌, ◌==◌, ◌↔◌, ◌++◌, IsTrue, IfOk};
ghost use Rattle.jt_layout.specs.Answer.{Answers, IsOneToOne};
ghost use Rattle.jt_layout.specs.Layout.{rest_if};
ghost use Rattle.jt_layout.specs.Reading.{Gives};
ghost use Rattle.jt_register.specs.Registration.{register_reply};

use jt_layout::{Reader, Writer, octets_fit};
use jt_value::{CodecError, Memory, Octets};
use std::alloc::Global;

/// The platform's answer to a registration (the standard's message body of a registration's response).
#[derive(Drop)]
pub struct RegisterReply {
    /// The serial of the registration.
    pub reply: u16,
    /// 0 success, 1 vehicle already registered, 2 no such vehicle, 3 terminal already registered, 4 no such terminal.
    /// Every octet is accepted.
    pub result: u8,
    /// The code to authenticate with, all octets up to the body's end; empty unless the result is 0.
    pub code: Octets,
}

impl RegisterReply {
    /// Whether the reply has octets: the code is empty unless the result is 0.
    #[tactic(auto, unfolding(crate::specs::Registration::register_reply, jt_layout::specs::Layout::number, jt_layout::specs::Layout::rest))]
    pub fn fits(&self) -> bool
        ensures { IsTrue result ↔ register_reply.Fits self.now }
    {
        // Numbers that are read are known to fit their fields.
        let RegisterReply {
            reply,
            result: answer,
            code,
        } = self;
        let _reply = *reply;
        octets_fit(code.as_slice(), code.len()) && (*answer == 0 || code.is_empty())
    }
}

// The code, if there is one.
fn code_in(alloc: Global, reader: &mut Reader<'_>, answer: u8) -> Result<Octets, CodecError>
    ensures { Gives (λ code. code) result
        ((rest_if (answer == 0)).read reader.old.octets reader.old.place) }
{
    if answer == 0 {
        return reader.rest(alloc);
    }
    reader.end()?;
    Ok(Octets::new(alloc))
}

#[tactic(auto, unfolding(crate::specs::Registration::register_reply))]
fn register_reply_in(alloc: Global, octets: &[u8]) -> Result<RegisterReply, CodecError>
    ensures { Gives (λ reply. reply) result (register_reply.read octets.now 0) }
{
    let mut reader = Reader::new(octets);
    let reply = reader.word()?;
    let answer = reader.byte()?;
    let code = code_in(alloc, &mut reader, answer)?;
    Ok(RegisterReply {
        reply,
        result: answer,
        code,
    })
}

/// Reads the body of a reply to a registration. Refused is Truncated at the first field that passes the end, or Trailing
/// where octets stand behind a result that is not 0.
pub fn read_register_reply(alloc: Global, octets: &[u8]) -> Result<RegisterReply, CodecError>
    ensures { Answers register_reply octets.now result }
{
    register_reply_in(alloc, octets)
}

/// The body of a reply to a registration, whose code is empty unless its result is 0.
#[tactic(auto, using(std::proofs::Common::append_assoc, jt_layout::proofs::Laws::spell_rest_if), unfolding(crate::specs::Registration::register_reply))]
pub fn write_register_reply(alloc: Global, reply: &RegisterReply) -> Result<Octets, Memory>
    requires { register_reply.Fits reply.now }
    ensures { IfOk result (λ octets. octets ≡ register_reply.spell reply.now) }
{
    let mut writer = Writer::new(alloc);
    writer.word(reply.reply)?;
    writer.byte(reply.result)?;
    writer.octets(reply.code.as_slice())?;
    Ok(writer.finish())
}

/// The law of replies to registrations: octets have exactly one reply or exactly one reason.
pub fn law_register_replies()
    ensures { IsOneToOne register_reply }
{}
