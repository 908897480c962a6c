//! The fields of registrations, their replies and authentications.

ghost use Rattle.std.specs.Prelude.{◌≡◌, ◌++◌, Some, string_bytes, codes, OnOk};
ghost use Rattle.std.specs.Fmt.{decimal};
ghost use Rattle.std.specs.Io.{StartsWith};
ghost use Rattle.jt_text.specs.RegistrationFields.{auth_fields, auth_text, code_text, register_fields, register_reply_fields};
ghost use Rattle.jt_text.specs.Values.{octets_text};

use crate::line::Line;
use crate::values::{push_number, push_octets};
use jt_register::{Auth, AuthTail, Register, RegisterReply};
use std::alloc::AllocError;

#[tactic(auto, using(std::proofs::Common::append_assoc))]
fn push_province_and_city(text: &mut String, register: &Register) -> Result<(), AllocError>
    ensures text { OnOk result (string_bytes text.new ≡ string_bytes text.old ++ (codes " province="
        ++ (decimal register.now.province ++ (codes " city=" ++ decimal register.now.city)))) }
    ensures kept { StartsWith (string_bytes text.new) (string_bytes text.old) }
{
    push_number(text, " province=", register.province as u64)?;
    push_number(text, " city=", register.city as u64)
}

// Who made the terminal, and which one it is.
#[tactic(auto, using(std::proofs::Common::append_assoc))]
fn push_device(text: &mut String, line: &mut Line, register: &Register) -> Result<(), AllocError>
    ensures text { OnOk result (string_bytes text.new ≡ string_bytes text.old ++ (codes " maker="
        ++ (octets_text register.now.maker ++ (codes " model=" ++ (octets_text register.now.model
        ++ (codes " terminal=" ++ octets_text register.now.terminal)))))) }
    ensures kept { StartsWith (string_bytes text.new) (string_bytes text.old) }
{
    push_octets(text, line, " maker=", register.maker.as_slice())?;
    push_octets(text, line, " model=", register.model.as_slice())?;
    push_octets(text, line, " terminal=", register.terminal.as_slice())
}

#[tactic(auto, using(std::proofs::Common::append_assoc), unfolding(crate::specs::RegistrationFields::register_fields))]
pub(super) fn push_register(
    text: &mut String,
    line: &mut Line,
    register: &Register,
) -> Result<(), AllocError>
    ensures text { OnOk result
        (string_bytes text.new ≡ string_bytes text.old ++ register_fields register.now) }
    ensures kept { StartsWith (string_bytes text.new) (string_bytes text.old) }
{
    push_province_and_city(text, register)?;
    push_device(text, line, register)?;
    push_number(text, " colour=", register.colour as u64)?;
    push_octets(text, line, " plate=", register.plate.as_slice())
}

// The code, which only a result of 0 has.
fn push_code(text: &mut String, line: &mut Line, answer: u8, code: &[u8]) -> Result<(), AllocError>
    ensures text { OnOk result
        (string_bytes text.new ≡ string_bytes text.old ++ code_text answer code.now) }
    ensures kept { StartsWith (string_bytes text.new) (string_bytes text.old) }
{
    if answer == 0 {
        return push_octets(text, line, " code=", code);
    }
    Ok(())
}

#[tactic(auto, using(std::proofs::Common::append_assoc), unfolding(crate::specs::RegistrationFields::register_reply_fields))]
pub(super) fn push_register_reply(
    text: &mut String,
    line: &mut Line,
    reply: &RegisterReply,
) -> Result<(), AllocError>
    ensures text { OnOk result
        (string_bytes text.new ≡ string_bytes text.old ++ register_reply_fields reply.now) }
    ensures kept { StartsWith (string_bytes text.new) (string_bytes text.old) }
{
    push_number(text, " reply=", reply.reply as u64)?;
    push_number(text, " result=", reply.result as u64)?;
    push_code(text, line, reply.result, reply.code.as_slice())
}

#[tactic(auto, using(std::proofs::Common::append_assoc))]
fn push_code_and_tail(
    text: &mut String,
    line: &mut Line,
    code: &[u8],
    tail: &AuthTail,
) -> Result<(), AllocError>
    ensures text { OnOk result
        (string_bytes text.new ≡ string_bytes text.old ++ auth_text (Some tail.now) code.now) }
    ensures kept { StartsWith (string_bytes text.new) (string_bytes text.old) }
{
    push_number(text, " length=", code.len() as u64)?;
    push_octets(text, line, " code=", code)?;
    push_octets(text, line, " imei=", tail.imei.as_slice())?;
    push_octets(text, line, " software=", tail.software.as_slice())
}

#[tactic(auto, unfolding(crate::specs::RegistrationFields::auth_fields))]
pub(super) fn push_auth(text: &mut String, line: &mut Line, auth: &Auth) -> Result<(), AllocError>
    ensures text { OnOk result
        (string_bytes text.new ≡ string_bytes text.old ++ auth_fields auth.now) }
    ensures kept { StartsWith (string_bytes text.new) (string_bytes text.old) }
{
    match &auth.tail {
        None => push_octets(text, line, " code=", auth.code.as_slice()),
        Some(tail) => push_code_and_tail(text, line, auth.code.as_slice(), tail),
    }
}
