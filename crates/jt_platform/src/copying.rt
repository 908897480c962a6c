//! Copies of requests and replies.

ghost use Rattle.std.specs.Prelude.{◌≡◌, IfOk, IsOk};
ghost use Rattle.jt_store.specs.Tables.{IsTrimmed};
ghost use Rattle.jt_platform.specs.History.{registration};
ghost use Rattle.jt_platform.specs.Calls.{IsCoded};
ghost use Rattle.jt_platform.specs.declared.request.Request.TheVariants.{Close};

use crate::request::{Entry, Reply, Request};
use crate::trimming::without_zeros;
use jt_register::Register;
use jt_store::Registered;
use jt_value::{Memory, Octets, Seq};
use std::alloc::Global;

fn copy_register(alloc: Global, register: &Register) -> Result<Register, Memory>
    ensures { IfOk result (λ copy. copy ≡ register.now) }
{
    let maker = register.maker.copy(alloc)?;
    let model = register.model.copy(alloc)?;
    let terminal = register.terminal.copy(alloc)?;
    let plate = register.plate.copy(alloc)?;
    Ok(Register {
        province: register.province,
        city: register.city,
        maker,
        model,
        terminal,
        colour: register.colour,
        plate,
    })
}

// What a phone is registered with by this.
pub(crate) fn registered_by(alloc: Global, register: &Register) -> Result<Registered, Memory>
    ensures made { IfOk result (λ made. made ≡ registration register.now) }
    ensures trimmed { IfOk result (λ made. IsTrimmed made.terminal) }
{
    let plate = register.plate.copy(alloc)?;
    let terminal = Vec::from_clones(alloc, without_zeros(register.terminal.as_slice()))?;
    Ok(Registered {
        plate,
        terminal: Seq::from_vec(terminal),
    })
}

// The same request again. A Close takes no memory.
pub(crate) fn copy_request(alloc: Global, request: &Request) -> Result<Request, Memory>
    ensures copy { IfOk result (λ copy. copy ≡ request.now) }
    ensures close { request.now ≡ Close → IsOk result }
{
    match request {
        Request::Register { phone, register } => {
            let register = copy_register(alloc, register)?;
            Ok(Request::Register {
                phone: *phone,
                register,
            })
        }
        Request::Auth { phone, code } => {
            let code = code.copy(alloc)?;
            Ok(Request::Auth {
                phone: *phone,
                code,
            })
        }
        Request::Unit {
            phone,
            serial,
            id,
            body,
        } => {
            let body = body.copy(alloc)?;
            Ok(Request::Unit {
                phone: *phone,
                serial: *serial,
                id: *id,
                body,
            })
        }
        Request::Deregister { phone } => Ok(Request::Deregister { phone: *phone }),
        Request::Other { phone, id } => Ok(Request::Other {
            phone: *phone,
            id: *id,
        }),
        Request::Close => Ok(Request::Close),
    }
}

// The same reply again, with the code that it may hold.
pub(crate) fn copy_reply(reply: &Reply, code: Octets) -> Reply
    requires { IsCoded code reply.now }
    ensures { result ≡ reply.now }
{
    match reply {
        Reply::Registered(_) => Reply::Registered(code),
        Reply::Denied(reason) => Reply::Denied(*reason),
        Reply::Accepted => Reply::Accepted,
        Reply::Stored(number) => Reply::Stored(*number),
        Reply::Repeat(number) => Reply::Repeat(*number),
        Reply::Renumbered(number) => Reply::Renumbered(*number),
        Reply::NotLive => Reply::NotLive,
        Reply::Fenced(other) => Reply::Fenced(*other),
        Reply::ListFull(limit) => Reply::ListFull(*limit),
        Reply::StoreFault => Reply::StoreFault,
        Reply::Memory => Reply::Memory,
    }
}

// The same reply again, with memory for the code that it may have.
fn reply_again(alloc: Global, reply: &Reply) -> Result<Reply, Memory>
    ensures { IfOk result (λ copy. copy ≡ reply.now) }
{
    match reply {
        Reply::Registered(code) => {
            let code = code.copy(alloc)?;
            Ok(Reply::Registered(code))
        }
        Reply::Denied(reason) => Ok(Reply::Denied(*reason)),
        Reply::Accepted => Ok(Reply::Accepted),
        Reply::Stored(number) => Ok(Reply::Stored(*number)),
        Reply::Repeat(number) => Ok(Reply::Repeat(*number)),
        Reply::Renumbered(number) => Ok(Reply::Renumbered(*number)),
        Reply::NotLive => Ok(Reply::NotLive),
        Reply::Fenced(other) => Ok(Reply::Fenced(*other)),
        Reply::ListFull(limit) => Ok(Reply::ListFull(*limit)),
        Reply::StoreFault => Ok(Reply::StoreFault),
        Reply::Memory => Ok(Reply::Memory),
    }
}

impl Entry {
    /// The same entry again, which takes memory for what it holds. Memory comes where that is refused.
    pub fn copy(&self, alloc: Global) -> Result<Entry, Memory>
        ensures { IfOk result (λ copy. copy ≡ self.now) }
    {
        let request = copy_request(alloc, &self.request)?;
        let reply = reply_again(alloc, &self.reply)?;
        Ok(Entry {
            session: self.session,
            request,
            reply,
        })
    }
}
