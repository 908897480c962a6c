//! Registrations and authentications over a keeper.

ghost use Rattle.std.specs.Prelude.{◌≡◌, ◌↔◌, IsTrue, Some};
ghost use Rattle.jt_value.specs.Sameness.{key_of};
ghost use Rattle.jt_store.specs.Tables.{Reads, HasCause, IsSteady, IsTrimmed, plates, terminals};
ghost use Rattle.jt_platform.specs.Codes.{code_for};
ghost use Rattle.jt_platform.specs.History.{registration};
ghost use Rattle.jt_platform.specs.Calls.{AuthDone, RegisterDone, DeregisterDone, IsTaken};
ghost use Rattle.jt_platform.specs.Hub.{HasReason};

use crate::code::{code_octets, code_of};
use crate::copying::registered_by;
use crate::request::Reply;
use crate::roll::Roll;
use crate::unit::trouble;
use jt_register::Register;
use jt_store::{Keeper, Registered, StoreError};
use jt_value::{Octets, Phone};
use std::alloc::Global;

fn is_registered_so(found: &Option<Registered>, wanted: &Registered) -> bool
    ensures { IsTrue result ↔ (found.now ≡ Some wanted.now) }
{
    match found {
        Some(registered) => registered.plate.as_slice() == wanted.plate.as_slice()
            && registered.terminal.as_slice() == wanted.terminal.as_slice(),
        None => false,
    }
}

// Whether another phone has the plate.
fn is_plate_taken<P: Keeper>(
    alloc: Global,
    keeper: &mut P,
    phone: &Phone,
    plate: &[u8],
) -> Result<bool, StoreError>
    ensures answer { Reads (P.tables keeper.old) (P.tables keeper.new)
        (λ t taken. IsTaken plates t (key_of phone.now) plate.now taken) result }
    ensures limit { P.limit keeper.new ≡ P.limit keeper.old }
    ensures cause { HasCause (P.faults keeper.old) (P.faults keeper.new) result }
    ensures steady { IsSteady (P.may_fail keeper.old) (P.may_fail keeper.new) result }
{
    match keeper.plate_owner(alloc, plate) {
        Ok(None) => Ok(false),
        Ok(Some(other)) => Ok(!other.same(phone)),
        Err(error) => Err(error),
    }
}

// Whether another phone has the terminal id.
fn is_terminal_taken<P: Keeper>(
    alloc: Global,
    keeper: &mut P,
    phone: &Phone,
    terminal: &[u8],
) -> Result<bool, StoreError>
    ensures answer { Reads (P.tables keeper.old) (P.tables keeper.new)
        (λ t taken. IsTaken terminals t (key_of phone.now) terminal.now taken) result }
    ensures limit { P.limit keeper.new ≡ P.limit keeper.old }
    ensures cause { HasCause (P.faults keeper.old) (P.faults keeper.new) result }
    ensures steady { IsSteady (P.may_fail keeper.old) (P.may_fail keeper.new) result }
{
    match keeper.terminal_owner(alloc, terminal) {
        Ok(None) => Ok(false),
        Ok(Some(other)) => Ok(!other.same(phone)),
        Err(error) => Err(error),
    }
}

// The answer to a registration of what is made of it. All memory of the hub's own is taken before.
fn register_made<P: Keeper>(
    alloc: Global,
    keeper: &mut P,
    fleet: &Roll,
    phone: &Phone,
    wanted: &Registered,
    code: Octets,
) -> Reply
    requires { IsTrimmed wanted.now.terminal }
    ensures done { RegisterDone (P.tables keeper.old) (P.tables keeper.new) fleet.now
        (key_of phone.now) wanted.now code result }
    ensures limit { P.limit keeper.new ≡ P.limit keeper.old }
    ensures reason { HasReason (P.faults keeper.old) (P.faults keeper.new)
        (P.may_fail keeper.old) (P.may_fail keeper.new) result }
{
    let found = match keeper.registered(alloc, phone) {
        Ok(found) => found,
        Err(error) => return trouble(error),
    };
    if is_registered_so(&found, wanted) {
        return Reply::Registered(code);
    }
    if !fleet.has_plate(wanted.plate.as_slice()) {
        return Reply::Denied(2);
    }
    if !fleet.has_terminal(wanted.terminal.as_slice()) {
        return Reply::Denied(4);
    }
    match is_plate_taken(alloc, keeper, phone, wanted.plate.as_slice()) {
        Ok(true) => return Reply::Denied(1),
        Ok(false) => {}
        Err(error) => return trouble(error),
    }
    match is_terminal_taken(alloc, keeper, phone, wanted.terminal.as_slice()) {
        Ok(true) => return Reply::Denied(3),
        Ok(false) => {}
        Err(error) => return trouble(error),
    }
    match keeper.register(alloc, phone, wanted) {
        Ok(()) => Reply::Registered(code),
        Err(error) => trouble(error),
    }
}

// The answer to a registration.
pub(crate) fn register<P: Keeper>(
    alloc: Global,
    keeper: &mut P,
    fleet: &Roll,
    secret: &Octets,
    phone: &Phone,
    register: &Register,
) -> Reply
    ensures done { RegisterDone (P.tables keeper.old) (P.tables keeper.new) fleet.now
        (key_of phone.now) (registration register.now) (code_for secret.now phone.now) result }
    ensures limit { P.limit keeper.new ≡ P.limit keeper.old }
    ensures reason { HasReason (P.faults keeper.old) (P.faults keeper.new)
        (P.may_fail keeper.old) (P.may_fail keeper.new) result }
{
    let Ok(code) = code_octets(alloc, secret, phone) else {
        return Reply::Memory;
    };
    let Ok(wanted) = registered_by(alloc, register) else {
        return Reply::Memory;
    };
    register_made(alloc, keeper, fleet, phone, &wanted, code)
}

fn is_code_of(code: &Octets, secret: &Octets, phone: &Phone) -> bool
    ensures { IsTrue result ↔ (code.now ≡ code_for secret.now phone.now) }
{
    code.as_slice() == code_of(secret.as_slice(), phone).as_slice()
}

// The answer to an authentication.
pub(crate) fn auth<P: Keeper>(
    alloc: Global,
    keeper: &mut P,
    secret: &Octets,
    phone: &Phone,
    code: &Octets,
) -> Reply
    ensures done { AuthDone (P.tables keeper.old) (P.tables keeper.new) secret.now phone.now
        code.now result }
    ensures limit { P.limit keeper.new ≡ P.limit keeper.old }
    ensures reason { HasReason (P.faults keeper.old) (P.faults keeper.new)
        (P.may_fail keeper.old) (P.may_fail keeper.new) result }
{
    match keeper.registered(alloc, phone) {
        Ok(Some(_)) => {
            if is_code_of(code, secret, phone) {
                Reply::Accepted
            } else {
                Reply::Denied(1)
            }
        }
        Ok(None) => Reply::Denied(1),
        Err(error) => trouble(error),
    }
}

// The answer to a deregistration by the holder's live session.
pub(crate) fn deregister<P: Keeper>(alloc: Global, keeper: &mut P, phone: &Phone) -> Reply
    ensures done { DeregisterDone (P.tables keeper.old) (P.tables keeper.new)
        (key_of phone.now) result }
    ensures limit { P.limit keeper.new ≡ P.limit keeper.old }
    ensures reason { HasReason (P.faults keeper.old) (P.faults keeper.new)
        (P.may_fail keeper.old) (P.may_fail keeper.new) result }
{
    match keeper.unregister(alloc, phone) {
        Ok(()) => Reply::Accepted,
        Err(error) => trouble(error),
    }
}
