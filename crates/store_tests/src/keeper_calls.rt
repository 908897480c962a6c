//! Calls of any keeper, which look first whether they may be made, and what it answers.

ghost use Rattle.std.specs.Prelude.{◌≡◌, ◌<◌, ◌^◌, IfSome, IsTrue};
ghost use Rattle.jt_value.specs.Sameness.{key_of};
ghost use Rattle.jt_store.specs.Tables.{IsTrimmed, MayAppend, Reads, plates, terminals};
ghost use Rattle.store_tests.specs.Free.{IsFree};

use jt_store::{Keeper, Registered, Row, StoreError};
use jt_value::{Edition, Octets, Phone};
use std::alloc::Global;

/// A call of a keeper.
#[derive(Clone, Copy)]
pub enum Call {
    Register(Phone, &'static [u8], &'static [u8]),
    Unregister(Phone),
    Registered(Phone),
    PlateOwner(&'static [u8]),
    TerminalOwner(&'static [u8]),
    /// Appends a row of this number with a body of one octet.
    Append(Phone, u64, u8),
    Last(Phone),
    At(Phone, u64),
    From(Phone, u64),
}

/// What a keeper answers.
#[derive(Clone, Copy, Debug, PartialEq, Eq)]
pub enum Said {
    Done,
    /// Another phone has the plate or the terminal id.
    Taken,
    Nothing,
    /// The first octets of a plate and of a terminal id.
    Names(u8, u8),
    /// The owner's last two digits, of a phone of 2019.
    Owner(u8),
    Number(u64),
    /// A row of this number with the id 0x0200 and a body of this octet alone.
    Row(u64, u8),
    /// Something that no call of these tests may answer.
    Other,
    Refused(StoreError),
}

// Whether a row may follow the last one.
fn may_follow(last: Option<u64>, number: u64) -> bool
    requires { IfSome last (λ n. n < 2 ^ 47) }
    ensures { IsTrue result → MayAppend last number }
{
    match last {
        None => number < 65_536,
        Some(last) => last < number && number <= last + 131_071,
    }
}

fn is_trimmed(terminal: &[u8]) -> bool
    ensures { IsTrue result → IsTrimmed terminal.now }
{
    match terminal.last() {
        Some(octet) => *octet != 0,
        None => true,
    }
}

/// Appends a row of one octet, where its number may follow.
pub fn put<K: Keeper>(
    alloc: Global,
    keeper: &mut K,
    phone: &Phone,
    number: u64,
    octet: u8,
) -> Result<(), StoreError> {
    let row = Row {
        number,
        id: 0x0200,
        body: Octets::from_vec(Vec::from_slice(alloc, &[octet])?),
    };
    let last = keeper.last(alloc, phone)?;
    if !may_follow(last, number) {
        return Err(StoreError::Failed);
    }
    keeper.append(alloc, phone, &row)
}

// Whether no other phone has a plate.
fn is_free_plate<K: Keeper>(
    alloc: Global,
    keeper: &mut K,
    phone: &Phone,
    plate: &[u8],
) -> Result<bool, StoreError>
    ensures { Reads (K.Keeper.tables keeper.old) (K.Keeper.tables keeper.new)
        (λ t free. IsFree plates t.registered (key_of phone.now) plate.now free) result }
{
    match keeper.plate_owner(alloc, plate) {
        Ok(Some(owner)) => Ok(owner.same(phone)),
        Ok(None) => Ok(true),
        Err(error) => Err(error),
    }
}

// Whether no other phone has a terminal id.
fn is_free_terminal<K: Keeper>(
    alloc: Global,
    keeper: &mut K,
    phone: &Phone,
    terminal: &[u8],
) -> Result<bool, StoreError>
    ensures { Reads (K.Keeper.tables keeper.old) (K.Keeper.tables keeper.new)
        (λ t free. IsFree terminals t.registered (key_of phone.now) terminal.now free) result }
{
    match keeper.terminal_owner(alloc, terminal) {
        Ok(Some(owner)) => Ok(owner.same(phone)),
        Ok(None) => Ok(true),
        Err(error) => Err(error),
    }
}

/// Registers a phone, where no other has its names.
pub fn enrol<K: Keeper>(
    alloc: Global,
    keeper: &mut K,
    phone: &Phone,
    plate: &[u8],
    terminal: &[u8],
) -> Result<bool, StoreError> {
    let registered = Registered {
        plate: Octets::from_vec(Vec::from_slice(alloc, plate)?),
        terminal: Octets::from_vec(Vec::from_slice(alloc, terminal)?),
    };
    if !is_trimmed(registered.terminal.as_slice()) {
        return Ok(false);
    }
    let plate = is_free_plate(alloc, keeper, phone, registered.plate.as_slice())?;
    if !plate {
        return Ok(false);
    }
    let terminal = is_free_terminal(alloc, keeper, phone, registered.terminal.as_slice())?;
    if !terminal {
        return Ok(false);
    }
    keeper.register(alloc, phone, &registered)?;
    Ok(true)
}

fn said_of(answer: Result<(), StoreError>) -> Said {
    match answer {
        Ok(()) => Said::Done,
        Err(error) => Said::Refused(error),
    }
}

fn said_of_names(answer: Result<Option<Registered>, StoreError>) -> Said {
    match answer {
        Ok(Some(registered)) => match (
            registered.plate.as_slice().first(),
            registered.terminal.as_slice().first(),
        ) {
            (Some(plate), Some(terminal)) => Said::Names(*plate, *terminal),
            _ => Said::Other,
        },
        Ok(None) => Said::Nothing,
        Err(error) => Said::Refused(error),
    }
}

fn said_of_owner(answer: Result<Option<Phone>, StoreError>) -> Said {
    match answer {
        Ok(Some(phone)) if phone.edition == Edition::E2019 => Said::Owner(phone.digits[9]),
        Ok(Some(_)) => Said::Other,
        Ok(None) => Said::Nothing,
        Err(error) => Said::Refused(error),
    }
}

fn said_of_row(answer: Result<Option<Row>, StoreError>) -> Said {
    match answer {
        Ok(Some(row)) => match row.body.as_slice() {
            [octet] if row.id == 0x0200 => Said::Row(row.number, *octet),
            _ => Said::Other,
        },
        Ok(None) => Said::Nothing,
        Err(error) => Said::Refused(error),
    }
}

fn said_of_last(answer: Result<Option<u64>, StoreError>) -> Said {
    match answer {
        Ok(Some(number)) => Said::Number(number),
        Ok(None) => Said::Nothing,
        Err(error) => Said::Refused(error),
    }
}

fn said_of_enrol(answer: Result<bool, StoreError>) -> Said {
    match answer {
        Ok(true) => Said::Done,
        Ok(false) => Said::Taken,
        Err(error) => Said::Refused(error),
    }
}

/// What the keeper answers to a call.
pub fn answer<K: Keeper>(alloc: Global, keeper: &mut K, call: Call) -> Said {
    match call {
        Call::Register(phone, plate, terminal) => said_of_enrol(enrol(
            alloc, keeper, &phone, plate, terminal,
        )),
        Call::Unregister(phone) => said_of(keeper.unregister(alloc, &phone)),
        Call::Registered(phone) => said_of_names(keeper.registered(alloc, &phone)),
        Call::PlateOwner(plate) => said_of_owner(keeper.plate_owner(alloc, plate)),
        Call::TerminalOwner(terminal) => said_of_owner(keeper.terminal_owner(alloc, terminal)),
        Call::Append(phone, number, octet) => said_of(put(alloc, keeper, &phone, number, octet)),
        Call::Last(phone) => said_of_last(keeper.last(alloc, &phone)),
        Call::At(phone, number) => said_of_row(keeper.row_at(alloc, &phone, number)),
        Call::From(phone, number) => said_of_row(keeper.row_from(alloc, &phone, number)),
    }
}

/// The place of the first call that is not answered so.
pub fn first_wrong<K: Keeper>(
    alloc: Global,
    keeper: &mut K,
    calls: &[(Call, Said)],
) -> Option<usize> {
    for (place, (call, said)) in calls.iter().enumerate() {
        if answer(alloc, keeper, *call) != *said {
            return Some(place);
        }
    }
    None
}
