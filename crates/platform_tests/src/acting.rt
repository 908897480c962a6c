//! Requests in short, and what the hub tells.

ghost use Rattle.std.specs.Prelude.{◌≡◌, ◌≤◌, [], IfOk};

use jt_platform::{Fleet, GhostJournal, Hub, Reply, Request, code_of, holder, is_closed, is_live};
use jt_register::Register;
use jt_store::{Keeper, MemKeeper};
use jt_value::{Edition, Memory, Octets, Phone, Seq};
use std::alloc::Global;

pub const SECRET: &[u8] = b"12";

/// The phone 333435363738 of 2013, the same phone of 2019, and another one, whose last digit is 9.
#[derive(Clone, Copy)]
pub enum Who {
    First,
    Same,
    Second,
}

/// A request in short. The two numbers beside it are a plate and a terminal id of one octet each, or a unit's serial and the
/// one octet of its body.
#[derive(Clone, Copy)]
pub enum Ask {
    Register,
    /// With two zero octets behind the terminal id.
    RegisterZeros,
    /// By the phone's code.
    Auth,
    /// By the code of the phone in the other edition.
    OtherAuth,
    Unit,
    Deregister,
    Other,
    Close,
}

/// A reply in short. The number beside it is what it holds, and for a code of the phone's own 0.
#[derive(Clone, Copy, PartialEq, Eq)]
pub enum Told {
    Registered,
    Denied,
    Accepted,
    Stored,
    Repeat,
    Renumbered,
    NotLive,
    Fenced,
    ListFull,
    StoreFault,
    Memory,
}

/// The session, who asks what, by which two numbers, and what is to be told.
pub type Step = (u32, Who, Ask, u16, u8, Told, u64);

/// The reply in short. A code that is not the phone's own is told as 1.
pub fn told_by(reply: &Reply, phone: &Phone) -> (Told, u64) {
    match reply {
        Reply::Registered(code) => {
            let is_own = code.as_slice() == code_of(SECRET, phone).as_slice();
            (Told::Registered, if is_own { 0 } else { 1 })
        }
        Reply::Denied(reason) => (Told::Denied, u64::from(*reason)),
        Reply::Accepted => (Told::Accepted, 0),
        Reply::Stored(number) => (Told::Stored, *number),
        Reply::Repeat(number) => (Told::Repeat, *number),
        Reply::Renumbered(number) => (Told::Renumbered, *number),
        Reply::NotLive => (Told::NotLive, 0),
        Reply::Fenced(other) => (Told::Fenced, u64::from(*other)),
        Reply::ListFull(limit) => (Told::ListFull, *limit),
        Reply::StoreFault => (Told::StoreFault, 0),
        Reply::Memory => (Told::Memory, 0),
    }
}

fn octets(alloc: Global, octets: &[u8]) -> Result<Octets, Memory> {
    Ok(Seq::from_vec(Vec::from_clones(alloc, octets)?))
}

fn digits(last: u8) -> [u8; 10] {
    [0, 0, 0, 0, 0x33, 0x34, 0x35, 0x36, 0x37, last]
}

pub fn phone(who: Who) -> Phone {
    match who {
        Who::First => Phone {
            edition: Edition::E2013,
            digits: digits(0x38),
        },
        Who::Same => Phone {
            edition: Edition::E2019,
            digits: digits(0x38),
        },
        Who::Second => Phone {
            edition: Edition::E2013,
            digits: digits(0x39),
        },
    }
}

fn register(alloc: Global, plate: u8, terminal: &[u8]) -> Result<Register, Memory> {
    let plate = octets(alloc, &[plate])?;
    let terminal = octets(alloc, terminal)?;
    Ok(Register {
        province: 0,
        city: 0,
        maker: Seq::new(alloc),
        model: Seq::new(alloc),
        terminal,
        colour: 1,
        plate,
    })
}

fn other_edition(edition: Edition) -> Edition {
    match edition {
        Edition::E2013 => Edition::E2019,
        Edition::E2019 => Edition::E2013,
    }
}

fn auth(alloc: Global, phone: Phone, edition: Edition) -> Result<Request, Memory> {
    let digits = phone.digits;
    let known = Phone { edition, digits };
    let code = octets(alloc, code_of(SECRET, &known).as_slice())?;
    Ok(Request::Auth { phone, code })
}

fn unit(alloc: Global, phone: Phone, serial: u16, octet: u8) -> Result<Request, Memory> {
    let body = octets(alloc, &[octet])?;
    Ok(Request::Unit {
        phone,
        serial,
        id: 0x0200,
        body,
    })
}

/// The request in short.
pub fn request(
    alloc: Global,
    phone: Phone,
    ask: Ask,
    first: u16,
    second: u8,
) -> Result<Request, Memory> {
    match ask {
        Ask::Register => {
            let register = register(alloc, first.to_be_bytes()[1], &[second])?;
            Ok(Request::Register { phone, register })
        }
        Ask::RegisterZeros => {
            let register = register(alloc, first.to_be_bytes()[1], &[second, 0, 0])?;
            Ok(Request::Register { phone, register })
        }
        Ask::Auth => auth(alloc, phone, phone.edition),
        Ask::OtherAuth => auth(alloc, phone, other_edition(phone.edition)),
        Ask::Unit => unit(alloc, phone, first, second),
        Ask::Deregister => Ok(Request::Deregister { phone }),
        Ask::Other => Ok(Request::Other { phone, id: 0x0002 }),
        Ask::Close => Ok(Request::Close),
    }
}

fn names(alloc: Global, one: &[u8], two: &[u8]) -> Result<Seq<Octets>, Memory> {
    let one = octets(alloc, one)?;
    let two = octets(alloc, two)?;
    Ok(Seq::from_vec(Vec::from_array(alloc, [one, two])?))
}

fn fleet(alloc: Global) -> Result<Fleet, Memory> {
    let plates = names(alloc, b"A", b"B")?;
    let terminals = names(alloc, b"1\0\0", b"2\0")?;
    Ok(Fleet { plates, terminals })
}

fn keeper(alloc: Global, limit: u64, failing: &[u64]) -> Result<MemKeeper, Memory>
    requires { limit ≤ 1000000000 }
{
    let failing = Seq::from_vec(Vec::from_clones(alloc, failing)?);
    Ok(MemKeeper::new(alloc, limit, failing))
}

fn hub_over(
    alloc: Global,
    keeper: MemKeeper,
    fleet: Fleet,
    secret: Octets,
) -> Result<Hub<MemKeeper>, Memory>
    ensures { IfOk result (λ hub. hub.history ≡ []) }
{
    match Hub::start(alloc, keeper, fleet, secret) {
        Ok(hub) => Ok(hub),
        Err((_keeper, memory)) => Err(memory),
    }
}

/// A hub over an empty keeper with this limit, which fails the calls of these numbers. Its fleet has the plates `A` and `B`
/// and the terminal ids `1` and `2`, each with zeros behind it.
pub fn hub(alloc: Global, limit: u64, failing: &[u64]) -> Result<Hub<MemKeeper>, Memory>
    requires { limit ≤ 1000000000 }
    ensures { IfOk result (λ hub. hub.history ≡ []) }
{
    let fleet = fleet(alloc)?;
    let secret = octets(alloc, SECRET)?;
    let keeper = keeper(alloc, limit, failing)?;
    hub_over(alloc, keeper, fleet, secret)
}

fn ghostly_over(
    alloc: Global,
    keeper: MemKeeper,
    fleet: Fleet,
    secret: Octets,
) -> Result<Hub<MemKeeper, GhostJournal>, Memory> {
    match Hub::begin(alloc, keeper, fleet, secret) {
        Ok(hub) => Ok(hub),
        Err((_keeper, memory)) => Err(memory),
    }
}

/// A hub as `hub` makes it, but that it keeps no entries.
pub fn ghostly(
    alloc: Global,
    limit: u64,
    failing: &[u64],
) -> Result<Hub<MemKeeper, GhostJournal>, Memory>
    requires { limit ≤ 1000000000 }
{
    let fleet = fleet(alloc)?;
    let secret = octets(alloc, SECRET)?;
    let keeper = keeper(alloc, limit, failing)?;
    ghostly_over(alloc, keeper, fleet, secret)
}

// What a scan of the history says of the session's right: NotLive, Fenced with the holder, or neither.
fn scanned(hub: &Hub<MemKeeper>, session: u32, phone: &Phone) -> Option<(Told, u64)> {
    let history = hub.history();
    if is_closed(history, session) || !is_live(history, phone, session) {
        return Some((Told::NotLive, 0));
    }
    match holder(history, phone) {
        Some(other) if other != session => Some((Told::Fenced, u64::from(other))),
        _ => None,
    }
}

fn is_right(told: Told) -> bool {
    !matches!(told, Told::NotLive | Told::Fenced)
}

/// The request of a step.
pub fn request_of(alloc: Global, step: Step) -> Result<Request, Memory> {
    let (_, who, ask, first, second, _, _) = step;
    request(alloc, phone(who), ask, first, second)
}

/// Whether the reply is what stands beside the step.
pub fn tells(reply: &Reply, step: Step) -> bool {
    let (_, who, _, _, _, told, number) = step;
    told_by(reply, &phone(who)) == (told, number)
}

// Whether the reply says of the session's right what a scan of the history said, where the step asks for it.
fn is_as_scanned(reply: &Reply, step: Step, by_scan: Option<(Told, u64)>) -> bool {
    let (_, who, ask, _, _, _, _) = step;
    let answer = told_by(reply, &phone(who));
    match ask {
        Ask::Unit | Ask::Deregister | Ask::Other => match by_scan {
            Some(refusal) => answer == refusal,
            None => is_right(answer.0),
        },
        _ => true,
    }
}

fn goes(alloc: Global, hub: &mut Hub<MemKeeper>, step: Step) -> Result<bool, Memory> {
    let (session, who, _, _, _, _, _) = step;
    let by_scan = scanned(hub, session, &phone(who));
    let request = request_of(alloc, step)?;
    let reply = hub.act(session, &request);
    Ok(tells(&reply, step) && is_as_scanned(&reply, step, by_scan))
}

/// The place of the first step that is told something else than stands beside it, or than a scan of the history says.
pub fn first_other(
    alloc: Global,
    hub: &mut Hub<MemKeeper>,
    steps: &[Step],
) -> Result<Option<usize>, Memory> {
    for (place, step) in steps.iter().enumerate() {
        if !goes(alloc, hub, *step)? {
            return Ok(Some(place));
        }
    }
    Ok(None)
}

// Whether all steps go, and the history has so many entries then.
fn goes_all(alloc: Global, hub: &mut Hub<MemKeeper>, steps: &[Step], entries: usize) -> bool {
    matches!(first_other(alloc, hub, steps), Ok(None)) && hub.history().len() == entries
}

/// Whether a hub over an empty keeper with this limit, which fails the calls of these numbers, tells each step what stands
/// beside it, and then has so many entries.
pub fn all_go(alloc: Global, limit: u64, failing: &[u64], steps: &[Step], entries: usize) -> bool
    requires { limit ≤ 1000000000 }
{
    match hub(alloc, limit, failing) {
        Ok(mut hub) => goes_all(alloc, &mut hub, steps, entries),
        Err(_) => false,
    }
}

/// Whether the phone is registered with a keeper.
pub fn is_registered(alloc: Global, keeper: &mut MemKeeper, who: Who) -> bool {
    match keeper.registered(alloc, &phone(who)) {
        Ok(found) => found.is_some(),
        Err(_) => false,
    }
}

/// The number of the phone's last row with a keeper, if it has one.
pub fn last_row(alloc: Global, keeper: &mut MemKeeper, who: Who) -> Option<u64> {
    keeper.last(alloc, &phone(who)).ok()?
}

/// The keeper of a hub that is over.
pub fn keeper_of(hub: Hub<MemKeeper>) -> MemKeeper {
    let (keeper, _history) = hub.into_parts();
    keeper
}

fn is_accepted(reply: &Reply) -> bool {
    matches!(reply, Reply::Accepted)
}

/// How many of so many requests Other of the session are accepted.
pub fn accepted(hub: &mut Hub<MemKeeper>, session: u32, who: Who, times: u64) -> u64 {
    let other = Request::Other {
        phone: phone(who),
        id: 0x0002,
    };
    let mut accepted = 0u64;
    for _ in 0..times {
        if is_accepted(&hub.act(session, &other)) {
            accepted = accepted.saturating_add(1);
        }
    }
    accepted
}
