use crate::fleets::{Vehicle, fleet, keeper, octets, phone};
use dewfelt_keeper::{Registry, SharedKeeper};
use jt_platform::{Fleet, Hub, Reply, Request, code_of};
use jt_register::Register;
use jt_store::{Keeper, MemKeeper};
use jt_value::{Memory, Octets, Phone, Seq};
use std::alloc::Global;
use std::sync::{Arc, Mutex, Wait};
use std::test::Fail;

const SECRET: &[u8] = b"12";

const LIMIT: u64 = 100;

/// A step of a service: a phone, by its last two digits, asks on the session of that number, or the fleet is changed.
enum Step {
    /// Registers with a plate and a terminal id.
    Register(u8, &'static [u8], &'static [u8], Told),
    Auth(u8, Told),
    Deregister(u8, Told),
    /// Vehicles, plates and terminal ids of the new fleet, and the last digits of the phones that are forgotten.
    Fleet(&'static [Vehicle], &'static [&'static [u8]], &'static [&'static [u8]], &'static [u8]),
}

#[derive(Clone, Copy, PartialEq, Eq)]
enum Told {
    Registered,
    Denied(u8),
    Accepted,
    NotLive,
    Other,
}

const STEPS: &[Step] = &[
    Step::Fleet(
        &[(b"B1", b"b1", 0x13)],
        &[b"F1", b"F2"],
        &[b"f1", b"f2"],
        &[],
    ),
    // A stranger with a vehicle's names, and the vehicle's phone with its own and with others.
    Step::Register(0x20, b"B1", b"b1", Told::Denied(2)),
    Step::Register(0x20, b"F1", b"b1", Told::Denied(4)),
    Step::Register(0x13, b"B1", b"b1", Told::Registered),
    Step::Register(0x13, b"F1", b"f1", Told::Denied(1)),
    Step::Register(0x13, b"F1", b"b1", Told::Denied(4)),
    // The vehicle's phone gives its registration up, and has it still.
    Step::Auth(0x13, Told::Accepted),
    Step::Deregister(0x13, Told::Accepted),
    Step::Auth(0x13, Told::Accepted),
    // Who is bound to nothing registers as ever.
    Step::Register(0x20, b"F1", b"f1", Told::Registered),
    Step::Register(0x21, b"F1", b"f2", Told::Denied(1)),
    Step::Register(0x21, b"F2", b"f1", Told::Denied(3)),
    Step::Deregister(0x21, Told::NotLive),
    // The names of a registered phone are bound to another one, while the hub goes on.
    Step::Fleet(&[(b"F1", b"f1", 0x30)], &[b"F2"], &[b"f2"], &[0x13, 0x20]),
    Step::Auth(0x20, Told::Denied(1)),
    Step::Register(0x20, b"F1", b"f1", Told::Denied(1)),
    Step::Register(0x30, b"F1", b"f1", Told::Registered),
    Step::Register(0x30, b"F2", b"f1", Told::Denied(1)),
    Step::Register(0x20, b"F2", b"f1", Told::Denied(3)),
    Step::Register(0x20, b"F2", b"f2", Told::Registered),
    // Names that are bound no more stay with who has them, and those that are gone are nobody's, though the hub knows them still.
    Step::Fleet(&[], &[b"F1"], &[b"f1"], &[0x20]),
    Step::Auth(0x30, Told::Accepted),
    Step::Register(0x20, b"F2", b"f2", Told::Denied(1)),
    Step::Register(0x20, b"F1", b"f1", Told::Denied(1)),
    Step::Fleet(&[], &[b"F1", b"F2"], &[b"f2"], &[0x30]),
    Step::Register(0x20, b"F1", b"f1", Told::Denied(3)),
    Step::Register(0x20, b"F1", b"f2", Told::Registered),
    Step::Fleet(&[], &[b"F1", b"F2"], &[b"f2"], &[]),
    Step::Auth(0x20, Told::Accepted),
];

fn told_by(reply: &Reply) -> Told {
    match reply {
        Reply::Registered(_) => Told::Registered,
        Reply::Denied(why) => Told::Denied(*why),
        Reply::Accepted => Told::Accepted,
        Reply::NotLive => Told::NotLive,
        _ => Told::Other,
    }
}

fn register_of(alloc: Global, plate: &[u8], terminal: &[u8]) -> Result<Register, Memory> {
    Ok(Register {
        province: 0,
        city: 0,
        maker: Seq::new(alloc),
        model: Seq::new(alloc),
        terminal: octets(alloc, terminal)?,
        colour: 0,
        plate: octets(alloc, plate)?,
    })
}

fn code(alloc: Global, phone: &Phone) -> Result<Octets, Memory> {
    octets(alloc, code_of(SECRET, phone).as_slice())
}

// Whether the fleet is changed, and these phones are forgotten.
fn changes<R: Wait, K: jt_store::Registrations>(
    rt: &R,
    alloc: Global,
    registry: &Mutex<Registry<K>>,
    new: dewfelt_fleet::Fleet,
    wanted: &[u8],
) -> bool {
    let mut forgotten = Seq::new(alloc);
    if registry.lock(rt).apply(alloc, new, &mut forgotten).is_err() {
        return false;
    }
    forgotten.len() == wanted.len()
        && forgotten
            .as_slice()
            .iter()
            .zip(wanted)
            .all(|(phone, last)| phone.digits[9] == *last)
}

fn request_of(alloc: Global, step: &Step) -> Result<Option<(Request, u8, Told)>, Memory> {
    match step {
        Step::Register(last, plate, terminal, told) => {
            let register = register_of(alloc, plate, terminal)?;
            let phone = phone(*last);
            Ok(Some((Request::Register { phone, register }, *last, *told)))
        }
        Step::Auth(last, told) => {
            let phone = phone(*last);
            let code = code(alloc, &phone)?;
            Ok(Some((Request::Auth { phone, code }, *last, *told)))
        }
        Step::Deregister(last, told) => {
            let phone = phone(*last);
            Ok(Some((Request::Deregister { phone }, *last, *told)))
        }
        Step::Fleet(..) => Ok(None),
    }
}

// Whether the step goes so.
fn goes<R: Wait, P: Keeper, K: jt_store::Registrations>(
    rt: &R,
    alloc: Global,
    hub: &mut Hub<P>,
    registry: &Mutex<Registry<K>>,
    step: &Step,
) -> bool {
    if let Step::Fleet(vehicles, plates, terminals, forgotten) = step {
        return match fleet(alloc, vehicles, plates, terminals) {
            Some(new) => changes(rt, alloc, registry, new, forgotten),
            None => false,
        };
    }
    match request_of(alloc, step) {
        Ok(Some((request, last, told))) => { told_by(&hub.act(u32::from(last), &request)) == told }
        _ => false,
    }
}

// The place of the first step that goes otherwise.
fn first_otherwise<R: Wait, P: Keeper, K: jt_store::Registrations>(
    rt: &R,
    alloc: Global,
    hub: &mut Hub<P>,
    registry: &Mutex<Registry<K>>,
) -> Option<usize> {
    for (place, step) in STEPS.iter().enumerate() {
        if !goes(rt, alloc, hub, registry, step) {
            return Some(place);
        }
    }
    None
}

// What the hub was told at its start, and is not told anew.
fn names(alloc: Global) -> Result<Fleet, Memory> {
    let mut plates = Seq::new(alloc);
    plates.push(octets(alloc, b"F1")?)?;
    plates.push(octets(alloc, b"F2")?)?;
    let mut terminals = Seq::new(alloc);
    terminals.push(octets(alloc, b"f1")?)?;
    terminals.push(octets(alloc, b"f2")?)?;
    Ok(Fleet { plates, terminals })
}

fn registry_of(rt: &HostRuntime) -> Option<Arc<Mutex<Registry<MemKeeper>>>> {
    let alloc = rt.alloc();
    let fleet = fleet(alloc, &[], &[], &[])?;
    let registry = Registry::new(keeper(alloc), fleet);
    Arc::new(alloc, Mutex::new(registry)).ok()
}

fn hub_over<R: Wait + Drop>(
    alloc: Global,
    rt: R,
    registry: Arc<Mutex<Registry<MemKeeper>>>,
) -> Option<Hub<SharedKeeper<R, MemKeeper>>> {
    let keeper = SharedKeeper::over(rt, registry, LIMIT);
    let names = names(alloc).ok()?;
    let secret = octets(alloc, SECRET).ok()?;
    Hub::start(alloc, keeper, names, secret).ok()
}

#[test]
fn a_fleet_lives_while_a_hub_goes_on(rt: HostRuntime) -> Result<(), Fail> {
    let registry = registry_of(&rt).expect(&rt, "registry");
    let other = registry.clone()?;
    let mut hub = hub_over(rt.alloc(), rt.clone()?, other).expect(&rt, "hub");
    let otherwise = first_otherwise(&rt, rt.alloc(), &mut hub, &registry);
    drop(hub);
    assert!(rt; otherwise == None);
    Ok(())
}
