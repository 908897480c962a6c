//! What is asked of a hub, and what it answers.

use jt_register::Register;
use jt_value::{Octets, Phone, Seq};

/// The vehicles and terminals that may register (this project's own).
#[derive(Drop)]
pub struct Fleet {
    /// The plates of the vehicles.
    pub plates: Seq<Octets>,
    /// The terminals' ids. Zero octets at an id's end do not count.
    pub terminals: Seq<Octets>,
}

/// What a session asks of the hub.
#[derive(Drop)]
pub enum Request {
    /// The phone asks to be registered.
    Register {
        phone: Phone,
        register: Register,
    },
    /// The phone asks to be let in by its code.
    Auth {
        phone: Phone,
        code: Octets,
    },
    /// The phone brings a unit: one message of id 0x0200 or 0x0704.
    Unit {
        phone: Phone,
        serial: u16,
        id: u16,
        body: Octets,
    },
    /// The phone gives its registration up.
    Deregister {
        phone: Phone,
    },
    /// The phone sends another message, of this id.
    Other {
        phone: Phone,
        id: u16,
    },
    /// The session ends.
    Close,
}

/// What the hub answers.
#[derive(Drop)]
pub enum Reply {
    /// The phone is registered; its code lets it in.
    Registered(Octets),
    /// A registration is denied: 1 the plate is another phone's, 2 the plate is not in the fleet, 3 the terminal id is
    /// another phone's, 4 the terminal id is not in the fleet. An authentication is denied by 1.
    Denied(u8),
    /// What was asked is done.
    Accepted,
    /// The unit is a new row of this number.
    Stored(u64),
    /// The unit stands in the row of this number.
    Repeat(u64),
    /// The unit is a new row of this number, since the terminal began its serials anew.
    Renumbered(u64),
    /// The session is closed, or not live for the phone.
    NotLive,
    /// Another session, of this number, holds the phone.
    Fenced(u32),
    /// The phone has as many rows as it may have, which is the number. Nothing is changed, and no entry made.
    ListFull(u64),
    /// The keeper failed. Nothing is changed, and no entry made.
    StoreFault,
    /// Memory was wanted and refused. Nothing is changed, and no entry made.
    Memory,
}

/// A request of a session and its reply.
#[derive(Drop)]
pub struct Entry {
    /// The number of the session.
    pub session: u32,
    pub request: Request,
    pub reply: Reply,
}
