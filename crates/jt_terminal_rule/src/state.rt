//! What a terminal keeps, and what happens to it.

use crate::queue::Queue;
use crate::settings::Settings;
use crate::window::Window;
use jt_codec::Message;
use jt_header::Header;
use jt_params::ParamTable;
use jt_position::Fix;
use jt_regions::RegionTable;
use jt_store::Unit;
use jt_value::Octets;

/// Where a terminal stands on its line (the standard's registration and authentication).
#[derive(Clone, Copy, Debug, PartialEq, Eq)]
pub enum Phase {
    /// No line is in use.
    Down,
    /// A registration of this serial was sent, and its reply is waited for.
    Registering(u16),
    /// An authentication of this serial was sent, and its response is waited for.
    Authenticating(u16),
    /// The platform accepted the authentication of this serial.
    Live(u16),
}

/// The parameters that say when a terminal sends (the standard's), as they are.
#[derive(Clone, Copy, Debug, PartialEq, Eq)]
pub struct Timing {
    /// Parameter 0x0001: seconds without anything sent before a heartbeat is. 0 is never.
    pub heartbeat: u32,
    /// Parameter 0x0002: seconds of the first wait for an answer.
    pub answer: u32,
    /// Parameter 0x0003: how often a message is sent again.
    pub repeats: u32,
}

/// A wait for an answer. Moments and lengths are in milliseconds.
#[derive(Clone, Copy, Debug, PartialEq, Eq)]
pub struct Wait {
    /// When the first sending was.
    pub since: u64,
    /// When the last sending was.
    pub last: u64,
    /// How many sendings there were.
    pub sendings: u64,
    /// How long the first wait is, by the parameter as it was at the first sending.
    pub first: u64,
    /// How often the message is sent again, by the parameter as it was at the first sending.
    pub repeats: u32,
}

/// All that a terminal keeps beside its vault.
#[derive(Drop)]
pub struct State {
    pub settings: Settings,
    pub phase: Phase,
    /// The moment of the latest Tick, in milliseconds.
    pub time: u64,
    /// The times by the last typed parameters, which a raw one under their ids leaves as they are.
    pub timing: Timing,
    /// The terminal's parameters, at first those of the settings. They live in memory.
    pub params: ParamTable,
    /// The terminal's regions, at first none. They live in memory.
    pub regions: RegionTable,
    /// The last fix that was recorded since the start.
    pub last: Option<Fix>,
    /// The wait for the answer to a registration, to an authentication or to the oldest unit, where one was sent on this line.
    pub wait: Wait,
    /// When anything was sent last, in milliseconds.
    pub said: u64,
    /// The units that are not accepted, oldest first.
    pub units: Window<Unit>,
    /// How many of the units were sent on this line. They are the first ones.
    pub sent: usize,
    /// The fixes that are in no unit.
    pub waiting: Queue<Fix>,
    /// The serial of the last accepted unit.
    pub mark: u16,
    /// The serial that is next.
    pub next: u16,
    /// The platform's code, of at most 255 octets.
    pub code: Option<Octets>,
    /// How many fixes were recorded. The count stays at 2^64 - 1.
    pub recorded: u64,
    /// How many fixes are accepted. The count stays at 2^64 - 1.
    pub accepted: u64,
}

/// The messages that a terminal answers the platform with (the standard's, and 0x0005 this project's profile).
#[derive(Clone, Copy, Debug, PartialEq, Eq)]
pub enum AnswerKind {
    /// 0x0001, the general response.
    General,
    /// 0x0104, parameters.
    Parameters,
    /// 0x0201, a position.
    Position,
    /// 0x0005, a request for packets again.
    Packets,
}

/// What happens to a terminal.
#[derive(Drop)]
pub enum Event {
    /// A line was opened.
    Opened,
    /// A whole message of the platform was read.
    Received(Header, Message),
    /// It is this moment, in milliseconds.
    Tick(u64),
    /// The line was lost.
    Lost,
    /// A heartbeat is to be sent.
    Beat,
}

/// The platform's general response (the standard's): what it answers, and the result.
#[derive(Clone, Copy, Debug, PartialEq, Eq)]
pub struct Acknowledgement {
    /// The serial of the message that is answered.
    pub reply: u16,
    /// The id of the message that is answered.
    pub id: u16,
    /// 0 success, 1 failure, 2 message error, 3 not supported, 4 alarm handled.
    pub result: u8,
}

/// Why a terminal gave up its line (this project's own).
#[derive(Drop)]
pub enum GiveUp {
    /// The platform refused a registration, an authentication or a unit: the body of its answer.
    Denied(Octets),
    /// No answer came to the last repeat: when the first wait began and when the terminal gave up, in milliseconds.
    TimedOut { since: u64, now: u64 },
}
