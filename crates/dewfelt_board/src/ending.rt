//! Why sessions end.

use jt_service::Cut;
use jt_session::End;

/// Why a session ended: an end of its own, or why the service ended it (this project's own).
#[derive(Clone, Copy, Debug, PartialEq, Eq)]
pub enum Ending {
    Ended,
    LinkFault,
    Idle,
    Spent,
    Fenced,
    StoreFault,
    ListFull,
    Memory,
    Stopped,
    StrangerTime,
    StrangerOctets,
    Replaced,
    Dismissed,
    Renewed,
    StoreFailed,
}

impl Ending {
    /// How many there are.
    pub const COUNT: usize = 15;

    /// All of them.
    pub const ALL: [Ending; Ending::COUNT] = [
        Ending::Ended,
        Ending::LinkFault,
        Ending::Idle,
        Ending::Spent,
        Ending::Fenced,
        Ending::StoreFault,
        Ending::ListFull,
        Ending::Memory,
        Ending::Stopped,
        Ending::StrangerTime,
        Ending::StrangerOctets,
        Ending::Replaced,
        Ending::Dismissed,
        Ending::Renewed,
        Ending::StoreFailed,
    ];

    /// Why a session ended, by its report, or by why the service ended it.
    pub fn of(cut: Option<Cut>, end: End) -> Ending {
        match cut {
            Some(cut) => Ending::of_cut(cut),
            None => Ending::of_end(end),
        }
    }

    fn of_cut(cut: Cut) -> Ending {
        match cut {
            Cut::Stopped => Ending::Stopped,
            Cut::StrangerTime => Ending::StrangerTime,
            Cut::StrangerOctets => Ending::StrangerOctets,
            Cut::Replaced => Ending::Replaced,
            Cut::Dismissed => Ending::Dismissed,
            Cut::Renewed => Ending::Renewed,
            Cut::StoreFailed => Ending::StoreFailed,
        }
    }

    fn of_end(end: End) -> Ending {
        match end {
            End::Ended => Ending::Ended,
            End::LinkFault => Ending::LinkFault,
            End::Idle => Ending::Idle,
            End::Spent => Ending::Spent,
            End::Fenced(_) => Ending::Fenced,
            End::StoreFault => Ending::StoreFault,
            End::ListFull(_) => Ending::ListFull,
            End::Memory => Ending::Memory,
        }
    }

    /// The word for it.
    pub fn word(self) -> &'static str {
        match self {
            Ending::Ended => "ended",
            Ending::LinkFault => "link-fault",
            Ending::Idle => "idle",
            Ending::Spent => "spent",
            Ending::Fenced => "fenced",
            Ending::StoreFault => "store-fault",
            Ending::ListFull => "list-full",
            Ending::Memory => "memory",
            Ending::Stopped => "stopped",
            Ending::StrangerTime => "stranger-time",
            Ending::StrangerOctets => "stranger-octets",
            Ending::Replaced => "replaced",
            Ending::Dismissed => "dismissed",
            Ending::Renewed => "renewed",
            Ending::StoreFailed => "store-failed",
        }
    }
}
