//! What a service allows.

/// What a service allows its links (this project's own).
#[derive(Clone, Copy, Debug, PartialEq, Eq)]
pub struct Limits {
    /// How many links are served at once, at most: at least 1, without which no thread is made.
    pub links: u32,
    /// How many sessions have a number, from 1 on.
    pub sessions: u32,
    /// After so many seconds without an octet a link is idle: at least 1. They are rounded up to a multiple of three.
    pub quiet: u64,
    /// So many seconds a link has until somebody is let in on it.
    pub stranger_seconds: u64,
    /// So many octets it may send until then.
    pub stranger_octets: u64,
    /// On so many links at once nobody may be let in yet, those that are being ended counted until they are gone: at least 1, without
    /// which nobody is served. Where there are fewer threads than links, half of the threads at most.
    pub strangers: u32,
    /// On so many of them that come from one address, where that is limited.
    pub strangers_of_address: Option<u32>,
}

impl Limits {
    /// So many links at once, of which half may be strangers'; each has 30 seconds and 4,096 octets until somebody is let in,
    /// and is idle after 180 seconds. There are 16,777,215 numbers for sessions, for which
    /// (with 0, which none has) the room is a power of two.
    pub fn of(links: u32) -> Limits {
        Limits {
            links,
            sessions: (1 << 24) - 1,
            quiet: 180,
            stranger_seconds: 30,
            stranger_octets: 4_096,
            strangers: (links / 2).max(1),
            strangers_of_address: None,
        }
    }
}
