//! A registered phone, as it is shown.

use crate::ending::Ending;
use crate::fixes::LastFix;
use crate::name::Name;
use jt_value::Edition;

/// How and when a session ended.
#[derive(Clone, Copy)]
pub struct LastEnd {
    pub ending: Ending,
    /// In seconds since 1970.
    pub at: u64,
}

/// A registered phone, as it is shown. Moments are in seconds since 1970.
#[derive(Clone, Copy)]
pub struct Vehicle {
    /// The twenty digits of the phone, two an octet.
    pub digits: [u8; 10],
    pub plate: Name,
    pub terminal: Name,
    /// Whether the registration stays where the terminal gives it up, since the operator made it.
    pub stays: bool,
    /// That of the last message that was heard, where one was since the start.
    pub edition: Option<Edition>,
    /// The session on which it was let in, where that goes on.
    pub session: Option<u32>,
    /// When it was heard last, where it was since the start.
    pub heard: Option<u64>,
    /// How its last session ended, where one did since the start.
    pub end: Option<LastEnd>,
    pub fix: Option<LastFix>,
    /// The number of its last row.
    pub last: Option<u64>,
    /// The number of its last change.
    pub changed: u64,
}

impl Vehicle {
    /// A vehicle of which nothing was heard.
    pub fn new(digits: [u8; 10], plate: Name, terminal: Name) -> Vehicle {
        Vehicle {
            digits,
            plate,
            terminal,
            stays: false,
            edition: None,
            session: None,
            heard: None,
            end: None,
            fix: None,
            last: None,
            changed: 0,
        }
    }
}
