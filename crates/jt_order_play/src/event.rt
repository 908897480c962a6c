//! What a line of a script of orders asks of the world.

use jt_order::Order;

/// An event of the world of orders, one for each form of script line. The ranges are this project's own.
#[derive(Drop)]
pub enum OrderEvent {
    /// The order is issued, and each open session offers.
    Issue(Order),
    /// The line in use is lost, if there is one, and a new one is opened.
    Open,
    /// The session of a line of communication, which counts from 1, takes octets: so many of those that are left, up to
    /// 1,000,000,000, or all.
    Up { line: u32, count: Option<u32> },
    /// The terminal reads octets of the line in use: so many of those that are left, up to 1,000,000,000, or all.
    Down(Option<u32>),
    /// The clock goes up by so many milliseconds, and the terminal acts.
    Tick(u32),
    /// The terminal acts at the present moment, and then octets move both ways until none is left to move.
    Run,
    /// The platform's end of the line is closed.
    Cut(u32),
    /// The terminal's end of the line in use is closed.
    Lost,
    /// The terminal starts anew from its vault and its log.
    RestartTerminal,
    /// All ends at the platform are gone, and a new hub starts over the keeper. The book stays.
    RestartPlatform,
}
