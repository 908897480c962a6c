//! What came of serving a listener's links.

use jt_platform::Hub;
use jt_session::Report;
use jt_store::Keeper;
use jt_value::Seq;

/// Why no more links were served (this project's own).
#[derive(Clone, Copy, Debug, PartialEq, Eq)]
pub enum ServeEnd {
    /// As many links as were asked for were accepted.
    All,
    /// The listener said that no link is left to come.
    Over,
    /// The listener failed.
    ListenFault,
    /// Memory was wanted and refused, before any link was accepted.
    Memory,
}

/// What came of serving a listener's links (this project's own).
#[derive(Drop)]
pub struct Served<P: Keeper> {
    /// A report for each link that was accepted, in the order of their sessions, whose numbers count from 1.
    pub reports: Seq<Report>,
    /// The hub, with the entries of these sessions as its history.
    pub hub: Hub<P>,
    /// Why no more links were served.
    pub end: ServeEnd,
}
