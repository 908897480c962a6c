//! What a line of a script asks of a gateway.

use jt_script::WorldEvent;

/// An event of a gateway, one for each form of script line.
#[derive(Drop)]
pub enum GatewayEvent {
    /// An event of the world in which the terminal reports to the operator.
    A(WorldEvent),
    /// An event of the world in which the operator reports to the authority: no Fix, Raw or RestartAs.
    B(WorldEvent),
    /// The fixes that the operator stored, and that were not passed on, are recorded to be reported to the authority.
    Pump,
    /// The operator starts anew: its platform, and its terminal.
    RestartMiddle,
}
