//! The laws of the gateway, functions that do nothing.

ghost use Rattle.jt_gateway.specs.Claim.{BothAreReached, EachLedPasses, EachReachedPasses};
ghost use Rattle.jt_gateway.specs.Relay.{EachRelayIsPump};

/// In every gateway world that is reached the fixes stored upstream are the first of those recorded for it, these the first of those
/// that the middle stored, and these the first of those that the terminal recorded, each once and in order; and upstream holds every
/// fix whose acceptance was received. The same holds of each gateway world to which steps lead from one that is reached.
pub fn law_gateway()
    ensures passes { EachReachedPasses }
    ensures led { EachLedPasses }
    ensures both { BothAreReached }
{
    jt_octets::law_world();
}

/// A call of `relay_rows` over the rows of world a and a vault that holds what world b's terminal recorded is a pump of the gateway
/// world: so what `law_gateway` says holds after it.
pub fn law_relay()
    ensures { EachRelayIsPump }
{
    law_gateway();
    jt_relay::law_relays();
}
