//! Which unit's acceptance a message tells.

ghost use Rattle.std.specs.Prelude.{◌≡◌, ◌++◌, OnErr, OnOk};
ghost use Rattle.std.specs.Option.{option_to_list};
ghost use Rattle.jt_terminal_rule.specs.Rule as rule;

use jt_codec::Message;
use jt_store::Unit;
use jt_terminal_rule::{Acknowledgement, State, Window};
use jt_terminal_steps::{is_acceptance, names};
use jt_value::{Memory, Seq};

// How many units stand before the first of those sent on this line that the response names.
fn first_named(ack: Acknowledgement, sent: usize, units: &Window<Unit>) -> Option<u64>
    ensures { result ≡ rule.first_named ack sent units.now }
{
    for place in 0..sent {
        let Some(unit) = units.get(place) else {
            return None;
        };
        if names(ack, unit) {
            return Some(place as u64);
        }
    }
    None
}

// How many units stand before the one whose acceptance this message tells, if it tells one.
pub(crate) fn told_by(state: &State, message: &Message) -> Option<u64>
    ensures { result ≡ rule.named_place state.now (rule.response_in message.now) }
{
    match message {
        Message::PlatformAck {
            reply,
            id,
            result: answer,
        } => {
            let ack = Acknowledgement {
                reply: *reply,
                id: *id,
                result: *answer,
            };
            if is_acceptance(ack) {
                first_named(ack, state.sent, &state.units)
            } else {
                None
            }
        }
        _ => None,
    }
}

// Puts it behind those told before.
pub(crate) fn tell(state: &State, message: &Message, told: &mut Seq<u64>) -> Result<(), Memory>
    ensures ok { OnOk result (told.new
        ≡ told.old ++ option_to_list (rule.named_place state.now (rule.response_in message.now))) }
    ensures err { OnErr result (told.new ≡ told.old) }
{
    match told_by(state, message) {
        Some(older) => told.push(older),
        None => Ok(()),
    }
}
