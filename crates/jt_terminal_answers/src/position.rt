//! The terminal's position, told to the platform.

ghost use Rattle.std.specs.Prelude.{◌≡◌, ◌++◌, IfOk, OnErr, OnOk};
ghost use Rattle.std.specs.Int.{w16, to_be_bytes};
ghost use Rattle.jt_terminal_rule.specs.Messages.{AreSettings, BeginsWith};
ghost use Rattle.jt_terminal_rule.specs.Answers as table;
ghost use Rattle.jt_terminal_rule.specs.Rule as rule;

use crate::saying::{respond, say_answer};
use jt_header::Header;
use jt_layout::Writer;
use jt_terminal_rule::{AnswerKind, State};
use jt_value::limits::BODY_LIMIT;
use jt_value::results::FAILURE;
use jt_value::{Memory, Octets, Seq};
use std::alloc::Global;

// The octets of the serial that is answered.
const SERIAL_LEN: usize = 2;

// The body of an answer with a position.
#[tactic(auto, unfolding(jt_layout::specs::Layout::number))]
fn position_body(alloc: Global, reply: u16, fix: &[u8]) -> Result<Octets, Memory>
    ensures { IfOk result (λ octets. octets ≡ to_be_bytes w16 reply ++ fix.now) }
{
    let mut writer = Writer::new(alloc);
    writer.word(reply)?;
    writer.octets(fix)?;
    Ok(writer.finish())
}

// Tells the last recorded fix, or that there is none, or none that fits one packet.
pub(crate) fn tell_position(
    alloc: Global,
    state: &mut State,
    header: &Header,
    out: &mut Seq<Octets>,
) -> Result<(), Memory>
    requires { AreSettings state.old.settings }
    ensures state { OnOk result (state.new ≡ (rule.answers state.old
        (table.tells_position state.old header.now state.old.last)).state) }
    ensures out { OnOk result (out.new ≡ out.old ++ rule.sends state.old.settings
        (rule.answers state.old (table.tells_position state.old header.now state.old.last)).steps) }
    ensures err { OnErr result (state.new ≡ state.old) }
    ensures kept { BeginsWith out.new out.old }
{
    let body = match &state.last {
        Some(fix) => {
            if SERIAL_LEN + fix.as_slice().len() > BODY_LIMIT {
                return respond(alloc, state, header, FAILURE, out);
            }
            position_body(alloc, header.serial, fix.as_slice())?
        }
        None => return respond(alloc, state, header, FAILURE, out),
    };
    say_answer(alloc, state, AnswerKind::Position, body.as_slice(), out)
}
