//! The answers to the messages of the platform.

ghost use Rattle.std.specs.Prelude.{◌≡◌, ◌≤◌, ◌++◌, true, length, IfOk, OnErr, OnOk};
ghost use Rattle.jt_value.specs.declared.phone.Edition.TheVariants.{E2019};
ghost use Rattle.std.specs.List.{AllByRecursion};
ghost use Rattle.jt_value.specs.declared.limits.TheConstants.{OCTET_COUNT_LIMIT};
ghost use Rattle.jt_layout.specs.Layout.{word};
ghost use Rattle.jt_params.specs.Tables.{HasOctets};
ghost use Rattle.jt_codec.specs.Bodies.{Fits, body_octets};
ghost use Rattle.jt_codec.specs.declared.message.Message.TheVariants as message;
ghost use Rattle.jt_terminal_rule.specs.Messages.{AreSettings, BeginsWith};
ghost use Rattle.jt_terminal_rule.specs.Answers as table;
ghost use Rattle.jt_terminal_rule.specs.Rule as rule;
ghost use Rattle.jt_terminal_answers.specs.Answering.{AllOrNothing};

use crate::changes::{circles, deletion, polygon, rectangles, route};
use crate::params::{set_params_of, tell_all, tell_some};
use crate::position::tell_position;
use crate::regions::change_regions;
use crate::saying::{respond, say_answer};
use jt_codec::{Message, Resend, write_body};
use jt_header::Header;
use jt_terminal_rule::{AnswerKind, State};
use jt_value::results::{MESSAGE_ERROR, NOT_SUPPORTED, SUCCESS};
use jt_value::{Edition, Memory, Octets, Seq};
use std::alloc::Global;

/// Answers a message by the table of answers: parameters and regions are set, told or changed, the position is told, and every
/// other message but a response or a reply gets a general response. After want of memory nothing is changed, or times and
/// tables alone, as the answer has them.
pub fn answer(
    alloc: Global,
    state: &mut State,
    header: &Header,
    message: &Message,
    out: &mut Seq<Octets>,
) -> Result<(), Memory>
    requires good { AreSettings state.old.settings }
    requires held { HasOctets state.old.params }
    requires fits { Fits header.now.edition message.now }
    ensures state { OnOk result (state.new
        ≡ (rule.answers state.old (table.answer_to state.old header.now message.now)).state) }
    ensures out { OnOk result (out.new ≡ out.old ++ rule.sends state.old.settings
        (rule.answers state.old (table.answer_to state.old header.now message.now)).steps) }
    ensures err { OnErr result
        (AllOrNothing state.old (table.answer_to state.old header.now message.now) state.new) }
    ensures octets { HasOctets state.new.params }
    ensures kept { BeginsWith out.new out.old }
{
    match message {
        Message::SetParams(params) => set_params_of(alloc, state, header, params, out),
        Message::QueryParams => tell_all(alloc, state, header, out),
        Message::QuerySome(ids) => tell_some(alloc, state, header, ids, out),
        Message::QueryPosition => tell_position(alloc, state, header, out),
        Message::Text { .. } => respond(alloc, state, header, SUCCESS, out),
        Message::Circles { setting, list } => {
            let change = circles(alloc, *setting, list)?;
            change_regions(alloc, state, header, &change, out)
        }
        Message::Rectangles { setting, list } => {
            let change = rectangles(alloc, *setting, list)?;
            change_regions(alloc, state, header, &change, out)
        }
        Message::Polygon(region) => {
            let change = polygon(region)?;
            change_regions(alloc, state, header, &change, out)
        }
        Message::Route(region) => {
            let change = route(region)?;
            change_regions(alloc, state, header, &change, out)
        }
        Message::Delete { kind, ids } => {
            let change = deletion(alloc, *kind, ids)?;
            change_regions(alloc, state, header, &change, out)
        }
        Message::PlatformAck { .. } | Message::RegisterReply(_) | Message::Resend(_) => Ok(()),
        _ => respond(alloc, state, header, NOT_SUPPORTED, out),
    }
}

/// Answers a message whose body is refused, or a packet of too many, by a message error.
pub fn answer_refused(
    alloc: Global,
    state: &mut State,
    header: &Header,
    out: &mut Seq<Octets>,
) -> Result<(), Memory>
    requires { AreSettings state.old.settings }
    ensures state { OnOk result (state.new
        ≡ (rule.answers state.old (table.answer_to_refused state.old header.now)).state) }
    ensures out { OnOk result (out.new ≡ out.old ++ rule.sends state.old.settings
        (rule.answers state.old (table.answer_to_refused state.old header.now)).steps) }
    ensures err { OnErr result (state.new ≡ state.old) }
    ensures kept { BeginsWith out.new out.old }
{
    respond(alloc, state, header, MESSAGE_ERROR, out)
}

// Each number has sixteen bits. Nothing is done here but look at them.
fn look_at_numbers(numbers: &[u16])
    ensures { AllByRecursion word.Fits numbers.now }
{
    let _numbers = numbers;
}

// The body of a request for packets again, in 2019.
fn lack_body(alloc: Global, first: u16, numbers: Seq<u16>) -> Result<Octets, Memory>
    requires { length numbers ≤ OCTET_COUNT_LIMIT }
    ensures { IfOk result (λ octets. octets ≡ body_octets E2019
        (message.TerminalResend (record { first = first; wide = true; numbers = numbers }))) }
{
    look_at_numbers(numbers.as_slice());
    let request = Resend {
        first,
        wide: true,
        numbers,
    };
    write_body(alloc, Edition::E2019, &Message::TerminalResend(request))
}

/// Asks for the packets of these numbers again, of the message whose packet 1 has this serial: in 2019, and by nothing in 2013.
pub fn answer_lack(
    alloc: Global,
    state: &mut State,
    first: u16,
    numbers: Seq<u16>,
    out: &mut Seq<Octets>,
) -> Result<(), Memory>
    requires good { AreSettings state.old.settings }
    requires few { length numbers ≤ OCTET_COUNT_LIMIT }
    ensures state { OnOk result (state.new ≡ (rule.answers state.old
        (table.answer_to_lack state.old state.old.settings.phone.edition first numbers)).state) }
    ensures out { OnOk result
        (out.new ≡ out.old ++ rule.sends state.old.settings (rule.answers state.old
        (table.answer_to_lack state.old state.old.settings.phone.edition first numbers)).steps) }
    ensures err { OnErr result (state.new ≡ state.old) }
    ensures kept { BeginsWith out.new out.old }
{
    match state.settings.phone.edition {
        Edition::E2013 => Ok(()),
        Edition::E2019 => {
            let body = lack_body(alloc, first, numbers)?;
            say_answer(alloc, state, AnswerKind::Packets, body.as_slice(), out)
        }
    }
}
