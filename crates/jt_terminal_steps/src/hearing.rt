//! What a terminal does at the platform's messages.

ghost use Rattle.std.specs.Prelude.{◌≡◌, ◌≤◌, ◌<◌, IfOk, IsOk, OnOk, OnErr, None, Some, false, length};
ghost use Rattle.jt_value.specs.declared.limits.TheConstants.{OCTET_COUNT_LIMIT};
ghost use Rattle.jt_codec.specs.Bodies.{Fits, body_octets};
ghost use Rattle.jt_store.specs.Vaults.{Accepts, changed};
ghost use Rattle.jt_terminal_rule.specs.Messages as messages;
ghost use Rattle.jt_terminal_rule.specs.Answers as table;
ghost use Rattle.jt_terminal_rule.specs.Rule as rule;
ghost use Rattle.jt_terminal_steps.specs.AfterError.{AreSameParams, AreSameTables, CutLists, changes_regions_in, lists_of, sets_params_in};
ghost use Rattle.jt_terminal_steps.specs.Running.{CutShort, IsSame, IsSound, Outside, Ran, accept_first, oldest_is, took};
ghost use Rattle.jt_terminal_rule.specs.declared.state.GiveUp.TheVariants.{Denied};
ghost use Rattle.jt_terminal_rule.specs.declared.state.Phase.TheVariants.{Down};

use crate::copying::copy_params;
use crate::error::{TerminalError, trouble};
use crate::window::fill_window;
use jt_codec::{Message, write_body};
use jt_header::Header;
use jt_register::RegisterReply;
use jt_store::{Unit, Vault};
use jt_terminal_answers::{answer, answer_lack, answer_refused};
use jt_terminal_rule::{Acknowledgement, GiveUp, Phase, State, first_wait, lose, now_in, say_auth};
use jt_value::ids::AUTH;
use jt_value::limits::CODE_LIMIT;
use jt_value::results::{ALARM_HANDLED, SUCCESS};
use jt_value::{Edition, Memory, Octets, Seq};
use std::alloc::Global;

// The line is given up, since the platform answered so.
fn deny(
    alloc: Global,
    state: &mut State,
    edition: Edition,
    message: &Message,
) -> Result<Option<GiveUp>, Memory>
    requires { Fits edition message.now }
    ensures ok { IfOk result (λ end. end ≡ Some (Denied (body_octets edition message.now))) }
    ensures state { OnOk result (state.new ≡ rule.down state.old) }
    ensures err { OnErr result (state.new ≡ state.old) }
{
    let octets = write_body(alloc, edition, message)?;
    lose(state);
    Ok(Some(GiveUp::Denied(octets)))
}

// Whether the code of a reply may be stored.
fn is_registered(reply: &RegisterReply) -> bool
    ensures { result ≡ rule.is_registered reply.now }
{
    reply.result == 0 && reply.code.len() <= CODE_LIMIT
}

// The platform gave a code: it is committed, and the terminal authenticates itself.
fn store_code<V: Vault>(
    alloc: Global,
    vault: &mut V,
    state: &mut State,
    out: &mut Seq<Octets>,
    code: &Octets,
) -> Result<(), TerminalError>
    requires short { length code.now ≤ CODE_LIMIT }
    requires sound { IsSound (V.holds vault.old) state.old }
    ensures ok { OnOk result (Ran state.old.settings (rule.store_code state.old code.now) state.new
        (V.holds vault.old) (V.holds vault.new) out.old out.new None) }
    ensures err { OnErr result (CutShort (rule.store_code state.old code.now).steps
        (V.holds vault.old) (V.holds vault.new)) }
    ensures lists { OnErr result (CutLists (rule.store_code state.old code.now).steps
        (lists_of state.old) (lists_of state.new)) }
    ensures sound { IsSound (V.holds vault.new) state.new }
    ensures same { IsSame state.old state.new }
    ensures tables { AreSameTables state.old state.new }
    ensures outside { Outside (V.faults vault.old) (V.faults vault.new) (V.limit vault.old)
        (V.limit vault.new) (V.may_fail vault.old) (V.may_fail vault.new) result }
{
    let copy = code.copy(alloc)?;
    say_auth(alloc, &state.settings, state.next, code.as_slice(), out)?;
    match vault.set_code(alloc, Some(code.as_slice())) {
        Ok(()) => {
            state.code = Some(copy);
            now_in(state, Phase::Authenticating(state.next));
            Ok(())
        }
        Err(error) => Err(trouble(error)),
    }
}

// The reply to the registration.
fn take_reply<V: Vault>(
    alloc: Global,
    vault: &mut V,
    state: &mut State,
    out: &mut Seq<Octets>,
    reply: &RegisterReply,
    edition: Edition,
    message: &Message,
) -> Result<Option<GiveUp>, TerminalError>
    requires fits { Fits edition message.now }
    requires sound { IsSound (V.holds vault.old) state.old }
    ensures ok { IfOk result (λ end. Ran state.old.settings
        (rule.take_reply state.old reply.now (body_octets edition message.now)) state.new
        (V.holds vault.old) (V.holds vault.new) out.old out.new end) }
    ensures err { OnErr result
        (CutShort (rule.take_reply state.old reply.now (body_octets edition message.now)).steps
        (V.holds vault.old) (V.holds vault.new)) }
    ensures lists { OnErr result
        (CutLists (rule.take_reply state.old reply.now (body_octets edition message.now)).steps
        (lists_of state.old) (lists_of state.new)) }
    ensures sound { IsSound (V.holds vault.new) state.new }
    ensures same { IsSame state.old state.new }
    ensures tables { AreSameTables state.old state.new }
    ensures outside { Outside (V.faults vault.old) (V.faults vault.new) (V.limit vault.old)
        (V.limit vault.new) (V.may_fail vault.old) (V.may_fail vault.new) result }
{
    if is_registered(reply) {
        store_code(alloc, vault, state, out, &reply.code)?;
        return Ok(None);
    }
    Ok(deny(alloc, state, edition, message)?)
}

// The code is removed, and the line given up.
fn forget_code<V: Vault>(
    alloc: Global,
    vault: &mut V,
    state: &mut State,
    out: &Seq<Octets>,
    edition: Edition,
    message: &Message,
) -> Result<Option<GiveUp>, TerminalError>
    requires fits { Fits edition message.now }
    requires sound { IsSound (V.holds vault.old) state.old }
    ensures ok { IfOk result (λ end.
        Ran state.old.settings (rule.forget_code state.old (body_octets edition message.now))
        state.new (V.holds vault.old) (V.holds vault.new) out.now out.now end) }
    ensures err { OnErr result
        (CutShort (rule.forget_code state.old (body_octets edition message.now)).steps
        (V.holds vault.old) (V.holds vault.new)) }
    ensures lists { OnErr result
        (CutLists (rule.forget_code state.old (body_octets edition message.now)).steps
        (lists_of state.old) (lists_of state.new)) }
    ensures sound { IsSound (V.holds vault.new) state.new }
    ensures same { IsSame state.old state.new }
    ensures tables { AreSameTables state.old state.new }
    ensures outside { Outside (V.faults vault.old) (V.faults vault.new) (V.limit vault.old)
        (V.limit vault.new) (V.may_fail vault.old) (V.may_fail vault.new) result }
{
    let _frames = out;
    let octets = write_body(alloc, edition, message)?;
    match vault.set_code(alloc, None) {
        Ok(()) => {
            state.code = None;
            lose(state);
            Ok(Some(GiveUp::Denied(octets)))
        }
        Err(error) => Err(trouble(error)),
    }
}

// The response to the authentication of this serial.
fn on_auth_response<V: Vault>(
    alloc: Global,
    vault: &mut V,
    state: &mut State,
    out: &mut Seq<Octets>,
    serial: u16,
    answer: u8,
    edition: Edition,
    message: &Message,
) -> Result<Option<GiveUp>, TerminalError>
    requires fits { Fits edition message.now }
    requires sound { IsSound (V.holds vault.old) state.old }
    ensures ok { IfOk result (λ end. Ran state.old.settings
        (rule.on_auth_response state.old serial answer (body_octets edition message.now)) state.new
        (V.holds vault.old) (V.holds vault.new) out.old out.new end) }
    ensures err { OnErr result (CutShort (rule.on_auth_response state.old serial answer
        (body_octets edition message.now)).steps (V.holds vault.old) (V.holds vault.new)) }
    ensures lists { OnErr result (CutLists (rule.on_auth_response state.old serial answer
        (body_octets edition message.now)).steps (lists_of state.old) (lists_of state.new)) }
    ensures sound { IsSound (V.holds vault.new) state.new }
    ensures same { IsSame state.old state.new }
    ensures tables { AreSameTables state.old state.new }
    ensures outside { Outside (V.faults vault.old) (V.faults vault.new) (V.limit vault.old)
        (V.limit vault.new) (V.may_fail vault.old) (V.may_fail vault.new) result }
{
    if answer == 0 {
        state.phase = Phase::Live(serial);
        fill_window(alloc, vault, state, out)?;
        return Ok(None);
    }
    forget_code(alloc, vault, state, out, edition, message)
}

/// Whether the response names the unit.
pub fn names(ack: Acknowledgement, unit: &Unit) -> bool
    ensures { result ≡ rule.names ack unit.now }
{
    ack.reply == unit.serial && ack.id == unit.id
}

/// Whether the response accepts what it names.
pub fn is_acceptance(ack: Acknowledgement) -> bool
    ensures { result ≡ messages.is_acceptance ack }
{
    ack.result == SUCCESS || ack.result == ALARM_HANDLED
}

// Whether the response names the oldest unit, which was sent on this line.
fn names_oldest(state: &State, ack: Acknowledgement) -> bool
    ensures { result ≡ oldest_is state.now ack state.now.units }
{
    match state.units.get(0) {
        Some(unit) => state.sent > 0 && names(ack, unit),
        None => false,
    }
}

// The oldest unit, if there is one, is accepted.
fn oldest_accepted(state: &mut State)
    ensures { state.new ≡ took state.old state.old.units }
{
    if let Some(unit) = state.units.pop_front() {
        let Unit { serial, count, .. } = &unit;
        state.mark = *serial;
        state.sent = state.sent.saturating_sub(1);
        state.wait = first_wait(state);
        state.accepted = state.accepted.saturating_add(u64::from(*count));
    }
}

// The vault accepts the oldest unit.
fn accept<V: Vault>(alloc: Global, vault: &mut V, state: &mut State) -> Result<(), TerminalError>
    requires some { 0 < length state.old.units }
    requires sound { IsSound (V.holds vault.old) state.old }
    ensures ok { OnOk result ((state.new ≡ took state.old state.old.units)
        × (V.holds vault.new ≡ changed Accepts (V.holds vault.old))) }
    ensures err { OnErr result ((state.new ≡ state.old) × (V.holds vault.new ≡ V.holds vault.old)) }
    ensures sound { IsSound (V.holds vault.new) state.new }
    ensures same { IsSame state.old state.new }
    ensures tables { AreSameTables state.old state.new }
    ensures outside { Outside (V.faults vault.old) (V.faults vault.new) (V.limit vault.old)
        (V.limit vault.new) (V.may_fail vault.old) (V.may_fail vault.new) result }
{
    match vault.accept(alloc) {
        Ok(()) => {
            oldest_accepted(state);
            Ok(())
        }
        Err(error) => Err(trouble(error)),
    }
}

// The oldest unit is accepted, and the window is filled.
fn accept_oldest<V: Vault>(
    alloc: Global,
    vault: &mut V,
    state: &mut State,
    out: &mut Seq<Octets>,
) -> Result<(), TerminalError>
    requires some { 0 < length state.old.units }
    requires sound { IsSound (V.holds vault.old) state.old }
    ensures ok { OnOk result (Ran state.old.settings (accept_first state.old state.old.units)
        state.new (V.holds vault.old) (V.holds vault.new) out.old out.new None) }
    ensures err { OnErr result (CutShort (accept_first state.old state.old.units).steps
        (V.holds vault.old) (V.holds vault.new)) }
    ensures lists { OnErr result (CutLists (accept_first state.old state.old.units).steps
        (lists_of state.old) (lists_of state.new)) }
    ensures sound { IsSound (V.holds vault.new) state.new }
    ensures same { IsSame state.old state.new }
    ensures tables { AreSameTables state.old state.new }
    ensures outside { Outside (V.faults vault.old) (V.faults vault.new) (V.limit vault.old)
        (V.limit vault.new) (V.may_fail vault.old) (V.may_fail vault.new) result }
{
    accept(alloc, vault, state)?;
    fill_window(alloc, vault, state, out)
}

// A response while the terminal is Live.
fn on_unit_response<V: Vault>(
    alloc: Global,
    vault: &mut V,
    state: &mut State,
    out: &mut Seq<Octets>,
    ack: Acknowledgement,
    edition: Edition,
    message: &Message,
) -> Result<Option<GiveUp>, TerminalError>
    requires fits { Fits edition message.now }
    requires sound { IsSound (V.holds vault.old) state.old }
    ensures ok { IfOk result (λ end. Ran state.old.settings
        (rule.on_unit_response state.old state.old.units ack (body_octets edition message.now))
        state.new (V.holds vault.old) (V.holds vault.new) out.old out.new end) }
    ensures err { OnErr result (CutShort (rule.on_unit_response state.old state.old.units ack
        (body_octets edition message.now)).steps (V.holds vault.old) (V.holds vault.new)) }
    ensures lists { OnErr result (CutLists (rule.on_unit_response state.old state.old.units ack
        (body_octets edition message.now)).steps (lists_of state.old) (lists_of state.new)) }
    ensures sound { IsSound (V.holds vault.new) state.new }
    ensures same { IsSame state.old state.new }
    ensures tables { AreSameTables state.old state.new }
    ensures outside { Outside (V.faults vault.old) (V.faults vault.new) (V.limit vault.old)
        (V.limit vault.new) (V.may_fail vault.old) (V.may_fail vault.new) result }
{
    if !names_oldest(state, ack) {
        fill_window(alloc, vault, state, out)?;
        return Ok(None);
    }
    if is_acceptance(ack) {
        accept_oldest(alloc, vault, state, out)?;
        return Ok(None);
    }
    Ok(deny(alloc, state, edition, message)?)
}

// A response, by the phase.
fn on_response<V: Vault>(
    alloc: Global,
    vault: &mut V,
    state: &mut State,
    out: &mut Seq<Octets>,
    ack: Acknowledgement,
    edition: Edition,
    message: &Message,
) -> Result<Option<GiveUp>, TerminalError>
    requires fits { Fits edition message.now }
    requires sound { IsSound (V.holds vault.old) state.old }
    ensures ok { IfOk result (λ end. Ran state.old.settings
        (rule.on_response state.old.phase state.old ack (body_octets edition message.now)) state.new
        (V.holds vault.old) (V.holds vault.new) out.old out.new end) }
    ensures err { OnErr result (CutShort (rule.on_response state.old.phase state.old ack
        (body_octets edition message.now)).steps (V.holds vault.old) (V.holds vault.new)) }
    ensures lists { OnErr result (CutLists (rule.on_response state.old.phase state.old ack
        (body_octets edition message.now)).steps (lists_of state.old) (lists_of state.new)) }
    ensures quiet { state.old.phase ≡ Down → IsOk result }
    ensures sound { IsSound (V.holds vault.new) state.new }
    ensures same { IsSame state.old state.new }
    ensures tables { AreSameTables state.old state.new }
    ensures outside { Outside (V.faults vault.old) (V.faults vault.new) (V.limit vault.old)
        (V.limit vault.new) (V.may_fail vault.old) (V.may_fail vault.new) result }
{
    match state.phase {
        Phase::Down | Phase::Registering(_) => Ok(None),
        Phase::Authenticating(serial) => {
            if ack.id == AUTH && ack.reply == serial {
                return on_auth_response(
                    alloc, vault, state, out, serial, ack.result, edition, message,
                );
            }
            Ok(None)
        }
        Phase::Live(_) => on_unit_response(alloc, vault, state, out, ack, edition, message),
    }
}

// A reply to a registration, by the phase.
fn on_register_reply<V: Vault>(
    alloc: Global,
    vault: &mut V,
    state: &mut State,
    out: &mut Seq<Octets>,
    reply: &RegisterReply,
    edition: Edition,
    message: &Message,
) -> Result<Option<GiveUp>, TerminalError>
    requires fits { Fits edition message.now }
    requires sound { IsSound (V.holds vault.old) state.old }
    ensures ok { IfOk result (λ end. Ran state.old.settings (rule.on_register_reply state.old.phase
        state.old reply.now (body_octets edition message.now))
        state.new (V.holds vault.old) (V.holds vault.new) out.old out.new end) }
    ensures err { OnErr result (CutShort (rule.on_register_reply state.old.phase state.old reply.now
        (body_octets edition message.now)).steps (V.holds vault.old) (V.holds vault.new)) }
    ensures lists { OnErr result (CutLists (rule.on_register_reply state.old.phase state.old
        reply.now (body_octets edition message.now)).steps
        (lists_of state.old) (lists_of state.new)) }
    ensures quiet { state.old.phase ≡ Down → IsOk result }
    ensures sound { IsSound (V.holds vault.new) state.new }
    ensures same { IsSame state.old state.new }
    ensures tables { AreSameTables state.old state.new }
    ensures outside { Outside (V.faults vault.old) (V.faults vault.new) (V.limit vault.old)
        (V.limit vault.new) (V.may_fail vault.old) (V.may_fail vault.new) result }
{
    match state.phase {
        Phase::Registering(serial) => {
            if reply.reply == serial {
                return take_reply(alloc, vault, state, out, reply, edition, message);
            }
            Ok(None)
        }
        Phase::Live(_) => {
            fill_window(alloc, vault, state, out)?;
            Ok(None)
        }
        Phase::Down | Phase::Authenticating(_) => Ok(None),
    }
}

// A Live terminal answers a message, and fills its window.
fn answer_and_fill<V: Vault>(
    alloc: Global,
    vault: &mut V,
    state: &mut State,
    out: &mut Seq<Octets>,
    header: &Header,
    message: &Message,
) -> Result<(), TerminalError>
    requires fits { Fits header.now.edition message.now }
    requires sound { IsSound (V.holds vault.old) state.old }
    ensures ok { OnOk result (Ran state.old.settings
        (rule.and_then (rule.answers state.old (table.answer_to state.old header.now message.now))
        rule.fill_window) state.new (V.holds vault.old) (V.holds vault.new) out.old out.new None) }
    ensures err { OnErr result (CutShort (rule.and_then (rule.answers state.old
        (table.answer_to state.old header.now message.now)) rule.fill_window).steps
        (V.holds vault.old) (V.holds vault.new)) }
    ensures lists { OnErr result (CutLists (rule.and_then (rule.answers state.old
        (table.answer_to state.old header.now message.now)) rule.fill_window).steps
        (lists_of state.old) (lists_of state.new)) }
    ensures sound { IsSound (V.holds vault.new) state.new }
    ensures same { IsSame state.old state.new }
    ensures params { sets_params_in message.now ≡ false → AreSameParams state.old state.new }
    ensures regions { changes_regions_in message.now ≡ false →
        state.new.regions ≡ state.old.regions }
    ensures outside { Outside (V.faults vault.old) (V.faults vault.new) (V.limit vault.old)
        (V.limit vault.new) (V.may_fail vault.old) (V.may_fail vault.new) result }
{
    answer(alloc, state, header, message, out)?;
    fill_window(alloc, vault, state, out)
}

// The same of a message that changes no regions. After an error times and parameters are put back.
fn answer_over_params<V: Vault>(
    alloc: Global,
    vault: &mut V,
    state: &mut State,
    out: &mut Seq<Octets>,
    header: &Header,
    message: &Message,
) -> Result<(), TerminalError>
    requires fits { Fits header.now.edition message.now }
    requires regions { changes_regions_in message.now ≡ false }
    requires sound { IsSound (V.holds vault.old) state.old }
    ensures ok { OnOk result (Ran state.old.settings
        (rule.and_then (rule.answers state.old (table.answer_to state.old header.now message.now))
        rule.fill_window) state.new (V.holds vault.old) (V.holds vault.new) out.old out.new None) }
    ensures err { OnErr result (CutShort (rule.and_then (rule.answers state.old
        (table.answer_to state.old header.now message.now)) rule.fill_window).steps
        (V.holds vault.old) (V.holds vault.new)) }
    ensures lists { OnErr result (CutLists (rule.and_then (rule.answers state.old
        (table.answer_to state.old header.now message.now)) rule.fill_window).steps
        (lists_of state.old) (lists_of state.new)) }
    ensures sound { IsSound (V.holds vault.new) state.new }
    ensures same { IsSame state.old state.new }
    ensures tables { OnErr result (AreSameTables state.old state.new) }
    ensures params { sets_params_in message.now ≡ false → AreSameParams state.old state.new }
    ensures outside { Outside (V.faults vault.old) (V.faults vault.new) (V.limit vault.old)
        (V.limit vault.new) (V.may_fail vault.old) (V.may_fail vault.new) result }
{
    let timing = state.timing;
    let params = copy_params(alloc, &state.params)?;
    match answer_and_fill(alloc, vault, state, out, header, message) {
        Ok(()) => Ok(()),
        Err(error) => {
            state.timing = timing;
            state.params = params;
            Err(error)
        }
    }
}

// The same of a message that sets no parameters. After an error regions are put back.
fn answer_over_regions<V: Vault>(
    alloc: Global,
    vault: &mut V,
    state: &mut State,
    out: &mut Seq<Octets>,
    header: &Header,
    message: &Message,
) -> Result<(), TerminalError>
    requires fits { Fits header.now.edition message.now }
    requires params { sets_params_in message.now ≡ false }
    requires sound { IsSound (V.holds vault.old) state.old }
    ensures ok { OnOk result (Ran state.old.settings
        (rule.and_then (rule.answers state.old (table.answer_to state.old header.now message.now))
        rule.fill_window) state.new (V.holds vault.old) (V.holds vault.new) out.old out.new None) }
    ensures err { OnErr result (CutShort (rule.and_then (rule.answers state.old
        (table.answer_to state.old header.now message.now)) rule.fill_window).steps
        (V.holds vault.old) (V.holds vault.new)) }
    ensures lists { OnErr result (CutLists (rule.and_then (rule.answers state.old
        (table.answer_to state.old header.now message.now)) rule.fill_window).steps
        (lists_of state.old) (lists_of state.new)) }
    ensures sound { IsSound (V.holds vault.new) state.new }
    ensures same { IsSame state.old state.new }
    ensures tables { OnErr result (AreSameTables state.old state.new) }
    ensures params { sets_params_in message.now ≡ false → AreSameParams state.old state.new }
    ensures outside { Outside (V.faults vault.old) (V.faults vault.new) (V.limit vault.old)
        (V.limit vault.new) (V.may_fail vault.old) (V.may_fail vault.new) result }
{
    let regions = state.regions.copy()?;
    match answer_and_fill(alloc, vault, state, out, header, message) {
        Ok(()) => Ok(()),
        Err(error) => {
            state.regions = regions;
            Err(error)
        }
    }
}

// Whether the message sets parameters.
fn sets_params(message: &Message) -> bool
    ensures { result ≡ sets_params_in message.now }
{
    match message {
        Message::SetParams(_) => true,
        _ => false,
    }
}

// Whether the message changes regions.
fn changes_regions(message: &Message) -> bool
    ensures { result ≡ changes_regions_in message.now }
{
    match message {
        Message::Circles { .. } => true,
        Message::Rectangles { .. } => true,
        Message::Polygon(_) => true,
        Message::Route(_) => true,
        Message::Delete { .. } => true,
        _ => false,
    }
}

// A Live terminal answers any message, and fills its window. After an error times and tables are as before.
fn answer_as_before<V: Vault>(
    alloc: Global,
    vault: &mut V,
    state: &mut State,
    out: &mut Seq<Octets>,
    header: &Header,
    message: &Message,
) -> Result<(), TerminalError>
    requires fits { Fits header.now.edition message.now }
    requires sound { IsSound (V.holds vault.old) state.old }
    ensures ok { OnOk result (Ran state.old.settings
        (rule.and_then (rule.answers state.old (table.answer_to state.old header.now message.now))
        rule.fill_window) state.new (V.holds vault.old) (V.holds vault.new) out.old out.new None) }
    ensures err { OnErr result (CutShort (rule.and_then (rule.answers state.old
        (table.answer_to state.old header.now message.now)) rule.fill_window).steps
        (V.holds vault.old) (V.holds vault.new)) }
    ensures lists { OnErr result (CutLists (rule.and_then (rule.answers state.old
        (table.answer_to state.old header.now message.now)) rule.fill_window).steps
        (lists_of state.old) (lists_of state.new)) }
    ensures sound { IsSound (V.holds vault.new) state.new }
    ensures same { IsSame state.old state.new }
    ensures tables { OnErr result (AreSameTables state.old state.new) }
    ensures params { sets_params_in message.now ≡ false → AreSameParams state.old state.new }
    ensures outside { Outside (V.faults vault.old) (V.faults vault.new) (V.limit vault.old)
        (V.limit vault.new) (V.may_fail vault.old) (V.may_fail vault.new) result }
{
    if changes_regions(message) {
        return answer_over_regions(alloc, vault, state, out, header, message);
    }
    if sets_params(message) {
        return answer_over_params(alloc, vault, state, out, header, message);
    }
    answer_and_fill(alloc, vault, state, out, header, message)
}

// A message that is answered by a terminal that is Live alone.
fn answer_if_live<V: Vault>(
    alloc: Global,
    vault: &mut V,
    state: &mut State,
    out: &mut Seq<Octets>,
    header: &Header,
    message: &Message,
) -> Result<(), TerminalError>
    requires fits { Fits header.now.edition message.now }
    requires sound { IsSound (V.holds vault.old) state.old }
    ensures ok { OnOk result (Ran state.old.settings (rule.answer_if_live state.old.phase state.old
        (table.answer_to state.old header.now message.now))
        state.new (V.holds vault.old) (V.holds vault.new) out.old out.new None) }
    ensures err { OnErr result (CutShort (rule.answer_if_live state.old.phase state.old
        (table.answer_to state.old header.now message.now)).steps
        (V.holds vault.old) (V.holds vault.new)) }
    ensures lists { OnErr result (CutLists (rule.answer_if_live state.old.phase state.old
        (table.answer_to state.old header.now message.now)).steps
        (lists_of state.old) (lists_of state.new)) }
    ensures quiet { state.old.phase ≡ Down → IsOk result }
    ensures sound { IsSound (V.holds vault.new) state.new }
    ensures same { IsSame state.old state.new }
    ensures tables { OnErr result (AreSameTables state.old state.new) }
    ensures params { sets_params_in message.now ≡ false → AreSameParams state.old state.new }
    ensures outside { Outside (V.faults vault.old) (V.faults vault.new) (V.limit vault.old)
        (V.limit vault.new) (V.may_fail vault.old) (V.may_fail vault.new) result }
{
    match state.phase {
        Phase::Live(_) => answer_as_before(alloc, vault, state, out, header, message),
        Phase::Down | Phase::Registering(_) | Phase::Authenticating(_) => Ok(()),
    }
}

// A Live terminal answers a body that is refused or a packet of too many, and fills its window.
fn refuse_and_fill<V: Vault>(
    alloc: Global,
    vault: &mut V,
    state: &mut State,
    out: &mut Seq<Octets>,
    header: &Header,
) -> Result<(), TerminalError>
    requires sound { IsSound (V.holds vault.old) state.old }
    ensures ok { OnOk result (Ran state.old.settings
        (rule.and_then (rule.answers state.old (table.answer_to_refused state.old header.now))
        rule.fill_window) state.new (V.holds vault.old) (V.holds vault.new) out.old out.new None) }
    ensures err { OnErr result (CutShort (rule.and_then (rule.answers state.old
        (table.answer_to_refused state.old header.now)) rule.fill_window).steps
        (V.holds vault.old) (V.holds vault.new)) }
    ensures lists { OnErr result (CutLists (rule.and_then (rule.answers state.old
        (table.answer_to_refused state.old header.now)) rule.fill_window).steps
        (lists_of state.old) (lists_of state.new)) }
    ensures sound { IsSound (V.holds vault.new) state.new }
    ensures same { IsSame state.old state.new }
    ensures tables { AreSameTables state.old state.new }
    ensures outside { Outside (V.faults vault.old) (V.faults vault.new) (V.limit vault.old)
        (V.limit vault.new) (V.may_fail vault.old) (V.may_fail vault.new) result }
{
    answer_refused(alloc, state, header, out)?;
    fill_window(alloc, vault, state, out)
}

/// A body that is refused or a packet of too many, which is answered by a terminal that is Live alone.
pub fn refuse_if_live<V: Vault>(
    alloc: Global,
    vault: &mut V,
    state: &mut State,
    out: &mut Seq<Octets>,
    header: &Header,
) -> Result<(), TerminalError>
    requires sound { IsSound (V.holds vault.old) state.old }
    ensures ok { OnOk result (Ran state.old.settings (rule.answer_if_live state.old.phase state.old
        (table.answer_to_refused state.old header.now))
        state.new (V.holds vault.old) (V.holds vault.new) out.old out.new None) }
    ensures err { OnErr result (CutShort (rule.answer_if_live state.old.phase state.old
        (table.answer_to_refused state.old header.now)).steps
        (V.holds vault.old) (V.holds vault.new)) }
    ensures lists { OnErr result (CutLists (rule.answer_if_live state.old.phase state.old
        (table.answer_to_refused state.old header.now)).steps
        (lists_of state.old) (lists_of state.new)) }
    ensures quiet { state.old.phase ≡ Down → IsOk result }
    ensures sound { IsSound (V.holds vault.new) state.new }
    ensures same { IsSame state.old state.new }
    ensures tables { AreSameTables state.old state.new }
    ensures outside { Outside (V.faults vault.old) (V.faults vault.new) (V.limit vault.old)
        (V.limit vault.new) (V.may_fail vault.old) (V.may_fail vault.new) result }
{
    match state.phase {
        Phase::Live(_) => refuse_and_fill(alloc, vault, state, out, header),
        Phase::Down | Phase::Registering(_) | Phase::Authenticating(_) => Ok(()),
    }
}

// A Live terminal answers the last packet of a message whose others lack, and fills its window.
fn ask_and_fill<V: Vault>(
    alloc: Global,
    vault: &mut V,
    state: &mut State,
    out: &mut Seq<Octets>,
    first: u16,
    numbers: Seq<u16>,
) -> Result<(), TerminalError>
    requires sound { IsSound (V.holds vault.old) state.old }
    requires few { length numbers ≤ OCTET_COUNT_LIMIT }
    ensures ok { OnOk result (Ran state.old.settings (rule.and_then (rule.answers state.old
        (table.answer_to_lack state.old state.old.settings.phone.edition first numbers))
        rule.fill_window) state.new (V.holds vault.old) (V.holds vault.new) out.old out.new None) }
    ensures err { OnErr result (CutShort (rule.and_then (rule.answers state.old
        (table.answer_to_lack state.old state.old.settings.phone.edition first numbers))
        rule.fill_window).steps (V.holds vault.old) (V.holds vault.new)) }
    ensures lists { OnErr result (CutLists (rule.and_then (rule.answers state.old
        (table.answer_to_lack state.old state.old.settings.phone.edition first numbers))
        rule.fill_window).steps (lists_of state.old) (lists_of state.new)) }
    ensures sound { IsSound (V.holds vault.new) state.new }
    ensures same { IsSame state.old state.new }
    ensures tables { AreSameTables state.old state.new }
    ensures outside { Outside (V.faults vault.old) (V.faults vault.new) (V.limit vault.old)
        (V.limit vault.new) (V.may_fail vault.old) (V.may_fail vault.new) result }
{
    answer_lack(alloc, state, first, numbers, out)?;
    fill_window(alloc, vault, state, out)
}

/// The last packet of a message whose others lack, which is answered by a terminal that is Live alone.
pub fn ask_if_live<V: Vault>(
    alloc: Global,
    vault: &mut V,
    state: &mut State,
    out: &mut Seq<Octets>,
    first: u16,
    numbers: Seq<u16>,
) -> Result<(), TerminalError>
    requires sound { IsSound (V.holds vault.old) state.old }
    requires few { length numbers ≤ OCTET_COUNT_LIMIT }
    ensures ok { OnOk result (Ran state.old.settings (rule.answer_if_live state.old.phase state.old
        (table.answer_to_lack state.old state.old.settings.phone.edition first numbers))
        state.new (V.holds vault.old) (V.holds vault.new) out.old out.new None) }
    ensures err { OnErr result (CutShort (rule.answer_if_live state.old.phase state.old
        (table.answer_to_lack state.old state.old.settings.phone.edition first numbers)).steps
        (V.holds vault.old) (V.holds vault.new)) }
    ensures lists { OnErr result (CutLists (rule.answer_if_live state.old.phase state.old
        (table.answer_to_lack state.old state.old.settings.phone.edition first numbers)).steps
        (lists_of state.old) (lists_of state.new)) }
    ensures quiet { state.old.phase ≡ Down → IsOk result }
    ensures sound { IsSound (V.holds vault.new) state.new }
    ensures same { IsSame state.old state.new }
    ensures tables { AreSameTables state.old state.new }
    ensures outside { Outside (V.faults vault.old) (V.faults vault.new) (V.limit vault.old)
        (V.limit vault.new) (V.may_fail vault.old) (V.may_fail vault.new) result }
{
    match state.phase {
        Phase::Live(_) => ask_and_fill(alloc, vault, state, out, first, numbers),
        Phase::Down | Phase::Registering(_) | Phase::Authenticating(_) => Ok(()),
    }
}

/// A message of the platform.
pub fn on_message<V: Vault>(
    alloc: Global,
    vault: &mut V,
    state: &mut State,
    out: &mut Seq<Octets>,
    header: &Header,
    message: &Message,
) -> Result<Option<GiveUp>, TerminalError>
    requires fits { Fits header.now.edition message.now }
    requires sound { IsSound (V.holds vault.old) state.old }
    ensures ok { IfOk result (λ end.
        Ran state.old.settings (rule.on_message state.old header.now message.now) state.new
        (V.holds vault.old) (V.holds vault.new) out.old out.new end) }
    ensures err { OnErr result (CutShort (rule.on_message state.old header.now message.now).steps
        (V.holds vault.old) (V.holds vault.new)) }
    ensures lists { OnErr result (CutLists (rule.on_message state.old header.now message.now).steps
        (lists_of state.old) (lists_of state.new)) }
    ensures quiet { state.old.phase ≡ Down → IsOk result }
    ensures sound { IsSound (V.holds vault.new) state.new }
    ensures same { IsSame state.old state.new }
    ensures tables { OnErr result (AreSameTables state.old state.new) }
    ensures params { sets_params_in message.now ≡ false → AreSameParams state.old state.new }
    ensures outside { Outside (V.faults vault.old) (V.faults vault.new) (V.limit vault.old)
        (V.limit vault.new) (V.may_fail vault.old) (V.may_fail vault.new) result }
{
    match message {
        Message::PlatformAck {
            reply,
            id,
            result: answer,
        } => {
            let ack = Acknowledgement {
                reply: *reply,
                id: *id,
                result: *answer,
            };
            on_response(alloc, vault, state, out, ack, header.edition, message)
        }
        Message::RegisterReply(reply) => {
            on_register_reply(alloc, vault, state, out, reply, header.edition, message)
        }
        _ => {
            answer_if_live(alloc, vault, state, out, header, message)?;
            Ok(None)
        }
    }
}
