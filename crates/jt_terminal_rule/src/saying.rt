//! What a terminal says: its frames, and the messages that are no unit.

ghost use Rattle.std.specs.Prelude.{◌≡◌, ◌<◌, ◌≤◌, ◌^◌, ◌++◌, ◌∷◌, [], length, slice_get, OnOk, OnErr, IfOk, IfSome};
ghost use Rattle.jt_value.specs.declared.limits.TheConstants.{BODY_LIMIT, CODE_LIMIT};
ghost use Rattle.jt_header.specs.Content.{IsHeader};
ghost use Rattle.jt_terminal_rule.specs.Messages.{AreSettings, BeginsWith, frame_of, header_of, register_octets, auth_octets};
ghost use Rattle.jt_terminal_rule.specs.Rule as rule;

use crate::settings::Settings;
use crate::state::{Phase, State, Wait};
use crate::waits::{after_control, first_wait, is_silent};
use arrayvec::ArrayVec;
use jt_codec::frame_into;
use jt_header::Header;
use jt_register::{Auth, write_auth, write_register};
use jt_store::Unit;
use jt_value::ids::{AUTH, HEARTBEAT, REGISTER};
use jt_value::{Edition, Memory, Octets, Phone, Seq};
use std::alloc::Global;

/// The header of a message of this id in one packet.
pub fn header(phone: &Phone, id: u16, serial: u16) -> Header
    ensures { result ≡ header_of phone.now id serial }
{
    let version = match phone.edition {
        Edition::E2013 => 0,
        Edition::E2019 => 1,
    };
    Header {
        edition: phone.edition,
        id,
        bit15: false,
        version,
        phone: *phone,
        serial,
        packet: None,
    }
}

/// The frame of a header and a body.
#[tactic(auto, unfolding(crate::specs::Messages::frame_of))]
pub fn frame(alloc: Global, header: &Header, body: &[u8]) -> Result<Octets, Memory>
    requires header { IsHeader header.now }
    requires body { length body.now < 2 ^ 10 }
    ensures { IfOk result (λ frame. frame ≡ frame_of header.now body.now) }
{
    let mut out = ArrayVec::new();
    frame_into(header, body, &mut out);
    Ok(Octets::from_vec(Vec::from_slice(alloc, out.as_slice())?))
}

// Puts a message of the terminal behind the frames.
#[tactic(auto, using(crate::proofs::Speaking::good_header))]
pub(crate) fn say(
    alloc: Global,
    settings: &Settings,
    id: u16,
    serial: u16,
    body: &[u8],
    out: &mut Seq<Octets>,
) -> Result<(), Memory>
    requires good { AreSettings settings.now }
    requires body { length body.now < 2 ^ 10 }
    ensures out { OnOk result
        (out.new ≡ out.old ++ frame_of (header_of settings.now.phone id serial) body.now ∷ []) }
    ensures kept { BeginsWith out.new out.old }
{
    let header = header(&settings.phone, id, serial);
    let frame = frame(alloc, &header, body)?;
    out.push(frame)
}

// The body of the registration.
fn register_body(alloc: Global, settings: &Settings) -> Result<Octets, Memory>
    requires { AreSettings settings.now }
    ensures { IfOk result (λ body. body ≡ register_octets settings.now) }
{
    write_register(alloc, settings.phone.edition, &settings.register)
}

// The body of an authentication with this code.
fn auth_body(alloc: Global, settings: &Settings, code: &[u8]) -> Result<Octets, Memory>
    requires good { AreSettings settings.now }
    requires short { length code.now ≤ CODE_LIMIT }
    ensures { IfOk result (λ body. body ≡ auth_octets settings.now code.now) }
{
    let auth = Auth {
        code: Octets::from_vec(Vec::from_slice(alloc, code)?),
        tail: settings.tail,
    };
    write_auth(alloc, settings.phone.edition, &auth)
}

// The registration with this serial.
#[tactic(auto, using(crate::proofs::Speaking::register_short))]
pub(crate) fn say_register(
    alloc: Global,
    settings: &Settings,
    serial: u16,
    out: &mut Seq<Octets>,
) -> Result<(), Memory>
    requires { AreSettings settings.now }
    ensures out { OnOk result (out.new ≡ out.old
        ++ frame_of (header_of settings.now.phone 0x0100 serial) (register_octets settings.now)
        ∷ []) }
    ensures kept { BeginsWith out.new out.old }
{
    let body = register_body(alloc, settings)?;
    say(alloc, settings, REGISTER, serial, body.as_slice(), out)
}

/// The authentication with this serial and this code.
#[tactic(auto, using(crate::proofs::Speaking::auth_short))]
pub fn say_auth(
    alloc: Global,
    settings: &Settings,
    serial: u16,
    code: &[u8],
    out: &mut Seq<Octets>,
) -> Result<(), Memory>
    requires good { AreSettings settings.now }
    requires short { length code.now ≤ CODE_LIMIT }
    ensures out { OnOk result (out.new ≡ out.old
        ++ frame_of (header_of settings.now.phone 0x0102 serial) (auth_octets settings.now code.now)
        ∷ []) }
    ensures kept { BeginsWith out.new out.old }
{
    let body = auth_body(alloc, settings, code)?;
    say(alloc, settings, AUTH, serial, body.as_slice(), out)
}

/// Puts a unit behind the frames.
pub fn say_unit(
    alloc: Global,
    settings: &Settings,
    unit: &Unit,
    out: &mut Seq<Octets>,
) -> Result<(), Memory>
    requires good { AreSettings settings.now }
    requires body { length unit.now.body ≤ BODY_LIMIT }
    ensures out { OnOk result (out.new ≡ out.old
        ++ frame_of (header_of settings.now.phone unit.now.id unit.now.serial) unit.now.body ∷ []) }
    ensures kept { BeginsWith out.new out.old }
{
    let Unit {
        serial,
        id,
        body,
        ..
    } = unit;
    say(alloc, settings, *id, *serial, body.as_slice(), out)
}

/// A control message was sent that is waited for in this phase.
pub fn now_in(state: &mut State, phase: Phase)
    ensures { state.new ≡ rule.after_saying state.old phase (rule.first_wait state.old) }
{
    state.wait = first_wait(state);
    state.said = state.time;
    state.next = after_control(state);
    state.phase = phase;
}

// With a stored code the terminal authenticates itself, and without one it registers.
pub(crate) fn introduce(
    alloc: Global,
    state: &mut State,
    out: &mut Seq<Octets>,
) -> Result<(), Memory>
    requires good { AreSettings state.old.settings }
    requires short { IfSome state.old.code (λ code. length code ≤ CODE_LIMIT) }
    ensures state { OnOk result (state.new ≡ (rule.introduce state.old state.old.code).state) }
    ensures out { OnOk result (out.new ≡ out.old
        ++ rule.sends state.old.settings (rule.introduce state.old state.old.code).steps) }
    ensures err { OnErr result (state.new ≡ state.old) }
    ensures kept { BeginsWith out.new out.old }
{
    match &state.code {
        None => {
            say_register(alloc, &state.settings, state.next, out)?;
            now_in(state, Phase::Registering(state.next));
            Ok(())
        }
        Some(code) => {
            say_auth(alloc, &state.settings, state.next, code.as_slice(), out)?;
            now_in(state, Phase::Authenticating(state.next));
            Ok(())
        }
    }
}

/// A line was opened.
pub fn on_open(alloc: Global, state: &mut State, out: &mut Seq<Octets>) -> Result<(), Memory>
    requires good { AreSettings state.old.settings }
    requires short { IfSome state.old.code (λ code. length code ≤ CODE_LIMIT) }
    ensures state { OnOk result (state.new ≡ (rule.on_open state.old).state) }
    ensures out { OnOk result
        (out.new ≡ out.old ++ rule.sends state.old.settings (rule.on_open state.old).steps) }
    ensures err { OnErr result (state.new ≡ record state.old { sent = 0 }) }
    ensures kept { BeginsWith out.new out.old }
{
    state.sent = 0;
    introduce(alloc, state, out)
}

/// A heartbeat.
pub fn say_heartbeat(alloc: Global, state: &mut State, out: &mut Seq<Octets>) -> Result<(), Memory>
    requires { AreSettings state.old.settings }
    ensures state { OnOk result (state.new ≡ (rule.say_heartbeat state.old).state) }
    ensures out { OnOk result
        (out.new ≡ out.old ++ rule.sends state.old.settings (rule.say_heartbeat state.old).steps) }
    ensures err { OnErr result (state.new ≡ state.old) }
    ensures kept { BeginsWith out.new out.old }
{
    say(
        alloc,
        &state.settings,
        HEARTBEAT,
        state.next,
        b"".as_slice(),
        out,
    )?;
    state.said = state.time;
    state.next = after_control(state);
    Ok(())
}

/// A heartbeat, where nothing was sent for long enough.
pub fn heartbeat_if_silent(
    alloc: Global,
    state: &mut State,
    out: &mut Seq<Octets>,
) -> Result<(), Memory>
    requires { AreSettings state.old.settings }
    ensures state { OnOk result (state.new ≡ (rule.heartbeat_if_silent state.old).state) }
    ensures out { OnOk result (out.new
        ≡ out.old ++ rule.sends state.old.settings (rule.heartbeat_if_silent state.old).steps) }
    ensures err { OnErr result (state.new ≡ state.old) }
    ensures kept { BeginsWith out.new out.old }
{
    if is_silent(state) {
        return say_heartbeat(alloc, state, out);
    }
    Ok(())
}

// What is waited for, again.
fn send_again(alloc: Global, state: &State, out: &mut Seq<Octets>) -> Result<(), Memory>
    requires good { AreSettings state.now.settings }
    requires short { IfSome state.now.code (λ code. length code ≤ CODE_LIMIT) }
    requires units { IfSome (slice_get state.now.units 0) (λ unit. length unit.body ≤ BODY_LIMIT) }
    ensures out { OnOk result (out.new
        ≡ out.old ++ rule.sends state.now.settings (rule.steps_again state.now state.now.phase)) }
    ensures kept { BeginsWith out.new out.old }
{
    match state.phase {
        Phase::Down => Ok(()),
        Phase::Registering(serial) => say_register(alloc, &state.settings, serial, out),
        Phase::Authenticating(serial) => match &state.code {
            Some(code) => say_auth(alloc, &state.settings, serial, code.as_slice(), out),
            None => say_auth(alloc, &state.settings, serial, b"".as_slice(), out),
        },
        Phase::Live(_) => match state.units.get(0) {
            Some(unit) => say_unit(alloc, &state.settings, unit, out),
            None => Ok(()),
        },
    }
}

/// What is waited for is sent again, and the next wait begins.
pub fn repeat_sending(alloc: Global, state: &mut State, out: &mut Seq<Octets>) -> Result<(), Memory>
    requires good { AreSettings state.old.settings }
    requires short { IfSome state.old.code (λ code. length code ≤ CODE_LIMIT) }
    requires units { IfSome (slice_get state.old.units 0) (λ unit. length unit.body ≤ BODY_LIMIT) }
    requires more { state.old.wait.sendings ≤ state.old.wait.repeats }
    ensures state { OnOk result (state.new ≡ (rule.repeat_sending state.old).state) }
    ensures out { OnOk result
        (out.new ≡ out.old ++ rule.sends state.old.settings (rule.repeat_sending state.old).steps) }
    ensures err { OnErr result (state.new ≡ state.old) }
    ensures kept { BeginsWith out.new out.old }
{
    send_again(alloc, state, out)?;
    let Wait {
        sendings,
        repeats,
        ..
    } = state.wait;
    prove!(sendings <= u64::from(repeats));
    state.wait.last = state.time;
    state.wait.sendings += 1;
    state.said = state.time;
    Ok(())
}

/// No line is in use any more.
pub fn lose(state: &mut State)
    ensures { state.new ≡ rule.down state.old }
{
    state.phase = Phase::Down;
    state.sent = 0;
}
