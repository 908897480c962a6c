//! Parameters: set by the platform, and told to it.

ghost use Rattle.std.specs.Prelude.{◌≡◌, ◌≤◌, ◌++◌, Bool, true, false, Some, None, length, IfOk, OnErr, OnOk};
ghost use Rattle.std.specs.FinMap.{empty};
ghost use Rattle.jt_value.specs.declared.limits.TheConstants.{OCTET_COUNT_LIMIT};
ghost use Rattle.jt_params.specs.Params as layouts;
ghost use Rattle.jt_params.specs.Tables.{HasOctets, HaveOctets, dword_of, listed, selected};
ghost use Rattle.jt_codec.specs.Bodies.{body_octets};
ghost use Rattle.jt_codec.specs.declared.message.Message.TheVariants as message;
ghost use Rattle.jt_terminal_rule.specs.Messages.{AreSettings, BeginsWith};
ghost use Rattle.jt_terminal_rule.specs.Answers as table;
ghost use Rattle.jt_terminal_rule.specs.Rule as rule;
ghost use Rattle.jt_terminal_rule.specs.Tables.{params_after, set_params};
ghost use Rattle.jt_terminal_answers.specs.Answering.{AllOrNothing, SetIn, TookParams};

use crate::saying::{respond, say_answer};
use jt_codec::{Message, write_body};
use jt_header::Header;
use jt_params::{Param, ParamError, ParamTable, ParamValue};
use jt_terminal_rule::{AnswerKind, Settings, State, Timing};
use jt_value::results::{FAILURE, SUCCESS};
use jt_value::{Edition, Memory, Octets, Seq};
use std::alloc::Global;

/// The parameters of a terminal's times (the standard's).
const HEARTBEAT_SECONDS: u32 = 0x0001;

const ANSWER_SECONDS: u32 = 0x0002;

const REPEATS: u32 = 0x0003;

fn dword(value: &ParamValue) -> Option<u32>
    ensures { result ≡ dword_of value.now }
{
    match value {
        ParamValue::Dword(number) => Some(*number),
        _ => None,
    }
}

// The times once a parameter is set.
fn typed_time(timing: Timing, id: u32, number: Option<u32>) -> Timing
    ensures { result ≡ table.typed_time timing id number }
{
    let Some(number) = number else {
        return timing;
    };
    if id == HEARTBEAT_SECONDS {
        return Timing {
            heartbeat: number,
            ..timing
        };
    }
    if id == ANSWER_SECONDS {
        return Timing {
            answer: number,
            ..timing
        };
    }
    if id == REPEATS {
        return Timing {
            repeats: number,
            ..timing
        };
    }
    timing
}

// The times once parameters are set in order.
fn timing_after(timing: Timing, params: &[Param]) -> Timing
    ensures { result ≡ table.timing_after params.now timing }
{
    let mut now = timing;
    for param in params {
        now = typed_time(now, param.id, dword(&param.value));
    }
    now
}

// Whether a table took parameters.
pub(crate) fn set_in(table: &mut ParamTable, params: &Seq<Param>) -> Result<bool, Memory>
    requires few { length params.now ≤ OCTET_COUNT_LIMIT }
    ensures ok { IfOk result (λ taken. SetIn taken table.old params.now table.new) }
    ensures err { OnErr result (table.new ≡ table.old) }
    ensures octets { HaveOctets params.now → HasOctets table.old → HasOctets table.new }
{
    match table.set_all(params) {
        Ok(()) => Ok(true),
        Err(ParamError::TooMany(_)) => Ok(false),
        Err(ParamError::Memory) => Err(Memory),
    }
}

// Whether the table took the parameters, and with them the times.
fn take_params(state: &mut State, params: &Seq<Param>) -> Result<bool, Memory>
    requires few { length params.now ≤ OCTET_COUNT_LIMIT }
    ensures ok { IfOk result (λ taken. TookParams taken state.old params.now state.new) }
    ensures err { OnErr result (state.new ≡ state.old) }
    ensures octets { HaveOctets params.now → HasOctets state.old.params →
        HasOctets state.new.params }
{
    if set_in(&mut state.params, params)? {
        state.timing = timing_after(state.timing, params.as_slice());
        return Ok(true);
    }
    Ok(false)
}

// Sets parameters, and responds.
pub(crate) fn set_params_of(
    alloc: Global,
    state: &mut State,
    header: &Header,
    params: &Seq<Param>,
    out: &mut Seq<Octets>,
) -> Result<(), Memory>
    requires good { AreSettings state.old.settings }
    requires few { length params.now ≤ OCTET_COUNT_LIMIT }
    requires octets { HaveOctets params.now }
    requires held { HasOctets state.old.params }
    ensures state { OnOk result (state.new ≡ (rule.answers state.old (table.takes_params state.old
        header.now params.now (params_after params.now state.old.params))).state) }
    ensures out { OnOk result (out.new ≡ out.old
        ++ rule.sends state.old.settings (rule.answers state.old (table.takes_params state.old
        header.now params.now (params_after params.now state.old.params))).steps) }
    ensures err { OnErr result (AllOrNothing state.old (table.takes_params state.old header.now
        params.now (params_after params.now state.old.params)) state.new) }
    ensures octets { HasOctets state.new.params }
    ensures kept { BeginsWith out.new out.old }
{
    if take_params(state, params)? {
        return respond(alloc, state, header, SUCCESS, out);
    }
    respond(alloc, state, header, FAILURE, out)
}

// The body of an answer with parameters.
fn params_body(
    alloc: Global,
    edition: Edition,
    reply: u16,
    params: Seq<Param>,
) -> Result<Octets, Memory>
    requires few { length params ≤ OCTET_COUNT_LIMIT }
    requires octets { HaveOctets params }
    ensures { IfOk result (λ octets. octets ≡ body_octets edition (message.Params reply params)) }
{
    let answer = Message::Params { reply, params };
    write_body(alloc, edition, &answer)
}

// Tells these parameters.
fn tell(
    alloc: Global,
    state: &mut State,
    header: &Header,
    params: Seq<Param>,
    out: &mut Seq<Octets>,
) -> Result<(), Memory>
    requires good { AreSettings state.old.settings }
    requires few { length params ≤ OCTET_COUNT_LIMIT }
    requires octets { HaveOctets params }
    ensures state { OnOk result (state.new
        ≡ (rule.answers state.old (table.tells_params state.old header.now params)).state) }
    ensures out { OnOk result (out.new ≡ out.old ++ rule.sends state.old.settings
        (rule.answers state.old (table.tells_params state.old header.now params)).steps) }
    ensures err { OnErr result (state.new ≡ state.old) }
    ensures kept { BeginsWith out.new out.old }
{
    let body = params_body(alloc, state.settings.phone.edition, header.serial, params)?;
    say_answer(alloc, state, AnswerKind::Parameters, body.as_slice(), out)
}

// Tells all parameters.
pub(crate) fn tell_all(
    alloc: Global,
    state: &mut State,
    header: &Header,
    out: &mut Seq<Octets>,
) -> Result<(), Memory>
    requires good { AreSettings state.old.settings }
    requires held { HasOctets state.old.params }
    ensures state { OnOk result (state.new ≡ (rule.answers state.old
        (table.tells_params state.old header.now (listed state.old.params))).state) }
    ensures out { OnOk result
        (out.new ≡ out.old ++ rule.sends state.old.settings (rule.answers state.old
        (table.tells_params state.old header.now (listed state.old.params))).steps) }
    ensures err { OnErr result (state.new ≡ state.old) }
    ensures kept { BeginsWith out.new out.old }
{
    let params = state.params.list(alloc)?;
    tell(alloc, state, header, params, out)
}

// Tells the parameters of these ids.
pub(crate) fn tell_some(
    alloc: Global,
    state: &mut State,
    header: &Header,
    ids: &Seq<u32>,
    out: &mut Seq<Octets>,
) -> Result<(), Memory>
    requires good { AreSettings state.old.settings }
    requires few { length ids.now ≤ OCTET_COUNT_LIMIT }
    requires held { HasOctets state.old.params }
    ensures state { OnOk result (state.new ≡ (rule.answers state.old
        (table.tells_params state.old header.now (selected state.old.params ids.now))).state) }
    ensures out { OnOk result
        (out.new ≡ out.old ++ rule.sends state.old.settings (rule.answers state.old
        (table.tells_params state.old header.now (selected state.old.params ids.now))).steps) }
    ensures err { OnErr result (state.new ≡ state.old) }
    ensures kept { BeginsWith out.new out.old }
{
    let params = state.params.select(alloc, ids)?;
    tell(alloc, state, header, params, out)
}

// A parameter of a time.
#[tactic(auto, unfolding(jt_params::specs::Params::param, jt_params::specs::Params::ParamFits, jt_params::specs::Params::ValueFits, jt_params::specs::Params::kind))]
fn time_param(id: u32, number: u32) -> Param
    requires { (1 ≤ id) × (id ≤ 3) }
    ensures param { result ≡ rule.time_param id number }
    ensures fits { layouts.param.Fits result }
{
    Param {
        id,
        value: ParamValue::Dword(number),
    }
}

/// The parameters that a terminal begins with: the times of its settings.
pub fn first_params(alloc: Global, settings: &Settings) -> Result<ParamTable, Memory>
    ensures table { IfOk result (λ params.
        params ≡ set_params (rule.first_params settings.now) empty) }
    ensures octets { IfOk result HasOctets }
{
    let Settings {
        heartbeat,
        answer,
        repeats,
        ..
    } = settings;
    let mut first = Seq::new(alloc);
    first.push(time_param(HEARTBEAT_SECONDS, *heartbeat))?;
    first.push(time_param(ANSWER_SECONDS, *answer))?;
    first.push(time_param(REPEATS, *repeats))?;
    let mut params = ParamTable::new(alloc);
    match params.set_all(&first) {
        Ok(()) => Ok(params),
        Err(_) => Err(Memory),
    }
}
