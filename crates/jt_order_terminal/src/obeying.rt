//! What an order terminal does at an order.

ghost use Rattle.std.specs.Prelude.{◌≡◌, ◌≢◌, ◌≤◌, ◌++◌, ◌∷◌, [], true, length, Err, IfOk, OnErr, OnOk};
ghost use Rattle.jt_value.specs.declared.limits.TheConstants.{BODY_LIMIT};
ghost use Rattle.jt_header.specs.Content.{IsHeader};
ghost use Rattle.jt_codec.specs.Bodies.{Fits, HasBody, body_octets};
ghost use Rattle.jt_codec.specs.declared.message.Message.{Message as Read};
ghost use Rattle.jt_codec.specs.declared.message.Message.TheVariants as message;
ghost use Rattle.jt_terminal_rule.specs.declared.state.State.{State};
ghost use Rattle.jt_order.specs.Books.{with_performed};
ghost use Rattle.jt_order.specs.Orders.{is_order_id};
ghost use Rattle.jt_order_terminal.specs.declared.fault.OrderFault.{OrderFault};
ghost use Rattle.jt_order_terminal.specs.declared.fault.OrderFault.TheVariants as faults;
ghost use Rattle.jt_order_terminal.specs.Feeding.{HasResponded, KeepsLedger};
ghost use Rattle.jt_order_turns.specs.Headers.{answer_frame, answer_header};
ghost use Rattle.jt_order_turns.specs.Heard.{Ordered};
ghost use Rattle.jt_order_terminal.specs.Terminals.{CommitsFirst, HasFaultCause, does_at, performs};

use crate::fault::{OrderFault, log_fault};
use crate::ledger::Ledger;
use jt_codec::{Message, law_of_acks, law_of_bodies, write_body};
use jt_header::Header;
use jt_obeying::law_performing;
use jt_order::{Order, OrderError, OrderLog, Ruling};
use jt_terminal_rule::frame;
use jt_value::ids::TERMINAL_ACK;
use jt_value::results::FAILURE;
use jt_value::{Buffer, Memory, Octets};
use std::alloc::Global;

// The header of the response to an order that has this one.
fn answer_header(header: &Header) -> Header
    requires { IsHeader header.now }
    ensures header { result ≡ answer_header header.now }
    ensures good { IsHeader result }
{
    Header {
        edition: header.edition,
        id: TERMINAL_ACK,
        bit15: false,
        version: header.version,
        phone: header.phone,
        serial: header.serial,
        packet: None,
    }
}

// The body of the response to an order that has this header.
fn answer_body(alloc: Global, header: &Header, outcome: u8) -> Result<Octets, Memory>
    ensures { IfOk result (λ octets. octets ≡ body_octets header.now.edition
        (message.TerminalAck header.now.serial header.now.id outcome)) }
{
    law_of_acks();
    let Header { serial, id, .. } = header;
    let response = Message::TerminalAck {
        reply: *serial,
        id: *id,
        result: outcome,
    };
    write_body(alloc, header.edition, &response)
}

// The frame of the response to an order that has this header.
fn answer_frame(alloc: Global, header: &Header, outcome: u8) -> Result<Octets, Memory>
    requires { IsHeader header.now }
    ensures { IfOk result (λ frame. frame ≡ answer_frame header.now outcome) }
{
    law_of_acks();
    let body = answer_body(alloc, header, outcome)?;
    frame(alloc, &answer_header(header), body.as_slice())
}

// Responds to an order without performing it.
fn respond(
    alloc: Global,
    header: &Header,
    outcome: u8,
    frames: &mut Buffer<Octets>,
) -> Result<(), OrderFault>
    requires { IsHeader header.now }
    ensures ok { OnOk result
        (frames.new.items ≡ frames.old.items ++ answer_frame header.now outcome ∷ []) }
    ensures memory { (fault : OrderFault) → result ≡ Err fault → fault ≡ faults.Memory }
{
    let frame = answer_frame(alloc, header, outcome)?;
    frames.push(frame)?;
    Ok(())
}

// The order of a body that was read.
fn order_of(alloc: Global, header: &Header, body: &[u8]) -> Result<Order, Memory>
    requires order { is_order_id header.now.id ≡ true }
    requires fits { length body.now ≤ BODY_LIMIT }
    requires reads { (m : Read) × HasBody header.now.edition header.now.id m body.now }
    ensures { IfOk result (λ order. order ≡ record { id = header.now.id; body = body.now }) }
{
    law_of_bodies();
    match Order::read(alloc, header.edition, header.id, body) {
        Ok(order) => Ok(order),
        Err(OrderError::Memory) => Err(Memory),
        Err(OrderError::NotOrder(_)) => unreachable!(),
        Err(OrderError::Long(_)) => unreachable!(),
        Err(OrderError::Refused(_)) => unreachable!(),
    }
}

// Commits an order that is performed, with its result.
fn commit<G: OrderLog>(
    alloc: Global,
    log: &mut G,
    order: &Order,
    outcome: u8,
) -> Result<(), OrderFault>
    ensures ok { OnOk result (G.holds log.new
        ≡ with_performed (record { order = order.now; result = outcome }) (G.holds log.old)) }
    ensures err { OnErr result (G.holds log.new ≡ G.holds log.old) }
    ensures never_vault { result ≢ Err faults.Vault }
    ensures cause { HasFaultCause faults.Log (G.faults log.old) (G.faults log.new)
        (G.may_fail log.old) (G.may_fail log.new) result }
{
    match log.perform(alloc, order, outcome) {
        Ok(()) => Ok(()),
        Err(error) => Err(log_fault(error)),
    }
}

// Performs an order, commits it, and responds. All memory is taken before the commit, so that nothing fails behind it.
fn perform_order<G: OrderLog>(
    alloc: Global,
    log: &mut G,
    ledger: &mut Ledger,
    header: &Header,
    body: &[u8],
    message: &Message,
    frames: &mut Buffer<Octets>,
) -> Result<(), OrderFault>
    requires header { IsHeader header.now }
    requires order { is_order_id header.now.id ≡ true }
    requires short { length body.now ≤ BODY_LIMIT }
    requires body { HasBody header.now.edition header.now.id message.now body.now }
    requires fits { Fits header.now.edition message.now }
    ensures ok { (s : State) → OnOk result (HasResponded
        (performs s ledger.old header.now body.now message.now) ledger.new
        (G.holds log.old) (G.holds log.new) frames.old.items frames.new.items) }
    ensures err { (s : State) → OnErr result (CommitsFirst
        (performs s ledger.old header.now body.now message.now).performed
        (G.holds log.old) (G.holds log.new)) }
    ensures keeps { KeepsLedger ledger.old ledger.new (G.holds log.old) (G.holds log.new) }
    ensures never_vault { result ≢ Err faults.Vault }
    ensures cause { HasFaultCause faults.Log (G.faults log.old) (G.faults log.new)
        (G.may_fail log.old) (G.may_fail log.new) result }
{
    law_of_bodies();
    law_performing();
    let order = order_of(alloc, header, body)?;
    let (outcome, tables) = ledger.outcome(alloc, message)?;
    let frame = answer_frame(alloc, header, outcome)?;
    frames.reserve(1)?;
    commit(alloc, log, &order, outcome)?;
    ledger.note(order, outcome, tables);
    frames.push(frame)?;
    Ok(())
}

/// Responds to an order by the three rules.
pub(crate) fn obey<G: OrderLog>(
    alloc: Global,
    log: &mut G,
    ledger: &mut Ledger,
    header: &Header,
    body: &[u8],
    message: &Message,
    frames: &mut Buffer<Octets>,
) -> Result<(), OrderFault>
    requires header { IsHeader header.now }
    requires order { is_order_id header.now.id ≡ true }
    requires short { length body.now ≤ BODY_LIMIT }
    requires body { HasBody header.now.edition header.now.id message.now body.now }
    requires fits { Fits header.now.edition message.now }
    ensures ok { (s : State) → OnOk result (HasResponded (does_at s ledger.old
        (Ordered header.now body.now message.now)) ledger.new
        (G.holds log.old) (G.holds log.new) frames.old.items frames.new.items) }
    ensures err { (s : State) → OnErr result (CommitsFirst (does_at s ledger.old
        (Ordered header.now body.now message.now)).performed
        (G.holds log.old) (G.holds log.new)) }
    ensures keeps { KeepsLedger ledger.old ledger.new (G.holds log.old) (G.holds log.new) }
    ensures never_vault { result ≢ Err faults.Vault }
    ensures cause { HasFaultCause faults.Log (G.faults log.old) (G.faults log.new)
        (G.may_fail log.old) (G.may_fail log.new) result }
{
    match ledger.ruling(header.serial, header.id, body) {
        Ruling::Again(outcome) => respond(alloc, header, outcome, frames),
        Ruling::Performs => perform_order(alloc, log, ledger, header, body, message, frames),
        Ruling::Refuses => respond(alloc, header, FAILURE, frames),
    }
}
