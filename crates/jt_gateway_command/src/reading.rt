//! The lines of a gateway's script.

ghost use Rattle.std.specs.Prelude.{◌≡◌, IfOk};
ghost use Rattle.jt_input.specs.Spelling.{is_passed as is_passed_over};
ghost use Rattle.jt_gateway.specs.Gateway.{is_line_of_b as is_line_of_b_of};
ghost use Rattle.jt_gateway_command.specs.Lines.{MaySay, gateway_says, is_line_of_a as is_line_of_a_of, says_in_a, says_in_b};

use jt_gateway::GatewayEvent;
use jt_script::{EventLine, WorldEvent, event_line};
use jt_value::Memory;
use std::alloc::Global;

/// What a line of a gateway's script says.
#[derive(Drop)]
pub enum GatewayLine {
    /// Nothing: it is empty, or a comment.
    Passed,
    /// A line of one of the two worlds, a pump, or a restart of the middle.
    Event(GatewayEvent),
    /// It is outside all forms.
    Bad,
}

// The terminal that reports to the operator stays one of 2013.
fn is_line_of_a(event: &WorldEvent) -> bool
    ensures { result ≡ is_line_of_a_of event.now }
{
    !matches!(event, WorldEvent::RestartAs(_))
}

// In world b nothing is recorded but by a pump, and its terminal stays one of 2019.
fn is_line_of_b(event: &WorldEvent) -> bool
    ensures { result ≡ is_line_of_b_of event.now }
{
    !matches!(
        event,
        WorldEvent::Fix(_) | WorldEvent::Raw(_) | WorldEvent::RestartAs(_)
    )
}

// What a line says behind its `a `.
fn line_in_a(alloc: Global, line: &[u8]) -> Result<GatewayLine, Memory>
    ensures says { IfOk result (λ said. said ≡ says_in_a line.now) }
    ensures may { IfOk result MaySay }
{
    match event_line(alloc, line)? {
        EventLine::Event(event) if is_line_of_a(&event) => {
            Ok(GatewayLine::Event(GatewayEvent::A(event)))
        }
        EventLine::Event(_) | EventLine::Passed | EventLine::Bad => Ok(GatewayLine::Bad),
    }
}

// What a line says behind its `b `.
fn line_in_b(alloc: Global, line: &[u8]) -> Result<GatewayLine, Memory>
    ensures says { IfOk result (λ said. said ≡ says_in_b line.now) }
    ensures may { IfOk result MaySay }
{
    match event_line(alloc, line)? {
        EventLine::Event(event) if is_line_of_b(&event) => {
            Ok(GatewayLine::Event(GatewayEvent::B(event)))
        }
        EventLine::Event(_) | EventLine::Passed | EventLine::Bad => Ok(GatewayLine::Bad),
    }
}

fn is_passed(line: &[u8]) -> bool
    ensures { result ≡ is_passed_over line.now }
{
    match line.first() {
        None => true,
        Some(first) => *first == b'#',
    }
}

/// Reads a line of a gateway's script, without its line feed: a line of a rehearsal behind `a ` or `b `, `pump`, `restart middle`, or
/// one that is passed over. No terminal starts anew in an edition, and nothing is recorded in world b by a line of its own. The forms
/// are this project's own. Memory comes where memory ran out.
#[tactic(auto, unfolding(crate::specs::Lines::gateway_says))]
pub fn gateway_line(alloc: Global, line: &[u8]) -> Result<GatewayLine, Memory>
    ensures says { IfOk result (λ said. said ≡ gateway_says line.now) }
    ensures may { IfOk result MaySay }
{
    if is_passed(line) {
        return Ok(GatewayLine::Passed);
    }
    if line == b"pump".as_slice() {
        return Ok(GatewayLine::Event(GatewayEvent::Pump));
    }
    if line == b"restart middle".as_slice() {
        return Ok(GatewayLine::Event(GatewayEvent::RestartMiddle));
    }
    if let Some(rest) = line.strip_prefix(b"a ".as_slice()) {
        return line_in_a(alloc, rest);
    }
    if let Some(rest) = line.strip_prefix(b"b ".as_slice()) {
        return line_in_b(alloc, rest);
    }
    Ok(GatewayLine::Bad)
}
