//! The lines of a script of orders.

ghost use Rattle.std.specs.Prelude.{◌≡◌, ◌∷◌, IfOk};
ghost use Rattle.jt_script.specs.EventLines.{words};
ghost use Rattle.jt_order_command.specs.Lines.{body_in as body_written, event_of as event_said, id_if, id_in as id_written, issue_of, issue_said, order_said, order_says};

use jt_codec::law_of_bodies;
use jt_order::{Order, OrderError};
use jt_order_play::OrderEvent;
use jt_script::{EventLine, WorldEvent, event_line, first_word, octets_of};
use jt_value::{Edition, Memory, Octets};
use std::alloc::Global;

/// What a line of a script of orders says.
#[derive(Drop)]
pub enum OrderLine {
    /// Nothing: it is empty, or a comment.
    Passed,
    /// It asks this of the world.
    Event(OrderEvent),
    /// It is outside all forms, or its order is refused.
    Bad,
}

// What an event of a rehearsal says. A terminal of orders records nothing, beats at no line of its own, and stays in its edition.
fn event_of(event: WorldEvent) -> OrderLine
    ensures { result ≡ event_said event }
{
    match event {
        WorldEvent::Fix(_) => OrderLine::Bad,
        WorldEvent::Raw(_) => OrderLine::Bad,
        WorldEvent::Open => OrderLine::Event(OrderEvent::Open),
        WorldEvent::Up { line, count } => OrderLine::Event(OrderEvent::Up { line, count }),
        WorldEvent::Down(count) => OrderLine::Event(OrderEvent::Down(count)),
        WorldEvent::Tick(by) => OrderLine::Event(OrderEvent::Tick(by)),
        WorldEvent::Beat(_) => OrderLine::Bad,
        WorldEvent::Run => OrderLine::Event(OrderEvent::Run),
        WorldEvent::Cut(line) => OrderLine::Event(OrderEvent::Cut(line)),
        WorldEvent::Lost => OrderLine::Event(OrderEvent::Lost),
        WorldEvent::RestartTerminal => OrderLine::Event(OrderEvent::RestartTerminal),
        WorldEvent::RestartPlatform => OrderLine::Event(OrderEvent::RestartPlatform),
        WorldEvent::RestartAs(_) => OrderLine::Bad,
    }
}

// The id that two octets are.
fn id_of(octets: &[u8]) -> Option<u16>
    ensures { result ≡ id_if octets.now }
{
    if octets.len() == 2 {
        return Some(u16::from_be_bytes([octets[0], octets[1]]));
    }
    None
}

// The id that four hexadecimal digits of either case write.
#[tactic(auto, unfolding(crate::specs::Lines::id_in))]
fn id_in(alloc: Global, word: &[u8]) -> Result<Option<u16>, Memory>
    ensures { IfOk result (λ id. id ≡ id_written word.now) }
{
    match octets_of(alloc, word) {
        Ok(Some(octets)) => Ok(id_of(octets.as_slice())),
        Ok(None) => Ok(None),
        Err(Memory) => Err(Memory),
    }
}

// The body that a word writes: pairs of hexadecimal digits of either case, and `-` for no octets.
#[tactic(auto, unfolding(crate::specs::Lines::body_in))]
fn body_in(alloc: Global, word: &[u8]) -> Result<Option<Octets>, Memory>
    ensures { IfOk result (λ body. body ≡ body_written word.now) }
{
    if word == b"-".as_slice() {
        return Ok(Some(Octets::new(alloc)));
    }
    if word.is_empty() {
        return Ok(None);
    }
    octets_of(alloc, word)
}

// What an id and a body say; the body is read as one of 2013.
fn order_of(alloc: Global, id: u16, body: &[u8]) -> Result<OrderLine, Memory>
    ensures { IfOk result (λ said. said ≡ order_said id body.now) }
{
    law_of_bodies();
    match Order::read(alloc, Edition::E2013, id, body) {
        Ok(order) => Ok(OrderLine::Event(OrderEvent::Issue(order))),
        Err(OrderError::NotOrder(_)) => Ok(OrderLine::Bad),
        Err(OrderError::Long(_)) => Ok(OrderLine::Bad),
        Err(OrderError::Refused(_)) => Ok(OrderLine::Bad),
        Err(OrderError::Memory) => Err(Memory),
    }
}

// What the words of an id and a body say.
fn issue_words(alloc: Global, id: &[u8], body: &[u8]) -> Result<OrderLine, Memory>
    ensures { IfOk result (λ said. said ≡ issue_said (id_written id.now) (body_written body.now)) }
{
    match (id_in(alloc, id)?, body_in(alloc, body)?) {
        (Some(id), Some(body)) => order_of(alloc, id, body.as_slice()),
        (Some(_), None) => Ok(OrderLine::Bad),
        (None, _) => Ok(OrderLine::Bad),
    }
}

// What the words behind an id say.
fn behind_id(alloc: Global, id: &[u8], rest: &[u8]) -> Result<OrderLine, Memory>
    ensures { IfOk result (λ said. said ≡ issue_of (id.now ∷ words rest.now)) }
{
    match first_word(rest) {
        (body, None) => issue_words(alloc, id, body),
        (_, Some(_)) => Ok(OrderLine::Bad),
    }
}

// What stands behind `issue `.
fn issue(alloc: Global, rest: &[u8]) -> Result<OrderLine, Memory>
    ensures { IfOk result (λ said. said ≡ issue_of (words rest.now)) }
{
    match first_word(rest) {
        (_, None) => Ok(OrderLine::Bad),
        (id, Some(others)) => behind_id(alloc, id, others),
    }
}

/// Reads a line of a script of orders, without its line feed: `issue ID X`, or a line of a rehearsal but `fix`, `raw`, `beat` and
/// `restart terminal E`. The forms are this project's own. Memory comes where memory ran out.
#[tactic(auto, unfolding(crate::specs::Lines::order_says))]
pub fn order_line(alloc: Global, line: &[u8]) -> Result<OrderLine, Memory>
    ensures { IfOk result (λ said. said ≡ order_says line.now) }
{
    if let Some(rest) = line.strip_prefix(b"issue ".as_slice()) {
        return issue(alloc, rest);
    }
    match event_line(alloc, line) {
        Ok(EventLine::Passed) => Ok(OrderLine::Passed),
        Ok(EventLine::Event(event)) => Ok(event_of(event)),
        Ok(EventLine::Bad) => Ok(OrderLine::Bad),
        Err(Memory) => Err(Memory),
    }
}
