//! The lines of a script.

ghost use Rattle.std.specs.Prelude.{◌≡◌, ◌∷◌, IfOk};
ghost use Rattle.std.specs.Option.{option_map};
ghost use Rattle.jt_input.specs.Spelling.{is_passed as is_passed_over};
ghost use Rattle.jt_script.specs.EventLines.{amount_in, edition_in, event_of, event_of_one, event_of_three, event_of_two, event_of_valued, fix_in, number_in, restart_of, says, up_of, words};
ghost use Rattle.jt_script.specs.declared.world_event.WorldEvent.TheVariants as event;

use crate::cutting::{first_word, fix_of, number_up_to};
use crate::world_event::WorldEvent;
use jt_value::{Edition, Memory};
use std::alloc::Global;

/// What a line of a script says.
#[derive(Drop)]
pub enum EventLine {
    /// Nothing: it is empty, or a comment.
    Passed,
    Event(WorldEvent),
    /// It is outside all forms.
    Bad,
}

// The greatest latitude of a recorded fix, in millionths of a degree.
const LATITUDE_MOST: u32 = 89_999_999;

// The greatest number of octets that a line names.
const COUNT_MOST: u32 = 1_000_000_000;

// The most beats of one line.
const BEATS_MOST: u32 = 100_000;

// ---- values

// A number of octets, or all.
#[tactic(auto, unfolding(crate::specs::EventLines::amount_in))]
fn amount(word: &[u8]) -> Option<Option<u32>>
    ensures { result ≡ amount_in word.now }
{
    if word == b"all".as_slice() {
        return Some(None);
    }
    match number_up_to(COUNT_MOST, word) {
        Some(count) => Some(Some(count)),
        None => None,
    }
}

#[tactic(auto, unfolding(crate::specs::EventLines::edition_in))]
fn edition(word: &[u8]) -> Option<Edition>
    ensures { result ≡ edition_in word.now }
{
    if word == b"2013".as_slice() {
        return Some(Edition::E2013);
    }
    if word == b"2019".as_slice() {
        return Some(Edition::E2019);
    }
    None
}

// ---- a word and its value

fn fix(value: &[u8]) -> Option<WorldEvent>
    ensures { result ≡ option_map event.Fix (number_in 89999999 value.now) }
{
    match number_up_to(LATITUDE_MOST, value) {
        Some(latitude) => Some(WorldEvent::Fix(latitude)),
        None => None,
    }
}

fn down(value: &[u8]) -> Option<WorldEvent>
    ensures { result ≡ option_map event.Down (amount_in value.now) }
{
    match amount(value) {
        Some(count) => Some(WorldEvent::Down(count)),
        None => None,
    }
}

fn tick(value: &[u8]) -> Option<WorldEvent>
    ensures { result ≡ option_map event.Tick (number_in 4294967295 value.now) }
{
    match number_up_to(u32::MAX, value) {
        Some(milliseconds) => Some(WorldEvent::Tick(milliseconds)),
        None => None,
    }
}

fn beat(value: &[u8]) -> Option<WorldEvent>
    ensures { result ≡ option_map event.Beat (number_in 100000 value.now) }
{
    match number_up_to(BEATS_MOST, value) {
        Some(times) => Some(WorldEvent::Beat(times)),
        None => None,
    }
}

fn cut(value: &[u8]) -> Option<WorldEvent>
    ensures { result ≡ option_map event.Cut (number_in 4294967295 value.now) }
{
    match number_up_to(u32::MAX, value) {
        Some(line) => Some(WorldEvent::Cut(line)),
        None => None,
    }
}

#[tactic(auto, unfolding(crate::specs::EventLines::restart_of))]
fn restart(value: &[u8]) -> Option<WorldEvent>
    ensures { result ≡ restart_of value.now }
{
    if value == b"terminal".as_slice() {
        return Some(WorldEvent::RestartTerminal);
    }
    if value == b"platform".as_slice() {
        return Some(WorldEvent::RestartPlatform);
    }
    None
}

fn raw(alloc: Global, value: &[u8]) -> Result<Option<WorldEvent>, Memory>
    ensures { IfOk result (λ said. said ≡ option_map event.Raw (fix_in value.now)) }
{
    match fix_of(alloc, value) {
        Ok(Some(fix)) => Ok(Some(WorldEvent::Raw(fix))),
        Ok(None) => Ok(None),
        Err(Memory) => Err(Memory),
    }
}

#[tactic(auto, unfolding(crate::specs::EventLines::up_of))]
fn up(line: &[u8], count: &[u8]) -> Option<WorldEvent>
    ensures { result ≡ up_of line.now count.now }
{
    match (number_up_to(u32::MAX, line), amount(count)) {
        (Some(line), Some(count)) => Some(WorldEvent::Up { line, count }),
        _ => None,
    }
}

fn restart_as(value: &[u8]) -> Option<WorldEvent>
    ensures { result ≡ option_map event.RestartAs (edition_in value.now) }
{
    match edition(value) {
        Some(edition) => Some(WorldEvent::RestartAs(edition)),
        None => None,
    }
}

// ---- lines by their words

#[tactic(auto, unfolding(crate::specs::EventLines::event_of_one))]
fn one_word(word: &[u8]) -> Option<WorldEvent>
    ensures { result ≡ event_of_one word.now }
{
    if word == b"open".as_slice() {
        return Some(WorldEvent::Open);
    }
    if word == b"run".as_slice() {
        return Some(WorldEvent::Run);
    }
    if word == b"lost".as_slice() {
        return Some(WorldEvent::Lost);
    }
    None
}

#[tactic(auto, unfolding(crate::specs::EventLines::event_of_valued))]
fn valued(word: &[u8], value: &[u8]) -> Option<WorldEvent>
    ensures { result ≡ event_of_valued word.now value.now }
{
    if word == b"fix".as_slice() {
        return fix(value);
    }
    if word == b"down".as_slice() {
        return down(value);
    }
    if word == b"tick".as_slice() {
        return tick(value);
    }
    if word == b"beat".as_slice() {
        return beat(value);
    }
    if word == b"cut".as_slice() {
        return cut(value);
    }
    if word == b"restart".as_slice() {
        return restart(value);
    }
    None
}

#[tactic(auto, unfolding(crate::specs::EventLines::event_of_two))]
fn two_words(alloc: Global, word: &[u8], value: &[u8]) -> Result<Option<WorldEvent>, Memory>
    ensures { IfOk result (λ said. said ≡ event_of_two word.now value.now) }
{
    if word == b"raw".as_slice() {
        return raw(alloc, value);
    }
    Ok(valued(word, value))
}

#[tactic(auto, unfolding(crate::specs::EventLines::event_of_three))]
fn three_words(word: &[u8], second: &[u8], third: &[u8]) -> Option<WorldEvent>
    ensures { result ≡ event_of_three word.now second.now third.now }
{
    if word == b"up".as_slice() {
        return up(second, third);
    }
    if word == b"restart".as_slice() && second == b"terminal".as_slice() {
        return restart_as(third);
    }
    None
}

// The event of two words and of what stands behind them.
fn behind_two(word: &[u8], second: &[u8], rest: &[u8]) -> Option<WorldEvent>
    ensures { result ≡ event_of (word.now ∷ second.now ∷ words rest.now) }
{
    match first_word(rest) {
        (third, None) => three_words(word, second, third),
        (_, Some(_)) => None,
    }
}

// The event of a word and of what stands behind it.
fn behind_one(alloc: Global, word: &[u8], rest: &[u8]) -> Result<Option<WorldEvent>, Memory>
    ensures { IfOk result (λ said. said ≡ event_of (word.now ∷ words rest.now)) }
{
    match first_word(rest) {
        (value, None) => two_words(alloc, word, value),
        (second, Some(others)) => Ok(behind_two(word, second, others)),
    }
}

fn event(alloc: Global, line: &[u8]) -> Result<Option<WorldEvent>, Memory>
    ensures { IfOk result (λ said. said ≡ event_of (words line.now)) }
{
    match first_word(line) {
        (word, None) => Ok(one_word(word)),
        (word, Some(rest)) => behind_one(alloc, word, rest),
    }
}

fn is_passed(line: &[u8]) -> bool
    ensures { result ≡ is_passed_over line.now }
{
    match line.first() {
        None => true,
        Some(first) => *first == b'#',
    }
}

/// Reads a line of a script, without its line feed.
#[tactic(auto, unfolding(crate::specs::EventLines::says))]
pub fn event_line(alloc: Global, line: &[u8]) -> Result<EventLine, Memory>
    ensures { IfOk result (λ said. said ≡ says line.now) }
{
    if is_passed(line) {
        return Ok(EventLine::Passed);
    }
    match event(alloc, line) {
        Ok(Some(event)) => Ok(EventLine::Event(event)),
        Ok(None) => Ok(EventLine::Bad),
        Err(Memory) => Err(Memory),
    }
}
