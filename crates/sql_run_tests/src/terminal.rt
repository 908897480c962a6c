//! A terminal's life over any vault, moment by moment, and what the vault holds then.

ghost use Rattle.std.specs.Prelude.{◌≡◌, IfSome};

use crate::frames::{frames, letters_in};
use crate::platform::push_octets;
use jt_position::Fix;
use jt_store::{Loaded, StoreError, Unit, Vault};
use jt_terminal::{Actions, Event, Terminal, TerminalError, TerminalLine};
use jt_value::{Edition, Memory, Octets};
use std::alloc::{AllocError, Global};
use std::fmt::Write;
use terminal_tests::{settings, words_of};

/// The edition of a terminal, its moments from its start on, and what its vault holds then. A moment is four words. First what
/// happens: a connection begins (O) or is lost (L), a fix at a latitude is recorded (F), the clock is looked at, which stands (T),
/// or frames come from the platform (D). Then the latitude, the letters of the frames that come, and those of the frames that the
/// terminal writes; `-` is none.
pub type Life = (Edition, &'static str, &'static str);

/// The most octets that come at once.
const MOST: usize = 100_000;

// A terminal over what a vault has.
fn started<V: Vault + Drop>(alloc: Global, edition: Edition, vault: V) -> Option<Terminal<V>>
    ensures { IfSome result (λ terminal. terminal.state.time ≡ 0) }
{
    let settings = settings(alloc, edition)?;
    match Terminal::start(alloc, vault, settings) {
        Ok(terminal) => Some(terminal),
        Err(_) => None,
    }
}

// The frames that are to be sent, or a word for an error.
fn sent(alloc: Global, answer: &Result<Actions, TerminalError>) -> Result<Vec<u8>, Memory> {
    let mut said = Vec::new(alloc);
    match answer {
        Ok(actions) => {
            for frame in actions.frames.as_slice() {
                said.extend_from_slice(frame.as_slice())?;
            }
        }
        Err(_) => said.extend_from_slice(b"error")?,
    }
    Ok(said)
}

fn note<V: Vault>(alloc: Global, terminal: &mut Terminal<V>, lat: u32) -> Result<Vec<u8>, Memory>
    ensures { terminal.new.state.time ≡ terminal.old.state.time }
{
    let fix = Fix::at(alloc, lat)?;
    let noted = terminal.note_fix(alloc, &fix);
    let word = if noted.is_ok() {
        b"".as_slice()
    } else {
        b"error".as_slice()
    };
    Ok(Vec::from_slice(alloc, word)?)
}

fn open<V: Vault>(alloc: Global, terminal: &mut Terminal<V>) -> Result<Vec<u8>, Memory>
    ensures { terminal.new.state.time ≡ terminal.old.state.time }
{
    let answer = terminal.event(alloc, Event::Opened);
    sent(alloc, &answer)
}

fn lose<V: Vault>(alloc: Global, terminal: &mut Terminal<V>) -> Result<Vec<u8>, Memory>
    ensures { terminal.new.state.time ≡ terminal.old.state.time }
{
    let answer = terminal.event(alloc, Event::Lost);
    sent(alloc, &answer)
}

fn tick<V: Vault>(alloc: Global, terminal: &mut Terminal<V>) -> Result<Vec<u8>, Memory>
    requires { terminal.old.state.time ≡ 0 }
    ensures { terminal.new.state.time ≡ 0 }
{
    let answer = terminal.event(alloc, Event::Tick(0));
    sent(alloc, &answer)
}

// The terminal hears whole frames of the platform.
fn hear<V: Vault>(
    alloc: Global,
    terminal: &mut Terminal<V>,
    letters: &[u8],
) -> Result<Vec<u8>, Memory>
    ensures { terminal.new.state.time ≡ terminal.old.state.time }
{
    let given = frames(alloc, letters)?;
    if given.len() > MOST {
        return Ok(given);
    }
    let mut line = TerminalLine::new(alloc);
    let answer = line.feed(alloc, terminal, given.as_slice());
    sent(alloc, &answer)
}

fn happens<V: Vault>(
    alloc: Global,
    terminal: &mut Terminal<V>,
    what: &str,
    lat: &str,
    given: &[u8],
) -> Result<Vec<u8>, Memory>
    requires { terminal.old.state.time ≡ 0 }
    ensures { terminal.new.state.time ≡ 0 }
{
    match what {
        "O" => open(alloc, terminal),
        "L" => lose(alloc, terminal),
        "F" => match lat.parse() {
            Ok(lat) => note(alloc, terminal, lat),
            Err(_) => Ok(Vec::from_slice(alloc, b"no latitude")?),
        },
        "T" => tick(alloc, terminal),
        _ => hear(alloc, terminal, given),
    }
}

// Whether the terminal writes at a moment what stands there.
fn goes<V: Vault>(
    alloc: Global,
    terminal: &mut Terminal<V>,
    moment: &[&str],
) -> Result<bool, Memory>
    requires { terminal.old.state.time ≡ 0 }
    ensures { terminal.new.state.time ≡ 0 }
{
    let [what, lat, given, wanted] = moment else {
        return Ok(false);
    };
    let said = happens(alloc, terminal, what, lat, letters_in(given))?;
    let wanted = frames(alloc, letters_in(wanted))?;
    Ok(said.as_slice() == wanted.as_slice())
}

// Whether all moments go so.
fn go<V: Vault>(alloc: Global, terminal: &mut Terminal<V>, moments: &str) -> Result<bool, Memory>
    requires { terminal.old.state.time ≡ 0 }
    ensures { terminal.new.state.time ≡ 0 }
{
    let words = words_of(alloc, moments)?;
    for moment in words.as_slice().chunks(4) {
        if !goes(alloc, terminal, moment)? {
            return Ok(false);
        }
    }
    Ok(true)
}

/// The vault that a terminal of this edition has once it has lived through these moments; None where it writes something else at
/// one of them.
pub fn live<V: Vault + Drop>(
    alloc: Global,
    edition: Edition,
    vault: V,
    moments: &str,
) -> Option<V> {
    let mut terminal = started(alloc, edition, vault)?;
    let is_so = go(alloc, &mut terminal, moments) == Ok(true);
    left(terminal, is_so)
}

// What is left of a terminal that lived so: its vault.
fn left<V: Vault + Drop>(terminal: Terminal<V>, is_so: bool) -> Option<V> {
    let vault = terminal.into_vault();
    if is_so { Some(vault) } else { None }
}

fn push_counts(text: &mut String, loaded: &Loaded) -> Result<(), AllocError> {
    let Loaded {
        mark,
        next,
        recorded,
        accepted,
        ..
    } = loaded;
    write!(
        text,
        "recorded={recorded} accepted={accepted} mark={mark} next={next}"
    )
}

fn push_code(text: &mut String, code: &Option<Octets>) -> Result<(), AllocError> {
    match code {
        Some(octets) => {
            text.push_str(" code=")?;
            push_octets(text, octets.as_slice())?;
            text.push_str("\n")
        }
        None => text.push_str("\n"),
    }
}

fn push_unit(text: &mut String, unit: &Unit) -> Result<(), AllocError> {
    let Unit {
        serial,
        id,
        body,
        count,
    } = unit;
    write!(text, "unit {serial} {id:04x} {count} ")?;
    push_octets(text, body.as_slice())?;
    text.push_str("\n")
}

fn push_fix(text: &mut String, fix: &Fix) -> Result<(), AllocError> {
    text.push_str("fix ")?;
    push_octets(text, fix.as_slice())?;
    text.push_str("\n")
}

fn push_units(text: &mut String, units: &[Unit]) -> Result<(), AllocError> {
    for unit in units {
        push_unit(text, unit)?;
    }
    Ok(())
}

fn push_fixes(text: &mut String, fixes: &[Fix]) -> Result<(), AllocError> {
    for fix in fixes {
        push_fix(text, fix)?;
    }
    Ok(())
}

fn push_held(text: &mut String, loaded: &Loaded) -> Result<(), AllocError> {
    push_counts(text, loaded)?;
    push_code(text, &loaded.code)?;
    push_units(text, loaded.units.as_slice())?;
    push_fixes(text, loaded.fixes.as_slice())
}

fn held<V: Vault>(alloc: Global, vault: &mut V) -> Result<String, StoreError> {
    let loaded = vault.load(alloc)?;
    let mut text = String::new(alloc);
    push_held(&mut text, &loaded)?;
    Ok(text)
}

/// Whether a vault holds this: counts and serials, the code, and the units and fixes that are not accepted.
pub fn holds<V: Vault>(alloc: Global, vault: &mut V, text: &str) -> bool {
    match held(alloc, vault) {
        Ok(held) => held.as_str() == text,
        Err(_) => false,
    }
}
