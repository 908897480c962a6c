//! The words of `report`.

ghost use Rattle.std.specs.Prelude.{◌≡◌, map, string_bytes, Some, IfOk, IfSome, MatchOption};
ghost use Rattle.jt_report_command.specs.ReportWords.{AreCommand, AreWords, AreWritten, TellsWords, ReportValues, Written as WrittenAs};
ghost use Rattle.jt_report_command.specs.Telling.{values_in_words, written_of, TellsPlain};
ghost use Rattle.jt_report_command.specs.Values.{terminal_most as most_of_terminal};
ghost use Rattle.jt_report_command.specs.declared.report_words.Plain.{Plain as PlainValues};

use crate::options::{EDITION, HOST, PHONE, PLATE, PORT, TERMINAL, TRIES, one_value_of, value_of};
use crate::readers::{edition, host, number_up_to, octets};
use jt_value::limits::{PLATE_LIMIT, PORT_LIMIT};
use jt_value::{Edition, Memory, Octets, Phone};
use jt_words::phone_in;
use std::alloc::Global;

/// What `report` is told (this project's own words).
#[derive(Drop)]
pub struct ReportWords {
    /// The host to dial: 1 to 255 ASCII letters, digits, `.`, `-` and `:`, of which `-` is not the first.
    pub host: String,
    /// The port to dial, from 1 to 65,535.
    pub port: u16,
    /// The terminal's phone, and its edition.
    pub phone: Phone,
    /// The plate of the vehicle, of 1 to 255 octets.
    pub plate: Octets,
    /// The terminal's id, of 1 to 7 octets in 2013 and of 1 to 30 in 2019.
    pub terminal: Octets,
    /// How many connections are tried, from 1 to 100.
    pub tries: u32,
}

const TRIES_MOST: u32 = 100;

// The values of the options, as they are written.
#[derive(Clone, Copy)]
struct Written<'w> {
    host: &'w [u8],
    port: &'w [u8],
    phone: &'w [u8],
    plate: &'w [u8],
    terminal: &'w [u8],
    tries: &'w [u8],
    edition: Option<&'w [u8]>,
}

impl<'w> Written<'w> {
    fn from_options(options: &'w [String]) -> Option<Written<'w>>
        ensures some { IfSome result (λ written.
            AreWritten (written_of written) (map string_bytes options.now)) }
        ensures each { (written : WrittenAs) → AreWritten written (map string_bytes options.now) →
            MatchOption result ⊥ (λ found. written_of found ≡ written) }
    {
        Some(Written {
            host: one_value_of(options, HOST)?,
            port: one_value_of(options, PORT)?,
            phone: one_value_of(options, PHONE)?,
            plate: one_value_of(options, PLATE)?,
            terminal: one_value_of(options, TERMINAL)?,
            tries: one_value_of(options, TRIES)?,
            edition: value_of(options, EDITION)?,
        })
    }
}

// The values behind the word `report`.
fn values_in(words: &[String]) -> Option<Written<'_>>
    ensures some { IfSome result (λ written.
        AreCommand (written_of written) (map string_bytes words.now)) }
    ensures each { (written : WrittenAs) → AreCommand written (map string_bytes words.now) →
        MatchOption result ⊥ (λ found. written_of found ≡ written) }
{
    let (command, options) = words.split_first()?;
    if command.as_str() != "report" {
        return None;
    }
    Written::from_options(options)
}

// The values that take no memory.
#[derive(Clone, Copy)]
struct Plain {
    port: u16,
    phone: Phone,
    tries: u32,
}

// The most octets of a terminal's id.
fn terminal_most(edition: Edition) -> usize
    ensures { result ≡ most_of_terminal edition }
{
    match edition {
        Edition::E2013 => 7,
        Edition::E2019 => 30,
    }
}

fn plain_values(written: &Written) -> Option<Plain>
    ensures some { IfSome result (λ plain. TellsPlain (written_of written.now) plain) }
    ensures each { (plain : PlainValues) → TellsPlain (written_of written.now) plain →
        result ≡ Some plain }
{
    let port = number_up_to(written.port, PORT_LIMIT)?;
    let tries = number_up_to(written.tries, TRIES_MOST)?;
    let phone = phone_in(edition(written.edition)?, written.phone)?;
    Some(Plain {
        port: u16::try_from(port).ok()?,
        phone,
        tries,
    })
}

// What the values tell.
fn tell(alloc: Global, written: &Written) -> Result<Option<ReportWords>, Memory>
    ensures told { IfOk result (λ found.
        IfSome found (λ told. TellsWords (written_of written.now) (values_in_words told))) }
    ensures that_one { (told : ReportValues) → TellsWords (written_of written.now) told →
        IfOk result (λ found. MatchOption found ⊥ (λ found. values_in_words found ≡ told)) }
{
    let Some(Plain { port, phone, tries }) = plain_values(written) else {
        return Ok(None);
    };
    let Some(host) = host(alloc, written.host)? else {
        return Ok(None);
    };
    let Some(plate) = octets(alloc, written.plate, PLATE_LIMIT)? else {
        return Ok(None);
    };
    let Some(terminal) = octets(alloc, written.terminal, terminal_most(phone.edition))? else {
        return Ok(None);
    };
    Ok(Some(ReportWords {
        host,
        port,
        phone,
        plate,
        terminal,
        tries,
    }))
}

impl ReportWords {
    /// Reads the words after the program's name. None means that they are no words of `report`.
    pub fn from_words(alloc: Global, words: &[String]) -> Result<Option<ReportWords>, Memory>
        ensures told { IfOk result (λ found.
            IfSome found (λ told. AreWords (values_in_words told) (map string_bytes words.now))) }
        ensures that_one { (told : ReportValues) → AreWords told (map string_bytes words.now) →
            IfOk result (λ found. MatchOption found ⊥ (λ found. values_in_words found ≡ told)) }
    {
        match values_in(words) {
            Some(written) => tell(alloc, &written),
            None => Ok(None),
        }
    }
}
