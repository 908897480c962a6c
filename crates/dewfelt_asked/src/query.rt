//! The words of a query.

use crate::problem::{Problem, Refused};
use crate::times::read_time;
use dewfelt_board::{Cursor, digits_of};
use form_urlencoded::parse;
use http::StatusCode;
use std::alloc::Global;

// A number in a query has so many digits at most.
const NUMBER_DIGITS: usize = 15;

// The highest number of a session that a query may name.
const SESSION_LIMIT: u64 = 999_999_999;

// The highest number of a row that a query may name: none is there from it on.
const ROW_NUMBER_LIMIT: u64 = 1 << 47;

/// A word that a query may have. A path that has no use for it refuses it.
#[derive(Clone, Copy, Debug, PartialEq, Eq)]
pub enum Word {
    Since,
    Limit,
    After,
    Ended,
    From,
    To,
    Form,
}

/// In which form a track is told.
#[derive(Clone, Copy, Debug, PartialEq, Eq)]
pub enum Form {
    GeoJson,
    Gpx,
    Csv,
}

impl Form {
    /// Its word in a query.
    pub fn word(self) -> &'static str {
        match self {
            Form::GeoJson => "geojson",
            Form::Gpx => "gpx",
            Form::Csv => "csv",
        }
    }

    fn named(word: &str) -> Option<Form> {
        match word {
            "geojson" => Some(Form::GeoJson),
            "gpx" => Some(Form::Gpx),
            "csv" => Some(Form::Csv),
            _ => None,
        }
    }
}

/// Where a fix stands: the number of its row, and its place in it.
#[derive(Clone, Copy, Debug, PartialEq, Eq)]
pub struct Place {
    pub number: u64,
    pub at: u16,
}

impl Place {
    // Reads `77.3`.
    fn read(text: &str) -> Option<Place> {
        let (number, at) = text.split_once('.')?;
        Some(Place {
            number: number_of(number)?,
            at: u16::try_from(number_of(at)?).ok()?,
        })
    }
}

impl Word {
    fn name(self) -> &'static str {
        match self {
            Word::Since => "since",
            Word::Limit => "limit",
            Word::After => "after",
            Word::Ended => "ended",
            Word::From => "from",
            Word::To => "to",
            Word::Form => "form",
        }
    }

    fn named(name: &str) -> Option<Word> {
        match name {
            "since" => Some(Word::Since),
            "limit" => Some(Word::Limit),
            "after" => Some(Word::After),
            "ended" => Some(Word::Ended),
            "from" => Some(Word::From),
            "to" => Some(Word::To),
            "form" => Some(Word::Form),
            _ => None,
        }
    }
}

/// The words of a query, each at most once.
#[derive(Drop)]
pub struct Query {
    since: Option<String>,
    limit: Option<String>,
    after: Option<String>,
    ended: Option<String>,
    from: Option<String>,
    to: Option<String>,
    form: Option<String>,
}

// Whether a text is a number without zeros at the front.
fn is_number(text: &str) -> bool {
    let octets = text.as_bytes();
    let are_digits = octets.iter().all(|octet| octet.is_ascii_digit());
    if octets.is_empty() || octets.len() > NUMBER_DIGITS || !are_digits {
        return false;
    }
    octets.len() == 1 || !octets.starts_with(b"0")
}

fn number_of(text: &str) -> Option<u64> {
    if is_number(text) {
        text.parse().ok()
    } else {
        None
    }
}

// Puts a value where none stands. False means that one does.
fn put(room: &mut Option<String>, value: String) -> bool {
    let is_first = room.is_none();
    *room = Some(value);
    is_first
}

fn repeated(alloc: Global, word: Word) -> Refused {
    let name = word.name();
    match format!(in alloc; "{name} stands twice in the query") {
        Ok(detail) => Problem::parameter(name, detail),
        Err(_) => Refused::Memory,
    }
}

fn out_of_range(alloc: Global, word: Word, low: u64, high: u64) -> Refused {
    let name = word.name();
    match format!(in alloc; "{name} is a number from {low} to {high}") {
        Ok(detail) => Problem::parameter(name, detail),
        Err(_) => Refused::Memory,
    }
}

fn wrong(alloc: Global, word: Word, detail: &str) -> Refused {
    match String::from_str(alloc, detail) {
        Ok(detail) => Problem::parameter(word.name(), detail),
        Err(_) => Refused::Memory,
    }
}

// The word of this name, where it is allowed.
fn allowed_word(name: &str, allowed: &[Word]) -> Option<Word> {
    let word = Word::named(name)?;
    if allowed.contains(&word) {
        Some(word)
    } else {
        None
    }
}

impl Query {
    // Takes a word. False means that it stands there already.
    fn take(&mut self, word: Word, value: String) -> bool {
        match word {
            Word::Since => put(&mut self.since, value),
            Word::Limit => put(&mut self.limit, value),
            Word::After => put(&mut self.after, value),
            Word::Ended => put(&mut self.ended, value),
            Word::From => put(&mut self.from, value),
            Word::To => put(&mut self.to, value),
            Word::Form => put(&mut self.form, value),
        }
    }

    fn value(&self, word: Word) -> Option<&str> {
        let room = match word {
            Word::Since => &self.since,
            Word::Limit => &self.limit,
            Word::After => &self.after,
            Word::Ended => &self.ended,
            Word::From => &self.from,
            Word::To => &self.to,
            Word::Form => &self.form,
        };
        match room {
            Some(value) => Some(value.as_str()),
            None => None,
        }
    }

    /// Reads a query of which these words may be there, each once.
    pub fn read(alloc: Global, query: Option<&str>, allowed: &[Word]) -> Result<Query, Refused> {
        let mut words = Query {
            since: None,
            limit: None,
            after: None,
            ended: None,
            from: None,
            to: None,
            form: None,
        };
        for pair in parse(alloc, query.unwrap_or("").as_bytes()) {
            let (name, value) = pair?;
            let Some(word) = allowed_word(name.as_str(), allowed) else {
                return Err(Problem::new(
                    alloc,
                    StatusCode::BAD_REQUEST,
                    "the query has a word that this path does not know",
                ));
            };
            if !words.take(word, value.into_owned(alloc)?) {
                return Err(repeated(alloc, word));
            }
        }
        Ok(words)
    }

    /// The limit, from 1 to the highest one; the usual one where it is missing.
    pub fn limit(&self, alloc: Global, usual: u32, high: u32) -> Result<usize, Refused> {
        let Some(text) = self.value(Word::Limit) else {
            return Ok(usual as usize);
        };
        match number_of(text) {
            Some(number) if 1 <= number && number <= high as u64 => Ok(number as usize),
            _ => Err(out_of_range(alloc, Word::Limit, 1, high as u64)),
        }
    }

    /// The number behind which an answer begins; 0 where it is missing.
    pub fn after_number(&self, alloc: Global) -> Result<u32, Refused> {
        let Some(text) = self.value(Word::After) else {
            return Ok(0);
        };
        match number_of(text) {
            Some(number) if number <= SESSION_LIMIT => Ok(number as u32),
            _ => Err(out_of_range(alloc, Word::After, 0, SESSION_LIMIT)),
        }
    }

    /// The phone behind which an answer begins, where it is there.
    pub fn after_phone(&self, alloc: Global) -> Result<Option<[u8; 10]>, Refused> {
        let Some(text) = self.value(Word::After) else {
            return Ok(None);
        };
        match digits_of(text) {
            Some(digits) => Ok(Some(digits)),
            None => Err(wrong(alloc, Word::After, "after is a phone of 1 to 20 digits")),
        }
    }

    /// The cursor behind which an answer begins, where it is there and not empty.
    pub fn since(&self, alloc: Global) -> Result<Option<(u32, Cursor)>, Refused> {
        match self.value(Word::Since) {
            None | Some("") => Ok(None),
            Some(text) => match Cursor::read(text) {
                Some(since) => Ok(Some(since)),
                None => Err(wrong(
                    alloc,
                    Word::Since,
                    "since is the cursor of an answer of this path",
                )),
            },
        }
    }

    /// Whether sessions that ended are asked for.
    pub fn ended(&self, alloc: Global) -> Result<bool, Refused> {
        match self.value(Word::Ended) {
            None => Ok(false),
            Some("1") => Ok(true),
            Some(_) => Err(wrong(alloc, Word::Ended, "ended is 1, or left out")),
        }
    }

    /// The number from which on rows are told; 0 where it is missing.
    pub fn from_number(&self, alloc: Global) -> Result<u64, Refused> {
        let Some(text) = self.value(Word::From) else {
            return Ok(0);
        };
        match number_of(text) {
            Some(number) if number <= ROW_NUMBER_LIMIT => Ok(number),
            _ => Err(out_of_range(alloc, Word::From, 0, ROW_NUMBER_LIMIT)),
        }
    }

    /// The fix behind which a track goes on, where it is there.
    pub fn after_place(&self, alloc: Global) -> Result<Option<Place>, Refused> {
        let Some(text) = self.value(Word::After) else {
            return Ok(None);
        };
        match Place::read(text) {
            Some(place) => Ok(Some(place)),
            None => Err(wrong(
                alloc,
                Word::After,
                "after is a row's number, a point, and a place",
            )),
        }
    }

    /// The moment that a word names, in seconds since 1970.
    pub fn time(&self, alloc: Global, word: Word) -> Result<u64, Refused> {
        let Some(text) = self.value(word) else {
            return Err(wrong(alloc, word, "a time is missing"));
        };
        match read_time(alloc, text)? {
            Some(seconds) => Ok(seconds),
            None => Err(wrong(
                alloc,
                word,
                "a time is like 2026-11-30T06:00:00+08:00, from 1970 on, with + written %2B",
            )),
        }
    }

    /// The form of a track; GeoJSON where it is missing.
    pub fn form(&self, alloc: Global) -> Result<Form, Refused> {
        let Some(text) = self.value(Word::Form) else {
            return Ok(Form::GeoJson);
        };
        match Form::named(text) {
            Some(form) => Ok(form),
            None => Err(wrong(alloc, Word::Form, "form is geojson, gpx or csv")),
        }
    }
}
