//! Lines, built field by field.

ghost use Rattle.std.specs.Prelude.{◌≡◌, ℕ, List, true, ◌++◌, ◌∷◌, [], OnOk, IfSome};
ghost use Rattle.std.specs.Fmt.{decimal};
ghost use Rattle.std.specs.Net.Text.{socket_text};
ghost use Rattle.dewfelt_log.specs.Logfmt.{field, are_fields, AreLines, Adds, Begins};

use crate::gbk::in_gbk;
use crate::time::time_text;
use crate::value::{cut, put_key, put_value};
use std::alloc::{AllocError, Global};
use std::net::SocketAddr;

// Room for the longest line that the program writes, so that fields move nothing.
const LINE_ROOM: usize = 1_024;

/// A line: fields `key=value` with a space between two. The first two are its time and its event.
///
/// Where memory is refused for a field the line is not whole from there on: an outbox counts it as lost.
#[derive(Drop)]
pub struct Line {
    alloc: Global,
    octets: Vec<u8>,
    is_whole: bool,
    ghost fields: { is_whole ≡ true → are_fields octets.items ≡ true },
}

#[tactic(auto, using(std::proofs::Common::append_assoc))]
fn put_field(line: &mut Vec<u8>, key: &[u8], value: &[u8]) -> Result<(), AllocError>
    ensures { OnOk result (line.new.items ≡ line.old.items ++ field key.now value.now) }
{
    put_key(line, key)?;
    line.push(b'=')?;
    put_value(line, value)
}

#[tactic(auto, using(std::proofs::Common::append_assoc))]
fn put_next(line: &mut Vec<u8>, key: &[u8], value: &[u8]) -> Result<(), AllocError>
    ensures { OnOk result (line.new.items ≡ line.old.items ++ 32 ∷ field key.now value.now) }
{
    line.push(b' ')?;
    put_field(line, key, value)
}

// The first field of a line.
#[tactic(auto, using(crate::proofs::Fields::one_field))]
fn first(alloc: Global, key: &[u8], value: &[u8]) -> Line
    ensures { result.is_whole ≡ true → result.octets.items ≡ field key.now value.now }
{
    let mut octets = Vec::new(alloc);
    if octets.try_reserve(LINE_ROOM).is_err() {
        return Line {
            alloc,
            octets,
            is_whole: false,
        };
    }
    let is_whole = put_field(&mut octets, key, value).is_ok();
    Line {
        alloc,
        octets,
        is_whole,
    }
}

impl Line {
    /// A line of an event at a moment, in seconds since 1970-01-01T00:00:00Z.
    pub fn new(alloc: Global, seconds: u64, event: &str) -> Line
        ensures { result.is_whole ≡ true → Begins seconds event.now result.octets.items }
    {
        let mut line = first(alloc, b"time", &time_text(seconds));
        line.text("event", event);
        line
    }

    #[tactic(auto, using(crate::proofs::Fields::more_fields))]
    fn put(&mut self, key: &[u8], value: &[u8])
        ensures added { self.new.is_whole ≡ true → self.new.octets.items
            ≡ self.old.octets.items ++ 32 ∷ field key.now value.now }
        ensures before { self.new.is_whole ≡ true → self.old.is_whole ≡ true }
    {
        if !self.is_whole {
            return;
        }
        self.is_whole = put_next(&mut self.octets, key, value).is_ok();
    }

    /// Puts a field of octets, which are cut behind 64 and quoted where they have to be. Those that are UTF-8 stay UTF-8.
    pub fn octets(&mut self, key: &str, value: &[u8])
        ensures added { Adds key.now value.now self.new.is_whole
            self.old.octets.items self.new.octets.items }
        ensures before { self.new.is_whole ≡ true → self.old.is_whole ≡ true }
    {
        self.put(key.as_bytes(), cut(value));
    }

    /// Puts a field of text.
    pub fn text(&mut self, key: &str, value: &str)
        ensures added { Adds key.now value.now self.new.is_whole
            self.old.octets.items self.new.octets.items }
        ensures before { self.new.is_whole ≡ true → self.old.is_whole ≡ true }
    {
        self.octets(key, value.as_bytes());
    }

    /// Puts a field of a number.
    pub fn number(&mut self, key: &str, value: u64)
        ensures added { Adds key.now (decimal value) self.new.is_whole
            self.old.octets.items self.new.octets.items }
        ensures before { self.new.is_whole ≡ true → self.old.is_whole ≡ true }
    {
        match format!(in self.alloc; "{value}") {
            Ok(digits) => self.text(key, digits.as_str()),
            Err(_) => self.is_whole = false,
        }
    }

    /// Puts a field of what a stranger may have sent: as GBK, or as hexadecimal digits where it is none. It is one field whatever
    /// the octets are.
    pub fn foreign(&mut self, key: &str, value: &[u8])
        ensures added { (text : List ℕ) × Adds key.now text self.new.is_whole
            self.old.octets.items self.new.octets.items }
        ensures before { self.new.is_whole ≡ true → self.old.is_whole ≡ true }
    {
        match in_gbk(self.alloc, value) {
            Ok(text) => self.text(key, text.as_str()),
            Err(_) => self.is_whole = false,
        }
    }

    /// Puts a field of an address and its port.
    pub fn address(&mut self, key: &str, value: SocketAddr)
        ensures added { Adds key.now (socket_text value) self.new.is_whole
            self.old.octets.items self.new.octets.items }
        ensures before { self.new.is_whole ≡ true → self.old.is_whole ≡ true }
    {
        match format!(in self.alloc; "{value}") {
            Ok(text) => self.text(key, text.as_str()),
            Err(_) => self.is_whole = false,
        }
    }

    /// Ends the line with its line feed. None means that memory was refused for a part of it.
    #[tactic(auto, using(crate::proofs::Fields::line_ends))]
    pub fn end(self) -> Option<Vec<u8>>
        ensures line { IfSome result (λ line. AreLines line.items) }
        ensures text { IfSome result (λ line. line.items ≡ self.octets.items ++ 10 ∷ []) }
        ensures whole { IfSome result (λ _. self.is_whole ≡ true) }
    {
        let Line {
            alloc: _,
            mut octets,
            is_whole,
        } = self;
        if is_whole && octets.push(b'\n').is_ok() {
            return Some(octets);
        }
        None
    }
}
