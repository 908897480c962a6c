//! Octets and frames that a table of a test writes in words.

use jt_value::Memory;
use std::alloc::Global;

/// The words of a text.
pub fn words_of<'a>(alloc: Global, text: &'a str) -> Result<Vec<&'a str>, Memory> {
    let mut words = Vec::new(alloc);
    for word in text.split_whitespace() {
        words.push(word)?;
    }
    Ok(words)
}

/// The octets of a word of hexadecimal digits; `-` is none. Memory is answered for every other word, too.
pub fn octets_in(alloc: Global, word: &str) -> Result<Vec<u8>, Memory> {
    let digits = if word == "-" { "" } else { word };
    match hex::decode(alloc, digits.as_bytes()) {
        Ok(octets) => Ok(octets),
        Err(_) => Err(Memory),
    }
}

// The third word of the first line of a table whose first word is this letter; without such a line a word of no octets.
fn digits_of(table: &'static str, letter: u8) -> &'static str {
    for line in table.lines() {
        let mut words = line.split_whitespace();
        let is_found = match words.next() {
            Some(word) => word.as_bytes().first() == Some(&letter),
            None => false,
        };
        if is_found {
            let _name = words.next();
            return words.next().unwrap_or("?");
        }
    }
    "?"
}

/// The frames of these letters, one behind the other. On each line of the table stand a letter, a name and the frame's octets.
pub fn frames_in(alloc: Global, table: &'static str, letters: &[u8]) -> Result<Vec<u8>, Memory> {
    let mut whole = Vec::new(alloc);
    for letter in letters {
        let frame = octets_in(alloc, digits_of(table, *letter))?;
        whole.extend_from_slice(frame.as_slice())?;
    }
    Ok(whole)
}
