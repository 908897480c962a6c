//! Lines that wait to be written.

ghost use Rattle.std.specs.Prelude.{◌≡◌, ◌≤◌, ◌++◌, [], ◌+◌, ◌-◌, ◌^◌, length, min, IfOk, if◌then◌else◌};
ghost use Rattle.dewfelt_log.specs.Logfmt.{AreLines, Puts};

use crate::Line;
use std::alloc::{AllocError, Global};
use std::mem::replace;

/// So many octets of lines wait at most (this project's own).
pub const ROOM: usize = 1 << 18;

/// Lines that wait to be written, in a room that is taken at the start. Lines that had no room are counted and let go.
#[derive(Drop)]
pub struct Outbox {
    lines: Vec<u8>,
    lost: u64,
    ghost are_lines: { AreLines lines.items },
    ghost room: { length lines.items ≤ 262144 },
}

/// An empty room for lines.
pub fn empty_room(alloc: Global) -> Result<Vec<u8>, AllocError>
    ensures { IfOk result (λ room. room.items ≡ []) }
{
    let mut room = Vec::new(alloc);
    room.try_reserve(ROOM)?;
    Ok(room)
}

impl Outbox {
    /// An outbox without lines.
    pub fn new(alloc: Global) -> Result<Outbox, AllocError> {
        Ok(Outbox {
            lines: empty_room(alloc)?,
            lost: 0,
        })
    }

    // Puts a line at the end. False means that it had no room, or that memory was refused.
    #[tactic(auto, using(crate::proofs::Fields::lines_join))]
    fn put_octets(&mut self, line: &[u8]) -> bool
        requires { AreLines line.now }
        ensures lost { self.new.lost ≡ self.old.lost }
        ensures lines { self.new.lines.items
            ≡ (if result then self.old.lines.items ++ line.now else self.old.lines.items) }
    {
        if line.len() > ROOM - self.lines.len() {
            return false;
        }
        self.lines.extend_from_slice(line).is_ok()
    }

    fn count_lost(&mut self)
        ensures lines { self.new.lines.items ≡ self.old.lines.items }
        ensures lost { self.new.lost ≡ min (self.old.lost + 1) (2 ^ 64 - 1) }
    {
        self.lost = self.lost.saturating_add(1);
    }

    /// Puts a line at the end, or counts it as lost where there is no room, or memory was refused for it.
    pub fn put(&mut self, line: Line)
        ensures { Puts line.octets.items line.is_whole self.old.lines.items self.old.lost
            self.new.lines.items self.new.lost }
    {
        match line.end() {
            Some(octets) => {
                if !self.put_octets(octets.as_slice()) {
                    self.count_lost();
                }
            }
            None => self.count_lost(),
        }
    }

    /// Takes the lines that wait, for an empty room.
    pub fn take(&mut self, empty: Vec<u8>) -> Vec<u8>
        ensures lines { result.items ≡ self.old.lines.items }
        ensures are_lines { AreLines result.items }
        ensures after { self.new.lines.items ≡ [] }
        ensures lost { self.new.lost ≡ self.old.lost }
    {
        let mut room = empty;
        room.clear();
        replace(&mut self.lines, room)
    }

    /// How many lines were lost since this was last asked.
    pub fn take_lost(&mut self) -> u64
        ensures count { result ≡ self.old.lost }
        ensures after { self.new.lost ≡ 0 }
        ensures lines { self.new.lines.items ≡ self.old.lines.items }
    {
        let count = self.lost;
        self.lost = 0;
        count
    }
}
