//! A small desk.

use jt_turn::{Desk, Entry};
use jt_value::Seq;
use std::hint::spin_loop;

/// The most asks that any such desk counts.
pub const MOST_ASKS: u64 = 1 << 40;

/// Counts its asks from a number on, up to a limit. Each further ask, and one for which there is no memory, is a fault.
#[derive(Drop)]
pub struct CountingDesk {
    /// The first answer. No ask changes it.
    pub from: u32,
    /// How many asks it counts, at most `MOST_ASKS`.
    pub limit: u64,
    /// The asks that it counted, oldest first.
    pub entries: Seq<Entry<u64, Option<u64>>>,
    /// How many asks it did not count, at most 2^64 - 1.
    pub faults: u64,
    /// So many times it pauses before each answer, so that other callers have to wait for it.
    pub pauses: u32,
}

fn pause(times: u32) {
    for _ in 0..times {
        spin_loop();
    }
}

impl Desk for CountingDesk {
    ghost use Rattle.std.specs.Prelude.{is_some};
    ghost use Rattle.turn_tests.specs.Counting.{Counted};

    type Ask = u64;

    type Answer = Option<u64>;

    type Opening = u32;

    ghost opening = { λ desk. desk.from };

    ghost blank = { 0 };

    ghost history = { λ desk. desk.entries };

    ghost faults = { λ desk. desk.faults };

    ghost gives = { λ from found before after _ _ answer. Counted from found before after answer };

    ghost enters = { λ answer. is_some answer };

    fn act(&mut self, session: u32, ask: &u64) -> Option<u64> {
        pause(self.pauses);
        let count = self.entries.len() as u64;
        if count < self.limit && count < MOST_ASKS {
            let answer = Some(self.from as u64 + count);
            let entry = Entry {
                number: session,
                ask: *ask,
                answer,
            };
            if self.entries.push(entry).is_ok() {
                return answer;
            }
        }
        self.faults = self.faults.saturating_add(1);
        None
    }
}
