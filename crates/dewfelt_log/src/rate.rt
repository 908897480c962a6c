//! How many lines a second events may have that anybody can cause.

ghost use Rattle.std.specs.Prelude.{◌≡◌, ◌≤◌, ◌+◌, ◌-◌, ◌^◌, min, if◌then◌else◌};

/// So many lines a second at most (this project's own).
pub const LINES_A_SECOND: u32 = 10;

/// How many lines of a kind were written in the present second, and how many events of the kind had none.
#[derive(Clone, Copy, Debug, PartialEq, Eq)]
pub struct Rate {
    second: u64,
    lines: u32,
    left_out: u64,
    ghost most: { lines ≤ 10 },
}

impl Rate {
    ghost use Rattle.dewfelt_log.specs.Rate.{lines_in, allows};

    /// No line so far.
    pub fn new() -> Rate
        ensures { (result.lines ≡ 0) × (result.left_out ≡ 0) }
    {
        Rate {
            second: 0,
            lines: 0,
            left_out: 0,
        }
    }

    /// Whether an event of this second may have a line. Where it may not it is counted as left out.
    pub fn allows(&mut self, second: u64) -> bool
        ensures answer { result ≡ allows self.old second }
        ensures second { self.new.second ≡ second }
        ensures lines { self.new.lines
            ≡ lines_in self.old second + (if result then 1 else 0) }
        ensures left_out { self.new.left_out
            ≡ (if result then self.old.left_out else min (self.old.left_out + 1) (2 ^ 64 - 1)) }
    {
        if self.second != second {
            self.second = second;
            self.lines = 0;
        }
        if self.lines < LINES_A_SECOND {
            self.lines += 1;
            return true;
        }
        self.left_out = self.left_out.saturating_add(1);
        false
    }

    /// How many events had no line since this was last asked.
    pub fn take_left_out(&mut self) -> u64
        ensures count { result ≡ self.old.left_out }
        ensures after { self.new.left_out ≡ 0 }
        ensures lines { (self.new.second ≡ self.old.second) × (self.new.lines ≡ self.old.lines) }
    {
        let count = self.left_out;
        self.left_out = 0;
        count
    }
}
