//! Numbers within their ranges.

ghost use Rattle.std.specs.Prelude.{◌≡◌, ◌≤◌, min, MatchOption};
ghost use Rattle.dewfelt_settings.specs.Numbers.{IsCount, IsSeconds, half_of};

/// The most links at a time that can be chosen (this project's own).
pub const LINKS_MOST: u32 = 10_000;

/// The most seconds that a link may be quiet, a day (this project's own).
pub const SECONDS_MOST: u32 = 86_400;

/// A number of links, from 1 to 10,000.
#[derive(Clone, Copy)]
pub struct Count {
    pub number: u32,
    ghost range: { (1 ≤ number) × (number ≤ 10000) },
}

/// A number of seconds, from 1 to 86,400.
#[derive(Clone, Copy)]
pub struct Seconds {
    pub number: u32,
    ghost range: { (1 ≤ number) × (number ≤ 86400) },
}

impl Count {
    /// 1,024 (this project's own).
    pub fn usual() -> Count
        ensures { result.number ≡ 1024 }
    {
        Count { number: 1_024 }
    }

    /// The number, where it is within the range.
    pub fn of(number: u32) -> Option<Count>
        ensures { MatchOption result (IsCount number → ⊥) (λ count. count.number ≡ number) }
    {
        if 1 <= number && number <= LINKS_MOST {
            return Some(Count { number });
        }
        None
    }

    /// Half of the number, and 1 at least.
    pub fn half(self) -> Count
        ensures { result.number ≡ half_of self.number }
    {
        if self.number < 2 {
            return Count { number: 1 };
        }
        Count {
            number: self.number / 2,
        }
    }

    /// The smaller one of two numbers.
    pub fn at_most(self, other: Count) -> Count
        ensures { result.number ≡ min self.number other.number }
    {
        if other.number < self.number {
            return other;
        }
        self
    }
}

impl Seconds {
    /// Three minutes (this project's own).
    pub fn three_minutes() -> Seconds
        ensures { result.number ≡ 180 }
    {
        Seconds { number: 180 }
    }

    /// The number, where it is within the range.
    pub fn of(number: u32) -> Option<Seconds>
        ensures { MatchOption result (IsSeconds number → ⊥) (λ seconds. seconds.number ≡ number) }
    {
        if 1 <= number && number <= SECONDS_MOST {
            return Some(Seconds { number });
        }
        None
    }
}
