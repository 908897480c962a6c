//! What many callers share.

ghost use Rattle.std.specs.Prelude.{◌≡◌, ◌≤◌, ◌++◌, ℕ, List, Bool};
ghost use Rattle.jt_turn.specs.declared.entry.Entry.{Entry};
ghost use Rattle.jt_turn.specs.Histories.{entry_if};

/// A desk answers one ask at a time, each for the session of a number. Contracts see its history, which is a list of entries,
/// and a count of faults.
pub trait Desk {
    /// What is asked.
    type Ask;

    /// What is answered.
    type Answer;

    /// What no act changes. It is spoken of in contracts alone.
    type Opening;

    // What no act changes.
    ghost opening: { Self → Self.Opening };
    // Any such value; no clause speaks of it.
    ghost blank: { Self.Opening };
    // The acts that made an entry, oldest first.
    ghost history: { Self → List (Entry Self.Ask Self.Answer) };
    // A count that never falls.
    ghost faults: { Self → ℕ };
    // Which answers it may give: under an opening, at a history, with the count before the act and the count after it, to the
    // session of a number, to an ask.
    ghost gives: { Self.Opening → List (Entry Self.Ask Self.Answer) → ℕ → ℕ → ℕ → Self.Ask → Self.Answer → Type 0 };
    // Which answers make an entry.
    ghost enters: { Self.Answer → Bool };

    /// Answers an ask of a session.
    fn act(&mut self, session: u32, ask: &Self::Ask) -> Self::Answer
        ensures opening { opening self.new ≡ opening self.old }
        ensures faults { faults self.old ≤ faults self.new }
        ensures answer { gives (opening self.old) (history self.old)
            (faults self.old) (faults self.new) session ask.now result }
        ensures history { history self.new
            ≡ history self.old ++ entry_if (enters result) session ask.now result };
}
