//! What the lines of an input are to a command.

ghost use Rattle.std.specs.Prelude.{◌≡◌, ◌⊎◌, ◌∷◌, ℕ, List, false, string_bytes, IfOk, IsTrue};
ghost use Rattle.jt_input.specs.Text.{is_within};
ghost use Rattle.jt_input.specs.Answer.{EndsEarly};
ghost use Rattle.jt_input.specs.declared.status.Status.{Status};

use crate::status::Status;
use jt_value::Memory;
use std::alloc::Global;

/// What hearing a line brought.
#[derive(Clone, Copy, Debug, PartialEq, Eq)]
pub enum Heard {
    /// What is printed of it is put, and the next line may follow.
    Next,
    /// It is bad: nothing was done, and the input ends there.
    Bad,
    /// The answer is settled by this status, and wholly put.
    Settled(Status),
}

/// Hears the lines of one input, one after another.
pub trait Hearer {
    ghost use Rattle.jt_input.specs.Lines.{Outcome, Hears, Closes, bad_outcome};

    /// What comes of lines, of which the first has this number.
    ghost outcome: { Self → ℕ → List (List ℕ) → Outcome Self };

    /// The hearer may hear a line, or close.
    ghost can_hear: { Self → Type 0 };

    /// Does what the line of this number says, and puts what is printed of it. Memory where memory was refused.
    fn hear(
        &mut self,
        alloc: Global,
        number: u64,
        line: &[u8],
        text: &mut String,
    ) -> Result<Heard, Memory>
        requires can { can_hear self.old }
        requires within { IsTrue (is_within number line.now) }
        ensures hears { IfOk result (λ heard. Hears heard outcome self.old self.new number line.now
            (string_bytes text.old) (string_bytes text.new)) }
        ensures can { IfOk result (λ _. can_hear self.new) }
        ensures early { IfOk result (λ heard.
            (status : Status) → heard ≡ Heard.Settled status → EndsEarly status) };

    /// Puts what is printed at the end of an input without a bad line, and answers its status. Memory where memory was refused.
    fn close(&mut self, alloc: Global, text: &mut String) -> Result<Status, Memory>
        requires can { can_hear self.old }
        ensures closes { IfOk result (λ status. Closes outcome self.old self.new
            (string_bytes text.old) (string_bytes text.new) status) }
        ensures can { IfOk result (λ _. can_hear self.new) }
        ensures status { IfOk result (λ status. (status ≡ Status.Done) ⊎ EndsEarly status) };

    // A line beyond the limits is bad, whatever it says.
    ghost beyond: { (hearer : Self) (number : ℕ) (line : List ℕ) (more : List (List ℕ)) → is_within number line ≡ false →
        outcome hearer number (line ∷ more) ≡ bad_outcome hearer number };
}
