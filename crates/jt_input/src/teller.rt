//! What is told of an input that comes in pieces.

ghost use Rattle.std.specs.Prelude.{◌≡◌, ◌≢◌, ◌⊎◌, ◌<◌, ◌≤◌, ◌+◌, ◌^◌, ℕ, List, None, length, string_bytes, IfOk, IfSome};
ghost use Rattle.jt_input.specs.Answer.{EndsEarly};
ghost use Rattle.jt_input.specs.Reply.{Reply};
ghost use Rattle.jt_input.specs.Telling.{TakesPiece, Ends};
ghost use Rattle.jt_input.specs.declared.status.Status.{Status};

use crate::status::Status;
use jt_value::Memory;
use std::alloc::Global;

/// Tells of one input, which comes in pieces: it prints what is printed of each piece as it comes, and at the end the rest.
pub trait Teller {
    /// What is asked of the input. It is spoken of in contracts alone.
    type Asked;

    /// The answer to an input: all that is printed of it, and the status with which its run ends.
    ghost answer: { Self.Asked → List ℕ → Reply };

    /// So asked, the teller has taken this front of an input and printed this text of it, and nothing is settled yet.
    ghost stands: { Self → Self.Asked → List ℕ → List ℕ → Type 0 };

    /// What is known of a teller that was so asked and has told all of the answer to this input.
    ghost has_told: { Self → Self.Asked → List ℕ → Type 0 };

    /// The teller may take more, or end.
    ghost can_take: { Self → Type 0 };

    /// At most so many octets may come before the answer is settled.
    ghost room: { Self → ℕ };

    /// Takes the input's next octets, and puts what is printed of them. A status says that the answer is settled, whatever
    /// follows, and wholly printed. Memory where memory was refused.
    fn take(
        &mut self,
        alloc: Global,
        piece: &[u8],
        text: &mut String,
    ) -> Result<Option<Status>, Memory>
        requires can { can_take self.old }
        requires few { length piece.now ≤ 2 ^ 14 }
        ensures takes { IfOk result (λ settled.
            TakesPiece settled answer (stands self.old) (stands self.new) (has_told self.new)
            piece.now (string_bytes text.old) (string_bytes text.new)) }
        ensures can { IfOk result (λ settled. settled ≡ None → can_take self.new) }
        ensures room { IfOk result (λ settled.
            settled ≡ None → room self.new + length piece.now ≤ room self.old) }
        ensures early { IfOk result (λ settled. IfSome settled EndsEarly) };

    /// Puts what is printed of an input that ends here, and answers its status. Memory where memory was refused.
    fn end(&mut self, alloc: Global, text: &mut String) -> Result<Status, Memory>
        requires can { can_take self.old }
        ensures ends { IfOk result (λ status. Ends answer (stands self.old) (has_told self.new)
            (string_bytes text.old) (string_bytes text.new) status) }
        ensures status { IfOk result (λ status. (status ≡ Status.Done) ⊎ EndsEarly status) };
}
