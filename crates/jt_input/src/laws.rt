//! The law of lines: a function that does nothing, whose contract is the law.

ghost use Rattle.std.specs.Prelude.{◌≡◌, ◌++◌, ◌<◌, [], ◌∷◌, List, ℕ, length};
ghost use Rattle.jt_input.specs.Text.{Cuts, IsLine, lines_of};

/// A text that begins with whole lines has these as its first lines; then come those of the rest.
pub fn law_lines()
    ensures front { (text rest begun : List ℕ) (lines : List (List ℕ)) → Cuts text lines begun →
        lines_of (text ++ rest) ≡ lines ++ lines_of (begun ++ rest) }
    // An unfinished line is a line where it has an octet.
    ensures unfinished { (begun : List ℕ) → IsLine begun → 0 < length begun →
        lines_of begun ≡ begun ∷ [] }
{}
