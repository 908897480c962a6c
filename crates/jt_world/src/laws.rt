//! The laws of rehearsals.

ghost use Rattle.std.specs.Prelude.{◌≡◌, ◌<◌, ◌≤◌, ◌^◌, ◌++◌, length, ℕ, List};
ghost use Rattle.jt_input.specs.Text.{lines_of};
ghost use Rattle.jt_value.specs.declared.limits.TheConstants.{FIX_LIMIT};
ghost use Rattle.jt_octets.specs.Claim.{EachReachedHears, EachReachedIsKept, EachReachedIsOfThePhone, NoneReachedRenumbers};
ghost use Rattle.jt_world.specs.Claim.{EachReachedIsKeptWhole};
ghost use Rattle.jt_world.specs.Made.{made, made_reply, make_lines, make_script};
ghost use Rattle.jt_world.specs.Rehearsal.{rehearsal, Whole};

/// What is claimed of delivery holds of every world that steps lead to, whatever steps these are:
/// the fixes stored are the first of those recorded, each once and in order, and hold every fix
/// whose acceptance the terminal received; both ends read exactly what the octets are that they
/// took, on each line; and no entry answers Renumbered.
pub fn law_world()
    ensures kept { EachReachedIsKept }
    ensures whole { EachReachedIsKeptWhole }
    ensures replies { NoneReachedRenumbers }
    ensures hears { EachReachedHears }
    ensures phone { EachReachedIsOfThePhone }
{
    jt_octets::law_world();
}

/// What `make` says of a script that is made: its lines are those that are said, it is rehearsed as
/// `rehearse` would, and what is written is the last part of what `rehearse` prints of it. Of as
/// many rounds as the vault takes fixes, or fewer, it is read whole: no line of it is bad, none
/// finds the vault full, and as many fixes as rounds are recorded.
pub fn law_make()
    ensures script { (count : ℕ) → count < 2 ^ 32 →
        lines_of (make_script count) ≡ make_lines count }
    ensures made { (count : ℕ) → count < 2 ^ 32 → rehearsal (make_script count) ≡ made count }
    ensures last { (count : ℕ) → (before : List ℕ)
        × ((made count).text ≡ before ++ (made_reply count).text) }
    ensures whole { (count : ℕ) → count ≤ FIX_LIMIT → (made count).end ≡ Whole }
    ensures recorded { (count : ℕ) → count ≤ FIX_LIMIT →
        length (made count).play.held.recorded ≡ count }
{
    jt_play::law_records();
    jt_input::law_lines();
}
