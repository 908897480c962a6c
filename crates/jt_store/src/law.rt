//! Laws of rows and units.

ghost use Rattle.jt_store.specs.Verdicts.{VerdictsNear};

/// The laws of verdicts over rows: what every verdict near the last row is, and that the numbers of a terminal's units
/// rise.
pub fn law_verdicts()
    ensures { VerdictsNear }
{}
