//! Where a unit goes, as far as its serial tells.

/// Where a unit goes among the rows of its phone (this project's own serial rule).
#[derive(Clone, Copy, Debug, PartialEq, Eq)]
pub enum Place {
    /// There is no row yet: the unit is new under this number.
    First(u64),
    /// The unit is new under this number, at most 32,767 above the last row's.
    New(u64),
    /// The unit repeats the row of the number `candidate`, if there is one with its id and body. Otherwise the
    /// terminal began its serials anew, and the unit is new under the number `anew`.
    Back { candidate: Option<u64>, anew: u64 },
}
