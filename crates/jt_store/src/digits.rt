//! The digits of phones as keys of maps.

ghost use Rattle.std.specs.Prelude.{◌≡◌};
ghost use Rattle.jt_value.specs.declared.phone.Edition.TheVariants.{E2019};

use jt_value::{Edition, Phone};
use std::cmp::Ordering;
use std::marker::Model;

/// Twenty digits, two an octet, in the order of their octets. Maps compare keys often, so they are kept and compared as two
/// numbers.
#[derive(Drop)]
pub struct Digits {
    front: u64,
    back: u16,
}

impl Model for Digits {
    ghost use Rattle.std.specs.Prelude.{List, ℕ, ◌++◌};
    ghost use Rattle.std.specs.Int.{w16, w64, to_be_bytes};

    ghost Value = { List ℕ };

    ghost view = { λ d. to_be_bytes w64 d.front ++ to_be_bytes w16 d.back };
}

impl Digits {
    /// The digits of these octets.
    pub fn of(octets: &[u8; 10]) -> Digits
        ensures { result ≡ octets.now }
    {
        let [a, b, c, d, e, f, g, h, i, j] = *octets;
        Digits {
            front: u64::from_be_bytes([a, b, c, d, e, f, g, h]),
            back: u16::from_be_bytes([i, j]),
        }
    }

    /// The phone of 2019 with these digits.
    pub fn phone(&self) -> Phone
        ensures { result ≡ record { edition = E2019; digits = self.now } }
    {
        let digits = self.octets();
        Phone {
            edition: Edition::E2019,
            digits,
        }
    }

    fn octets(&self) -> [u8; 10]
        ensures { result ≡ self.now }
    {
        let [a, b, c, d, e, f, g, h] = self.front.to_be_bytes();
        let [i, j] = self.back.to_be_bytes();
        [a, b, c, d, e, f, g, h, i, j]
    }
}

impl PartialEq for Digits {
    ghost use Rattle.std.proofs.Common.{rules};
    ghost use Rattle.std.specs.Cmp.Rules.{comparing};
    ghost use Rattle.std.specs.Cmp.Lexicographic.{slice_cmp};
    ghost use Rattle.std.specs.Ordering.{eq_by_cmp, nat_cmp};

    ghost eq = { eq_by_cmp (slice_cmp nat_cmp) };

    ghost laws = { Prim.search (comparing, rules) };

    fn eq(&self, other: &Digits) -> bool {
        self.cmp(other).is_eq()
    }
}

impl Eq for Digits {
    ghost use Rattle.std.proofs.Common.{rules};
    ghost use Rattle.std.specs.Cmp.Rules.{comparing};

    ghost laws = { Prim.search (comparing, rules) };
}

impl PartialOrd for Digits {
    ghost use Rattle.std.proofs.Common.{rules};
    ghost use Rattle.std.specs.Cmp.{partial_order_from_own_ties};
    ghost use Rattle.std.specs.Cmp.Rules.{comparing};
    ghost use Rattle.std.specs.Cmp.Lexicographic.{slice_cmp};
    ghost use Rattle.std.specs.Ordering.{as_partial_cmp, nat_cmp};

    ghost partial_cmp = { as_partial_cmp (slice_cmp nat_cmp) };

    ghost laws = { partial_order_from_own_ties (Prim.search (comparing, rules)) (Prim.search (comparing, rules)) };

    fn partial_cmp(&self, other: &Digits) -> Option<Ordering> {
        Some(self.cmp(other))
    }
}

impl Ord for Digits {
    ghost use Rattle.std.proofs.Common.{rules};
    ghost use Rattle.std.specs.Cmp.Rules.{comparing};
    ghost use Rattle.std.specs.Cmp.Lexicographic.{slice_cmp};
    ghost use Rattle.std.specs.Ordering.{nat_cmp};

    ghost cmp = { slice_cmp nat_cmp };

    ghost total = { Prim.search (comparing, rules) };

    ghost matches_partial_cmp = { Prim.search (comparing, rules) };

    ghost matches_eq = { Prim.search (comparing, rules) };

    fn cmp(&self, other: &Digits) -> Ordering {
        // Numbers that are read are known to fit their fields.
        let (front, back) = (self.front, self.back);
        let (other_front, other_back) = (other.front, other.back);
        front.cmp(&other_front).then(back.cmp(&other_back))
    }
}
