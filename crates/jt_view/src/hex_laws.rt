//! Laws of hexadecimal input. Each is a function that does nothing, whose contract is the law.

ghost use Rattle.std.specs.Prelude.{◌≡◌, ◌++◌, List, ℕ, Some};
ghost use Rattle.jt_view.specs.HexInput.{first_wrong, digits, octets_of_digits};

/// What follows a wrong octet changes nothing: neither its place nor the digits before it.
pub fn law_wrong_stays()
    ensures place { (front rest : List ℕ) (place : ℕ) →
        first_wrong front ≡ Some place → first_wrong (front ++ rest) ≡ Some place }
    ensures digits { (front rest : List ℕ) (place : ℕ) →
        first_wrong front ≡ Some place → digits (front ++ rest) ≡ digits front }
{}

/// The octets of the front of an input are the first octets of the input.
pub fn law_octets_of_front()
    ensures { (front rest : List ℕ) → (more : List ℕ)
        × (octets_of_digits (digits (front ++ rest)) ≡ octets_of_digits (digits front) ++ more) }
{}
