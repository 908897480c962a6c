//! Dials: who gives links to a host and a port.

ghost use Rattle.std.specs.Prelude.{◌≡◌, ◌<◌, ℕ, IfSome, IsNone};
ghost use Rattle.std.specs.Prelude.{option_map};
ghost use Rattle.jt_value.specs.Counts.{Rose, Counts};
ghost use Rattle.jt_outside.specs.Link.{wire_of};
ghost use Rattle.jt_outside.specs.Pool.{Pool, GivesLink, taken_back};

use crate::link::Link;

/// Gives links, and takes them back after use.
pub trait Dial {
    type Link: Link + Drop;

    /// The links to come and those that came back, where it tells them, and how many are out.
    ghost pool: { Self → Pool };

    /// How many of its calls failed. The count never falls, and stays at 2^64 - 1 once it is there.
    ghost faults: { Self → ℕ };

    /// A link to the host and the port. None comes only where the call failed.
    fn dial(&mut self, host: &str, port: u16) -> Option<Self::Link>
        ensures link { GivesLink (pool self.old) (pool self.new)
            (option_map (wire_of Self.Link.inbound Self.Link.written Self.Link.faults) result) }
        ensures count { Counts (faults self.old) (faults self.new) }
        ensures cause { IsNone result → Rose (faults self.old) (faults self.new) };

    /// Takes a used link back. It takes no memory.
    fn back(&mut self, link: Self::Link)
        requires { IfSome (pool self.old).lent (λ lent. 0 < lent) }
        ensures back { pool self.new
            ≡ taken_back (wire_of Self.Link.inbound Self.Link.written Self.Link.faults link)
            (pool self.old) }
        ensures count { faults self.new ≡ faults self.old };
}
