//! Listeners: who gives links as they come.

ghost use Rattle.std.specs.Prelude.{◌≡◌, ◌<◌, ℕ, false, IfSome};
ghost use Rattle.jt_value.specs.Counts.{Rose, Counts};
ghost use Rattle.jt_outside.specs.Link.{wire_of};
ghost use Rattle.jt_outside.specs.Pool.{Pool, taken_back};
ghost use Rattle.jt_outside.specs.Accepted.{Accepts};
ghost use Rattle.jt_outside.specs.declared.listen.Accepted.TheVariants.{Failed};

use crate::link::Link;

/// What an accept answers.
#[derive(Drop)]
pub enum Accepted<L> {
    /// A link that came.
    Link(L),
    /// No link is left to come.
    Over,
    /// The listener failed, and its count of faults rose.
    Failed,
}

/// Gives links as they come, and takes them back after use.
pub trait Listen {
    type Link: Link + Drop;

    /// The links to come and those that came back, where it tells them, and how many are out.
    ghost pool: { Self → Pool };

    /// How many of its calls failed. The count never falls, and stays at 2^64 - 1 once it is there.
    ghost faults: { Self → ℕ };

    /// Begins to listen at the port. False comes only where the call failed.
    fn start(&mut self, port: u16) -> bool
        ensures links { pool self.new ≡ pool self.old }
        ensures count { Counts (faults self.old) (faults self.new) }
        ensures cause { result ≡ false → Rose (faults self.old) (faults self.new) };

    /// The next link that comes.
    fn accept(&mut self) -> Accepted<Self::Link>
        ensures link { Accepts (wire_of Self.Link.inbound Self.Link.written Self.Link.faults)
            (pool self.old) (pool self.new) result }
        ensures count { Counts (faults self.old) (faults self.new) }
        ensures cause { result ≡ Failed → Rose (faults self.old) (faults self.new) };

    /// Takes a used link back. It takes no memory.
    fn back(&mut self, link: Self::Link)
        requires { IfSome (pool self.old).lent (λ lent. 0 < lent) }
        ensures back { pool self.new
            ≡ taken_back (wire_of Self.Link.inbound Self.Link.written Self.Link.faults link)
            (pool self.old) }
        ensures count { faults self.new ≡ faults self.old };
}
