//! A listener that was lent, as a value: so contracts know what became of it in a scope of threads.

ghost use Rattle.std.specs.Prelude.{◌≡◌, ℕ};
ghost use Rattle.jt_value.specs.Counts.{Counts, Rose};
ghost use Rattle.jt_outside.specs.Accepted.{Accepts};
ghost use Rattle.jt_outside.specs.Link.{wire_of};
ghost use Rattle.jt_outside.specs.Pool.{Pool};
ghost use Rattle.jt_outside.specs.declared.listen.Accepted.TheVariants.{Failed};

use jt_outside::{Accepted, Link, Listen};

/// Who links are accepted from.
pub(crate) trait Door {
    type Link: Link + Drop;

    /// The links to come and those that came back, where it tells them, and how many are out.
    ghost pool: { Self → Pool };

    /// How many of its calls failed.
    ghost faults: { Self → ℕ };

    /// Whose value it is, which no call changes.
    ghost name: { Self → ℕ };

    fn accept(&mut self) -> Accepted<Self::Link>
        ensures link { Accepts (wire_of Self.Link.inbound Self.Link.written Self.Link.faults)
            (pool self.old) (pool self.new) result }
        ensures count { Counts (faults self.old) (faults self.new) }
        ensures cause { result ≡ Failed → Rose (faults self.old) (faults self.new) }
        ensures name { name self.new ≡ name self.old };
}

#[derive(Drop)]
pub(crate) struct Held<'a, L> {
    pub(crate) listen: &'a mut L,
}

impl<'a, L: Listen> Door for Held<'a, L> {
    type Link = L::Link;

    ghost pool = { λ held. L.pool held.listen.now };

    ghost faults = { λ held. L.faults held.listen.now };

    ghost name = { λ held. held.listen.ghost_name };

    fn accept(&mut self) -> Accepted<L::Link> {
        self.listen.accept()
    }
}
