//! What the regions of every kind have.

ghost use Rattle.std.specs.Prelude.{◌≡◌, ℕ};

use jt_region_bodies::{Circle, Polygon, Rectangle, Route};

/// A region with an id of its own among those of its kind.
pub trait Identified: Clone + Drop {
    ghost id_of: { Self → ℕ };

    fn id(&self) -> u32
        ensures { result ≡ id_of self.now };

    // A copy is the region again.
    ghost copied: { (region clone : Self) → Self.is_clone region clone → clone ≡ region };
}

impl Identified for Circle {
    ghost id_of = { λ circle. circle.id };

    fn id(&self) -> u32 {
        self.id
    }

    ghost copied = { λ region clone same. same };
}

impl Identified for Rectangle {
    ghost id_of = { λ rectangle. rectangle.id };

    fn id(&self) -> u32 {
        self.id
    }

    ghost copied = { λ region clone same. same };
}

impl Identified for Polygon {
    ghost id_of = { λ polygon. polygon.id };

    fn id(&self) -> u32 {
        self.id
    }

    ghost copied = { λ region clone same. same };
}

impl Identified for Route {
    ghost id_of = { λ route. route.id };

    fn id(&self) -> u32 {
        self.id
    }

    ghost copied = { λ region clone same. same };
}
