//! Why a call on what keeps a store's rows gave up.

ghost use Rattle.std.specs.Prelude.{◌↔◌, IsTrue};

/// Why a call on what keeps a store's rows gave up.
pub trait Refusal {
    /// Memory was wanted and refused.
    ghost wants_memory: { Self → Type 0 };

    /// Whether memory was wanted and refused. Every other refusal is a fault.
    fn is_memory(&self) -> bool
        ensures exact { IsTrue result ↔ wants_memory self.now };
}
