//! Fields of a body, written one after the other.

ghost use Rattle.std.specs.Prelude.{◌≡◌, [], ◌++◌, OnOk, OnErr};
ghost use Rattle.jt_layout.specs.Layout.{byte, word, dword};

use jt_value::{Memory, Octets};
use std::alloc::Global;
use std::marker::Model;

/// The octets of a body that are written so far.
#[derive(Drop)]
pub struct Writer {
    octets: Vec<u8>,
}

impl Model for Writer {
    ghost use Rattle.std.specs.Prelude.{ℕ, List};

    ghost Value = { List ℕ };

    ghost view = { λ writer. writer.octets.items };
}

impl Writer {
    /// A writer of no octets yet.
    pub fn new(alloc: Global) -> Writer
        ensures { result ≡ [] }
    {
        Writer {
            octets: Vec::new(alloc),
        }
    }

    /// Writes one octet.
    #[tactic(auto, unfolding(crate::specs::Layout::number))]
    pub fn byte(&mut self, number: u8) -> Result<(), Memory>
        ensures ok { OnOk result (self.new ≡ self.old ++ byte.spell number) }
        ensures err { OnErr result (self.new ≡ self.old) }
    {
        self.octets.push(number)?;
        Ok(())
    }

    /// Writes a number in two octets.
    #[tactic(auto, unfolding(crate::specs::Layout::number))]
    pub fn word(&mut self, number: u16) -> Result<(), Memory>
        ensures ok { OnOk result (self.new ≡ self.old ++ word.spell number) }
        ensures err { OnErr result (self.new ≡ self.old) }
    {
        self.octets.extend_from_slice(&number.to_be_bytes())?;
        Ok(())
    }

    /// Writes a number in four octets.
    #[tactic(auto, unfolding(crate::specs::Layout::number))]
    pub fn dword(&mut self, number: u32) -> Result<(), Memory>
        ensures ok { OnOk result (self.new ≡ self.old ++ dword.spell number) }
        ensures err { OnErr result (self.new ≡ self.old) }
    {
        self.octets.extend_from_slice(&number.to_be_bytes())?;
        Ok(())
    }

    /// Writes octets as they are.
    pub fn octets(&mut self, octets: &[u8]) -> Result<(), Memory>
        ensures ok { OnOk result (self.new ≡ self.old ++ octets.now) }
        ensures err { OnErr result (self.new ≡ self.old) }
    {
        self.octets.extend_from_slice(octets)?;
        Ok(())
    }

    /// The octets that were written, with no memory taken.
    pub fn finish(self) -> Octets
        ensures { result ≡ self }
    {
        let Writer { octets } = self;
        Octets::from_vec(octets)
    }
}
