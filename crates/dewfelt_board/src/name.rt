//! Plates and terminal ids.

ghost use Rattle.std.specs.Prelude.{◌≡◌, ◌≤◌, ◌<◌, ◌↔◌, IsTrue, length, take, min};

/// So many octets of a plate or of a terminal's id are kept (this project's own).
pub const NAME_ROOM: usize = 64;

/// A plate or a terminal's id, of which the first 64 octets are kept in place.
#[derive(Clone, Copy)]
pub struct Name {
    pub octets: [u8; NAME_ROOM],
    /// How many of the octets are the name's.
    pub count: u8,
    /// Whether the name has more octets than are kept.
    pub is_cut: bool,
    pub ghost within: { count ≤ 64 },
}

impl Name {
    /// The name of these octets.
    pub fn of(octets: &[u8]) -> Name
        ensures kept { take result.count result.octets ≡ take result.count octets.now }
        ensures count { result.count ≡ min (length octets.now) 64 }
        ensures cut { IsTrue result.is_cut ↔ (64 < length octets.now) }
    {
        let count = octets.len().min(NAME_ROOM);
        let mut kept = [0; NAME_ROOM];
        kept[..count].copy_from_slice(&octets[..count]);
        Name {
            octets: kept,
            count: count as u8,
            is_cut: octets.len() > NAME_ROOM,
        }
    }

    /// Whether it is the name of these octets, as far as they are kept.
    pub fn is(&self, octets: &[u8]) -> bool {
        let other = Name::of(octets);
        self.is_cut == other.is_cut && self.as_slice() == other.as_slice()
    }

    /// The octets that are kept.
    pub fn as_slice(&self) -> &[u8]
        ensures { result.now ≡ take self.now.count self.now.octets }
    {
        &self.octets[..self.count as usize]
    }
}
