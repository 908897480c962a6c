//! What every position has.

ghost use Rattle.std.specs.Prelude.{◌≡◌, ◌++◌, length, IsTrue, OnOk};
ghost use Rattle.std.specs.Io.{StartsWith};
ghost use Rattle.jt_layout.specs.Reading.{Finds};
ghost use Rattle.jt_position.specs.Positions.{fixed};

use jt_layout::{Reader, Writer, octets_fit};
use jt_value::{Memory, Refusal};

/// The fixed fields of a position (the standard's message body of a position report).
#[derive(Clone, Copy, Debug, PartialEq, Eq)]
pub struct Fixed {
    pub alarm: u32,
    pub status: u32,
    /// Latitude in millionths of a degree.
    pub lat: u32,
    /// Longitude in millionths of a degree.
    pub lon: u32,
    /// Altitude in metres.
    pub altitude: u16,
    /// Speed in tenths of a kilometre an hour.
    pub speed: u16,
    /// Direction in degrees, clockwise from north.
    pub direction: u16,
    /// The digits YYMMDDhhmmss in GMT+8, two an octet. Every octet is accepted.
    pub time: [u8; 6],
}

impl Fixed {
    ghost use Rattle.jt_position.specs.Positions.{fixed};

    // Every value fits.
    #[tactic(auto, unfolding(crate::specs::Positions::fixed, jt_layout::specs::Layout::number, jt_layout::specs::Layout::octets_of))]
    pub(crate) fn fits(&self) -> bool
        ensures result { IsTrue result }
        ensures fits { fixed.Fits self.now }
        ensures count { length (fixed.spell self.now) ≡ 28 }
    {
        let Fixed {
            alarm: _alarm,
            status: _status,
            lat: _lat,
            lon: _lon,
            altitude: _altitude,
            speed: _speed,
            direction: _direction,
            time,
        } = *self;
        octets_fit(&time, 6)
    }

    #[inline(always)]
    #[tactic(auto, unfolding(crate::specs::Positions::fixed))]
    pub(crate) fn read(reader: &mut Reader<'_>) -> Result<Fixed, Refusal>
        ensures value { Finds (λ read. (read, reader.new.place)) result
            (fixed.read reader.old.octets reader.old.place) }
        ensures octets { reader.new.octets ≡ reader.old.octets }
    {
        let alarm = reader.dword()?;
        let status = reader.dword()?;
        let lat = reader.dword()?;
        let lon = reader.dword()?;
        let altitude = reader.word()?;
        let speed = reader.word()?;
        let direction = reader.word()?;
        let mut time = [0; 6];
        time.copy_from_slice(reader.slice(6)?);
        Ok(Fixed {
            alarm,
            status,
            lat,
            lon,
            altitude,
            speed,
            direction,
            time,
        })
    }

    pub(crate) fn write(&self, writer: &mut Writer) -> Result<(), Memory>
        ensures octets { OnOk result (writer.new ≡ writer.old ++ fixed.spell self.now) }
        ensures kept { StartsWith writer.new writer.old }
    {
        writer.dword(self.alarm)?;
        writer.dword(self.status)?;
        writer.dword(self.lat)?;
        writer.dword(self.lon)?;
        writer.word(self.altitude)?;
        writer.word(self.speed)?;
        writer.word(self.direction)?;
        writer.octets(&self.time)?;
        Ok(())
    }
}
