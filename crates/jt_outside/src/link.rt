//! Links: what octets come from and go to at once.

ghost use Rattle.std.specs.Prelude.{◌≡◌, ◌<◌, length};
ghost use Rattle.jt_outside.specs.Link.{Reads, ReadHasCause, wire_of};

use crate::Sink;

/// What a read of a link gave.
#[derive(Clone, Copy, Debug, PartialEq, Eq)]
pub enum LinkGot {
    /// So many octets, from 1 to the buffer's length, at the buffer's front.
    Bytes(usize),
    /// No octet came in the time that the link waits.
    Quiet,
    /// No octet is left.
    End,
    /// The link failed. It gave no octet, and its count of faults rose.
    Failed,
}

/// A sink that can be read, with one count of faults for reads and writes.
pub trait Link: Sink {
    /// Reads into the front of a buffer that has room. Past the octets that were given the buffer holds anything.
    fn read(&mut self, buf: &mut [u8]) -> LinkGot
        requires { 0 < length buf.old }
        ensures octets { Reads (Self.inbound self.old) (Self.inbound self.new) result buf.new }
        ensures cause { ReadHasCause (Self.faults self.old) (Self.faults self.new)
            (Self.inbound self.old) (Self.inbound self.new) result }
        ensures written { Self.written self.new ≡ Self.written self.old };

    /// Ends the connection that the link stands for, where there is one; nothing is read or written behind it. What the link tells
    /// stays as it was. It takes no memory.
    fn hang_up(&mut self)
        ensures kept { wire_of Self.inbound Self.written Self.faults self.new
            ≡ wire_of Self.inbound Self.written Self.faults self.old }
    {}
}
