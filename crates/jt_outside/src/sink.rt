//! Sinks of octets.

ghost use Rattle.std.specs.Prelude.{◌≡◌, ◌<◌, ◌≤◌, List, ℕ, Option, length, take};
ghost use Rattle.std.specs.Io.KnownBytes.{Appends};
ghost use Rattle.jt_value.specs.Counts.{Counts, Rose};
ghost use Rattle.jt_outside.specs.Inbound.{Inbound, unread};
ghost use Rattle.jt_outside.specs.Sink.{TakesOctets, WriteHasCause, WritesAll, WriteAllHasCause};

/// What a write took.
#[derive(Clone, Copy, Debug, PartialEq, Eq)]
pub enum Put {
    /// So many octets, from 1 to the buffer's length, from the buffer's front.
    Count(usize),
    /// The sink failed. It took no octet, and its count of faults rose.
    Failed,
}

/// Where octets go to.
pub trait Sink {
    /// The octets that it has taken, where it tells them.
    ghost written: { Self → Option (List ℕ) };

    /// How many of its calls failed. The count rises at no other call, never falls, and stays at 2^64 - 1 once it is there
    /// (this project's rule).
    ghost faults: { Self → ℕ };

    /// Of a sink that can be read too, as a link can, what reads gave and will give. No write changes it.
    ghost inbound: { Self → Inbound } = { λ _. unread };

    /// Writes from the front of a buffer that is not empty.
    fn write(&mut self, buf: &[u8]) -> Put
        requires { 0 < length buf.now }
        ensures octets { TakesOctets (written self.old) (written self.new) result buf.now }
        ensures cause { WriteHasCause (faults self.old) (faults self.new) result }
        ensures inbound { inbound self.new ≡ inbound self.old };
}

/// Writes the octets, in as many writes as it takes, and answers how many were written. Fewer than all come only where a
/// write failed, so the sink's count of faults rose.
pub fn write_front<K: Sink>(sink: &mut K, octets: &[u8]) -> usize
    ensures within { result ≤ length octets.now }
    ensures octets { Appends (K.written sink.old) (K.written sink.new) (take result octets.now) }
    ensures count { Counts (K.faults sink.old) (K.faults sink.new) }
    ensures cause { result < length octets.now → Rose (K.faults sink.old) (K.faults sink.new) }
    ensures still { result ≡ length octets.now → K.faults sink.new ≡ K.faults sink.old }
    ensures inbound { K.inbound sink.new ≡ K.inbound sink.old }
{
    let mut done = 0;
    while done < octets.len() {
        match sink.write(&octets[done..]) {
            Put::Count(count) => done += count,
            Put::Failed => return done,
        }
    }
    done
}

/// Writes all the octets, in as many writes as it takes. False comes only where a write failed, so the sink's count of
/// faults rose; then a prefix of them is written.
pub fn write_all<K: Sink>(sink: &mut K, octets: &[u8]) -> bool
    ensures octets { WritesAll (K.written sink.old) (K.written sink.new) result octets.now }
    ensures cause { WriteAllHasCause (K.faults sink.old) (K.faults sink.new) result }
    ensures inbound { K.inbound sink.new ≡ K.inbound sink.old }
{
    write_front(sink, octets) == octets.len()
}
