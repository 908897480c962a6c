//! The laws of packets that are joined.

ghost use Rattle.jt_subpacket.specs.Joining.{IsJoinedAgain, IsJoinedOnce, IsNamedByItsPackets};

/// The law of packets, with nothing to run: those of one message of at most 256 packets, in any order and with repeats, taken
/// by an assembler that keeps nothing of it, give the whole message at the first moment when all numbers are there, and not
/// before; then nothing of it is kept. A whole message has the id of its packets and the serial of packet 1, and what was
/// split is such a message.
pub fn law_of_packets()
    ensures joined { IsJoinedOnce }
    ensures named { IsNamedByItsPackets }
    ensures split { IsJoinedAgain }
{}
