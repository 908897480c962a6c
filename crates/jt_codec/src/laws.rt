//! Laws of bodies and frames. Each is a function that does nothing, whose contract is the law.

ghost use Rattle.jt_codec.specs.Law.{AckOctets, AreOneToOne, AreUnderTheirIds, IsMessageRead, IsNeverBoth, IsOneFrame, IsOneOrTheOther, IsOneRefusal, IsParsedFrame, IsParsedRefusal, IsRefusalRead};

use jt_header::law_of_contents;

/// Under each id and in each edition, octets have exactly one message or exactly one reason; two messages have the same
/// octets only if they are equal; and a message fits under its own id alone.
pub fn law_of_bodies()
    ensures one_to_one { AreOneToOne }
    ensures ids { AreUnderTheirIds }
{}

/// A general response has five octets in either edition: the serial and the id of what it answers, and the result.
pub fn law_of_acks()
    ensures { AckOctets }
{}

/// Octets are the content of one frame, of one header and one message, or they have one reason, and never both. Reading as a
/// function, of a content and of the octets behind any header, gives exactly these.
pub fn law_of_frames()
    ensures one_or_the_other { IsOneOrTheOther }
    ensures never_both { IsNeverBoth }
    ensures one_frame { IsOneFrame }
    ensures one_refusal { IsOneRefusal }
    ensures parsed_frame { IsParsedFrame }
    ensures parsed_refusal { IsParsedRefusal }
    ensures message_read { IsMessageRead }
    ensures refusal_read { IsRefusalRead }
{
    law_of_contents();
}
