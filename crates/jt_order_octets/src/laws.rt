//! The law of the world of orders over octets.

ghost use Rattle.jt_order_octets.specs.Claim.{EachIsSentInTurn, EachIssuedIsOrder, EachItemIsOfThePhone, EachReachedIsObeyed, EachReachedIsOfThePhone, NoneIsRefused, AtMostOneIsAhead};

/// In every world that is reached the orders performed are the first of those issued, each once and in order; what was answered was
/// performed, with the results of the log; what was issued are orders; the terminal responded to none with 1 for its serial alone; and
/// an order is sent only once all before it are answered, and at most one is performed and not yet answered. What the hub was asked is
/// of the terminal's phone, and so is each frame that a session is about to take.
pub fn law_order_world()
    ensures obeyed { EachReachedIsObeyed }
    ensures none_refused { NoneIsRefused }
    ensures issued { EachIssuedIsOrder }
    ensures in_turn { EachIsSentInTurn }
    ensures one { AtMostOneIsAhead }
    ensures phone { EachReachedIsOfThePhone }
    ensures items { EachItemIsOfThePhone }
{
    jt_obeying::law_events();
    jt_order_turns::law_turns();
    jt_order_turns::law_frames();
    jt_header::law_of_contents();
    jt_stream::law_front();
    jt_stream::law_one_octet();
    jt_stream::law_frames();
    jt_position::law_fixes();
    jt_codec::law_of_acks();
    jt_subpacket::law_of_packets();
    jt_session::law_of_answers();
}
