//! The laws of one item of a line, as an event of the world of orders.

ghost use Rattle.jt_order_turns.specs.Frames.{FramesAreSeen, ResponsesName};
ghost use Rattle.jt_order_turns.specs.Turns.{AnswersAreCarried, AnswersAreTold, TurnsAreSteps};
ghost use Rattle.jt_order_turns.specs.Turns.{ResponsesNameNoOrder, WritesNoOrder};

use jt_codec::{law_of_acks, law_of_bodies};
use jt_obeying::law_performing;

/// A session writes no order by itself. Where it takes the next message of its line, its turn is an event that may come; and whether the
/// book is to be told is seen of the frame. The answer to an order, as a terminal writes it, is such a message, and a general response
/// that names a message which is no order names none.
pub fn law_turns()
    ensures writes { WritesNoOrder }
    ensures steps { TurnsAreSteps }
    ensures told { AnswersAreTold }
    ensures carried { AnswersAreCarried }
    ensures others { ResponsesNameNoOrder }
{
    law_of_acks();
    law_of_bodies();
}

/// What a terminal sees of an order's frame is what the world says of the order; and a general response of its own names the message
/// that it answers, with a result of one octet.
pub fn law_frames()
    ensures seen { FramesAreSeen }
    ensures responses { ResponsesName }
{
    law_performing();
}
