//! The laws of the calls of an order session in the world of orders, each with nothing to run.

ghost use Rattle.jt_order_session_steps.specs.Steps.{ClosesAreSteps, EachLineIsNoted, FeedsAreSteps, NewSessionsStand, OffersAreSteps, SessionsStandOn};

use jt_order_session::law_of_responses;
use jt_stream::{law_front, law_one_octet};

/// A new session stands in the world behind the step that opens its line, and its end is open; and one that stands in a world does so behind
/// each step that is none of its own, with its end open if it was, until the platform starts anew. Of each line of a world that is reached
/// it is noted what was sent last on it.
pub fn law_session_stands()
    ensures noted { EachLineIsNoted }
    ensures begins { NewSessionsStand }
    ensures goes_on { SessionsStandOn }
{}

/// What `OrderSession::offer` says that it did is a list of steps of every world in which the session stands and its end is open: none, or
/// that it offers.
pub fn law_session_offers()
    ensures { OffersAreSteps }
{}

/// What `OrderSession::feed` says that it did, over the next octets of a line, is a list of steps of every world in which the session
/// stands and its end is open: one for each octet that it took, up to the item that ended it where one did, and then those of an offer.
/// Where the book was told of all, no step says that it failed.
pub fn law_session_feeds()
    ensures { FeedsAreSteps }
{
    law_front();
    law_one_octet();
    law_of_responses();
}

/// What `OrderSession::close` says that it did is the step of a line that is cut, of every world in which the session stands and its end
/// is open.
pub fn law_session_closes()
    ensures { ClosesAreSteps }
{}
