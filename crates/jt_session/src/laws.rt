//! The laws of talks and of answers.

ghost use Rattle.jt_session.specs.AnswerLaw.{AnswersAre, RequestsAre};
ghost use Rattle.jt_session.specs.Law.{IsAcceptedOnceStored, IsOneTalk};
ghost use Rattle.jt_session.specs.TurnLaw.{FeedsGoOn, TurnsGoOn};

use jt_codec::{law_of_acks, law_of_bodies};
use jt_stream::{law_frames, law_front};
use jt_subpacket::law_of_packets;

/// The law of talks, with nothing to run: what a session read, with the replies that it was given and the item at which memory
/// was wanted, if it was, has one list of requests with their replies, and one list of octets written.
pub fn law_of_talks()
    ensures { IsOneTalk }
{}

/// The law of answers to units, with nothing to run: a unit is answered with result 0 once its row stands, and at any other reply
/// with no result that a terminal takes for its acceptance.
pub fn law_of_acceptances()
    ensures { IsAcceptedOnceStored }
{}

/// The law of turns, with nothing to run: turns behind turns are the turns of both, octets behind the item that ended a session
/// change nothing, and the turns of a new session are a talk.
pub fn law_of_turns()
    ensures { TurnsGoOn }
{
    law_front();
    law_frames();
}

/// The law of feeding, with nothing to run: octets fed behind others are fed as both at once, and octets behind the item that ended a
/// session change nothing.
pub fn law_of_feeds()
    ensures { FeedsGoOn }
{
    law_front();
}

/// The law of requests, with nothing to run: what a frame may ask, by its id, and always of its own phone; and a unit in one
/// piece whose body has a fix asks exactly its Unit.
pub fn law_of_requests()
    ensures { RequestsAre }
{
    law_of_bodies();
    law_of_packets();
}

/// The law of answers, with nothing to run: each message that is written is one that a frame can have, to the phone of the frame
/// that it answers; an accepted authentication and a unit that stands in a row are told so; and at no other reply that a hub's
/// history allows, and where nothing was asked, are they told of success.
pub fn law_of_answers()
    ensures { AnswersAre }
{
    law_of_acks();
}
