//! The law of an order terminal in a world of orders.

ghost use Rattle.jt_order_play.specs.Holding.{ReadingLaws};
ghost use Rattle.jt_order_terminal_steps.specs.Claim.{EventIsSteps, FailedEventIsSteps, FailedFeedIsSteps, FeedIsSteps, FirstStartStands, StartIsAStep, TerminalStandsOn};

use jt_header::law_of_contents;
use jt_order_octets::law_order_world;
use jt_order_turns::law_turns;
use jt_stream::{law_front, law_items, law_one_list, law_one_octet};
use jt_terminal_rule::law_rule;

// What reading an octet rests on.
pub(crate) fn law_reading()
    ensures { ReadingLaws }
{
    law_rule();
    law_of_contents();
    law_front();
    law_one_octet();
    jt_stream::law_frames();
    law_one_list();
    law_items();
    jt_order_turns::law_frames();
    law_turns();
    law_order_world();
}

/// Where an order terminal stands in a world of orders, what each of its calls does is a list of the terminal's own steps of that world:
/// an event, done whole or in part, a start over what vault and log hold, and octets that are the next on its line, in any number, fed
/// whole or in part. Behind it the terminal stands in the world to which they lead. One that is new stands in the world in which nothing
/// has happened, and one that stands in a world stands in the one behind each step of the platform too.
pub fn law_order_terminal()
    ensures first { FirstStartStands }
    ensures start { StartIsAStep }
    ensures event { EventIsSteps }
    ensures failed_event { FailedEventIsSteps }
    ensures feed { FeedIsSteps }
    ensures failed_feed { FailedFeedIsSteps }
    ensures goes_on { TerminalStandsOn }
{
    law_rule();
    law_reading();
}
