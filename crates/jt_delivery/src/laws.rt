//! The laws of the world of messages.

ghost use Rattle.jt_delivery.specs.Claim.{EachReachedIsKept, NoneReachedRenumbers, SomeFixIsDelivered};
ghost use Rattle.jt_delivery.specs.Parts.{EachReachedHasParts, EventsKeepIt, OneIsNamed, PartsFollow};

use jt_store::law_verdicts;

/// Before all events the rule stands, and each event that may come keeps it.
pub fn law_events()
    ensures { EventsKeepIt }
{
    law_verdicts();
}

/// Seven facts on counts, numbers, order, closeness, the fence, acceptances and their window follow from the rule, and hold of every
/// world that is reached. And an answer names one unit at most.
pub fn law_parts()
    ensures follow { PartsFollow }
    ensures reached { EachReachedHasParts }
    ensures one { OneIsNamed }
{
    law_verdicts();
}

/// In no world that is reached does an entry answer Renumbered.
pub fn law_replies()
    ensures { NoneReachedRenumbers }
{
    law_verdicts();
}

/// In every world that is reached the rows are the first units that were formed, each once and in order; their fixes are the first
/// that were recorded; and each unit whose acceptance the terminal received is among them.
pub fn law_kept_delivery()
    ensures kept { EachReachedIsKept }
{
    law_verdicts();
}

/// Worlds in which a fix was recorded, sent and stored, and its acceptance received and taken, are among those that are reached.
pub fn law_some_delivery()
    ensures { SomeFixIsDelivered }
{
    jt_position::law_fixes();
}
