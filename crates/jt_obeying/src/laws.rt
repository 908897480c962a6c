//! The laws of the world of orders.

ghost use Rattle.jt_obeying.specs.Claim.{EachIsSentInTurn, EachIssuedIsOrder, EachReachedIsObeyed};
ghost use Rattle.jt_obeying.specs.Claim.{EventsKeepIt, NoneIsRefused, OneIsUnderWay};
ghost use Rattle.jt_obeying.specs.Claim.{SomeOrderComesAgain, SomeOrderIsObeyed};
ghost use Rattle.jt_obeying.specs.Claim.{SomeOrderIsSentAgain, SomeOrderOutlastsAFault};
ghost use Rattle.jt_obeying.specs.Claim.{TwoOrdersAreObeyed};
ghost use Rattle.jt_obeying.specs.Performing.{EditionsLeaveTheSame, PerformsAsTheTerminal};

/// Before all events the rule stands, and each event that may come keeps it.
pub fn law_events()
    ensures { EventsKeepIt }
{}

/// In every world that is reached the orders performed are the first that were issued, each once and in order; what was answered was
/// performed, with the results of the log; what was issued are orders; and the terminal responded to none with 1 for its serial alone.
/// An order is sent only once all before it are answered, and one at most is under way on the line of the session that holds the phone.
pub fn law_obeyed()
    ensures obeyed { EachReachedIsObeyed }
    ensures issued { EachIssuedIsOrder }
    ensures none_refused { NoneIsRefused }
    ensures in_turn { EachIsSentInTurn }
    ensures under_way { OneIsUnderWay }
{}

/// Worlds in which an order was issued, performed and answered are among those that are reached, and worlds in which a second one was;
/// worlds in which it was lost with its line and sent again by a platform that had started again; and worlds in which it came twice
/// and was performed once: where memory or a store failed behind its commit, and where its answer was lost on a cut line and the
/// terminal had started again, in either edition.
pub fn law_some_order()
    ensures obeyed { SomeOrderIsObeyed }
    ensures two { TwoOrdersAreObeyed }
    ensures lost { SomeOrderIsSentAgain }
    ensures over_a_fault { SomeOrderOutlastsAFault }
    ensures again { SomeOrderComesAgain }
{}

/// Over the same tables an order has the result, and leaves the tables, that the terminal's answer to its message has and leaves; and
/// with result 0 it leaves the same tables in both editions.
pub fn law_performing()
    ensures terminal { PerformsAsTheTerminal }
    ensures editions { EditionsLeaveTheSame }
{}
