//! What layers above may know of histories and replies.

ghost use Rattle.jt_platform.specs.Laws.{HistoriesTell, UnitsTell, AnswersTell};

use jt_store::law_verdicts;
use jt_value::law_serials;

/// The laws of histories: a session that is live for a phone has a holder, who holds after one more entry, and what a keeper
/// that has something for one phone alone has after a history of that phone.
pub fn law_histories()
    ensures { HistoriesTell }
{}

/// The laws of a unit of the holder's live session: it is stored, or was before, where the limit is not reached; and within the
/// window of serials, which reply it is.
pub fn law_units()
    ensures { UnitsTell }
{
    law_verdicts();
}

/// A reply that a history allows over tables that are told is the one that the function `answer` gives.
pub fn law_answers()
    ensures { AnswersTell }
{
    law_serials();
}
