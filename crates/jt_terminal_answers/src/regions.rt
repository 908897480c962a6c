//! Regions: changed by the platform.

ghost use Rattle.std.specs.Prelude.{◌≡◌, ◌++◌, IfOk, OnErr, OnOk};
ghost use Rattle.jt_value.specs.declared.limits.TheConstants.{WORD_COUNT_LIMIT};
ghost use Rattle.jt_regions.specs.Tables.{AtMost};
ghost use Rattle.jt_terminal_rule.specs.Messages.{AreSettings, BeginsWith};
ghost use Rattle.jt_terminal_rule.specs.Answers as table;
ghost use Rattle.jt_terminal_rule.specs.Rule as rule;
ghost use Rattle.jt_terminal_answers.specs.Answering.{AllOrNothing, ChangedIn, TookChange};

use crate::saying::respond;
use jt_header::Header;
use jt_regions::{RegionChange, RegionError, RegionTable};
use jt_terminal_rule::State;
use jt_value::results::{FAILURE, SUCCESS};
use jt_value::{Memory, Octets, Seq};
use std::alloc::Global;

// Whether a table took a change.
pub(crate) fn change_in(table: &mut RegionTable, change: &RegionChange) -> Result<bool, Memory>
    requires { AtMost WORD_COUNT_LIMIT change.now }
    ensures ok { IfOk result (λ taken. ChangedIn taken table.old change.now table.new) }
    ensures err { OnErr result (table.new ≡ table.old) }
{
    match table.apply(change) {
        Ok(()) => Ok(true),
        Err(RegionError::Memory) => Err(Memory),
        Err(_) => Ok(false),
    }
}

// Whether the table took the change.
fn take_change(state: &mut State, change: &RegionChange) -> Result<bool, Memory>
    requires { AtMost WORD_COUNT_LIMIT change.now }
    ensures ok { IfOk result (λ taken. TookChange taken state.old change.now state.new) }
    ensures err { OnErr result (state.new ≡ state.old) }
{
    change_in(&mut state.regions, change)
}

// Changes the regions, and responds.
pub(crate) fn change_regions(
    alloc: Global,
    state: &mut State,
    header: &Header,
    change: &RegionChange,
    out: &mut Seq<Octets>,
) -> Result<(), Memory>
    requires good { AreSettings state.old.settings }
    requires few { AtMost WORD_COUNT_LIMIT change.now }
    ensures state { OnOk result (state.new
        ≡ (rule.answers state.old (table.takes_change state.old header.now change.now)).state) }
    ensures out { OnOk result (out.new ≡ out.old ++ rule.sends state.old.settings
        (rule.answers state.old (table.takes_change state.old header.now change.now)).steps) }
    ensures err { OnErr result
        (AllOrNothing state.old (table.takes_change state.old header.now change.now) state.new) }
    ensures params { state.new.params ≡ state.old.params }
    ensures kept { BeginsWith out.new out.old }
{
    if take_change(state, change)? {
        return respond(alloc, state, header, SUCCESS, out);
    }
    respond(alloc, state, header, FAILURE, out)
}
