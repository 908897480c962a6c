//! Messages of the platform, performed over tables alone.

ghost use Rattle.std.specs.Prelude.{◌≡◌, ◌≤◌, IfOk, OnErr, length};
ghost use Rattle.jt_value.specs.declared.limits.TheConstants.{OCTET_COUNT_LIMIT, WORD_COUNT_LIMIT};
ghost use Rattle.jt_value.specs.declared.phone.Edition.{Edition};
ghost use Rattle.jt_params.specs.Tables.{HasOctets, HaveOctets, Table};
ghost use Rattle.jt_regions.specs.Tables.{AtMost, Regions};
ghost use Rattle.jt_codec.specs.Bodies.{Fits};
ghost use Rattle.jt_terminal_answers.specs.Performing.{message_outcome, tables, with_change, with_params};
ghost use Rattle.jt_terminal_rule.specs.Tables.{params_after};

use crate::changes::{circles, deletion, polygon, rectangles, route};
use crate::params::set_in;
use crate::regions::change_in;
use jt_codec::Message;
use jt_params::{Param, ParamTable};
use jt_regions::{RegionChange, RegionTable};
use jt_value::results::{FAILURE, NOT_SUPPORTED, SUCCESS};
use jt_value::{Memory, Seq};
use std::alloc::Global;

fn set_params(table: &mut ParamTable, params: &Seq<Param>) -> Result<u8, Memory>
    requires { length params.now ≤ OCTET_COUNT_LIMIT }
    ensures ok { IfOk result (λ outcome. (regions : Regions) → (outcome, tables table.new regions)
        ≡ with_params (tables table.old regions) (params_after params.now table.old)) }
    ensures err { OnErr result (table.new ≡ table.old) }
    ensures octets { HaveOctets params.now → HasOctets table.old → HasOctets table.new }
{
    if set_in(table, params)? {
        return Ok(SUCCESS);
    }
    Ok(FAILURE)
}

fn change_regions(table: &mut RegionTable, change: &RegionChange) -> Result<u8, Memory>
    requires { AtMost WORD_COUNT_LIMIT change.now }
    ensures ok { IfOk result (λ outcome. (params : Table) → (outcome, tables params table.new)
        ≡ with_change (tables params table.old) change.now) }
    ensures err { OnErr result (table.new ≡ table.old) }
{
    if change_in(table, change)? {
        return Ok(SUCCESS);
    }
    Ok(FAILURE)
}

/// Performs a message, of an edition in which it can be written, over these tables as a terminal does that is let in. Answers
/// the result of its general response: 0 success, 1 where a table does not take what it brings, 3 not supported (the standard's
/// results; which messages are performed is this project's own). After want of memory both tables are as before.
pub fn perform(
    alloc: Global,
    params: &mut ParamTable,
    regions: &mut RegionTable,
    message: &Message,
) -> Result<u8, Memory>
    requires fits { (edition : Edition) × Fits edition message.now }
    ensures ok { IfOk result (λ outcome. (outcome, tables params.new regions.new)
        ≡ message_outcome (tables params.old regions.old) message.now) }
    ensures err { OnErr result ((params.new ≡ params.old) × (regions.new ≡ regions.old)) }
    ensures octets { HasOctets params.old → HasOctets params.new }
{
    match message {
        Message::SetParams(list) => set_params(params, list),
        Message::Text { .. } => Ok(SUCCESS),
        Message::Circles { setting, list } => {
            let change = circles(alloc, *setting, list)?;
            change_regions(regions, &change)
        }
        Message::Rectangles { setting, list } => {
            let change = rectangles(alloc, *setting, list)?;
            change_regions(regions, &change)
        }
        Message::Polygon(region) => {
            let change = polygon(region)?;
            change_regions(regions, &change)
        }
        Message::Route(region) => {
            let change = route(region)?;
            change_regions(regions, &change)
        }
        Message::Delete { kind, ids } => {
            let change = deletion(alloc, *kind, ids)?;
            change_regions(regions, &change)
        }
        _ => Ok(NOT_SUPPORTED),
    }
}
