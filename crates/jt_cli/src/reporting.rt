//! The command `report`, over all that a run has.

ghost use Rattle.std.specs.Prelude.{◌≡◌, ◌≢◌};
ghost use Rattle.jt_value.specs.Counts.{Rose};
ghost use Rattle.jt_report_command.specs.Telling.{values_in_words};
ghost use Rattle.jt_report_command.specs.ReportWords.{AreSpoken};
ghost use Rattle.jt_cli.specs.Running.{Reports, eyes_of};

use crate::outside::{Ended, Outside};
use jt_input::Status;
use jt_outside::{Clock, Dial, Sink, Source};
use jt_report_command::{ReportRun, ReportWords, report};
use jt_store::{Keeper, Vault};
use jt_value::Seq;
use std::alloc::Global;

/// Records the fixes of the source and reports them, and leaves all that `report` does not need as it is.
pub fn run_report<S: Source, K: Sink, D: Dial, L, C: Clock, P: Keeper, V: Vault>(
    alloc: Global,
    words: ReportWords,
    outside: Outside<S, K, D, L, C, P, V>,
) -> Ended<S, K, D, L, C, P, V>
    requires words { AreSpoken (values_in_words words) }
    ensures does { let eyes = eyes_of S.left K.written D.pool D.faults C.time
        P.tables P.limit P.faults V.holds V.limit V.faults V.may_fail in
        Reports eyes (values_in_words words) outside result }
    ensures read_fault { result.status ≡ Status.ReadFault →
        Rose (S.faults outside.source) (S.faults result.outside.source) }
    // Every other status, so Memory too, comes only where the count of faults stood still.
    ensures read_still { result.status ≢ Status.ReadFault →
        S.faults result.outside.source ≡ S.faults outside.source }
    ensures write_fault { result.status ≡ Status.WriteFault →
        Rose (K.faults outside.sink) (K.faults result.outside.sink) }
    ensures write_still { result.status ≢ Status.WriteFault →
        K.faults result.outside.sink ≡ K.faults outside.sink }
    ensures not_usage { result.status ≢ Status.Usage }
{
    let mut outside = outside;
    let vault = outside.vault;
    let ReportRun { status, vault } = report(
        alloc,
        &mut outside.source,
        &mut outside.sink,
        &mut outside.dial,
        &mut outside.clock,
        vault,
        words,
    );
    outside.vault = vault;
    Ended {
        status,
        outside,
        reports: Seq::new(alloc),
        history: Seq::new(alloc),
    }
}
