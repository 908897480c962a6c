//! The command `relay`, over all that a run has.

ghost use Rattle.std.specs.Prelude.{◌≡◌, ◌≢◌};
ghost use Rattle.jt_value.specs.Counts.{Rose};
ghost use Rattle.jt_cli.specs.Running.{PassesOn, eyes_of};

use crate::outside::{Ended, Outside};
use jt_input::Status;
use jt_outside::{Clock, Dial, Sink, Source};
use jt_relay_command::{RelayWords, relay};
use jt_store::{Keeper, Vault};
use jt_value::Seq;
use std::alloc::Global;

/// Records the fixes of a phone's rows in the vault, and leaves all that `relay` does not need as it is.
pub fn run_relay<S: Source, K: Sink, D: Dial, L, C: Clock, P: Keeper, V: Vault>(
    alloc: Global,
    words: RelayWords,
    outside: Outside<S, K, D, L, C, P, V>,
) -> Ended<S, K, D, L, C, P, V>
    ensures does { let eyes = eyes_of S.left K.written D.pool D.faults C.time
        P.tables P.limit P.faults V.holds V.limit V.faults V.may_fail in
        PassesOn eyes words.phone outside result }
    ensures read_fault { result.status ≡ Status.ReadFault →
        Rose (S.faults outside.source) (S.faults result.outside.source) }
    // Every other status, so Memory too, comes only where the count of faults stood still.
    ensures read_still { result.status ≢ Status.ReadFault →
        S.faults result.outside.source ≡ S.faults outside.source }
    ensures write_fault { result.status ≡ Status.WriteFault →
        Rose (K.faults outside.sink) (K.faults result.outside.sink) }
    ensures write_still { result.status ≢ Status.WriteFault →
        K.faults result.outside.sink ≡ K.faults outside.sink }
    ensures not_usage { result.status ≢ Status.Usage }
{
    let mut outside = outside;
    let status = relay(
        alloc,
        &mut outside.sink,
        &mut outside.keeper,
        &mut outside.vault,
        &words.phone,
    );
    Ended {
        status,
        outside,
        reports: Seq::new(alloc),
        history: Seq::new(alloc),
    }
}
