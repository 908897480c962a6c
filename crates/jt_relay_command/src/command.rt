//! The command `relay`.

ghost use Rattle.std.specs.Prelude.{◌≡◌, ◌≢◌, ◌⊎◌, false};
ghost use Rattle.jt_value.specs.Counts.{Rose};
ghost use Rattle.jt_input.specs.Answer.{AnswersReply, CutsShort};
ghost use Rattle.jt_relay_command.specs.Replies.{relay_reply};
ghost use Rattle.jt_relay_command.specs.Running.{RunsRelay, scene_of};

use crate::printing::{push_outcome, status_of};
use jt_input::{Status, write_reply};
use jt_outside::Sink;
use jt_relay::{RelayError, Relayed, relay_rows};
use jt_store::{Keeper, Vault};
use jt_value::Phone;
use std::alloc::Global;

// Writes what a relay came to.
fn tell_outcome<K: Sink>(
    alloc: Global,
    sink: &mut K,
    outcome: &Result<Relayed, RelayError>,
) -> Status
    ensures answers { AnswersReply result (relay_reply outcome.now)
        (K.written sink.old) (K.written sink.new) }
    ensures status { (result ≡ (relay_reply outcome.now).status) ⊎ CutsShort result }
    ensures write_fault { result ≡ Status.WriteFault →
        Rose (K.faults sink.old) (K.faults sink.new) }
    ensures write_still { result ≢ Status.WriteFault → K.faults sink.new ≡ K.faults sink.old }
{
    let status = status_of(outcome);
    if status == Status::Memory {
        return status;
    }
    let mut text = String::new(alloc);
    match push_outcome(&mut text, outcome) {
        Ok(()) => write_reply(sink, text.as_bytes(), status),
        Err(_) => Status::Memory,
    }
}

/// Records in the vault the fixes of the phone's rows, in order, behind as many as the vault has recorded, and writes a line of
/// what came of it.
///
/// The keeper's tables stay as they are. Of the vault the recorded fixes grow, and nothing else changes. A second run goes on
/// where the first one stopped, also where that was killed, so long as nothing else records in the vault.
pub fn relay<K: Sink, P: Keeper, V: Vault>(
    alloc: Global,
    sink: &mut K,
    keeper: &mut P,
    vault: &mut V,
    phone: &Phone,
) -> Status
    ensures runs { RunsRelay phone.now
        (scene_of (P.tables keeper.old) (P.limit keeper.old) (P.faults keeper.old)
        (V.holds vault.old) (V.limit vault.old) (V.faults vault.old))
        (scene_of (P.tables keeper.new) (P.limit keeper.new) (P.faults keeper.new)
        (V.holds vault.new) (V.limit vault.new) (V.faults vault.new))
        (K.written sink.old) (K.written sink.new) result }
    // Where no call of a store may fail none may later.
    ensures keeper_steady { P.may_fail keeper.old ≡ false → P.may_fail keeper.new ≡ false }
    ensures vault_steady { V.may_fail vault.old ≡ false → V.may_fail vault.new ≡ false }
    // Why a run ends so; of a store the record says it. Every status but WriteFault, so Memory too, comes only where
    // the sink's count of faults stood still.
    ensures write_fault { result ≡ Status.WriteFault →
        Rose (K.faults sink.old) (K.faults sink.new) }
    ensures write_still { result ≢ Status.WriteFault → K.faults sink.new ≡ K.faults sink.old }
    ensures no_read_fault { result ≢ Status.ReadFault }
    ensures no_net_fault { result ≢ Status.NetFault }
    ensures not_usage { result ≢ Status.Usage }
{
    let outcome = relay_rows(alloc, keeper, vault, phone);
    tell_outcome(alloc, sink, &outcome)
}
