//! What an order terminal does at the items of its line.

ghost use Rattle.std.specs.Prelude.{◌≡◌, ◌≢◌, ◌≤◌, ◌<◌, ◌+◌, ◌^◌, ◌++◌, Err, Ok, Option, Some, true, false, length, take, IfOk, IsTrue, OnErr, OnOk};
ghost use Rattle.std.specs.Option.{option_to_list};
ghost use Rattle.jt_value.specs.declared.limits.TheConstants.{BODY_LIMIT};
ghost use Rattle.jt_header.specs.Content.{IsHeader};
ghost use Rattle.jt_codec.specs.Bodies.{Fits, HasBody, id_of};
ghost use Rattle.jt_order.specs.Orders.{is_order_id};
ghost use Rattle.jt_store.specs.Vaults.{Held};
ghost use Rattle.jt_terminal_rule.specs.declared.state.State.{State};
ghost use Rattle.jt_terminal_rule.specs.Rule as rule;
ghost use Rattle.jt_terminal_rule.specs.declared.state.Event.TheVariants.{Received};
ghost use Rattle.jt_terminal_steps.specs.AfterError.{AreSameParams};
ghost use Rattle.jt_terminal_steps.specs.Running.{CutShort, IsSame, holds_after};
ghost use Rattle.jt_terminal.specs.Feeding.{message_at};
ghost use Rattle.jt_order_terminal.specs.declared.fault.OrderFault.TheVariants as faults;
ghost use Rattle.jt_order_terminal.specs.Feeding.{HasBegun, HasDone, HasFed, HasFedFront, KeepsLedger, KeepsSound, WasCut, scene};
ghost use Rattle.jt_order_turns.specs.Heard.{heard_at, heard_in, heard_read};
ghost use Rattle.jt_order_terminal.specs.Terminals.{HasFaultCause, does_at};

use crate::fault::{OrderFault, fault_of};
use crate::ledger::Ledger;
use crate::obeying::obey;
use crate::saying::Said;
use jt_codec::{Message, law_of_bodies, read_body};
use jt_header::Header;
use jt_order::{OrderLog, is_order};
use jt_store::Vault;
use jt_stream::{Stream, StreamItem, law_items, law_one_list};
use jt_terminal::{Event, GiveUp, Terminal};
use jt_value::CodecError;
use std::alloc::Global;

// A message that is no order, which the wrapped terminal hears.
#[tactic(auto, using(crate::proofs::Doing::no_params))]
fn hear_other<V: Vault>(
    alloc: Global,
    terminal: &mut Terminal<V>,
    header: Header,
    message: Message,
    said: &mut Said,
) -> Result<Option<GiveUp>, OrderFault>
    requires fits { Fits header.edition message }
    requires id { id_of message ≡ Some header.id }
    requires other { is_order_id header.id ≡ false }
    ensures state { OnOk result (terminal.new.state
        ≡ (rule.rule terminal.old.state (Received header message)).state) }
    ensures vault { OnOk result (V.holds terminal.new.vault
        ≡ holds_after (rule.rule terminal.old.state (Received header message)).steps
        (V.holds terminal.old.vault)) }
    ensures frames { OnOk result (said.new.frames ≡ said.old.frames
        ++ rule.sends terminal.old.state.settings
        (rule.rule terminal.old.state (Received header message)).steps) }
    ensures told { OnOk result (said.new.told ≡ said.old.told ++ option_to_list
        (rule.named_place terminal.old.state (rule.response (Received header message)))) }
    ensures end { IfOk result (λ end.
        end ≡ (rule.rule terminal.old.state (Received header message)).end) }
    ensures cut { OnErr result (CutShort
        (rule.rule terminal.old.state (Received header message)).steps
        (V.holds terminal.old.vault) (V.holds terminal.new.vault)) }
    ensures same { IsSame terminal.old.state terminal.new.state }
    ensures sound { KeepsSound (V.holds terminal.old.vault) terminal.old.state
        (V.holds terminal.new.vault) terminal.new.state }
    ensures params { AreSameParams terminal.old.state terminal.new.state }
    ensures limit { V.limit terminal.new.vault ≡ V.limit terminal.old.vault }
    ensures never_log { result ≢ Err faults.Log }
    ensures cause { HasFaultCause faults.Vault
        (V.faults terminal.old.vault) (V.faults terminal.new.vault)
        (V.may_fail terminal.old.vault) (V.may_fail terminal.new.vault) result }
{
    match terminal.event(alloc, Event::Received(header, message)) {
        Ok(actions) => Ok(said.take(actions)?),
        Err(error) => Err(fault_of(error)),
    }
}

// An order, which is responded to by the three rules.
fn hear_order<G: OrderLog>(
    alloc: Global,
    log: &mut G,
    ledger: &mut Ledger,
    header: &Header,
    body: &[u8],
    message: &Message,
    said: &mut Said,
) -> Result<Option<GiveUp>, OrderFault>
    requires header { IsHeader header.now }
    requires order { is_order_id header.now.id ≡ true }
    requires short { length body.now ≤ BODY_LIMIT }
    requires body { HasBody header.now.edition header.now.id message.now body.now }
    requires fits { Fits header.now.edition message.now }
    ensures ok { (s : State) (held : Option Held) → IfOk result (λ end. HasDone
        (does_at s ledger.old (heard_read header.now body.now (Ok message.now)))
        (scene s ledger.old held (G.holds log.old) said.old)
        (scene s ledger.new held (G.holds log.new) said.new) end) }
    ensures err { (s : State) (held : Option Held) → OnErr result (HasBegun
        (does_at s ledger.old (heard_read header.now body.now (Ok message.now)))
        held held (G.holds log.old) (G.holds log.new)) }
    ensures keeps { KeepsLedger ledger.old ledger.new (G.holds log.old) (G.holds log.new) }
    ensures never_vault { result ≢ Err faults.Vault }
    ensures cause { HasFaultCause faults.Log (G.faults log.old) (G.faults log.new)
        (G.may_fail log.old) (G.may_fail log.new) result }
{
    obey(alloc, log, ledger, header, body, message, &mut said.frames)?;
    Ok(None)
}

// A message, which is an order or another one.
fn hear_message<V: Vault, G: OrderLog>(
    alloc: Global,
    terminal: &mut Terminal<V>,
    log: &mut G,
    ledger: &mut Ledger,
    header: &Header,
    body: &[u8],
    message: Message,
    said: &mut Said,
) -> Result<Option<GiveUp>, OrderFault>
    requires header { IsHeader header.now }
    requires short { length body.now ≤ BODY_LIMIT }
    requires body { HasBody header.now.edition header.now.id message body.now }
    requires fits { Fits header.now.edition message }
    requires id { id_of message ≡ Some header.now.id }
    ensures ok { IfOk result (λ end. HasDone (does_at terminal.old.state ledger.old
        (heard_read header.now body.now (Ok message)))
        (scene terminal.old.state ledger.old (V.holds terminal.old.vault) (G.holds log.old)
        said.old)
        (scene terminal.new.state ledger.new (V.holds terminal.new.vault) (G.holds log.new)
        said.new) end) }
    ensures err { OnErr result (HasBegun (does_at terminal.old.state ledger.old
        (heard_read header.now body.now (Ok message)))
        (V.holds terminal.old.vault) (V.holds terminal.new.vault)
        (G.holds log.old) (G.holds log.new)) }
    ensures keeps { KeepsLedger ledger.old ledger.new (G.holds log.old) (G.holds log.new) }
    ensures same { IsSame terminal.old.state terminal.new.state }
    ensures sound { KeepsSound (V.holds terminal.old.vault) terminal.old.state
        (V.holds terminal.new.vault) terminal.new.state }
    ensures params { AreSameParams terminal.old.state terminal.new.state }
    ensures limit { V.limit terminal.new.vault ≡ V.limit terminal.old.vault }
    ensures vault_cause { HasFaultCause faults.Vault
        (V.faults terminal.old.vault) (V.faults terminal.new.vault)
        (V.may_fail terminal.old.vault) (V.may_fail terminal.new.vault) result }
    ensures log_cause { HasFaultCause faults.Log (G.faults log.old) (G.faults log.new)
        (G.may_fail log.old) (G.may_fail log.new) result }
{
    if !is_order(header.id) {
        return hear_other(alloc, terminal, *header, message, said);
    }
    let heard = hear_order(alloc, log, ledger, header, body, &message, said);
    drop(message);
    heard
}

// A frame: a packet and a body that is refused are passed over. Answers why the line is given up, if it is.
fn hear_frame<V: Vault, G: OrderLog>(
    alloc: Global,
    terminal: &mut Terminal<V>,
    log: &mut G,
    ledger: &mut Ledger,
    header: &Header,
    body: &[u8],
    said: &mut Said,
) -> Result<Option<GiveUp>, OrderFault>
    requires header { IsHeader header.now }
    requires short { length body.now ≤ BODY_LIMIT }
    ensures ok { IfOk result (λ end. HasDone (does_at terminal.old.state ledger.old
        (heard_in header.now body.now header.now.packet))
        (scene terminal.old.state ledger.old (V.holds terminal.old.vault) (G.holds log.old)
        said.old)
        (scene terminal.new.state ledger.new (V.holds terminal.new.vault) (G.holds log.new)
        said.new) end) }
    ensures err { OnErr result (HasBegun (does_at terminal.old.state ledger.old
        (heard_in header.now body.now header.now.packet))
        (V.holds terminal.old.vault) (V.holds terminal.new.vault)
        (G.holds log.old) (G.holds log.new)) }
    ensures keeps { KeepsLedger ledger.old ledger.new (G.holds log.old) (G.holds log.new) }
    ensures same { IsSame terminal.old.state terminal.new.state }
    ensures sound { KeepsSound (V.holds terminal.old.vault) terminal.old.state
        (V.holds terminal.new.vault) terminal.new.state }
    ensures params { AreSameParams terminal.old.state terminal.new.state }
    ensures limit { V.limit terminal.new.vault ≡ V.limit terminal.old.vault }
    ensures vault_cause { HasFaultCause faults.Vault
        (V.faults terminal.old.vault) (V.faults terminal.new.vault)
        (V.may_fail terminal.old.vault) (V.may_fail terminal.new.vault) result }
    ensures log_cause { HasFaultCause faults.Log (G.faults log.old) (G.faults log.new)
        (G.may_fail log.old) (G.may_fail log.new) result }
{
    law_of_bodies();
    if header.packet.is_some() {
        return Ok(None);
    }
    match read_body(alloc, header.edition, header.id, body) {
        Ok(message) => hear_message(alloc, terminal, log, ledger, header, body, message, said),
        Err(CodecError::Refused(_)) => Ok(None),
        Err(CodecError::Memory) => Err(OrderFault::Memory),
    }
}

// The stream's last frame.
fn hear_last<V: Vault, G: OrderLog>(
    alloc: Global,
    terminal: &mut Terminal<V>,
    log: &mut G,
    ledger: &mut Ledger,
    stream: &Stream,
    said: &mut Said,
) -> Result<Option<GiveUp>, OrderFault>
    requires found { IsTrue stream.now.found }
    ensures ok { IfOk result (λ end. HasDone (does_at terminal.old.state ledger.old
        (heard_at (message_at stream.now.splitter.content)))
        (scene terminal.old.state ledger.old (V.holds terminal.old.vault) (G.holds log.old)
        said.old)
        (scene terminal.new.state ledger.new (V.holds terminal.new.vault) (G.holds log.new)
        said.new) end) }
    ensures err { OnErr result (HasBegun (does_at terminal.old.state ledger.old
        (heard_at (message_at stream.now.splitter.content)))
        (V.holds terminal.old.vault) (V.holds terminal.new.vault)
        (G.holds log.old) (G.holds log.new)) }
    ensures keeps { KeepsLedger ledger.old ledger.new (G.holds log.old) (G.holds log.new) }
    ensures same { IsSame terminal.old.state terminal.new.state }
    ensures sound { KeepsSound (V.holds terminal.old.vault) terminal.old.state
        (V.holds terminal.new.vault) terminal.new.state }
    ensures params { AreSameParams terminal.old.state terminal.new.state }
    ensures limit { V.limit terminal.new.vault ≡ V.limit terminal.old.vault }
    ensures vault_cause { HasFaultCause faults.Vault
        (V.faults terminal.old.vault) (V.faults terminal.new.vault)
        (V.may_fail terminal.old.vault) (V.may_fail terminal.new.vault) result }
    ensures log_cause { HasFaultCause faults.Log (G.faults log.old) (G.faults log.new)
        (G.may_fail log.old) (G.may_fail log.new) result }
{
    let Some((_, header, body)) = stream.frame() else {
        unreachable!();
    };
    hear_frame(alloc, terminal, log, ledger, &header, body, said)
}

// Octets up to the first that completes an item, or all.
fn hear_item<V: Vault, G: OrderLog>(
    alloc: Global,
    terminal: &mut Terminal<V>,
    log: &mut G,
    ledger: &mut Ledger,
    stream: &mut Stream,
    octets: &[u8],
    said: &mut Said,
) -> Result<(usize, Option<GiveUp>), OrderFault>
    requires some { 0 < length octets.now }
    requires short { stream.old.splitter.place + length octets.now < 2 ^ 63 }
    ensures ok { IfOk result (λ came. HasFed stream.old.splitter stream.new.splitter
        (scene terminal.old.state ledger.old (V.holds terminal.old.vault) (G.holds log.old)
        said.old)
        (scene terminal.new.state ledger.new (V.holds terminal.new.vault) (G.holds log.new)
        said.new) (take came.0 octets.now) came.1) }
    ensures err { OnErr result (WasCut stream.old.splitter stream.new.splitter
        (scene terminal.old.state ledger.old (V.holds terminal.old.vault) (G.holds log.old)
        said.old) (V.holds terminal.new.vault) (G.holds log.new) octets.now) }
    ensures taken { IfOk result (λ came. (0 < came.0) × (came.0 ≤ length octets.now)) }
    ensures place { IfOk result (λ came.
        stream.new.splitter.place ≡ stream.old.splitter.place + came.0) }
    ensures far { stream.new.splitter.place ≤ stream.old.splitter.place + length octets.now }
    ensures keeps { KeepsLedger ledger.old ledger.new (G.holds log.old) (G.holds log.new) }
    ensures same { IsSame terminal.old.state terminal.new.state }
    ensures sound { KeepsSound (V.holds terminal.old.vault) terminal.old.state
        (V.holds terminal.new.vault) terminal.new.state }
    ensures params { AreSameParams terminal.old.state terminal.new.state }
    ensures limit { V.limit terminal.new.vault ≡ V.limit terminal.old.vault }
    ensures vault_cause { HasFaultCause faults.Vault
        (V.faults terminal.old.vault) (V.faults terminal.new.vault)
        (V.may_fail terminal.old.vault) (V.may_fail terminal.new.vault) result }
    ensures log_cause { HasFaultCause faults.Log (G.faults log.old) (G.faults log.new)
        (G.may_fail log.old) (G.may_fail log.new) result }
{
    law_one_list();
    law_items();
    let (count, item) = stream.take(octets);
    match item {
        StreamItem::Frame => {
            let end = hear_last(alloc, terminal, log, ledger, stream, said)?;
            Ok((count, end))
        }
        StreamItem::Refused(_) => Ok((count, None)),
        StreamItem::More => Ok((count, None)),
    }
}

/// All octets, or those up to the item at which the terminal gives up.
pub(crate) fn hear<V: Vault, G: OrderLog>(
    alloc: Global,
    terminal: &mut Terminal<V>,
    log: &mut G,
    ledger: &mut Ledger,
    stream: &mut Stream,
    octets: &[u8],
    said: &mut Said,
) -> Result<Option<GiveUp>, OrderFault>
    requires short { stream.old.splitter.place + length octets.now < 2 ^ 63 }
    ensures ok { IfOk result (λ end. HasFedFront stream.old.splitter stream.new.splitter
        (scene terminal.old.state ledger.old (V.holds terminal.old.vault) (G.holds log.old)
        said.old)
        (scene terminal.new.state ledger.new (V.holds terminal.new.vault) (G.holds log.new)
        said.new) octets.now end) }
    ensures err { OnErr result (WasCut stream.old.splitter stream.new.splitter
        (scene terminal.old.state ledger.old (V.holds terminal.old.vault) (G.holds log.old)
        said.old) (V.holds terminal.new.vault) (G.holds log.new) octets.now) }
    ensures place { stream.new.splitter.place ≤ stream.old.splitter.place + length octets.now }
    ensures keeps { KeepsLedger ledger.old ledger.new (G.holds log.old) (G.holds log.new) }
    ensures same { IsSame terminal.old.state terminal.new.state }
    ensures sound { KeepsSound (V.holds terminal.old.vault) terminal.old.state
        (V.holds terminal.new.vault) terminal.new.state }
    ensures params { AreSameParams terminal.old.state terminal.new.state }
    ensures limit { V.limit terminal.new.vault ≡ V.limit terminal.old.vault }
    ensures vault_cause { HasFaultCause faults.Vault
        (V.faults terminal.old.vault) (V.faults terminal.new.vault)
        (V.may_fail terminal.old.vault) (V.may_fail terminal.new.vault) result }
    ensures log_cause { HasFaultCause faults.Log (G.faults log.old) (G.faults log.new)
        (G.may_fail log.old) (G.may_fail log.new) result }
{
    let mut taken = 0;
    while taken < octets.len() {
        let (count, end) = hear_item(alloc, terminal, log, ledger, stream, &octets[taken..], said)?;
        taken += count;
        match end {
            Some(_) => return Ok(end),
            None => {}
        }
    }
    Ok(None)
}
