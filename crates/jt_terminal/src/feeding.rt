//! What a terminal does at the items of its line.

ghost use Rattle.std.specs.Prelude.{◌≡◌, ◌≤◌, ◌<◌, ◌+◌, ◌^◌, ◌++◌, None, Some, IfOk, IsSome, IsTrue, OnErr, OnOk, length, take};
ghost use Rattle.std.specs.Option.{option_to_list};
ghost use Rattle.jt_value.specs.declared.limits.TheConstants.{BODY_LIMIT, OCTET_COUNT_LIMIT};
ghost use Rattle.jt_header.specs.Content.{IsPacket};
ghost use Rattle.jt_codec.specs.Bodies.{Fits};
ghost use Rattle.jt_subpacket.specs.Fates.{IsWithinLimits, taken_by};
ghost use Rattle.jt_terminal_rule.specs.Law.{response_heard};
ghost use Rattle.jt_terminal_rule.specs.Rule as rule;
ghost use Rattle.jt_terminal.specs.Feeding.{HasFed, HasFedFront, WasCut, message_at, scene};
ghost use Rattle.jt_terminal.specs.Line as line;
ghost use Rattle.jt_terminal_steps.specs.AfterError.{AreSameTables, CutLists, lists_of};
ghost use Rattle.jt_terminal_steps.specs.Running.{CutShort, IsDown, IsSame, IsSound, Outside, Ran};

use crate::telling::tell;
use jt_codec::{Message, law_of_bodies, read_body};
use jt_header::Header;
use jt_store::Vault;
use jt_stream::{Stream, StreamItem, law_items, law_one_list};
use jt_subpacket::{Assembler, Fate, Taken, joined_header};
use jt_terminal_rule::{GiveUp, State};
use jt_terminal_steps::{TerminalError, ask_if_live, on_message, refuse_if_live};
use jt_value::{CodecError, Octets, Seq};
use std::alloc::Global;

// A message that was read.
fn hear_read<V: Vault>(
    alloc: Global,
    vault: &mut V,
    state: &mut State,
    out: &mut Seq<Octets>,
    told: &mut Seq<u64>,
    header: &Header,
    message: &Message,
) -> Result<Option<GiveUp>, TerminalError>
    requires fits { Fits header.now.edition message.now }
    requires sound { IsSound (V.holds vault.old) state.old }
    ensures ok { IfOk result (λ end.
        Ran state.old.settings (rule.on_message state.old header.now message.now) state.new
        (V.holds vault.old) (V.holds vault.new) out.old out.new end) }
    ensures err { OnErr result (CutShort (rule.on_message state.old header.now message.now).steps
        (V.holds vault.old) (V.holds vault.new)) }
    ensures tables { OnErr result (AreSameTables state.old state.new) }
    ensures lists { OnErr result (CutLists (rule.on_message state.old header.now message.now).steps
        (lists_of state.old) (lists_of state.new)) }
    ensures unmoved { OnErr result (IsDown state.old → state.new ≡ state.old) }
    ensures told { OnOk result (told.new
        ≡ told.old ++ option_to_list (rule.named_place state.old (rule.response_in message.now))) }
    ensures sound { IsSound (V.holds vault.new) state.new }
    ensures same { IsSame state.old state.new }
    ensures outside { Outside (V.faults vault.old) (V.faults vault.new) (V.limit vault.old)
        (V.limit vault.new) (V.may_fail vault.old) (V.may_fail vault.new) result }
{
    tell(state, message, told)?;
    on_message(alloc, vault, state, out, header, message)
}

// The same of a message that is given up.
fn hear_message<V: Vault>(
    alloc: Global,
    vault: &mut V,
    state: &mut State,
    out: &mut Seq<Octets>,
    told: &mut Seq<u64>,
    header: &Header,
    message: Message,
) -> Result<Option<GiveUp>, TerminalError>
    requires fits { Fits header.now.edition message }
    requires sound { IsSound (V.holds vault.old) state.old }
    ensures ok { IfOk result (λ end.
        Ran state.old.settings (rule.on_message state.old header.now message) state.new
        (V.holds vault.old) (V.holds vault.new) out.old out.new end) }
    ensures err { OnErr result (CutShort (rule.on_message state.old header.now message).steps
        (V.holds vault.old) (V.holds vault.new)) }
    ensures tables { OnErr result (AreSameTables state.old state.new) }
    ensures lists { OnErr result (CutLists (rule.on_message state.old header.now message).steps
        (lists_of state.old) (lists_of state.new)) }
    ensures unmoved { OnErr result (IsDown state.old → state.new ≡ state.old) }
    ensures told { OnOk result (told.new
        ≡ told.old ++ option_to_list (rule.named_place state.old (rule.response_in message))) }
    ensures sound { IsSound (V.holds vault.new) state.new }
    ensures same { IsSame state.old state.new }
    ensures outside { Outside (V.faults vault.old) (V.faults vault.new) (V.limit vault.old)
        (V.limit vault.new) (V.may_fail vault.old) (V.may_fail vault.new) result }
{
    hear_read(alloc, vault, state, out, told, header, &message)
}

// A body that is refused, or a packet of too many.
fn hear_refused<V: Vault>(
    alloc: Global,
    vault: &mut V,
    state: &mut State,
    out: &mut Seq<Octets>,
    header: &Header,
) -> Result<Option<GiveUp>, TerminalError>
    requires sound { IsSound (V.holds vault.old) state.old }
    ensures ok { IfOk result (λ end.
        Ran state.old.settings (rule.on_hearing state.old (rule.Refused header.now)) state.new
        (V.holds vault.old) (V.holds vault.new) out.old out.new end) }
    ensures err { OnErr result (CutShort (rule.on_hearing state.old (rule.Refused header.now)).steps
        (V.holds vault.old) (V.holds vault.new)) }
    ensures tables { OnErr result (AreSameTables state.old state.new) }
    ensures lists { OnErr result
        (CutLists (rule.on_hearing state.old (rule.Refused header.now)).steps
        (lists_of state.old) (lists_of state.new)) }
    ensures unmoved { OnErr result (IsDown state.old → state.new ≡ state.old) }
    ensures sound { IsSound (V.holds vault.new) state.new }
    ensures same { IsSame state.old state.new }
    ensures outside { Outside (V.faults vault.old) (V.faults vault.new) (V.limit vault.old)
        (V.limit vault.new) (V.may_fail vault.old) (V.may_fail vault.new) result }
{
    refuse_if_live(alloc, vault, state, out, header)?;
    Ok(None)
}

// The last packet of a message whose others lack.
fn hear_lack<V: Vault>(
    alloc: Global,
    vault: &mut V,
    state: &mut State,
    out: &mut Seq<Octets>,
    header: &Header,
    first: u16,
    numbers: Seq<u16>,
) -> Result<Option<GiveUp>, TerminalError>
    requires sound { IsSound (V.holds vault.old) state.old }
    requires few { length numbers ≤ OCTET_COUNT_LIMIT }
    ensures ok { IfOk result (λ end.
        Ran state.old.settings (rule.on_hearing state.old (rule.Lacks header.now first numbers))
        state.new (V.holds vault.old) (V.holds vault.new) out.old out.new end) }
    ensures err { OnErr result
        (CutShort (rule.on_hearing state.old (rule.Lacks header.now first numbers)).steps
        (V.holds vault.old) (V.holds vault.new)) }
    ensures tables { OnErr result (AreSameTables state.old state.new) }
    ensures lists { OnErr result
        (CutLists (rule.on_hearing state.old (rule.Lacks header.now first numbers)).steps
        (lists_of state.old) (lists_of state.new)) }
    ensures unmoved { OnErr result (IsDown state.old → state.new ≡ state.old) }
    ensures sound { IsSound (V.holds vault.new) state.new }
    ensures same { IsSame state.old state.new }
    ensures outside { Outside (V.faults vault.old) (V.faults vault.new) (V.limit vault.old)
        (V.limit vault.new) (V.may_fail vault.old) (V.may_fail vault.new) result }
{
    let _header = header;
    ask_if_live(alloc, vault, state, out, first, numbers)?;
    Ok(None)
}

// A message that is whole, by its body.
fn hear_body<V: Vault>(
    alloc: Global,
    vault: &mut V,
    state: &mut State,
    out: &mut Seq<Octets>,
    told: &mut Seq<u64>,
    header: &Header,
    body: &[u8],
) -> Result<Option<GiveUp>, TerminalError>
    requires sound { IsSound (V.holds vault.old) state.old }
    ensures ok { IfOk result (λ end.
        Ran state.old.settings (rule.on_hearing state.old (line.of_body header.now body.now))
        state.new (V.holds vault.old) (V.holds vault.new) out.old out.new end) }
    ensures err { OnErr result
        (CutShort (rule.on_hearing state.old (line.of_body header.now body.now)).steps
        (V.holds vault.old) (V.holds vault.new)) }
    ensures tables { OnErr result (AreSameTables state.old state.new) }
    ensures lists { OnErr result
        (CutLists (rule.on_hearing state.old (line.of_body header.now body.now)).steps
        (lists_of state.old) (lists_of state.new)) }
    ensures unmoved { OnErr result (IsDown state.old → state.new ≡ state.old) }
    ensures told { OnOk result (told.new ≡ told.old ++ option_to_list
        (rule.named_place state.old (response_heard (line.of_body header.now body.now)))) }
    ensures sound { IsSound (V.holds vault.new) state.new }
    ensures same { IsSame state.old state.new }
    ensures outside { Outside (V.faults vault.old) (V.faults vault.new) (V.limit vault.old)
        (V.limit vault.new) (V.may_fail vault.old) (V.may_fail vault.new) result }
{
    law_of_bodies();
    match read_body(alloc, header.edition, header.id, body) {
        Ok(message) => hear_message(alloc, vault, state, out, told, header, message),
        Err(CodecError::Refused(_)) => hear_refused(alloc, vault, state, out, header),
        Err(CodecError::Memory) => Err(TerminalError::Memory),
    }
}

// A packet, by what became of it.
fn hear_fate<V: Vault>(
    alloc: Global,
    vault: &mut V,
    state: &mut State,
    out: &mut Seq<Octets>,
    told: &mut Seq<u64>,
    header: &Header,
    fate: Fate,
) -> Result<Option<GiveUp>, TerminalError>
    requires limits { IsWithinLimits fate }
    requires sound { IsSound (V.holds vault.old) state.old }
    ensures ok { IfOk result (λ end.
        Ran state.old.settings (line.rule_at state.old (line.of_packet header.now fate)) state.new
        (V.holds vault.old) (V.holds vault.new) out.old out.new end) }
    ensures err { OnErr result
        (CutShort (line.rule_at state.old (line.of_packet header.now fate)).steps
        (V.holds vault.old) (V.holds vault.new)) }
    ensures tables { OnErr result (AreSameTables state.old state.new) }
    ensures lists { OnErr result
        (CutLists (line.rule_at state.old (line.of_packet header.now fate)).steps
        (lists_of state.old) (lists_of state.new)) }
    ensures unmoved { OnErr result (IsDown state.old → state.new ≡ state.old) }
    ensures told { OnOk result (told.new
        ≡ told.old ++ option_to_list (line.place_at state.old (line.of_packet header.now fate))) }
    ensures sound { IsSound (V.holds vault.new) state.new }
    ensures same { IsSame state.old state.new }
    ensures outside { Outside (V.faults vault.old) (V.faults vault.new) (V.limit vault.old)
        (V.limit vault.new) (V.may_fail vault.old) (V.may_fail vault.new) result }
{
    match fate {
        Fate::TooMany(_) => hear_refused(alloc, vault, state, out, header),
        Fate::Whole { body, .. } => {
            let header = joined_header(header);
            hear_body(alloc, vault, state, out, told, &header, body.as_slice())
        }
        Fate::Resend { first, missing } => {
            hear_lack(alloc, vault, state, out, header, first, missing)
        }
        Fate::Repeat | Fate::Kept => Ok(None),
    }
}

// A packet.
fn hear_packet<V: Vault>(
    alloc: Global,
    vault: &mut V,
    state: &mut State,
    out: &mut Seq<Octets>,
    told: &mut Seq<u64>,
    assembler: &mut Assembler,
    header: &Header,
    body: &[u8],
) -> Result<Option<GiveUp>, TerminalError>
    requires some { IsSome header.now.packet }
    requires packet { IsPacket header.now.packet }
    requires short { length body.now ≤ BODY_LIMIT }
    requires sound { IsSound (V.holds vault.old) state.old }
    ensures ok { IfOk result (λ end. Ran state.old.settings (line.rule_at state.old
        (line.of_packet header.now (taken_by assembler.old header.now body.now).fate))
        state.new (V.holds vault.old) (V.holds vault.new) out.old out.new end) }
    ensures err { OnErr result (CutShort (line.rule_at state.old
        (line.of_packet header.now (taken_by assembler.old header.now body.now).fate)).steps
        (V.holds vault.old) (V.holds vault.new)) }
    ensures tables { OnErr result (AreSameTables state.old state.new) }
    ensures lists { OnErr result (CutLists (line.rule_at state.old
        (line.of_packet header.now (taken_by assembler.old header.now body.now).fate)).steps
        (lists_of state.old) (lists_of state.new)) }
    ensures unmoved { OnErr result (IsDown state.old → state.new ≡ state.old) }
    ensures told { OnOk result (told.new ≡ told.old ++ option_to_list (line.place_at state.old
        (line.of_packet header.now (taken_by assembler.old header.now body.now).fate))) }
    ensures partial { OnOk result
        (assembler.new ≡ (taken_by assembler.old header.now body.now).partial) }
    ensures sound { IsSound (V.holds vault.new) state.new }
    ensures same { IsSame state.old state.new }
    ensures outside { Outside (V.faults vault.old) (V.faults vault.new) (V.limit vault.old)
        (V.limit vault.new) (V.may_fail vault.old) (V.may_fail vault.new) result }
{
    let Taken { dropped: _, fate } = assembler.take(header, body)?;
    hear_fate(alloc, vault, state, out, told, header, fate)
}

// A frame.
fn hear_frame<V: Vault>(
    alloc: Global,
    vault: &mut V,
    state: &mut State,
    out: &mut Seq<Octets>,
    told: &mut Seq<u64>,
    assembler: &mut Assembler,
    header: &Header,
    body: &[u8],
) -> Result<Option<GiveUp>, TerminalError>
    requires packet { IsPacket header.now.packet }
    requires short { length body.now ≤ BODY_LIMIT }
    requires sound { IsSound (V.holds vault.old) state.old }
    ensures ok { IfOk result (λ end. Ran state.old.settings
        (line.rule_at state.old (line.of_frame assembler.old header.now body.now header.now.packet))
        state.new (V.holds vault.old) (V.holds vault.new) out.old out.new end) }
    ensures err { OnErr result (CutShort (line.rule_at state.old
        (line.of_frame assembler.old header.now body.now header.now.packet)).steps
        (V.holds vault.old) (V.holds vault.new)) }
    ensures tables { OnErr result (AreSameTables state.old state.new) }
    ensures lists { OnErr result (CutLists (line.rule_at state.old
        (line.of_frame assembler.old header.now body.now header.now.packet)).steps
        (lists_of state.old) (lists_of state.new)) }
    ensures unmoved { OnErr result (IsDown state.old → state.new ≡ state.old) }
    ensures told { OnOk result (told.new ≡ told.old ++ option_to_list (line.place_at state.old
        (line.of_frame assembler.old header.now body.now header.now.packet))) }
    ensures partial { OnOk result
        (assembler.new ≡ line.kept_by_frame assembler.old header.now body.now header.now.packet) }
    ensures sound { IsSound (V.holds vault.new) state.new }
    ensures same { IsSame state.old state.new }
    ensures outside { Outside (V.faults vault.old) (V.faults vault.new) (V.limit vault.old)
        (V.limit vault.new) (V.may_fail vault.old) (V.may_fail vault.new) result }
{
    match header.packet {
        None => hear_body(alloc, vault, state, out, told, header, body),
        Some(_) => hear_packet(alloc, vault, state, out, told, assembler, header, body),
    }
}

// The stream's last frame.
fn hear_last<V: Vault>(
    alloc: Global,
    vault: &mut V,
    state: &mut State,
    out: &mut Seq<Octets>,
    told: &mut Seq<u64>,
    assembler: &mut Assembler,
    stream: &Stream,
) -> Result<Option<GiveUp>, TerminalError>
    requires found { IsTrue stream.now.found }
    requires sound { IsSound (V.holds vault.old) state.old }
    ensures ok { IfOk result (λ end. Ran state.old.settings (line.rule_at state.old
        (line.of_item assembler.old (message_at stream.now.splitter.content)))
        state.new (V.holds vault.old) (V.holds vault.new) out.old out.new end) }
    ensures err { OnErr result (CutShort (line.rule_at state.old
        (line.of_item assembler.old (message_at stream.now.splitter.content))).steps
        (V.holds vault.old) (V.holds vault.new)) }
    ensures tables { OnErr result (AreSameTables state.old state.new) }
    ensures lists { OnErr result (CutLists (line.rule_at state.old
        (line.of_item assembler.old (message_at stream.now.splitter.content))).steps
        (lists_of state.old) (lists_of state.new)) }
    ensures unmoved { OnErr result (IsDown state.old → state.new ≡ state.old) }
    ensures told { OnOk result (told.new ≡ told.old ++ option_to_list (line.place_at state.old
        (line.of_item assembler.old (message_at stream.now.splitter.content)))) }
    ensures partial { OnOk result
        (assembler.new ≡ line.kept_by assembler.old (message_at stream.now.splitter.content)) }
    ensures sound { IsSound (V.holds vault.new) state.new }
    ensures same { IsSame state.old state.new }
    ensures outside { Outside (V.faults vault.old) (V.faults vault.new) (V.limit vault.old)
        (V.limit vault.new) (V.may_fail vault.old) (V.may_fail vault.new) result }
{
    let Some((_, header, body)) = stream.frame() else {
        unreachable!();
    };
    hear_frame(alloc, vault, state, out, told, assembler, &header, body)
}

// Octets up to the first that completes an item, or all.
fn hear_item<V: Vault>(
    alloc: Global,
    vault: &mut V,
    state: &mut State,
    out: &mut Seq<Octets>,
    told: &mut Seq<u64>,
    assembler: &mut Assembler,
    stream: &mut Stream,
    octets: &[u8],
) -> Result<(usize, Option<GiveUp>), TerminalError>
    requires some { 0 < length octets.now }
    requires short { stream.old.splitter.place + length octets.now < 2 ^ 63 }
    requires sound { IsSound (V.holds vault.old) state.old }
    ensures ok { IfOk result (λ came.
        HasFed (scene stream.old.splitter assembler.old state.old (V.holds vault.old) out.old
        told.old)
        (scene stream.new.splitter assembler.new state.new (V.holds vault.new) out.new told.new)
        (take came.0 octets.now) came.1) }
    ensures taken { IfOk result (λ came. (0 < came.0) × (came.0 ≤ length octets.now)) }
    ensures place { IfOk result (λ came.
        stream.new.splitter.place ≡ stream.old.splitter.place + came.0) }
    ensures far { stream.new.splitter.place ≤ stream.old.splitter.place + length octets.now }
    ensures err { OnErr result (WasCut (scene stream.old.splitter assembler.old state.old
        (V.holds vault.old) out.old told.old)
        stream.new.splitter state.new (V.holds vault.new) octets.now) }
    ensures unmoved { OnErr result (IsDown state.old → state.new ≡ state.old) }
    ensures sound { IsSound (V.holds vault.new) state.new }
    ensures same { IsSame state.old state.new }
    ensures outside { Outside (V.faults vault.old) (V.faults vault.new) (V.limit vault.old)
        (V.limit vault.new) (V.may_fail vault.old) (V.may_fail vault.new) result }
{
    law_one_list();
    law_items();
    let (count, item) = stream.take(octets);
    match item {
        StreamItem::Frame => {
            let end = hear_last(alloc, vault, state, out, told, assembler, stream)?;
            Ok((count, end))
        }
        StreamItem::Refused(_) => Ok((count, None)),
        StreamItem::More => Ok((count, None)),
    }
}

/// All octets, or those up to the item at which the terminal gives up.
pub(crate) fn hear<V: Vault>(
    alloc: Global,
    vault: &mut V,
    state: &mut State,
    out: &mut Seq<Octets>,
    told: &mut Seq<u64>,
    assembler: &mut Assembler,
    stream: &mut Stream,
    octets: &[u8],
) -> Result<Option<GiveUp>, TerminalError>
    requires short { stream.old.splitter.place + length octets.now < 2 ^ 63 }
    requires sound { IsSound (V.holds vault.old) state.old }
    ensures ok { IfOk result (λ end.
        HasFedFront (scene stream.old.splitter assembler.old state.old (V.holds vault.old) out.old
        told.old)
        (scene stream.new.splitter assembler.new state.new (V.holds vault.new) out.new told.new)
        octets.now end) }
    ensures place { stream.new.splitter.place ≤ stream.old.splitter.place + length octets.now }
    ensures err { OnErr result (WasCut (scene stream.old.splitter assembler.old state.old
        (V.holds vault.old) out.old told.old)
        stream.new.splitter state.new (V.holds vault.new) octets.now) }
    ensures unmoved { OnErr result (IsDown state.old → state.new ≡ state.old) }
    ensures sound { IsSound (V.holds vault.new) state.new }
    ensures same { IsSame state.old state.new }
    ensures outside { Outside (V.faults vault.old) (V.faults vault.new) (V.limit vault.old)
        (V.limit vault.new) (V.may_fail vault.old) (V.may_fail vault.new) result }
{
    let mut taken = 0;
    while taken < octets.len() {
        let (count, end) = hear_item(
            alloc,
            vault,
            state,
            out,
            told,
            assembler,
            stream,
            &octets[taken..],
        )?;
        taken += count;
        match end {
            Some(_) => return Ok(end),
            None => {}
        }
    }
    Ok(None)
}
