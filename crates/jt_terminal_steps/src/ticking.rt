//! What a terminal does as time goes on, and when a heartbeat is asked for.

ghost use Rattle.std.specs.Prelude.{◌≡◌, ◌≤◌, None, IfOk, OnOk, OnErr};
ghost use Rattle.jt_terminal_rule.specs.Rule as rule;
ghost use Rattle.jt_terminal_steps.specs.AfterError.{AreSameTables, CutLists, lists_of};
ghost use Rattle.jt_terminal_steps.specs.Running.{CutShort, IsSame, IsSound, Outside, Ran};

use crate::error::TerminalError;
use crate::window::fill_window;
use jt_store::Vault;
use jt_terminal_rule::{
    GiveUp, Phase, State, Wait, has_passed, heartbeat_if_silent, lose, repeat_sending,
    say_heartbeat,
};
use jt_value::{Octets, Seq};
use std::alloc::Global;

// A Live terminal looks at its heartbeat, and then fills its window.
fn beat_and_fill<V: Vault>(
    alloc: Global,
    vault: &mut V,
    state: &mut State,
    out: &mut Seq<Octets>,
) -> Result<(), TerminalError>
    requires sound { IsSound (V.holds vault.old) state.old }
    ensures ok { OnOk result (Ran state.old.settings
        (rule.and_then (rule.heartbeat_if_silent state.old) rule.fill_window) state.new
        (V.holds vault.old) (V.holds vault.new) out.old out.new None) }
    ensures err { OnErr result
        (CutShort (rule.and_then (rule.heartbeat_if_silent state.old) rule.fill_window).steps
        (V.holds vault.old) (V.holds vault.new)) }
    ensures lists { OnErr result
        (CutLists (rule.and_then (rule.heartbeat_if_silent state.old) rule.fill_window).steps
        (lists_of state.old) (lists_of state.new)) }
    ensures sound { IsSound (V.holds vault.new) state.new }
    ensures same { IsSame state.old state.new }
    ensures tables { AreSameTables state.old state.new }
    ensures outside { Outside (V.faults vault.old) (V.faults vault.new) (V.limit vault.old)
        (V.limit vault.new) (V.may_fail vault.old) (V.may_fail vault.new) result }
{
    heartbeat_if_silent(alloc, state, out)?;
    fill_window(alloc, vault, state, out)
}

// The same, by the phase.
fn watch_and_fill<V: Vault>(
    alloc: Global,
    vault: &mut V,
    state: &mut State,
    out: &mut Seq<Octets>,
) -> Result<(), TerminalError>
    requires sound { IsSound (V.holds vault.old) state.old }
    ensures ok { OnOk result (Ran state.old.settings (rule.watch_and_fill state.old.phase state.old)
        state.new (V.holds vault.old) (V.holds vault.new) out.old out.new None) }
    ensures err { OnErr result (CutShort (rule.watch_and_fill state.old.phase state.old).steps
        (V.holds vault.old) (V.holds vault.new)) }
    ensures lists { OnErr result (CutLists (rule.watch_and_fill state.old.phase state.old).steps
        (lists_of state.old) (lists_of state.new)) }
    ensures sound { IsSound (V.holds vault.new) state.new }
    ensures same { IsSame state.old state.new }
    ensures tables { AreSameTables state.old state.new }
    ensures outside { Outside (V.faults vault.old) (V.faults vault.new) (V.limit vault.old)
        (V.limit vault.new) (V.may_fail vault.old) (V.may_fail vault.new) result }
{
    match state.phase {
        Phase::Live(_) => beat_and_fill(alloc, vault, state, out),
        Phase::Down | Phase::Registering(_) | Phase::Authenticating(_) => Ok(()),
    }
}

// What is waited for is sent again, and then the terminal goes on.
fn repeat_and_watch<V: Vault>(
    alloc: Global,
    vault: &mut V,
    state: &mut State,
    out: &mut Seq<Octets>,
) -> Result<(), TerminalError>
    requires more { state.old.wait.sendings ≤ state.old.wait.repeats }
    requires sound { IsSound (V.holds vault.old) state.old }
    ensures ok { OnOk result (Ran state.old.settings
        (rule.and_then (rule.repeat_sending state.old) (rule.watch_and_fill state.old.phase))
        state.new (V.holds vault.old) (V.holds vault.new) out.old out.new None) }
    ensures err { OnErr result (CutShort (rule.and_then (rule.repeat_sending state.old)
        (rule.watch_and_fill state.old.phase)).steps (V.holds vault.old) (V.holds vault.new)) }
    ensures lists { OnErr result (CutLists (rule.and_then (rule.repeat_sending state.old)
        (rule.watch_and_fill state.old.phase)).steps (lists_of state.old) (lists_of state.new)) }
    ensures sound { IsSound (V.holds vault.new) state.new }
    ensures same { IsSame state.old state.new }
    ensures tables { AreSameTables state.old state.new }
    ensures outside { Outside (V.faults vault.old) (V.faults vault.new) (V.limit vault.old)
        (V.limit vault.new) (V.may_fail vault.old) (V.may_fail vault.new) result }
{
    repeat_sending(alloc, state, out)?;
    watch_and_fill(alloc, vault, state, out)
}

/// It is the state's moment: waits come first, with one repeat at most, or the line is given up.
pub fn on_tick<V: Vault>(
    alloc: Global,
    vault: &mut V,
    state: &mut State,
    out: &mut Seq<Octets>,
) -> Result<Option<GiveUp>, TerminalError>
    requires sound { IsSound (V.holds vault.old) state.old }
    ensures ok { IfOk result (λ end. Ran state.old.settings (rule.on_tick state.old) state.new
        (V.holds vault.old) (V.holds vault.new) out.old out.new end) }
    ensures err { OnErr result
        (CutShort (rule.on_tick state.old).steps (V.holds vault.old) (V.holds vault.new)) }
    ensures lists { OnErr result
        (CutLists (rule.on_tick state.old).steps (lists_of state.old) (lists_of state.new)) }
    ensures sound { IsSound (V.holds vault.new) state.new }
    ensures same { IsSame state.old state.new }
    ensures tables { AreSameTables state.old state.new }
    ensures outside { Outside (V.faults vault.old) (V.faults vault.new) (V.limit vault.old)
        (V.limit vault.new) (V.may_fail vault.old) (V.may_fail vault.new) result }
{
    if !has_passed(state) {
        watch_and_fill(alloc, vault, state, out)?;
        return Ok(None);
    }
    let Wait {
        since,
        sendings,
        repeats: most,
        ..
    } = state.wait;
    if sendings <= u64::from(most) {
        repeat_and_watch(alloc, vault, state, out)?;
        return Ok(None);
    }
    let now = state.time;
    lose(state);
    Ok(Some(GiveUp::TimedOut { since, now }))
}

// A heartbeat, and then the window.
fn beat_now<V: Vault>(
    alloc: Global,
    vault: &mut V,
    state: &mut State,
    out: &mut Seq<Octets>,
) -> Result<(), TerminalError>
    requires sound { IsSound (V.holds vault.old) state.old }
    ensures ok { OnOk result
        (Ran state.old.settings (rule.and_then (rule.say_heartbeat state.old) rule.fill_window)
        state.new (V.holds vault.old) (V.holds vault.new) out.old out.new None) }
    ensures err { OnErr result
        (CutShort (rule.and_then (rule.say_heartbeat state.old) rule.fill_window).steps
        (V.holds vault.old) (V.holds vault.new)) }
    ensures lists { OnErr result
        (CutLists (rule.and_then (rule.say_heartbeat state.old) rule.fill_window).steps
        (lists_of state.old) (lists_of state.new)) }
    ensures sound { IsSound (V.holds vault.new) state.new }
    ensures same { IsSame state.old state.new }
    ensures tables { AreSameTables state.old state.new }
    ensures outside { Outside (V.faults vault.old) (V.faults vault.new) (V.limit vault.old)
        (V.limit vault.new) (V.may_fail vault.old) (V.may_fail vault.new) result }
{
    say_heartbeat(alloc, state, out)?;
    fill_window(alloc, vault, state, out)
}

/// A heartbeat that is asked for, by the phase.
pub fn on_beat<V: Vault>(
    alloc: Global,
    vault: &mut V,
    state: &mut State,
    out: &mut Seq<Octets>,
) -> Result<(), TerminalError>
    requires sound { IsSound (V.holds vault.old) state.old }
    ensures ok { OnOk result (Ran state.old.settings (rule.on_beat state.old.phase state.old)
        state.new (V.holds vault.old) (V.holds vault.new) out.old out.new None) }
    ensures err { OnErr result (CutShort (rule.on_beat state.old.phase state.old).steps
        (V.holds vault.old) (V.holds vault.new)) }
    ensures lists { OnErr result (CutLists (rule.on_beat state.old.phase state.old).steps
        (lists_of state.old) (lists_of state.new)) }
    ensures sound { IsSound (V.holds vault.new) state.new }
    ensures same { IsSame state.old state.new }
    ensures tables { AreSameTables state.old state.new }
    ensures outside { Outside (V.faults vault.old) (V.faults vault.new) (V.limit vault.old)
        (V.limit vault.new) (V.may_fail vault.old) (V.may_fail vault.new) result }
{
    match state.phase {
        Phase::Live(_) => beat_now(alloc, vault, state, out),
        Phase::Down | Phase::Registering(_) | Phase::Authenticating(_) => Ok(()),
    }
}
