//! The window: units are sent, and formed of the fixes that wait.

ghost use Rattle.std.specs.Prelude.{◌≡◌, ◌<◌, ◌≤◌, ◌^◌, ◌++◌, ◌∷◌, [], None, Some, length, OnOk, OnErr, IfOk, if◌then◌else◌, ◌==◌};
ghost use Rattle.jt_store.specs.Tables.{WhereKnown};
ghost use Rattle.jt_store.specs.Vaults.{Forms, IsUnit, MayCommit, changed};
ghost use Rattle.jt_terminal_rule.specs.Rule as rule;
ghost use Rattle.jt_terminal_steps.specs.AfterError.{AreSameTables, CutLists, lists_of};
ghost use Rattle.jt_terminal_steps.specs.Running.{CutShort, IsSame, IsSound, MayBeCut, Outside, Ran, Went};

use crate::error::{TerminalError, trouble};
use jt_store::{Unit, Vault};
use jt_terminal_rule::{State, WINDOW, Wait, Window, first_wait, has_serial, say_unit, unit_of};
use jt_value::{Octets, Seq};
use std::alloc::Global;

// The wait behind the sending of one unit more: it begins where none was sent before.
fn wait_of(state: &State) -> Wait
    ensures { result ≡ (if state.now.sent == 0 then rule.first_wait state.now else state.now.wait) }
{
    if state.sent == 0 {
        first_wait(state)
    } else {
        state.wait
    }
}

// One unit more was sent.
fn one_sent(state: &mut State)
    requires { state.old.sent < 2 ^ 63 }
    ensures { state.new ≡ rule.one_sent state.old }
{
    state.wait = wait_of(state);
    state.said = state.time;
    state.sent += 1;
}

// Commits a unit, and keeps it behind the others.
fn commit<V: Vault>(
    alloc: Global,
    vault: &mut V,
    units: &mut Window<Unit>,
    unit: &Unit,
) -> Result<(), TerminalError>
    requires room { length units.old < 16 }
    requires unit { IsUnit unit.now }
    requires may { WhereKnown (V.holds vault.old) (λ held. MayCommit held unit.now) }
    ensures ok { OnOk result ((V.holds vault.new ≡ changed (Forms unit.now) (V.holds vault.old))
        × (units.new ≡ units.old ++ unit.now ∷ [])) }
    ensures err { OnErr result ((V.holds vault.new ≡ V.holds vault.old) × (units.new ≡ units.old)) }
    ensures outside { Outside (V.faults vault.old) (V.faults vault.new) (V.limit vault.old)
        (V.limit vault.new) (V.may_fail vault.old) (V.may_fail vault.new) result }
{
    let copy = unit.clone()?;
    match vault.form(alloc, unit) {
        Ok(()) => {
            units.put(copy);
            Ok(())
        }
        Err(error) => Err(trouble(error)),
    }
}

// The unit of the fixes that wait is formed and sent, if there are fixes and the gap leaves it a serial. Whether it was.
fn form_unit<V: Vault>(
    alloc: Global,
    vault: &mut V,
    state: &mut State,
    out: &mut Seq<Octets>,
) -> Result<bool, TerminalError>
    requires few { state.old.sent < 16 }
    requires room { length state.old.units < 16 }
    requires sound { IsSound (V.holds vault.old) state.old }
    ensures ok { IfOk result (λ more.
        Went state.old.settings (rule.form_unit state.old state.old.waiting) more
        state.old state.new (V.holds vault.old) (V.holds vault.new) out.old out.new) }
    ensures err { OnErr result (MayBeCut (rule.form_unit state.old state.old.waiting)
        (V.holds vault.old) (V.holds vault.new)) }
    ensures lists { OnErr result (lists_of state.new ≡ lists_of state.old) }
    ensures sound { IsSound (V.holds vault.new) state.new }
    ensures same { IsSame state.old state.new }
    ensures tables { AreSameTables state.old state.new }
    ensures outside { Outside (V.faults vault.old) (V.faults vault.new) (V.limit vault.old)
        (V.limit vault.new) (V.may_fail vault.old) (V.may_fail vault.new) result }
{
    if state.waiting.is_empty() {
        return Ok(false);
    }
    if !has_serial(state.mark, state.next) {
        return Ok(false);
    }
    jt_position::law_fixes();
    let unit = unit_of(alloc, state.next, &state.waiting)?;
    say_unit(alloc, &state.settings, &unit, out)?;
    commit(alloc, vault, &mut state.units, &unit)?;
    let Unit { count, .. } = &unit;
    state.waiting.drop_front(*count as usize);
    state.next = state.next.wrapping_add(1);
    one_sent(state);
    Ok(true)
}

// The next unit is sent, or formed and sent, where the window has room. Whether one was.
fn send_next<V: Vault>(
    alloc: Global,
    vault: &mut V,
    state: &mut State,
    out: &mut Seq<Octets>,
) -> Result<bool, TerminalError>
    requires sound { IsSound (V.holds vault.old) state.old }
    ensures ok { IfOk result (λ more. Went state.old.settings (rule.send_next state.old) more
        state.old state.new (V.holds vault.old) (V.holds vault.new) out.old out.new) }
    ensures err { OnErr result
        (MayBeCut (rule.send_next state.old) (V.holds vault.old) (V.holds vault.new)) }
    ensures lists { OnErr result (lists_of state.new ≡ lists_of state.old) }
    ensures sound { IsSound (V.holds vault.new) state.new }
    ensures same { IsSame state.old state.new }
    ensures tables { AreSameTables state.old state.new }
    ensures outside { Outside (V.faults vault.old) (V.faults vault.new) (V.limit vault.old)
        (V.limit vault.new) (V.may_fail vault.old) (V.may_fail vault.new) result }
{
    if state.sent >= WINDOW {
        return Ok(false);
    }
    let Some(unit) = state.units.get(state.sent) else {
        return form_unit(alloc, vault, state, out);
    };
    say_unit(alloc, &state.settings, unit, out)?;
    one_sent(state);
    Ok(true)
}

// So many units are sent at most.
fn fill<V: Vault>(
    alloc: Global,
    vault: &mut V,
    state: &mut State,
    out: &mut Seq<Octets>,
    room: usize,
) -> Result<(), TerminalError>
    requires sound { IsSound (V.holds vault.old) state.old }
    ensures ok { OnOk result (Ran state.old.settings (rule.fill room state.old) state.new
        (V.holds vault.old) (V.holds vault.new) out.old out.new None) }
    ensures err { OnErr result
        (CutShort (rule.fill room state.old).steps (V.holds vault.old) (V.holds vault.new)) }
    ensures lists { OnErr result
        (CutLists (rule.fill room state.old).steps (lists_of state.old) (lists_of state.new)) }
    ensures sound { IsSound (V.holds vault.new) state.new }
    ensures same { IsSame state.old state.new }
    ensures tables { AreSameTables state.old state.new }
    ensures outside { Outside (V.faults vault.old) (V.faults vault.new) (V.limit vault.old)
        (V.limit vault.new) (V.may_fail vault.old) (V.may_fail vault.new) result }
{
    if room == 0 {
        return Ok(());
    }
    if send_next(alloc, vault, state, out)? {
        return fill(alloc, vault, state, out, room - 1);
    }
    Ok(())
}

/// The window is filled.
pub fn fill_window<V: Vault>(
    alloc: Global,
    vault: &mut V,
    state: &mut State,
    out: &mut Seq<Octets>,
) -> Result<(), TerminalError>
    requires sound { IsSound (V.holds vault.old) state.old }
    ensures ok { OnOk result (Ran state.old.settings (rule.fill_window state.old) state.new
        (V.holds vault.old) (V.holds vault.new) out.old out.new None) }
    ensures err { OnErr result
        (CutShort (rule.fill_window state.old).steps (V.holds vault.old) (V.holds vault.new)) }
    ensures lists { OnErr result
        (CutLists (rule.fill_window state.old).steps (lists_of state.old) (lists_of state.new)) }
    ensures sound { IsSound (V.holds vault.new) state.new }
    ensures same { IsSame state.old state.new }
    ensures tables { AreSameTables state.old state.new }
    ensures outside { Outside (V.faults vault.old) (V.faults vault.new) (V.limit vault.old)
        (V.limit vault.new) (V.may_fail vault.old) (V.may_fail vault.new) result }
{
    fill(alloc, vault, state, out, WINDOW)
}
