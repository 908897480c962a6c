//! Laws of steps one after another.

ghost use Rattle.std.specs.Prelude.{◌≡◌, ◌++◌, List, Option, None, Some};
ghost use Rattle.jt_store.specs.Vaults.{Held};
ghost use Rattle.jt_terminal_rule.specs.Machines.{held_after};
ghost use Rattle.jt_terminal_rule.specs.Rule.{Step, sends};
ghost use Rattle.jt_terminal_rule.specs.declared.settings.Settings.{Settings};
ghost use Rattle.jt_terminal_steps.specs.AfterError.{Lists, lists_after};
ghost use Rattle.jt_terminal_steps.specs.Running.{holds_after};

/// What steps one after another send, what a vault holds after them, and what lists a terminal keeps: where a vault tells
/// nothing, nothing is told later.
pub fn law_steps()
    ensures sends { (settings : Settings) (first more : List Step) →
        sends settings (first ++ more) ≡ sends settings first ++ sends settings more }
    ensures holds { (first more : List Step) (held : Option Held) →
        holds_after (first ++ more) held ≡ holds_after more (holds_after first held) }
    ensures lists { (first more : List Step) (old : Lists) →
        lists_after (first ++ more) old ≡ lists_after more (lists_after first old) }
    ensures told { (steps : List Step) (held : Held) →
        holds_after steps (Some held) ≡ Some (held_after steps held) }
    ensures untold { (steps : List Step) → holds_after steps None ≡ None }
{}
