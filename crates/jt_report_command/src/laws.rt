//! What is so of a run that had no memory, and of attempts and runs that are answered.

ghost use Rattle.std.specs.Prelude.{◌≡◌, ◌≢◌, ◌≤◌, ◌⊎◌, ℕ, List, [], Option};
ghost use Rattle.jt_value.specs.Counts.{Rose};
ghost use Rattle.jt_value.specs.declared.phone.Phone.{Phone};
ghost use Rattle.jt_outside.specs.Time.{Time};
ghost use Rattle.jt_input.specs.declared.status.Status.{Status};
ghost use Rattle.jt_input.specs.declared.status.Status.TheVariants as status;
ghost use Rattle.jt_store.specs.Vaults.{Held};
ghost use Rattle.jt_terminal_rule.specs.declared.settings.Settings.{Settings};
ghost use Rattle.jt_terminal_rule.specs.declared.state.Phase.TheVariants.{Down};
ghost use Rattle.jt_terminal_rule.specs.declared.state.State.{State};
ghost use Rattle.jt_terminal_steps.specs.Running.{IsStarted};
ghost use Rattle.jt_agent.specs.Tries.{Between, Reports};
ghost use Rattle.jt_agent.specs.declared.reporting.Outcome.{Outcome};
ghost use Rattle.jt_agent.specs.declared.reporting.Outcome.TheVariants.{Done, Memory};
ghost use Rattle.jt_report_command.specs.Answered.{AnswersAll, HasAll, HasAnswers, WereFine};
ghost use Rattle.jt_report_command.specs.Example.{a_script, a_terminal, still_clock};
ghost use Rattle.jt_report_command.specs.Noting.{noted_all};
ghost use Rattle.jt_report_command.specs.Running.{RunsReport, Scene};
ghost use Rattle.jt_report_command.specs.Scripted.{HoldsAcceptances, IsInTime, IsSoon};
ghost use Rattle.jt_terminal_rule.specs.PlainSettings.{settings_of};

/// Want of memory before anything was done is a run of `report`, whatever it was told.
pub fn law_without_memory()
    ensures { (phone : Phone) (plate terminal : List ℕ) (tries : ℕ) (left written : Option (List ℕ))
        (scene : Scene) →
        RunsReport (IsStarted (settings_of phone plate terminal) scene.held) tries left left scene
        scene written written status.Memory }
{}

/// Attempts, of which there may be one at least, over a dial whose first link answers all that the terminal sends, in time, where
/// nothing failed: all is accepted by the first one, or memory was refused.
pub fn law_of_answers()
    ensures { (tries : ℕ) (outcome : Outcome) (old now : Between) → 1 ≤ tries →
        HasAnswers old.state old.pool old.time → WereFine old.pool now.pool →
        ¬ Rose old.dial now.dial → ¬ Rose old.faults now.faults → Reports tries outcome old now →
        (outcome ≡ Done []) ⊎ (outcome ≡ Memory) }
{}

/// A run that has all that it needs, and in which no count of the dial, of its links and of the vault rises, comes to Done, unless
/// memory is refused or the source or the sink fails.
pub fn law_of_answered_runs()
    ensures { (settings : Settings) (tries : ℕ) (left left_now : Option (List ℕ))
        (written written_now : Option (List ℕ)) (old now : Scene) (ended : Status) → 1 ≤ tries →
        HasAll (IsStarted settings old.held) left old → WereFine old.pool now.pool →
        ¬ Rose old.dial now.dial → ¬ Rose old.faults now.faults →
        RunsReport (IsStarted settings old.held) tries left left_now old now written written_now
        ended →
        ended ≢ status.ReadFault → ended ≢ status.WriteFault →
        (ended ≡ status.Done) ⊎ (ended ≡ status.Memory) }
{}

/// A script that holds, in order, the acceptances of all that a terminal without a line sends once one is opened, answers all that it
/// sends, in time: where none of its waits passes and no heartbeat is due, as where the clock's answers all come within the first
/// wait and heartbeats are off or no sooner. So the two laws above speak of a dial whose first link has such a script. A terminal
/// that started, and recorded fixes, has no line.
pub fn law_of_accepting_scripts()
    ensures in_time { (terminal : State) (octets : List ℕ) (time : Time) → terminal.phase ≡ Down →
        HoldsAcceptances terminal octets → IsInTime terminal octets time →
        AnswersAll terminal octets time }
    ensures soon { (terminal : State) (octets : List ℕ) (time : Time) → terminal.phase ≡ Down →
        HoldsAcceptances terminal octets → IsSoon terminal.timing time →
        AnswersAll terminal octets time }
    ensures started { (settings : Settings) (held : Option Held) (started : State)
        (fixes : List (List ℕ)) → IsStarted settings held started →
        (noted_all started fixes).phase ≡ Down }
{
    jt_stream::law_front();
    jt_stream::law_frames();
}

/// One such script: a terminal with the settings of `report` that started over an empty vault and recorded one fix, and the acceptances
/// of its registration, its authentication and its unit, in three frames. It answers all where the clock stands still.
pub fn law_of_one_script()
    ensures holds { HoldsAcceptances a_terminal a_script }
    ensures answers { AnswersAll a_terminal a_script still_clock }
{
    law_of_accepting_scripts();
}
