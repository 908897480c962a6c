//! The command `report`.

ghost use Rattle.std.specs.Prelude.{◌≡◌, ◌≢◌, ◌≤◌, ◌⊎◌, ℕ, false, length};
ghost use Rattle.std.specs.Io.KnownBytes.{IsAtEnd};
ghost use Rattle.jt_value.specs.Counts.{Rose};
ghost use Rattle.jt_store.specs.Tables.{WhereKnown};
ghost use Rattle.jt_store.specs.Vaults.{accepted_count, pending_count};
ghost use Rattle.jt_report_command.specs.Telling.{values_in_words};
ghost use Rattle.jt_input.specs.Answer.{AnswersReply, CutsShort};
ghost use Rattle.jt_store.specs.declared.error.StoreError.TheVariants.{Full};
ghost use Rattle.jt_terminal_rule.specs.declared.state.Phase.TheVariants.{Down};
ghost use Rattle.jt_terminal_steps.specs.Running.{IsStarted};
ghost use Rattle.jt_agent.specs.Tries.{between};
ghost use Rattle.jt_report_command.specs.Answered.{HasAll, WereFine};
ghost use Rattle.jt_report_command.specs.Came.{report_text};
ghost use Rattle.jt_report_command.specs.Steps.{TellsAttempts, VaultKeeps, came_at, came_of, status_at, status_of_refusal};
ghost use Rattle.jt_report_command.specs.Running.{EndsSo, RunsReport, scene_of};
ghost use Rattle.jt_report_command.specs.ReportWords.{AreSpoken};
ghost use Rattle.jt_terminal_rule.specs.PlainSettings.{settings_of};
ghost use Rattle.jt_report_command.specs.declared.noting.FixesError.TheVariants as noted;

use crate::telling::{tell_bad_line, tell_outcome};
use crate::{FixesError, ReportWords, note_fixes};
use jt_agent::report_all;
use jt_input::{EarlyEnd, Status, answer_early_end};
use jt_outside::{Clock, Dial, Sink, Source};
use jt_store::{StoreError, Vault};
use jt_terminal::Terminal;
use jt_terminal_rule::settings_for;
use jt_value::Memory;
use std::alloc::Global;

/// What a run of `report` hands back: its status, and the vault that it was given.
#[derive(Drop)]
pub struct ReportRun<V: Vault> {
    pub status: Status,
    pub vault: V,
}

// Makes the attempts of a terminal that recorded all fixes, and writes what they came to.
fn report_noted<K: Sink, D: Dial, C: Clock, V: Vault>(
    alloc: Global,
    sink: &mut K,
    dial: &mut D,
    clock: &mut C,
    terminal: &mut Terminal<V>,
    host: &str,
    port: u16,
    tries: u32,
) -> Status
    requires down { terminal.old.state.phase ≡ Down }
    requires time { terminal.old.state.time ≡ 0 }
    ensures tells { TellsAttempts tries
        (between terminal.old.state (V.holds terminal.old.vault) (V.faults terminal.old.vault)
        (C.time clock.old) (D.pool dial.old) (D.faults dial.old))
        (between terminal.new.state (V.holds terminal.new.vault) (V.faults terminal.new.vault)
        (C.time clock.new) (D.pool dial.new) (D.faults dial.new))
        (K.written sink.old) (K.written sink.new) result }
    ensures vault { VaultKeeps (V.faults terminal.old.vault) (V.faults terminal.new.vault)
        (V.limit terminal.old.vault) (V.limit terminal.new.vault)
        (V.may_fail terminal.old.vault) (V.may_fail terminal.new.vault) }
    ensures write_fault { result ≡ Status.WriteFault →
        Rose (K.faults sink.old) (K.faults sink.new) }
    ensures write_still { result ≢ Status.WriteFault → K.faults sink.new ≡ K.faults sink.old }
    ensures store_fault { result ≡ Status.StoreFault →
        Rose (V.faults terminal.old.vault) (V.faults terminal.new.vault) }
    ensures no_read_fault { result ≢ Status.ReadFault }
    ensures no_net_fault { result ≢ Status.NetFault }
    ensures not_usage { result ≢ Status.Usage }
    ensures done { result ≡ Status.Done → WhereKnown (V.holds terminal.new.vault) (λ held.
        accepted_count held ≡ length held.recorded) }
    ensures unsent { result ≡ Status.Unsent → WhereKnown (V.holds terminal.new.vault) (λ held.
        accepted_count held ≢ length held.recorded) }
{
    let outcome = report_all(alloc, dial, clock, terminal, host, port, tries);
    // What its state says of the fixes is then known of the vault too.
    let _done = terminal.done();
    let (recorded, accepted) = terminal.counts();
    tell_outcome(alloc, sink, &outcome, accepted, recorded)
}

// Writes why not all fixes were recorded.
#[tactic(auto, using(crate::proofs::Causes::not_read), unfolding(crate::specs::Came::report_text))]
fn tell_error<K: Sink>(alloc: Global, sink: &mut K, error: FixesError) -> Status
    ensures answers { AnswersReply result (report_text (came_of error))
        (K.written sink.old) (K.written sink.new) }
    ensures status { (result ≡ status_at error) ⊎ CutsShort result }
    ensures ends { EndsSo (came_of error) result }
    ensures read_fault { error ≡ noted.ReadFailed → result ≡ Status.ReadFault }
    ensures write_fault { result ≡ Status.WriteFault →
        Rose (K.faults sink.old) (K.faults sink.new) }
    ensures write_still { result ≢ Status.WriteFault → K.faults sink.new ≡ K.faults sink.old }
{
    match error {
        FixesError::BadLine(number, said) => tell_bad_line(alloc, sink, number, &said),
        FixesError::BeyondLimits(number) => answer_early_end(
            alloc,
            sink,
            EarlyEnd::BadLine(number),
        ),
        FixesError::VaultFull(limit) => answer_early_end(alloc, sink, EarlyEnd::VaultFull(limit)),
        FixesError::VaultFailed => answer_early_end(alloc, sink, EarlyEnd::StoreFault),
        FixesError::ReadFailed => Status::ReadFault,
        FixesError::Memory => Status::Memory,
    }
}

// Runs a terminal that started.
fn report_from<S: Source, K: Sink, D: Dial, C: Clock, V: Vault>(
    alloc: Global,
    source: &mut S,
    sink: &mut K,
    dial: &mut D,
    clock: &mut C,
    terminal: &mut Terminal<V>,
    host: &str,
    port: u16,
    tries: u32,
) -> Status
    requires down { terminal.old.state.phase ≡ Down }
    requires time { terminal.old.state.time ≡ 0 }
    ensures runs { RunsReport (λ started. started ≡ terminal.old.state) tries
        (S.left source.old) (S.left source.new)
        (scene_of (V.holds terminal.old.vault) (V.limit terminal.old.vault)
        (V.faults terminal.old.vault) (C.time clock.old) (D.pool dial.old) (D.faults dial.old))
        (scene_of (V.holds terminal.new.vault) (V.limit terminal.new.vault)
        (V.faults terminal.new.vault) (C.time clock.new) (D.pool dial.new) (D.faults dial.new))
        (K.written sink.old) (K.written sink.new) result }
    ensures vault { VaultKeeps (V.faults terminal.old.vault) (V.faults terminal.new.vault)
        (V.limit terminal.old.vault) (V.limit terminal.new.vault)
        (V.may_fail terminal.old.vault) (V.may_fail terminal.new.vault) }
    ensures read_fault { result ≡ Status.ReadFault →
        Rose (S.faults source.old) (S.faults source.new) }
    ensures read_still { result ≢ Status.ReadFault →
        S.faults source.new ≡ S.faults source.old }
    ensures write_fault { result ≡ Status.WriteFault →
        Rose (K.faults sink.old) (K.faults sink.new) }
    ensures write_still { result ≢ Status.WriteFault → K.faults sink.new ≡ K.faults sink.old }
    ensures store_fault { result ≡ Status.StoreFault →
        Rose (V.faults terminal.old.vault) (V.faults terminal.new.vault)
        ⊎ WhereKnown (V.holds terminal.new.vault) (λ held.
        pending_count held ≡ V.limit terminal.old.vault) }
    ensures no_net_fault { result ≢ Status.NetFault }
    ensures not_usage { result ≢ Status.Usage }
    ensures done { result ≡ Status.Done →
        WhereKnown (V.holds terminal.new.vault) (λ held. accepted_count held ≡ length held.recorded)
        × IsAtEnd (S.left source.new) }
    ensures unsent { result ≡ Status.Unsent →
        WhereKnown (V.holds terminal.new.vault) (λ held. accepted_count held ≢ length held.recorded)
        × IsAtEnd (S.left source.new) }
{
    match note_fixes(alloc, source, terminal) {
        Ok(()) => report_noted(alloc, sink, dial, clock, terminal, host, port, tries),
        Err(error) => tell_error(alloc, sink, error),
    }
}

// Writes why a vault did not load.
#[tactic(auto, using(crate::proofs::Causes::not_read), unfolding(crate::specs::Came::report_text))]
fn tell_refused<K: Sink>(alloc: Global, sink: &mut K, error: StoreError) -> Status
    requires { (limit : ℕ) → error ≢ Full limit }
    ensures answers { AnswersReply result (report_text (came_at error))
        (K.written sink.old) (K.written sink.new) }
    ensures status { (result ≡ status_of_refusal error) ⊎ CutsShort result }
    ensures ends { EndsSo (came_at error) result }
    ensures write_fault { result ≡ Status.WriteFault →
        Rose (K.faults sink.old) (K.faults sink.new) }
    ensures write_still { result ≢ Status.WriteFault → K.faults sink.new ≡ K.faults sink.old }
{
    match error {
        StoreError::Failed => answer_early_end(alloc, sink, EarlyEnd::StoreFault),
        StoreError::Memory => Status::Memory,
        StoreError::Full(_) => unreachable!(),
    }
}

/// Starts a terminal over the vault with the settings of the words, records the fix of each line of the source as it is read,
/// makes at most as many attempts to report as the words say, and writes a line for each that ended and the totals of the vault.
///
/// Nothing is dialled where a line is bad, which is told, or where the vault is full or fails before the first attempt. The vault
/// comes back in all cases.
pub fn report<S: Source, K: Sink, D: Dial, C: Clock, V: Vault>(
    alloc: Global,
    source: &mut S,
    sink: &mut K,
    dial: &mut D,
    clock: &mut C,
    vault: V,
    words: ReportWords,
) -> ReportRun<V>
    requires words { AreSpoken (values_in_words words) }
    ensures runs { RunsReport (IsStarted (settings_of words.phone words.plate words.terminal)
        (V.holds vault)) words.tries (S.left source.old) (S.left source.new)
        (scene_of (V.holds vault) (V.limit vault) (V.faults vault) (C.time clock.old)
        (D.pool dial.old) (D.faults dial.old))
        (scene_of (V.holds result.vault) (V.limit result.vault) (V.faults result.vault)
        (C.time clock.new) (D.pool dial.new) (D.faults dial.new))
        (K.written sink.old) (K.written sink.new) result.status }
    // The vault's limit stays, its count of faults never falls, and where none of its calls may fail none may later.
    ensures limit { V.limit result.vault ≡ V.limit vault }
    ensures later { V.faults vault ≤ V.faults result.vault }
    ensures steady { V.may_fail vault ≡ false → V.may_fail result.vault ≡ false }
    // Why a run ends with a fault.
    ensures read_fault { result.status ≡ Status.ReadFault →
        Rose (S.faults source.old) (S.faults source.new) }
    // Every other status, so Memory too, comes only where the count of faults stood still.
    ensures read_still { result.status ≢ Status.ReadFault →
        S.faults source.new ≡ S.faults source.old }
    ensures write_fault { result.status ≡ Status.WriteFault →
        Rose (K.faults sink.old) (K.faults sink.new) }
    ensures write_still { result.status ≢ Status.WriteFault →
        K.faults sink.new ≡ K.faults sink.old }
    ensures store_fault { result.status ≡ Status.StoreFault →
        Rose (V.faults vault) (V.faults result.vault)
        ⊎ WhereKnown (V.holds result.vault) (λ held. pending_count held ≡ V.limit vault) }
    ensures no_net_fault { result.status ≢ Status.NetFault }
    ensures not_usage { result.status ≢ Status.Usage }
    // On Done every recorded fix is accepted, and on Unsent not; on both the source was read to its end.
    ensures done { result.status ≡ Status.Done →
        WhereKnown (V.holds result.vault) (λ held. accepted_count held ≡ length held.recorded)
        × IsAtEnd (S.left source.new) }
    ensures unsent { result.status ≡ Status.Unsent →
        WhereKnown (V.holds result.vault) (λ held. accepted_count held ≢ length held.recorded)
        × IsAtEnd (S.left source.new) }
    // Where all lines are good, the vault has room, the dial's first link answers all in time, no count of faults rises and no read of
    // a link is quiet, it is Done, or memory was refused.
    ensures answered { HasAll (IsStarted (settings_of words.phone words.plate words.terminal)
        (V.holds vault)) (S.left source.old) (scene_of (V.holds vault) (V.limit vault)
        (V.faults vault) (C.time clock.old) (D.pool dial.old) (D.faults dial.old)) →
        WereFine (D.pool dial.old) (D.pool dial.new) →
        ¬ Rose (D.faults dial.old) (D.faults dial.new) →
        ¬ Rose (V.faults vault) (V.faults result.vault) →
        ¬ Rose (S.faults source.old) (S.faults source.new) →
        ¬ Rose (K.faults sink.old) (K.faults sink.new) →
        (result.status ≡ Status.Done) ⊎ (result.status ≡ Status.Memory) }
{
    let ReportWords {
        host,
        port,
        phone,
        plate,
        terminal,
        tries,
    } = words;
    let settings = match settings_for(alloc, phone, plate, terminal) {
        Ok(settings) => settings,
        Err(Memory) => {
            return ReportRun {
                status: Status::Memory,
                vault,
            };
        }
    };
    match Terminal::start(alloc, vault, settings) {
        Ok(terminal) => {
            let mut terminal = terminal;
            let status = report_from(
                alloc,
                source,
                sink,
                dial,
                clock,
                &mut terminal,
                host.as_str(),
                port,
                tries,
            );
            ReportRun {
                status,
                vault: terminal.into_vault(),
            }
        }
        Err((vault, error)) => ReportRun {
            status: tell_refused(alloc, sink, error),
            vault,
        },
    }
}
