//! The world of a rehearsal.

ghost use Rattle.std.specs.Prelude.{◌≡◌, ◌≢◌, ◌↔◌, ◌⊎◌, drop, length, false, true, ℕ, Err, IfOk, OnOk};
ghost use Rattle.jt_store.specs.Units.{fixes_in};
ghost use Rattle.jt_value.specs.declared.limits.TheConstants.{FIX_LIMIT};
ghost use Rattle.jt_value.specs.declared.phone.Edition.TheVariants.{E2013};
ghost use Rattle.jt_octets.specs.Reaching.{Leads, Reached};
ghost use Rattle.jt_play.specs.Laws.{RecordsAtMost};
ghost use Rattle.jt_play.specs.Playing.{entries_between, finds_full, is_opened, play_after, RunsTo};
ghost use Rattle.jt_play.specs.Scripts.{IsPlayed, IsScripted, Names, TakesEdition, TakesPhone, at_most_u64, edition_by, settings_in, totals_of};
ghost use Rattle.jt_play.specs.declared.error.WorldError.{WorldError};
ghost use Rattle.jt_play.specs.declared.error.WorldError.TheVariants as refused;
ghost use Rattle.jt_script.specs.declared.world_event.WorldEvent.TheVariants as asked;
ghost use Rattle.jt_world.specs.Rehearsal.{first, the_identity};

use crate::settings::{fleet, identity, secret};
use jt_event_lines::WorldTotals;
use jt_platform::Entry;
use jt_play::{WorldError, WorldEvent};
use jt_position::Fix;
use jt_store::Row;
use jt_value::{Memory, Seq};
use std::alloc::Global;
use std::marker::Model;

/// One terminal over a vault in memory, one hub over a keeper in memory, and the lines of
/// communication between them, which are numbered from 1. Line L is session L.
#[derive(Drop)]
pub struct World {
    played: jt_play::World,
}

impl Model for World {
    ghost use Rattle.std.specs.Coded.{codes};
    ghost use Rattle.jt_subpacket.specs.Stored.{partial_code};
    ghost use Rattle.jt_params.specs.contracts.table.ParamTable as params;
    ghost use Rattle.jt_regions.specs.contracts.region_table.RegionTable as regions;
    ghost use Rattle.jt_play.specs.Scripts.{Scene};

    ghost Value = { Scene };

    ghost coded = { Prim.hlevel (codes, partial_code, params.the_row.coded, regions.the_row.coded) };

    ghost view = { λ w. w.played };
}

impl World {
    /// The world in which nothing has happened. The terminal is one of 2013, with the phone
    /// 013912345678, the terminal id `1234567`, the plate `JT808` and otherwise the settings of
    /// `report`, without a line over an empty vault that takes 100,000 fixes. The hub has the
    /// secret `12` and a fleet of this plate and this terminal id, over an empty keeper of at most
    /// 1,000,000,000 rows. The clock stands at 0. Memory comes where memory ran out.
    pub fn new(alloc: Global) -> Result<World, Memory>
        ensures new { IfOk result (λ world. world.play ≡ first) }
        ensures identity { IfOk result (λ world. world.identity ≡ the_identity) }
        ensures scripted { IfOk result IsScripted }
        ensures edition { IfOk result (λ world. world.edition ≡ E2013) }
        ensures reached { IfOk result (λ world. Reached world.play.world) }
    {
        let identity = identity(alloc)?;
        let fleet = fleet(alloc)?;
        let secret = secret(alloc)?;
        Ok(World {
            played: jt_play::World::new(alloc, identity, fleet, secret)?,
        })
    }

    /// A line of a script, and the entries that it made, in order. After each answer the world is
    /// one to which steps lead, and its terminal recorded the line's fix or nothing. The terminal has
    /// the edition of before or the one that the line sets, and the phone of before or its phone of the
    /// edition that the line sets or leaves. After Ok the world is the one that the line defines, if
    /// lines of a script alone led to the one before; of each line but `run` and the terminal's restart
    /// that holds whatever happened before.
    ///
    /// NoLine comes exactly where the line that is named was not opened. Where as many fixes as the
    /// limit are not accepted and one is to be recorded, the answer is Full, which comes only there, or
    /// Memory. Where the answer is NoLine or Full the world is as before. Memory comes where memory ran out, or where as
    /// many lines were opened as have a number; the line was then done in part.
    pub fn step(&mut self, alloc: Global, event: WorldEvent) -> Result<Seq<Entry>, WorldError>
        ensures leads { Leads self.old.play.world self.new.play.world }
        ensures identity { self.new.identity ≡ self.old.identity }
        ensures recorded { RecordsAtMost event self.old.play.world.terminal.recorded
            self.new.play.world.terminal.recorded }
        ensures phone { TakesPhone self.old.identity self.old.edition event
            self.old.play.world.terminal.phone self.new.play.world.terminal.phone }
        ensures edition { OnOk result (self.new.edition ≡ edition_by self.old.edition event) }
        ensures present { TakesEdition event self.old.edition self.new.edition }
        ensures ok { IsScripted self.old → OnOk result (self.new.play
            ≡ play_after (settings_in self.old.identity) self.old.play event) }
        ensures played { IsPlayed self.old.identity self.old.edition self.old.play event →
            OnOk result (self.new.play
            ≡ play_after (settings_in self.old.identity) self.old.play event) }
        ensures scripted { IsScripted self.old → OnOk result (IsScripted self.new) }
        ensures ran { event ≡ asked.Run → OnOk result (RunsTo self.old.play self.new.play) }
        ensures entries { IfOk result (λ entries.
            entries ≡ entries_between self.old.play.world self.new.play.world) }
        ensures no_line { (line : ℕ) → (result ≡ Err (refused.NoLine line))
            ↔ (Names event line × (is_opened self.old.play.world line ≡ false)) }
        ensures full { (limit : ℕ) → result ≡ Err (refused.Full limit) →
            (limit ≡ FIX_LIMIT) × (finds_full FIX_LIMIT self.old.play event ≡ true) }
        ensures at_full { finds_full FIX_LIMIT self.old.play event ≡ true →
            (result ≡ Err (refused.Full FIX_LIMIT)) ⊎ (result ≡ Err refused.Memory) }
        ensures room { OnOk result (finds_full FIX_LIMIT self.old.play event ≡ false) }
        ensures same { (error : WorldError) → result ≡ Err error → error ≢ refused.Memory →
            self.new ≡ self.old }
    {
        self.played.step(alloc, event)
    }

    /// How far the world came. Each count stands still at 2^64 - 1.
    pub fn totals(&self) -> WorldTotals
        ensures { result ≡ totals_of self.now.play }
    {
        self.played.totals()
    }

    /// The rows that the hub's keeper has of the terminal's phone, the oldest first.
    pub fn rows(&self) -> &[Row]
        ensures { result.now ≡ self.now.play.world.keeper.rows }
    {
        self.played.rows()
    }

    /// The fixes of these rows behind so many, in order. Memory comes where memory ran out.
    pub fn fixes_behind(&self, alloc: Global, mark: u64) -> Result<Seq<Fix>, Memory>
        ensures { IfOk result (λ fixes.
            fixes ≡ drop mark (fixes_in self.now.play.world.keeper.rows)) }
    {
        self.played.fixes_behind(alloc, mark)
    }

    /// How many fixes the terminal recorded, at most 2^64 - 1.
    pub fn recorded(&self) -> u64
        ensures count { result ≡ at_most_u64 (length self.now.play.held.recorded) }
        ensures held { self.now.play.held.recorded ≡ self.now.play.world.terminal.recorded }
    {
        self.played.recorded()
    }
}
