//! A dial in memory, for tests.

ghost use Rattle.std.specs.Prelude.{◌≡◌, ◌<◌, [], Some, IfOk, IfSome, IsNone};
ghost use Rattle.std.specs.Prelude.{option_map};
ghost use Rattle.jt_value.specs.Counts.{Rose, Counts};
ghost use Rattle.jt_outside.specs.Pool.{GivesLink, taken_back};
ghost use Rattle.jt_outside.specs.ScriptLink.{AreUntouched};
ghost use Rattle.jt_outside.specs.ScriptPool.{pool_of, wire, with_back};
ghost use Rattle.jt_outside.specs.ScriptDial.{DialsInOrder};

use crate::dial::Dial;
use crate::script_link::ScriptLink;
use crate::script_pool::ScriptPool;
use jt_value::{Memory, Seq};
use std::alloc::Global;
use std::marker::Model;

/// A dial that gives the links of a list, in order, to whichever host and port. It fails exactly the calls whose numbers are
/// listed, and those without a link left.
#[derive(Drop)]
pub struct ScriptDial {
    links: ScriptPool,
    failing: Vec<u64>,
    calls: u64,
    faults: u64,
}

impl Model for ScriptDial {
    ghost use Rattle.std.specs.Prelude.{◌≤◌, ◌-◌, ◌^◌};
    ghost use Rattle.jt_outside.specs.ScriptDial.{DialState};

    ghost Value = { DialState };

    ghost view = { λ d. record { links = d.links; failing = d.failing.items; calls = d.calls; faults = d.faults } };

    ghost invariant = { λ d. d.faults ≤ 2 ^ 64 - 1 };
}

impl ScriptDial {
    /// A dial of these links, which were never read or written. `failing` has the numbers of the dials that fail, counted
    /// from 1; taking links back is not counted. The number stays at 2^64 - 1 once it is there.
    pub fn new(
        alloc: Global,
        links: Seq<ScriptLink>,
        failing: Seq<u64>,
    ) -> Result<ScriptDial, Memory>
        requires { AreUntouched links }
        ensures { IfOk result (λ dial. dial ≡ record {
          links = record { coming = links; back = []; lent = 0 };
          failing = failing;
          calls = 0;
          faults = 0;
        }) }
    {
        Ok(ScriptDial {
            links: ScriptPool::new(alloc, links)?,
            failing: failing.into_vec(),
            calls: 0,
            faults: 0,
        })
    }

    /// The links that came back, in order.
    pub fn links_back(&self) -> &[ScriptLink]
        ensures { result.now ≡ self.now.links.back }
    {
        self.links.back()
    }
}

impl Dial for ScriptDial {
    type Link = ScriptLink;

    ghost pool = { λ dial. pool_of dial.links };

    ghost faults = { λ dial. dial.faults };

    fn dial(&mut self, _host: &str, _port: u16) -> Option<ScriptLink>
        ensures link { GivesLink (pool_of self.old.links) (pool_of self.new.links)
            (option_map wire result) }
        ensures count { Counts self.old.faults self.new.faults }
        ensures cause { IsNone result → Rose self.old.faults self.new.faults }
        ensures in_order { DialsInOrder self.old self.new result }
    {
        self.calls = self.calls.saturating_add(1);
        if self.failing.contains(&self.calls) {
            self.faults = self.faults.saturating_add(1);
            return None;
        }
        match self.links.give() {
            Some(link) => Some(link),
            None => {
                self.faults = self.faults.saturating_add(1);
                None
            }
        }
    }

    fn back(&mut self, link: ScriptLink)
        requires { IfSome (Some self.old.links.lent) (λ lent. 0 < lent) }
        ensures back { pool_of self.new.links ≡ taken_back (wire link) (pool_of self.old.links) }
        ensures count { self.new.faults ≡ self.old.faults }
        ensures in_order { self.new ≡ record self.old { links = with_back link self.old.links } }
    {
        self.links.take_back(link);
    }
}
