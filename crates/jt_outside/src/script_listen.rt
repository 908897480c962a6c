//! A listener in memory, for tests.

ghost use Rattle.std.specs.Prelude.{◌≡◌, ◌<◌, [], Some, IfOk, IfSome, false};
ghost use Rattle.jt_value.specs.Counts.{Rose, Counts};
ghost use Rattle.jt_outside.specs.Pool.{taken_back};
ghost use Rattle.jt_outside.specs.Accepted.{Accepts};
ghost use Rattle.jt_outside.specs.declared.listen.Accepted.TheVariants.{Failed};
ghost use Rattle.jt_outside.specs.ScriptLink.{AreUntouched};
ghost use Rattle.jt_outside.specs.ScriptPool.{pool_of, wire, with_back};
ghost use Rattle.jt_outside.specs.ScriptDial.{StartsInOrder, AcceptsInOrder};

use crate::listen::{Accepted, Listen};
use crate::script_link::ScriptLink;
use crate::script_pool::ScriptPool;
use jt_value::{Memory, Seq};
use std::alloc::Global;
use std::marker::Model;

/// A listener to which the links of a list come, in order, at whichever port. It fails exactly the calls whose numbers are
/// listed, `start` and `accept` counted together.
#[derive(Drop)]
pub struct ScriptListen {
    links: ScriptPool,
    failing: Vec<u64>,
    calls: u64,
    faults: u64,
}

impl Model for ScriptListen {
    ghost use Rattle.std.specs.Prelude.{◌≤◌, ◌-◌, ◌^◌};
    ghost use Rattle.jt_outside.specs.ScriptDial.{DialState};

    ghost Value = { DialState };

    ghost view = { λ d. record { links = d.links; failing = d.failing.items; calls = d.calls; faults = d.faults } };

    ghost invariant = { λ d. d.faults ≤ 2 ^ 64 - 1 };
}

impl ScriptListen {
    /// A listener of these links, which were never read or written. `failing` has the numbers of the calls that fail,
    /// counted from 1; taking links back is not counted. The number stays at 2^64 - 1 once it is there.
    pub fn new(
        alloc: Global,
        links: Seq<ScriptLink>,
        failing: Seq<u64>,
    ) -> Result<ScriptListen, Memory>
        requires { AreUntouched links }
        ensures { IfOk result (λ listen. listen ≡ record {
          links = record { coming = links; back = []; lent = 0 };
          failing = failing;
          calls = 0;
          faults = 0;
        }) }
    {
        Ok(ScriptListen {
            links: ScriptPool::new(alloc, links)?,
            failing: failing.into_vec(),
            calls: 0,
            faults: 0,
        })
    }

    /// The links that came back, in order.
    pub fn links_back(&self) -> &[ScriptLink]
        ensures { result.now ≡ self.now.links.back }
    {
        self.links.back()
    }
}

impl Listen for ScriptListen {
    type Link = ScriptLink;

    ghost pool = { λ listen. pool_of listen.links };

    ghost faults = { λ listen. listen.faults };

    fn start(&mut self, _port: u16) -> bool
        ensures links { pool_of self.new.links ≡ pool_of self.old.links }
        ensures count { Counts self.old.faults self.new.faults }
        ensures cause { result ≡ false → Rose self.old.faults self.new.faults }
        ensures in_order { StartsInOrder self.old self.new result }
    {
        self.calls = self.calls.saturating_add(1);
        if self.failing.contains(&self.calls) {
            self.faults = self.faults.saturating_add(1);
            return false;
        }
        true
    }

    fn accept(&mut self) -> Accepted<ScriptLink>
        ensures link { Accepts wire (pool_of self.old.links) (pool_of self.new.links) result }
        ensures count { Counts self.old.faults self.new.faults }
        ensures cause { result ≡ Failed → Rose self.old.faults self.new.faults }
        ensures in_order { AcceptsInOrder self.old self.new result }
    {
        self.calls = self.calls.saturating_add(1);
        if self.failing.contains(&self.calls) {
            self.faults = self.faults.saturating_add(1);
            return Accepted::Failed;
        }
        match self.links.give() {
            Some(link) => Accepted::Link(link),
            None => Accepted::Over,
        }
    }

    fn back(&mut self, link: ScriptLink)
        requires { IfSome (Some self.old.links.lent) (λ lent. 0 < lent) }
        ensures back { pool_of self.new.links ≡ taken_back (wire link) (pool_of self.old.links) }
        ensures count { self.new.faults ≡ self.old.faults }
        ensures in_order { self.new ≡ record self.old { links = with_back link self.old.links } }
    {
        self.links.take_back(link);
    }
}
