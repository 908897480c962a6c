//! The links of a script, for dials and listeners in memory.

ghost use Rattle.std.specs.Prelude.{◌≡◌, ◌<◌, [], IfOk};
ghost use Rattle.jt_outside.specs.ScriptLink.{AreUntouched};
ghost use Rattle.jt_outside.specs.ScriptPool.{GivesFirst, with_back};

use crate::script_link::ScriptLink;
use jt_value::{Memory, Seq};
use std::alloc::Global;
use std::marker::Model;

/// Links to come, and those that came back. The room for these was taken at first.
#[derive(Drop)]
pub(crate) struct ScriptPool {
    coming: Vec<ScriptLink>,
    back: Vec<ScriptLink>,
    lent: usize,
}

impl Model for ScriptPool {
    ghost use Rattle.std.specs.Prelude.{◌≤◌, ◌+◌, vec_len, vec_capacity};
    ghost use Rattle.jt_outside.specs.ScriptLink.{AreUntouched};
    ghost use Rattle.jt_outside.specs.ScriptPool.{PoolState};

    ghost Value = { PoolState };

    ghost view = { λ p. record { coming = p.coming.items; back = p.back.items; lent = p.lent } };

    ghost invariant = { λ p. (vec_len p.coming + p.lent + vec_len p.back ≤ vec_capacity p.back) × AreUntouched p.coming.items };
}

impl ScriptPool {
    pub(crate) fn new(alloc: Global, links: Seq<ScriptLink>) -> Result<ScriptPool, Memory>
        requires { AreUntouched links }
        ensures { IfOk result (λ pool. pool ≡ record { coming = links; back = []; lent = 0 }) }
    {
        let coming = links.into_vec();
        let back = Vec::with_capacity(alloc, coming.len())?;
        Ok(ScriptPool {
            coming,
            back,
            lent: 0,
        })
    }

    /// The first link that is to come.
    pub(crate) fn give(&mut self) -> Option<ScriptLink>
        ensures { GivesFirst self.old self.new result }
    {
        if self.coming.is_empty() {
            return None;
        }
        let link = self.coming.remove(0);
        self.lent += 1;
        Some(link)
    }

    pub(crate) fn take_back(&mut self, link: ScriptLink)
        requires { 0 < self.old.lent }
        ensures { self.new ≡ with_back link self.old }
    {
        self.lent -= 1;
        match self.back.push(link) {
            Ok(()) => {}
            Err(_) => unreachable!(),
        }
    }

    /// The links that came back, in order.
    pub(crate) fn back(&self) -> &[ScriptLink]
        ensures { result.now ≡ self.now.back }
    {
        self.back.as_slice()
    }
}
