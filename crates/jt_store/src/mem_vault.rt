//! A vault in memory, with a list of the calls that fail.

ghost use Rattle.std.specs.Prelude.{◌≡◌, ◌<◌, ◌≤◌, None, Some, [], IfOk, IfSome, length};
ghost use Rattle.jt_value.specs.declared.limits.TheConstants.{CODE_LIMIT, FIX_LIMIT};
ghost use Rattle.jt_store.specs.Memory.{is_listed, InOrder};
ghost use Rattle.jt_store.specs.Tables.{HasCause, IsSteady, Reads};
ghost use Rattle.jt_store.specs.Vaults.{Accepts, AreInOrder, Changes, Forms, IsLoaded, IsUnit, IsWhole, MayCommit, Records, Sets, octets_of};

use crate::calls::Calls;
use crate::error::StoreError;
use crate::unit::{Loaded, Unit, copy_slice};
use crate::vault::Vault;
use jt_position::Fix;
use jt_value::limits::NO_MARK;
use jt_value::{Memory, Octets, Seq};
use std::alloc::Global;
use std::marker::Model;

/// Keeps everything and tells it, and fails exactly the calls whose numbers are listed, counted from 1.
#[derive(Drop)]
pub struct MemVault {
    fixes: Seq<Fix>,
    units: Seq<Unit>,
    accepted: usize,
    mark: u16,
    next: u16,
    code: Option<Octets>,
    // How many fixes are in units, and how many of them are accepted.
    formed: usize,
    settled: usize,
    limit: u64,
    calls: Calls,
}

impl Model for MemVault {
    ghost use Rattle.jt_store.specs.Memory.{IsStock, Stock};

    ghost Value = { Stock };

    ghost view = { λ v. record { held = record { recorded = v.fixes; units = v.units; accepted = v.accepted; mark = v.mark; next = v.next; code = v.code }; limit = v.limit; calls = v.calls } };

    ghost invariant = { λ v. IsStock (record { recorded = v.fixes; units = v.units; accepted = v.accepted; mark = v.mark; next = v.next; code = v.code }) v.formed v.settled v.limit };
}

impl MemVault {
    /// Nothing kept, and no memory taken. So many fixes, at most 100,000, may be recorded and not accepted. `failing`
    /// has the numbers of the calls that fail; the number stays at 2^64 - 1 once it is there.
    pub fn new(alloc: Global, limit: u64, failing: Seq<u64>) -> MemVault
        requires { limit ≤ FIX_LIMIT }
        ensures { result ≡ record {
          held = record {
            recorded = [];
            units = [];
            accepted = 0;
            mark = NO_MARK;
            next = 0;
            code = None;
          };
          limit = limit;
          calls = record { failing = failing; count = 0; faults = 0 };
        } }
    {
        MemVault {
            fixes: Seq::new(alloc),
            units: Seq::new(alloc),
            accepted: 0,
            mark: NO_MARK,
            next: 0,
            code: None,
            formed: 0,
            settled: 0,
            limit,
            calls: Calls::new(failing),
        }
    }

    /// How many units are accepted.
    pub fn accepted(&self) -> usize
        ensures { result ≡ self.now.held.accepted }
    {
        self.accepted
    }
}

// A code that is lent, as one of its own.
fn copy_code(alloc: Global, code: Option<&[u8]>) -> Result<Option<Octets>, Memory>
    ensures { IfOk result (λ copy. copy ≡ octets_of code.entry) }
{
    match code {
        Some(octets) => Ok(Some(Octets::from_vec(Vec::from_slice(alloc, octets)?))),
        None => Ok(None),
    }
}

// The same code again.
fn copy_own(alloc: Global, code: &Option<Octets>) -> Result<Option<Octets>, Memory>
    ensures { IfOk result (λ copy. copy ≡ code.now) }
{
    match code {
        Some(octets) => Ok(Some(octets.copy(alloc)?)),
        None => Ok(None),
    }
}

impl Vault for MemVault {
    ghost holds = { λ vault. Some vault.held };

    ghost limit = { λ vault. vault.limit };

    ghost faults = { λ vault. vault.calls.faults };

    ghost may_fail = { λ vault. is_listed vault.calls.failing };

    fn load(&mut self, alloc: Global) -> Result<Loaded, StoreError>
        ensures answer { Reads (Some self.old.held) (Some self.new.held) IsLoaded result }
        ensures order { IfOk result (λ loaded.
            AreInOrder loaded.mark loaded.next loaded.units loaded.code) }
        ensures whole { IsWhole self.old.held }
        ensures limit { self.new.limit ≡ self.old.limit }
        ensures bound { self.old.limit ≤ FIX_LIMIT }
        ensures cause { HasCause self.old.calls.faults self.new.calls.faults result }
        ensures steady { IsSteady (is_listed self.old.calls.failing)
            (is_listed self.new.calls.failing) result }
        ensures in_order { InOrder self.old.calls self.new.calls result }
    {
        if !self.calls.goes() {
            return Err(StoreError::Failed);
        }
        let fixes = copy_slice(alloc, &self.fixes.as_slice()[self.formed..])?;
        let units = copy_slice(alloc, &self.units.as_slice()[self.accepted..])?;
        let code = copy_own(alloc, &self.code)?;
        Ok(Loaded {
            fixes,
            units,
            mark: self.mark,
            next: self.next,
            code,
            recorded: self.fixes.len() as u64,
            accepted: self.settled as u64,
        })
    }

    fn note_fix(&mut self, _alloc: Global, fix: &Fix) -> Result<(), StoreError>
        ensures answer { Records self.old.limit fix.now
            (Some self.old.held) (Some self.new.held) result }
        ensures limit { self.new.limit ≡ self.old.limit }
        ensures bound { self.old.limit ≤ FIX_LIMIT }
        ensures cause { HasCause self.old.calls.faults self.new.calls.faults result }
        ensures steady { IsSteady (is_listed self.old.calls.failing)
            (is_listed self.new.calls.failing) result }
        ensures in_order { InOrder self.old.calls self.new.calls result }
    {
        if !self.calls.goes() {
            return Err(StoreError::Failed);
        }
        if (self.fixes.len() - self.settled) as u64 == self.limit {
            return Err(StoreError::Full(self.limit));
        }
        let copy = fix.clone()?;
        self.fixes.push(copy)?;
        Ok(())
    }

    fn form(&mut self, _alloc: Global, unit: &Unit) -> Result<(), StoreError>
        requires unit { IsUnit unit.now }
        requires may { MayCommit self.old.held unit.now }
        ensures answer { Changes (Forms unit.now) (Some self.old.held) (Some self.new.held) result }
        ensures limit { self.new.limit ≡ self.old.limit }
        ensures bound { self.old.limit ≤ FIX_LIMIT }
        ensures cause { HasCause self.old.calls.faults self.new.calls.faults result }
        ensures steady { IsSteady (is_listed self.old.calls.failing)
            (is_listed self.new.calls.failing) result }
        ensures in_order { InOrder self.old.calls self.new.calls result }
    {
        if !self.calls.goes() {
            return Err(StoreError::Failed);
        }
        let copy = unit.clone()?;
        self.units.push(copy)?;
        prove!(unit.count as usize <= self.fixes.len() - self.formed);
        self.next = unit.serial.wrapping_add(1);
        self.formed += unit.count as usize;
        Ok(())
    }

    fn accept(&mut self, _alloc: Global) -> Result<(), StoreError>
        requires { self.old.held.accepted < length self.old.held.units }
        ensures answer { Changes Accepts (Some self.old.held) (Some self.new.held) result }
        ensures limit { self.new.limit ≡ self.old.limit }
        ensures bound { self.old.limit ≤ FIX_LIMIT }
        ensures cause { HasCause self.old.calls.faults self.new.calls.faults result }
        ensures steady { IsSteady (is_listed self.old.calls.failing)
            (is_listed self.new.calls.failing) result }
        ensures in_order { InOrder self.old.calls self.new.calls result }
    {
        if !self.calls.goes() {
            return Err(StoreError::Failed);
        }
        prove!(self.accepted < self.units.len());
        let Some(unit) = self.units.get(self.accepted) else {
            unreachable!();
        };
        let Unit { serial, count, .. } = unit;
        self.mark = *serial;
        self.settled += *count as usize;
        self.accepted += 1;
        Ok(())
    }

    fn set_code(&mut self, alloc: Global, code: Option<&[u8]>) -> Result<(), StoreError>
        requires { IfSome (octets_of code) (λ octets. length octets ≤ CODE_LIMIT) }
        ensures answer { Changes (Sets (octets_of code.entry))
            (Some self.old.held) (Some self.new.held) result }
        ensures limit { self.new.limit ≡ self.old.limit }
        ensures bound { self.old.limit ≤ FIX_LIMIT }
        ensures cause { HasCause self.old.calls.faults self.new.calls.faults result }
        ensures steady { IsSteady (is_listed self.old.calls.failing)
            (is_listed self.new.calls.failing) result }
        ensures in_order { InOrder self.old.calls self.new.calls result }
    {
        if !self.calls.goes() {
            return Err(StoreError::Failed);
        }
        self.code = copy_code(alloc, code)?;
        Ok(())
    }
}
