//! The table of a terminal's parameters.

ghost use Rattle.std.specs.Prelude.{◌≡◌, ℕ, ◌+◌, ◌<◌, ◌≤◌, ◌^◌, length, OnOk, OnErr, IfOk, IfErr, option_copied, Some};
ghost use Rattle.std.specs.BTreeMap as tree;
ghost use Rattle.std.specs.FinMap as map;
ghost use Rattle.std.specs.List.{All};
ghost use Rattle.std.specs.Option.{option_and_then, option_or};
ghost use Rattle.std.specs.Ordering.{nat_cmp};
ghost use Rattle.jt_params.specs.Tables.{HasOctets, HaveOctets, IsOneTable, Sets, dword_of, last_value, listed, param_at, params_of, selected};
ghost use Rattle.jt_params.specs.Refused.{IsTooMany};

use crate::param::{Param, ParamValue};
use jt_value::limits::OCTET_COUNT_LIMIT;
use jt_value::{Memory, Seq};
use std::alloc::{AllocError, AllocFailed, Global};
use std::collections::BTreeMap;
use std::marker::Model;

/// Parameters, each under its id, at most 255.
#[derive(Drop)]
pub struct ParamTable {
    values: BTreeMap<u32, ParamValue>,
}

impl Model for ParamTable {
    ghost use Rattle.std.specs.Prelude.{◌≤◌};
    ghost use Rattle.std.specs.BTreeMap.{btree_map_len};
    ghost use Rattle.std.specs.FinMap.{from_entries};
    ghost use Rattle.jt_params.specs.Tables.{Table};
    ghost use Rattle.std.specs.Coded.{coded_ℕ};
    ghost use Rattle.std.specs.FinMap.{code};
    ghost use Rattle.jt_params.specs.contracts.param.ParamValue as value;
    ghost use Rattle.jt_value.specs.declared.limits.TheConstants.{OCTET_COUNT_LIMIT};

    ghost Value = { Table };

    ghost coded = { code coded_ℕ value.the_row.coded };

    ghost view = { λ table. from_entries table.values.entries };

    ghost invariant = { λ table. btree_map_len table.values ≤ OCTET_COUNT_LIMIT };
}

/// Why a table did not take parameters.
#[derive(Clone, Copy, Debug, PartialEq, Eq)]
pub enum ParamError {
    /// The table would have so many parameters, which is more than 255.
    TooMany(u32),
    /// Memory was wanted and refused.
    Memory,
}

impl From<Memory> for ParamError {
    ghost use Rattle.jt_params.specs.declared.table.ParamError.TheVariants as errors;

    ghost from_gives = { λ _ error. error ≡ errors.Memory };

    fn from(_memory: Memory) -> ParamError {
        ParamError::Memory
    }
}

impl From<AllocError> for ParamError {
    ghost use Rattle.jt_params.specs.declared.table.ParamError.TheVariants as errors;

    ghost from_gives = { λ _ error. error ≡ errors.Memory };

    fn from(_error: AllocError) -> ParamError {
        ParamError::Memory
    }
}

impl<T: Drop> From<AllocFailed<T>> for ParamError {
    ghost use Rattle.jt_params.specs.declared.table.ParamError.TheVariants as errors;

    ghost from_gives = { λ _ error. error ≡ errors.Memory };

    fn from(_error: AllocFailed<T>) -> ParamError {
        ParamError::Memory
    }
}

// Sets parameters in a map. After a want of memory the map may have some of them.
fn set_in(values: &mut BTreeMap<u32, ParamValue>, params: &[Param]) -> Result<(), Memory>
    ensures values { OnOk result ((id : ℕ) → tree.get nat_cmp values.new id
        ≡ option_or (last_value params.now id) (tree.get nat_cmp values.old id)) }
    ensures size { OnOk result
        (tree.btree_map_len values.new ≤ tree.btree_map_len values.old + length params.now) }
{
    for param in params {
        values.insert(param.id, param.value.clone()?)?;
    }
    Ok(())
}

// The parameters of a map in its order.
fn listed_in(alloc: Global, values: &BTreeMap<u32, ParamValue>) -> Result<Seq<Param>, Memory>
    ensures params { IfOk result (λ params. params ≡ params_of values.now.entries) }
    ensures ordered { tree.IsOrdered nat_cmp values.now }
    ensures found { IfOk result (λ _.
        All (λ pair. tree.get nat_cmp values.now pair.0 ≡ Some pair.1) values.now.entries) }
{
    let mut params = Vec::with_capacity(alloc, values.len())?;
    for (id, value) in values {
        params.push(Param {
            id: *id,
            value: value.clone()?,
        })?;
    }
    Ok(Seq::from_vec(params))
}

impl ParamTable {
    /// A table without parameters, which takes no memory.
    pub fn new(alloc: Global) -> ParamTable
        ensures empty { result ≡ map.empty }
        ensures octets { HasOctets result }
    {
        ParamTable {
            values: BTreeMap::new(alloc),
        }
    }

    /// Sets at most 65,535 parameters in their order: a later one of an id replaces an earlier one, and one that the table
    /// has. TooMany comes exactly where the table would then have more than 255, and has their number. After each error the
    /// table is as before.
    pub fn set_all(&mut self, params: &Seq<Param>) -> Result<(), ParamError>
        requires { length params.now < 2 ^ 16 }
        ensures ok { OnOk result (Sets params.now self.old self.new) }
        ensures few { OnOk result (map.len self.new ≤ OCTET_COUNT_LIMIT) }
        ensures too_many { IfErr result (IsTooMany params.now self.old) }
        ensures err { OnErr result (self.new ≡ self.old) }
        ensures octets { HaveOctets params.now → HasOctets self.old → HasOctets self.new }
    {
        let mut values = self.values.clone()?;
        set_in(&mut values, params.as_slice())?;
        let count = values.len();
        if count > OCTET_COUNT_LIMIT {
            return Err(ParamError::TooMany(count as u32));
        }
        self.values = values;
        Ok(())
    }

    /// The same table again.
    pub fn copy(&self) -> Result<ParamTable, Memory>
        ensures { IfOk result (λ copy. copy ≡ self.now) }
    {
        Ok(ParamTable {
            values: self.values.clone()?,
        })
    }

    /// All parameters in order of their ids.
    pub fn list(&self, alloc: Global) -> Result<Seq<Param>, Memory>
        ensures params { IfOk result (λ params. params ≡ listed self.now) }
        ensures few { IfOk result (λ params. length params ≤ OCTET_COUNT_LIMIT) }
        ensures octets { HasOctets self.now → IfOk result HaveOctets }
    {
        listed_in(alloc, &self.values)
    }

    // The value under an id.
    fn value(&self, id: u32) -> Option<&ParamValue>
        ensures { option_copied result ≡ map.get self.now id }
    {
        self.values.get(&id)
    }

    // The parameter of an id, if there is one.
    fn param(&self, id: u32) -> Result<Option<Param>, Memory>
        ensures { IfOk result (λ param. param ≡ param_at self.now id) }
    {
        match self.value(id) {
            Some(value) => Ok(Some(Param {
                id,
                value: value.clone()?,
            })),
            None => Ok(None),
        }
    }

    /// The parameters of these ids that the table has, in the order asked.
    pub fn select(&self, alloc: Global, ids: &Seq<u32>) -> Result<Seq<Param>, Memory>
        ensures params { IfOk result (λ params. params ≡ selected self.now ids.now) }
        ensures few { IfOk result (λ params. length params ≤ length ids.now) }
        ensures octets { HasOctets self.now → IfOk result HaveOctets }
    {
        let mut params = Seq::new(alloc);
        for id in ids.as_slice() {
            if let Some(param) = self.param(*id)? {
                params.push(param)?;
            }
        }
        Ok(params)
    }

    /// The number under an id, Some exactly where the table has the id with a value of four octets that is typed so.
    pub fn dword(&self, id: u32) -> Option<u32>
        ensures { result ≡ option_and_then dword_of (map.get self.now id) }
    {
        match self.value(id) {
            Some(ParamValue::Dword(number)) => Some(*number),
            _ => None,
        }
    }
}

/// The law of tables: parameters make exactly one table of each table.
pub fn law_tables()
    ensures { IsOneTable }
{}
