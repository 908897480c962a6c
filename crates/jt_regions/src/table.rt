//! The regions of one kind.

ghost use Rattle.std.specs.Prelude.{◌≡◌, ℕ, map as map_list, nat_eq, ◌≤◌, ◌+◌, [], ◌∷◌, length, IfOk, IfSome, OnErr, OnOk, option_copied, if◌then◌else◌, None};
ghost use Rattle.std.specs.BTreeMap as tree;
ghost use Rattle.std.specs.FinMap as map;
ghost use Rattle.std.specs.Ordering.{nat_cmp};
ghost use Rattle.std.specs.Option.{option_or};
ghost use Rattle.std.specs.List.{list_any};
ghost use Rattle.jt_value.specs.declared.limits.TheConstants.{WORD_COUNT_LIMIT};
ghost use Rattle.jt_regions.specs.Kinds as kinds;
ghost use Rattle.jt_regions.specs.Kinds.{last_with, first_missing, count_after, Sets, after_deletion, listed};
ghost use Rattle.jt_regions.specs.Steps.{OwnIds, After};

use crate::error::RegionError;
use crate::identified::Identified;
use jt_value::{Memory, Seq};
use std::alloc::{AllocError, Global};
use std::collections::BTreeMap;
use std::marker::Model;

/// The most regions of one kind.
const REGION_LIMIT: usize = 1024;

/// At most 1,024 regions, each under its id.
#[derive(Drop)]
pub struct Table<T: Identified> {
    alloc: Global,
    regions: BTreeMap<u32, T>,
}

impl<T: Identified> Model for Table<T> {
    ghost use Rattle.std.specs.Prelude.{◌≤◌};
    ghost use Rattle.std.specs.BTreeMap.{btree_map_len};
    ghost use Rattle.std.specs.Coded.{coded_ℕ};
    ghost use Rattle.std.specs.FinMap.{FinMap, code, from_entries};
    ghost use Rattle.std.specs.Ordering.{nat_cmp};
    ghost use Rattle.jt_regions.specs.Steps.{OwnIds};
    ghost use Rattle.jt_regions.specs.declared.table.TheConstants.{REGION_LIMIT};

    ghost Value = { FinMap nat_cmp T };

    ghost coded = { code coded_ℕ T.code };

    ghost view = { λ table. from_entries table.regions.entries };

    ghost invariant = { λ table. (btree_map_len table.regions ≤ REGION_LIMIT) × OwnIds T.id_of table.regions.entries };
}

// The map with the last region of a list under each id, and otherwise with those that it had.
fn filled<T: Identified>(
    regions: BTreeMap<u32, T>,
    list: &[T],
) -> Result<BTreeMap<u32, T>, AllocError>
    ensures regions { IfOk result (λ filled. (id : ℕ) → tree.get nat_cmp filled id
        ≡ option_or (last_with T.id_of list.now id) (tree.get nat_cmp regions id)) }
    ensures len { IfOk result (λ filled.
        tree.btree_map_len filled ≤ tree.btree_map_len regions + length list.now) }
{
    let mut filled = regions;
    for region in list {
        filled.insert(region.id(), region.clone()?)?;
    }
    Ok(filled)
}

// What a setting keeps of the regions that there are.
fn kept<T: Identified>(
    alloc: Global,
    regions: &BTreeMap<u32, T>,
    setting: u8,
) -> Result<BTreeMap<u32, T>, AllocError>
    ensures regions { IfOk result (λ kept. (id : ℕ) → tree.get nat_cmp kept id
        ≡ map.get (kinds.kept setting (map.from_entries regions.now.entries)) id) }
    ensures len { IfOk result (λ kept. tree.btree_map_len kept ≤ tree.btree_map_len regions.now) }
{
    if setting == 0 {
        return Ok(BTreeMap::new(alloc));
    }
    Ok(regions.clone()?)
}

// The first id of the list under which there is no region.
fn absent<T: Identified>(regions: &BTreeMap<u32, T>, list: &[T]) -> Option<u32>
    ensures { result ≡ first_missing T.id_of (map.from_entries regions.now.entries) list.now }
{
    for region in list {
        let id = region.id();
        if !regions.contains_key(&id) {
            return Some(id);
        }
    }
    None
}

// The id that a setting has no region for.
fn missing<T: Identified>(regions: &BTreeMap<u32, T>, setting: u8, list: &[T]) -> Option<u32>
    ensures { result
        ≡ kinds.missing T.id_of setting list.now (map.from_entries regions.now.entries) }
{
    if setting == 2 {
        absent(regions, list)
    } else {
        None
    }
}

// How many regions there are with one more.
fn count_with<T: Identified>(regions: &BTreeMap<u32, T>, region: &T) -> usize
    ensures count { result
        ≡ count_after T.id_of 1 (region.now ∷ []) (map.from_entries regions.now.entries) }
    ensures few { result ≤ tree.btree_map_len regions.now + 1 }
{
    let more = if regions.contains_key(&region.id()) {
        0
    } else {
        1
    };
    regions.len() + more
}

// Takes out the regions of these ids.
fn take_out<T: Identified>(regions: &mut BTreeMap<u32, T>, ids: &[u32])
    ensures regions { (id : ℕ) → tree.get nat_cmp regions.new id
        ≡ (if list_any (nat_eq id) ids.now then None else tree.get nat_cmp regions.old id) }
    ensures len { tree.btree_map_len regions.new ≤ tree.btree_map_len regions.old }
{
    for id in ids {
        regions.remove(id);
    }
}

// The map after a setting.
fn after<T: Identified>(
    alloc: Global,
    regions: &BTreeMap<u32, T>,
    setting: u8,
    list: &[T],
) -> Result<BTreeMap<u32, T>, AllocError>
    requires few { tree.btree_map_len regions.now ≤ REGION_LIMIT }
    requires own { OwnIds T.id_of regions.now.entries }
    requires list { length list.now ≤ WORD_COUNT_LIMIT }
    ensures regions { IfOk result (λ next.
        After T.id_of setting list.now regions.now.entries next.entries) }
    ensures few { IfOk result (λ next. tree.btree_map_len next ≤ 66559) }
{
    let kept = kept(alloc, regions, setting)?;
    let next = filled(kept, list)?;
    let _count = next.len();
    Ok(next)
}

// Puts a copy of a region over the map.
fn put_over<T: Identified>(regions: &mut BTreeMap<u32, T>, region: &T) -> Result<(), AllocError>
    requires { OwnIds T.id_of regions.old.entries }
    ensures ok { OnOk result
        (After T.id_of 1 (region.now ∷ []) regions.old.entries regions.new.entries) }
    ensures err { OnErr result (tree.IsUnchanged regions.old regions.new) }
{
    let region = region.clone()?;
    regions.insert(region.id(), region)?;
    Ok(())
}

// The regions of a map in its order.
fn listed<T: Identified>(alloc: Global, regions: &BTreeMap<u32, T>) -> Result<Seq<T>, Memory>
    ensures regions { IfOk result (λ list. list ≡ map_list (λ entry. entry.1) regions.now.entries) }
    ensures ordered { tree.IsOrdered nat_cmp regions.now }
{
    let mut list = Vec::with_capacity(alloc, regions.len())?;
    for (_, region) in regions {
        list.push(region.clone()?)?;
    }
    Ok(Seq::from_vec(list))
}

impl<T: Identified> Table<T> {
    /// No regions.
    pub fn new(alloc: Global) -> Table<T>
        ensures { result ≡ map.empty }
    {
        Table {
            alloc,
            regions: BTreeMap::new(alloc),
        }
    }

    /// The same table again.
    pub fn copy(&self) -> Result<Table<T>, Memory>
        ensures { IfOk result (λ copy. copy ≡ self.now) }
    {
        Ok(Table {
            alloc: self.alloc,
            regions: self.regions.clone()?,
        })
    }

    /// The regions in order of id.
    pub fn list(&self, alloc: Global) -> Result<Seq<T>, Memory>
        ensures { IfOk result (λ list. list ≡ listed self.now) }
    {
        listed(alloc, &self.regions)
    }

    /// The region under an id.
    #[tactic(auto, using(jt_value::proofs::FiniteMaps::get_is))]
    pub fn get(&self, id: u32) -> Option<&T>
        ensures region { option_copied result ≡ map.get self.now id }
        ensures id { IfSome result (λ region. T.id_of region.now ≡ id) }
    {
        self.regions.get(&id)
    }

    /// The number of regions.
    #[tactic(auto, using(jt_value::proofs::FiniteMaps::len_is))]
    pub fn len(&self) -> usize
        ensures len { result ≡ map.len self.now }
        ensures few { result ≤ REGION_LIMIT }
    {
        self.regions.len()
    }

    /// Sets a list of regions: with setting 0 they are the regions, with 1 each is added or replaces the one of its id, with
    /// 2 each replaces it.
    pub fn set(&mut self, setting: u8, list: &[T]) -> Result<(), RegionError>
        requires { length list.now ≤ WORD_COUNT_LIMIT }
        ensures { Sets T.id_of setting list.now self.old result self.new }
    {
        if setting > 2 {
            return Err(RegionError::BadSetting(setting));
        }
        match missing(&self.regions, setting, list) {
            Some(id) => return Err(RegionError::NoRegion(id)),
            None => {}
        }
        let next = after(self.alloc, &self.regions, setting, list)?;
        let count = next.len();
        if count > REGION_LIMIT {
            return Err(RegionError::TooMany(count as u32));
        }
        self.regions = next;
        Ok(())
    }

    /// Adds a region or replaces the one of its id.
    pub fn put(&mut self, region: &T) -> Result<(), RegionError>
        ensures { Sets T.id_of 1 (region.now ∷ []) self.old result self.new }
    {
        let count = count_with(&self.regions, region);
        if count > REGION_LIMIT {
            return Err(RegionError::TooMany(count as u32));
        }
        put_over(&mut self.regions, region)?;
        Ok(())
    }

    /// Takes out the regions of these ids, and all where there are none.
    #[tactic(auto, using(crate::proofs::Filling::cleared, crate::proofs::Filling::deleted))]
    pub fn delete(&mut self, ids: &[u32])
        ensures { (id : ℕ) → map.get self.new id ≡ after_deletion ids.now self.old id }
    {
        if ids.is_empty() {
            self.regions.clear();
        } else {
            take_out(&mut self.regions, ids);
        }
    }
}
