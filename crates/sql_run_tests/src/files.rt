//! Lives over stores in files, each of which is opened anew for each life, and anew to see what it has then. All is generic in
//! the store.

use crate::{platform, terminal};
use jt_sql::{SqlKeeper, SqlVault};
use jt_store::{Keeper, Vault};
use jt_value::{Edition, Memory};
use std::alloc::Global;

/// A store in a file.
pub trait InFile: Drop {
    /// The store in this file.
    fn at(rt: &HostRuntime, path: &str) -> Result<Self, Memory>;
}

impl InFile for SqlKeeper<HostRuntime> {
    fn at(rt: &HostRuntime, path: &str) -> Result<SqlKeeper<HostRuntime>, Memory> {
        SqlKeeper::at(rt.clone()?, path)
    }
}

impl InFile for SqlVault<HostRuntime> {
    fn at(rt: &HostRuntime, path: &str) -> Result<SqlVault<HostRuntime>, Memory> {
        SqlVault::at(rt.clone()?, path)
    }
}

// Whether all talks go so over a keeper, which is then let go of.
fn go_over<K: Keeper + Drop>(alloc: Global, keeper: K, talks: &[platform::Talk]) -> bool {
    platform::live(alloc, keeper, talks).is_ok()
}

// Whether a keeper has this. It is then let go of.
fn has<K: Keeper + Drop>(alloc: Global, mut keeper: K, text: &str) -> bool {
    platform::keeps(alloc, &mut keeper, text)
}

// Whether a platform lives so over the file.
fn is_life<K: Keeper + InFile>(rt: &HostRuntime, path: &str, life: &platform::Life) -> bool {
    let (talks, text) = *life;
    match (K::at(rt, path), K::at(rt, path)) {
        (Ok(first), Ok(second)) => {
            go_over(rt.alloc(), first, talks) && has(rt.alloc(), second, text)
        }
        _ => false,
    }
}

/// The first life of a platform over the file that goes otherwise.
pub fn first_platform<K: Keeper + InFile>(
    rt: &HostRuntime,
    path: &str,
    lives: &[platform::Life],
) -> Option<usize> {
    for (place, life) in lives.iter().enumerate() {
        if !is_life::<K>(rt, path, life) {
            return Some(place);
        }
    }
    None
}

// Whether all moments go so over a vault, which is then let go of.
fn go_with<V: Vault + Drop>(alloc: Global, edition: Edition, vault: V, moments: &str) -> bool {
    terminal::live(alloc, edition, vault, moments).is_some()
}

// Whether a vault has this. It is then let go of.
fn contains<V: Vault + Drop>(alloc: Global, mut vault: V, text: &str) -> bool {
    terminal::holds(alloc, &mut vault, text)
}

// Whether a terminal lives so over the file.
fn is_lived<V: Vault + InFile>(rt: &HostRuntime, path: &str, life: &terminal::Life) -> bool {
    let (edition, moments, text) = *life;
    match (V::at(rt, path), V::at(rt, path)) {
        (Ok(first), Ok(second)) => {
            go_with(rt.alloc(), edition, first, moments) && contains(rt.alloc(), second, text)
        }
        _ => false,
    }
}

/// The first life of a terminal over the file that goes otherwise.
pub fn first_terminal<V: Vault + InFile>(
    rt: &HostRuntime,
    path: &str,
    lives: &[terminal::Life],
) -> Option<usize> {
    for (place, life) in lives.iter().enumerate() {
        if !is_lived::<V>(rt, path, life) {
            return Some(place);
        }
    }
    None
}
