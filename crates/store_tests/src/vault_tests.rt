use crate::vault_calls;
use jt_store::{MemVault, StoreError, Vault};
use jt_value::Seq;
use std::alloc::Global;
use std::test::Fail;

// The calls of any vault, each asked for at this vault's type once.
fn note(alloc: Global, vault: &mut MemVault, lat: u32) -> Result<bool, StoreError> {
    vault_calls::note(alloc, vault, lat)
}

fn form(alloc: Global, vault: &mut MemVault, count: usize) -> Result<bool, StoreError> {
    vault_calls::form(alloc, vault, count)
}

fn accept(alloc: Global, vault: &mut MemVault) -> Result<bool, StoreError> {
    vault_calls::accept(alloc, vault)
}

#[test]
fn a_full_vault_takes_a_fix_once_one_is_accepted(rt: HostRuntime) -> Result<(), Fail> {
    let alloc = rt.alloc();
    let mut vault = MemVault::new(alloc, 1, Seq::new(alloc));
    assert!(rt; note(alloc, &mut vault, 1) == Ok(true));
    assert!(rt; note(alloc, &mut vault, 2) == Err(StoreError::Full(1)));
    assert!(rt; form(alloc, &mut vault, 1) == Ok(true));
    assert!(rt; note(alloc, &mut vault, 2) == Err(StoreError::Full(1)));
    assert!(rt; accept(alloc, &mut vault) == Ok(true));
    assert!(rt; note(alloc, &mut vault, 2) == Ok(true));
    Ok(())
}

#[test]
fn a_listed_call_fails_and_records_nothing(rt: HostRuntime) -> Result<(), Fail> {
    let alloc = rt.alloc();
    let mut failing = Seq::new(alloc);
    assert!(rt; failing.push(2) == Ok(()));
    let mut vault = MemVault::new(alloc, 9, failing);
    assert!(rt; note(alloc, &mut vault, 1) == Ok(true));
    assert!(rt; note(alloc, &mut vault, 2) == Err(StoreError::Failed));
    match vault.load(alloc) {
        Ok(loaded) => assert!(rt; loaded.recorded == 1),
        Err(_) => assert!(rt; false),
    }
    Ok(())
}

#[test]
fn a_vault_loads_what_waits(rt: HostRuntime) -> Result<(), Fail> {
    let alloc = rt.alloc();
    let mut vault = MemVault::new(alloc, 9, Seq::new(alloc));
    assert!(rt; note(alloc, &mut vault, 1) == Ok(true));
    assert!(rt; note(alloc, &mut vault, 2) == Ok(true));
    assert!(rt; note(alloc, &mut vault, 3) == Ok(true));
    assert!(rt; form(alloc, &mut vault, 1) == Ok(true));
    assert!(rt; form(alloc, &mut vault, 1) == Ok(true));
    assert!(rt; accept(alloc, &mut vault) == Ok(true));
    assert!(rt; vault.set_code(alloc, Some(b"AB")) == Ok(()));
    match vault.load(alloc) {
        Ok(loaded) => {
            assert!(rt; loaded.fixes.len() == 1);
            assert!(rt; loaded.units.len() == 1);
            assert!(rt; (loaded.mark, loaded.next) == (0, 2));
            assert!(rt; (loaded.recorded, loaded.accepted) == (3, 1));
            match &loaded.code {
                Some(code) => assert!(rt; code.as_slice() == b"AB".as_slice()),
                None => assert!(rt; false),
            }
        }
        Err(_) => assert!(rt; false),
    }
    Ok(())
}
