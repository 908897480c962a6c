use crate::connections::InMemory;
use crate::files::{make_folder, remove_folder};
use jt_sql::SqlVault;
use jt_store::{MemVault, Vault};
use jt_value::{Memory, Seq};
use sqlite::{Alter, Connection, MemStore};
use std::alloc::Global;
use std::test::Fail;
use store_tests::vault_calls::{Call, Said, first_wrong};

/// Calls of one life of a vault, which is opened anew for the next life, and their answers.
type Life = &'static [(Call, Said)];

const LIVES: [Life; 5] = [
    // Fixes, units, acceptances and the platform's code.
    &[
        (Call::Load, Said::Held(0, 0, 65_535, 0, 0, 0)),
        (Call::Form(1), Said::Nothing),
        (Call::Note(1), Said::Done),
        (Call::Note(2), Said::Done),
        (Call::Note(3), Said::Done),
        (Call::Load, Said::Held(3, 0, 65_535, 0, 3, 0)),
        (Call::Code(Some(b'C')), Said::Done),
        (Call::Form(1), Said::Done),
        (Call::Form(1), Said::Done),
        (Call::Load, Said::Held(1, 2, 65_535, 2, 3, 0)),
        (Call::Oldest, Said::Oldest(0, 1, Some(b'C'))),
        (Call::Accept, Said::Done),
        (Call::Oldest, Said::Oldest(1, 1, Some(b'C'))),
        (Call::Note(4), Said::Done),
        (Call::Code(None), Said::Done),
        (Call::Oldest, Said::Oldest(1, 1, None)),
        (Call::Load, Said::Held(2, 1, 0, 2, 4, 1)),
    ],
    // What is held once the store is opened again, and what then goes on.
    &[
        (Call::Load, Said::Held(2, 1, 0, 2, 4, 1)),
        (Call::Oldest, Said::Oldest(1, 1, None)),
        (Call::Accept, Said::Done),
        (Call::Accept, Said::Nothing),
        (Call::Form(1), Said::Done),
        (Call::Load, Said::Held(1, 1, 1, 3, 4, 2)),
    ],
    // Units of three fixes and of two behind one that waits.
    &[
        (Call::Load, Said::Held(1, 1, 1, 3, 4, 2)),
        (Call::Note(5), Said::Done),
        (Call::Note(6), Said::Done),
        (Call::Form(4), Said::Nothing),
        (Call::Form(3), Said::Done),
        (Call::Next, Said::Nothing),
        (Call::Note(7), Said::Done),
        (Call::Note(8), Said::Done),
        (Call::Note(9), Said::Done),
        (Call::Form(2), Said::Done),
        (Call::Load, Said::Held(1, 3, 1, 5, 9, 2)),
        (Call::Accept, Said::Done),
        (Call::Oldest, Said::Oldest(3, 3, None)),
        (Call::Load, Said::Held(1, 2, 2, 5, 9, 3)),
    ],
    // The unit of three is accepted, and all three are no more to be sent.
    &[
        (Call::Load, Said::Held(1, 2, 2, 5, 9, 3)),
        (Call::Oldest, Said::Oldest(3, 3, None)),
        (Call::Accept, Said::Done),
        (Call::Load, Said::Held(1, 1, 3, 5, 9, 6)),
        (Call::Next, Said::Next(9)),
    ],
    &[
        (Call::Load, Said::Held(1, 1, 3, 5, 9, 6)),
        (Call::Oldest, Said::Oldest(4, 2, None)),
        (Call::Next, Said::Next(9)),
        (Call::Accept, Said::Done),
        (Call::Accept, Said::Nothing),
        (Call::Form(1), Said::Done),
        (Call::Accept, Said::Done),
        (Call::Load, Said::Held(0, 0, 5, 6, 9, 9)),
    ],
];

// Whether one vault answers so in all lives.
fn lives_all<V: Vault + Drop>(alloc: Global, mut vault: V) -> bool {
    for life in LIVES {
        if first_wrong(alloc, &mut vault, life).is_some() {
            return false;
        }
    }
    true
}

#[test]
fn a_vault_in_memory_answers_so(rt: HostRuntime) -> Result<(), Fail> {
    let vault = MemVault::new(rt.alloc(), 100_000, Seq::new(rt.alloc()));
    assert!(rt; lives_all(rt.alloc(), vault));
    Ok(())
}

// Whether a vault answers so in one life. It is then let go of.
fn lives<V: Vault + Drop>(alloc: Global, mut vault: V, life: &[(Call, Said)]) -> bool {
    first_wrong(alloc, &mut vault, life) == None
}

fn vault_at(rt: &HostRuntime, path: &str) -> Result<SqlVault<HostRuntime>, Memory> {
    SqlVault::at(rt.clone()?, path)
}

/// Whether a vault over a file answers so.
pub fn lives_in_file(rt: &HostRuntime, path: &str, life: &[(Call, Said)]) -> bool {
    match vault_at(rt, path) {
        Ok(vault) => lives(rt.alloc(), vault, life),
        Err(_) => false,
    }
}

// Each life opens the file anew.
#[test]
fn a_vault_in_a_file_answers_the_same(rt: HostRuntime) -> Result<(), Fail> {
    make_folder(&rt, "vault_test")?;
    for life in LIVES {
        assert!(rt; lives_in_file(&rt, "vault_test/a.db", life));
    }
    remove_folder(&rt, "vault_test")?;
    Ok(())
}

// Whether a vault over the connection answers so, and the connection.
fn answers_over<S: Alter + Drop>(
    alloc: Global,
    connection: Connection<S>,
    life: Life,
) -> (bool, Connection<S>) {
    let mut vault = SqlVault::over(connection);
    let wrong = first_wrong(alloc, &mut vault, life);
    (wrong == None, vault.into_connection())
}

// Whether a vault over a connection in memory answers so in all lives, each of which takes the connection anew.
fn lives_over<S: InMemory>(alloc: Global) -> bool {
    let Some(mut connection) = S::connection(alloc) else {
        return false;
    };
    for life in LIVES {
        let (is_right, left) = answers_over(alloc, connection, life);
        if !is_right {
            return false;
        }
        connection = left;
    }
    true
}

#[test]
fn a_vault_over_a_connection_answers_the_same(rt: HostRuntime) -> Result<(), Fail> {
    assert!(rt; lives_over::<MemStore>(rt.alloc()));
    Ok(())
}
