use dewfelt_fleet::{Change, read_fleet};
use std::alloc::Global;
use std::test::Fail;

const OLD: &[u8] = b"secret 31\nplate 41\nplate 42\nterminal 43\nvehicle 44 45 1\n";

// A newer text, and whether the secret, the registrations and the names changed.
const NEW: &[(&[u8], bool, bool, bool)] = &[
    (OLD, false, false, false),
    (
        b"# anew\nsecret 31\nvehicle 44 45 01\nterminal 4300\nplate 42\nplate 41\nplate 41\n",
        false,
        false,
        false,
    ),
    (
        b"secret 32\nplate 41\nplate 42\nterminal 43\nvehicle 44 45 1\n",
        true,
        false,
        false,
    ),
    (
        b"secret 31\nplate 42\nterminal 43\nvehicle 44 45 1\n",
        false,
        true,
        false,
    ),
    (
        b"secret 31\nplate 41\nplate 42\nvehicle 44 45 1\n",
        false,
        true,
        false,
    ),
    (
        b"secret 31\nplate 41\nplate 42\nterminal 43\nvehicle 44 45 2\n",
        false,
        true,
        false,
    ),
    (
        b"secret 31\nplate 41\nplate 42\nterminal 43\nvehicle 46 45 1\n",
        false,
        true,
        false,
    ),
    (
        b"secret 31\nplate 41\nplate 42\nterminal 43\nvehicle 44 46 1\n",
        false,
        true,
        false,
    ),
    (
        b"secret 31\nplate 41\nplate 42\nterminal 43\nvehicle 44 45 1\nvehicle 46 47 2\n",
        false,
        true,
        false,
    ),
    (
        b"secret 31\nplate 41\nplate 42\nterminal 43\n",
        false,
        true,
        false,
    ),
    (
        b"secret 31\nplate 41\nplate 42\nplate 46\nterminal 43\nvehicle 44 45 1\n",
        false,
        false,
        true,
    ),
    (
        b"secret 31\nplate 41\nplate 42\nterminal 43\nterminal 46\nvehicle 44 45 1\n",
        false,
        false,
        true,
    ),
    (
        b"secret 31\nplate 41\nplate 42\nplate 44\nterminal 43\n",
        false,
        true,
        true,
    ),
];

fn change(alloc: Global, text: &[u8]) -> Option<Change> {
    let Ok(old) = read_fleet(alloc, OLD) else {
        return None;
    };
    let change = match read_fleet(alloc, text) {
        Ok(new) => {
            let change = Change::between(&old, &new);
            drop(new);
            Some(change)
        }
        Err(_) => None,
    };
    drop(old);
    change
}

fn first_otherwise(alloc: Global) -> Option<usize> {
    for (place, (text, secret, registrations, names)) in NEW.iter().enumerate() {
        let wanted = Change {
            secret: *secret,
            registrations: *registrations,
            names: *names,
        };
        if change(alloc, text) != Some(wanted) {
            return Some(place);
        }
    }
    None
}

#[test]
fn what_changed_is_known(rt: HostRuntime) -> Result<(), Fail> {
    assert!(rt; first_otherwise(rt.alloc()) == None);
    Ok(())
}
