use jt_outside::MemSource;
use jt_platform_command::{FleetRead, read_fleet};
use jt_value::{Memory, Octets, Seq};
use std::alloc::Global;
use std::test::Fail;

// A source of this text, which fails the read of this number, where 0 is none.
fn source(alloc: Global, text: &str, failing: u64) -> Result<MemSource, Memory> {
    let octets = Octets::from_vec(Vec::from_slice(alloc, text.as_bytes())?);
    let mut calls = Seq::new(alloc);
    calls.push(failing)?;
    Ok(MemSource::new(octets, calls))
}

// The number of the bad line, and 0 where there is none.
fn bad_line(alloc: Global, text: &str) -> Result<u64, Memory> {
    let mut source = source(alloc, text, 0)?;
    Ok(match read_fleet(alloc, &mut source) {
        FleetRead::Bad(number) => number,
        _ => 0,
    })
}

#[test]
fn bad_lines_of_a_fleet(rt: HostRuntime) -> Result<(), Fail> {
    let rows = [
        ("plate 41", 1),
        ("", 1),
        ("# none\n", 2),
        ("# none", 2),
        ("\n\n", 3),
        ("secret 3", 1),
        ("secret 3g", 1),
        ("secret ", 1),
        ("secret", 1),
        ("secret  31", 1),
        ("secret 31\nsecret 31\n", 2),
        ("secret 31\nplate -\n", 2),
        ("secret 31\nplate 4a\nterminal\n", 3),
        ("secret 31\r\n", 1),
        ("secret 31\n", 0),
        ("secret -", 0),
    ];
    for (text, number) in rows {
        assert!(rt; bad_line(rt.alloc(), text)? == number, "{text}");
    }
    Ok(())
}

// The secret, and how many plates and terminals there are, where the text names a fleet.
fn named(alloc: Global, text: &str) -> Result<Option<(Octets, usize, usize)>, Memory> {
    let mut source = source(alloc, text, 0)?;
    Ok(match read_fleet(alloc, &mut source) {
        FleetRead::Fleet(secret, fleet) => {
            Some((secret, fleet.plates.len(), fleet.terminals.len()))
        }
        _ => None,
    })
}

#[test]
fn a_fleet(rt: HostRuntime) -> Result<(), Fail> {
    let text =
        "# one vehicle\n\nsecret 3132\nplate 4a54383038\nterminal 31323334353637\nplate 4A4b";
    match named(rt.alloc(), text)? {
        Some((secret, plates, terminals)) => {
            assert!(rt; secret.as_slice() == b"12".as_slice());
            assert!(rt; plates == 2);
            assert!(rt; terminals == 1);
        }
        None => assert!(rt; false, "no fleet"),
    }
    Ok(())
}

#[test]
fn a_read_that_fails(rt: HostRuntime) -> Result<(), Fail> {
    let mut source = source(rt.alloc(), "secret 31\n", 2)?;
    let failed = matches!(&read_fleet(rt.alloc(), &mut source), FleetRead::Failed);
    assert!(rt; failed);
    Ok(())
}
