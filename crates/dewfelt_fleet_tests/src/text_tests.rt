use dewfelt_fleet::{Expected, Fleet, NoFleet, read_fleet};
use dewfelt_log::{gbk_octets, in_gbk};
use jt_value::{Edition, Octets, Phone, Seq};
use std::alloc::Global;
use std::test::Fail;

// One vehicle, one plate and one terminal id, in text and in digits, in all forms that lines have.
const GOOD: &str =
    "# a fleet\r\n\r\nsecret 3132\r\nplate d4c142313233343637\r\nterminal \"T 2\"\nvehicle \"粤B12345\" 31323334353637 013912345678\nvehicle 414203 \"K8\" 98765432109876543210\n  # the end";

const FIRST: Phone = Phone {
    edition: Edition::E2019,
    digits: [0, 0, 0, 0, 0x01, 0x39, 0x12, 0x34, 0x56, 0x78],
};

const SECOND: Phone = Phone {
    edition: Edition::E2013,
    digits: [0x98, 0x76, 0x54, 0x32, 0x10, 0x98, 0x76, 0x54, 0x32, 0x10],
};

// Texts with a bad line: its number, what is shown of it, and what was expected.
const BAD: &[(&[u8], u64, &str, Expected)] = &[
    (b"", 1, "", Expected::SecretFirst),
    (b"# none\n", 2, "", Expected::SecretFirst),
    (b"plate 41\n", 1, "plate 41", Expected::SecretFirst),
    (b"secret 3\n", 1, "secret", Expected::Secret),
    (b"secret \"12\"\n", 1, "secret", Expected::Secret),
    (b"secret 31 32\n", 1, "secret", Expected::Secret),
    (b"secret 31\nsecret 32\n", 2, "secret", Expected::OneSecret),
    (b" secret 3\n", 1, "secret", Expected::Secret),
    (b"secret 31\n secret 32\n", 2, "secret", Expected::OneSecret),
    (b"Secret 31\n", 1, "Secret", Expected::Kind),
    (b"313233\n", 1, "", Expected::Kind),
    (b"secret 31\nplates 41\n", 2, "plates", Expected::Kind),
    (b"secret 31\n\"plate\" 41\n", 2, "", Expected::Kind),
    (b"secret 31\nplate\n", 2, "plate", Expected::Plate),
    (b"secret 31\nplate \"\"\n", 2, "plate \"\"", Expected::Plate),
    (b"secret 31\nplate \"A\n", 2, "plate \"A", Expected::Plate),
    (
        b"secret 31\nplate \"A\"4\n",
        2,
        "plate \"A\"4",
        Expected::Plate,
    ),
    (
        b"secret 31\nplate \"\xff\"\n",
        2,
        "plate \"?\"",
        Expected::Plate,
    ),
    (
        b"secret 31\nterminal \"\xc3\xa9\"\n",
        2,
        "terminal \"\u{e9}\"",
        Expected::Terminal,
    ),
    (
        b"secret 31\nterminal 3\n",
        2,
        "terminal 3",
        Expected::Terminal,
    ),
    (
        b"secret 31\nvehicle 41 42\n",
        2,
        "vehicle 41 42",
        Expected::Vehicle,
    ),
    (
        b"secret 31\nvehicle 41 42 \"1\"\n",
        2,
        "vehicle 41 42 \"1\"",
        Expected::Vehicle,
    ),
    (
        b"secret 31\nvehicle 41 42 1a\n",
        2,
        "vehicle 41 42 1a",
        Expected::Vehicle,
    ),
    (
        b"secret 31\nvehicle 41 42 123456789012345678901\n",
        2,
        "vehicle 41 42 123456789012345678901",
        Expected::Vehicle,
    ),
    (
        b"secret 31\nvehicle 41 42 1 2\n",
        2,
        "vehicle 41 42 1 2",
        Expected::Vehicle,
    ),
    (
        b"secret 31\nvehicle 41 42 1\nvehicle 41 43 2\n",
        3,
        "vehicle 41 43 2",
        Expected::FreeVehicle,
    ),
    (
        b"secret 31\nvehicle 41 42 1\nvehicle 44 4200 2\n",
        3,
        "vehicle 44 4200 2",
        Expected::FreeVehicle,
    ),
    (
        b"secret 31\nvehicle 41 42 1\nvehicle 44 43 01\n",
        3,
        "vehicle 44 43 01",
        Expected::FreeVehicle,
    ),
    (
        b"secret 31\nplate 41\nvehicle 41 42 1\n",
        3,
        "vehicle 41 42 1",
        Expected::FreeVehicle,
    ),
    (
        b"secret 31\nterminal 42\nvehicle 41 42 1\n",
        3,
        "vehicle 41 42 1",
        Expected::FreeVehicle,
    ),
    (
        b"secret 31\nvehicle 41 42 1\nplate 41\n",
        3,
        "plate 41",
        Expected::FreePlate,
    ),
    (
        b"secret 31\nvehicle 41 42 1\nterminal 4200\n",
        3,
        "terminal 4200",
        Expected::FreeTerminal,
    ),
    (
        b"secret 31\nplate 78901234567890123456789012345678901234567890123456789012345\t",
        2,
        "plate 7890123456789012345678901234567890123456789012345678901234",
        Expected::Plate,
    ),
    (
        b"secret 31\nplate a\tb\x1b[31m\xe2\x80\xae\n",
        2,
        "plate a?b?[31m?",
        Expected::Plate,
    ),
];

// Whether the text is bad so.
fn is_bad_so(alloc: Global, row: &(&[u8], u64, &str, Expected)) -> bool {
    match read_fleet(alloc, row.0) {
        Err(NoFleet::Bad(bad)) => {
            bad.number == row.1 && bad.text.as_str() == row.2 && bad.expected == row.3
        }
        Err(NoFleet::Memory) => false,
        Ok(fleet) => {
            drop(fleet);
            false
        }
    }
}

fn first_good(alloc: Global) -> Option<usize> {
    for (place, row) in BAD.iter().enumerate() {
        if !is_bad_so(alloc, row) {
            return Some(place);
        }
    }
    None
}

#[test]
fn bad_lines_are_named(rt: HostRuntime) -> Result<(), Fail> {
    assert!(rt; first_good(rt.alloc()) == None);
    Ok(())
}

fn is_bound_to(fleet: &Fleet, phone: &Phone, plate: &[u8], terminal: &[u8]) -> bool {
    match fleet.bound(phone) {
        Some(own) => own.plate.as_slice() == plate && own.terminal.as_slice() == terminal,
        None => false,
    }
}

fn is_good(fleet: &Fleet) -> bool {
    fleet.secret() == b"12".as_slice()
        && is_bound_to(fleet, &FIRST, b"\xd4\xc1B12345", b"1234567")
        && is_bound_to(fleet, &SECOND, b"AB\x03", b"K8")
        && fleet.has_plate(b"\xd4\xc1B123467")
        && !fleet.has_plate(b"\xd4\xc1B12345")
        && fleet.has_terminal(b"T 2")
        && !fleet.has_terminal(b"K8")
        && fleet.counts() == (2, 1, 1)
}

#[test]
fn all_forms_of_lines_are_read(rt: HostRuntime) -> Result<(), Fail> {
    match read_fleet(rt.alloc(), GOOD.as_bytes()) {
        Ok(fleet) => {
            let good = is_good(&fleet);
            drop(fleet);
            assert!(rt; good);
        }
        Err(_) => assert!(rt; false),
    }
    Ok(())
}

// Whether the text has these octets, and reads back from them.
fn goes_both_ways(alloc: Global, text: &str, octets: &[u8]) -> bool {
    let written = match gbk_octets(alloc, text) {
        Ok(Some(written)) => written,
        _ => return false,
    };
    match in_gbk(alloc, octets) {
        Ok(read) => read.as_str() == text && written.as_slice() == octets,
        Err(_) => false,
    }
}

#[test]
fn texts_are_written_in_gbk(rt: HostRuntime) -> Result<(), Fail> {
    let alloc = rt.alloc();
    assert!(rt; goes_both_ways(alloc, "粤B12345", b"\xd4\xc1B12345"));
    // The first and the last place of a row, and both sides of the octet that no second one is.
    assert!(rt; goes_both_ways(alloc, "丂", b"\x81\x40"));
    assert!(rt; goes_both_ways(alloc, "亊亐", b"\x81\x7e\x81\x80"));
    assert!(rt; goes_both_ways(alloc, "齄", b"\xf7\xfe"));
    match gbk_octets(alloc, "a\u{1f69a}") {
        Ok(None) => {}
        _ => assert!(rt; false),
    }
    match gbk_octets(alloc, "a\n") {
        Ok(None) => {}
        _ => assert!(rt; false),
    }
    Ok(())
}
