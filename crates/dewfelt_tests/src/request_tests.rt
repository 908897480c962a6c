//! What a command and a service write to each other.

use dewfelt_commands::{Answer, Outcome, Request, phone_text, registration_line};
use jt_store::Registered;
use jt_value::{Edition, Octets, Phone};
use std::alloc::{AllocError, Global};
use std::test::Fail;

const PHONE: Phone = Phone {
    edition: Edition::E2013,
    digits: [0, 0, 0, 0, 1, 0x39, 0x12, 0x34, 0x56, 0x78],
};

const LONG: Phone = Phone {
    edition: Edition::E2019,
    digits: [0x99, 0, 0, 0, 1, 0x39, 0x12, 0x34, 0x56, 0x78],
};

// The name of the request that a text is, and the phone of it.
fn named(alloc: Global, text: &str) -> Result<String, AllocError> {
    match Request::of(alloc, text)? {
        Some(Request::Registrations) => String::from_str(alloc, "registrations"),
        Some(Request::Forget(phone)) => {
            let digits = phone_text(alloc, &phone)?;
            format!(in alloc; "forget {digits}")
        }
        Some(Request::Copy) => String::from_str(alloc, "copy"),
        Some(Request::Stop) => String::from_str(alloc, "stop"),
        None => String::from_str(alloc, "none"),
    }
}

#[test]
fn texts_of_requests(rt: HostRuntime) -> Result<(), Fail> {
    let rows: &[(Request, &str)] = &[
        (Request::Registrations, "registrations\n"),
        (Request::Forget(PHONE), "forget 00000000013912345678\n"),
        (Request::Forget(LONG), "forget 99000000013912345678\n"),
        (Request::Copy, "copy\n"),
        (Request::Stop, "stop\n"),
    ];
    for (request, expected) in rows {
        let text = request.text(rt.alloc())?;
        assert!(rt; text.as_str() == *expected, "{text}");
    }
    Ok(())
}

#[test]
fn requests_that_are_read(rt: HostRuntime) -> Result<(), Fail> {
    let rows: &[(&str, &str)] = &[
        ("registrations\n", "registrations"),
        ("forget 00000000013912345678\n", "forget 013912345678"),
        (
            "forget 99000000013912345678\n",
            "forget 99000000013912345678",
        ),
        ("copy\n", "copy"),
        ("stop\n", "stop"),
        ("", "none"),
        ("stop", "none"),
        ("stop\n\n", "none"),
        (" stop\n", "none"),
        ("STOP\n", "none"),
        ("forget \n", "none"),
        ("forget 13912345678\n", "none"),
        ("forget 0000000001391234567x\n", "none"),
        ("forget 000000000139123456789\n", "none"),
        ("start\n", "none"),
    ];
    for (text, expected) in rows {
        let found = named(rt.alloc(), text)?;
        assert!(rt; found.as_str() == *expected, "{text}: {found}");
    }
    Ok(())
}

// The status of an answer and what it prints, with a bar between.
fn answered(alloc: Global, text: &str) -> Result<String, AllocError> {
    match Answer::of(alloc, text)? {
        Some(answer) => {
            let number = answer.outcome.number();
            let printed = answer.text.as_str();
            format!(in alloc; "{number}|{printed}")
        }
        None => String::from_str(alloc, "none"),
    }
}

#[test]
fn answers_that_are_read(rt: HostRuntime) -> Result<(), Fail> {
    let rows: &[(&str, &str)] = &[
        ("status 0\n", "0|"),
        ("status 0\na\tb\nc\n", "0|a\tb\nc\n"),
        (
            "status 22\nthe phone is not registered",
            "22|the phone is not registered",
        ),
        ("status 0", "none"),
        ("status 3\n", "none"),
        ("status 256\n", "none"),
        ("state 0\n", "none"),
        ("", "none"),
    ];
    for (text, expected) in rows {
        let found = answered(rt.alloc(), text)?;
        assert!(rt; found.as_str() == *expected, "{text}: {found}");
    }
    Ok(())
}

#[test]
fn answers_that_are_written(rt: HostRuntime) -> Result<(), Fail> {
    let outcomes = [
        Outcome::Done,
        Outcome::Output,
        Outcome::Store,
        Outcome::Memory,
        Outcome::Folder,
        Outcome::NoAnswer,
        Outcome::File,
        Outcome::NotRegistered,
        Outcome::Bound,
        Outcome::NotUnderstood,
    ];
    for outcome in &outcomes {
        let number = outcome.number();
        let text = Answer::text(rt.alloc(), *outcome, "two\nlines\n")?;
        let expected = format!(in rt.alloc(); "status {number}\ntwo\nlines\n")?;
        assert!(rt; text.as_str() == expected.as_str(), "{text}");
        let expected = format!(in rt.alloc(); "{number}|two\nlines\n")?;
        let found = answered(rt.alloc(), text.as_str())?;
        assert!(rt; found.as_str() == expected.as_str(), "{found}");
    }
    Ok(())
}

fn line(alloc: Global, phone: &Phone, plate: &[u8], terminal: &[u8]) -> Result<String, AllocError> {
    let registered = Registered {
        plate: Octets::from_vec(Vec::from_slice(alloc, plate)?),
        terminal: Octets::from_vec(Vec::from_slice(alloc, terminal)?),
    };
    registration_line(alloc, phone, &registered)
}

#[test]
fn lines_of_registrations(rt: HostRuntime) -> Result<(), Fail> {
    let rows: &[(&Phone, &[u8], &[u8], &str)] = &[
        (
            &PHONE,
            b"\xd4\xc1B12345",
            b"1234567",
            "013912345678\t粤B12345\t1234567\n",
        ),
        (
            &LONG,
            b"\xff\x00",
            b"a\tb",
            "99000000013912345678\t0xff00\t0x610962\n",
        ),
    ];
    for (phone, plate, terminal, expected) in rows {
        let found = line(rt.alloc(), phone, plate, terminal)?;
        assert!(rt; found.as_str() == *expected, "{found}");
    }
    Ok(())
}
