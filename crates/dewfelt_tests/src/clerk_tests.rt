//! Requests that lie in a folder, and what is answered.

use crate::desk::{Desk, make_folder, text_of};
use dewfelt_commands::Clerk;
use std::test::Fail;
use std::{fs, io};

const REQUEST: &str = "commands/0123456789abcdef.request";

const ANSWER: &str = "commands/0123456789abcdef.answer";

// The text of a file of a folder.
fn text_in(rt: &HostRuntime, folder: &str, name: &str) -> io::Result<String> {
    let path = format!(in rt.alloc(); "{folder}/{name}")?;
    text_of(rt, path.as_str())
}

// What a clerk answers to a request in its folder, which is gone then.
fn answer(
    rt: &HostRuntime,
    folder: &str,
    clerk: &Clerk,
    desk: &mut Desk,
    text: &str,
) -> io::Result<String> {
    let request = format!(in rt.alloc(); "{folder}/{REQUEST}")?;
    fs::write(rt, request.as_str(), text)?;
    clerk.look(rt, desk)?;
    if text_in(rt, folder, REQUEST)?.as_str() != "none" {
        return Ok(String::from_str(rt.alloc(), "the request lies there")?);
    }
    text_in(rt, folder, ANSWER)
}

#[test]
fn answers_of_a_clerk(rt: HostRuntime) -> Result<(), Fail> {
    make_folder(&rt, "clerk_answers")?;
    let clerk = Clerk::start(&rt, "clerk_answers")?;
    let mut desk = Desk::new(rt.clone()?, &[0x11, 0x22, 0x77])?;
    let rows: &[(&str, &str)] = &[
        (
            "registrations\n",
            "status 0\n013900000011\tB11\tT11\n013900000022\tB22\tT22\n013900000077\tB77\tT77\n",
        ),
        ("forget 00000000013900000022\n", "status 0\n"),
        (
            "forget 00000000013900000022\n",
            "status 22\nthe phone is not registered",
        ),
        (
            "forget 00000000013900000077\n",
            "status 23\na line vehicle of the fleet binds the phone: take the line out",
        ),
        (
            "forget 00000000013900000099\n",
            "status 5\nplatform.db can't be opened or read",
        ),
        (
            "registrations\n",
            "status 0\n013900000011\tB11\tT11\n013900000077\tB77\tT77\n",
        ),
        ("copy\n", "status 0\n"),
        (
            "start\n",
            "status 24\nthe service is of another version: stop it by its own dewfelt",
        ),
        (
            "",
            "status 24\nthe service is of another version: stop it by its own dewfelt",
        ),
        (
            "forget 000000000139000000220000000000000000000000000000000000000000000000000\n",
            "status 24\nthe service is of another version: stop it by its own dewfelt",
        ),
    ];
    for (text, expected) in rows {
        let found = answer(&rt, "clerk_answers", &clerk, &mut desk, text)?;
        assert!(rt; found.as_str() == *expected, "{text}: {found}");
    }
    assert!(rt; !desk.is_stopped);
    let found = answer(&rt, "clerk_answers", &clerk, &mut desk, "stop\n")?;
    assert!(rt; found.as_str() == "status 0\n", "{found}");
    assert!(rt; desk.is_stopped);
    let copy = text_of(&rt, "clerk_answers/commands/0123456789abcdef.db")?;
    assert!(rt; copy.as_str() == "a copy", "{copy}");
    fs::remove_dir_all(&rt, "clerk_answers")?;
    Ok(())
}

// A store that fails behind the first registration: the answer has none.
#[test]
fn registrations_that_end_by_a_fault(rt: HostRuntime) -> Result<(), Fail> {
    make_folder(&rt, "clerk_fault")?;
    let clerk = Clerk::start(&rt, "clerk_fault")?;
    let mut desk = Desk::new(rt.clone()?, &[0x11, 0x99])?;
    let found = answer(&rt, "clerk_fault", &clerk, &mut desk, "registrations\n")?;
    assert!(rt;
        found.as_str() == "status 5\nplatform.db can't be opened or read",
        "{found}"
    );
    fs::remove_dir_all(&rt, "clerk_fault")?;
    Ok(())
}

// More registrations than are listed at a time.
#[test]
fn many_registrations(rt: HostRuntime) -> Result<(), Fail> {
    make_folder(&rt, "clerk_many")?;
    let clerk = Clerk::start(&rt, "clerk_many")?;
    let mut lasts = Vec::new(rt.alloc());
    for last in 1..=255u8 {
        if last != 0x99 {
            lasts.push(last)?;
        }
    }
    let mut desk = Desk::new(rt.clone()?, lasts.as_slice())?;
    let found = answer(&rt, "clerk_many", &clerk, &mut desk, "registrations\n")?;
    assert!(rt; found.as_str().lines().count() == 255);
    fs::remove_dir_all(&rt, "clerk_many")?;
    Ok(())
}

// What lies there at a start is gone; other names are left alone later on.
#[test]
fn files_that_are_no_requests(rt: HostRuntime) -> Result<(), Fail> {
    make_folder(&rt, "clerk_others")?;
    fs::create_dir(&rt, "clerk_others/commands")?;
    fs::write(
        &rt,
        "clerk_others/commands/0123456789abcdef.request",
        "stop\n",
    )?;
    fs::write(&rt, "clerk_others/commands/note", "old")?;
    fs::create_dir(&rt, "clerk_others/commands/folder")?;
    fs::write(&rt, "clerk_others/commands/folder/note", "old")?;
    let clerk = Clerk::start(&rt, "clerk_others")?;
    assert!(rt; text_in(&rt, "clerk_others", REQUEST)?.as_str() == "none");
    assert!(rt; text_of(&rt, "clerk_others/commands/note")?.as_str() == "none");
    assert!(rt; fs::read_dir(&rt, "clerk_others/commands")?.next().is_none());
    let names: &[&str] = &[
        "clerk_others/commands/0123456789abcdef.asking",
        "clerk_others/commands/0123456789abcdeF.request",
        "clerk_others/commands/0123456789abcde.request",
        "clerk_others/commands/0123456789abcdef0.request",
        "clerk_others/commands/request",
    ];
    for name in names {
        fs::write(&rt, *name, "stop\n")?;
    }
    let mut desk = Desk::new(rt.clone()?, &[])?;
    clerk.look(&rt, &mut desk)?;
    assert!(rt; !desk.is_stopped);
    for name in names {
        let text = text_of(&rt, name)?;
        assert!(rt; text.as_str() == "stop\n", "{name}: {text}");
    }
    fs::remove_dir_all(&rt, "clerk_others")?;
    Ok(())
}

// A folder of requests that somebody removed is there again, and requests in it are answered. What is no file is no request.
#[test]
fn a_folder_that_was_removed(rt: HostRuntime) -> Result<(), Fail> {
    make_folder(&rt, "clerk_removed")?;
    let clerk = Clerk::start(&rt, "clerk_removed")?;
    let mut desk = Desk::new(rt.clone()?, &[0x11])?;
    fs::remove_dir_all(&rt, "clerk_removed/commands")?;
    clerk.look(&rt, &mut desk)?;
    let found = answer(&rt, "clerk_removed", &clerk, &mut desk, "stop\n")?;
    assert!(rt; found.as_str() == "status 0\n", "{found}");
    assert!(rt; desk.is_stopped);
    fs::remove_file(&rt, "clerk_removed/commands/0123456789abcdef.answer")?;
    fs::create_dir(&rt, "clerk_removed/commands/0123456789abcdef.request")?;
    clerk.look(&rt, &mut desk)?;
    let found = text_in(&rt, "clerk_removed", ANSWER)?;
    assert!(rt; found.as_str().starts_with("status 24\n"), "{found}");
    fs::remove_dir_all(&rt, "clerk_removed")?;
    Ok(())
}

// A service is stopped also where the answer can't be written.
#[test]
fn a_stop_that_is_not_answered(rt: HostRuntime) -> Result<(), Fail> {
    make_folder(&rt, "clerk_unanswered")?;
    let clerk = Clerk::start(&rt, "clerk_unanswered")?;
    let mut desk = Desk::new(rt.clone()?, &[])?;
    fs::create_dir(&rt, "clerk_unanswered/commands/0123456789abcdef.answering")?;
    let request = format!(in rt.alloc(); "clerk_unanswered/{REQUEST}")?;
    fs::write(&rt, request.as_str(), "stop\n")?;
    assert!(rt; clerk.look(&rt, &mut desk).is_err());
    assert!(rt; desk.is_stopped);
    assert!(rt; text_in(&rt, "clerk_unanswered", REQUEST)?.as_str() == "none");
    fs::remove_dir_all(&rt, "clerk_unanswered")?;
    Ok(())
}
