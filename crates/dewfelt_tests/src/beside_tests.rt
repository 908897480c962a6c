//! Commands beside a service, which is a clerk in a thread here.

use crate::desk::{Desk, make_folder, phone};
use dewfelt_commands::{Clerk, Failed, Locked, Stores, forget, registrations, stop, try_lock};
use jt_outside::MemSink;
use jt_store::MemKeeper;
use jt_value::{Memory, Seq};
use std::alloc::{AllocError, Global};
use std::test::Fail;
use std::time::Duration;
use std::{fs, thread};

// No file has a keeper here.
struct NoStores;

impl Stores for NoStores {
    type Keeper = MemKeeper;

    fn at(&self, _path: &str) -> Result<MemKeeper, Memory> {
        Err(Memory)
    }
}

// How long a service waits between two looks, in milliseconds, and how often it looks at most.
const PAUSE: u64 = 20;

const LOOKS: u32 = 3_000;

// Looks until it is asked to stop, and lets go of the folder. Tells whether it was.
fn serve(rt: HostRuntime, clerk: Clerk, mut desk: Desk, locked: Locked) -> bool {
    for _ in 0..LOOKS {
        let _ = clerk.look(&rt, &mut desk);
        if desk.is_stopped {
            break;
        }
        thread::sleep(&rt, Duration::from_millis(PAUSE));
    }
    drop(locked);
    desk.is_stopped
}

fn printed(alloc: Global, given: Result<String, Failed>) -> Result<String, AllocError> {
    match given {
        Ok(text) => Ok(text),
        Err(failed) => failed_text(alloc, &failed),
    }
}

fn failed_text(alloc: Global, failed: &Failed) -> Result<String, AllocError> {
    let number = failed.outcome.number();
    let text = failed.text.as_str();
    format!(in alloc; "{number} {text}")
}

// What `registrations` gives.
fn list(rt: &HostRuntime, folder: &str) -> Result<String, Memory> {
    let mut err = MemSink::new(rt.alloc(), 4_096, Seq::new(rt.alloc()))?;
    Ok(printed(rt.alloc(), registrations(rt, &NoStores, folder, &mut err))?)
}

// What `forget` of a phone gives; nothing where it is done.
fn remove(rt: &HostRuntime, folder: &str, last: u8) -> Result<String, Memory> {
    let mut err = MemSink::new(rt.alloc(), 4_096, Seq::new(rt.alloc()))?;
    match forget(rt, &NoStores, folder, &phone(last), &mut err) {
        Ok(()) => Ok(String::new(rt.alloc())),
        Err(failed) => Ok(failed_text(rt.alloc(), &failed)?),
    }
}

fn end(rt: &HostRuntime, folder: &str) -> Result<String, Memory> {
    let mut err = MemSink::new(rt.alloc(), 4_096, Seq::new(rt.alloc()))?;
    match stop(rt, folder, &mut err) {
        Ok(text) => Ok(String::from_str(rt.alloc(), text)?),
        Err(failed) => Ok(failed_text(rt.alloc(), &failed)?),
    }
}

fn is_free(rt: &HostRuntime, folder: &str) -> bool {
    matches!(try_lock(rt, folder), Ok(Some(_)))
}

#[test]
fn commands_beside_a_service(rt: HostRuntime) -> Result<(), Fail> {
    make_folder(&rt, "beside")?;
    let locked = try_lock(&rt, "beside").ok().expect(&rt, "a folder");
    let locked = locked.expect(&rt, "a free folder");
    assert!(rt; !is_free(&rt, "beside"));
    let clerk = Clerk::start(&rt, "beside")?;
    let desk = Desk::new(rt.clone()?, &[0x11, 0x22, 0x77])?;
    let own = rt.clone()?;
    let child = thread::spawn(&rt, move || serve(own, clerk, desk, locked))?;
    let found = list(&rt, "beside")?;
    assert!(rt; found.as_str().lines().count() == 3, "{found}");
    let rows: &[(u8, &str)] = &[
        (0x22, ""),
        (0x22, "22 the phone is not registered"),
        (
            0x77,
            "23 a line vehicle of the fleet binds the phone: take the line out",
        ),
    ];
    for (last, expected) in rows {
        let found = remove(&rt, "beside", *last)?;
        assert!(rt; found.as_str() == *expected, "{last}: {found}");
    }
    let found = list(&rt, "beside")?;
    assert!(rt;
        found.as_str() == "013900000011\tB11\tT11\n013900000077\tB77\tT77\n",
        "{found}"
    );
    let found = end(&rt, "beside")?;
    assert!(rt; found.as_str() == "stopped\n", "{found}");
    assert!(rt; child.join(&rt));
    assert!(rt; is_free(&rt, "beside"));
    assert!(rt; fs::read_dir(&rt, "beside/commands")?.next().is_none());
    fs::remove_dir_all(&rt, "beside")?;
    Ok(())
}

#[test]
fn commands_without_a_service(rt: HostRuntime) -> Result<(), Fail> {
    let found = list(&rt, "nowhere")?;
    assert!(rt; found.as_str().starts_with("9 nowhere: "), "{found}");
    fs::write(&rt, "a_file", "")?;
    let found = end(&rt, "a_file")?;
    assert!(rt; found.as_str().starts_with("9 a_file: "), "{found}");
    fs::remove_file(&rt, "a_file")?;
    make_folder(&rt, "alone")?;
    let found = end(&rt, "alone")?;
    assert!(rt; found.as_str() == "no service runs\n", "{found}");
    let found = list(&rt, "alone")?;
    assert!(rt;
        found.as_str().starts_with("5 alone/platform.db: "),
        "{found}"
    );
    let found = remove(&rt, "alone", 0x11)?;
    assert!(rt;
        found.as_str().starts_with("5 alone/platform.db: "),
        "{found}"
    );
    fs::remove_dir_all(&rt, "alone")?;
    Ok(())
}
