//! The command `check`.

use crate::folder::{Trouble, read_fleet_of, settings_of};
use dewfelt_fleet::Fleet;
use dewfelt_settings::{Choices, Settings};
use std::alloc::{AllocError, Global};
use std::rt::Files;

fn text_of(
    alloc: Global,
    folder: &str,
    settings: &Settings,
    fleet: &Fleet,
) -> Result<String, AllocError> {
    let (vehicles, plates, terminals) = fleet.counts();
    let listen = settings.listen;
    let links = settings.links.number;
    let http = settings.http;
    format!(in alloc;
        "{folder}: vehicles={vehicles} plates={plates} terminals={terminals} links={links} listen={listen} http={http}\n"
    )
}

fn said_of(
    alloc: Global,
    folder: &str,
    settings: &Settings,
    fleet: &Fleet,
) -> Result<String, Trouble> {
    match text_of(alloc, folder, settings, fleet) {
        Ok(text) => Ok(text),
        Err(_) => Err(Trouble::memory(alloc)),
    }
}

/// Reads the files of a folder. Says what a service would be, or what is wrong.
pub fn check<R: Files + AllocGlobal>(
    rt: &R,
    folder: &str,
    words: &Choices,
) -> Result<String, Trouble> {
    let settings = settings_of(rt, folder, words)?;
    let (_text, fleet) = read_fleet_of(rt, folder)?;
    said_of(rt.alloc(), folder, &settings, &fleet)
}
