//! Lines of what a service does by itself.

use crate::Told;
use dewfelt_fleet::BadLine;
use dewfelt_settings::{Http, Settings};
use std::net::SocketAddr;
use std::sync::Wait;
use std::time::Clock;

/// The version of the program.
pub const VERSION: &str = "0.1.0";

/// The service starts, with these settings.
pub fn say_start<T: Wait + Clock + Drop>(told: &mut Told<T>, settings: &Settings) {
    let mut line = told.line("start");
    line.text("version", VERSION);
    line.address("listen", settings.listen);
    line.number("links", settings.links.number as u64);
    line.number("quiet", settings.quiet.number as u64);
    line.number("strangers", settings.strangers.number as u64);
    match settings.strangers_of_address {
        Some(count) => line.number("strangers_of_address", count.number as u64),
        None => line.text("strangers_of_address", "none"),
    }
    line.text("until_input_ends", yes(settings.until_input_ends));
    match settings.http {
        Http::At(address) => line.address("http", address),
        Http::Off => line.text("http", "none"),
    }
    told.put(line);
}

/// Browsers are answered at this address, who bring the token of this file.
pub fn say_http<T: Wait + Clock + Drop>(told: &mut Told<T>, address: SocketAddr, token_file: &str) {
    let mut line = told.line("http");
    line.address("address", address);
    line.text("token_file", token_file);
    told.put(line);
}

/// What a store has that was opened, and the fleet over it.
#[derive(Clone, Copy)]
pub struct Opened {
    /// How many vehicles are bound, and how many other plates and terminal ids there are.
    pub vehicles: usize,
    pub plates: usize,
    pub terminals: usize,
    /// How many registrations went, since the fleet does not allow them.
    pub forgotten: usize,
    /// How many octets its file has.
    pub octets: u64,
    /// How long it took.
    pub milliseconds: u64,
}

/// The store is open.
pub fn say_opened<T: Wait + Clock + Drop>(told: &mut Told<T>, opened: Opened) {
    let mut line = told.line("opened");
    line.number("vehicles", opened.vehicles as u64);
    line.number("plates", opened.plates as u64);
    line.number("terminals", opened.terminals as u64);
    line.number("forgotten", opened.forgotten as u64);
    line.number("octets", opened.octets);
    line.number("milliseconds", opened.milliseconds);
    told.put(line);
}

/// The store does not open, of which the system says this, where it says anything.
pub fn say_unopened<T: Wait + Clock + Drop>(told: &mut Told<T>, why: &str, said: Option<String>) {
    let mut line = told.line("fault");
    line.text("opening", why);
    if let Some(said) = said {
        line.text("said", said.as_str());
    }
    told.put(line);
}

/// Links are accepted from now on.
pub fn say_listening<T: Wait + Clock + Drop>(told: &mut Told<T>, settings: &Settings) {
    let mut line = told.line("listening");
    line.address("at", settings.listen);
    told.put(line);
}

/// What a newer fleet has, and what came of it.
#[derive(Clone, Copy)]
pub struct FleetTaken {
    /// How many vehicles are bound, and how many other plates and terminal ids there are.
    pub vehicles: usize,
    pub plates: usize,
    pub terminals: usize,
    /// How many phones are registered no more.
    pub forgotten: usize,
    /// Whether the service begins anew.
    pub renews: bool,
    /// Whether its secret is another one, which is taken at the next start.
    pub has_new_secret: bool,
}

fn yes(is_so: bool) -> &'static str {
    if is_so { "yes" } else { "no" }
}

/// A newer fleet was taken.
pub fn say_fleet<T: Wait + Clock + Drop>(told: &mut Told<T>, taken: FleetTaken) {
    let mut line = told.line("fleet");
    line.text("result", "taken");
    line.number("vehicles", taken.vehicles as u64);
    line.number("plates", taken.plates as u64);
    line.number("terminals", taken.terminals as u64);
    line.number("forgotten", taken.forgotten as u64);
    line.text("renews", yes(taken.renews));
    if taken.has_new_secret {
        line.text("secret", "changed: it is taken at the next start");
    }
    told.put(line);
}

/// A line of the file of the fleet is bad, and the fleet stays as it was.
pub fn say_bad_fleet<T: Wait + Clock + Drop>(told: &mut Told<T>, bad: &BadLine) {
    let mut line = told.line("fleet");
    line.text("result", "bad");
    line.number("line", bad.number);
    line.text("text", bad.text.as_str());
    let expected = bad.expected;
    if let Ok(text) = format!(in told.alloc(); "{expected}") {
        line.text("expected", text.as_str());
    }
    told.put(line);
}
