//! The settings of a run.

ghost use Rattle.std.specs.Prelude.{◌≡◌, ◌≤◌, min};
ghost use Rattle.std.specs.Net.Socket.{socket_port};
ghost use Rattle.std.specs.declared.net.socket_addr.SocketAddr.{SocketAddr};
ghost use Rattle.dewfelt_settings.specs.Choosing.{IsAnywhere, IsHere};
ghost use Rattle.dewfelt_settings.specs.declared.http.Http.{Http as Place};
ghost use Rattle.dewfelt_settings.specs.declared.http.Http.TheVariants.{At};

use crate::Choices;
use crate::host::HostName;
use crate::http::Http;
use crate::number::{Count, Seconds};
use std::net::{IpAddr, Ipv4Addr, SocketAddr};

/// The port where none is chosen (this project's own).
pub const PORT: u16 = 8_808;

/// The port of the interface over HTTP where none is chosen (this project's own).
pub const HTTP_PORT: u16 = 8_080;

/// The settings of a run.
#[derive(Clone, Copy)]
pub struct Settings {
    /// The address and the port to listen at.
    pub listen: SocketAddr,
    /// How many links are open at a time at most.
    pub links: Count,
    /// After how many seconds without an octet a link is ended.
    pub quiet: Seconds,
    /// How many of the links may be of terminals that were not let in.
    pub strangers: Count,
    /// How many of these may come from one address, where that has a limit of its own.
    pub strangers_of_address: Option<Count>,
    /// Where the interface over HTTP is.
    pub http: Http,
    /// By which name a proxy calls that, where it has one.
    pub http_name: Option<HostName>,
    /// Whether the run ends with its standard input.
    pub until_input_ends: bool,
}

// Every address of IPv4.
fn default_listen() -> SocketAddr
    ensures port { socket_port result ≡ PORT }
    ensures anywhere { IsAnywhere result }
{
    SocketAddr::new(IpAddr::V4(Ipv4Addr::new(0, 0, 0, 0)), PORT)
}

// The machine itself.
fn default_http() -> SocketAddr
    ensures port { socket_port result ≡ HTTP_PORT }
    ensures here { IsHere result }
{
    SocketAddr::new(IpAddr::V4(Ipv4Addr::new(127, 0, 0, 1)), HTTP_PORT)
}

impl Settings {
    ghost use Rattle.std.specs.Prelude.{Some, None};
    ghost use Rattle.dewfelt_settings.specs.Numbers.{half_of};
    ghost use Rattle.dewfelt_settings.specs.Choosing.{chosen, or_else};

    /// What the words choose, else what the file chooses, else the default. Of strangers there are at most as many as of links.
    pub fn of(words: &Choices, file: &Choices) -> Settings
        ensures links { result.links.number
            ≡ chosen (λ count. count.number) words.now.links file.now.links 1024 }
        ensures quiet { result.quiet.number
            ≡ chosen (λ seconds. seconds.number) words.now.quiet file.now.quiet 180 }
        ensures strangers { result.strangers.number
            ≡ min (chosen (λ count. count.number) words.now.strangers file.now.strangers
            (half_of result.links.number)) result.links.number }
        ensures of_address { result.strangers_of_address
            ≡ or_else words.now.strangers_of_address file.now.strangers_of_address }
        ensures listen { or_else words.now.listen file.now.listen ≡ None →
            socket_port result.listen ≡ PORT }
        ensures listen_anywhere { or_else words.now.listen file.now.listen ≡ None →
            IsAnywhere result.listen }
        ensures listen_chosen { (address : SocketAddr) →
            or_else words.now.listen file.now.listen ≡ Some address → result.listen ≡ address }
        ensures http { or_else words.now.http file.now.http ≡ None →
            (address : SocketAddr) × (result.http ≡ At address)
            × (socket_port address ≡ HTTP_PORT) × IsHere address }
        ensures http_chosen { (place : Place) →
            or_else words.now.http file.now.http ≡ Some place → result.http ≡ place }
        ensures http_name { result.http_name ≡ or_else words.now.http_name file.now.http_name }
        ensures until { result.until_input_ends ≡ words.now.until_input_ends }
    {
        let links = words.links.or(file.links).unwrap_or(Count::usual());
        let strangers = words.strangers.or(file.strangers).unwrap_or(links.half());
        Settings {
            listen: words.listen.or(file.listen).unwrap_or(default_listen()),
            links,
            quiet: words
                .quiet
                .or(file.quiet)
                .unwrap_or(Seconds::three_minutes()),
            strangers: strangers.at_most(links),
            strangers_of_address: words.strangers_of_address.or(file.strangers_of_address),
            http: words.http.or(file.http).unwrap_or(Http::At(default_http())),
            http_name: words.http_name.or(file.http_name),
            until_input_ends: words.until_input_ends,
        }
    }
}
