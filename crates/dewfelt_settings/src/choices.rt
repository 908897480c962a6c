//! What words or a file choose.

ghost use Rattle.std.specs.Prelude.{◌≡◌, None, false, MatchOption};
ghost use Rattle.dewfelt_settings.specs.Choosing.{has_choice, WithNumber, WithText, IsAddress, HasNoAddress, IsHttp, HasNoHttp};

use crate::Key;
use crate::host::HostName;
use crate::http::Http;
use crate::number::{Count, Seconds};
use std::net::SocketAddr;

/// The settings that are chosen. A setting that is not chosen is None.
#[derive(Clone, Copy)]
pub struct Choices {
    pub listen: Option<SocketAddr>,
    pub links: Option<Count>,
    pub quiet: Option<Seconds>,
    pub strangers: Option<Count>,
    pub strangers_of_address: Option<Count>,
    pub http: Option<Http>,
    pub http_name: Option<HostName>,
    /// Whether the run ends with its standard input.
    pub until_input_ends: bool,
}

// An address and a port from 1 on.
fn address(text: &str) -> Option<SocketAddr>
    ensures { MatchOption result (HasNoAddress text.now) (IsAddress text.now) }
{
    match text.parse::<SocketAddr>() {
        Ok(address) => {
            if address.port() != 0 {
                return Some(address);
            }
            None
        }
        Err(_) => None,
    }
}

// `none`, or an address and a port from 1 on.
fn http(text: &str) -> Option<Http>
    ensures { MatchOption result (HasNoHttp text.now) (IsHttp text.now) }
{
    if text == "none" {
        return Some(Http::Off);
    }
    Some(Http::At(address(text)?))
}

impl Choices {
    /// Nothing is chosen.
    pub fn none() -> Choices
        ensures { result ≡ record {
          listen = None;
          links = None;
          quiet = None;
          strangers = None;
          strangers_of_address = None;
          http = None;
          http_name = None;
          until_input_ends = false;
        } }
    {
        Choices {
            listen: None,
            links: None,
            quiet: None,
            strangers: None,
            strangers_of_address: None,
            http: None,
            http_name: None,
            until_input_ends: false,
        }
    }

    /// Whether this setting is chosen.
    pub fn has(&self, key: Key) -> bool
        ensures { result ≡ has_choice self.now key }
    {
        match key {
            Key::Listen => self.listen.is_some(),
            Key::Links => self.links.is_some(),
            Key::Quiet => self.quiet.is_some(),
            Key::Strangers => self.strangers.is_some(),
            Key::StrangersOfAddress => self.strangers_of_address.is_some(),
            Key::Http => self.http.is_some(),
            Key::HttpName => self.http_name.is_some(),
        }
    }

    /// These choices, with this number chosen. None means that the setting has no such number.
    pub fn with_number(self, key: Key, number: u32) -> Option<Choices>
        ensures { WithNumber self key number result }
    {
        let mut choices = self;
        match key {
            Key::Links => choices.links = Some(Count::of(number)?),
            Key::Quiet => choices.quiet = Some(Seconds::of(number)?),
            Key::Strangers => choices.strangers = Some(Count::of(number)?),
            Key::StrangersOfAddress => choices.strangers_of_address = Some(Count::of(number)?),
            Key::Listen | Key::Http | Key::HttpName => return None,
        }
        Some(choices)
    }

    /// These choices, with this text chosen. None means that the setting has no such text.
    pub fn with_text(self, key: Key, text: &str) -> Option<Choices>
        ensures { WithText self key text.now result }
    {
        let mut choices = self;
        match key {
            Key::Listen => choices.listen = Some(address(text)?),
            Key::Http => choices.http = Some(http(text)?),
            Key::HttpName => choices.http_name = Some(HostName::of(text)?),
            _ => return None,
        }
        Some(choices)
    }
}
