//! The names of the settings.

ghost use Rattle.std.specs.Prelude.{◌≡◌};
ghost use Rattle.std.specs.Str.{bytes_eq};

/// A setting that has a value. Its name is a key of dewfelt.toml, and with `-` for `_` an option.
#[derive(Clone, Copy)]
pub enum Key {
    /// The address and the port to listen at.
    Listen,
    /// How many links are open at a time at most.
    Links,
    /// After how many seconds without an octet a link is ended.
    Quiet,
    /// How many of the links may be of terminals that were not let in.
    Strangers,
    /// How many of these may come from one address.
    StrangersOfAddress,
    /// Where the interface over HTTP is.
    Http,
    /// By which name a proxy calls that.
    HttpName,
}

// All settings.
const KEYS: [Key; 7] = [
    Key::Listen,
    Key::Links,
    Key::Quiet,
    Key::Strangers,
    Key::StrangersOfAddress,
    Key::Http,
    Key::HttpName,
];

impl Key {
    ghost use Rattle.dewfelt_settings.specs.Keys.{IsSpelled, name_of, option_of};

    /// The setting of this name in dewfelt.toml.
    pub fn named(name: &[u8]) -> Option<Key>
        ensures { IsSpelled name_of name.now result }
    {
        KEYS.iter().copied().find(|key| key.is_named(name))
    }

    /// The setting whose option has this name, without its two dashes.
    pub fn of_option(option: &[u8]) -> Option<Key>
        ensures { IsSpelled option_of option.now result }
    {
        KEYS.iter().copied().find(|key| key.has_option(option))
    }

    fn is_named(&self, name: &[u8]) -> bool
        ensures { result ≡ bytes_eq (name_of self.now) name.now }
    {
        self.name().as_bytes() == name
    }

    fn has_option(&self, option: &[u8]) -> bool
        ensures { result ≡ bytes_eq (option_of self.now) option.now }
    {
        self.option().as_bytes() == option
    }

    /// Its name in dewfelt.toml.
    #[tactic(auto, unfolding(crate::specs::Keys::name_of))]
    pub fn name(self) -> &'static str
        ensures { result.now ≡ name_of self }
    {
        match self {
            Key::Listen => "listen",
            Key::Links => "links",
            Key::Quiet => "quiet",
            Key::Strangers => "strangers",
            Key::StrangersOfAddress => "strangers_of_address",
            Key::Http => "http",
            Key::HttpName => "http_name",
        }
    }

    /// The name of its option, without the two dashes.
    #[tactic(auto, unfolding(crate::specs::Keys::option_of))]
    pub fn option(self) -> &'static str
        ensures { result.now ≡ option_of self }
    {
        match self {
            Key::Listen => "listen",
            Key::Links => "links",
            Key::Quiet => "quiet",
            Key::Strangers => "strangers",
            Key::StrangersOfAddress => "strangers-of-address",
            Key::Http => "http",
            Key::HttpName => "http-name",
        }
    }

    /// What its value has to be.
    pub fn expected(self) -> &'static str {
        match self {
            Key::Listen => "an address and a port, as 0.0.0.0:8808 or [::]:8808",
            Key::Links | Key::Strangers | Key::StrangersOfAddress => "a number from 1 to 10000",
            Key::Quiet => "a number of seconds from 1 to 86400",
            Key::Http => "none, or an address and a port, as 127.0.0.1:8080 or [::1]:8080",
            Key::HttpName => "a host in small letters, with its port where a browser sends one",
        }
    }
}
