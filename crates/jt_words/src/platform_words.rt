//! The words of `platform`.

ghost use Rattle.std.specs.Prelude.{◌≡◌, ◌≤◌, ℕ, List, map, string_bytes, IfSome, MatchOption};
ghost use Rattle.std.specs.Fmt.{decimal};
ghost use Rattle.jt_input.specs.Spelling.{Reads};
ghost use Rattle.jt_words.specs.Platform.{PlatformWords as AreWords, AreOptions};

use crate::option_words::option_pair;
use jt_input::number;
use jt_value::limits::PORT_LIMIT;

/// What `platform` is told.
#[derive(Clone, Copy, Debug, PartialEq, Eq)]
pub struct PlatformWords {
    /// The port to listen at, from 1 to 65,535.
    pub port: u16,
    /// How many sessions are served, from 1 to 1,024.
    pub sessions: u32,
}

const PORT: &[u8] = b"port";

const SESSIONS: &[u8] = b"sessions";

const SESSIONS_MOST: u32 = 1_024;

// The values of the port and of the number of sessions.
fn values(options: &[String]) -> Option<(&[u8], &[u8])>
    ensures some { IfSome result (λ values.
        AreOptions values.0.now values.1.now (map string_bytes options.now)) }
    ensures each { (port sessions : List ℕ) →
        AreOptions port sessions (map string_bytes options.now) →
        MatchOption result ⊥ (λ values. (values.0.now ≡ port) × (values.1.now ≡ sessions)) }
{
    match option_pair(options, PORT, SESSIONS) {
        Some(values) => Some(values),
        None => {
            let (sessions, port) = option_pair(options, SESSIONS, PORT)?;
            Some((port, sessions))
        }
    }
}

// A number from 1 to the greatest.
fn in_range(octets: &[u8], most: u32) -> Option<u32>
    ensures { Reads decimal (λ number. (1 ≤ number) × (number ≤ most)) octets.now result }
{
    match number(octets, most)? {
        0 => None,
        number => Some(number),
    }
}

impl PlatformWords {
    /// Reads the words after the program's name. None means that they are no words of `platform`.
    pub fn from_words(words: &[String]) -> Option<PlatformWords>
        ensures some { IfSome result (λ told.
            AreWords told.port told.sessions (map string_bytes words.now)) }
        ensures that_one { (port sessions : ℕ) →
            AreWords port sessions (map string_bytes words.now) →
            MatchOption result ⊥ (λ told. (told.port ≡ port) × (told.sessions ≡ sessions)) }
    {
        let (command, options) = words.split_first()?;
        if command.as_str() != "platform" {
            return None;
        }
        let (port, sessions) = values(options)?;
        let port = in_range(port, PORT_LIMIT)?;
        let sessions = in_range(sessions, SESSIONS_MOST)?;
        Some(PlatformWords {
            port: u16::try_from(port).ok()?,
            sessions,
        })
    }
}
